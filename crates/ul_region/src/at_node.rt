//! What a region asks of a release at a node.
ghost use Rattle.std.specs.Prelude.{Decides, not};
ghost use Rattle.ul_region.specs.Asked.{HasAsked, HasGroup, HasOther, IsAtNode, IsFirmAsked};
ghost use Rattle.ul_region.specs.Asked.{IsFitSomewhere, IsFitThroughout, IsTrueSomewhere, IsUnfitSomewhere};
ghost use Rattle.ul_region.specs.Groups.{FailsFirst, IsFailing, IsInSplit, OpensGroup, PartsRegion};

use crate::in_region::InRegion;
use crate::rows::{Asked, Row};
use ul_algebra::{Algebra, Diagram};
use ul_base::Node;
use ul_requirement::laws::unnamed_never_applies;

/// The requirements of a release at a node, in a region. A row has a lifetime of its own, since it shares a list.
#[derive(Drop)]
pub struct AtNode<'a, 'r> {
    pub place: &'a InRegion<'a>,
    pub node: &'a Node,
    pub row: &'a Row<'r>,
}

impl<'a, 'r> AtNode<'a, 'r> {
    /// Whether the release is fit at some world of the region.
    pub fn is_fit_somewhere(&self, algebra: &Algebra<'_>) -> bool
        requires { IsAtNode algebra.now self.now }
        ensures { Decides result (IsFitSomewhere self.now) }
    {
        let within = self.place.holds_at(self.row.fit);
        !algebra.is_false(within)
    }

    /// Whether the release is fit at every world of the region.
    pub fn is_fit_throughout(&self, algebra: &Algebra<'_>) -> bool
        requires { IsAtNode algebra.now self.now }
        ensures everywhere { Decides result (IsFitThroughout self.now) }
        ensures fails { Decides (not result) (IsUnfitSomewhere self.now) }
    {
        let within = self.place.holds_at(self.row.fit);
        algebra.same(within, self.place.region)
    }

    /// Whether a requirement is true at some world of the region.
    pub fn is_applied(&self, algebra: &Algebra<'_>, one: &Asked<'_>) -> bool
        requires whole { IsAtNode algebra.now self.now }
        requires listed { HasAsked self.now one.now }
        ensures { Decides result (IsTrueSomewhere self.now one.now) }
    {
        let within = self.place.holds_at(one.truth);
        !algebra.is_false(within)
    }

    // Whether the other is an applied one on the same name, of another truth in the region.
    fn is_other(&self, algebra: &Algebra<'_>, one: &Asked<'_>, other: &Asked<'_>) -> bool
        requires whole { IsAtNode algebra.now self.now }
        requires one { HasAsked self.now one.now }
        requires other { HasAsked self.now other.now }
        ensures { Decides result (HasOther self.now one.now other.now) }
    {
        if other.name != one.name {
            return false;
        }
        if !self.is_applied(algebra, other) {
            return false;
        }
        let mine = self.place.holds_at(one.truth);
        let theirs = self.place.holds_at(other.truth);
        !algebra.same(mine, theirs)
    }

    // Whether an applied requirement is in a split group.
    fn is_parted(&self, algebra: &Algebra<'_>, one: &Asked<'_>) -> bool
        requires whole { IsAtNode algebra.now self.now }
        requires one { HasAsked self.now one.now }
        requires applied { IsTrueSomewhere self.now one.now }
        ensures { Decides result (HasGroup self.now one.now) }
    {
        unnamed_never_applies();
        let asked: &[Asked<'r>] = self.row.asked.as_slice();
        let mut place = one.name;
        while place < asked.len() {
            let other = &asked[place];
            if self.is_other(algebra, one, other) {
                return true;
            }
            place = other.next;
        }
        false
    }

    /// Whether a requirement is applied and outside all split groups.
    pub fn is_firm(&self, algebra: &Algebra<'_>, one: &Asked<'_>) -> bool
        requires whole { IsAtNode algebra.now self.now }
        requires one { HasAsked self.now one.now }
        ensures { Decides result (IsFirmAsked self.now one.now) }
    {
        if !self.is_applied(algebra, one) {
            return false;
        }
        let parted = self.is_parted(algebra, one);
        !parted
    }

    /// Whether a requirement is applied and in a split group.
    pub fn is_in_split(&self, algebra: &Algebra<'_>, one: &Asked<'_>) -> bool
        requires whole { IsAtNode algebra.now self.now }
        requires one { HasAsked self.now one.now }
        ensures { Decides result (IsInSplit self.now one.now) }
    {
        if !self.is_applied(algebra, one) {
            return false;
        }
        self.is_parted(algebra, one)
    }

    // The first requirement in a split group.
    fn opener(&self, algebra: &Algebra<'_>) -> Option<&Asked<'r>>
        requires { IsAtNode algebra.now self.now }
        ensures { OpensGroup self.now result }
    {
        unnamed_never_applies();
        for one in self.row.asked.as_slice() {
            if self.is_in_split(algebra, one) {
                return Some(one);
            }
        }
        None
    }

    // Whether a requirement is an applied one on the opener's name that fails at some world of the region.
    fn is_failing(&self, algebra: &Algebra<'_>, opener: &Asked<'_>, one: &Asked<'_>) -> bool
        requires whole { IsAtNode algebra.now self.now }
        requires opener { HasAsked self.now opener.now }
        requires one { HasAsked self.now one.now }
        ensures { Decides result (IsFailing self.now opener.now one.now) }
    {
        if one.name != opener.name {
            return false;
        }
        if !self.is_applied(algebra, one) {
            return false;
        }
        let within = self.place.holds_at(one.truth);
        !algebra.same(within, self.place.region)
    }

    // The first requirement on the opener's name that fails at some world of the region.
    fn failing(&self, algebra: &Algebra<'_>, opener: &Asked<'_>) -> Option<&Asked<'r>>
        requires whole { IsAtNode algebra.now self.now }
        requires opener { HasAsked self.now opener.now }
        ensures { FailsFirst self.now opener.now result }
    {
        unnamed_never_applies();
        for one in self.row.asked.as_slice() {
            if self.is_failing(algebra, opener, one) {
                return Some(one);
            }
        }
        None
    }

    /// The truth of the first requirement of the first split group that fails somewhere in the region; none exactly where
    /// there is no split group.
    pub fn parting(&self, algebra: &Algebra<'_>) -> Option<&Diagram>
        requires { IsAtNode algebra.now self.now }
        ensures { PartsRegion algebra.now self.now result }
    {
        let Some(opener) = self.opener(algebra) else {
            return None;
        };
        let Some(found) = self.failing(algebra, opener) else {
            return None;
        };
        Some(self.place.truth_held(found.truth))
    }
}
