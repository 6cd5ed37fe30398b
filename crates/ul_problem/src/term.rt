//! Terms on a node.
ghost use Rattle.std.specs.Prelude.{◌≡◌, List, Bool, length, option_map, IfOk, IsTrue, ◌↔◌};
ghost use Rattle.ul_problem.specs.Steps.{term_to_say};
ghost use Rattle.ul_problem.specs.Terms.{node_of, set_of, meet_of, join_of, negation, relation_of, relation_from_of, term_on};
ghost use Rattle.ul_problem.specs.declared.term.Term.TheVariants.{In, NotIn};

use std::alloc::{AllocError, Global};
use std::marker::Model;
use ul_base::owned::with_made;
use ul_ranges::Ordinals;

/// What is said of a selection: `In`, that it has the node at a version of the set; `NotIn`, that this isn't so.
#[derive(Drop)]
pub enum Term {
    In(u64, Ordinals),
    NotIn(u64, Ordinals),
}

/// A list of terms, as a step of a derivation has them.
#[derive(Drop)]
pub struct Terms {
    list: Vec<Term>,
}

impl Model for Terms {
    ghost use Rattle.std.specs.Prelude.{List};
    ghost use Rattle.ul_problem.specs.declared.term.Term.{Term};

    ghost Value = { List Term };

    ghost view = { λ s. s.list.items };
}

impl Terms {
    pub fn of(list: Vec<Term>) -> Terms
        ensures { result ≡ list.items }
    {
        Terms { list }
    }

    pub fn as_slice(&self) -> &[Term]
        ensures { result.now ≡ self.now }
    {
        self.list.as_slice()
    }

    pub fn into_vec(self) -> Vec<Term>
        ensures { result.items ≡ self }
    {
        self.list
    }

    /// Equal terms.
    pub fn copy(&self, alloc: Global) -> Result<Terms, AllocError>
        ensures { IfOk result (λ ts. ts ≡ self.now) }
    {
        Terms::copied(alloc, self.list.as_slice())
    }

    /// Terms equal to those of a list.
    pub fn copied(alloc: Global, terms: &[Term]) -> Result<Terms, AllocError>
        ensures { IfOk result (λ ts. ts ≡ terms.now) }
    {
        let mut list = Vec::with_capacity(alloc, terms.len())?;
        for term in terms {
            list = with_made(list, term.copy(alloc))?;
        }
        Ok(Terms { list })
    }
}

/// The first term of a list on a node.
pub fn term_on(terms: &[Term], node: u64) -> Option<&Term>
    ensures { option_map (λ t. t.now) result ≡ term_on node terms.now }
{
    for term in terms {
        if term.node() == node {
            return Some(term);
        }
    }
    None
}

/// Whether two lists of terms are equal.
pub fn same_terms(terms: &[Term], others: &[Term]) -> bool
    ensures { IsTrue result ↔ (terms.now ≡ others.now) }
{
    if terms.len() != others.len() {
        return false;
    }
    for k in 0..terms.len() {
        if !terms[k].same(&others[k]) {
            return false;
        }
    }
    true
}

/// What a term that is known tells of another.
#[derive(Clone, Copy)]
pub enum Relation {
    Holds,
    Fails,
    Unknown,
}

impl Term {
    /// The node.
    pub fn node(&self) -> u64
        ensures { result ≡ node_of self.now }
    {
        match self {
            Term::In(node, _) => *node,
            Term::NotIn(node, _) => *node,
        }
    }

    /// The set.
    pub fn set(&self) -> &Ordinals
        ensures { result.now ≡ set_of self.now }
    {
        match self {
            Term::In(_, set) => set,
            Term::NotIn(_, set) => set,
        }
    }

    /// Whether it is `NotIn` of the empty set, and so holds of each selection.
    pub fn always_holds(&self) -> bool
        ensures { IsTrue result ↔ (term_to_say self.now ≡ None) }
    {
        match self {
            Term::In(_, _) => false,
            Term::NotIn(_, set) => set.is_empty(),
        }
    }

    /// An equal term.
    pub fn copy(&self, alloc: Global) -> Result<Term, AllocError>
        ensures { IfOk result (λ t. t ≡ self.now) }
    {
        match self {
            Term::In(node, set) => term_in(*node, set.copy(alloc)),
            Term::NotIn(node, set) => term_not_in(*node, set.copy(alloc)),
        }
    }

    /// Whether the two are equal.
    pub fn same(&self, other: &Term) -> bool
        ensures { IsTrue result ↔ (self.now ≡ other.now) }
    {
        match (self, other) {
            (Term::In(node, set), Term::In(place, versions)) => node == place && set.same(versions),
            (Term::NotIn(node, set), Term::NotIn(place, versions)) => node == place
                && set.same(versions),
            _ => false,
        }
    }

    /// The term that holds where both do.
    pub fn meet(&self, alloc: Global, other: &Term) -> Result<Term, AllocError>
        requires sizes { length (set_of self.now) ≡ length (set_of other.now) }
        requires nodes { node_of self.now ≡ node_of other.now }
        ensures { IfOk result (λ t. t ≡ meet_of self.now other.now) }
    {
        match (self, other) {
            (Term::In(node, mine), Term::In(_, theirs)) => term_in(*node, mine.meet(alloc, theirs)),
            (Term::In(node, mine), Term::NotIn(_, theirs)) => term_in(
                *node,
                mine.less(alloc, theirs),
            ),
            (Term::NotIn(node, mine), Term::In(_, theirs)) => term_in(
                *node,
                theirs.less(alloc, mine),
            ),
            (Term::NotIn(node, mine), Term::NotIn(_, theirs)) => term_not_in(
                *node,
                mine.join(alloc, theirs),
            ),
        }
    }

    /// The term that holds where one of the two does.
    pub fn join(&self, alloc: Global, other: &Term) -> Result<Term, AllocError>
        requires sizes { length (set_of self.now) ≡ length (set_of other.now) }
        requires nodes { node_of self.now ≡ node_of other.now }
        ensures { IfOk result (λ t. t ≡ join_of self.now other.now) }
    {
        match (self, other) {
            (Term::In(node, mine), Term::In(_, theirs)) => term_in(*node, mine.join(alloc, theirs)),
            (Term::In(node, mine), Term::NotIn(_, theirs)) => term_not_in(
                *node,
                theirs.less(alloc, mine),
            ),
            (Term::NotIn(node, mine), Term::In(_, theirs)) => term_not_in(
                *node,
                mine.less(alloc, theirs),
            ),
            (Term::NotIn(node, mine), Term::NotIn(_, theirs)) => term_not_in(
                *node,
                mine.meet(alloc, theirs),
            ),
        }
    }

    /// The term that holds where this one doesn't.
    pub fn negation(&self, alloc: Global) -> Result<Term, AllocError>
        ensures { IfOk result (λ t. t ≡ negation self.now) }
    {
        match self {
            Term::In(node, set) => term_not_in(*node, set.copy(alloc)),
            Term::NotIn(node, set) => term_in(*node, set.copy(alloc)),
        }
    }

    /// What a known term tells of this one: that it holds, that it fails, or neither. It takes no memory.
    ///
    /// A known term that never holds tells both, and the answer is then `Holds`.
    pub fn relation(&self, known: &Term) -> Relation
        requires sizes { length (set_of self.now) ≡ length (set_of known.now) }
        requires nodes { node_of self.now ≡ node_of known.now }
        ensures { result ≡ relation_of known.now self.now }
    {
        match known {
            Term::In(_, theirs) => match self {
                Term::In(_, mine) => relation_from(theirs.is_within(mine), theirs.is_apart(mine)),
                Term::NotIn(_, mine) => relation_from(
                    theirs.is_apart(mine),
                    theirs.is_within(mine),
                ),
            },
            Term::NotIn(_, theirs) => match self {
                Term::In(_, mine) => relation_from(false, mine.is_within(theirs)),
                Term::NotIn(_, mine) => relation_from(mine.is_within(theirs), false),
            },
        }
    }
}

// `In` of a node, with the set that was made.
fn term_in(node: u64, made: Result<Ordinals, AllocError>) -> Result<Term, AllocError>
    ensures { (set : List Bool) → IfOk made (λ s. s ≡ set) → IfOk result (λ t. t ≡ In node set) }
{
    let set = made?;
    Ok(Term::In(node, set))
}

// `NotIn` of a node, with the set that was made.
fn term_not_in(node: u64, made: Result<Ordinals, AllocError>) -> Result<Term, AllocError>
    ensures { (set : List Bool) → IfOk made (λ s. s ≡ set) → IfOk result (λ t. t ≡ NotIn node set) }
{
    let set = made?;
    Ok(Term::NotIn(node, set))
}

fn relation_from(holds: bool, fails: bool) -> Relation
    ensures { result ≡ relation_from_of holds fails }
{
    if holds {
        Relation::Holds
    } else if fails {
        Relation::Fails
    } else {
        Relation::Unknown
    }
}
