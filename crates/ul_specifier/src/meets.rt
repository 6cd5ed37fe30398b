//! Which versions meet a clause.

ghost use Rattle.std.specs.Prelude.{◌≡◌, ◌<◌, false, length};
ghost use Rattle.ul_version.specs.Fields.{plain};
ghost use Rattle.ul_specifier.specs.Meaning;
ghost use Rattle.ul_specifier.specs.Meaning.{begins_as, equal_clause, meets_clause, meets_list, names_pre_of, pins_clause, pins_of, series};
ghost use Rattle.ul_specifier.specs.Public.{own_op, public_less, public_matches, public_meets, public_more};

use crate::local::has_local;
use crate::{Clause, Op, Specifiers};
use ul_version::{Public, Version, cmp_releases, has_front};

impl Clause {
    /// Whether the version that has this release, epoch 0 and nothing else meets the clause.
    ///
    /// It takes no memory.
    pub fn meets_plain(&self, release: &[u64]) -> bool
        requires { 0 < length release.now }
        ensures { result ≡ meets_clause self.now (plain release.now) }
    {
        if has_local(&self.version) {
            return self.meets_own(false);
        }
        meets_public(self, &Public::plain(release), false)
    }

    /// Whether a version meets the clause.
    pub fn meets(&self, version: &Version) -> bool
        ensures { result ≡ meets_clause self.now version.now }
    {
        if has_local(&self.version) {
            return self.meets_own(version.cmp(&self.version).is_eq());
        }
        meets_public(self, &Public::of(version), has_local(version))
    }

    // Whether a clause with a local part is met by a version that is the clause's own, or isn't.
    fn meets_own(&self, own: bool) -> bool
        ensures { result ≡ own_op self.now.op own }
    {
        match self.op {
            Op::Unequal | Op::Distinct => !own,
            _ => own,
        }
    }

    // Whether this is `==V` without `.*`, with V equal to the version.
    fn is_pin(&self, version: &Version) -> bool
        ensures { result ≡ pins_clause version.now self.now }
    {
        matches!(self.op, Op::Equal) && !self.prefix && self.version.cmp(version).is_eq()
    }
}

/// Whether the version that has this release, epoch 0 and nothing else meets `==V`, without `.*`.
///
/// It takes no memory. No such version equals a V with a local part.
pub fn equals_plain(version: &Version, release: &[u64]) -> bool
    ensures { result ≡ meets_clause (equal_clause version.now) (plain release.now) }
{
    !has_local(version) && Public::plain(release).cmp(&Public::of(version)).is_eq()
}

// Whether a version meets a clause whose version has no local part, by the candidate's public part and
// whether it has a local part.
fn meets_public(clause: &Clause, candidate: &Public, local: bool) -> bool
    ensures { result ≡ public_meets clause.now candidate.now local }
{
    let version = Public::of(&clause.version);
    match clause.op {
        Op::Equal => matches(clause.prefix, &version, candidate),
        Op::Unequal => !matches(clause.prefix, &version, candidate),
        Op::AtLeast => !candidate.cmp(&version).is_lt(),
        Op::AtMost => !candidate.cmp(&version).is_gt(),
        Op::More => is_more(&version, candidate, local),
        Op::Less => is_less(&version, candidate),
        Op::Compatible => !candidate.cmp(&version).is_lt() && is_of_series(&version, candidate),
        Op::Distinct => local || !candidate.cmp(&version).is_eq(),
    }
}

// What `==` asks for, with or without `.*`.
fn matches(prefix: bool, version: &Public, candidate: &Public) -> bool
    ensures { result ≡ public_matches prefix version.now candidate.now }
{
    if prefix {
        candidate.epoch == version.epoch && has_front(candidate.release, version.release)
    } else {
        candidate.cmp(version).is_eq()
    }
}

// What `>` asks for. No post-release and no version with a local part follows its own release.
fn is_more(version: &Public, candidate: &Public, local: bool) -> bool
    ensures { result ≡ public_more version.now candidate.now local }
{
    let later = local || (candidate.post.is_some() && version.post.is_none());
    candidate.cmp(version).is_gt() && !(later && is_of_release(version, candidate))
}

// What `<` asks for. No pre-release comes before its own release.
fn is_less(version: &Public, candidate: &Public) -> bool
    ensures { result ≡ public_less version.now candidate.now }
{
    let earlier = candidate.is_pre() && !version.is_pre();
    candidate.cmp(version).is_lt() && !(earlier && is_of_release(version, candidate))
}

// Whether a candidate has this version's epoch and its release, padded with zeros.
fn is_of_release(version: &Public, candidate: &Public) -> bool
    ensures { result ≡ Meaning.is_of_release version.now candidate.now }
{
    candidate.epoch == version.epoch && cmp_releases(candidate.release, version.release).is_eq()
}

// Whether a candidate begins as this version does, up to the version's last number.
fn is_of_series(version: &Public, candidate: &Public) -> bool
    ensures { result ≡ begins_as (series version.now) candidate.now }
{
    let front = &version.release[..version.release.len().saturating_sub(1)];
    candidate.epoch == version.epoch && has_front(candidate.release, front)
}

impl Specifiers {
    /// Whether a version meets every clause.
    pub fn meets(&self, version: &Version) -> bool
        ensures { result ≡ meets_list self.now version.now }
    {
        for clause in &self.clauses {
            if !clause.meets(version) {
                return false;
            }
        }
        true
    }

    /// Whether some clause other than `!=` and an exclusion has a pre-release.
    pub fn names_pre(&self) -> bool
        ensures { result ≡ names_pre_of self.now }
    {
        for clause in &self.clauses {
            if !matches!(clause.op, Op::Unequal | Op::Distinct) && clause.version.is_pre() {
                return true;
            }
        }
        false
    }

    /// Whether some clause is `==V` without `.*`, with V equal to the version.
    pub fn pins(&self, version: &Version) -> bool
        ensures { result ≡ pins_of self.now version.now }
    {
        for clause in &self.clauses {
            if clause.is_pin(version) {
                return true;
            }
        }
        false
    }
}
