//! Which of a name's versions meet clauses. Versions rise, so most clauses are met by those from one place to another,
//! and the places are found by halves. `>` and `<` leave out some versions of their version's release, so these are
//! asked one by one.
ghost use Rattle.std.specs.Prelude.{◌≡◌, ◌<◌, ◌≤◌, ◌-◌, ◌^◌, IfOk, cond, filter, length, map, not, true};
ghost use Rattle.std.specs.List.{range_with_len};
ghost use Rattle.ul_problem.specs.Problems.{Increases, VersionBefore};
ghost use Rattle.ul_ranges.specs.Flags.{front, less};
ghost use Rattle.ul_specifier.specs.Meaning.{meets_clause, meets_list};
ghost use Rattle.ul_prepared.specs.Clauses;
ghost use Rattle.ul_prepared.specs.Clauses.{IsMadeWith, equals_by, is_compatible_with, is_from, is_met_at, is_strict, is_up_to, made_by};

use crate::parts::{Part, count_before, count_through};
use std::alloc::{AllocError, Global};
use ul_base::owned::{beside, made_from};
use ul_ranges::Ordinals;
use ul_specifier::{Clause, Op, Specifiers};
use ul_version::Version;

// An operation on two sets: the members of both, of either, or of the first alone.
#[derive(Clone, Copy)]
enum Operation {
    Meet,
    Join,
    Less,
}

// Puts what an operation makes of two sets in place of the first.
fn put_made(
    alloc: Global,
    operation: Operation,
    set: &mut Ordinals,
    others: &Ordinals,
) -> Result<(), AllocError>
    requires { length set.old ≡ length others.now }
    ensures { IfOk result (λ _. set.new ≡ made_by operation set.old others.now) }
{
    match operation {
        Operation::Meet => set.put_meet(alloc, others),
        Operation::Join => set.put_join(alloc, others),
        Operation::Less => set.put_less(alloc, others),
    }
}

// What an operation makes of a set and another one, if that was made.
fn combined_set(
    alloc: Global,
    operation: Operation,
    set: Ordinals,
    made: Result<Ordinals, AllocError>,
) -> Result<Ordinals, AllocError>
    requires { IfOk made (λ others. length set ≡ length others) }
    ensures { IfOk result (IsMadeWith (made_by operation) set made) }
{
    let (own, others) = beside(set, made)?;
    let mut set = own;
    let put = put_made(alloc, operation, &mut set, &others);
    let both = beside(set, made_from(put, others))?;
    Ok(both.0)
}

// The set, of this size, of the numbers from one on that are below another.
fn between(alloc: Global, size: u32, low: u32, high: u32) -> Result<Ordinals, AllocError>
    requires low { low ≤ size }
    requires high { high ≤ size }
    ensures { IfOk result (λ s. s ≡ less (front size high) (front size low)) }
{
    let set = Ordinals::front(alloc, size, high)?;
    combined_set(
        alloc,
        Operation::Less,
        set,
        Ordinals::front(alloc, size, low),
    )
}

// Which of rising versions equal a version by a part.
fn equal_set(
    alloc: Global,
    part: Part,
    version: &Version,
    versions: &[Version],
) -> Result<Ordinals, AllocError>
    requires few { length versions.now < 2 ^ 32 }
    requires rising { Increases VersionBefore versions.now }
    ensures { IfOk result (λ s. s ≡ map (equals_by part version.now) versions.now) }
{
    let size = versions.len() as u32;
    let low = count_before(part, version, versions) as u32;
    let high = count_through(part, version, versions) as u32;
    between(alloc, size, low, high)
}

// Which of rising versions don't equal a version by a part.
fn unequal_set(
    alloc: Global,
    part: Part,
    version: &Version,
    versions: &[Version],
) -> Result<Ordinals, AllocError>
    requires few { length versions.now < 2 ^ 32 }
    requires rising { Increases VersionBefore versions.now }
    ensures { IfOk result (λ s. s ≡ map (λ c. not (equals_by part version.now c)) versions.now) }
{
    let set = Ordinals::all(alloc, versions.len() as u32)?;
    let others = equal_set(alloc, part, version, versions);
    combined_set(alloc, Operation::Less, set, others)
}

// Which of rising versions, without their local parts, are at least a version.
fn set_from(alloc: Global, version: &Version, versions: &[Version]) -> Result<Ordinals, AllocError>
    requires few { length versions.now < 2 ^ 32 }
    requires rising { Increases VersionBefore versions.now }
    ensures { IfOk result (λ s. s ≡ map (is_from version.now) versions.now) }
{
    let size = versions.len() as u32;
    let low = count_before(Part::Public, version, versions) as u32;
    between(alloc, size, low, size)
}

// Which of rising versions, without their local parts, are at most a version.
fn set_up_to(alloc: Global, version: &Version, versions: &[Version]) -> Result<Ordinals, AllocError>
    requires few { length versions.now < 2 ^ 32 }
    requires rising { Increases VersionBefore versions.now }
    ensures { IfOk result (λ s. s ≡ map (is_up_to version.now) versions.now) }
{
    let size = versions.len() as u32;
    let high = count_through(Part::Public, version, versions) as u32;
    Ordinals::front(alloc, size, high)
}

// Which of rising versions are compatible with a version: at least it, and equal to it up to the last number of its
// release.
fn compatible_set(
    alloc: Global,
    version: &Version,
    versions: &[Version],
) -> Result<Ordinals, AllocError>
    requires few { length versions.now < 2 ^ 32 }
    requires rising { Increases VersionBefore versions.now }
    ensures { IfOk result (λ s. s ≡ map (is_compatible_with version.now) versions.now) }
{
    let count = version.release.len().saturating_sub(1);
    let set = set_from(alloc, version, versions)?;
    let series = equal_set(alloc, Part::Prefix(count), version, versions);
    combined_set(alloc, Operation::Meet, set, series)
}

// By which part `==` and `!=` compare: with `.*` by as many numbers as the version has, and without it by the local part
// too where the version has one.
fn equality_part(clause: &Clause) -> Part
    ensures { result ≡ Clauses.equality_part clause.now }
{
    if clause.prefix {
        Part::Prefix(clause.version.release.len())
    } else if clause.version.local.is_empty() {
        Part::Public
    } else {
        Part::Whole
    }
}

// Whether the version at a place meets a clause.
fn is_met_at(clause: &Clause, versions: &[Version], place: u32) -> bool
    ensures { result ≡ is_met_at clause.now versions.now place }
{
    match versions.get(place as usize) {
        Some(version) => clause.meets(version),
        None => false,
    }
}

// Those of the places from one to another whose versions meet a clause.
fn met_between(
    alloc: Global,
    clause: &Clause,
    versions: &[Version],
    low: u32,
    high: u32,
) -> Result<Vec<u32>, AllocError>
    ensures { IfOk result (λ v. v.items
        ≡ filter (is_met_at clause.now versions.now) (range_with_len low (high - low))) }
{
    (low..high)
        .filter(|place| is_met_at(clause, versions, *place))
        .collect(alloc)
}

// Whether an operator admits the versions after its version's release.
fn admits_after(op: Op) -> bool
    ensures { result ≡ Clauses.admits_after op }
{
    matches!(op, Op::More)
}

fn chosen(first: bool, one: u32, other: u32) -> u32
    ensures { result ≡ cond first one other }
{
    if first { one } else { other }
}

// Which of rising versions meet a clause of `>` or `<`: all those after its version's release or all those before it,
// and those of the release that meet it.
fn strict_set(alloc: Global, clause: &Clause, versions: &[Version]) -> Result<Ordinals, AllocError>
    requires few { length versions.now < 2 ^ 32 }
    requires rising { Increases VersionBefore versions.now }
    requires strict { is_strict clause.now.op ≡ true }
    ensures { IfOk result (λ s. s ≡ map (meets_clause clause.now) versions.now) }
{
    let size = versions.len() as u32;
    let low = count_before(Part::Release, &clause.version, versions) as u32;
    let high = count_through(Part::Release, &clause.version, versions) as u32;
    let members = met_between(alloc, clause, versions, low, high)?;
    let after = admits_after(clause.op);
    let set = made_from(Ordinals::of_list(alloc, size, &members), members)?;
    let others = between(
        alloc,
        size,
        chosen(after, high, 0),
        chosen(after, size, low),
    );
    combined_set(alloc, Operation::Join, set, others)
}

// Which of rising versions meet a clause.
fn clause_set(alloc: Global, clause: &Clause, versions: &[Version]) -> Result<Ordinals, AllocError>
    requires few { length versions.now < 2 ^ 32 }
    requires rising { Increases VersionBefore versions.now }
    ensures { IfOk result (λ s. s ≡ map (meets_clause clause.now) versions.now) }
{
    let version = &clause.version;
    match clause.op {
        Op::Equal => equal_set(alloc, equality_part(clause), version, versions),
        Op::Unequal => unequal_set(alloc, equality_part(clause), version, versions),
        Op::AtLeast => set_from(alloc, version, versions),
        Op::AtMost => set_up_to(alloc, version, versions),
        Op::Compatible => compatible_set(alloc, version, versions),
        Op::More | Op::Less => strict_set(alloc, clause, versions),
        Op::Distinct => unequal_set(alloc, Part::Whole, version, versions),
    }
}

// Which of rising versions meet each of clauses.
fn clauses_set(
    alloc: Global,
    clauses: &[Clause],
    versions: &[Version],
) -> Result<Ordinals, AllocError>
    requires few { length versions.now < 2 ^ 32 }
    requires rising { Increases VersionBefore versions.now }
    ensures { IfOk result (λ s. s ≡ map (meets_list clauses.now) versions.now) }
{
    let mut set = Ordinals::all(alloc, versions.len() as u32)?;
    for clause in clauses {
        let met = clause_set(alloc, clause, versions);
        set = combined_set(alloc, Operation::Meet, set, met)?;
    }
    Ok(set)
}

/// Which of rising versions meet specifiers.
///
/// # Errors
///
/// Only for want of memory.
pub(crate) fn permitted(
    alloc: Global,
    specifiers: &Specifiers,
    versions: &[Version],
) -> Result<Ordinals, AllocError>
    requires few { length versions.now < 2 ^ 32 }
    requires rising { Increases VersionBefore versions.now }
    ensures { IfOk result (λ s. s ≡ map (meets_list specifiers.now) versions.now) }
{
    clauses_set(alloc, specifiers.clauses.as_slice(), versions)
}
