//! Negated markers.

ghost use Rattle.std.specs.Prelude.{◌≡◌, ◌<◌, Bool, false, IfOk, length, map, true};
ghost use Rattle.ul_specifier.specs.Clauses.{IsClause};
ghost use Rattle.ul_specifier.specs.Meaning as Meaning;
ghost use Rattle.ul_specifier.specs.declared.clause.Op.{Op};
ghost use Rattle.ul_marker.specs.Views.{marker_view};
ghost use Rattle.ul_groups.specs.Negated as Negated;

use std::alloc::{AllocError, Global};
use ul_base::owned::{beside, with_made, with_one};
use ul_marker::Marker;
use ul_specifier::{Clause, Op};
use ul_version::Version;

// A comparison of the interpreter with a version by an operator.
fn compared(
    alloc: Global,
    full: bool,
    op: Op,
    version: &Version,
    prefix: bool,
) -> Result<Marker, AllocError>
    requires { IsClause (record { op = op; version = version.now; prefix = prefix }) }
    ensures { IfOk result (λ m. marker_view m ≡ Negated.compared full op version.now prefix) }
{
    let version = version.copy(alloc)?;
    let clause = Clause {
        op,
        version,
        prefix,
    };
    Ok(Marker::Python { full, clause })
}

// The series of a version: its epoch, and its release without the last number.
#[tactic(auto, using(crate::proofs::NegatedFormulas::series_is_version))]
fn series(alloc: Global, version: &Version) -> Result<Version, AllocError>
    requires { 1 < length version.now.release }
    ensures { IfOk result (λ v. v ≡ Meaning.series version.now) }
{
    let release: &Vec<u64> = &version.release;
    let front = &release[..release.len() - 1];
    let release = Vec::from_slice(alloc, front)?;
    Ok(Version {
        epoch: version.epoch,
        release,
        pre: None,
        post: None,
        dev: None,
        local: Vec::new(alloc),
    })
}

// The interpreter isn't of the series of a version.
fn outside_series(alloc: Global, full: bool, version: &Version) -> Result<Marker, AllocError>
    requires { 1 < length version.now.release }
    ensures { IfOk result (λ m. marker_view m ≡ Negated.compared full Op.Unequal (Meaning.series version.now) true) }
{
    let version = series(alloc, version)?;
    let clause = Clause {
        op: Op::Unequal,
        version,
        prefix: true,
    };
    Ok(Marker::Python { full, clause })
}

// One of two markers holds.
fn either(alloc: Global, left: Marker, right: Marker) -> Result<Marker, AllocError>
    ensures { IfOk result (λ m. marker_view m ≡ Negated.either (marker_view left) (marker_view right)) }
{
    let parts = with_one(Vec::new(alloc), left);
    let (right, parts) = beside(right, parts)?;
    let parts = with_one(parts, right)?;
    Ok(Marker::Any(parts))
}

// The interpreter is below a version, or not of its series.
#[tactic(auto, using(crate::proofs::NegatedFormulas::below_of))]
fn not_compatible(alloc: Global, full: bool, version: &Version) -> Result<Marker, AllocError>
    requires { IsClause (record { op = Op.Compatible; version = version.now; prefix = false }) }
    ensures { IfOk result (λ m. marker_view m ≡ Negated.negated_clause full Op.Compatible version.now false) }
{
    let below = compared(alloc, full, Op::Less, version, false)?;
    let (below, outside) = beside(below, outside_series(alloc, full, version))?;
    either(alloc, below, outside)
}

// The interpreter doesn't meet a clause.
#[tactic(auto, using(crate::proofs::NegatedFormulas::clause_of, crate::proofs::NegatedFormulas::compatible_alone))]
fn negated_clause(alloc: Global, full: bool, clause: &Clause) -> Result<Marker, AllocError>
    ensures { IfOk result (λ m. marker_view m
        ≡ Negated.negated_clause full clause.now.op clause.now.version clause.now.prefix) }
{
    let version: &Version = &clause.version;
    match clause.op {
        Op::Equal => compared(alloc, full, Op::Unequal, version, clause.prefix),
        Op::Unequal => compared(alloc, full, Op::Equal, version, clause.prefix),
        Op::AtLeast => compared(alloc, full, Op::Less, version, clause.prefix),
        Op::Less => compared(alloc, full, Op::AtLeast, version, clause.prefix),
        Op::AtMost => compared(alloc, full, Op::More, version, clause.prefix),
        Op::More => compared(alloc, full, Op::AtMost, version, clause.prefix),
        Op::Compatible => not_compatible(alloc, full, version),
        Op::Distinct => compared(alloc, full, Op::Equal, version, false),
    }
}

// Equal versions.
fn copy_versions(alloc: Global, versions: &[Version]) -> Result<Vec<Version>, AllocError>
    ensures { IfOk result (λ v. v.items ≡ versions.now) }
{
    let mut list = Vec::with_capacity(alloc, versions.len())?;
    for version in versions {
        list = with_made(list, version.copy(alloc))?;
    }
    Ok(list)
}

/// A marker that is true exactly where another isn't: the negation stands at its comparisons.
///
/// The only error is want of memory.
#[cycle(negated)]
pub(crate) fn negated(alloc: Global, marker: &Marker) -> Result<Marker, AllocError>
    ensures { IfOk result (λ m. marker_view m ≡ Negated.negated (marker_view marker.now)) }
{
    match marker {
        Marker::Extra { literal, equal } => {
            let literal = String::from_str(alloc, literal.as_str())?;
            Ok(Marker::Extra {
                literal,
                equal: !*equal,
            })
        }
        Marker::Python { full, clause } => negated_clause(alloc, *full, clause),
        Marker::PythonList {
            full,
            versions,
            within,
        } => {
            let versions = copy_versions(alloc, versions)?;
            Ok(Marker::PythonList {
                full: *full,
                versions,
                within: !*within,
            })
        }
        Marker::Text {
            variable,
            literal,
            equal,
        } => {
            let literal = String::from_str(alloc, literal.as_str())?;
            Ok(Marker::Text {
                variable: *variable,
                literal,
                equal: !*equal,
            })
        }
        Marker::Opaque { atom, positive } => {
            let atom = atom.copy(alloc)?;
            Ok(Marker::Opaque {
                atom,
                positive: !*positive,
            })
        }
        Marker::All(parts) => Ok(Marker::Any(each_negated(alloc, parts)?)),
        Marker::Any(parts) => Ok(Marker::All(each_negated(alloc, parts)?)),
    }
}

// The negation of each part.
#[cycle(negated)]
fn each_negated(alloc: Global, parts: &[Marker]) -> Result<Vec<Marker>, AllocError>
    ensures { IfOk result (λ v. map marker_view v.items ≡ map Negated.negated (map marker_view parts.now)) }
{
    let mut list = Vec::with_capacity(alloc, parts.len())?;
    for part in parts {
        list = with_made(list, negated(alloc, part))?;
    }
    Ok(list)
}
