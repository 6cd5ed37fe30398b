//! The canonical texts of a file's markers.
//!
//! What a text is found with is left to the end of the process by `mem::forget`: that comes soon, and the system takes
//! large values back at once, where letting go of them goes through them piece by piece.
ghost use Rattle.std.specs.Prelude.{map};
ghost use Rattle.ul_marker.specs.Views.{marker_view};
ghost use Rattle.ul_canonical.specs.Answers.{IsCanonical, IsPrinted, Tells};
ghost use Rattle.ul_canonical.specs.Lines.{ArePlain};

use crate::CanonicalFault;
use crate::diagrams::diagrams_of;
use crate::lines::markers_of;
use crate::writing::printed;
use std::alloc::Global;
use std::mem;
use std::sync::Wait;
use ul_algebra::Algebra;
use ul_interner::Interner;
use ul_load::has_too_many_comparisons;
use ul_marker::Marker;

// The text of markers, by an algebra.
fn text_with<R: Wait>(
    rt: &R,
    alloc: Global,
    algebra: &mut Algebra<'_>,
    markers: &[Marker],
) -> Result<Vec<u8>, CanonicalFault>
    requires { ArePlain (map marker_view markers.now) }
    ensures { Tells (IsPrinted (map marker_view markers.now)) result }
{
    let diagrams = diagrams_of(rt, alloc, algebra, markers)?;
    let text = printed(alloc, algebra, diagrams.as_slice());
    mem::forget(diagrams);
    text
}

// The text of markers.
fn text_of<R: Wait>(rt: &R, alloc: Global, markers: &[Marker]) -> Result<Vec<u8>, CanonicalFault>
    requires { ArePlain (map marker_view markers.now) }
    ensures { Tells (IsPrinted (map marker_view markers.now)) result }
{
    let (interner, pass) = Interner::begin(alloc)?;
    let mut algebra = Algebra::begin(alloc, &interner, pass);
    let text = text_with(rt, alloc, &mut algebra, markers);
    mem::forget(algebra);
    mem::forget(interner);
    text
}

/// The canonical texts of a file's markers, a line for each line of it: `*` where the line's marker is true everywhere,
/// `never` where it is true nowhere, and else the text of its tree.
///
/// A line is `*`, `never`, or a marker as those of locks, with `extras` and without `extra`, and ends in LF.
///
/// # Errors
///
/// In this order: `Line`, `TooManyComparisons`, `TooManyPaths`, `TooLong`; or want of memory. What the text is found with
/// is left to the end of the process.
pub fn canonical<R: Wait>(rt: &R, alloc: Global, bytes: &[u8]) -> Result<Vec<u8>, CanonicalFault>
    ensures { Tells (IsCanonical bytes.now) result }
{
    let markers = match markers_of(alloc, bytes) {
        Ok(markers) => markers,
        Err(fault) => return Err(fault),
    };
    if has_too_many_comparisons(alloc, markers.as_slice())? {
        mem::forget(markers);
        return Err(CanonicalFault::TooManyComparisons);
    }
    let text = text_of(rt, alloc, markers.as_slice());
    mem::forget(markers);
    text
}
