//! The paths of a marker that joins paths by `or`, and comparisons by `and`, as texts of trees do.
ghost use Rattle.std.specs.Prelude.{◌≡◌, ◌∷◌, [], List, IfOk, IfErr, Err, map};
ghost use Rattle.ul_marker.specs.PrintedViews.{IsNoComparison};
ghost use Rattle.ul_marker.specs.Views.{marker_view};
ghost use Rattle.ul_marker.specs.declared.fault.MarkerFault.TheVariants.{NoReading};
ghost use Rattle.ul_marker_text.specs.Rows.{conjuncts, disjuncts, IsAlone, IsNoRow, IsNoRows};
ghost use Rattle.ul_marker_text.specs.RowViews.{rows_view, NoPathIn};
ghost use Rattle.ul_marker_text.specs.StepViews.{said};

use std::alloc::Global;
use ul_marker::printed::{Comparison, printed_comparison};
use ul_marker::{Marker, MarkerFault};

// The comparison that a marker is.
fn comparison_of<'m>(part: &'m Marker) -> Result<Comparison<'m>, MarkerFault>
    ensures said { IfOk result (λ c. said c ≡ marker_view part.now) }
    ensures refused { IfErr result (λ fault. (fault ≡ NoReading) × IsNoComparison (marker_view part.now)) }
{
    match printed_comparison(part) {
        None => Err(MarkerFault::NoReading),
        Some(comparison) => Ok(comparison),
    }
}

// The comparisons that markers are.
fn comparisons<'m>(alloc: Global, parts: &'m [Marker]) -> Result<Vec<Comparison<'m>>, MarkerFault>
    ensures said { IfOk result (λ v. map said v.items ≡ map marker_view parts.now) }
    ensures refused { result ≡ Err NoReading → IsNoRow (map marker_view parts.now) }
{
    let mut found = Vec::new(alloc);
    for part in parts {
        match comparison_of(part) {
            Ok(comparison) => found.push(comparison)?,
            Err(fault) => return Err(fault),
        }
    }
    Ok(found)
}

// The comparison that a marker is, alone.
fn comparison<'m>(alloc: Global, part: &'m Marker) -> Result<Vec<Comparison<'m>>, MarkerFault>
    ensures said { IfOk result (λ v. map said v.items ≡ marker_view part.now ∷ []) }
    ensures refused { result ≡ Err NoReading → IsNoRow (marker_view part.now ∷ []) }
{
    match comparison_of(part) {
        Ok(comparison) => {
            let found = vec![in alloc; comparison]?;
            Ok(found)
        }
        Err(fault) => Err(fault),
    }
}

// The comparisons of a path.
fn path<'m>(alloc: Global, part: &'m Marker) -> Result<Vec<Comparison<'m>>, MarkerFault>
    ensures said { IfOk result (λ v. map said v.items ≡ conjuncts (marker_view part.now)) }
    ensures refused { result ≡ Err NoReading → IsNoRow (conjuncts (marker_view part.now)) }
{
    match part {
        Marker::All(parts) => comparisons(alloc, parts),
        Marker::Extra { .. }
        | Marker::Python { .. }
        | Marker::PythonList { .. }
        | Marker::Text { .. }
        | Marker::Opaque { .. }
        | Marker::Any(_) => comparison(alloc, part),
    }
}

// The comparisons of paths.
fn paths<'m>(alloc: Global, parts: &'m [Marker]) -> Result<Vec<Vec<Comparison<'m>>>, MarkerFault>
    ensures said { IfOk result (λ v. rows_view v.items ≡ map conjuncts (map marker_view parts.now)) }
    ensures refused { result ≡ Err NoReading → NoPathIn (map marker_view parts.now) }
{
    let mut found = Vec::new(alloc);
    for part in parts {
        let row = match path(alloc, part) {
            Ok(row) => row,
            Err(fault) => return Err(fault),
        };
        found.push(row)?;
    }
    Ok(found)
}

// The comparisons of one path, alone.
fn one_path<'m>(alloc: Global, part: &'m Marker) -> Result<Vec<Vec<Comparison<'m>>>, MarkerFault>
    ensures said { IfOk result (λ v. rows_view v.items ≡ conjuncts (marker_view part.now) ∷ []) }
    ensures refused { result ≡ Err NoReading → IsAlone (marker_view part.now) → IsNoRows (marker_view part.now) }
{
    let mut found = Vec::new(alloc);
    let row = match path(alloc, part) {
        Ok(row) => row,
        Err(fault) => return Err(fault),
    };
    found.push(row)?;
    Ok(found)
}

/// The comparisons of each path of a marker.
///
/// # Errors
///
/// `NoReading` only where no paths of printed comparisons say what the marker says.
pub fn rows<'m>(alloc: Global, marker: &'m Marker) -> Result<Vec<Vec<Comparison<'m>>>, MarkerFault>
    ensures said { IfOk result (λ v. rows_view v.items ≡ map conjuncts (disjuncts (marker_view marker.now))) }
    ensures refused { result ≡ Err NoReading → IsNoRows (marker_view marker.now) }
{
    match marker {
        Marker::Any(parts) => paths(alloc, parts),
        Marker::Extra { .. }
        | Marker::Python { .. }
        | Marker::PythonList { .. }
        | Marker::Text { .. }
        | Marker::Opaque { .. }
        | Marker::All(_) => one_path(alloc, marker),
    }
}
