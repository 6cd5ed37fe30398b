//! Nodes and versions by their names.
ghost use Rattle.std.specs.Prelude.{◌≡◌, ◌<◌, ◌^◌, All, IfOk, IfSome, length, option_map};
ghost use Rattle.ul_problem.specs.Plain.{node_at};
ghost use Rattle.ul_problem.specs.Problems.{Increases, VersionBefore};
ghost use Rattle.ul_report.specs.Naming.{versions_in};
ghost use Rattle.ul_report_judge.specs.Names.{places_of_names, placed_of_names, set_of_names};
ghost use Rattle.ul_report_judge.specs.Names as spec;

use std::alloc::{AllocError, Global};
use std::cmp::Ordering;
use ul_base::Node;
use ul_problem::Problem;
use ul_ranges::Ordinals;
use ul_version::Version;

// The place of a version, up to the order of versions. It is found by halves.
fn place_of_version(versions: &[Version], version: &Version) -> Option<usize>
    requires { Increases VersionBefore versions.now }
    ensures { result ≡ spec.place_of_version versions.now version.now }
{
    let mut low = 0;
    let mut high = versions.len();
    while low < high {
        let middle = low + (high - low) / 2;
        match versions[middle].cmp(version) {
            Ordering::Less => low = middle + 1,
            Ordering::Equal => return Some(middle),
            Ordering::Greater => high = middle,
        }
    }
    None
}

// The places of versions; `None` where one has none.
fn places(
    alloc: Global,
    versions: &[Version],
    named: &[Version],
) -> Result<Option<Vec<u32>>, AllocError>
    requires rise { Increases VersionBefore versions.now }
    requires size { length versions.now < 2 ^ 32 }
    ensures value { IfOk result (λ o. option_map (λ v. v.items) o ≡ places_of_names versions.now named.now) }
    ensures below { IfOk result (λ o. IfSome o (λ v. All (λ k. k < length versions.now) v.items)) }
{
    let mut places = Vec::with_capacity(alloc, named.len())?;
    for version in named {
        match place_of_version(versions, version) {
            Some(place) => places.push(place as u32)?,
            None => return Ok(None),
        }
    }
    Ok(Some(places))
}

// The set of versions that are named; `None` where one isn't among the versions.
fn set(
    alloc: Global,
    versions: &[Version],
    size: u32,
    named: &[Version],
) -> Result<Option<Ordinals>, AllocError>
    requires rise { Increases VersionBefore versions.now }
    requires size { size ≡ length versions.now }
    ensures { IfOk result (λ o. o ≡ set_of_names versions.now named.now) }
{
    match places(alloc, versions, named)? {
        Some(places) => {
            let set = Ordinals::of_list(alloc, size, &places)?;
            Ok(Some(set))
        }
        None => Ok(None),
    }
}

/// The place of a node in a problem.
pub fn place_of_node(problem: &Problem, node: &Node) -> Option<u64>
    ensures place { result ≡ spec.place_of_node problem.now node.now }
    ensures known { IfSome result (λ k. k < length problem.now.nodes) }
{
    let _ = problem.nodes();
    let place = problem.place_of(node);
    place
}

// The set of a node's versions that are named.
fn set_at(
    alloc: Global,
    problem: &Problem,
    place: u64,
    named: &[Version],
) -> Result<Option<Ordinals>, AllocError>
    requires { place < length problem.now.nodes }
    ensures { IfOk result (λ o. o ≡ set_of_names (versions_in (node_at problem.now place)) named.now) }
{
    let facts = &problem.nodes()[place as usize];
    let found = set(alloc, facts.versions.as_slice(), facts.barred.size(), named)?;
    Ok(found)
}

/// The place of a node, and the set of its versions that are named; `None` where the problem hasn't the node, or the
/// node hasn't one of the versions.
pub fn placed(
    alloc: Global,
    problem: &Problem,
    node: &Node,
    named: &[Version],
) -> Result<Option<(u64, Ordinals)>, AllocError>
    ensures { IfOk result (λ o. o ≡ placed_of_names problem.now node.now named.now) }
{
    match place_of_node(problem, node) {
        None => Ok(None),
        Some(place) => match set_at(alloc, problem, place, named)? {
            None => Ok(None),
            Some(set) => Ok(Some((place, set))),
        },
    }
}
