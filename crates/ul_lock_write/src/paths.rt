//! The first marker of a lock that isn't printed. No function takes memory.

ghost use Rattle.std.specs.Prelude.{◌≡◌, flat_map, ◌++◌};
ghost use Rattle.ul_lock_write.specs.Markers.{edge_marker, extra_markers, first_over, fork_marker, markers_of, over, package_markers};

use ul_lock::{Edge, Extra, Lock, Locked, Region};
use ul_tree::{is_printable, paths};

/// How many paths to true a marker has, if it isn't printed: more than 4,096, or one of its paths has more than 512
/// nodes.
#[tactic(auto, unfolding(crate::specs::Markers::over))]
pub fn too_many(region: &Region) -> Option<u128>
    ensures { result ≡ over region.now }
{
    let tree = region.as_tree();
    if is_printable(tree) {
        None
    } else {
        Some(paths(tree))
    }
}

fn of_edges(edges: &[Edge]) -> Option<u128>
    ensures { result ≡ first_over (flat_map edge_marker edges.now) }
{
    for edge in edges {
        match too_many(&edge.marker) {
            Some(count) => return Some(count),
            None => {}
        }
    }
    None
}

fn of_extras(extras: &[Extra]) -> Option<u128>
    ensures { result ≡ first_over (flat_map extra_markers extras.now) }
{
    for extra in extras {
        match of_edges(extra.edges.as_slice()) {
            Some(count) => return Some(count),
            None => {}
        }
    }
    None
}

fn of_package(block: &Locked) -> Option<u128>
    ensures { result ≡ first_over (package_markers block.now) }
{
    match of_edges(block.edges.as_slice()) {
        Some(count) => Some(count),
        None => of_extras(block.extras.as_slice()),
    }
}

fn of_packages(packages: &[Locked]) -> Option<u128>
    ensures { result ≡ first_over (flat_map package_markers packages.now) }
{
    for block in packages {
        match of_package(block) {
            Some(count) => return Some(count),
            None => {}
        }
    }
    None
}

fn of_forks(forks: &[Region]) -> Option<u128>
    ensures { result ≡ first_over (flat_map fork_marker forks.now) }
{
    for fork in forks {
        match too_many(fork) {
            Some(count) => return Some(count),
            None => {}
        }
    }
    None
}

fn of_rest(lock: &Lock) -> Option<u128>
    ensures { result ≡ first_over (flat_map fork_marker lock.now.forks ++ flat_map package_markers lock.now.packages) }
{
    match of_forks(lock.forks.as_slice()) {
        Some(count) => Some(count),
        None => of_packages(lock.packages.as_slice()),
    }
}

/// How many paths the first marker has that isn't printed, in the order of the lock's text.
#[tactic(auto, unfolding(crate::specs::Markers::first_over))]
pub fn first_too_many(lock: &Lock) -> Option<u128>
    ensures { result ≡ first_over (markers_of lock.now) }
{
    match too_many(&lock.supported) {
        Some(count) => Some(count),
        None => of_rest(lock),
    }
}
