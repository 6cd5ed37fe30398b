//! What is asked of a lock behind its shape.

ghost use Rattle.std.specs.Prelude.{◌≡◌, Bool, not, bytes_eq, true, position, []};
ghost use Rattle.std.specs.List.{list_all};
ghost use Rattle.ul_version.specs.Fields.{IsVersion};
ghost use Rattle.ul_version.specs.Texts.{version_text};
ghost use Rattle.ul_lines.specs.Reader.{Each};
ghost use Rattle.ul_lock_read.specs.Automaton.{plain_block};
ghost use Rattle.ul_lock_read.specs.Finding.{AreSorted, IsFound};
ghost use Rattle.ul_lock.specs.Orders.{package_cmp};
ghost use Rattle.ul_lock.specs.Targets.{count_named, first_without_target, has_one_root, has_target, have_targets, is_named, is_target, lists, lists_option, package_leads_on};

use std::cmp::Ordering;
use ul_base::Name;
use ul_lines::same;
use ul_lock::{Edge, Extra, Locked};
use ul_version::Version;

fn has_extra(extras: &[Extra], name: &[u8]) -> bool
    ensures { result ≡ lists extras.now name.now }
{
    for extra in extras {
        if same(extra.name.text().as_bytes(), name) {
            return true;
        }
    }
    false
}

fn has_option(extras: &[Extra], name: &Option<Name>) -> bool
    ensures { result ≡ lists_option extras.now name.now }
{
    match name {
        None => true,
        Some(name) => has_extra(extras, name.text().as_bytes()),
    }
}

// What holds of each version: a field is looked at, so that the proof learns the type's invariant.
fn is_proper(version: &Version)
    ensures { IsVersion version.now }
{
    let _ = &version.epoch;
}

// Versions have one text where they are the same part by part, so that none is printed.
fn same_version(version: &Version, other: &Version) -> bool
    ensures { result ≡ bytes_eq (version_text version.now) (version_text other.now) }
{
    is_proper(version);
    is_proper(other);
    version.same(other)
}

fn is_named_by(edge: &Edge, block: &Locked) -> bool
    ensures { result ≡ is_named edge.now block.now }
{
    same(
        block.name.text().as_bytes(),
        edge.target.name.text().as_bytes(),
    ) && same_version(&block.version, &edge.version)
}

fn leads_to(edge: &Edge, block: &Locked) -> bool
    ensures { result ≡ is_target edge.now block.now }
{
    is_named_by(edge, block) && has_option(block.extras.as_slice(), &edge.target.extra)
}

fn order_of(block: &Locked, name: &Name, version: &Version) -> Ordering
    ensures { result ≡ package_cmp block.now (plain_block name.now version.now [] [] []) }
{
    block.name.cmp(name).then(block.version.cmp(version))
}

// The place of the package that has the name and, up to the order of versions, the version. It is found by halves.
fn place_of(packages: &[Locked], name: &Name, version: &Version) -> Option<usize>
    requires { AreSorted packages.now }
    ensures { IsFound packages.now (plain_block name.now version.now [] [] []) result }
{
    let mut low = 0;
    let mut high = packages.len();
    while low < high {
        let middle = low + (high - low) / 2;
        match order_of(&packages[middle], name, version) {
            Ordering::Less => low = middle + 1,
            Ordering::Equal => return Some(middle),
            Ordering::Greater => high = middle,
        }
    }
    None
}

fn finds(packages: &[Locked], edge: &Edge) -> bool
    requires { AreSorted packages.now }
    ensures { result ≡ has_target packages.now edge.now }
{
    is_proper(&edge.version);
    match place_of(packages, &edge.target.name, &edge.version) {
        None => false,
        Some(place) => leads_to(edge, &packages[place]),
    }
}

fn finds_all(packages: &[Locked], edges: &[Edge]) -> bool
    requires { AreSorted packages.now }
    ensures { result ≡ have_targets packages.now edges.now }
{
    for edge in edges {
        if !finds(packages, edge) {
            return false;
        }
    }
    true
}

fn extras_lead_on(packages: &[Locked], extras: &[Extra]) -> bool
    requires { AreSorted packages.now }
    ensures { result ≡ list_all (λ x. have_targets packages.now x.edges) extras.now }
{
    for extra in extras {
        if !finds_all(packages, extra.edges.as_slice()) {
            return false;
        }
    }
    true
}

fn leads_on(packages: &[Locked], block: &Locked) -> bool
    requires { AreSorted packages.now }
    ensures { result ≡ package_leads_on packages.now block.now }
{
    finds_all(packages, block.edges.as_slice()) && extras_lead_on(packages, block.extras.as_slice())
}

/// The first package with an edge that leads nowhere. Takes no memory.
pub fn package_without_target(packages: &[Locked]) -> Option<usize>
    requires { AreSorted packages.now }
    ensures { result ≡ first_without_target packages.now }
{
    for (k, block) in packages.iter().enumerate() {
        if !leads_on(packages, block) {
            return Some(k);
        }
    }
    None
}

fn named_count(name: &Name, packages: &[Locked]) -> usize
    ensures { result ≡ count_named name.now packages.now }
{
    let mut count = 0;
    for block in packages {
        if same(block.name.text().as_bytes(), name.text().as_bytes()) {
            count += 1;
        }
    }
    count
}

/// Whether exactly one package has the root's name.
pub fn is_one_root(root: &Name, packages: &[Locked]) -> bool
    ensures { result ≡ has_one_root root.now packages.now }
{
    named_count(root, packages) == 1
}
