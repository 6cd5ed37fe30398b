//! The order of files, edges, extras and packages.

ghost use Rattle.std.specs.Prelude.{◌≡◌, bytes_eq, []};
ghost use Rattle.std.specs.Ordering.{is_lt};
ghost use Rattle.ul_lock_read.specs.Automaton.{second, tops, name_tops, filled, several, plain_block};
ghost use Rattle.ul_lock.specs.Orders.{edge_less, extra_less, file_less, block_less};

use ul_base::Name;
use ul_lines::same;
use ul_lock::{Edge, Extra, Locked, Region, edge_order, file_order};
use ul_lock_lines::Edition;
use ul_requirement::FileEntry;
use ul_version::Version;

/// Whether a key of a line is this text.
pub fn key_is(key: &Name, text: &[u8]) -> bool
    ensures { result ≡ bytes_eq key.now text.now }
{
    same(key.text().as_bytes(), text)
}

/// Whether the format is of version 2.
pub fn is_second(edition: Edition) -> bool
    ensures { result ≡ second edition }
{
    match edition {
        Edition::First => false,
        Edition::Second => true,
    }
}

/// The edge is greater than the last of these.
pub fn edge_tops(edges: &[Edge], edge: &Edge) -> bool
    ensures { result ≡ tops edge_less edges.now edge.now }
{
    match edges.last() {
        None => true,
        Some(last) => edge_order(last, edge).is_lt(),
    }
}

/// The file is greater than the last of these.
pub fn file_tops(files: &[FileEntry], file: &FileEntry) -> bool
    ensures { result ≡ tops file_less files.now file.now }
{
    match files.last() {
        None => true,
        Some(last) => file_order(last, file).is_lt(),
    }
}

/// An extra of this name may follow.
pub fn extra_tops(extras: &[Extra], name: &Name) -> bool
    ensures { result ≡ tops extra_less extras.now (record { name = name.now; edges = [] }) }
{
    match extras.last() {
        None => true,
        Some(last) => last.name.cmp(name).is_lt(),
    }
}

/// A package of this name may follow.
pub fn package_tops(blocks: &[Locked], name: &Name) -> bool
    ensures { result ≡ name_tops blocks.now name.now }
{
    match blocks.last() {
        None => true,
        Some(last) => last.name.cmp(name).is_le(),
    }
}

/// A package of this name and version may follow.
pub fn version_tops(blocks: &[Locked], name: &Name, version: &Version) -> bool
    ensures { result ≡ tops block_less blocks.now (plain_block name.now version.now [] [] []) }
{
    match blocks.last() {
        None => true,
        Some(last) => last.name.cmp(name).then(last.version.cmp(version)).is_lt(),
    }
}

/// Whether there are files.
pub fn any_file(files: &[FileEntry]) -> bool
    ensures { result ≡ filled files.now }
{
    !files.is_empty()
}

/// Whether there are edges.
pub fn any_edge(edges: &[Edge]) -> bool
    ensures { result ≡ filled edges.now }
{
    !edges.is_empty()
}

/// Whether there are extras.
pub fn any_extra(extras: &[Extra]) -> bool
    ensures { result ≡ filled extras.now }
{
    !extras.is_empty()
}

/// Whether there are two or more.
pub fn two_or_more(regions: &[Region]) -> bool
    ensures { result ≡ several regions.now }
{
    regions.len() >= 2
}
