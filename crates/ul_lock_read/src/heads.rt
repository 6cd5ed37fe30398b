//! Which line may follow, above the packages.

ghost use Rattle.std.specs.Prelude.{◌≡◌, [], IfOk, bytes_eq};
ghost use Rattle.ul_lock_read.specs.Automaton.{step, may, head_of};
ghost use Rattle.ul_lock_lines.specs.declared.lines.Line.TheVariants.{Close as CloseLine, Item as ItemLine, Supported as SupportedLine};
ghost use Rattle.ul_lock_write.specs.Sheet.{forks_key};
ghost use Rattle.ul_lock_read.specs.declared.states.State.TheVariants.{Start, AfterFirst, AfterRoot, AfterSupported, InForks, AfterForks, AfterBlank};

use crate::orders::{key_is, two_or_more};
use crate::states::State;
use std::alloc::{AllocError, Global};
use ul_base::Name;
use ul_base::owned::{beside, refused};
use ul_lock::{Packages, Region, Regions};
use ul_lock_lines::{Edition, Line};
use ul_lock_write::Head;

// The state behind the blank line that ends a head without leaves.
fn plain_head(alloc: Global, edition: Edition, root: Name, supported: Region) -> State
    ensures { result ≡ AfterBlank (head_of edition root supported []) [] }
{
    let head = Head {
        edition,
        root,
        supported,
        forks: Regions::new(alloc),
    };
    State::AfterBlank(head, Packages::new(alloc))
}

// The state behind the line that opens a list of leaves.
fn opened_forks(
    alloc: Global,
    edition: Edition,
    root: Name,
    supported: Region,
    key: Name,
) -> Option<State>
    ensures { result ≡ may (bytes_eq key forks_key) (InForks edition root supported []) }
{
    if key_is(&key, b"resolution-markers") {
        Some(State::InForks(edition, root, supported, Regions::new(alloc)))
    } else {
        refused((root, supported))
    }
}

/// The state behind the first line.
pub fn after_nothing(line: Line) -> Option<State>
    ensures { result ≡ step Start line }
{
    match line {
        Line::First(edition) => Some(State::AfterFirst(edition)),
        other => refused(other),
    }
}

/// The state behind a line that follows the first.
pub fn after_first(edition: Edition, line: Line) -> Option<State>
    ensures { result ≡ step (AfterFirst edition) line }
{
    match line {
        Line::Root(root) => Some(State::AfterRoot(edition, root)),
        other => refused(other),
    }
}

// The state behind the line of a supported region, which isn't all worlds.
fn bounded(edition: Edition, root: Name, marker: Region) -> Option<State>
    ensures { result ≡ step (AfterRoot edition root) (SupportedLine marker) }
{
    if marker.is_all() {
        refused((root, marker))
    } else {
        Some(State::AfterSupported(edition, root, marker))
    }
}

/// The state behind a line that follows the root.
pub fn after_root(alloc: Global, edition: Edition, root: Name, line: Line) -> Option<State>
    ensures { result ≡ step (AfterRoot edition root) line }
{
    match line {
        Line::Supported(marker) => bounded(edition, root, marker),
        Line::Opens(key) => opened_forks(alloc, edition, root, Region::all(), key),
        Line::Gap => Some(plain_head(alloc, edition, root, Region::all())),
        other => refused((root, other)),
    }
}

/// The state behind a line that follows the supported region.
pub fn after_supported(
    alloc: Global,
    edition: Edition,
    root: Name,
    marker: Region,
    line: Line,
) -> Option<State>
    ensures { result ≡ step (AfterSupported edition root marker) line }
{
    match line {
        Line::Opens(key) => opened_forks(alloc, edition, root, marker, key),
        Line::Gap => Some(plain_head(alloc, edition, root, marker)),
        other => refused((root, marker, other)),
    }
}

// The state behind one more leaf.
fn with_fork(
    edition: Edition,
    root: Name,
    supported: Region,
    forks: Regions,
    marker: Region,
) -> Result<Option<State>, AllocError>
    ensures { IfOk result (λ found. found
        ≡ step (InForks edition root supported forks) (ItemLine marker)) }
{
    let (kept, forks) = beside((root, supported), forks.with(marker))?;
    let (root, supported) = kept;
    Ok(Some(State::InForks(edition, root, supported, forks)))
}

// The state behind the line that closes the leaves.
fn closed_forks(edition: Edition, root: Name, supported: Region, forks: Regions) -> Option<State>
    ensures { result ≡ step (InForks edition root supported forks) CloseLine }
{
    if two_or_more(forks.as_slice()) {
        Some(State::AfterForks(Head {
            edition,
            root,
            supported,
            forks,
        }))
    } else {
        refused((root, supported, forks))
    }
}

/// The state behind a line among the leaves.
pub fn after_fork(
    edition: Edition,
    root: Name,
    supported: Region,
    forks: Regions,
    line: Line,
) -> Result<Option<State>, AllocError>
    ensures { IfOk result (λ found. found ≡ step (InForks edition root supported forks) line) }
{
    match line {
        Line::Item(marker) => with_fork(edition, root, supported, forks, marker),
        Line::Close => Ok(closed_forks(edition, root, supported, forks)),
        other => Ok(refused((root, supported, forks, other))),
    }
}

/// The state behind a line that follows the leaves.
pub fn after_forks(alloc: Global, head: Head, line: Line) -> Option<State>
    ensures { result ≡ step (AfterForks head) line }
{
    match line {
        Line::Gap => Some(State::AfterBlank(head, Packages::new(alloc))),
        other => refused((head, other)),
    }
}
