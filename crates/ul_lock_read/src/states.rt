//! What has been read of a text, and which line may follow.

ghost use Rattle.std.specs.Prelude.{◌≡◌, ◌++◌, ◌∷◌, [], IfOk};
ghost use Rattle.ul_lock_read.specs.Automaton.{step, final, head_of, sheet_of, plain_block};
ghost use Rattle.ul_lock_read.specs.declared.states.State.TheVariants.{InFiles, AfterFiles, InEdges, AfterEdges, AfterGap, InExtras, InExtra};

use crate::blocks::{
    after_blank, after_edge, after_edges, after_entry, after_extra, after_file, after_files,
    after_gap, after_listed, after_name, after_version,
};
use crate::heads::{
    after_first, after_fork, after_forks, after_nothing, after_root, after_supported,
};
use crate::orders::any_extra;
use std::alloc::{AllocError, Global};
use ul_base::Name;
use ul_base::owned::{beside, refused};
use ul_lock::{Edges, Extras, Files, Locked, Packages, Region, Regions};
use ul_lock_lines::{Edition, Line};
use ul_lock_write::{Head, Sheet};
use ul_version::Version;

/// What has been read: `After..` is the state behind a line or behind the end of a list, `In..` the one inside a list that
/// grows, and a gap is a blank line within a package. Packages that are complete are in the list; the one that is being
/// read lies in the state's own fields.
#[derive(Drop)]
pub enum State {
    Start,
    AfterFirst(Edition),
    AfterRoot(Edition, Name),
    AfterSupported(Edition, Name, Region),
    InForks(Edition, Name, Region, Regions),
    AfterForks(Head),
    AfterBlank(Head, Packages),
    AfterEntry(Head, Packages),
    AfterName(Head, Packages, Name),
    AfterVersion(Head, Packages, Name, Version),
    InFiles(Head, Packages, Name, Version, Files),
    AfterFiles(Head, Packages, Name, Version, Files),
    InEdges(Head, Packages, Name, Version, Files, Edges),
    AfterEdges(Head, Packages, Name, Version, Files, Edges),
    AfterGap(Head, Packages, Name, Version, Files, Edges),
    InExtras(Head, Packages, Name, Version, Files, Edges, Extras),
    InExtra(Head, Packages, Name, Version, Files, Edges, Extras, Name, Edges),
}

/// A package down to its version, below those that are complete.
#[derive(Drop)]
pub struct Top {
    pub head: Head,
    pub blocks: Packages,
    pub name: Name,
    pub version: Version,
}

impl Top {
    /// The package with these parts.
    pub fn of(head: Head, blocks: Packages, name: Name, version: Version) -> Top
        ensures { result ≡ record { head = head; blocks = blocks; name = name; version = version } }
    {
        Top {
            head,
            blocks,
            name,
            version,
        }
    }
}

/// The state with a list of files that grows.
pub fn state_in_files(top: Top, files: Files) -> State
    ensures { result ≡ InFiles top.head top.blocks top.name top.version files }
{
    let Top {
        head,
        blocks,
        name,
        version,
    } = top;
    State::InFiles(head, blocks, name, version, files)
}

/// The state behind a package's files.
pub fn state_after_files(top: Top, files: Files) -> State
    ensures { result ≡ AfterFiles top.head top.blocks top.name top.version files }
{
    let Top {
        head,
        blocks,
        name,
        version,
    } = top;
    State::AfterFiles(head, blocks, name, version, files)
}

/// The state with a list of edges that grows.
pub fn state_in_edges(top: Top, files: Files, edges: Edges) -> State
    ensures { result ≡ InEdges top.head top.blocks top.name top.version files edges }
{
    let Top {
        head,
        blocks,
        name,
        version,
    } = top;
    State::InEdges(head, blocks, name, version, files, edges)
}

/// The state behind a package's edges.
pub fn state_after_edges(top: Top, files: Files, edges: Edges) -> State
    ensures { result ≡ AfterEdges top.head top.blocks top.name top.version files edges }
{
    let Top {
        head,
        blocks,
        name,
        version,
    } = top;
    State::AfterEdges(head, blocks, name, version, files, edges)
}

/// The state behind the blank line after a package's edges.
pub fn state_after_gap(top: Top, files: Files, edges: Edges) -> State
    ensures { result ≡ AfterGap top.head top.blocks top.name top.version files edges }
{
    let Top {
        head,
        blocks,
        name,
        version,
    } = top;
    State::AfterGap(head, blocks, name, version, files, edges)
}

/// The state with extras that grow.
pub fn state_in_extras(top: Top, files: Files, edges: Edges, extras: Extras) -> State
    ensures { result ≡ InExtras top.head top.blocks top.name top.version files edges extras }
{
    let Top {
        head,
        blocks,
        name,
        version,
    } = top;
    State::InExtras(head, blocks, name, version, files, edges, extras)
}

/// The state with an extra's list of edges that grows.
pub fn state_in_extra(
    top: Top,
    files: Files,
    edges: Edges,
    extras: Extras,
    extra: Name,
    listed: Edges,
) -> State
    ensures { result ≡ InExtra top.head top.blocks top.name top.version files edges extras extra listed }
{
    let Top {
        head,
        blocks,
        name,
        version,
    } = top;
    State::InExtra(
        head, blocks, name, version, files, edges, extras, extra, listed,
    )
}

/// The head and the packages, with this one at their end.
pub fn complete(top: Top, files: Files, edges: Edges, extras: Extras) -> Result<Sheet, AllocError>
    ensures { IfOk result (λ sheet. sheet
        ≡ sheet_of top.head (top.blocks ++ plain_block top.name top.version files edges extras ∷ [])) }
{
    let Top {
        head,
        blocks,
        name,
        version,
    } = top;
    let (head, packages) = beside(
        head,
        blocks.with(Locked {
            name,
            version,
            files,
            edges,
            extras,
        }),
    )?;
    Ok(Sheet { head, packages })
}

/// The state behind the line, if it may follow.
pub fn next(alloc: Global, state: State, line: Line) -> Result<Option<State>, AllocError>
    ensures { IfOk result (λ found. found ≡ step state line) }
{
    match state {
        State::Start => Ok(after_nothing(line)),
        State::AfterFirst(edition) => Ok(after_first(edition, line)),
        State::AfterRoot(edition, root) => Ok(after_root(alloc, edition, root, line)),
        State::AfterSupported(edition, root, marker) => Ok(after_supported(
            alloc, edition, root, marker, line,
        )),
        State::InForks(edition, root, supported, forks) => after_fork(
            edition, root, supported, forks, line,
        ),
        State::AfterForks(head) => Ok(after_forks(alloc, head, line)),
        State::AfterBlank(head, blocks) => Ok(after_blank(head, blocks, line)),
        State::AfterEntry(head, blocks) => Ok(after_entry(head, blocks, line)),
        State::AfterName(head, blocks, name) => Ok(after_name(head, blocks, name, line)),
        State::AfterVersion(head, blocks, name, version) => Ok(after_version(
            alloc,
            Top::of(head, blocks, name, version),
            line,
        )),
        State::InFiles(head, blocks, name, version, files) => after_file(
            Top::of(head, blocks, name, version),
            files,
            line,
        ),
        State::AfterFiles(head, blocks, name, version, files) => Ok(after_files(
            alloc,
            Top::of(head, blocks, name, version),
            files,
            line,
        )),
        State::InEdges(head, blocks, name, version, files, edges) => after_edge(
            Top::of(head, blocks, name, version),
            files,
            edges,
            line,
        ),
        State::AfterEdges(head, blocks, name, version, files, edges) => Ok(after_edges(
            Top::of(head, blocks, name, version),
            files,
            edges,
            line,
        )),
        State::AfterGap(head, blocks, name, version, files, edges) => after_gap(
            alloc,
            Top::of(head, blocks, name, version),
            files,
            edges,
            line,
        ),
        State::InExtras(head, blocks, name, version, files, edges, extras) => {
            after_extra(
                alloc,
                Top::of(head, blocks, name, version),
                files,
                edges,
                extras,
                line,
            )
        }
        State::InExtra(head, blocks, name, version, files, edges, extras, extra, listed) => {
            after_listed(
                Top::of(head, blocks, name, version),
                files,
                edges,
                extras,
                extra,
                listed,
                line,
            )
        }
    }
}

// What has been read, with one more package that has no extras.
fn plain_end(
    alloc: Global,
    top: Top,
    files: Files,
    edges: Edges,
) -> Result<Option<Sheet>, AllocError>
    ensures { IfOk result (λ found. found ≡ final (AfterEdges top.head top.blocks top.name top.version files edges)) }
{
    let sheet = complete(top, files, edges, Extras::new(alloc))?;
    Ok(Some(sheet))
}

// What has been read, where a package's extras may end here.
fn table_end(
    top: Top,
    files: Files,
    edges: Edges,
    extras: Extras,
) -> Result<Option<Sheet>, AllocError>
    ensures { IfOk result (λ found.
        found ≡ final (InExtras top.head top.blocks top.name top.version files edges extras)) }
{
    if any_extra(extras.as_slice()) {
        let sheet = complete(top, files, edges, extras)?;
        Ok(Some(sheet))
    } else {
        Ok(refused((top, files, edges, extras)))
    }
}

// A text without packages.
fn bare_sheet(alloc: Global, edition: Edition, root: Name, supported: Region) -> Sheet
    ensures { result ≡ sheet_of (head_of edition root supported []) [] }
{
    let head = Head {
        edition,
        root,
        supported,
        forks: Regions::new(alloc),
    };
    Sheet {
        head,
        packages: Packages::new(alloc),
    }
}

/// What has been read, where the text may end here.
pub fn ended(alloc: Global, state: State) -> Result<Option<Sheet>, AllocError>
    ensures { IfOk result (λ found. found ≡ final state) }
{
    match state {
        State::AfterRoot(edition, root) => Ok(Some(bare_sheet(
            alloc,
            edition,
            root,
            Region::all(),
        ))),
        State::AfterSupported(edition, root, marker) => Ok(Some(bare_sheet(
            alloc, edition, root, marker,
        ))),
        State::AfterForks(head) => Ok(Some(Sheet {
            head,
            packages: Packages::new(alloc),
        })),
        State::AfterVersion(head, blocks, name, version) => {
            plain_end(
                alloc,
                Top::of(head, blocks, name, version),
                Files::new(alloc),
                Edges::new(alloc),
            )
        }
        State::AfterFiles(head, blocks, name, version, files) => {
            plain_end(
                alloc,
                Top::of(head, blocks, name, version),
                files,
                Edges::new(alloc),
            )
        }
        State::AfterEdges(head, blocks, name, version, files, edges) => {
            plain_end(alloc, Top::of(head, blocks, name, version), files, edges)
        }
        State::InExtras(head, blocks, name, version, files, edges, extras) => {
            table_end(Top::of(head, blocks, name, version), files, edges, extras)
        }
        other => Ok(refused(other)),
    }
}
