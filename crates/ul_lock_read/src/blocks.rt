//! Which line may follow, in the packages.

ghost use Rattle.std.specs.Prelude.{◌≡◌, ◌++◌, ◌∷◌, [], IfOk, bytes_eq};
ghost use Rattle.ul_lock_read.specs.Automaton.{step, may, second, block_list};
ghost use Rattle.ul_lock_lines.specs.declared.lines.Line.TheVariants.{Bare as BareLine, Close as CloseLine, Edge as EdgeLine, Entry as EntryLine, File as FileLine, Gap as GapLine, Name as NameLine, Opens as OpensLine, Version as VersionLine};
ghost use Rattle.ul_lock_write.specs.Sheet.{edges_key};
ghost use Rattle.ul_lock_read.specs.declared.states.State.TheVariants.{AfterBlank, AfterEntry, AfterName, AfterVersion, InFiles, AfterFiles, InEdges, AfterEdges, AfterGap, InExtras, InExtra};

use crate::orders::{
    any_edge, any_extra, any_file, edge_tops, extra_tops, file_tops, is_second, key_is,
    package_tops, version_tops,
};
use crate::states::{
    State, Top, complete, state_after_edges, state_after_files, state_after_gap, state_in_edges,
    state_in_extra, state_in_extras, state_in_files,
};
use std::alloc::{AllocError, Global};
use ul_base::Name;
use ul_base::owned::{beside, refused};
use ul_lock::{Edge, Edges, Extra, Extras, Files, Packages};
use ul_lock_lines::Line;
use ul_lock_write::{Head, Sheet};
use ul_requirement::FileEntry;
use ul_version::Version;

// The state behind the line that opens a list of edges.
fn opened_edges(alloc: Global, top: Top, files: Files, key: Name) -> Option<State>
    ensures { result ≡ may (bytes_eq key edges_key) (InEdges top.head top.blocks top.name top.version files []) }
{
    if key_is(&key, b"dependencies") {
        Some(state_in_edges(top, files, Edges::new(alloc)))
    } else {
        refused((top, files))
    }
}

// The state behind the line that opens a list of files, where the format has one.
fn opened_files(alloc: Global, top: Top) -> Option<State>
    ensures { result ≡ may (second top.head.edition) (InFiles top.head top.blocks top.name top.version []) }
{
    if is_second(top.head.edition) {
        Some(state_in_files(top, Files::new(alloc)))
    } else {
        refused(top)
    }
}

// The state behind the line that opens a list of files or of edges.
fn opened_list(alloc: Global, top: Top, key: Name) -> Option<State>
    ensures { result ≡ block_list top.head top.blocks top.name top.version key }
{
    if key_is(&key, b"files") {
        opened_files(alloc, top)
    } else {
        opened_edges(alloc, top, Files::new(alloc), key)
    }
}

/// The state behind a line that follows the blank one before a package.
pub fn after_blank(head: Head, blocks: Packages, line: Line) -> Option<State>
    ensures { result ≡ step (AfterBlank head blocks) line }
{
    match line {
        Line::Entry => Some(State::AfterEntry(head, blocks)),
        other => refused((head, blocks, other)),
    }
}

// The state behind the name of a package.
fn named(head: Head, blocks: Packages, name: Name) -> Option<State>
    ensures { result ≡ step (AfterEntry head blocks) (NameLine name) }
{
    if package_tops(blocks.as_slice(), &name) {
        Some(State::AfterName(head, blocks, name))
    } else {
        refused((head, blocks, name))
    }
}

/// The state behind a line that follows a package's first.
pub fn after_entry(head: Head, blocks: Packages, line: Line) -> Option<State>
    ensures { result ≡ step (AfterEntry head blocks) line }
{
    match line {
        Line::Name(name) => named(head, blocks, name),
        other => refused((head, blocks, other)),
    }
}

// The state behind the version of a package.
fn state_after_version(head: Head, blocks: Packages, name: Name, version: Version) -> Option<State>
    ensures { result ≡ step (AfterName head blocks name) (VersionLine version) }
{
    if version_tops(blocks.as_slice(), &name, &version) {
        Some(State::AfterVersion(head, blocks, name, version))
    } else {
        refused((head, blocks, name, version))
    }
}

/// The state behind a line that follows a package's name.
pub fn after_name(head: Head, blocks: Packages, name: Name, line: Line) -> Option<State>
    ensures { result ≡ step (AfterName head blocks name) line }
{
    match line {
        Line::Version(version) => state_after_version(head, blocks, name, version),
        other => refused((head, blocks, name, other)),
    }
}

/// The state behind a line that follows a package's version.
pub fn after_version(alloc: Global, top: Top, line: Line) -> Option<State>
    ensures { result ≡ step (AfterVersion top.head top.blocks top.name top.version) line }
{
    match line {
        Line::Opens(key) => opened_list(alloc, top, key),
        Line::Gap => Some(state_after_gap(top, Files::new(alloc), Edges::new(alloc))),
        other => refused((top, other)),
    }
}

// The state behind one more file.
fn with_file(top: Top, files: Files, file: FileEntry) -> Result<Option<State>, AllocError>
    ensures { IfOk result (λ found. found
        ≡ step (InFiles top.head top.blocks top.name top.version files) (FileLine file)) }
{
    if file_tops(files.as_slice(), &file) {
        let (top, files) = beside(top, files.with(file))?;
        Ok(Some(state_in_files(top, files)))
    } else {
        Ok(refused((top, files, file)))
    }
}

// The state behind the line that closes the files.
fn closed_files(top: Top, files: Files) -> Option<State>
    ensures { result ≡ step (InFiles top.head top.blocks top.name top.version files) CloseLine }
{
    if any_file(files.as_slice()) {
        Some(state_after_files(top, files))
    } else {
        refused((top, files))
    }
}

/// The state behind a line among a package's files.
pub fn after_file(top: Top, files: Files, line: Line) -> Result<Option<State>, AllocError>
    ensures { IfOk result (λ found. found
        ≡ step (InFiles top.head top.blocks top.name top.version files) line) }
{
    match line {
        Line::File(file) => with_file(top, files, file),
        Line::Close => Ok(closed_files(top, files)),
        other => Ok(refused((top, files, other))),
    }
}

/// The state behind a line that follows a package's files.
pub fn after_files(alloc: Global, top: Top, files: Files, line: Line) -> Option<State>
    ensures { result ≡ step (AfterFiles top.head top.blocks top.name top.version files) line }
{
    match line {
        Line::Opens(key) => opened_edges(alloc, top, files, key),
        Line::Gap => Some(state_after_gap(top, files, Edges::new(alloc))),
        other => refused((top, files, other)),
    }
}

// The state behind one more edge.
fn with_edge(top: Top, files: Files, edges: Edges, edge: Edge) -> Result<Option<State>, AllocError>
    ensures { IfOk result (λ found. found
        ≡ step (InEdges top.head top.blocks top.name top.version files edges) (EdgeLine edge)) }
{
    if edge_tops(edges.as_slice(), &edge) {
        let (kept, edges) = beside((top, files), edges.with(edge))?;
        let (top, files) = kept;
        Ok(Some(state_in_edges(top, files, edges)))
    } else {
        Ok(refused((top, files, edges, edge)))
    }
}

// The state behind the line that closes the edges.
fn closed_edges(top: Top, files: Files, edges: Edges) -> Option<State>
    ensures { result ≡ step (InEdges top.head top.blocks top.name top.version files edges) CloseLine }
{
    if any_edge(edges.as_slice()) {
        Some(state_after_edges(top, files, edges))
    } else {
        refused((top, files, edges))
    }
}

/// The state behind a line among a package's edges.
pub fn after_edge(
    top: Top,
    files: Files,
    edges: Edges,
    line: Line,
) -> Result<Option<State>, AllocError>
    ensures { IfOk result (λ found. found
        ≡ step (InEdges top.head top.blocks top.name top.version files edges) line) }
{
    match line {
        Line::Edge(edge) => with_edge(top, files, edges, edge),
        Line::Close => Ok(closed_edges(top, files, edges)),
        other => Ok(refused((top, files, edges, other))),
    }
}

/// The state behind a line that follows a package's edges.
pub fn after_edges(top: Top, files: Files, edges: Edges, line: Line) -> Option<State>
    ensures { result ≡ step (AfterEdges top.head top.blocks top.name top.version files edges) line }
{
    match line {
        Line::Gap => Some(state_after_gap(top, files, edges)),
        other => refused((top, files, edges, other)),
    }
}

// The state behind the line that begins the next package, where this one has no extras.
fn next_entry(
    alloc: Global,
    top: Top,
    files: Files,
    edges: Edges,
) -> Result<Option<State>, AllocError>
    ensures { IfOk result (λ found. found
        ≡ step (AfterGap top.head top.blocks top.name top.version files edges) EntryLine) }
{
    let sheet = complete(top, files, edges, Extras::new(alloc))?;
    let Sheet { head, packages } = sheet;
    Ok(Some(State::AfterEntry(head, packages)))
}

/// The state behind a line that follows the blank one behind a package.
pub fn after_gap(
    alloc: Global,
    top: Top,
    files: Files,
    edges: Edges,
    line: Line,
) -> Result<Option<State>, AllocError>
    ensures { IfOk result (λ found. found
        ≡ step (AfterGap top.head top.blocks top.name top.version files edges) line) }
{
    match line {
        Line::Entry => next_entry(alloc, top, files, edges),
        Line::Table => Ok(Some(state_in_extras(top, files, edges, Extras::new(alloc)))),
        other => Ok(refused((top, files, edges, other))),
    }
}

// The extras with one more, of this name and with these edges.
fn with_extra(extras: Extras, name: Name, edges: Edges) -> Result<Extras, AllocError>
    ensures { IfOk result (λ found. found ≡ extras ++ record { name = name; edges = edges } ∷ []) }
{
    let found = extras.with(Extra { name, edges })?;
    Ok(found)
}

// The state behind an extra without edges.
fn with_bare(
    alloc: Global,
    top: Top,
    files: Files,
    edges: Edges,
    extras: Extras,
    extra: Name,
) -> Result<Option<State>, AllocError>
    ensures { IfOk result (λ found. found
        ≡ step (InExtras top.head top.blocks top.name top.version files edges extras) (BareLine extra)) }
{
    if extra_tops(extras.as_slice(), &extra) {
        let made = with_extra(extras, extra, Edges::new(alloc));
        let (kept, extras) = beside((top, files, edges), made)?;
        let (top, files, edges) = kept;
        Ok(Some(state_in_extras(top, files, edges, extras)))
    } else {
        Ok(refused((top, files, edges, extras, extra)))
    }
}

// The state behind the line that opens an extra's edges.
fn opened_extra(
    alloc: Global,
    top: Top,
    files: Files,
    edges: Edges,
    extras: Extras,
    extra: Name,
) -> Option<State>
    ensures { result ≡ step (InExtras top.head top.blocks top.name top.version files edges extras) (OpensLine extra) }
{
    if extra_tops(extras.as_slice(), &extra) {
        Some(state_in_extra(top, files, edges, extras, extra, Edges::new(alloc)))
    } else {
        refused((top, files, edges, extras, extra))
    }
}

// The state behind the blank line that ends a package with extras.
fn closed_table(
    top: Top,
    files: Files,
    edges: Edges,
    extras: Extras,
) -> Result<Option<State>, AllocError>
    ensures { IfOk result (λ found. found
        ≡ step (InExtras top.head top.blocks top.name top.version files edges extras) GapLine) }
{
    if any_extra(extras.as_slice()) {
        let sheet = complete(top, files, edges, extras)?;
        let Sheet { head, packages } = sheet;
        Ok(Some(State::AfterBlank(head, packages)))
    } else {
        Ok(refused((top, files, edges, extras)))
    }
}

/// The state behind a line among a package's extras.
pub fn after_extra(
    alloc: Global,
    top: Top,
    files: Files,
    edges: Edges,
    extras: Extras,
    line: Line,
) -> Result<Option<State>, AllocError>
    ensures { IfOk result (λ found. found
        ≡ step (InExtras top.head top.blocks top.name top.version files edges extras) line) }
{
    match line {
        Line::Bare(extra) => with_bare(alloc, top, files, edges, extras, extra),
        Line::Opens(extra) => Ok(opened_extra(alloc, top, files, edges, extras, extra)),
        Line::Gap => closed_table(top, files, edges, extras),
        other => Ok(refused((top, files, edges, extras, other))),
    }
}

// The state behind one more edge of an extra.
fn with_listed(
    top: Top,
    files: Files,
    edges: Edges,
    extras: Extras,
    extra: Name,
    listed: Edges,
    edge: Edge,
) -> Result<Option<State>, AllocError>
    ensures { IfOk result (λ found. found
        ≡ step (InExtra top.head top.blocks top.name top.version files edges extras extra listed)
        (EdgeLine edge)) }
{
    if edge_tops(listed.as_slice(), &edge) {
        let (kept, listed) = beside((top, files, edges, extras, extra), listed.with(edge))?;
        let (top, files, edges, extras, extra) = kept;
        Ok(Some(state_in_extra(top, files, edges, extras, extra, listed)))
    } else {
        Ok(refused((top, files, edges, extras, extra, listed, edge)))
    }
}

// The state behind the line that closes an extra's edges.
fn closed_listed(
    top: Top,
    files: Files,
    edges: Edges,
    extras: Extras,
    extra: Name,
    listed: Edges,
) -> Result<Option<State>, AllocError>
    ensures { IfOk result (λ found. found
        ≡ step (InExtra top.head top.blocks top.name top.version files edges extras extra listed)
        CloseLine) }
{
    if any_edge(listed.as_slice()) {
        let (kept, extras) = beside((top, files, edges), with_extra(extras, extra, listed))?;
        let (top, files, edges) = kept;
        Ok(Some(state_in_extras(top, files, edges, extras)))
    } else {
        Ok(refused((top, files, edges, extras, extra, listed)))
    }
}

/// The state behind a line among an extra's edges.
pub fn after_listed(
    top: Top,
    files: Files,
    edges: Edges,
    extras: Extras,
    extra: Name,
    listed: Edges,
    line: Line,
) -> Result<Option<State>, AllocError>
    ensures { IfOk result (λ found. found
        ≡ step (InExtra top.head top.blocks top.name top.version files edges extras extra listed) line) }
{
    match line {
        Line::Edge(edge) => with_listed(top, files, edges, extras, extra, listed, edge),
        Line::Close => closed_listed(top, files, edges, extras, extra, listed),
        other => Ok(refused((top, files, edges, extras, extra, listed, other))),
    }
}
