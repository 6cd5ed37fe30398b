//! What the lines of a file say.
ghost use Rattle.std.specs.Prelude.{◌≡◌, ◌∷◌, [], IfOk, map, option_map};
ghost use Rattle.ul_marker.specs.Views.{marker_view};
ghost use Rattle.ul_canonical.specs.Reading.{ReadsLines, if_read};
ghost use Rattle.ul_canonical.specs.Lines as spec;

use crate::CanonicalFault;
use std::alloc::{AllocError, Global};
use ul_base::owned::with_one;
use ul_lines::{before_end, first_line, same};
use ul_marker::{Marker, MarkerFault};

// The marker that was read, or that there is none.
fn if_read(read: Result<Marker, MarkerFault>) -> Result<Option<Marker>, AllocError>
    ensures { result ≡ if_read read }
{
    match read {
        Ok(marker) => Ok(Some(marker)),
        Err(MarkerFault::NoReading) => Ok(None),
        Err(MarkerFault::NoMemory) => Err(AllocError),
    }
}

// The marker that bytes spell.
fn bytes_marker(alloc: Global, bytes: &[u8]) -> Result<Option<Marker>, AllocError>
    ensures { IfOk result (λ m. option_map marker_view m ≡ spec.marker_of_bytes bytes.now) }
{
    let Ok(text) = str::from_utf8(bytes) else {
        return Ok(None);
    };
    if_read(Marker::read_locked(alloc, text))
}

// What a text says. A marker of no parts is true everywhere, or nowhere.
fn text_marker(alloc: Global, text: &[u8]) -> Result<Option<Marker>, AllocError>
    ensures { IfOk result (λ m. option_map marker_view m ≡ spec.formula_of_text text.now) }
{
    if same(text, b"*") {
        return Ok(Some(Marker::All(Vec::new(alloc))));
    }
    if same(text, b"never") {
        return Ok(Some(Marker::Any(Vec::new(alloc))));
    }
    bytes_marker(alloc, text)
}

// What a line says.
fn line_marker(alloc: Global, line: &[u8]) -> Result<Option<Marker>, AllocError>
    ensures { IfOk result (λ m. option_map marker_view m ≡ spec.formula_of_line line.now) }
{
    match before_end(line, b"\n") {
        Some(text) => text_marker(alloc, text),
        None => Ok(None),
    }
}

/// What the lines of a file say, as markers.
///
/// # Errors
///
/// `Line` with the number of the first that says nothing; or want of memory.
pub(crate) fn markers_of(alloc: Global, bytes: &[u8]) -> Result<Vec<Marker>, CanonicalFault>
    ensures { ReadsLines bytes.now result }
{
    let mut markers = Vec::new(alloc);
    let mut number: u64 = 1;
    let mut rest = bytes;
    while !rest.is_empty() {
        let (line, after) = first_line(rest);
        match line_marker(alloc, line)? {
            None => return Err(CanonicalFault::Line(number)),
            Some(marker) => markers = with_one(markers, marker)?,
        }
        number += 1;
        rest = after;
    }
    Ok(markers)
}
