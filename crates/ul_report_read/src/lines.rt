//! Reading one line.
ghost use Rattle.std.specs.Prelude.{◌≡◌, IfOk, option_map};
ghost use Rattle.ul_marker_text.specs.MarkerOfText.{marker_of_text};
ghost use Rattle.ul_report_read.specs.LineReading as spec;
ghost use Rattle.ul_report_read.specs.LineReading.{body_at, fork_at, line_of, numbered_at, path_at, plain_at, region_at, region_line_at, world_at};

use crate::line::Line;
use crate::proof::Path;
use crate::steps::{number_front, step};
use std::alloc::{AllocError, Global};
use ul_lines::{divided, same, stripped};
use ul_lock::Region;
use ul_lock_lines::Text;

// The step of a path that a digit says.
fn digit(byte: u8) -> Option<bool>
    ensures { result ≡ spec.digit_at byte }
{
    if byte == b'0' {
        Some(false)
    } else if byte == b'1' {
        Some(true)
    } else {
        None
    }
}

// The digits of a path.
fn digits(alloc: Global, bytes: &[u8]) -> Result<Option<Vec<bool>>, AllocError>
    ensures { IfOk result (λ o. option_map (λ v. v.items) o ≡ spec.digits_at bytes.now) }
{
    let mut digits = Vec::with_capacity(alloc, bytes.len())?;
    for byte in bytes {
        match digit(*byte) {
            Some(step) => digits.push(step)?,
            None => return Ok(None),
        }
    }
    Ok(Some(digits))
}

// A path: digits, or `-` for the whole region.
#[tactic(auto, unfolding(crate::specs::LineReading::path_at))]
fn path(alloc: Global, bytes: &[u8]) -> Result<Option<Path>, AllocError>
    ensures { IfOk result (λ o. o ≡ path_at bytes.now) }
{
    if same(bytes, b"-") {
        return Ok(Some(Path::of(Vec::new(alloc))));
    }
    if bytes.is_empty() {
        return Ok(None);
    }
    match digits(alloc, bytes)? {
        None => Ok(None),
        Some(digits) => Ok(Some(Path::of(digits))),
    }
}

// The region of a marker's text.
fn region_of(alloc: Global, bytes: &[u8]) -> Result<Option<Region>, AllocError>
    ensures { IfOk result (λ o. o ≡ marker_of_text bytes.now) }
{
    match ul_marker_text::read_marker(alloc, bytes)? {
        None => Ok(None),
        Some(tree) => Ok(Some(Region::of(tree))),
    }
}

// A region: a marker's text, or `*` for all worlds.
#[tactic(auto, unfolding(crate::specs::LineReading::region_at))]
fn region(alloc: Global, bytes: &[u8]) -> Result<Option<Region>, AllocError>
    ensures { IfOk result (λ o. o ≡ region_at bytes.now) }
{
    if same(bytes, b"*") {
        return Ok(Some(Region::all()));
    }
    region_of(alloc, bytes)
}

fn fork(alloc: Global, bytes: &[u8]) -> Result<Option<Line>, AllocError>
    ensures { IfOk result (λ o. o ≡ fork_at bytes.now) }
{
    match stripped(bytes, b"fork: ") {
        None => Ok(None),
        Some(rest) => match path(alloc, rest)? {
            None => Ok(None),
            Some(path) => Ok(Some(Line::Fork(path))),
        },
    }
}

fn region_line(alloc: Global, bytes: &[u8]) -> Result<Option<Line>, AllocError>
    ensures { IfOk result (λ o. o ≡ region_line_at bytes.now) }
{
    match stripped(bytes, b"region: ") {
        None => Ok(None),
        Some(rest) => match region(alloc, rest)? {
            None => Ok(None),
            Some(region) => Ok(Some(Line::Region(region))),
        },
    }
}

fn world(alloc: Global, bytes: &[u8]) -> Result<Option<Line>, AllocError>
    ensures { IfOk result (λ o. o ≡ world_at bytes.now) }
{
    match stripped(bytes, b"world: ") {
        None => Ok(None),
        Some(rest) => {
            let text = Text::of(alloc, rest)?;
            Ok(Some(Line::World(text)))
        }
    }
}

// A line that begins with no digit.
fn plain(alloc: Global, bytes: &[u8]) -> Result<Option<Line>, AllocError>
    ensures { IfOk result (λ o. o ≡ plain_at bytes.now) }
{
    if same(bytes, b"no selection serves this fork") {
        return Ok(Some(Line::Title));
    }
    if let Some(line) = fork(alloc, bytes)? {
        return Ok(Some(line));
    }
    if let Some(line) = region_line(alloc, bytes)? {
        return Ok(Some(line));
    }
    world(alloc, bytes)
}

// A step behind its number.
fn numbered(alloc: Global, bytes: &[u8]) -> Result<Option<Line>, AllocError>
    ensures { IfOk result (λ o. o ≡ numbered_at bytes.now) }
{
    match number_front(bytes) {
        None => Ok(None),
        Some((number, rest)) => match step(alloc, rest)? {
            None => Ok(None),
            Some(step) => Ok(Some(Line::Step(number, step))),
        },
    }
}

// A line without its end.
fn body(alloc: Global, bytes: &[u8]) -> Result<Option<Line>, AllocError>
    ensures { IfOk result (λ o. o ≡ body_at bytes.now) }
{
    match bytes {
        [first, ..] if first.is_ascii_digit() => numbered(alloc, bytes),
        _ => plain(alloc, bytes),
    }
}

/// The line that stands there.
#[tactic(auto, unfolding(crate::specs::LineReading::line_of))]
pub fn line(alloc: Global, bytes: &[u8]) -> Result<Option<Line>, AllocError>
    ensures { IfOk result (λ o. o ≡ line_of bytes.now) }
{
    match divided(bytes, b'\n') {
        None => Ok(None),
        Some((front, back)) => {
            if back.is_empty() {
                body(alloc, front)
            } else {
                Ok(None)
            }
        }
    }
}
