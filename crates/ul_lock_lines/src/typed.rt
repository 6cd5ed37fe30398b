//! The values of a line.

ghost use Rattle.std.specs.Prelude.{◌≡◌, IfOk, ℕ, List, option_map, true};
ghost use Rattle.std.specs.Char.{is_ascii};
ghost use Rattle.std.specs.List.{list_all};
ghost use Rattle.ul_base.specs.Names.{name_of};
ghost use Rattle.ul_version.specs.Reading.{version_of};
ghost use Rattle.ul_lock_lines.specs.Faults.{name_if_read, version_if_read};
ghost use Rattle.ul_lock_lines.specs.LineReading.{ascii_at, name_at, version_at, marker_at, fork_at, unescaped, name_option, marker_option, edge_at, file_at, file_made, typed, line_of};
ghost use Rattle.ul_marker_text.specs.MarkerOfText.{marker_of_text};
ghost use Rattle.ul_requirement.specs.Fields.{is_file_byte, is_file_name, is_digest, is_hex};
ghost use Rattle.ul_lock_lines.specs.Text.{escaped};

use crate::lines::{Line, RawEdge, RawFile, RawLine, Text};
use crate::reading::any;
use std::alloc::{AllocError, Global};
use ul_base::{Name, NameFault, Node};
use ul_lines::same;
use ul_lock::{Edge, Region};
use ul_requirement::FileEntry;
use ul_version::{Version, VersionFault};

fn are_ascii(bytes: &[u8]) -> bool
    ensures { result ≡ list_all is_ascii bytes.now }
{
    for byte in bytes {
        if *byte >= 128 {
            return false;
        }
    }
    true
}

/// ASCII bytes as text.
pub fn text_of_ascii(bytes: &[u8]) -> &str
    requires { list_all is_ascii bytes.now ≡ true }
    ensures { result.now ≡ bytes.now }
{
    let Ok(text) = str::from_utf8(bytes) else {
        return "";
    };
    text
}

fn ascii(bytes: &[u8]) -> Option<&str>
    ensures { option_map (λ t. t.now) result ≡ ascii_at bytes.now }
{
    if are_ascii(bytes) {
        Some(text_of_ascii(bytes))
    } else {
        None
    }
}

// The name that was read, or that there is none.
fn name_if_read(read: Result<Name, NameFault>) -> Result<Option<Name>, AllocError>
    ensures { result ≡ name_if_read read }
{
    match read {
        Ok(name) => Ok(Some(name)),
        Err(NameFault::NoReading) => Ok(None),
        Err(NameFault::NoMemory) => Err(AllocError),
    }
}

fn name_of_text(alloc: Global, text: &str) -> Result<Option<Name>, AllocError>
    ensures { IfOk result (λ found. found ≡ name_of text.now) }
{
    name_if_read(Name::read(alloc, text))
}

/// The name whose normal text this is.
#[tactic(auto, unfolding(crate::specs::LineReading::name_at))]
pub fn name(alloc: Global, bytes: &[u8]) -> Result<Option<Name>, AllocError>
    ensures { IfOk result (λ found. found ≡ name_at bytes.now) }
{
    match ascii(bytes) {
        None => Ok(None),
        Some(text) => match name_of_text(alloc, text)? {
            None => Ok(None),
            Some(name) => {
                if same(name.text().as_bytes(), bytes) {
                    Ok(Some(name))
                } else {
                    Ok(None)
                }
            }
        },
    }
}

// The version that was read, or that there is none.
fn version_if_read(read: Result<Version, VersionFault>) -> Result<Option<Version>, AllocError>
    ensures { result ≡ version_if_read read }
{
    match read {
        Ok(version) => Ok(Some(version)),
        Err(VersionFault::NoReading) => Ok(None),
        Err(VersionFault::NoMemory) => Err(AllocError),
    }
}

fn version_of_text(alloc: Global, bytes: &[u8]) -> Result<Option<Version>, AllocError>
    ensures { IfOk result (λ found. found ≡ version_of bytes.now) }
{
    version_if_read(Version::read_bytes(alloc, bytes))
}

/// The version whose normal text this is.
#[tactic(auto, unfolding(crate::specs::LineReading::version_at))]
pub fn version(alloc: Global, bytes: &[u8]) -> Result<Option<Version>, AllocError>
    ensures { IfOk result (λ found. found ≡ version_at bytes.now) }
{
    match version_of_text(alloc, bytes)? {
        None => Ok(None),
        Some(version) => {
            let again = version.text(alloc)?;
            if same(again.as_str().as_bytes(), bytes) {
                Ok(Some(version))
            } else {
                Ok(None)
            }
        }
    }
}

fn unescaped_text(alloc: Global, bytes: &[u8]) -> Result<Vec<u8>, AllocError>
    ensures { IfOk result (λ v. v.items ≡ unescaped bytes.now) }
{
    let mut out = Vec::new(alloc);
    for byte in bytes {
        if *byte != b'\\' {
            out.push(*byte)?;
        }
    }
    Ok(out)
}

/// Each quote behind a backslash.
pub fn escaped_text(alloc: Global, bytes: &[u8]) -> Result<Vec<u8>, AllocError>
    ensures { IfOk result (λ v. v.items ≡ escaped bytes.now) }
{
    let mut out = Vec::new(alloc);
    for byte in bytes {
        if *byte == b'"' {
            out.push(b'\\')?;
        }
        out.push(*byte)?;
    }
    Ok(out)
}

// The region of a marker's text.
fn region_of(alloc: Global, bytes: &[u8]) -> Result<Option<Region>, AllocError>
    ensures { IfOk result (λ found. found ≡ marker_of_text bytes.now) }
{
    match ul_marker_text::read_marker(alloc, bytes)? {
        None => Ok(None),
        Some(tree) => Ok(Some(Region::of(tree))),
    }
}

#[tactic(auto, unfolding(crate::specs::LineReading::marker_at))]
fn marker(alloc: Global, bytes: &[u8]) -> Result<Option<Region>, AllocError>
    ensures { IfOk result (λ found. found ≡ marker_at bytes.now) }
{
    let plain = unescaped_text(alloc, bytes)?;
    let again = escaped_text(alloc, plain.as_slice())?;
    if !same(again.as_slice(), bytes) {
        return Ok(None);
    }
    region_of(alloc, plain.as_slice())
}

#[tactic(auto, unfolding(crate::specs::LineReading::fork_at))]
fn fork(alloc: Global, bytes: &[u8]) -> Result<Option<Region>, AllocError>
    ensures { IfOk result (λ found. found ≡ fork_at bytes.now) }
{
    if same(bytes, b"*") {
        return Ok(Some(Region::all()));
    }
    marker(alloc, bytes)
}

fn optional_name(alloc: Global, text: &Option<Text>) -> Result<Option<Option<Name>>, AllocError>
    ensures { IfOk result (λ found. found ≡ name_option text.now) }
{
    match text {
        None => Ok(Some(None)),
        Some(text) => match name(alloc, text.as_bytes())? {
            None => Ok(None),
            Some(found) => Ok(Some(Some(found))),
        },
    }
}

fn optional_marker(alloc: Global, text: &Option<Text>) -> Result<Option<Region>, AllocError>
    ensures { IfOk result (λ found. found ≡ marker_option text.now) }
{
    match text {
        None => Ok(Some(Region::all())),
        Some(text) => marker(alloc, text.as_bytes()),
    }
}

fn edge(alloc: Global, raw: &RawEdge) -> Result<Option<Line>, AllocError>
    ensures { IfOk result (λ found. found ≡ edge_at raw.now) }
{
    match name(alloc, raw.name.as_bytes())? {
        None => Ok(None),
        Some(name) => match version(alloc, raw.version.as_bytes())? {
            None => Ok(None),
            Some(version) => match optional_name(alloc, &raw.extra)? {
                None => Ok(None),
                Some(extra) => match optional_marker(alloc, &raw.marker)? {
                    None => Ok(None),
                    Some(marker) => Ok(Some(Line::Edge(Edge {
                        target: Node { name, extra },
                        version,
                        marker,
                    }))),
                },
            },
        },
    }
}

fn is_file(byte: u8) -> bool
    ensures { result ≡ is_file_byte byte }
{
    byte > b' ' && (byte <= b'~' && !(byte == b'"' || byte == b'\\'))
}

fn are_file_bytes(bytes: &[u8]) -> bool
    ensures { result ≡ list_all is_file_byte bytes.now }
{
    for byte in bytes {
        if !is_file(*byte) {
            return false;
        }
    }
    true
}

fn is_file_text(bytes: &[u8]) -> bool
    ensures { result ≡ is_file_name bytes.now }
{
    0 < bytes.len() && are_file_bytes(bytes)
}

fn is_hex_digit(byte: u8) -> bool
    ensures { result ≡ is_hex byte }
{
    byte.is_ascii_digit() || (97 <= byte && byte <= 102)
}

fn are_hex_digits(bytes: &[u8]) -> bool
    ensures { result ≡ list_all is_hex bytes.now }
{
    for byte in bytes {
        if !is_hex_digit(*byte) {
            return false;
        }
    }
    true
}

fn is_digest_text(bytes: &[u8]) -> bool
    ensures { result ≡ is_digest bytes.now }
{
    bytes.len() == 64 && are_hex_digits(bytes)
}

fn file_entry(alloc: Global, name: &str, sum: &str) -> Result<FileEntry, AllocError>
    requires name { is_file_name name.now ≡ true }
    requires sum { is_digest sum.now ≡ true }
    ensures { IfOk result (λ f. f ≡ record { file = name.now; sha256 = sum.now }) }
{
    let file = String::from_str(alloc, name)?;
    let sha256 = String::from_str(alloc, sum)?;
    Ok(FileEntry { file, sha256 })
}

fn file_of_texts(alloc: Global, name: &str, sum: &str) -> Result<Option<Line>, AllocError>
    ensures { IfOk result (λ found. found ≡ file_made name.now sum.now) }
{
    if !is_file_text(name.as_bytes()) {
        return Ok(None);
    }
    if !is_digest_text(sum.as_bytes()) {
        return Ok(None);
    }
    let file = file_entry(alloc, name, sum)?;
    Ok(Some(Line::File(file)))
}

fn file(alloc: Global, raw: &RawFile) -> Result<Option<Line>, AllocError>
    ensures { IfOk result (λ found. found ≡ file_at raw.now) }
{
    match ascii(raw.file.as_bytes()) {
        None => Ok(None),
        Some(name) => match ascii(raw.hash.as_bytes()) {
            None => Ok(None),
            Some(sum) => file_of_texts(alloc, name, sum),
        },
    }
}

fn named(alloc: Global, text: &Text) -> Result<Option<Name>, AllocError>
    ensures { IfOk result (λ found. found ≡ name_at text.now) }
{
    name(alloc, text.as_bytes())
}

fn values(alloc: Global, raw: &RawLine) -> Result<Option<Line>, AllocError>
    ensures { IfOk result (λ found. found ≡ typed raw.now) }
{
    match raw {
        RawLine::First(edition) => Ok(Some(Line::First(*edition))),
        RawLine::Root(text) => match named(alloc, text)? {
            None => Ok(None),
            Some(name) => Ok(Some(Line::Root(name))),
        },
        RawLine::Supported(text) => match marker(alloc, text.as_bytes())? {
            None => Ok(None),
            Some(region) => Ok(Some(Line::Supported(region))),
        },
        RawLine::Item(text) => match fork(alloc, text.as_bytes())? {
            None => Ok(None),
            Some(region) => Ok(Some(Line::Item(region))),
        },
        RawLine::Close => Ok(Some(Line::Close)),
        RawLine::Gap => Ok(Some(Line::Gap)),
        RawLine::Entry => Ok(Some(Line::Entry)),
        RawLine::Name(text) => match named(alloc, text)? {
            None => Ok(None),
            Some(name) => Ok(Some(Line::Name(name))),
        },
        RawLine::Version(text) => match version(alloc, text.as_bytes())? {
            None => Ok(None),
            Some(version) => Ok(Some(Line::Version(version))),
        },
        RawLine::File(raw) => file(alloc, raw),
        RawLine::Edge(raw) => edge(alloc, raw),
        RawLine::Table => Ok(Some(Line::Table)),
        RawLine::Opens(text) => match named(alloc, text)? {
            None => Ok(None),
            Some(name) => Ok(Some(Line::Opens(name))),
        },
        RawLine::Bare(text) => match named(alloc, text)? {
            None => Ok(None),
            Some(name) => Ok(Some(Line::Bare(name))),
        },
    }
}

/// The line that stands there.
#[tactic(auto, unfolding(crate::specs::LineReading::line_of))]
pub fn line(alloc: Global, bytes: &[u8]) -> Result<Option<Line>, AllocError>
    ensures { IfOk result (λ found. found ≡ line_of bytes.now) }
{
    match any(alloc, bytes)? {
        None => Ok(None),
        Some(raw) => values(alloc, &raw),
    }
}
