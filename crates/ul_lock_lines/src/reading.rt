//! Reading a line.

ghost use Rattle.std.specs.Prelude.{◌≡◌, IfOk, option_map};
ghost use Rattle.ul_lock_lines.specs.LineReading.{fixed_of, item_of, edge_of, file_of, file_line_of, marker_end, value_of, pair_of, keyed_of, candidate, after_name, after_version};

use crate::lines::{Edition, RawEdge, RawFile, RawLine, Text};
use std::alloc::{AllocError, Global};
use ul_base::owned::refused;
use ul_lines::{divided, enclosed_text, inside_text, optional_text, same, stripped};

fn fixed(bytes: &[u8]) -> Option<RawLine>
    ensures { result ≡ fixed_of bytes.now }
{
    if same(bytes, b"\n") {
        Some(RawLine::Gap)
    } else if same(bytes, b"]\n") {
        Some(RawLine::Close)
    } else if same(bytes, b"[[package]]\n") {
        Some(RawLine::Entry)
    } else if same(bytes, b"[package.optional-dependencies]\n") {
        Some(RawLine::Table)
    } else {
        None
    }
}

fn item(alloc: Global, bytes: &[u8]) -> Result<Option<RawLine>, AllocError>
    ensures { IfOk result (λ found. found ≡ item_of bytes.now) }
{
    match inside_text(bytes, b"    \"", b"\",\n") {
        None => Ok(None),
        Some(text) => Ok(Some(RawLine::Item(Text::of(alloc, text)?))),
    }
}

fn text_of(alloc: Global, text: Option<&[u8]>) -> Result<Option<Text>, AllocError>
    ensures { IfOk result (λ found. found ≡ option_map (λ t. t.now) text.entry) }
{
    match text {
        None => Ok(None),
        Some(text) => Ok(Some(Text::of(alloc, text)?)),
    }
}

fn marker_tail(alloc: Global, bytes: &[u8]) -> Result<Option<Option<Text>>, AllocError>
    ensures { IfOk result (λ found. found ≡ marker_end bytes.now) }
{
    if same(bytes, b" },\n") {
        return Ok(Some(None));
    }
    match inside_text(bytes, b", marker = \"", b"\" },\n") {
        None => Ok(None),
        Some(text) => Ok(Some(Some(Text::of(alloc, text)?))),
    }
}

// behind the version
fn edge_rest(
    alloc: Global,
    name: &[u8],
    version: &[u8],
    bytes: &[u8],
) -> Result<Option<RawLine>, AllocError>
    ensures { IfOk result (λ found. found ≡ after_version name.now (version.now, bytes.now)) }
{
    match optional_text(bytes, b", extra = \"", b'"') {
        None => Ok(None),
        Some((extra, rest)) => match marker_tail(alloc, rest)? {
            None => Ok(None),
            Some(marker) => {
                let name = Text::of(alloc, name)?;
                let version = Text::of(alloc, version)?;
                let extra = text_of(alloc, extra)?;
                Ok(Some(RawLine::Edge(RawEdge {
                    name,
                    version,
                    extra,
                    marker,
                })))
            }
        },
    }
}

fn file_rest(alloc: Global, file: &[u8], bytes: &[u8]) -> Result<Option<RawLine>, AllocError>
    ensures { IfOk result (λ found. found ≡ file_of (file.now, bytes.now)) }
{
    match inside_text(bytes, b", hash = \"sha256:", b"\" },\n") {
        None => Ok(None),
        Some(hash) => {
            let file = Text::of(alloc, file)?;
            let hash = Text::of(alloc, hash)?;
            Ok(Some(RawLine::File(RawFile { file, hash })))
        }
    }
}

fn file_line(alloc: Global, bytes: &[u8]) -> Result<Option<RawLine>, AllocError>
    ensures { IfOk result (λ found. found ≡ file_line_of bytes.now) }
{
    match enclosed_text(bytes, b"    { file = \"", b'"') {
        None => Ok(None),
        Some((file, rest)) => file_rest(alloc, file, rest),
    }
}

fn edge(alloc: Global, bytes: &[u8]) -> Result<Option<RawLine>, AllocError>
    ensures { IfOk result (λ found. found ≡ edge_of bytes.now) }
{
    match enclosed_text(bytes, b"    { name = \"", b'"') {
        None => Ok(None),
        Some((name, rest)) => match enclosed_text(rest, b", version = \"", b'"') {
            None => Ok(None),
            Some((version, rest)) => edge_rest(alloc, name, version, rest),
        },
    }
}

fn pair(alloc: Global, key: &[u8], text: &[u8]) -> Result<Option<RawLine>, AllocError>
    ensures { IfOk result (λ found. found ≡ pair_of key.now text.now) }
{
    let text = Text::of(alloc, text)?;
    if same(key, b"root") {
        Ok(Some(RawLine::Root(text)))
    } else if same(key, b"supported-markers") {
        Ok(Some(RawLine::Supported(text)))
    } else if same(key, b"name") {
        Ok(Some(RawLine::Name(text)))
    } else if same(key, b"version") {
        Ok(Some(RawLine::Version(text)))
    } else {
        Ok(refused(text))
    }
}

fn value(alloc: Global, key: &[u8], rest: &[u8]) -> Result<Option<RawLine>, AllocError>
    ensures { IfOk result (λ found. found ≡ value_of key.now rest.now) }
{
    if same(rest, b"[\n") {
        Ok(Some(RawLine::Opens(Text::of(alloc, key)?)))
    } else if same(rest, b"[]\n") {
        Ok(Some(RawLine::Bare(Text::of(alloc, key)?)))
    } else if same(rest, b"1\n") {
        if same(key, b"version") {
            Ok(Some(RawLine::First(Edition::First)))
        } else {
            Ok(None)
        }
    } else if same(rest, b"2\n") {
        if same(key, b"version") {
            Ok(Some(RawLine::First(Edition::Second)))
        } else {
            Ok(None)
        }
    } else {
        match inside_text(rest, b"\"", b"\"\n") {
            None => Ok(None),
            Some(text) => pair(alloc, key, text),
        }
    }
}

fn keyed(alloc: Global, bytes: &[u8]) -> Result<Option<RawLine>, AllocError>
    ensures { IfOk result (λ found. found ≡ keyed_of bytes.now) }
{
    match divided(bytes, b' ') {
        None => Ok(None),
        Some((key, rest)) => match stripped(rest, b"= ") {
            None => Ok(None),
            Some(rest) => value(alloc, key, rest),
        },
    }
}

#[tactic(auto, unfolding(crate::specs::LineReading::candidate))]
pub fn any(alloc: Global, bytes: &[u8]) -> Result<Option<RawLine>, AllocError>
    ensures { IfOk result (λ found. found ≡ candidate bytes.now) }
{
    match fixed(bytes) {
        Some(line) => Ok(Some(line)),
        None => match item(alloc, bytes)? {
            Some(line) => Ok(Some(line)),
            None => match edge(alloc, bytes)? {
                Some(line) => Ok(Some(line)),
                None => match file_line(alloc, bytes)? {
                    Some(line) => Ok(Some(line)),
                    None => keyed(alloc, bytes),
                },
            },
        },
    }
}
