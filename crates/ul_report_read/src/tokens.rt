//! Names, versions, sets and numbers in a line.
ghost use Rattle.std.specs.Prelude.{◌≡◌, ◌+◌, ◌<◌, IfOk, drop, length, option_map, true};
ghost use Rattle.std.specs.Char.{is_ascii_digit};
ghost use Rattle.std.specs.List.{list_all};
ghost use Rattle.ul_report_read.specs.Tokens as spec;
ghost use Rattle.ul_report_read.specs.Tokens.{is_decimal, node_at, number_at, placed_in, rises_from, set_at, versions_at};

use std::alloc::{AllocError, Global};
use ul_base::Node;
use ul_lines::{before_end, divided, stripped};
use ul_lock_lines::{name, text_of_ascii, version};
use ul_report::Versions;
use ul_version::Version;
use ul_version::ascii::{Only, piece_len};

// ---- names

fn base(alloc: Global, bytes: &[u8]) -> Result<Option<Node>, AllocError>
    ensures { IfOk result (λ found. found ≡ spec.base_at bytes.now) }
{
    match name(alloc, bytes)? {
        None => Ok(None),
        Some(name) => Ok(Some(Node { name, extra: None })),
    }
}

fn extra(alloc: Global, front: &[u8], back: &[u8]) -> Result<Option<Node>, AllocError>
    ensures { IfOk result (λ found. found ≡ spec.extra_at front.now back.now) }
{
    match before_end(back, b"]") {
        None => Ok(None),
        Some(inner) => match name(alloc, front)? {
            None => Ok(None),
            Some(owner) => match name(alloc, inner)? {
                None => Ok(None),
                Some(extra) => Ok(Some(Node {
                    name: owner,
                    extra: Some(extra),
                })),
            },
        },
    }
}

/// A node: `name` or `name[extra]`, both in their normal form.
#[tactic(auto, unfolding(crate::specs::Tokens::node_at))]
pub fn node(alloc: Global, bytes: &[u8]) -> Result<Option<Node>, AllocError>
    ensures { IfOk result (λ found. found ≡ node_at bytes.now) }
{
    match divided(bytes, b'[') {
        None => base(alloc, bytes),
        Some((front, back)) => extra(alloc, front, back),
    }
}

// ---- versions

/// What stands behind a place.
pub fn after(bytes: &[u8], place: usize) -> &[u8]
    requires { place < length bytes.now }
    ensures { result.now ≡ drop (place + 1) bytes.now }
{
    &bytes[place + 1..]
}

// Versions that are joined by commas, one at least.
fn joined_versions(alloc: Global, bytes: &[u8]) -> Result<Option<Vec<Version>>, AllocError>
    ensures { IfOk result (λ o. option_map (λ v. v.items) o ≡ spec.joined_at bytes.now) }
{
    let comma = Only { byte: b',' };
    let mut versions = Vec::new(alloc);
    let mut rest = bytes;
    // Each turn takes a byte at least.
    for turn in 0..bytes.len() + 1 {
        let count = piece_len(&comma, rest);
        match version(alloc, &rest[..count])? {
            None => return Ok(None),
            Some(version) => versions.push(version)?,
        }
        if count >= rest.len() {
            return Ok(Some(versions));
        }
        rest = after(rest, count);
    }
    unreachable!()
}

// Whether the versions increase, from this one on.
fn increase_from(first: &Version, rest: &[Version]) -> bool
    ensures { result ≡ rises_from spec.version_less first.now rest.now }
{
    let mut last = first;
    for version in rest {
        if !last.cmp(version).is_lt() {
            return false;
        }
        last = version;
    }
    true
}

fn increase(versions: &[Version]) -> bool
    ensures { result ≡ spec.rises spec.version_less versions.now }
{
    match versions {
        [] => true,
        [first, rest @ ..] => increase_from(first, rest),
    }
}

fn versions(alloc: Global, bytes: &[u8]) -> Result<Option<Vec<Version>>, AllocError>
    ensures { IfOk result (λ o. option_map (λ v. v.items) o ≡ versions_at bytes.now) }
{
    if bytes.is_empty() {
        Ok(Some(Vec::new(alloc)))
    } else {
        joined_versions(alloc, bytes)
    }
}

// What stands between the braces of a set: versions that increase, joined by commas.
#[tactic(auto, unfolding(crate::specs::Tokens::set_at))]
fn set(alloc: Global, bytes: &[u8]) -> Result<Option<Versions>, AllocError>
    ensures { IfOk result (λ o. o ≡ set_at bytes.now) }
{
    match versions(alloc, bytes)? {
        None => Ok(None),
        Some(versions) => {
            if increase(versions.as_slice()) {
                Ok(Some(Versions::of(versions)))
            } else {
                Ok(None)
            }
        }
    }
}

// ---- a node and a set

fn placed_at(
    alloc: Global,
    front: &[u8],
    back: &[u8],
) -> Result<Option<(Node, Versions)>, AllocError>
    ensures { IfOk result (λ o. o ≡ spec.placed_at front.now back.now) }
{
    match stripped(back, b"{") {
        None => Ok(None),
        Some(inner) => match node(alloc, front)? {
            None => Ok(None),
            Some(node) => match set(alloc, inner)? {
                None => Ok(None),
                Some(set) => Ok(Some((node, set))),
            },
        },
    }
}

/// A node and a set, up to the set's closing brace.
#[tactic(auto, unfolding(crate::specs::Tokens::placed_in))]
pub fn placed(alloc: Global, bytes: &[u8]) -> Result<Option<(Node, Versions)>, AllocError>
    ensures { IfOk result (λ o. o ≡ placed_in bytes.now) }
{
    match divided(bytes, b' ') {
        None => Ok(None),
        Some((front, back)) => placed_at(alloc, front, back),
    }
}

// ---- numbers

fn are_digits(bytes: &[u8]) -> bool
    ensures { result ≡ list_all is_ascii_digit bytes.now }
{
    for byte in bytes {
        if !byte.is_ascii_digit() {
            return false;
        }
    }
    true
}

fn leads_well(bytes: &[u8]) -> bool
    ensures { result ≡ spec.leads_well bytes.now }
{
    match bytes {
        [] => false,
        [_] => true,
        [first, ..] => *first != b'0',
    }
}

// The number of digits, if it is below 2^64.
fn value(bytes: &[u8]) -> Option<u64>
    requires { is_decimal bytes.now ≡ true }
    ensures { result ≡ spec.value_at bytes.now }
{
    let text = text_of_ascii(bytes);
    match text.parse::<u64>() {
        Ok(number) => Some(number),
        Err(_) => None,
    }
}

/// A number below 2^64 in decimal, without a leading zero.
#[tactic(auto, unfolding(crate::specs::Tokens::number_at))]
pub fn number(bytes: &[u8]) -> Option<u64>
    ensures { result ≡ number_at bytes.now }
{
    if are_digits(bytes) {
        if leads_well(bytes) {
            return value(bytes);
        }
    }
    None
}
