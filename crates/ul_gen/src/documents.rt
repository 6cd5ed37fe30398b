//! The index documents.

ghost use Rattle.std.specs.Prelude.{◌≡◌, ◌++◌, ◌<◌, ◌≤◌, ◌+◌, IfOk, OnOk, string_bytes};
ghost use Rattle.ul_gen.specs.Texts.{document_text, entries_text, entry_text, need_text, needs_at, needs_text, wants};

use crate::numbers::drawn;
use crate::texts::{put_name, put_number};
use std::alloc::{AllocError, Global};

/// The index document of package `number` of `size` packages: one line of JSON without spaces.
///
/// It has the releases 1 to 4, each with at most two requirements. `size` is 1 to 2,000, and `number` is below it.
#[tactic(auto, unfolding(crate::specs::Texts::document_text))]
pub fn document_of(alloc: Global, seed: u64, size: u64, number: u64) -> Result<Vec<u8>, AllocError>
    requires most { size ≤ 2000 }
    requires below { number < size }
    ensures text { IfOk result (λ v. v.items ≡ document_text seed size number) }
{
    let mut text = String::new(alloc);
    text.push_str("{\"name\":\"")?;
    put_name(&mut text, number)?;
    text.push_str("\",\"versions\":[")?;
    put_entries(&mut text, seed, size, number)?;
    text.push_str("]}")?;
    Ok(text.into_bytes())
}

fn put_entries(text: &mut String, seed: u64, size: u64, k: u64) -> Result<(), AllocError>
    requires { k < 2000 }
    ensures { OnOk result (string_bytes text.new ≡ string_bytes text.old ++ entries_text seed size k) }
{
    put_entry(text, seed, size, k, 1)?;
    text.push_str(",")?;
    put_entry(text, seed, size, k, 2)?;
    text.push_str(",")?;
    put_entry(text, seed, size, k, 3)?;
    text.push_str(",")?;
    put_entry(text, seed, size, k, 4)?;
    Ok(())
}

fn put_entry(
    text: &mut String,
    seed: u64,
    size: u64,
    k: u64,
    version: u64,
) -> Result<(), AllocError>
    requires package { k < 2000 }
    requires version { version ≤ 4 }
    ensures { OnOk result (string_bytes text.new ≡ string_bytes text.old ++ entry_text seed size k version) }
{
    text.push_str("{\"version\":\"")?;
    put_number(text, version)?;
    text.push_str("\",\"requires_dist\":[")?;
    put_needs(text, seed, size, k, version)?;
    text.push_str("]}")?;
    Ok(())
}

fn put_needs(
    text: &mut String,
    seed: u64,
    size: u64,
    k: u64,
    version: u64,
) -> Result<(), AllocError>
    requires package { k < 2000 }
    requires version { version ≤ 4 }
    ensures { OnOk result (string_bytes text.new ≡ string_bytes text.old ++ needs_text seed size k version) }
{
    match (
        need_at(seed, size, k, version, 0),
        need_at(seed, size, k, version, 1),
    ) {
        (None, None) => Ok(()),
        (Some(first), None) => {
            put_need(text, first)?;
            Ok(())
        }
        (None, Some(second)) => {
            put_need(text, second)?;
            Ok(())
        }
        (Some(first), Some(second)) => {
            put_need(text, first)?;
            text.push_str(",")?;
            put_need(text, second)?;
            Ok(())
        }
    }
}

/// What a requirement asks for.
#[derive(Clone, Copy)]
struct Need {
    target: u64,
    least: u64,
}

#[tactic(auto, unfolding(crate::specs::Texts::needs_at))]
fn need_at(seed: u64, size: u64, k: u64, version: u64, place: u64) -> Option<Need>
    requires package { k < 2000 }
    requires version { version ≤ 4 }
    requires place { place ≤ 1 }
    ensures { wants result ≡ needs_at seed size k version place }
{
    let number = drawn(seed, k, 4 * place + version);
    let target = k + 1 + number % 16;
    if target < size {
        Some(Need {
            target,
            least: 1 + number / 16 % 2,
        })
    } else {
        None
    }
}

fn put_need(text: &mut String, need: Need) -> Result<(), AllocError>
    ensures { OnOk result (string_bytes text.new ≡ string_bytes text.old ++ need_text need.target need.least) }
{
    text.push_str("\"")?;
    put_name(text, need.target)?;
    text.push_str(">=")?;
    put_number(text, need.least)?;
    text.push_str("\"")?;
    Ok(())
}
