//! The files of an entry.

ghost use Rattle.std.specs.Prelude.{◌≡◌, ◌||◌, ℕ, List, Bool, false, not, IfOk, IfSome, OnOk, option_map};
ghost use Rattle.std.specs.List.{list_all};
ghost use Rattle.std.specs.Str.{str_to_ascii_lowercase};
ghost use Rattle.serde_json.specs.View.{items_view, view};
ghost use Rattle.ul_requirement.specs.Fields as Fields;
ghost use Rattle.ul_requirement.specs.Fields.{FilesRise};
ghost use Rattle.ul_index.specs.Answers.{Gives, files_view, text_view, value_view, values_view};
ghost use Rattle.ul_index.specs.Documents as Documents;
ghost use Rattle.ul_index.specs.Json.{items_list};
ghost use Rattle.ul_index.specs.Results.{or_fault};

use crate::file_set::FileSet;
use crate::shapes::optional_items_at;
use crate::{EntryKey, IndexFault, Place};
use serde_json::Value;
use std::alloc::{AllocError, Global};
use ul_requirement::FileEntry;

fn is_file_byte(byte: u8) -> bool
    ensures { result ≡ Fields.is_file_byte byte }
{
    33 <= byte && (byte <= 126 && !(byte == b'"' || byte == b'\\'))
}

// Whether each byte may stand in a file's name.
fn are_file_bytes(text: &[u8]) -> bool
    ensures { result ≡ list_all Fields.is_file_byte text.now }
{
    for i in 0..text.len() {
        if !is_file_byte(text[i]) {
            return false;
        }
    }
    true
}

fn is_file_name(text: &str) -> bool
    ensures { result ≡ Fields.is_file_name text.now }
{
    !text.is_empty() && are_file_bytes(text.as_bytes())
}

fn is_hex(byte: u8) -> bool
    ensures { result ≡ Fields.is_hex byte }
{
    byte.is_ascii_digit() || (97 <= byte && byte <= 102)
}

// Whether each byte is a hexadecimal digit in lower case.
fn are_hex(text: &[u8]) -> bool
    ensures { result ≡ list_all Fields.is_hex text.now }
{
    for i in 0..text.len() {
        if !is_hex(text[i]) {
            return false;
        }
    }
    true
}

fn is_digest(text: &str) -> bool
    ensures { result ≡ Fields.is_digest text.now }
{
    text.len() == 64 && are_hex(text.as_bytes())
}

// The file of two texts, the digits of the sum in lower case.
fn file_of_texts(alloc: Global, name: &str, sum: &str) -> Result<Option<FileEntry>, AllocError>
    ensures { IfOk result (λ f. Documents.file_with name.now (str_to_ascii_lowercase sum.now) ≡ f) }
{
    let sum = sum.to_ascii_lowercase(alloc)?;
    if !is_file_name(name) || !is_digest(sum.as_str()) {
        return Ok(None);
    }
    let name = String::from_str(alloc, name)?;
    Ok(Some(FileEntry {
        file: name,
        sha256: sum,
    }))
}

// The text at a key.
fn text_of<'a>(key: &str, value: &'a Value) -> Option<&'a str>
    ensures { text_view result ≡ Documents.text_of key.now (view value.now) }
{
    value.get(key)?.as_str()
}

// The file that a value is.
#[tactic(auto, unfolding(crate::specs::Documents::file_of))]
fn file_of(alloc: Global, value: &Value) -> Result<Option<FileEntry>, AllocError>
    ensures { IfOk result (λ f. Documents.file_of (view value.now) ≡ f) }
{
    let Some(name) = text_of("file", value) else {
        return Ok(None);
    };
    let Some(sum) = text_of("sha256", value) else {
        return Ok(None);
    };
    file_of_texts(alloc, name, sum)
}

// The file at a place.
fn file_at(alloc: Global, place: Place, value: &Value) -> Result<FileEntry, IndexFault>
    ensures { Gives (λ f. f) result (or_fault (Documents.shape place) (Documents.file_of (view value.now))) }
{
    match file_of(alloc, value)? {
        Some(file) => Ok(file),
        None => Err(IndexFault::Shape(place)),
    }
}

// The files of an entry, in the order of the document.
fn files_of(alloc: Global, entry: u64, items: &[Value]) -> Result<Vec<FileEntry>, IndexFault>
    ensures { Gives files_view result (Documents.files_from entry 0 (items_list (items_view items.now))) }
{
    let mut files = Vec::new(alloc);
    let mut number: u64 = 0;
    for item in items {
        let file = file_at(alloc, Place::File(entry, number), item)?;
        files.push(file)?;
        number += 1;
    }
    Ok(files)
}

// Files whose names differ, in the order of their names; none where two have one name.
fn ordered(alloc: Global, files: Vec<FileEntry>) -> Result<Option<Vec<FileEntry>>, AllocError>
    ensures files { IfOk result (λ o. option_map (λ v. v.items) o ≡ Documents.ordered_files files.items) }
    ensures rises { IfOk result (λ o. IfSome o (λ v. FilesRise v.items)) }
{
    let mut set = FileSet::new(alloc);
    for file in files {
        if !set.add(file)? {
            return Ok(None);
        }
    }
    let list = set.into_list(alloc)?;
    Ok(Some(list))
}

// The files at a key of an entry.
#[tactic(auto, unfolding(crate::specs::Documents::files_at))]
pub(crate) fn files_at(
    alloc: Global,
    entry: u64,
    value: Option<&Value>,
) -> Result<Vec<FileEntry>, IndexFault>
    ensures files { Gives files_view result (Documents.files_at entry (value_view value.entry)) }
    ensures rises { IfOk result (λ v. FilesRise v.items) }
{
    let place = Place::Key(entry, EntryKey::Files);
    let items = optional_items_at(place, value)?;
    let files = files_of(alloc, entry, items)?;
    match ordered(alloc, files)? {
        Some(files) => Ok(files),
        None => Err(IndexFault::Shape(place)),
    }
}
