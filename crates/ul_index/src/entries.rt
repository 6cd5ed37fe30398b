//! An entry of a document.

ghost use Rattle.std.specs.Prelude.{◌≡◌, IfOk, is_some};
ghost use Rattle.serde_json.specs.Find.{as_str};
ghost use Rattle.serde_json.specs.View.{items_view, view};
ghost use Rattle.ul_base.specs.Names.{name_of};
ghost use Rattle.ul_version.specs.Reading.{version_of};
ghost use Rattle.ul_requirement.specs.Fields.{FilesRise};
ghost use Rattle.ul_index.specs.Answers.{Gives, entry_with, required_by, requirements_of_values, text_view, value_view};
ghost use Rattle.ul_index.specs.Documents as Documents;
ghost use Rattle.ul_index.specs.Json.{items_list};
ghost use Rattle.ul_index.specs.Results.{read_each};

use crate::files::files_at;
use crate::required::LastRead;
use crate::shapes::{object_at, optional_items_at, optional_text_at, text_at, yanked_at};
use crate::{EntryKey, IndexFault, Place};
use serde_json::Value;
use std::alloc::{AllocError, Global};
use std::marker::Model;
use ul_base::owned::beside;
use ul_base::{Name, NameFault};
use ul_ranges::SharedList;
use ul_requirement::{FileEntry, Requirement};
use ul_specifier::{SpecFault, Specifiers};
use ul_version::{Version, VersionFault};

/// What an entry says: its version, the interpreters that it asks for and its requirements, each where its texts have
/// readings; whether it was withdrawn; its files in the order of their names; and its source, if it names one.
#[derive(Drop)]
pub(crate) struct Entry {
    pub version: Option<Version>,
    pub python: Option<Specifiers>,
    pub requirements: Option<SharedList<Requirement>>,
    pub yanked: bool,
    pub files: Vec<FileEntry>,
    pub source: Option<Name>,
}

impl Model for Entry {
    ghost use Rattle.std.specs.Coded.{codes};
    ghost use Rattle.ul_comparison.specs.Codes.{formula_code};
    ghost use Rattle.ul_index.specs.Usable.{EntryFields, IsEntry};

    ghost Value = { EntryFields };

    ghost coded = { Prim.hlevel (codes, formula_code) };

    ghost view = { λ e. record { version = e.version; python = e.python; requirements = e.requirements; yanked = e.yanked; files = e.files.items; source = e.source } };

    ghost invariant = { λ e. IsEntry (record { version = e.version; python = e.python; requirements = e.requirements; yanked = e.yanked; files = e.files.items; source = e.source }) };
}

// The version of a text, where it has a reading.
fn version(alloc: Global, text: &str) -> Result<Option<Version>, AllocError>
    ensures { IfOk result (λ v. version_of text.now ≡ v) }
{
    match Version::read(alloc, text) {
        Ok(version) => Ok(Some(version)),
        Err(VersionFault::NoReading) => Ok(None),
        Err(VersionFault::NoMemory) => Err(AllocError),
    }
}

// The interpreters that a text asks for, where it has a reading.
fn python(alloc: Global, text: Option<&str>) -> Result<Option<Specifiers>, AllocError>
    ensures { IfOk result (λ s. Documents.python_of (text_view text.entry) ≡ s) }
{
    let Some(text) = text else {
        return Ok(Some(Specifiers {
            clauses: Vec::new(alloc),
        }));
    };
    match Specifiers::read(alloc, text) {
        Ok(specifiers) => Ok(Some(specifiers)),
        Err(SpecFault::NoReading) => Ok(None),
        Err(SpecFault::NoMemory) => Err(AllocError),
    }
}

// Whether each value is a text.
fn are_texts(items: &[Value]) -> bool
    ensures { result ≡ is_some (read_each as_str (items_list (items_view items.now))) }
{
    for item in items {
        if item.as_str().is_none() {
            return false;
        }
    }
    true
}

// An array of texts, or nothing, or null, which are as the empty one.
fn texts_at<'a>(place: Place, value: Option<&'a Value>) -> Result<&'a [Value], IndexFault>
    ensures { Gives requirements_of_values result (Documents.requirements_at place (value_view value.entry)) }
{
    let items = optional_items_at(place, value)?;
    if !are_texts(items) {
        return Err(IndexFault::Shape(place));
    }
    Ok(items)
}

// The name that a text is, if it is one.
fn name(alloc: Global, text: &str) -> Result<Option<Name>, AllocError>
    ensures { IfOk result (λ n. name_of text.now ≡ n) }
{
    match Name::read(alloc, text) {
        Ok(name) => Ok(Some(name)),
        Err(NameFault::NoReading) => Ok(None),
        Err(NameFault::NoMemory) => Err(AllocError),
    }
}

// The source that a value names; none where it is no text, or no name.
fn source_at(alloc: Global, value: Option<&Value>) -> Result<Option<Name>, AllocError>
    ensures { IfOk result (λ s. Documents.source_at (value_view value.entry) ≡ s) }
{
    match value {
        Some(Value::String(text)) => name(alloc, text.as_str()),
        _ => Ok(None),
    }
}

// The entry of texts and files.
fn entry_of<'a>(
    alloc: Global,
    last: &mut LastRead<'a>,
    version_text: &str,
    python_text: Option<&str>,
    requirement_texts: &'a [Value],
    yanked: bool,
    files: Vec<FileEntry>,
    source: Option<&Value>,
) -> Result<Entry, AllocError>
    requires { FilesRise files.items }
    ensures { IfOk result (λ e. e ≡ entry_with (version_of version_text.now)
        (Documents.python_of (text_view python_text.entry))
        (required_by requirement_texts.now) yanked files.items
        (Documents.source_at (value_view source.entry))) }
{
    let (files, version) = beside(files, version(alloc, version_text))?;
    let (kept, python) = beside((files, version), python(alloc, python_text))?;
    let (kept, source) = beside((kept, python), source_at(alloc, source))?;
    let requirements = last.requirements(alloc, requirement_texts);
    let (kept, requirements) = beside((kept, source), requirements)?;
    let (((files, version), python), source) = kept;
    Ok(Entry {
        version,
        python,
        requirements,
        yanked,
        files,
        source,
    })
}

/// What the entry at a place says; its requirements are read only where they aren't those that were read last.
#[tactic(auto, unfolding(crate::specs::Documents::entry_at))]
pub(crate) fn entry_at<'a>(
    alloc: Global,
    last: &mut LastRead<'a>,
    index: u64,
    value: &'a Value,
) -> Result<Entry, IndexFault>
    ensures { Gives (λ e. e) result (Documents.entry_at index (view value.now)) }
{
    object_at(Place::Entry(index), value)?;
    let version_place = Place::Key(index, EntryKey::Version);
    let version = text_at(version_place, value.get("version"))?;
    let python_place = Place::Key(index, EntryKey::RequiresPython);
    let python = optional_text_at(python_place, value.get("requires_python"))?;
    let requirements_place = Place::Key(index, EntryKey::RequiresDist);
    let requirements = texts_at(requirements_place, value.get("requires_dist"))?;
    let yanked = yanked_at(Place::Key(index, EntryKey::Yanked), value.get("yanked"))?;
    let files = files_at(alloc, index, value.get("files"))?;
    let source = value.get("source");
    let entry = entry_of(
        alloc,
        last,
        version,
        python,
        requirements,
        yanked,
        files,
        source,
    )?;
    Ok(entry)
}
