//! Reading index documents.

ghost use Rattle.std.specs.Prelude.{◌≡◌, ◌++◌, [], IfOk, OnOk, length};
ghost use Rattle.serde_json.specs.View.{items_view, view};
ghost use Rattle.ul_base.specs.Names.{name_of};
ghost use Rattle.ul_requirement.specs.Fields.{VersionsDiffer};
ghost use Rattle.ul_index.specs.Answers.{Gives, releases_view};
ghost use Rattle.ul_index.specs.Documents as Documents;
ghost use Rattle.ul_index.specs.Json.{items_list};
ghost use Rattle.ul_index.specs.Seen.{Follows, Tells};
ghost use Rattle.ul_index.specs.Usable.{before, release_of_entry};

use crate::entries::{Entry, entry_at};
use crate::required::LastRead;
use crate::seen::Seen;
use crate::shapes::{items_at, json, object_at, text_at};
use crate::{IndexFault, Place};
use serde_json::Value;
use std::alloc::{AllocError, Global};
use ul_base::owned::{beside, refused};
use ul_base::{Name, NameFault};
use ul_requirement::{Package, Prereleases, Release};
use ul_version::Version;

// A text that is the name.
fn right_name(alloc: Global, name: &Name, title: &str) -> Result<(), IndexFault>
    ensures { Gives (λ _. tt) result (Documents.right_name name.now (name_of title.now)) }
{
    match Name::read(alloc, title) {
        Ok(found) => {
            if found.text() == name.text() {
                Ok(())
            } else {
                Err(IndexFault::WrongName)
            }
        }
        Err(NameFault::NoReading) => Err(IndexFault::WrongName),
        Err(NameFault::NoMemory) => Err(IndexFault::NoMemory),
    }
}

// The release of an entry, where all its texts have readings.
#[tactic(auto, unfolding(crate::specs::Usable::release_of_entry))]
fn release(entry: Entry) -> Option<Release>
    ensures { result ≡ release_of_entry entry }
{
    let Entry {
        version,
        python,
        requirements,
        yanked,
        files,
        source,
    } = entry;
    let Some(version) = version else {
        return refused((python, requirements, files, source));
    };
    let Some(python) = python else {
        return refused((version, requirements, files, source));
    };
    let Some(requirements) = requirements else {
        return refused((version, python, files, source));
    };
    Some(Release {
        version,
        python,
        requirements,
        yanked,
        files,
        source,
    })
}

// Whether a version is new behind those that were met.
fn is_new_version(
    alloc: Global,
    seen: &mut Seen,
    version: &Option<Version>,
) -> Result<bool, AllocError>
    ensures { IfOk result (Tells seen.old seen.new version.now) }
{
    match version {
        Some(version) => seen.add(alloc, version),
        None => Ok(false),
    }
}

// Whether an entry's version is new behind those that were met.
fn is_new(alloc: Global, seen: &mut Seen, entry: &Entry) -> Result<bool, AllocError>
    ensures { IfOk result (Tells seen.old seen.new entry.now.version) }
{
    let version: &Option<Version> = &entry.version;
    is_new_version(alloc, seen, version)
}

// The release of an entry behind those that were met.
fn next_release(alloc: Global, seen: &mut Seen, entry: Entry) -> Result<Option<Release>, AllocError>
    ensures { IfOk result (Follows seen.old seen.new entry) }
{
    let new = is_new(alloc, seen, &entry);
    let (entry, new) = beside(entry, new)?;
    if new {
        Ok(release(entry))
    } else {
        Ok(refused(entry))
    }
}

// Adds a release, if there is one.
fn add(list: &mut Vec<Release>, release: Option<Release>) -> Result<(), AllocError>
    ensures { OnOk result (list.new.items ≡ list.old.items ++ before release []) }
{
    if let Some(release) = release {
        list.push(release)?;
    }
    Ok(())
}

// The usable releases of the entries of a document.
fn releases(alloc: Global, items: &[Value]) -> Result<Vec<Release>, IndexFault>
    ensures releases { Gives releases_view result (Documents.releases_of_items (items_list (items_view items.now))) }
    ensures differ { IfOk result (λ v. VersionsDiffer v.items) }
{
    let mut last = LastRead::new(alloc)?;
    let mut seen = Seen::new(alloc);
    let mut list = Vec::new(alloc);
    let mut number: u64 = 0;
    for item in items {
        let entry = entry_at(alloc, &mut last, number, item)?;
        let release = next_release(alloc, &mut seen, entry)?;
        add(&mut list, release)?;
        number += 1;
    }
    Ok(list)
}

// The package that a value says of a name.
#[tactic(auto, unfolding(crate::specs::Documents::package_in))]
fn package_in(alloc: Global, name: &Name, document: &Value) -> Result<Package, IndexFault>
    ensures { Gives (λ p. p) result (Documents.package_in name.now (view document.now)) }
{
    object_at(Place::Document, document)?;
    let title = text_at(Place::Name, document.get("name"))?;
    let items = items_at(Place::Versions, document.get("versions"))?;
    right_name(alloc, name, title)?;
    let releases = releases(alloc, items)?;
    let (releases, name) = beside(releases, name.copy(alloc))?;
    Ok(Package {
        name,
        entries: items.len() as u64,
        prereleases: Prereleases::IfNecessaryOrExplicit,
        releases,
    })
}

/// The package that an index document says of a name, with its usable releases.
///
/// The document is an object whose `name` is this name and whose `versions` is an array of objects. An entry has a
/// `version`, and may have `requires_python`, `requires_dist` and `yanked`, as a release has them in the core metadata
/// and by PEP 592, `files` with their `sha256`, and `source`, where the release comes from: a text that is a name;
/// anything else is as nothing. Other keys are passed over. An entry is a usable release where its version, its Python
/// bound and its requirements have readings, none of its requirements is one by a URL, and no earlier entry whose
/// version has a reading has an equal version. An entry that isn't usable never refuses the document. A document says
/// nothing of pre-releases, so they count as is usual, until a catalog is given another mode.
///
/// `NotJson` comes exactly where `serde_json` doesn't read the bytes. `Shape` names the first place of another shape:
/// the document, `name` and `versions` first, then, after `WrongName`, each entry with its keys in the order above,
/// its files, and last two files of one name. `WrongName` comes where `name` is another name, or none.
#[tactic(auto, unfolding(crate::specs::Documents::document_of))]
pub fn document(alloc: Global, bytes: &[u8], name: &Name) -> Result<Package, IndexFault>
    ensures { Gives (λ p. p) result (Documents.document_of name.now bytes.now) }
{
    let value = json(alloc, bytes)?;
    let package = package_in(alloc, name, &value);
    drop(value);
    package
}
