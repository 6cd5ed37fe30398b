//! The name, the version and the interpreters of a project.

ghost use Rattle.std.specs.Prelude.{◌≡◌};
ghost use Rattle.std.specs.List.{list_all, list_any};
ghost use Rattle.toml.specs.View.{items_view, table_view, view};
ghost use Rattle.ul_project.specs.Answers.{Gives, value_view};
ghost use Rattle.ul_project.specs.Head as spec;
ghost use Rattle.ul_project.specs.Toml.{items_list};

use crate::kept::read_beside;
use crate::path::ArrayPlace;
use crate::shapes::{at_key, optional_items_at, text_at, text_or, value_at};
use crate::{ProjectFault, ProjectKey};
use std::alloc::Global;
use std::marker::Model;
use toml::{Table, Value};
use ul_base::{Name, NameFault};
use ul_specifier::{SpecFault, Specifiers};
use ul_version::{Version, VersionFault};

// The name, the version and the interpreters of a project.
#[derive(Drop)]
pub(crate) struct Head {
    pub(crate) name: Name,
    pub(crate) version: Version,
    pub(crate) python: Specifiers,
}

impl Model for Head {
    ghost use Rattle.ul_project.specs.Head.{HeadFields};

    ghost Value = { HeadFields };

    ghost view = { λ h. record { name = h.name; version = h.version; python = h.python } };
}

// The name of a project.
#[tactic(auto, unfolding(crate::specs::Head::name_at))]
fn name_at(alloc: Global, value: Option<&Value>) -> Result<Name, ProjectFault>
    ensures { Gives (λ n. n) result (spec.name_at (value_view value.entry)) }
{
    let text = text_at(ProjectKey::Name, value)?;
    match Name::read(alloc, text) {
        Ok(name) => Ok(name),
        Err(NameFault::NoReading) => Err(ProjectFault::Shape(at_key(ProjectKey::Name))),
        Err(NameFault::NoMemory) => Err(ProjectFault::NoMemory),
    }
}

// The version of a project.
#[tactic(auto, unfolding(crate::specs::Head::version_at))]
fn version_at(alloc: Global, value: Option<&Value>) -> Result<Version, ProjectFault>
    ensures { Gives (λ v. v) result (spec.version_at (value_view value.entry)) }
{
    let text = text_or("0", ProjectKey::Version, value)?;
    match Version::read(alloc, text) {
        Ok(version) => Ok(version),
        Err(VersionFault::NoReading) => Err(ProjectFault::Shape(at_key(ProjectKey::Version))),
        Err(VersionFault::NoMemory) => Err(ProjectFault::NoMemory),
    }
}

// Whether a field's value would have to be found by a build, though it is needed here.
fn is_needed_field(field: &str) -> bool
    ensures { result ≡ spec.is_needed_field field.now }
{
    field == "dependencies" || field == "optional-dependencies" || field == "requires-python"
}

// Whether a value is a text.
fn is_text(value: &Value) -> bool
    ensures { result ≡ spec.is_text (view value.now) }
{
    matches!(value, Value::String(_))
}

// Whether a value is a needed field.
fn names_needed(value: &Value) -> bool
    ensures { result ≡ spec.names_needed (view value.now) }
{
    match value {
        Value::String(field) => is_needed_field(field.as_str()),
        _ => false,
    }
}

// Whether all values are texts.
fn are_texts(items: &[Value]) -> bool
    ensures { result ≡ list_all spec.is_text (items_list (items_view items.now)) }
{
    for item in items {
        if !is_text(item) {
            return false;
        }
    }
    true
}

// Whether some value is a needed field.
fn some_needed(items: &[Value]) -> bool
    ensures { result ≡ list_any spec.names_needed (items_list (items_view items.now)) }
{
    for item in items {
        if names_needed(item) {
            return true;
        }
    }
    false
}

// None of the needed fields is left to a build.
#[tactic(auto, unfolding(crate::specs::Head::dynamic_at))]
fn dynamic_at(alloc: Global, value: Option<&Value>) -> Result<(), ProjectFault>
    ensures { Gives (λ _. tt) result (spec.dynamic_at (value_view value.entry)) }
{
    let items = optional_items_at(alloc, ArrayPlace::Key(ProjectKey::Dynamic), value)?;
    if !are_texts(items) {
        return Err(ProjectFault::Shape(at_key(ProjectKey::Dynamic)));
    }
    if some_needed(items) {
        return Err(ProjectFault::Unsupported(at_key(ProjectKey::Dynamic)));
    }
    Ok(())
}

// The interpreters of a project.
#[tactic(auto, unfolding(crate::specs::Head::python_at))]
fn python_at(alloc: Global, value: Option<&Value>) -> Result<Specifiers, ProjectFault>
    ensures { Gives (λ s. s) result (spec.python_at (value_view value.entry)) }
{
    let text = text_or("", ProjectKey::RequiresPython, value)?;
    match Specifiers::read(alloc, text) {
        Ok(specifiers) => Ok(specifiers),
        Err(SpecFault::NoReading) => Err(ProjectFault::Shape(at_key(ProjectKey::RequiresPython))),
        Err(SpecFault::NoMemory) => Err(ProjectFault::NoMemory),
    }
}

// The interpreters that `project` asks for, where no needed field is left to a build.
fn python_in(alloc: Global, project: &Table) -> Result<Specifiers, ProjectFault>
    ensures { Gives (λ s. s) result (spec.python_in (table_view project.now)) }
{
    dynamic_at(alloc, value_at(project, "dynamic"))?;
    python_at(alloc, value_at(project, "requires-python"))
}

// What `project` says of them, in the order of the checks.
#[tactic(auto, unfolding(crate::specs::Head::head_in))]
pub(crate) fn head_in(alloc: Global, project: &Table) -> Result<Head, ProjectFault>
    ensures { Gives (λ h. h) result (spec.head_in (table_view project.now)) }
{
    let name = name_at(alloc, value_at(project, "name"))?;
    let version = version_at(alloc, value_at(project, "version"));
    let (name, version) = read_beside(name, version)?;
    let python = python_in(alloc, project);
    let (kept, python) = read_beside((name, version), python)?;
    let (name, version) = kept;
    Ok(Head {
        name,
        version,
        python,
    })
}
