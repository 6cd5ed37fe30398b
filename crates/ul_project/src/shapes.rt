//! Values of some shape in a project file.

ghost use Rattle.std.specs.Prelude.{◌≡◌, option_map};
ghost use Rattle.toml.specs.Data.{get_member};
ghost use Rattle.toml.specs.View.{table_view, view};
ghost use Rattle.ul_project.specs.Answers.{Gives, members_view, place_of, value_view, values_view};
ghost use Rattle.ul_project.specs.Results.{or_fault};
ghost use Rattle.ul_project.specs.Shapes as Shapes;
ghost use Rattle.ul_project.specs.Toml.{toml_of};
ghost use Rattle.ul_project.specs.Toml as Toml;

use crate::path::ArrayPlace;
use crate::{Place, ProjectFault, ProjectKey, ProjectPath};
use std::alloc::Global;
use toml::{Table, Value};

// The path of a key.
pub(crate) fn at_key(key: ProjectKey) -> ProjectPath
    ensures { result ≡ Shapes.at_key key }
{
    ProjectPath::Whole(Place::Key(key))
}

// The document that the bytes are.
#[tactic(auto, using(crate::proofs::TomlReading::toml_of_ok, crate::proofs::TomlReading::toml_of_none))]
pub(crate) fn document(alloc: Global, bytes: &[u8]) -> Result<Table, ProjectFault>
    ensures { Gives table_view result (or_fault Shapes.not_toml (toml_of bytes.now)) }
{
    match toml::table_from_slice(alloc, bytes) {
        Ok(table) => Ok(table),
        Err(error) => {
            if error.is_memory() {
                Err(ProjectFault::NoMemory)
            } else {
                Err(ProjectFault::NotToml)
            }
        }
    }
}

// The value at a key of a table.
pub(crate) fn value_at<'a>(table: &'a Table, key: &str) -> Option<&'a Value>
    ensures { value_view result ≡ get_member key.now (table_view table.now) }
{
    table.get(key)
}

// The value at a key of a table that may be absent.
pub(crate) fn value_in<'a>(table: Option<&'a Table>, key: &str) -> Option<&'a Value>
    ensures { value_view result ≡ get_member key.now (members_view table.entry) }
{
    match table {
        Some(table) => value_at(table, key),
        None => None,
    }
}

// A table.
pub(crate) fn table_at<'a>(
    key: ProjectKey,
    value: Option<&'a Value>,
) -> Result<&'a Table, ProjectFault>
    ensures { Gives (λ t. table_view t.now) result (Shapes.table_at (Shapes.at_key key) (value_view value.entry)) }
{
    match value {
        Some(Value::Table(table)) => Ok(table),
        _ => Err(ProjectFault::Shape(at_key(key))),
    }
}

// A table, or nothing.
pub(crate) fn optional_table_at<'a>(
    key: ProjectKey,
    value: Option<&'a Value>,
) -> Result<Option<&'a Table>, ProjectFault>
    ensures { Gives members_view result (Shapes.optional_table_at (Shapes.at_key key) (value_view value.entry)) }
{
    match value {
        None => Ok(None),
        Some(Value::Table(table)) => Ok(Some(table)),
        _ => Err(ProjectFault::Shape(at_key(key))),
    }
}

// A text.
pub(crate) fn text_at<'a>(
    key: ProjectKey,
    value: Option<&'a Value>,
) -> Result<&'a str, ProjectFault>
    ensures { Gives (λ s. s.now) result (Shapes.text_at (Shapes.at_key key) (value_view value.entry)) }
{
    match value {
        Some(Value::String(text)) => Ok(text.as_str()),
        _ => Err(ProjectFault::Shape(at_key(key))),
    }
}

// A text; where there is nothing, another one.
pub(crate) fn text_or<'a>(
    absent: &'a str,
    key: ProjectKey,
    value: Option<&'a Value>,
) -> Result<&'a str, ProjectFault>
    ensures { Gives (λ s. s.now) result (Shapes.text_or absent.now (Shapes.at_key key) (value_view value.entry)) }
{
    match value {
        None => Ok(absent),
        Some(Value::String(text)) => Ok(text.as_str()),
        _ => Err(ProjectFault::Shape(at_key(key))),
    }
}

// A text that is an entry of the array at a place.
pub(crate) fn entry_text<'a>(
    alloc: Global,
    place: ArrayPlace<'_>,
    entry: u64,
    value: &'a Value,
) -> Result<&'a str, ProjectFault>
    ensures { Gives (λ s. s.now) result
        (Shapes.text_at (ProjectPath.Entry (place_of place.entry) entry) (Some (view value.now))) }
{
    match value {
        Value::String(text) => Ok(text.as_str()),
        _ => Err(ProjectFault::Shape(place.entry(alloc, entry)?)),
    }
}

// An array.
pub(crate) fn items_at<'a>(
    alloc: Global,
    place: ArrayPlace<'_>,
    value: Option<&'a Value>,
) -> Result<&'a [Value], ProjectFault>
    ensures { Gives values_view result
        (Shapes.items_at (ProjectPath.Whole (place_of place.entry)) (value_view value.entry)) }
{
    match value {
        Some(Value::Array(items)) => Ok(items.as_slice()),
        _ => Err(ProjectFault::Shape(place.whole(alloc)?)),
    }
}

// An array, or nothing, which is as the empty one.
pub(crate) fn optional_items_at<'a>(
    alloc: Global,
    place: ArrayPlace<'_>,
    value: Option<&'a Value>,
) -> Result<&'a [Value], ProjectFault>
    ensures { Gives values_view result
        (Shapes.optional_items_at (ProjectPath.Whole (place_of place.entry)) (value_view value.entry)) }
{
    match value {
        None => Ok(&[]),
        Some(value) => items_at(alloc, place, Some(value)),
    }
}

// An empty array or an empty table.
fn is_bare(value: &Value) -> bool
    ensures { result ≡ Toml.says_nothing (Some (view value.now)) }
{
    match value {
        Value::Array(items) => items.as_slice().is_empty(),
        Value::Table(table) => table.len() == 0,
        _ => false,
    }
}

// Nothing, an empty array or an empty table.
pub(crate) fn says_nothing(value: Option<&Value>) -> bool
    ensures { result ≡ Toml.says_nothing (value_view value.entry) }
{
    match value {
        None => true,
        Some(value) => is_bare(value),
    }
}
