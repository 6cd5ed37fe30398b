//! Values of some shape in a document.

ghost use Rattle.std.specs.Prelude.{◌≡◌, IfOk, option_map};
ghost use Rattle.serde_json.specs.View.{view};
ghost use Rattle.ul_index.specs.Answers.{Gives, text_view, value_view, values_view};
ghost use Rattle.ul_index.specs.Documents as Documents;
ghost use Rattle.ul_index.specs.Json.{json_of};
ghost use Rattle.ul_index.specs.Results.{or_fault};

use crate::{IndexFault, Place};
use serde_json::Value;
use std::alloc::Global;

// The value that the bytes are.
#[tactic(auto, using(crate::proofs::JsonReading::json_of_ok, crate::proofs::JsonReading::json_of_none))]
pub(crate) fn json(alloc: Global, bytes: &[u8]) -> Result<Value, IndexFault>
    ensures { Gives view result (or_fault Documents.not_json (json_of bytes.now)) }
{
    match Value::from_slice(alloc, bytes) {
        Ok(value) => Ok(value),
        Err(error) => {
            if error.is_memory() {
                Err(IndexFault::NoMemory)
            } else {
                Err(IndexFault::NotJson)
            }
        }
    }
}

// An object.
pub(crate) fn object_at(place: Place, value: &Value) -> Result<(), IndexFault>
    ensures { Gives (λ _. tt) result (Documents.object_at place (view value.now)) }
{
    match value {
        Value::Object(_) => Ok(()),
        _ => Err(IndexFault::Shape(place)),
    }
}

// A text.
pub(crate) fn text_at<'a>(place: Place, value: Option<&'a Value>) -> Result<&'a str, IndexFault>
    ensures { Gives (λ s. s.now) result (Documents.text_at place (value_view value.entry)) }
{
    match value {
        Some(Value::String(text)) => Ok(text.as_str()),
        _ => Err(IndexFault::Shape(place)),
    }
}

// An array.
pub(crate) fn items_at<'a>(
    place: Place,
    value: Option<&'a Value>,
) -> Result<&'a [Value], IndexFault>
    ensures { Gives values_view result (Documents.items_at place (value_view value.entry)) }
{
    match value {
        Some(Value::Array(items)) => Ok(items.as_slice()),
        _ => Err(IndexFault::Shape(place)),
    }
}

// A text, or nothing, or null.
pub(crate) fn optional_text_at<'a>(
    place: Place,
    value: Option<&'a Value>,
) -> Result<Option<&'a str>, IndexFault>
    ensures { Gives text_view result (Documents.optional_text_at place (value_view value.entry)) }
{
    match value {
        None => Ok(None),
        Some(Value::Null) => Ok(None),
        Some(Value::String(text)) => Ok(Some(text.as_str())),
        _ => Err(IndexFault::Shape(place)),
    }
}

// An array, or nothing, or null, which are as the empty one.
pub(crate) fn optional_items_at<'a>(
    place: Place,
    value: Option<&'a Value>,
) -> Result<&'a [Value], IndexFault>
    ensures { Gives values_view result (Documents.optional_items_at place (value_view value.entry)) }
{
    match value {
        None => Ok(&[]),
        Some(Value::Null) => Ok(&[]),
        Some(Value::Array(items)) => Ok(items.as_slice()),
        _ => Err(IndexFault::Shape(place)),
    }
}

// Whether a release was withdrawn: true or any text.
pub(crate) fn yanked_at(place: Place, value: Option<&Value>) -> Result<bool, IndexFault>
    ensures { Gives (λ b. b) result (Documents.yanked_at place (value_view value.entry)) }
{
    match value {
        None => Ok(false),
        Some(Value::Null) => Ok(false),
        Some(Value::Bool(yanked)) => Ok(*yanked),
        Some(Value::String(_)) => Ok(true),
        _ => Err(IndexFault::Shape(place)),
    }
}
