//! The requirements of entries. Most entries of a document have the same as the entry before.

ghost use Rattle.std.specs.Prelude.{◌≡◌, IfOk, IsTrue};
ghost use Rattle.serde_json.specs.View.{view};
ghost use Rattle.ul_index.specs.Answers.{required_by, requirements_view};
ghost use Rattle.ul_index.specs.Documents.{requirement_in};

use serde_json::Value;
use std::alloc::{AllocError, Global};
use std::marker::Model;
use ul_base::owned::{beside, refused, with_one};
use ul_ranges::SharedList;
use ul_requirement::{ReqFault, Requirement};

/// The texts of requirements that were read last and all had readings, with the requirements that they gave.
///
/// Contracts see it as these requirements.
#[derive(Drop)]
pub(crate) struct LastRead<'a> {
    texts: &'a [Value],
    list: SharedList<Requirement>,
}

impl<'a> Model for LastRead<'a> {
    ghost use Rattle.std.specs.Coded.{codes};
    ghost use Rattle.std.specs.Prelude.{List, Some, ◌≡◌};
    ghost use Rattle.ul_comparison.specs.Codes.{formula_code};
    ghost use Rattle.ul_requirement.specs.Fields.{RequirementFields};
    ghost use Rattle.ul_index.specs.Answers.{required_by};

    ghost Value = { List RequirementFields };

    ghost coded = { Prim.hlevel (codes, formula_code) };

    ghost view = { λ r. r.list };

    ghost invariant = { λ r. required_by r.texts.now ≡ Some r.list };
}

// The requirement of a value that is a text, where it has a reading.
fn requirement(alloc: Global, value: &Value) -> Result<Option<Requirement>, AllocError>
    ensures { IfOk result (λ q. requirement_in (view value.now) ≡ q) }
{
    let Some(text) = value.as_str() else {
        return Ok(None);
    };
    match Requirement::read(alloc, text) {
        Ok(requirement) => Ok(Some(requirement)),
        Err(ReqFault::Url) => Ok(None),
        Err(ReqFault::NoReading) => Ok(None),
        Err(ReqFault::NoMemory) => Err(AllocError),
    }
}

// The requirements of values, where each is a text with a reading.
fn requirements(alloc: Global, items: &[Value]) -> Result<Option<Vec<Requirement>>, AllocError>
    ensures { IfOk result (λ o. required_by items.now ≡ requirements_view o) }
{
    let mut list = Vec::with_capacity(alloc, items.len())?;
    for item in items {
        let (kept, found) = beside(list, requirement(alloc, item))?;
        let Some(requirement) = found else {
            return Ok(refused(kept));
        };
        list = with_one(kept, requirement)?;
    }
    Ok(Some(list))
}

// Whether two values are one text.
fn same_text(one: &Value, other: &Value) -> bool
    ensures { IsTrue result → requirement_in (view one.now) ≡ requirement_in (view other.now) }
{
    match (one.as_str(), other.as_str()) {
        (Some(one), Some(other)) => one == other,
        _ => false,
    }
}

// Whether values are the same texts in the same order.
fn same_texts(some: &[Value], others: &[Value]) -> bool
    ensures { IsTrue result → required_by some.now ≡ required_by others.now }
{
    if some.len() != others.len() {
        return false;
    }
    for k in 0..some.len() {
        if !same_text(&some[k], &others[k]) {
            return false;
        }
    }
    true
}

impl<'a> LastRead<'a> {
    /// No texts.
    pub(crate) fn new(alloc: Global) -> Result<LastRead<'a>, AllocError> {
        let list = SharedList::of(alloc, Vec::new(alloc))?;
        Ok(LastRead { texts: &[], list })
    }

    // The requirements of texts, which are those that were read last from here on, where each has a reading.
    fn read(
        &mut self,
        alloc: Global,
        texts: &'a [Value],
    ) -> Result<Option<SharedList<Requirement>>, AllocError>
        ensures { IfOk result (λ o. required_by texts.now ≡ o) }
    {
        let Some(list) = requirements(alloc, texts)? else {
            return Ok(None);
        };
        let list = SharedList::of(alloc, list)?;
        let shared = list.copy();
        let (list, shared) = beside(list, shared)?;
        *self = LastRead { texts, list };
        Ok(Some(shared))
    }

    /// The requirements of texts, where each has a reading: the list of those that were read last, where these are the
    /// same.
    pub(crate) fn requirements(
        &mut self,
        alloc: Global,
        texts: &'a [Value],
    ) -> Result<Option<SharedList<Requirement>>, AllocError>
        ensures { IfOk result (λ o. required_by texts.now ≡ o) }
    {
        if same_texts(texts, self.texts) {
            let shared = self.list.copy()?;
            return Ok(Some(shared));
        }
        self.read(alloc, texts)
    }
}
