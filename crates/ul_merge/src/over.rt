//! What is made only where all of its markers are printed: none else, and no tree is made of a marker that isn't.
//!
//! Where a part isn't made the others are made all the same, so that it is known what the whole would be.
ghost use Rattle.std.specs.Prelude.{◌≡◌, ◌++◌, IfOk, Ok, Option, Some, option_map};
ghost use Rattle.ul_merge.specs.Made.{at_most_one};
ghost use Rattle.ul_merge.specs.Over.{both_of, items_in, with_list, with_more};

use std::alloc::AllocError;
use ul_base::owned::with_one;

/// Both of two parts.
pub(crate) fn both<T: Drop, S: Drop>(first: Option<T>, second: Option<S>) -> Option<(T, S)>
    ensures { result ≡ both_of first second }
{
    match first {
        None => None,
        Some(first) => match second {
            None => None,
            Some(second) => Some((first, second)),
        },
    }
}

// A row with an item more, if there is one.
fn with_optional<T: Drop>(row: Vec<T>, item: Option<T>) -> Result<Vec<T>, AllocError>
    ensures { IfOk result (λ all. all.items ≡ row.items ++ at_most_one item) }
{
    match item {
        None => Ok(row),
        Some(item) => {
            let row = with_one(row, item)?;
            Ok(row)
        }
    }
}

/// A row with an item more, if there is one, where both were made.
pub(crate) fn with_item<T: Drop>(
    row: Option<Vec<T>>,
    item: Option<Option<T>>,
) -> Result<Option<Vec<T>>, AllocError>
    ensures { IfOk result (λ all. items_in all ≡ with_more (items_in row) item) }
{
    match both(row, item) {
        None => Ok(None),
        Some((row, item)) => {
            let row = with_optional(row, item)?;
            Ok(Some(row))
        }
    }
}

/// An item for a row, if it was made.
pub(crate) fn as_item<T: Drop>(made: Option<T>) -> Option<Option<T>>
    ensures { result ≡ option_map (λ x. Some x) made }
{
    match made {
        None => None,
        Some(item) => Some(Some(item)),
    }
}

/// A row with an item more, where both were made.
pub(crate) fn with_whole<T: Drop>(
    row: Option<Vec<T>>,
    made: Result<Option<T>, AllocError>,
) -> Result<Option<Vec<T>>, AllocError>
    ensures { IfOk result (λ all. (o : Option T) × (made ≡ Ok o)
        × (items_in all ≡ with_more (items_in row) (option_map (λ x. Some x) o))) }
{
    match made {
        Ok(item) => {
            let all = with_item(row, as_item(item))?;
            Ok(all)
        }
        Err(fault) => Err(fault),
    }
}

/// A row with another behind it, where both were made.
pub(crate) fn with_row<T: Drop>(
    row: Option<Vec<T>>,
    more: Option<Vec<T>>,
) -> Result<Option<Vec<T>>, AllocError>
    ensures { IfOk result (λ all. items_in all ≡ with_list (items_in row) (items_in more)) }
{
    match both(row, more) {
        None => Ok(None),
        Some((row, more)) => {
            let (mut row, mut more) = (row, more);
            row.append(&mut more)?;
            Ok(Some(row))
        }
    }
}
