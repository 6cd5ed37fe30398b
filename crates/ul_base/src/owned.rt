//! Owned values that are handed on, or let go, in one place.
//!
//! A function that lets go of a value has a step for each of its parts, on each of its ways; a call that takes the
//! value has one.

ghost use Rattle.std.specs.Prelude.{◌≡◌, ◌++◌, ◌∷◌, [], IfOk, None, Ok, string_bytes};
ghost use Rattle.ul_base.specs.Owned.{HasOneMore};

use std::alloc::{AllocError, Global};

/// Nothing, where what was read is let go.
pub fn refused<T: Drop, S>(_read: T) -> Option<S>
    ensures { result ≡ None }
{
    None
}

/// What was made, beside what is kept; that is let go where memory ran out.
pub fn beside<T: Drop, S: Drop>(kept: T, made: Result<S, AllocError>) -> Result<(T, S), AllocError>
    ensures { IfOk result (λ both. (both.0 ≡ kept) × (made ≡ Ok both.1)) }
{
    match made {
        Ok(value) => Ok((kept, value)),
        Err(fault) => Err(fault),
    }
}

/// What was made from a value, which is let go.
pub fn made_from<T: Drop, S: Drop>(made: Result<S, AllocError>, _from: T) -> Result<S, AllocError>
    ensures { IfOk result (λ value. made ≡ Ok value) }
{
    match made {
        Ok(value) => Ok(value),
        Err(fault) => Err(fault),
    }
}

/// A row with one item more.
pub fn with_one<T: Drop>(row: Vec<T>, item: T) -> Result<Vec<T>, AllocError>
    ensures { IfOk result (λ all. all.items ≡ row.items ++ item ∷ []) }
{
    let mut row = row;
    row.push(item)?;
    Ok(row)
}

/// A row with one item more, if that was made; else it is let go.
pub fn with_made<T: Drop>(row: Vec<T>, made: Result<T, AllocError>) -> Result<Vec<T>, AllocError>
    ensures { IfOk result (λ all. HasOneMore row.items made all.items) }
{
    match made {
        Ok(item) => {
            let row = with_one(row, item)?;
            Ok(row)
        }
        Err(fault) => Err(fault),
    }
}

/// A value in memory of its own, if it was made.
pub fn boxed<T: Drop>(alloc: Global, made: Result<T, AllocError>) -> Result<Box<T>, AllocError>
    ensures { IfOk result (λ place. made ≡ Ok place.value) }
{
    let place = Box::new(alloc, made?)?;
    Ok(place)
}

/// What was made, with a text before it.
pub fn named<T: Drop>(
    alloc: Global,
    text: &str,
    made: Result<T, AllocError>,
) -> Result<(String, T), AllocError>
    ensures text { IfOk result (λ pair. string_bytes pair.0 ≡ text.now) }
    ensures made { IfOk result (λ pair. made ≡ Ok pair.1) }
{
    let text = String::from_str(alloc, text)?;
    let pair = beside(text, made)?;
    Ok(pair)
}
