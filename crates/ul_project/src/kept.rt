//! Values that are kept while more is read, or let go, in one place.
//!
//! A function that lets go of a value has a step for each of its parts, on each of its ways; a call that takes the
//! value has one.

ghost use Rattle.ul_project.specs.Kept.{HasOneRead, IsBeside};

use crate::ProjectFault;
use ul_base::owned::with_one;

/// What was read, beside what is kept; that is let go where there is a fault.
pub(crate) fn read_beside<T: Drop, S: Drop>(
    kept: T,
    read: Result<S, ProjectFault>,
) -> Result<(T, S), ProjectFault>
    ensures { IsBeside kept read result }
{
    match read {
        Ok(value) => Ok((kept, value)),
        Err(fault) => Err(fault),
    }
}

/// A row with what was read behind it; the row is let go where there is a fault.
pub(crate) fn with_read<T: Drop>(
    row: Vec<T>,
    read: Result<T, ProjectFault>,
) -> Result<Vec<T>, ProjectFault>
    ensures { HasOneRead row.items read result }
{
    let (row, item) = read_beside(row, read)?;
    let row = with_one(row, item)?;
    Ok(row)
}
