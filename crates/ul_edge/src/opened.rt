//! A file that was to be opened.
ghost use Rattle.std.specs.Prelude.{◌≡◌, ◌≤◌, IfErr, IfOk, IfSome};
ghost use Rattle.std.specs.IoError.{error_kind};
ghost use Rattle.ul_files.specs.Files.{IsWithin};
ghost use Rattle.ul_edge.specs.Opened.{CountsFault, IsThere, IsToldOf, IsUnopened};

use crate::counted::Counted;
use crate::reading::read_all;
use std::alloc::Global;
use std::io;
use std::io::{ErrorKind, Read};
use ul_files::ReadRefused;

/// What is told of a file, from what the system answered when it was to be opened.
///
/// Only where the system says that it found none, the file is absent. Else all its bytes are told, if they are at most
/// `limit`. A failure, of the opening or of a read, is counted in `faults`, which stays at its last value there.
/// `NoMemory` may come in place of any answer about a file that was opened.
pub fn read_opened<T: Read + Drop>(
    alloc: Global,
    opened: io::Result<T>,
    limit: u64,
    faults: &mut u64,
) -> Result<Option<Vec<u8>>, ReadRefused>
    ensures within { IsWithin limit result }
    ensures unopened { IfErr opened (λ e. IsUnopened (error_kind e) result) }
    ensures there { IfOk opened (λ file. IsThere result) }
    ensures bytes { IfOk opened (λ file. IfSome (T.remaining file) (λ left. IsToldOf left limit result)) }
    ensures counted { CountsFault result faults.old faults.new }
    ensures count { faults.old ≤ faults.new }
{
    let answer = answer(alloc, opened, limit);
    if let Err(ReadRefused::Failed) = answer {
        *faults = faults.saturating_add(1);
    }
    answer
}

// What is told of a file, where nothing is counted.
fn answer<T: Read + Drop>(
    alloc: Global,
    opened: io::Result<T>,
    limit: u64,
) -> Result<Option<Vec<u8>>, ReadRefused>
    ensures within { IsWithin limit result }
    ensures unopened { IfErr opened (λ e. IsUnopened (error_kind e) result) }
    ensures there { IfOk opened (λ file. IsThere result) }
    ensures bytes { IfOk opened (λ file. IfSome (T.remaining file) (λ left. IsToldOf left limit result)) }
{
    match opened {
        Ok(file) => {
            let bytes = read_all(alloc, &mut Counted::new(file), limit)?;
            Ok(Some(bytes))
        }
        Err(error) => {
            if error.kind() == ErrorKind::NotFound {
                Ok(None)
            } else {
                Err(ReadRefused::Failed)
            }
        }
    }
}
