//! Reading to the end.
ghost use Rattle.std.specs.Prelude.{◌≤◌, ◌<◌, IfOk, IfSome, vec_len};
ghost use Rattle.ul_edge.specs.Counting.{inner_of};
ghost use Rattle.ul_edge.specs.Reading.{FailsWith, GivesAll};

use crate::counted::Counted;
use std::alloc::{AllocError, Global};
use std::io::Read;
use ul_files::ReadRefused;

// How many bytes one read asks for.
const CHUNK: usize = 16_384;

/// All the bytes that a reader has left, if they are at most `limit`.
///
/// `TooLong` comes exactly where they are more. `Failed` comes only where a read failed: it is never taken for the end,
/// which is a read that gives nothing. `NoMemory` may come in place of any answer.
pub fn read_all<R: Read>(
    alloc: Global,
    reader: &mut Counted<R>,
    limit: u64,
) -> Result<Vec<u8>, ReadRefused>
    ensures limit { IfOk result (λ v. vec_len v ≤ limit) }
    ensures bytes { IfSome (R.remaining (inner_of reader.old)) (λ left. GivesAll left limit result) }
    ensures failed { FailsWith result reader.old reader.new }
{
    let mut chunk = chunk(alloc)?;
    let mut bytes = Vec::new(alloc);
    loop {
        let Ok(count) = reader.read(&mut chunk) else {
            return Err(ReadRefused::Failed);
        };
        if count == 0 {
            return Ok(bytes);
        }
        if count as u64 > limit - bytes.len() as u64 {
            return Err(ReadRefused::TooLong);
        }
        bytes.extend_from_slice(&chunk[..count])?;
    }
}

// Room for one read. Its size stands here alone: a loop that knew it would be proved over that many bytes.
fn chunk(alloc: Global) -> Result<Vec<u8>, AllocError>
    ensures { IfOk result (λ v. 0 < vec_len v) }
{
    Vec::from_elem(alloc, 0, CHUNK)
}
