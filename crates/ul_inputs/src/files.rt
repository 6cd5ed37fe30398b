//! Files that are read whole.
ghost use Rattle.std.specs.Prelude.{◌≡◌, codes, option_map};
ghost use Rattle.ul_files.specs.Files.{ByReads, Remembers};
ghost use Rattle.ul_inputs.specs.Inputs as spec;
ghost use Rattle.ul_inputs.specs.Refusals.{Answers, Cause, IsReadRefusal};

use crate::file_faults::{FileFault, FilePlace, file_refusal};
use crate::refusal::Refusal;
use std::alloc::{AllocError, Global};
use ul_files::{Files, ReadRefused};
use ul_load::FILE_BYTES;

/// The most bytes that a lock or a derivation may have.
pub const TEXT_BYTES: u64 = 67_108_864;

// The refusal of a file that isn't read, with its path, if there is memory for it: a read that failed names it.
fn refusal(
    name: &'static str,
    most: u64,
    path: Result<String, AllocError>,
    refused: ReadRefused,
) -> Refusal
    ensures { IsReadRefusal name.now most path refused result }
{
    match refused {
        ReadRefused::NoMemory => Refusal::NoMemory,
        ReadRefused::TooLong => Refusal::Limit(name, most),
        ReadRefused::Failed => match path {
            Ok(path) => Refusal::ReadFault(path),
            Err(_) => Refusal::NoMemory,
        },
    }
}

// The bytes at a path, if the file is there.
fn file_at<F: Files>(
    alloc: Global,
    files: &mut F,
    name: &'static str,
    most: u64,
    path: &str,
) -> Result<Option<Vec<u8>>, Refusal>
    ensures told { ByReads (F.reads files.new)
        (λ m. Answers (option_map (λ v. v.items)) result (spec.file_at name.now most path.now m)) }
    ensures same { F.map files.new ≡ F.map files.old }
    ensures grown { Remembers (F.reads files.old) (F.reads files.new) }
    ensures cause { Cause (F.faults files.old) (F.faults files.new) (F.last_failed files.new) result }
{
    match files.read(path, most) {
        Ok(found) => Ok(found),
        Err(refused) => {
            let path = String::from_str(alloc, path);
            Err(refusal(name, most, path, refused))
        }
    }
}

// The bytes of a file that has to be there.
fn present_file<F: Files>(
    alloc: Global,
    files: &mut F,
    name: &'static str,
    most: u64,
    path: &str,
) -> Result<Vec<u8>, Refusal>
    ensures told { ByReads (F.reads files.new)
        (λ m. Answers (λ v. v.items) result (spec.present_file name.now most path.now m)) }
    ensures same { F.map files.new ≡ F.map files.old }
    ensures grown { Remembers (F.reads files.old) (F.reads files.new) }
    ensures cause { Cause (F.faults files.old) (F.faults files.new) (F.last_failed files.new) result }
{
    match file_at(alloc, files, name, most, path)? {
        Some(bytes) => Ok(bytes),
        None => Err(file_refusal(alloc, path, FileFault::At(FilePlace::Fixed("absent")))),
    }
}

/// The bytes of the project file, the machine file or the file of markers at a path, which has to be there.
pub fn small_file<F: Files>(alloc: Global, files: &mut F, path: &str) -> Result<Vec<u8>, Refusal>
    ensures told { ByReads (F.reads files.new) (λ m. Answers (λ v. v.items) result (spec.small_file path.now m)) }
    ensures same { F.map files.new ≡ F.map files.old }
    ensures grown { Remembers (F.reads files.old) (F.reads files.new) }
    ensures cause { Cause (F.faults files.old) (F.faults files.new) (F.last_failed files.new) result }
{
    present_file(alloc, files, "file-bytes", FILE_BYTES, path)
}

/// The bytes of the lock or the derivation at a path, which has to be there.
pub fn large_file<F: Files>(alloc: Global, files: &mut F, path: &str) -> Result<Vec<u8>, Refusal>
    ensures told { ByReads (F.reads files.new) (λ m. Answers (λ v. v.items) result (spec.large_file path.now m)) }
    ensures same { F.map files.new ≡ F.map files.old }
    ensures grown { Remembers (F.reads files.old) (F.reads files.new) }
    ensures cause { Cause (F.faults files.old) (F.faults files.new) (F.last_failed files.new) result }
{
    present_file(alloc, files, "text-bytes", TEXT_BYTES, path)
}
