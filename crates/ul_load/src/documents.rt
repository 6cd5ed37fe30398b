//! The documents of names.

ghost use Rattle.std.specs.Prelude.{◌≡◌, ◌∷◌, ◌≤◌, ◌+◌, [], IfErr, IfOk, OnOk, length, option_map, string_bytes};
ghost use Rattle.ul_files.specs.Files.{ByReads, Remembers, content};
ghost use Rattle.ul_index.specs.Documents.{document_of};
ghost use Rattle.ul_load.specs.Faults.{Cause, FailedAt, Gives, IsOfBytes, fault_of_document, fault_of_read};
ghost use Rattle.ul_load.specs.Loading as spec;
ghost use Rattle.ul_load.specs.Loading.{file_content, document_answer, document_path, package_from, total_bytes};
ghost use Rattle.ul_load.specs.Progressing.{IsNextPackage};
ghost use Rattle.ul_load.specs.Reads.{ReadsEach, ReadsFirst};

use crate::{FILE_BYTES, LoadFault, TOTAL_BYTES};
use std::alloc::{AllocError, Global};
use ul_base::Name;
use ul_files::{Files, ReadRefused};
use ul_index::{IndexFault, document};
use ul_requirement::{Package, Prereleases};

// The path of a name's document.
fn path_of(alloc: Global, folder: &str, name: &Name) -> Result<String, AllocError>
    ensures { IfOk result (λ s. string_bytes s ≡ document_path folder.now name.now) }
{
    let name = name.text();
    let path = format!(in alloc; "{folder}/{name}.json")?;
    Ok(path)
}

// The fault of a file that isn't read, with its path, if there was memory for that.
fn fault_of_read(path: Result<String, AllocError>, refused: ReadRefused) -> LoadFault
    ensures { result ≡ fault_of_read path refused }
{
    match refused {
        ReadRefused::NoMemory => LoadFault::NoMemory,
        ReadRefused::TooLong => match path {
            Ok(path) => LoadFault::TooLong(path),
            Err(_) => LoadFault::NoMemory,
        },
        ReadRefused::Failed => match path {
            Ok(path) => LoadFault::Read(path),
            Err(_) => LoadFault::NoMemory,
        },
    }
}

// The bytes at a path, if the file is there.
fn read<F: Files>(alloc: Global, files: &mut F, path: &str) -> Result<Option<Vec<u8>>, LoadFault>
    ensures told { ByReads (F.reads files.new)
        (λ m. Gives (option_map (λ v. v.items)) result (file_content path.now (content m path.now))) }
    ensures same { F.map files.new ≡ F.map files.old }
    ensures grown { Remembers (F.reads files.old) (F.reads files.new) }
    ensures cause { Cause (F.faults files.old) (F.faults files.new) (F.last_failed files.new) result }
    ensures failed { FailedAt (λ p. p ≡ path.now) result }
    ensures reads { ReadsEach (F.reads files.old) (F.reads files.new) (path.now ∷ []) }
{
    match files.read(path, FILE_BYTES) {
        Ok(found) => Ok(found),
        Err(refused) => {
            let path = String::from_str(alloc, path);
            Err(fault_of_read(path, refused))
        }
    }
}

// The fault of a document, with its path, if there was memory for that.
fn fault_of_document(path: Result<String, AllocError>, fault: IndexFault) -> LoadFault
    ensures { result ≡ fault_of_document path fault }
{
    match path {
        Ok(path) => match fault {
            IndexFault::NoMemory => LoadFault::NoMemory,
            IndexFault::NotJson => LoadFault::Document(path, IndexFault::NotJson),
            IndexFault::Shape(place) => LoadFault::Document(path, IndexFault::Shape(place)),
            IndexFault::WrongName => LoadFault::Document(path, IndexFault::WrongName),
        },
        Err(_) => LoadFault::NoMemory,
    }
}

// The package that bytes are read as.
fn package_in(alloc: Global, path: &str, name: &Name, bytes: &[u8]) -> Result<Package, LoadFault>
    ensures told { Gives (λ p. p) result (document_answer path.now (document_of name.now bytes.now)) }
    ensures bytes { IfErr result IsOfBytes }
{
    match document(alloc, bytes, name) {
        Ok(package) => Ok(package),
        Err(fault) => {
            let path = String::from_str(alloc, path);
            Err(fault_of_document(path, fault))
        }
    }
}

// A package without releases.
fn no_package(alloc: Global, name: &Name) -> Result<Package, AllocError>
    ensures { IfOk result (λ p. p ≡ spec.no_package name.now) }
{
    let name = name.copy(alloc)?;
    Ok(Package {
        name,
        entries: 0,
        prereleases: Prereleases::IfNecessaryOrExplicit,
        releases: Vec::new(alloc),
    })
}

// The size of a document and its package, behind documents of so many bytes.
fn package_of(
    alloc: Global,
    path: &str,
    name: &Name,
    before: u64,
    found: Option<Vec<u8>>,
) -> Result<(u64, Package), LoadFault>
    requires { before ≤ total_bytes }
    ensures told { Gives (λ p. p) result (package_from path.now name.now before (option_map (λ v. v.items) found)) }
    ensures next { IfOk result (IsNextPackage name.now before) }
    ensures bytes { IfErr result IsOfBytes }
{
    let Some(bytes) = found else {
        let package = no_package(alloc, name)?;
        return Ok((0, package));
    };
    let size = bytes.len() as u64;
    if size > TOTAL_BYTES - before {
        return Err(LoadFault::TooManyBytes);
    }
    let package = package_in(alloc, path, name, &bytes)?;
    Ok((size, package))
}

/// The size of a name's document and its package, behind documents of so many bytes.
pub(crate) fn package_at<F: Files>(
    alloc: Global,
    files: &mut F,
    folder: &str,
    name: &Name,
    before: u64,
) -> Result<(u64, Package), LoadFault>
    requires { before ≤ total_bytes }
    ensures told { ByReads (F.reads files.new) (λ m. Gives (λ p. p) result (spec.package_at m folder.now name.now before)) }
    ensures same { F.map files.new ≡ F.map files.old }
    ensures grown { Remembers (F.reads files.old) (F.reads files.new) }
    ensures cause { Cause (F.faults files.old) (F.faults files.new) (F.last_failed files.new) result }
    ensures failed { FailedAt (λ p. p ≡ document_path folder.now name.now) result }
    ensures reads { ReadsFirst (F.reads files.old) (F.reads files.new) (document_path folder.now name.now ∷ []) }
    ensures each { OnOk result (ReadsEach (F.reads files.old) (F.reads files.new)
        (document_path folder.now name.now ∷ [])) }
    ensures next { IfOk result (IsNextPackage name.now before) }
{
    let path = path_of(alloc, folder, name)?;
    let found = read(alloc, files, path.as_str())?;
    package_of(alloc, path.as_str(), name, before, found)
}
