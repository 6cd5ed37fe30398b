//! The machine of a machine file.
ghost use Rattle.std.specs.Prelude.{◌≡◌, ℕ, List};
ghost use Rattle.ul_files.specs.Files.{ByReads, Remembers};
ghost use Rattle.ul_comparison.specs.MachineFiles.{machine_of};
ghost use Rattle.ul_inputs.specs.FileFaults.{refused_file};
ghost use Rattle.ul_inputs.specs.Inputs.{only};
ghost use Rattle.ul_inputs.specs.Machines as spec;
ghost use Rattle.ul_inputs.specs.Refusals.{Answers, Cause, IsRefusalFor};

use crate::file_faults::{FileFault, FilePlace, file_refusal};
use crate::files::small_file;
use crate::refusal::Refusal;
use std::alloc::Global;
use ul_files::Files;
use ul_marker::{EnvFault, Machine};

// What is wrong with a machine file.
fn file_fault(fault: EnvFault) -> FileFault
    ensures { (path : List ℕ) → refused_file path result ≡ spec.refused_machine path fault }
{
    match fault {
        EnvFault::NotJson => FileFault::At(FilePlace::Fixed("not JSON")),
        EnvFault::Missing(key) => FileFault::At(FilePlace::Missing(key)),
        EnvFault::PythonForm => FileFault::At(FilePlace::Fixed("python form")),
        EnvFault::NoMemory => FileFault::NoMemory,
    }
}

// The refusal of a machine file for its fault.
fn refusal(alloc: Global, path: &str, fault: EnvFault) -> Refusal
    ensures { IsRefusalFor (spec.refused_machine path.now fault) result }
{
    file_refusal(alloc, path, file_fault(fault))
}

// The machine that bytes say.
fn machine_in(alloc: Global, path: &str, bytes: &[u8]) -> Result<Machine, Refusal>
    ensures { Answers (λ m. m) result (only (λ r. r ≡ spec.machine_or_refused path.now (machine_of bytes.now))) }
{
    match Machine::read(alloc, bytes) {
        Ok(machine) => Ok(machine),
        Err(fault) => Err(refusal(alloc, path, fault)),
    }
}

/// The machine of the machine file at a path.
#[tactic(auto, using(crate::proofs::ForCallers::refuses, crate::proofs::ForCallers::goes_on))]
pub fn machine_file<F: Files>(alloc: Global, files: &mut F, path: &str) -> Result<Machine, Refusal>
    ensures told { ByReads (F.reads files.new) (λ m. Answers (λ x. x) result (spec.machine_at path.now m)) }
    ensures same { F.map files.new ≡ F.map files.old }
    ensures grown { Remembers (F.reads files.old) (F.reads files.new) }
    ensures cause { Cause (F.faults files.old) (F.faults files.new) (F.last_failed files.new) result }
{
    let bytes = small_file(alloc, files, path)?;
    machine_in(alloc, path, &bytes)
}
