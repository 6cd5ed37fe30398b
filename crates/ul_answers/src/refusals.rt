//! What is printed for a refused input.
ghost use Rattle.std.specs.Prelude.{◌≡◌, ◌++◌, IfOk, codes};
ghost use Rattle.ul_answers.specs.Printed as spec;
ghost use Rattle.ul_answers.specs.Refusals.{IsRefusalOutput};
ghost use Rattle.ul_answers.specs.Views.{output_view};
ghost use Rattle.ul_inputs.specs.Refused as refused;

use crate::outputs::Output;
use std::alloc::{AllocError, Global};
use ul_inputs::Refusal;

// The line of a limit that is passed.
pub(crate) fn limit_output(alloc: Global, name: &str, number: u64) -> Result<Output, AllocError>
    ensures { IfOk result (λ o. output_view o ≡ spec.refused_output (refused.limit name.now number)) }
{
    let text = format!(in alloc; "limit: {name} {number}\n")?;
    Ok(Output {
        status: 4,
        text: text.into_bytes(),
    })
}

// The line of a file without a reading.
fn malformed_text(alloc: Global, file: &str, place: &str) -> Result<Vec<u8>, AllocError>
    ensures { IfOk result (λ v. v.items ≡ codes "malformed: " ++ file.now ++ codes ": " ++ place.now ++ codes "\n") }
{
    let text = format!(in alloc; "malformed: {file}: {place}\n")?;
    Ok(text.into_bytes())
}

// What is printed for a file without a reading.
fn malformed_output(alloc: Global, file: &str, place: &str) -> Result<Output, AllocError>
    ensures { IfOk result (λ o. output_view o ≡ spec.refused_output (refused.malformed file.now place.now)) }
{
    let text = malformed_text(alloc, file, place)?;
    Ok(Output { status: 3, text })
}

// The line of a read that failed.
fn fault_output(alloc: Global, path: &str) -> Result<Output, AllocError>
    ensures { IfOk result (λ o. output_view o ≡ (5, codes "read fault: " ++ path.now ++ codes "\n")) }
{
    let text = format!(in alloc; "read fault: {path}\n")?;
    Ok(Output {
        status: 5,
        text: text.into_bytes(),
    })
}

/// What is printed for a refused input, and the status that goes with it.
///
/// # Errors
///
/// Only for want of memory, which the refusal itself may be.
pub fn refusal_output(alloc: Global, refusal: &Refusal) -> Result<Output, AllocError>
    ensures { IfOk result (λ o. IsRefusalOutput refusal.now (output_view o)) }
{
    match refusal {
        Refusal::Malformed(file, place) => malformed_output(alloc, file.as_str(), place.as_str()),
        Refusal::Limit(name, number) => limit_output(alloc, name, *number),
        Refusal::ReadFault(path) => fault_output(alloc, path.as_str()),
        Refusal::NoMemory => Err(AllocError),
    }
}
