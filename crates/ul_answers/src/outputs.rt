//! What is printed for an answer.
//!
//! What was printed is left to the end of the process by `mem::forget`: that comes soon, and the system takes large
//! values back at once, where letting go of them goes through them piece by piece.
ghost use Rattle.std.specs.Prelude.{◌≡◌, ◌++◌, IfOk, Some, codes, length, option_map};
ghost use Rattle.std.specs.Fmt.{decimal};
ghost use Rattle.ul_report.specs.Texts.{refusal_text};
ghost use Rattle.ul_answers.specs.Limits as limits;
ghost use Rattle.ul_answers.specs.Printed as spec;
ghost use Rattle.ul_answers.specs.Views.{output_view, view};

use crate::answer::Answer;
use crate::refusals::limit_output;
use std::alloc::{AllocError, Global};
use std::mem;
use ul_base::Name;
use ul_inputs::TEXT_BYTES;
use ul_lock::{Lock, Locked, Region};
use ul_lock_write::{WriteFault, write};
use ul_marker_text::TextFault;
use ul_reach::{ExportFault, Reached, export_text};
use ul_report::refusal;
use ul_tree::MOST_PATHS;
use ul_version::Version;

/// What is printed, and with which status the program ends.
#[derive(Drop)]
pub struct Output {
    pub status: u8,
    pub text: Vec<u8>,
}

// A fixed text.
fn fixed(alloc: Global, status: u8, text: &str) -> Result<Output, AllocError>
    ensures { IfOk result (λ o. output_view o ≡ (status, text.now)) }
{
    let text = Vec::from_slice(alloc, text.as_bytes())?;
    Ok(Output { status, text })
}

// A marker has too many paths to be printed, or too many nodes on one.
fn too_many_paths(alloc: Global) -> Result<Output, AllocError>
    ensures { IfOk result (λ o. output_view o ≡ spec.too_many_paths) }
{
    limit_output(alloc, "marker-paths", MOST_PATHS as u64)
}

// The limit of which a fault of writing a lock tells; none where memory ran out.
fn lock_limit(fault: &WriteFault) -> Option<(&'static str, u64)>
    ensures { option_map (λ l. (l.0.now, l.1)) result ≡ limits.of_lock fault.now }
{
    match fault {
        WriteFault::TooManyPaths { paths: _ } => Some(("marker-paths", MOST_PATHS as u64)),
        WriteFault::TooLong => Some(("text-bytes", TEXT_BYTES)),
        WriteFault::NoMemory => None,
    }
}

// The limit of which a fault of writing rows tells; none where memory ran out.
fn export_limit(fault: &ExportFault) -> Option<(&'static str, u64)>
    ensures { option_map (λ l. (l.0.now, l.1)) result ≡ limits.of_rows fault.now }
{
    match fault {
        ExportFault::TooManyPaths { paths: _ } => Some(("marker-paths", MOST_PATHS as u64)),
        ExportFault::TooLong => Some(("text-bytes", TEXT_BYTES)),
        ExportFault::NoMemory => None,
    }
}

// The limit of which a fault of printing a marker tells; none where memory ran out.
fn marker_limit(fault: &TextFault) -> Option<(&'static str, u64)>
    ensures { option_map (λ l. (l.0.now, l.1)) result ≡ limits.of_marker fault.now }
{
    match fault {
        TextFault::TooLong { paths: _ } => Some(("marker-paths", MOST_PATHS as u64)),
        TextFault::NoMemory => None,
    }
}

// The line of a limit that is passed, if it is one, and not want of memory.
fn passed_output(alloc: Global, limit: Option<(&'static str, u64)>) -> Result<Output, AllocError>
    ensures { IfOk result (λ o. limits.line_of (option_map (λ l. (l.0.now, l.1)) limit.entry) ≡ Some (output_view o)) }
{
    match limit {
        Some((name, number)) => limit_output(alloc, name, number),
        None => Err(AllocError),
    }
}

// The text of a lock, or the limit that it passes.
fn lock_output(alloc: Global, lock: &Lock) -> Result<Output, AllocError>
    ensures { IfOk result (λ o. output_view o ≡ spec.written lock.now) }
{
    match write(alloc, lock) {
        Ok(text) => Ok(Output { status: 0, text }),
        Err(fault) => passed_output(alloc, lock_limit(&fault)),
    }
}

// The requirements file of a lock's rows, or the limit that it passes.
fn export_output(alloc: Global, rows: &[Reached]) -> Result<Output, AllocError>
    ensures { IfOk result (λ o. output_view o ≡ spec.exported_output rows.now) }
{
    match export_text(alloc, rows) {
        Ok(text) => Ok(Output { status: 0, text }),
        Err(fault) => passed_output(alloc, export_limit(&fault)),
    }
}

// The line of a lock's counts.
fn counts_line(alloc: Global, packages: u64, forks: u64) -> Result<Vec<u8>, AllocError>
    ensures { IfOk result (λ v. v.items ≡ spec.counts_text packages forks) }
{
    let text = format!(in alloc; "packages {packages} forks {forks}\n")?;
    Ok(text.into_bytes())
}

// The counts of a lock that can be written, or the limit that it passes.
fn counts_output(alloc: Global, lock: &Lock, forks: u64) -> Result<Output, AllocError>
    ensures { IfOk result (λ o. output_view o
        ≡ spec.in_place (spec.written lock.now) (spec.counts_text (length lock.now.packages) forks)) }
{
    let output = lock_output(alloc, lock)?;
    if output.status != 0 {
        return Ok(output);
    }
    let packages: &[Locked] = lock.packages.as_slice();
    let text = counts_line(alloc, packages.len() as u64, forks)?;
    Ok(Output { status: 0, text })
}

// The text of a refused fork with steps behind it, or the limit that its region passes.
fn fork_output(
    alloc: Global,
    path: &[bool],
    region: &Region,
    steps: &[u8],
) -> Result<Output, AllocError>
    ensures { IfOk result (λ o. output_view o
        ≡ spec.refusal_output region.now (refusal_text path.now region.now ++ steps.now)) }
{
    match refusal(alloc, path, region.as_tree()) {
        Ok(text) => {
            let mut text = text;
            text.extend_from_slice(steps)?;
            Ok(Output { status: 1, text })
        }
        Err(fault) => passed_output(alloc, marker_limit(&fault)),
    }
}

// The line of an extra that isn't there.
fn extra_output(alloc: Global, name: &str) -> Result<Output, AllocError>
    ensures { IfOk result (λ o. output_view o ≡ (8, codes "extra: " ++ name.now ++ codes "\n")) }
{
    let text = format!(in alloc; "extra: {name}\n")?;
    Ok(Output {
        status: 8,
        text: text.into_bytes(),
    })
}

// The line of a derivation that is rejected.
fn step_output(alloc: Global, step: u64) -> Result<Output, AllocError>
    ensures { IfOk result (λ o. output_view o ≡ (9, codes "rejected: step " ++ decimal step ++ codes "\n")) }
{
    let text = format!(in alloc; "rejected: step {step}\n")?;
    Ok(Output {
        status: 9,
        text: text.into_bytes(),
    })
}

// The line of a lock that is rejected for one of its packages.
fn package_line(alloc: Global, name: &Name, version: &Version) -> Result<Vec<u8>, AllocError>
    ensures { IfOk result (λ v. v.items ≡ spec.package_text name.now version.now) }
{
    let version = version.text(alloc)?;
    let mut line = Vec::new(alloc);
    line.extend_from_slice(b"rejected: ")?;
    line.extend_from_slice(name.text().as_bytes())?;
    line.extend_from_slice(b" ")?;
    line.extend_from_slice(version.as_str().as_bytes())?;
    line.extend_from_slice(b"\n")?;
    Ok(line)
}

// What is printed for such a lock.
fn package_output(alloc: Global, name: &Name, version: &Version) -> Result<Output, AllocError>
    ensures { IfOk result (λ o. output_view o ≡ (9, spec.package_text name.now version.now)) }
{
    let text = package_line(alloc, name, version)?;
    Ok(Output { status: 9, text })
}

/// What is printed for an answer, and the status that goes with it. A lock or a refused fork that passes a limit of
/// printing is answered by that limit. A lock that was printed is left to the end of the process.
///
/// # Errors
///
/// Only for want of memory.
pub fn answer_output(alloc: Global, answer: Answer) -> Result<Output, AllocError>
    ensures { IfOk result (λ o. output_view o ≡ spec.output_of (view answer)) }
{
    match answer {
        Answer::Usage => fixed(
            alloc,
            2,
            "usage: unilock lock|why|env|check|gen|export|verify WORDS\n",
        ),
        Answer::Locked { lock, forks: _ } => {
            let output = lock_output(alloc, &lock);
            mem::forget(lock);
            output
        }
        Answer::Counted { lock, forks } => {
            let output = counts_output(alloc, &lock, forks);
            mem::forget(lock);
            output
        }
        Answer::Unwritten | Answer::Untold => too_many_paths(alloc),
        Answer::NoSelection { path, region, core } => {
            fork_output(alloc, path.as_slice(), &region, core.as_slice())
        }
        Answer::Derived {
            path,
            region,
            steps,
        } => fork_output(alloc, path.as_slice(), &region, steps.as_slice()),
        Answer::NoneRefused => fixed(alloc, 0, "no fork is refused\n"),
        Answer::Environment(text) => Ok(Output { status: 0, text }),
        Answer::Exported(rows) => {
            let output = export_output(alloc, rows.as_slice());
            mem::forget(rows);
            output
        }
        Answer::Canonical(text) => Ok(Output { status: 0, text }),
        Answer::Outside => fixed(alloc, 8, "outside\n"),
        Answer::NoExtra(name) => extra_output(alloc, name.as_str()),
        Answer::Accepted => fixed(alloc, 0, "accepted\n"),
        Answer::Rejected(step) => step_output(alloc, step),
        Answer::Verified => fixed(alloc, 0, "verified\n"),
        Answer::RejectedRoot => fixed(alloc, 9, "rejected: root\n"),
        Answer::RejectedSupported => fixed(alloc, 9, "rejected: supported\n"),
        Answer::RejectedPackage { name, version } => package_output(alloc, &name, &version),
    }
}
