//! Reading a derivation file.
ghost use Rattle.std.specs.Prelude.{◌≡◌, IfOk, option_and_then};
ghost use Rattle.ul_lines.specs.Reader.{read_text, step_text};
ghost use Rattle.ul_report_read.specs.Answers.{Gives};
ghost use Rattle.ul_report_read.specs.Automaton.{proof_reader, step};
ghost use Rattle.ul_report_read.specs.Headline.{ReadsProof};
ghost use Rattle.ul_report_read.specs.declared.reading.ProofFault.TheVariants.{NoMemory};

use crate::line::Line;
use crate::lines::line;
use crate::proof::Proof;
use crate::states::{State, ended, next};
use std::alloc::{AllocError, Global};
use ul_base::owned::{beside, refused};
use ul_lines::first_line;
use ul_tree::laws::sample_holds;

/// Why a text is no derivation file.
#[derive(Debug, Drop)]
pub enum ProofFault {
    /// The first line that no derivation file has there, from 1; one more than there are, if the text only ends too
    /// early.
    Line(u64),
    /// Memory ran out.
    NoMemory,
}

impl From<AllocError> for ProofFault {
    ghost from_gives = { λ _ e. e ≡ NoMemory };

    fn from(_e: AllocError) -> ProofFault {
        ProofFault::NoMemory
    }
}

fn follow(alloc: Global, state: State, found: Option<Line>) -> Result<Option<State>, AllocError>
    ensures { IfOk result (λ after. after ≡ option_and_then (step state) found) }
{
    match found {
        None => Ok(refused(state)),
        Some(line) => next(alloc, state, line),
    }
}

fn behind(alloc: Global, state: State, text: &[u8]) -> Result<Option<State>, AllocError>
    ensures { IfOk result (λ found. found ≡ step_text proof_reader state text.now) }
{
    let (state, found) = beside(state, line(alloc, text))?;
    follow(alloc, state, found)
}

// What a text says, line by line.
fn lines_read(alloc: Global, bytes: &[u8]) -> Result<Proof, ProofFault>
    ensures { Gives result (read_text proof_reader bytes.now) }
{
    let mut state = State::Start;
    let mut number: u64 = 1;
    let mut rest = bytes;
    while !rest.is_empty() {
        let (text, after) = first_line(rest);
        match behind(alloc, state, text)? {
            None => return Err(ProofFault::Line(number)),
            Some(found) => state = found,
        }
        number += 1;
        rest = after;
    }
    match ended(state) {
        None => Err(ProofFault::Line(number)),
        Some(proof) => Ok(proof),
    }
}

/// What a derivation file says: the four lines of a refused fork, then a line for each step, as `refusal` and `steps` of
/// ul_report print them.
///
/// # Errors
///
/// `Line` exactly where the text is no derivation file: the first line with which no such file begins so. Line 4 is the
/// one of a world of line 3's region, and steps are numbered from 1. Versions of a set and terms of a cut increase,
/// `not n {}` isn't a term, and the numbers of a cut are any below 2^64.
pub fn read(alloc: Global, bytes: &[u8]) -> Result<Proof, ProofFault>
    ensures { ReadsProof bytes.now result }
{
    sample_holds();
    let answer = lines_read(alloc, bytes);
    answer
}
