//! Reading a text up to its shape.

ghost use Rattle.std.specs.Prelude.{◌≡◌, IfOk, option_and_then};
ghost use Rattle.ul_lines.specs.Reader.{step_text, read_text};
ghost use Rattle.ul_lock_read.specs.Answers.{Gives};
ghost use Rattle.ul_lock_read.specs.Automaton.{lock_reader, step};
ghost use Rattle.ul_lock_read.specs.declared.texts.ShapeFault.TheVariants.{NoMemory};

use crate::states::{State, ended, next};
use std::alloc::{AllocError, Global};
use ul_base::owned::{beside, refused};
use ul_lines::first_line;
use ul_lock_lines::{Line, line};
use ul_lock_write::Sheet;

/// Why a text has no shape.
#[derive(Drop)]
pub enum ShapeFault {
    /// The first line that no shaped text has there, from 1.
    Line(u64),
    /// Memory ran out.
    NoMemory,
}

impl From<AllocError> for ShapeFault {
    ghost from_gives = { λ _ e. e ≡ NoMemory };

    fn from(_e: AllocError) -> ShapeFault {
        ShapeFault::NoMemory
    }
}

fn follow(alloc: Global, state: State, found: Option<Line>) -> Result<Option<State>, AllocError>
    ensures { IfOk result (λ after. after ≡ option_and_then (step state) found) }
{
    match found {
        None => Ok(refused(state)),
        Some(line) => next(alloc, state, line),
    }
}

fn behind(alloc: Global, state: State, text: &[u8]) -> Result<Option<State>, AllocError>
    ensures { IfOk result (λ found. found ≡ step_text lock_reader state text.now) }
{
    let (state, found) = beside(state, line(alloc, text))?;
    follow(alloc, state, found)
}

/// What a text says, before the root and the targets are asked of.
pub fn shape(alloc: Global, bytes: &[u8]) -> Result<Sheet, ShapeFault>
    ensures { Gives result (read_text lock_reader bytes.now) }
{
    let mut state = State::Start;
    let mut number: u64 = 1;
    let mut rest = bytes;
    while !rest.is_empty() {
        let (text, after) = first_line(rest);
        match behind(alloc, state, text)? {
            None => return Err(ShapeFault::Line(number)),
            Some(found) => state = found,
        }
        number += 1;
        rest = after;
    }
    match ended(alloc, state)? {
        None => Err(ShapeFault::Line(number)),
        Some(sheet) => Ok(sheet),
    }
}
