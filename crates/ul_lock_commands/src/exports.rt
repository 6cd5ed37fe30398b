//! The answer of `export`.
//!
//! What an answer is found with is left to the end of the process by `mem::forget`: that comes soon, and the system
//! takes large values back at once, where letting go of them goes through them piece by piece.
ghost use Rattle.std.specs.Prelude.{◌≡◌, IfOk, None, Ok, map, string_bytes};
ghost use Rattle.ul_lock.specs.WellFormed.{IsWellFormed};
ghost use Rattle.ul_lock_nodes.specs.Roots.{first_unknown};
ghost use Rattle.ul_reach.specs.Rows.{AreRows};
ghost use Rattle.ul_answers.specs.Views.{view as answer_view};
ghost use Rattle.ul_inputs.specs.Inputs.{only};
ghost use Rattle.ul_inputs.specs.Refusals.{Answers};
ghost use Rattle.ul_lock_commands.specs.Exports as spec;
ghost use Rattle.ul_lock_commands.specs.Words.{first_other as other_word};

use crate::words::{first_other, names_of};
use std::alloc::{AllocError, Global};
use std::mem;
use std::sync::Wait;
use ul_algebra::Algebra;
use ul_answers::Answer;
use ul_base::Name;
use ul_inputs::Refusal;
use ul_interner::Interner;
use ul_lock::Lock;
use ul_reach::{ReachFault, Reached, reach};

// The rows of a lock, with extras of its root.
fn rows_with<R: Wait>(
    rt: &R,
    alloc: Global,
    algebra: &mut Algebra<'_>,
    lock: &Lock,
    extras: &[Name],
) -> Result<Vec<Reached>, AllocError>
    requires well_formed { IsWellFormed lock.now }
    requires known { first_unknown lock.now extras.now ≡ None }
    ensures { IfOk result (λ v. AreRows lock.now extras.now v.items) }
{
    match reach(rt, alloc, algebra, lock, extras) {
        Ok(rows) => Ok(rows),
        Err(fault) => match fault {
            ReachFault::NoExtra(_) => unreachable!(),
            ReachFault::NoMemory => Err(AllocError),
        },
    }
}

// The answer, by an algebra.
#[tactic(auto, using(crate::proofs::KnownWords::all_known))]
fn answer_for<R: Wait>(
    rt: &R,
    alloc: Global,
    algebra: &mut Algebra<'_>,
    lock: &Lock,
    words: &[String],
) -> Result<Answer, AllocError>
    requires { IsWellFormed lock.now }
    ensures { IfOk result (λ a. spec.GivesRows lock.now (map string_bytes words.now)
        (other_word lock.now (map string_bytes words.now)) (Ok (answer_view a))) }
{
    match first_other(alloc, lock, words)? {
        Some(word) => Ok(Answer::NoExtra(String::from_str(alloc, word)?)),
        None => {
            let extras = names_of(alloc, words)?;
            let rows = rows_with(rt, alloc, algebra, lock, extras.as_slice());
            drop(extras);
            Ok(Answer::Exported(rows?))
        }
    }
}

/// The answer of `export` to a lock and the words of extras. What it is found with is left to the end of the process.
///
/// # Errors
///
/// Only for want of memory.
pub fn export<R: Wait>(
    rt: &R,
    alloc: Global,
    lock: &Lock,
    words: &[String],
) -> Result<Answer, Refusal>
    requires { IsWellFormed lock.now }
    ensures { Answers answer_view result (only (spec.IsExportAnswer lock.now (map string_bytes words.now))) }
{
    let (interner, pass) = Interner::begin(alloc)?;
    let mut algebra = Algebra::begin(alloc, &interner, pass);
    let answer = answer_for(rt, alloc, &mut algebra, lock, words);
    mem::forget(algebra);
    mem::forget(interner);
    Ok(answer?)
}
