//! The answer of `env`.
ghost use Rattle.std.specs.Prelude.{◌≡◌, IfOk, None, Ok, map, string_bytes, true};
ghost use Rattle.ul_lock.specs.WellFormed.{IsWellFormed};
ghost use Rattle.ul_lock_nodes.specs.Roots.{first_unknown};
ghost use Rattle.ul_filter.specs.Comparisons.{machine_world};
ghost use Rattle.ul_filter.specs.Headline as given;
ghost use Rattle.ul_answers.specs.Views.{view as answer_view};
ghost use Rattle.ul_inputs.specs.Inputs.{only};
ghost use Rattle.ul_inputs.specs.Refusals.{Answers};
ghost use Rattle.ul_lock_commands.specs.Environments as spec;
ghost use Rattle.ul_lock_commands.specs.Words.{first_other as other_word};

use crate::words::{first_other, names_of};
use std::alloc::{AllocError, Global};
use ul_answers::Answer;
use ul_base::Name;
use ul_filter::{WalkFault, atoms, environment};
use ul_inputs::Refusal;
use ul_lock::Lock;
use ul_marker::{Machine, World, world_of};
use ul_tree::holds;

// The world of a machine, with the truth of each comparison of a lock.
fn world_for(alloc: Global, lock: &Lock, machine: &Machine) -> Result<World, AllocError>
    ensures { IfOk result (λ w. w ≡ machine_world lock.now machine.now) }
{
    let atoms = atoms(alloc, lock)?;
    world_of(alloc, machine, &atoms)
}

// Whether a lock is for a machine.
fn is_for(alloc: Global, lock: &Lock, machine: &Machine) -> Result<bool, AllocError>
    ensures { IfOk result (λ b. b ≡ given.is_supported_at lock.now (machine_world lock.now machine.now)) }
{
    let world = world_for(alloc, lock, machine)?;
    Ok(holds(lock.supported.as_tree(), &world, ""))
}

// What a lock gives on a machine, with extras of its root.
fn given(
    alloc: Global,
    lock: &Lock,
    machine: &Machine,
    extras: &[Name],
) -> Result<Vec<u8>, AllocError>
    requires well_formed { IsWellFormed lock.now }
    requires supported { given.is_supported_at lock.now (machine_world lock.now machine.now) ≡ true }
    requires known { first_unknown lock.now extras.now ≡ None }
    ensures { IfOk result (λ v. given.IsEnvironment lock.now (machine_world lock.now machine.now) extras.now v.items) }
{
    match environment(alloc, lock, machine, extras) {
        Ok(text) => Ok(text),
        Err(fault) => match fault {
            WalkFault::Outside => unreachable!(),
            WalkFault::NoExtra(_) => unreachable!(),
            WalkFault::NoMemory => Err(AllocError),
        },
    }
}

// The answer, where the lock is for the machine.
#[tactic(auto, using(crate::proofs::KnownWords::all_known))]
fn answer_for(
    alloc: Global,
    lock: &Lock,
    machine: &Machine,
    words: &[String],
) -> Result<Answer, AllocError>
    requires well_formed { IsWellFormed lock.now }
    requires supported { given.is_supported_at lock.now (machine_world lock.now machine.now) ≡ true }
    ensures { IfOk result (λ a. spec.GivesFor lock.now machine.now (map string_bytes words.now)
        (other_word lock.now (map string_bytes words.now)) (Ok (answer_view a))) }
{
    match first_other(alloc, lock, words)? {
        Some(word) => Ok(Answer::NoExtra(String::from_str(alloc, word)?)),
        None => {
            let extras = names_of(alloc, words)?;
            let text = given(alloc, lock, machine, extras.as_slice());
            drop(extras);
            Ok(Answer::Environment(text?))
        }
    }
}

/// The answer of `env` to a lock, a machine and the words of extras.
///
/// # Errors
///
/// Only for want of memory.
pub fn env(
    alloc: Global,
    lock: &Lock,
    machine: &Machine,
    words: &[String],
) -> Result<Answer, Refusal>
    requires { IsWellFormed lock.now }
    ensures { Answers answer_view result (only (spec.IsEnvAnswer lock.now machine.now (map string_bytes words.now))) }
{
    if is_for(alloc, lock, machine)? {
        let answer = answer_for(alloc, lock, machine, words)?;
        Ok(answer)
    } else {
        Ok(Answer::Outside)
    }
}
