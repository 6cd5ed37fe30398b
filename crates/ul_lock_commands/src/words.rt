//! The words of extras.
ghost use Rattle.std.specs.Prelude.{◌≡◌, IfOk, None, Ok, map, option_map, string_bytes};
ghost use Rattle.ul_base.specs.Names.{name_of};
ghost use Rattle.ul_lock_commands.specs.Words as spec;

use std::alloc::{AllocError, Global};
use ul_base::{Name, NameFault, is_name};
use ul_lock::Lock;
use ul_lock_nodes::root_lists;

// The name that a word is, if it is one. To tell a word that is none takes no memory.
#[tactic(auto, unfolding(ul_base::specs::Names::name_of))]
fn name_in(alloc: Global, word: &str) -> Result<Option<Name>, AllocError>
    ensures name { IfOk result (λ n. n ≡ name_of word.now) }
    ensures none { name_of word.now ≡ None → result ≡ Ok None }
{
    if !is_name(word) {
        return Ok(None);
    }
    match Name::read(alloc, word) {
        Ok(name) => Ok(Some(name)),
        Err(NameFault::NoReading) => Ok(None),
        Err(NameFault::NoMemory) => Err(AllocError),
    }
}

// Whether a word is the name of one of the root's extras.
fn is_extra_word(alloc: Global, lock: &Lock, word: &str) -> Result<bool, AllocError>
    ensures { IfOk result (λ b. b ≡ spec.is_extra_word lock.now word.now) }
{
    match name_in(alloc, word)? {
        Some(name) => Ok(root_lists(lock, &name)),
        None => Ok(false),
    }
}

/// The first word that isn't.
#[tactic(auto, unfolding(crate::specs::Words::first_other))]
pub(crate) fn first_other<'w>(
    alloc: Global,
    lock: &Lock,
    words: &'w [String],
) -> Result<Option<&'w str>, AllocError>
    ensures { IfOk result (λ o. option_map (λ w. w.now) o ≡ spec.first_other lock.now (map string_bytes words.now)) }
{
    for word in words {
        if !is_extra_word(alloc, lock, word.as_str())? {
            return Ok(Some(word.as_str()));
        }
    }
    Ok(None)
}

/// The names of words.
#[tactic(auto, unfolding(crate::specs::Words::names_of))]
pub(crate) fn names_of(alloc: Global, words: &[String]) -> Result<Vec<Name>, AllocError>
    ensures { IfOk result (λ v. v.items ≡ spec.names_of (map string_bytes words.now)) }
{
    let mut names = Vec::new(alloc);
    for word in words {
        if let Some(name) = name_in(alloc, word.as_str())? {
            names.push(name)?;
        }
    }
    Ok(names)
}
