//! The needs of a version as they are held.
ghost use Rattle.std.specs.Prelude.{◌≡◌, ◌++◌, ◌∷◌, [], map, option_to_list, IfOk};
ghost use Rattle.ul_problem.specs.HeldNeeds.{need_renumbered, needs_held};

use crate::problem::Need;
use std::alloc::{AllocError, Global};
use ul_base::owned::{beside, made_from, with_made, with_one};
use ul_ranges::SharedList;

/// Up to two needs, as most versions have, in place, and more in a list, which copies may share.
#[derive(Drop)]
pub(crate) enum HeldNeeds {
    Empty,
    One([Need; 1]),
    Two([Need; 2]),
    Listed(Vec<Need>),
    Shared(SharedList<Need>),
}

// The item of an array of one.
fn only_of<T>(one: [T; 1]) -> T
    ensures { one ≡ result ∷ [] }
{
    let [only] = one;
    only
}

// Needs equal to these, in a list of their own.
fn own_list(alloc: Global, needs: &[Need]) -> Result<Vec<Need>, AllocError>
    ensures { IfOk result (λ list. list.items ≡ needs.now) }
{
    let mut list = Vec::with_capacity(alloc, needs.len())?;
    for need in needs {
        list = with_made(list, need.copy(alloc))?;
    }
    Ok(list)
}

/// The same needs in a list of their own.
pub(crate) fn listed(alloc: Global, held: HeldNeeds) -> Result<Vec<Need>, AllocError>
    ensures { IfOk result (λ list. list.items ≡ needs_held held) }
{
    match held {
        HeldNeeds::Empty => Ok(Vec::new(alloc)),
        HeldNeeds::One(one) => Ok(Vec::from_array(alloc, one)?),
        HeldNeeds::Two(two) => Ok(Vec::from_array(alloc, two)?),
        HeldNeeds::Listed(list) => Ok(list),
        HeldNeeds::Shared(list) => {
            let own = made_from(own_list(alloc, list.as_slice()), list)?;
            Ok(own)
        }
    }
}

/// Needs with one more.
pub(crate) fn with_need(alloc: Global, held: HeldNeeds, need: Need) -> Result<HeldNeeds, AllocError>
    ensures { IfOk result (λ h. needs_held h ≡ needs_held held ++ need ∷ []) }
{
    match held {
        HeldNeeds::Empty => Ok(HeldNeeds::One([need])),
        HeldNeeds::One(one) => Ok(HeldNeeds::Two([only_of(one), need])),
        held => {
            let (need, list) = beside(need, listed(alloc, held))?;
            let list = with_one(list, need)?;
            Ok(HeldNeeds::Listed(list))
        }
    }
}

/// Puts the number at each target's place in its place, or 0 where there is none.
pub(crate) fn renumber_needs(numbers: &[u64], needs: &mut [Need])
    ensures { needs.new ≡ map (need_renumbered numbers.now) needs.old }
{
    for need in needs.iter_mut() {
        need.node = match numbers.get(need.node as usize) {
            Some(number) => *number,
            None => 0,
        };
    }
}

/// Needs that are renumbered so, in a list of their own.
pub(crate) fn renumbered(
    alloc: Global,
    numbers: &[u64],
    needs: &[Need],
) -> Result<Vec<Need>, AllocError>
    ensures { IfOk result (λ list. list.items ≡ map (need_renumbered numbers.now) needs.now) }
{
    let mut list = own_list(alloc, needs)?;
    renumber_needs(numbers, list.as_mut_slice());
    Ok(list)
}

/// Needs that were taken off a list's end, of which the one before the last is there only beside it.
pub(crate) fn few(first: Option<Need>, last: Option<Need>) -> HeldNeeds
    ensures { needs_held result ≡ option_to_list first ++ option_to_list last }
{
    match (first, last) {
        (Some(first), Some(last)) => HeldNeeds::Two([first, last]),
        (Some(only), None) | (None, Some(only)) => HeldNeeds::One([only]),
        (None, None) => HeldNeeds::Empty,
    }
}

// Two needs equal to these.
fn copied_two(alloc: Global, first: &Need, last: &Need) -> Result<HeldNeeds, AllocError>
    ensures { IfOk result (λ h. needs_held h ≡ first.now ∷ last.now ∷ []) }
{
    let (first, last) = beside(first.copy(alloc)?, last.copy(alloc))?;
    Ok(HeldNeeds::Two([first, last]))
}

/// The same needs, held once more.
pub(crate) fn copied(alloc: Global, held: &HeldNeeds) -> Result<HeldNeeds, AllocError>
    ensures { IfOk result (λ h. needs_held h ≡ needs_held held.now) }
{
    match held {
        HeldNeeds::Empty => Ok(HeldNeeds::Empty),
        HeldNeeds::One([only]) => {
            let only = only.copy(alloc)?;
            Ok(HeldNeeds::One([only]))
        }
        HeldNeeds::Two([first, last]) => copied_two(alloc, first, last),
        HeldNeeds::Listed(list) => {
            let list = own_list(alloc, list.as_slice())?;
            Ok(HeldNeeds::Listed(list))
        }
        HeldNeeds::Shared(list) => {
            let list = list.copy()?;
            Ok(HeldNeeds::Shared(list))
        }
    }
}

/// The same needs. Those of a list stand in one that copies share.
pub(crate) fn shared(alloc: Global, held: HeldNeeds) -> Result<HeldNeeds, AllocError>
    ensures { IfOk result (λ h. needs_held h ≡ needs_held held) }
{
    match held {
        HeldNeeds::Listed(list) => {
            let list = SharedList::of(alloc, list)?;
            Ok(HeldNeeds::Shared(list))
        }
        held => Ok(held),
    }
}
