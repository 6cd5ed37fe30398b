//! The plain bodies: sets as lists of flags, one by one, and pieces by looking at each start. The block sets and the searches keep
//! the same contracts; these stay for comparison.
ghost use Rattle.std.specs.Prelude.{◌≡◌, ◌^◌, ◌<◌, length, IfOk, map, zip};
ghost use Rattle.ul_ranges.specs.Flags.{has, both, either, less, is_blank, is_within, set_of, first_in};
ghost use Rattle.ul_ranges.specs.Operations.{flag_by};
ghost use Rattle.ul_ranges.specs.Pieces.{AreStarts, IsPiece, IsRefinement};

use crate::words::Operation;
use std::alloc::{AllocError, Global};

/// The flags of the numbers of a list.
#[tactic(auto, unfolding(crate::specs::Flags::set_of))]
pub fn of_list(alloc: Global, size: u32, members: &[u32]) -> Result<Vec<bool>, AllocError>
    ensures { IfOk result (λ v. v.items ≡ set_of size members.now) }
{
    let mut flags = Vec::new(alloc);
    for number in 0..size {
        flags.push(members.contains(&number))?;
    }
    Ok(flags)
}

/// Whether the set has a number.
pub fn has(flags: &[bool], number: u32) -> bool
    ensures { result ≡ has number flags.now }
{
    flags.get(number as usize).copied().unwrap_or(false)
}

/// The members of both.
pub fn meet(alloc: Global, left: &[bool], right: &[bool]) -> Result<Vec<bool>, AllocError>
    requires { length left.now ≡ length right.now }
    ensures { IfOk result (λ v. v.items ≡ both left.now right.now) }
{
    flags_by(alloc, Operation::Meet, left, right)
}

/// The members of either.
pub fn join(alloc: Global, left: &[bool], right: &[bool]) -> Result<Vec<bool>, AllocError>
    requires { length left.now ≡ length right.now }
    ensures { IfOk result (λ v. v.items ≡ either left.now right.now) }
{
    flags_by(alloc, Operation::Join, left, right)
}

/// The members that the second lacks.
pub fn less(alloc: Global, left: &[bool], right: &[bool]) -> Result<Vec<bool>, AllocError>
    requires { length left.now ≡ length right.now }
    ensures { IfOk result (λ v. v.items ≡ less left.now right.now) }
{
    flags_by(alloc, Operation::Less, left, right)
}

/// Whether there is no member.
pub fn is_empty(flags: &[bool]) -> bool
    ensures { result ≡ is_blank flags.now }
{
    for flag in flags {
        if *flag {
            return false;
        }
    }
    true
}

/// The first of `order` in the set.
pub fn first_in(flags: &[bool], order: &[u32]) -> Option<u32>
    ensures { result ≡ first_in order.now flags.now }
{
    for k in order {
        if has(flags, *k) {
            return Some(*k);
        }
    }
    None
}

/// The place of the piece that has a number, from the first start on.
pub fn piece_of(starts: &[u128], number: u128) -> usize
    requires cuts { AreStarts starts.now }
    requires small { number < 2 ^ 96 }
    ensures { IsPiece starts.now result number }
{
    let mut piece = 0;
    for (index, start) in starts.iter().enumerate() {
        if *start <= number {
            piece = index;
        }
    }
    piece
}

/// The starts of either, sorted and without repeats.
pub fn refine(alloc: Global, left: &[u128], right: &[u128]) -> Result<Vec<u128>, AllocError>
    requires left { AreStarts left.now }
    requires right { AreStarts right.now }
    ensures { IfOk result (λ v. IsRefinement left.now right.now v.items) }
{
    let mut starts = Vec::from_slice(alloc, left)?;
    starts.extend_from_slice(right)?;
    starts.sort_unstable();
    starts.dedup();
    Ok(starts)
}

// What the operation makes of two flags.
fn flag_by(operation: Operation, x: bool, y: bool) -> bool
    ensures { result ≡ flag_by operation x y }
{
    match operation {
        Operation::Meet => if x { y } else { false },
        Operation::Join => if x { true } else { y },
        Operation::Less => if y { false } else { x },
    }
}

// What the operation makes of each flag and the other's.
fn flags_by(
    alloc: Global,
    operation: Operation,
    left: &[bool],
    right: &[bool],
) -> Result<Vec<bool>, AllocError>
    requires { length left.now ≡ length right.now }
    ensures { IfOk result (λ v. v.items ≡ map (λ p. flag_by operation p.0 p.1) (zip left.now right.now)) }
{
    let mut flags = Vec::new(alloc);
    for k in 0..left.len() {
        flags.push(flag_by(operation, left[k], right[k]))?;
    }
    Ok(flags)
}
