//! Loops over blocks of bits.
ghost use Rattle.std.specs.Prelude.{◌≡◌, ◌+◌, ◌<◌, ◌≤◌, ◌^◌, IfSome, length, IfOk, map, zip, bit_and, ◌==◌};
ghost use Rattle.std.specs.Int.{bit_not, w64};
ghost use Rattle.std.specs.List.{list_all};
ghost use Rattle.std.specs.Simd.Lanes.{chunk, put_chunk, zip2};
ghost use Rattle.ul_ranges.specs.Blocks.{flag, flag_at};
ghost use Rattle.ul_ranges.specs.Flags.{IsNext};
ghost use Rattle.ul_ranges.specs.Operations.{word_by};

use std::alloc::{AllocError, Global};
use std::simd::prelude::*;

// An operation on two sets: the members of both, of either, or of the first alone.
#[derive(Clone, Copy)]
pub enum Operation {
    Meet,
    Join,
    Less,
}

// What the operation makes of two words.
fn word_by(operation: Operation, x: u64, y: u64) -> u64
    ensures { result ≡ word_by operation x y }
{
    match operation {
        Operation::Meet => x & y,
        Operation::Join => x | y,
        Operation::Less => x & !y,
    }
}

// Whether the operation makes no bit of each word and the other's.
pub fn are_clear(operation: Operation, mine: &[u64], theirs: &[u64]) -> bool
    requires { length mine.now ≡ length theirs.now }
    ensures { result ≡ list_all (λ p. word_by operation p.0 p.1 == 0) (zip mine.now theirs.now) }
{
    for k in 0..mine.len() {
        let made = word_by(operation, mine[k], theirs[k]);
        if made != 0 {
            return false;
        }
    }
    true
}

// What the operation makes of four words and four others, lane by lane.
fn lanes_by(operation: Operation, x: u64x4, y: u64x4) -> u64x4
    ensures { result ≡ zip2 (word_by operation) x y }
{
    match operation {
        Operation::Meet => x & y,
        Operation::Join => x | y,
        Operation::Less => x & !y,
    }
}

// Writes what the operation makes of four words from a place on and the others'.
fn put_lanes(operation: Operation, mine: &mut [u64], theirs: &[u64], place: usize)
    requires mine { place + 4 ≤ length mine.old }
    requires theirs { place + 4 ≤ length theirs.now }
    ensures { mine.new
        ≡ put_chunk place mine.old (zip2 (word_by operation) (chunk place 4 mine.old) (chunk place 4 theirs.now)) }
{
    let x = u64x4::from_slice(&mine[place..]);
    let y = u64x4::from_slice(&theirs[place..]);
    lanes_by(operation, x, y).copy_to_slice(&mut mine[place..]);
}

// Writes what the operation makes of each word and the other's: four at a time, and the last few one by one.
pub fn put_words(operation: Operation, mine: &mut [u64], theirs: &[u64])
    requires { length mine.old ≡ length theirs.now }
    ensures { mine.new ≡ map (λ p. word_by operation p.0 p.1) (zip mine.old theirs.now) }
{
    let mut done = 0;
    while theirs.len() - done >= 4 {
        put_lanes(operation, mine, theirs, done);
        done += 4;
    }
    for j in done..theirs.len() {
        mine[j] = word_by(operation, mine[j], theirs[j]);
    }
}

// What the operation makes of each word and the other's.
pub fn words_by(
    alloc: Global,
    operation: Operation,
    mine: &[u64],
    theirs: &[u64],
) -> Result<Vec<u64>, AllocError>
    requires { length mine.now ≡ length theirs.now }
    ensures { IfOk result (λ v. v.items ≡ map (λ p. word_by operation p.0 p.1) (zip mine.now theirs.now)) }
{
    let mut words = Vec::from_slice(alloc, mine)?;
    put_words(operation, words.as_mut_slice(), theirs);
    Ok(words)
}

// The first bit of a word from a place on.
pub fn next_bit(word: u64, from: u32) -> Option<u32>
    requires { from < 64 }
    ensures next { IsNext (flag word) from result }
    ensures small { IfSome result (λ bit. bit < 64) }
{
    let rest = word & !((1u64 << from) - 1);
    if rest == 0 {
        None
    } else {
        Some(rest.trailing_zeros())
    }
}

// The first bit of a list of blocks from a place on.
pub fn next_flag(blocks: &[u64], from: usize) -> Option<usize>
    requires { length blocks.now < 2 ^ 32 }
    ensures { IsNext (flag_at blocks.now) from result }
{
    let first = from / 64;
    if first >= blocks.len() {
        return None;
    }
    if let Some(bit) = next_bit(blocks[first], (from % 64) as u32) {
        return Some(64 * first + bit as usize);
    }
    for j in first + 1..blocks.len() {
        if let Some(bit) = next_bit(blocks[j], 0) {
            return Some(64 * j + bit as usize);
        }
    }
    None
}
