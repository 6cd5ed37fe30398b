//! The keys that a label has.
ghost use Rattle.std.specs.Prelude.{◌≡◌, ◌↔◌, ◌+◌, ◌<◌, ℕ, [], length, map, string_bytes, slice_index, slice_index_or, IfOk, IsTrue};
ghost use Rattle.std.specs.List.{fold};
ghost use Rattle.ul_core.specs.Hashes.{next_hash};
ghost use Rattle.ul_algebra.specs.Mixed.{text_mixed, point_mixed, start_mixed};

use std::alloc::{AllocError, Global};
use std::marker::Model;

/// The points of a node: texts in order. Contracts see them as the list of their bytes.
#[derive(Drop)]
pub struct Points {
    texts: Vec<String>,
}

impl Model for Points {
    ghost use Rattle.std.specs.Prelude.{ℕ, List, map, string_bytes};

    ghost Value = { List (List ℕ) };

    ghost view = { λ p. map string_bytes p.texts.items };
}

impl Points {
    /// The points of a list of texts.
    pub fn of(texts: Vec<String>) -> Points
        ensures { result ≡ map string_bytes texts.items }
    {
        Points { texts }
    }

    /// How many there are.
    pub fn len(&self) -> usize
        ensures { result ≡ length self.now }
    {
        self.texts.len()
    }

    /// The text at a place.
    pub fn get(&self, place: usize) -> &str
        requires { place < length self.now }
        ensures { result.now ≡ slice_index_or self.now place [] }
    {
        self.texts[place].as_str()
    }

    /// Whether both have the same texts in the same order.
    pub fn same(&self, other: &Points) -> bool
        ensures { IsTrue result ↔ (self.now ≡ other.now) }
    {
        self.texts.as_slice() == other.texts.as_slice()
    }

    /// Equal points.
    pub fn copy(&self, alloc: Global) -> Result<Points, AllocError>
        ensures { IfOk result (λ p. p ≡ self.now) }
    {
        let mut texts = Vec::new(alloc);
        for text in &self.texts {
            texts.push(String::from_str(alloc, text.as_str())?)?;
        }
        Ok(Points { texts })
    }

    /// The hash so far, with all texts.
    pub(crate) fn hash(&self, start: u64) -> u64
        ensures { result ≡ fold point_mixed start self.now }
    {
        let mut hash = start;
        for text in &self.texts {
            hash = mix(mix_text(hash, text.as_str()), 256);
        }
        hash
    }
}

/// The hash so far, with one number more.
pub(crate) fn mix(hash: u64, part: u64) -> u64
    ensures { result ≡ next_hash hash part }
{
    hash.wrapping_mul(6364136223846793005)
        .wrapping_add(part)
        .wrapping_add(1)
}

/// The hash so far, with the bytes of a text.
pub(crate) fn mix_text(start: u64, text: &str) -> u64
    ensures { result ≡ text_mixed start text.now }
{
    let mut hash = start;
    for byte in text.as_bytes() {
        hash = mix(hash, u64::from(*byte));
    }
    hash
}

/// The starts of pieces, in order. Contracts see them as the list.
#[derive(Drop)]
pub struct Starts {
    numbers: Vec<u128>,
}

impl Model for Starts {
    ghost use Rattle.std.specs.Prelude.{ℕ, List};

    ghost Value = { List ℕ };

    ghost view = { λ s. s.numbers.items };
}

impl Starts {
    /// The starts of a list of numbers.
    pub fn of(numbers: Vec<u128>) -> Starts
        ensures { result ≡ numbers.items }
    {
        Starts { numbers }
    }

    /// How many there are.
    pub fn len(&self) -> usize
        ensures { result ≡ length self.now }
    {
        self.numbers.len()
    }

    /// The number at a place.
    pub fn get(&self, place: usize) -> u128
        requires { place < length self.now }
        ensures { result ≡ slice_index self.now place }
    {
        self.numbers[place]
    }

    /// The number after a place, and its place.
    pub fn after(&self, place: usize) -> (u128, usize)
        requires { place + 1 < length self.now }
        ensures number { result.0 ≡ slice_index self.now (place + 1) }
        ensures place { result.1 ≡ place + 1 }
    {
        let numbers = &self.numbers;
        let next = place + 1;
        (numbers[next], next)
    }

    /// Whether both have the same numbers in the same order.
    pub fn same(&self, other: &Starts) -> bool
        ensures { IsTrue result ↔ (self.now ≡ other.now) }
    {
        self.numbers.as_slice() == other.numbers.as_slice()
    }

    /// Equal starts.
    pub fn copy(&self, alloc: Global) -> Result<Starts, AllocError>
        ensures { IfOk result (λ s. s ≡ self.now) }
    {
        let numbers = Vec::from_slice(alloc, self.numbers.as_slice())?;
        Ok(Starts { numbers })
    }

    /// The hash so far, with all numbers.
    pub(crate) fn hash(&self, start: u64) -> u64
        ensures { result ≡ fold start_mixed start self.now }
    {
        let mut hash = start;
        for number in &self.numbers {
            let high = (*number / (1 << 64)) as u64;
            let low = (*number % (1 << 64)) as u64;
            hash = mix(mix(hash, high), low);
        }
        hash
    }
}
