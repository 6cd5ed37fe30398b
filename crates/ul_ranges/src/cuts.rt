//! The numbers below 2^96 in half-open pieces. Contracts see them as the list of the pieces' starts.
ghost use Rattle.std.specs.Prelude.{◌≡◌, ◌^◌, ◌<◌, ◌↔◌, IfOk, IsTrue};
ghost use Rattle.ul_ranges.specs.Pieces.{AreStarts, IsPiece, IsRefinement};

use std::alloc::{AllocError, Global};
use std::marker::Model;

/// The numbers below 2^96, cut into half-open pieces: each goes from its start up to the next one's, the last up to 2^96.
#[derive(Drop)]
pub struct Cuts {
    starts: Vec<u128>,
}

impl Model for Cuts {
    ghost use Rattle.std.specs.Prelude.{List, ℕ};
    ghost use Rattle.ul_ranges.specs.Pieces.{AreStarts};

    ghost Value = { List ℕ };

    ghost view = { λ c. c.starts.items };

    ghost invariant = { λ c. AreStarts c.starts.items };
}

// Where the numbers end: 2^96.
const END: u128 = 1 << 96;

impl Cuts {
    /// Whether these numbers can be the starts of pieces, as `of` wants them.
    pub fn fits(starts: &[u128]) -> bool
        ensures { IsTrue result ↔ AreStarts starts.now }
    {
        let mut least = 0;
        for start in starts {
            if *start < least || *start >= END {
                return false;
            }
            least = *start + 1;
        }
        starts.first().copied() == Some(0)
    }

    /// The pieces with these starts: 0 first, each below the next, all below 2^96.
    pub fn of(starts: Vec<u128>) -> Cuts
        requires { AreStarts starts.items }
        ensures { result ≡ starts.items }
    {
        Cuts { starts }
    }

    /// The starts of the pieces.
    pub fn starts(&self) -> &[u128]
        ensures value { result.now ≡ self.now }
        ensures cuts { AreStarts self.now }
    {
        self.starts.as_slice()
    }

    /// The place of the piece that has a number.
    pub fn piece_of(&self, number: u128) -> usize
        requires { number < 2 ^ 96 }
        ensures { IsPiece self.now result number }
    {
        match self.starts.as_slice().binary_search(&number) {
            Ok(piece) => piece,
            Err(next) => next - 1,
        }
    }

    /// The pieces cut by both.
    pub fn refine(&self, alloc: Global, other: &Cuts) -> Result<Cuts, AllocError>
        ensures { IfOk result (λ c. IsRefinement self.now other.now c) }
    {
        let starts = merged(alloc, self.starts.as_slice(), other.starts.as_slice())?;
        Ok(Cuts { starts })
    }
}

// The numbers of two rising lists, each once, rising.
fn merged(alloc: Global, xs: &[u128], ys: &[u128]) -> Result<Vec<u128>, AllocError>
    requires xs { AreStarts xs.now }
    requires ys { AreStarts ys.now }
    ensures { IfOk result (λ v. IsRefinement xs.now ys.now v.items) }
{
    let mut all = Vec::new(alloc);
    let mut i = 0;
    let mut j = 0;
    'merge: while i < xs.len() && j < ys.len() {
        let x = xs[i];
        let y = ys[j];
        all.push(x.min(y))?;
        if x <= y {
            i += 1;
        }
        if y <= x {
            j += 1;
        }
    }
    all.extend_from_slice(&xs[i..])?;
    all.extend_from_slice(&ys[j..])?;
    Ok(all)
}
