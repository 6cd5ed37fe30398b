//! Pieces on record, which only clauses see: at run time a record takes no memory and does nothing.
ghost use Rattle.std.specs.Prelude.{◌≡◌, ◌∷◌, ◌++◌, [], ℕ, List};
ghost use Rattle.std.specs.Borrow.{ftrue};
ghost use Rattle.ul_files.specs.Records.{pieces_code};

use std::marker::Model;

/// A piece that is written.
#[derive(Clone, Copy, Drop)]
pub struct Piece<'a> {
    /// Its bytes.
    pub bytes: &'a [u8],
}

/// Pieces, in their order. A clause sees them as `list`.
#[derive(Drop)]
pub struct Pieces {
    pub ghost list: { List (List ℕ) } by { pieces_code },
}

impl Model for Pieces {
    ghost also_owns = { λ _. ftrue };
}

impl Pieces {
    /// No piece so far.
    pub fn new() -> Pieces
        ensures { result.list ≡ [] }
    {
        Pieces {}
    }

    /// These pieces, and one more.
    #[inline(always)]
    pub fn with(&self, _piece: &Piece<'_>) -> Pieces
        ensures { result.list ≡ self.now.list ++ _piece.now.bytes.now ∷ [] }
    {
        Pieces {}
    }
}
