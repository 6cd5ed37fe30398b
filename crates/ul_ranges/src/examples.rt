//! Worked examples of the definitions. None of these functions does anything.
ghost use Rattle.std.specs.Prelude.{◌≡◌, ◌+◌, ◌*◌, ◌^◌, ◌-◌, [], ◌∷◌, true, false, Some, None, map, replicate};
ghost use Rattle.ul_ranges.specs.Flags.{has, both, either, less, is_apart, is_blank, is_within, set_of, front, first_in};
ghost use Rattle.ul_ranges.specs.Blocks.{block_count, flags_of, IsExact};
ghost use Rattle.ul_ranges.specs.Pieces.{AreStarts, IsPiece, IsRefinement};
ghost use Rattle.ul_ranges.specs.Examples.{from_3_8, interpreters};

/// Sets of the numbers below five: {1, 3} and {3, 4}.
pub fn sets()
    ensures listed { set_of 5 (3 ∷ 1 ∷ 3 ∷ []) ≡ false ∷ true ∷ false ∷ true ∷ false ∷ [] }
    ensures meet { both (set_of 5 (1 ∷ 3 ∷ [])) (set_of 5 (3 ∷ 4 ∷ [])) ≡ set_of 5 (3 ∷ []) }
    ensures join { either (set_of 5 (1 ∷ 3 ∷ [])) (set_of 5 (3 ∷ 4 ∷ [])) ≡ set_of 5 (1 ∷ 3 ∷ 4 ∷ []) }
    ensures left { less (set_of 5 (1 ∷ 3 ∷ [])) (set_of 5 (3 ∷ 4 ∷ [])) ≡ set_of 5 (1 ∷ []) }
    ensures right { less (set_of 5 (3 ∷ 4 ∷ [])) (set_of 5 (1 ∷ 3 ∷ [])) ≡ set_of 5 (4 ∷ []) }
    ensures front { front 5 2 ≡ true ∷ true ∷ false ∷ false ∷ false ∷ [] }
    ensures fronts { map (front 2) (0 ∷ 1 ∷ 2 ∷ []) ≡ set_of 2 [] ∷ set_of 2 (0 ∷ []) ∷ set_of 2 (0 ∷ 1 ∷ []) ∷ [] }
    ensures blank { is_blank (set_of 5 []) ≡ true }
    ensures filled { is_blank (set_of 65 (64 ∷ [])) ≡ false }
    ensures within { is_within (set_of 5 (3 ∷ [])) (set_of 5 (1 ∷ 3 ∷ [])) ≡ true }
    ensures without { is_within (set_of 5 (1 ∷ 3 ∷ [])) (set_of 5 (3 ∷ [])) ≡ false }
    ensures apart { is_apart (set_of 5 (1 ∷ 3 ∷ [])) (set_of 5 (4 ∷ [])) ≡ true }
    ensures meeting { is_apart (set_of 5 (1 ∷ 3 ∷ [])) (set_of 5 (3 ∷ [])) ≡ false }
    ensures past { has 5 (set_of 5 (1 ∷ 3 ∷ [])) ≡ false }
    ensures first { first_in (4 ∷ 3 ∷ 1 ∷ []) (set_of 5 (1 ∷ 3 ∷ [])) ≡ Some 3 }
    ensures absent { first_in (4 ∷ 2 ∷ 7 ∷ []) (set_of 5 (1 ∷ 3 ∷ [])) ≡ None }
{}

/// Blocks: the lowest bit of a block is its first flag, and the flags of the second block begin at 64.
pub fn blocks()
    ensures counts { map block_count (0 ∷ 1 ∷ 64 ∷ 65 ∷ 257 ∷ []) ≡ 0 ∷ 1 ∷ 1 ∷ 2 ∷ 5 ∷ [] }
    ensures low { flags_of 5 (10 ∷ []) ≡ set_of 5 (1 ∷ 3 ∷ []) }
    ensures high { flags_of 66 (0 ∷ 2 ∷ []) ≡ set_of 66 (65 ∷ []) }
    ensures whole { flags_of 64 ((2 ^ 64 - 1) ∷ []) ≡ replicate 64 true }
{}

/// Pieces from 0, 3.8 and 3.10, where a.b.c is a * 2^64 + b * 2^32 + c: 3.8 begins the second piece, 3.9.1 lies in it, and the
/// last number of all in the third.
pub fn pieces()
    ensures starts { AreStarts interpreters }
    ensures before { IsPiece interpreters 0 (from_3_8 - 1) }
    ensures at { IsPiece interpreters 1 from_3_8 }
    ensures inside { IsPiece interpreters 1 (from_3_8 + 2 ^ 32 + 1) }
    ensures last { IsPiece interpreters 2 (2 ^ 96 - 1) }
    ensures refined { IsRefinement (0 ∷ 7 ∷ 9 ∷ []) (0 ∷ 5 ∷ 9 ∷ []) (0 ∷ 5 ∷ 7 ∷ 9 ∷ []) }
{}
