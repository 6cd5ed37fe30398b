//! What the definitions of sets and pieces say, as laws for all values. None of these functions does anything.
ghost use Rattle.std.specs.Prelude.{◌≡◌, ◌+◌, ◌*◌, ◌<◌, ◌≤◌, ◌↔◌, ℕ, List, [], ◌∷◌, Bool, true, false, cond, length, Contains, IsTrue, Option, Some, None, All, ◌++◌, ◌^◌};
ghost use Rattle.ul_ranges.specs.Flags.{has, both, either, less, is_apart, is_blank, is_within, set_of, front, first_in};
ghost use Rattle.ul_ranges.specs.Pieces.{AreStarts, IsPiece, IsRefinement};

/// No member is past the size, and two sets of one size with the same members are equal.
pub fn sets()
    ensures within { (k : ℕ) (s : List Bool) → length s ≤ k → has k s ≡ false }
    ensures equal { (s t : List Bool) → length s ≡ length t → ((k : ℕ) → has k s ≡ has k t) → s ≡ t }
{}

/// Intersection, union and difference, member by member. The sizes of intersection and union are the common one, that of a
/// difference is the first's.
pub fn operations()
    ensures both { (k : ℕ) (s t : List Bool) → has k (both s t) ≡ cond (has k s) (has k t) false }
    ensures either { (k : ℕ) (s t : List Bool) → has k (either s t) ≡ cond (has k s) true (has k t) }
    ensures less { (k : ℕ) (s t : List Bool) → has k (less s t) ≡ cond (has k t) false (has k s) }
    ensures both_size { (s t : List Bool) → length s ≡ length t → length (both s t) ≡ length s }
    ensures either_size { (s t : List Bool) → length s ≡ length t → length (either s t) ≡ length s }
    ensures less_size { (s t : List Bool) → length (less s t) ≡ length s }
{}

/// A set is blank exactly where it has no member, within another exactly where each member is one of the other's, and apart from it
/// exactly where none is.
pub fn tests()
    ensures blank { (s : List Bool) → IsTrue (is_blank s) ↔ ((k : ℕ) → has k s ≡ false) }
    ensures member { (s : List Bool) → is_blank s ≡ false → (k : ℕ) × IsTrue (has k s) }
    ensures disjoint { (s t : List Bool) → IsTrue (is_apart s t) ↔ ((k : ℕ) → IsTrue (has k s) → has k t ≡ false) }
    ensures inclusion { (s t : List Bool) → IsTrue (is_within s t) ↔ ((k : ℕ) → IsTrue (has k s) → IsTrue (has k t)) }
{}

/// The set of a list of numbers has this size, and its members are the numbers of the list below the size.
pub fn listed()
    ensures size { (size : ℕ) (members : List ℕ) → length (set_of size members) ≡ size }
    ensures members { (k size : ℕ) (members : List ℕ)
        → IsTrue (has k (set_of size members)) ↔ ((k < size) × Contains members k) }
{}

/// The set of the numbers below a count has its size, and its members are the numbers below both.
pub fn fronts()
    ensures size { (size count : ℕ) → length (front size count) ≡ size }
    ensures members { (k size count : ℕ) → IsTrue (has k (front size count)) ↔ ((k < size) × (k < count)) }
{}

/// The first of a list in a set is a member, no earlier number of the list is, and it is missing exactly where none is a member.
pub fn firsts()
    ensures none { (s : List Bool) (order : List ℕ) → (first_in order s ≡ None) ↔ All (λ k. has k s ≡ false) order }
    ensures some { (s : List Bool) (order : List ℕ) (v : ℕ) → first_in order s ≡ Some v
        → (front : List ℕ) × (back : List ℕ) × (order ≡ front ++ v ∷ back)
        × IsTrue (has v s) × All (λ k. has k s ≡ false) front }
{}

/// Each number below 2^96 has exactly one piece.
pub fn pieces()
    ensures { (starts : List ℕ) (x : ℕ) → AreStarts starts → x < 2 ^ 96
        → (k : ℕ) × IsPiece starts k x × ((j : ℕ) → IsPiece starts j x → j ≡ k) }
{}

/// Two numbers of one piece of a refinement are of one piece of each that it refines, and a refinement is the only one.
pub fn refinements()
    ensures pieces { (a b starts : List ℕ) (i j k x y : ℕ) → IsRefinement a b starts
        → IsPiece starts k x → IsPiece starts k y → (IsPiece a i x → IsPiece a i y) × (IsPiece b j x → IsPiece b j y) }
    ensures only { (a b c d : List ℕ) → IsRefinement a b c → IsRefinement a b d → c ≡ d }
{}
