//! A worked derivation, for all that the definitions say of it. None of these functions does anything.
ghost use Rattle.ul_derivation.specs.Rows.{ClashAccepted, ClashShort, ClashUncut};

/// A worked derivation is accepted, and two spoilt ones have their fault at step 3.
pub fn clash_rows()
    ensures accepted { ClashAccepted }
    ensures short { ClashShort }
    ensures uncut { ClashUncut }
{}
