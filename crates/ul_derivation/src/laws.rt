//! What acceptance means, as laws for all values. None of these functions does anything.
ghost use Rattle.ul_derivation.specs.Laws.{AcceptedLaw, FaultIsOne, FaultRefuses};

/// Where a derivation is accepted, nothing serves.
pub fn accepted_law()
    ensures { AcceptedLaw }
{}

/// A derivation has at most one first bad step, and none where it is accepted.
pub fn faults()
    ensures one { FaultIsOne }
    ensures refused { FaultRefuses }
{}
