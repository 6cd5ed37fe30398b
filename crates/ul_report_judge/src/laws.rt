//! Laws of judging by names. None of these functions does anything.
ghost use Rattle.ul_report_judge.specs.Laws.{FaultIsOne, FaultRefuses, PrintedIsAccepted};

/// What was printed of an accepted derivation of a problem is accepted on that problem.
pub fn printed_is_accepted()
    ensures { PrintedIsAccepted }
{}

/// Steps by names have at most one first bad step, and none where they are accepted.
pub fn faults()
    ensures one { FaultIsOne }
    ensures refused { FaultRefuses }
{}
