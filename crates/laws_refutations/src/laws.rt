//! Derivations exist, and are judged. None of these functions does anything.
ghost use Rattle.laws_refutations.specs.Exists.{DerivationExists, StepsAreJudged};

/// A problem that nothing serves has a derivation that is accepted.
pub fn derivation_exists()
    ensures { DerivationExists }
{}

/// Steps by names are accepted, or one of them is the first bad one.
pub fn steps_are_judged()
    ensures { StepsAreJudged }
{}
