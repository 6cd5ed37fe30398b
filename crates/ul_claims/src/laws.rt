//! The laws of claims, each on a function that does nothing.

ghost use Rattle.atomic_table.specs.Seated.{TableId};
ghost use Rattle.ul_claims.specs.Claimed.{EachClaimIsNext};
ghost use Rattle.ul_claims.specs.Rule.{EachNumberHasOneSeat};
ghost use Rattle.ul_claims.specs.Vectors.{AreShown, AreNotShown, AreDraws, AreNotDraws, AreGathered};

use ul_core::Label;

/// Events Claim from the beginning draw the numbers from 0 on, each once and in order, and leave the logs empty.
pub fn each_claim_is_next<L: Label>()
    ensures { EachClaimIsNext L.hash_of }
{}

/// Whatever the threads did, no number stands in two seats' lists, or twice in one.
pub fn each_number_has_one_seat()
    ensures { EachNumberHasOneSeat }
{}

/// Worked examples of the rule on the claim word.
pub fn worked_words()
    ensures shown { AreShown }
    ensures not_shown { AreNotShown }
{}

/// Worked examples of draws.
pub fn worked_draws()
    ensures draws { (table : TableId) → AreDraws table }
    ensures not_draws { (table : TableId) → AreNotDraws table }
{}

/// Worked examples of what is said of several seats.
pub fn worked_seats()
    ensures { (table : TableId) → AreGathered table }
{}
