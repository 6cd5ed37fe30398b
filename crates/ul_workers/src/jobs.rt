// What workers run.
ghost use Rattle.std.specs.Prelude.{◌≡◌, ℕ, IfOk};
ghost use Rattle.ul_interner.specs.Known.{Held, Knows};

use std::alloc::{AllocError, Global};
use std::sync::Wait;
use ul_claims::Claim;
use ul_core::Label;
use ul_interner::{Interner, Pass};

/// Work that is done once for each number below a count. Each number's work has a pass and a claim of its own.
pub trait Job<L: Label>: Sync {
    /// What the work on one number gives.
    type Out: Send + Drop;

    // The work on the number may be done with a pass that knows this: among others, the marks that the job itself uses
    // are known to it.
    ghost ready: { Self → Held L → ℕ → Type 0 };

    // The result is right for the number.
    ghost fits: { Self → ℕ → Self.Out → Type 0 };

    // All marks in the result are known to a pass that knows this.
    ghost known: { Held L → Self.Out → Type 0 };

    /// Does the work on the claim's number. Only memory can be wanting.
    fn run<R: Wait>(
        &self,
        rt: &R,
        alloc: Global,
        interner: &Interner<L>,
        pass: &mut Pass<L>,
        claim: Claim,
    ) -> Result<Self::Out, AllocError>
        requires own { pass.old.table ≡ interner.now }
        requires ready { ready self.now pass.old claim }
        ensures learns { Knows pass.old pass.new }
        ensures fits { IfOk result (λ o. fits self.now claim o) }
        ensures known { IfOk result (λ o. known pass.new o) };

    // A job that is ready stays so, and a result that is known stays so, when a pass learns more.
    ghost ready_stays: { (j : Self) (p q : Held L) (n : ℕ) → Knows p q → ready j p n → ready j q n };

    ghost known_stays: { (p q : Held L) (o : Self.Out) → Knows p q → known p o → known q o };
}
