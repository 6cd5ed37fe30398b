// What judges regions.
ghost use Rattle.std.specs.Prelude.{◌≡◌, IfOk};
ghost use Rattle.ul_interner.specs.Known.{Held, Knows};
ghost use Rattle.ul_generations.specs.Outcomes.{IsKnown, MayGoOn};
ghost use Rattle.ul_generations.specs.declared.outcomes.Outcome.{Outcome};

use crate::outcomes::Outcome;
use std::alloc::{AllocError, Global};
use std::sync::Wait;
use ul_core::Label;
use ul_interner::{Interner, Pass};

/// What judges regions. Its relation says which outcomes a region may have.
pub trait Judge<L: Label>: Sync {
    /// What is judged.
    type Region: Send + Sync + Drop;

    /// What a region that is done has.
    type Done: Send + Drop;

    /// What a region that is refused has.
    type Refusal: Send + Drop;

    // The marks that the judge itself uses are known to a pass that knows this.
    ghost ready: { Self → Held L → Type 0 };

    // The judge may be asked about the region.
    ghost may: { Self → Self.Region → Type 0 };

    // The region's outcome may be this one.
    ghost outcome: { Self → Self.Region → Outcome Self.Region Self.Done Self.Refusal → Type 0 };

    // All marks in it are known to a pass that knows this.
    ghost region_known: { Held L → Self.Region → Type 0 };

    ghost done_known: { Held L → Self.Done → Type 0 };

    ghost refusal_known: { Held L → Self.Refusal → Type 0 };

    /// Judges the region. Only memory can be wanting.
    fn judge<R: Wait>(
        &self,
        rt: &R,
        alloc: Global,
        interner: &Interner<L>,
        pass: &mut Pass<L>,
        region: &Self::Region,
    ) -> Result<Outcome<Self::Region, Self::Done, Self::Refusal>, AllocError>
        requires own { pass.old.table ≡ interner.now }
        requires ready { ready self.now pass.old }
        requires may { may self.now region.now }
        requires known { region_known pass.old region.now }
        ensures learns { Knows pass.old pass.new }
        ensures outcome { IfOk result (λ o. outcome self.now region.now o) }
        ensures may { IfOk result (λ o. MayGoOn (may self.now) o) }
        ensures known { IfOk result (IsKnown (region_known pass.new) (done_known pass.new) (refusal_known pass.new)) };

    // What is ready or known stays so when a pass learns more.
    ghost ready_stays: { (j : Self) (p q : Held L) → Knows p q → ready j p → ready j q };

    ghost region_stays: { (p q : Held L) (r : Self.Region) → Knows p q → region_known p r → region_known q r };

    ghost done_stays: { (p q : Held L) (d : Self.Done) → Knows p q → done_known p d → done_known q d };

    ghost refusal_stays: { (p q : Held L) (f : Self.Refusal) → Knows p q → refusal_known p f → refusal_known q f };
}
