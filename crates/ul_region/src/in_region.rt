//! Truths in a region.
ghost use Rattle.std.specs.Prelude.{◌≡◌, ◌<◌, IfOk, All, get_or, length};
ghost use Rattle.ul_interner.specs.Known.{Knows};
ghost use Rattle.ul_algebra.specs.Answers.{IsDiagram};
ghost use Rattle.ul_region.specs.Truths.{HoldsWithin, IsRegion, PassView};
ghost use Rattle.ul_region.specs.Asked.{IsInRegion};

use std::alloc::{AllocError, Global};
use std::sync::Wait;
use ul_algebra::{Algebra, Diagram};
use ul_base::owned::with_made;

/// Truths, and where in a region they hold.
#[derive(Drop)]
pub struct InRegion<'a> {
    pub region: &'a Diagram,
    pub truths: &'a [Diagram],
    /// Of each truth, where in the region it holds.
    pub within: Vec<Diagram>,
}

impl<'a> InRegion<'a> {
    /// Truths in a region.
    ///
    /// # Errors
    ///
    /// Only for want of memory.
    pub fn of<R: Wait>(
        rt: &R,
        alloc: Global,
        algebra: &mut Algebra<'_>,
        region: &'a Diagram,
        truths: &'a [Diagram],
    ) -> Result<InRegion<'a>, AllocError>
        requires region { IsRegion algebra.old region.now }
        requires truths { All (IsDiagram algebra.old) truths.now }
        ensures knows { Knows algebra.old algebra.new }
        ensures whole { IfOk result (IsInRegion algebra.new) }
        ensures region { IfOk result (λ s. s.region.now ≡ region.now) }
        ensures truths { IfOk result (λ s. s.truths.now ≡ truths.now) }
    {
        let mut within = Vec::with_capacity(alloc, truths.len())?;
        for truth in truths {
            let holds = algebra.and(rt, alloc, region, truth);
            within = with_made(within, holds)?;
        }
        Ok(InRegion {
            region,
            truths,
            within,
        })
    }

    /// Where in the region the truth at a place holds.
    pub fn holds_at(&self, place: usize) -> &Diagram
        requires { place < length self.now.within.items }
        ensures { (h : PassView) → IsInRegion h self.now
            → HoldsWithin h self.now.region.now self.now.truths.now place result.now }
    {
        let within: &[Diagram] = self.within.as_slice();
        &within[place]
    }

    /// The truth at a place.
    pub fn truth_held(&self, place: usize) -> &Diagram
        requires { place < length self.now.truths.now }
        ensures { result.now ≡ get_or self.now.truths.now place result.now }
    {
        let truths: &[Diagram] = self.truths;
        &truths[place]
    }
}
