//! What a step says.
ghost use Rattle.std.specs.Prelude.{◌≡◌, length, slice_get, IfOk};
ghost use Rattle.ul_problem.specs.Plain.{base_in};
ghost use Rattle.ul_problem.specs.Problems.{IsWellFormed};
ghost use Rattle.ul_problem.specs.declared.term.Term.TheVariants.{In, NotIn};
ghost use Rattle.ul_problem.specs.Steps.{AreTermsOf, IsStepWithin, base_or, says, pair_of, term_to_say};

use crate::fitting::base_at;
use crate::incompat::{Incompat, Saying};
use crate::problem::{NodeFacts, Problem};
use crate::step::Step;
use crate::term::Term;
use std::alloc::{AllocError, Global};
use ul_base::owned::{beside, refused};
use ul_ranges::Ordinals;

impl Step {
    /// The incompatibility that the step says, of a step whose places and sets are the problem's.
    pub fn says(&self, alloc: Global, problem: &Problem) -> Result<Incompat, AllocError>
        requires { IsStepWithin problem.now self.now }
        ensures value { IfOk result (λ ts. ts ≡ says problem.now self.now) }
        ensures fits { IfOk result (λ ts. AreTermsOf problem.now ts) }
    {
        let terms = self.terms(alloc, problem)?;
        Ok(Incompat::said(terms))
    }

    // The terms of what the step says.
    fn terms(&self, alloc: Global, problem: &Problem) -> Result<Saying, AllocError>
        requires { IsStepWithin problem.now self.now }
        ensures value { IfOk result (λ ts. ts ≡ says problem.now self.now) }
        ensures whole { IsWellFormed problem.now }
    {
        let nodes = problem.nodes();
        match self {
            Step::Need {
                node,
                versions,
                target,
                permitted,
            } => implied(alloc, *node, versions, *target, permitted),
            Step::Python { node, versions } => {
                Ok(Saying::one(Term::In(*node, versions.copy(alloc)?)))
            }
            Step::Base { node, versions } => {
                implied(alloc, *node, versions, base_or_node(nodes, *node), versions)
            }
            Step::Cut { terms, .. } => Ok(Saying::of(terms.copy(alloc)?)),
        }
    }
}

// Not the node at these versions with the target elsewhere than at those that are permitted.
fn implied(
    alloc: Global,
    node: u64,
    versions: &Ordinals,
    target: u64,
    permitted: &Ordinals,
) -> Result<Saying, AllocError>
    requires { node ≡ target → length versions.now ≡ length permitted.now }
    ensures { IfOk result (λ ts. ts ≡ pair_of (In node versions.now) (NotIn target permitted.now)) }
{
    if node == target {
        return Ok(Saying::one(Term::In(node, versions.less(alloc, permitted)?)));
    }
    if permitted.is_empty() {
        return Ok(Saying::one(Term::In(node, versions.copy(alloc)?)));
    }
    let (versions, permitted) = beside(versions.copy(alloc)?, permitted.copy(alloc))?;
    let here = Term::In(node, versions);
    let there = Term::NotIn(target, permitted);
    if node < target {
        Ok(Saying::two(here, there))
    } else {
        Ok(Saying::two(there, here))
    }
}

// The place of a node's base, or the node's own where it has none.
fn base_or_node(nodes: &[NodeFacts], node: u64) -> u64
    ensures { result ≡ base_or (base_in (slice_get nodes.now node)) node }
{
    match base_at(nodes, node) {
        Some(base) => base,
        None => node,
    }
}

/// The term, or none where it always holds.
pub(crate) fn written(term: Term) -> Option<Term>
    ensures { result ≡ term_to_say term }
{
    if term.always_holds() {
        refused(term)
    } else {
        Some(term)
    }
}
