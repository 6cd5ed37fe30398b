//! Whether a derivation can be printed.
ghost use Rattle.std.specs.Prelude.{◌<◌, ◌↔◌, IsTrue, length};
ghost use Rattle.ul_problem.specs.Steps.{AreTermsOf};
ghost use Rattle.ul_report.specs.Naming.{HasNames, HaveNames, IsPlaced};

use ul_problem::{Derivation, Problem, Step, Term};
use ul_ranges::Ordinals;

// Whether the problem has the node, and the set has the size of its versions.
fn is_placed(problem: &Problem, node: u64, set: &Ordinals) -> bool
    ensures { IsTrue result ↔ IsPlaced problem.now node set.now }
{
    match problem.nodes().get(node as usize) {
        Some(facts) => facts.versions.as_slice().len() == set.size() as usize,
        None => false,
    }
}

fn are_terms_of(problem: &Problem, terms: &[Term]) -> bool
    ensures { IsTrue result ↔ AreTermsOf problem.now terms.now }
{
    for term in terms {
        if !is_placed(problem, term.node(), term.set()) {
            return false;
        }
    }
    true
}

fn is_node_of(problem: &Problem, node: u64) -> bool
    ensures { IsTrue result ↔ (node < length problem.now.nodes) }
{
    (node as usize) < problem.nodes().len()
}

fn has_names(problem: &Problem, step: &Step) -> bool
    ensures { IsTrue result ↔ HasNames problem.now step.now }
{
    match step {
        Step::Need {
            node,
            versions,
            target,
            permitted,
        } => is_placed(problem, *node, versions) && is_placed(problem, *target, permitted),
        Step::Python { node, versions } => is_placed(problem, *node, versions),
        Step::Base { node, versions } => is_placed(problem, *node, versions),
        Step::Cut { node, terms, .. } => {
            is_node_of(problem, *node) && are_terms_of(problem, terms.as_slice())
        }
    }
}

/// Whether each place of a derivation is one of the problem, and each set has the size of its node's versions: so that
/// `steps` can print it. Each accepted derivation is such.
pub fn fits(problem: &Problem, derivation: &Derivation) -> bool
    ensures { IsTrue result ↔ HaveNames problem.now derivation.now }
{
    let steps = derivation.as_slice();
    for step in steps {
        if !has_names(problem, step) {
            return false;
        }
    }
    true
}
