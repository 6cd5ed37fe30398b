//! Whether the last step forbids what the roots are.
ghost use Rattle.std.specs.Prelude.{◌≡◌, ◌↔◌, [], IfOk, IsTrue};
ghost use Rattle.std.specs.List.{Contains};
ghost use Rattle.ul_problem.specs.Serving.{HasNone};
ghost use Rattle.ul_problem.specs.Steps.{AreRightAfter, AreRootTerms, ClosesWith, IsRootTerm};

use crate::checks::is_set_of;
use std::alloc::{AllocError, Global};
use ul_problem::{Problem, Step, Term};

// Whether the node is one of the roots. It is looked up by halves, and where it isn't found the roots are read.
fn is_root(roots: &[u64], node: u64) -> bool
    ensures { IsTrue result ↔ Contains roots.now node }
{
    match roots.binary_search(&node) {
        Ok(_) => true,
        Err(_) => roots.contains(&node),
    }
}

// Whether the term is positive and on a root, with a set that isn't empty.
fn is_root_term(problem: &Problem, roots: &[u64], term: &Term) -> bool
    requires { roots.now ≡ problem.now.roots }
    ensures { IsTrue result ↔ IsRootTerm problem.now term.now }
{
    match term {
        Term::In(node, set) => is_root(roots, *node)
            && is_set_of(problem, *node, set)
            && !set.is_empty(),
        Term::NotIn(_, _) => false,
    }
}

fn are_root_terms(problem: &Problem, roots: &[u64], terms: &[Term]) -> bool
    requires { roots.now ≡ problem.now.roots }
    ensures { IsTrue result ↔ AreRootTerms problem.now terms.now }
{
    for term in terms {
        if !is_root_term(problem, roots, term) {
            return false;
        }
    }
    true
}

// Whether there is a last step, and its terms are all positive, on roots and of sets that aren't empty.
pub fn closes(alloc: Global, problem: &Problem, steps: &[Step]) -> Result<bool, AllocError>
    requires { AreRightAfter problem.now [] steps.now }
    ensures exact { IfOk result (λ b. IsTrue b ↔ ClosesWith problem.now steps.now) }
    ensures none { IfOk result (λ b. IsTrue b → HasNone problem.now) }
{
    let roots = problem.roots();
    match steps.last() {
        Some(step) => {
            let said = step.says(alloc, problem)?;
            Ok(are_root_terms(problem, roots, said.terms()))
        }
        None => Ok(false),
    }
}
