//! Held steps.
ghost use Rattle.std.specs.Prelude.{◌≡◌, ◌≤◌, ◌<◌, ℕ, Some, length, slice_get, take, IfOk};
ghost use Rattle.ul_problem.specs.Steps.{IsStepWithin};
ghost use Rattle.ul_problem.specs.declared.step.Step.{Step};
ghost use Rattle.ul_trail.specs.Parts.{HoldsMore, Stands, Watches};

use crate::standing::Standing;
use crate::watching::Watching;
use std::alloc::{AllocError, Global};
use ul_problem::{Problem, Step};

/// Holds what steps say.
pub fn hold(
    alloc: Global,
    problem: &Problem,
    watching: &mut Watching,
    steps: &[Step],
) -> Result<(), AllocError>
    requires watched { Watches watching.old }
    requires width { length watching.old.rows.items ≡ length problem.now.nodes }
    requires within { (k : ℕ) (s : Step) → slice_get steps.now k ≡ Some s → IsStepWithin problem.now s }
    ensures watched { IfOk result (λ _. Watches watching.new) }
    ensures width { IfOk result (λ _. length watching.new.rows.items ≡ length watching.old.rows.items) }
    ensures terms { IfOk result (λ _. HoldsMore problem.now steps.now watching.old watching.new) }
{
    for step in steps {
        let incompat = step.says(alloc, problem)?;
        watching.push(incompat)?;
    }
    Ok(())
}

/// Takes facts back, down to a count.
pub fn unwind(standing: &mut Standing, count: usize)
    requires standing { Stands standing.old }
    requires count { count ≤ length standing.old.facts.items }
    ensures standing { Stands standing.new }
    ensures facts { standing.new.facts.items ≡ take count standing.old.facts.items }
    ensures sizes { standing.new.sizes.items ≡ standing.old.sizes.items }
{
    while standing.facts.len() > count {
        standing.pop();
    }
}
