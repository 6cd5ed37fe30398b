//! Forty comparisons of which an odd number holds: 2^39 turns for operations that keep no answer.
ghost use Rattle.std.specs.Prelude.{◌<◌, IfOk};
ghost use Rattle.ul_interner.specs.Known.{Knows};
ghost use Rattle.ul_algebra.specs.Answers.{IsDiagram};

use crate::algebra::texts::diagram_of;
use std::alloc::{AllocError, Global};
use std::sync::Wait;
use std::test::Fail;
use ul_algebra::{Algebra, Diagram, DiagramLabel};
use ul_interner::Interner;
use ul_tree::Tree;

// One diagram without another.
fn without<R: Wait>(
    algebra: &mut Algebra<'_>,
    rt: &R,
    alloc: Global,
    kept: &Diagram,
    taken: &Diagram,
) -> Result<Diagram, AllocError>
    requires kept { IsDiagram algebra.old kept.now }
    requires taken { IsDiagram algebra.old taken.now }
    ensures knows { Knows algebra.old algebra.new }
    ensures diagram { IfOk result (λ d. IsDiagram algebra.new d) }
{
    let others = algebra.not(rt, alloc, taken)?;
    let rest = algebra.and(rt, alloc, kept, &others)?;
    Ok(rest)
}

// Either of two diagrams, and not both.
fn one_of<R: Wait>(
    algebra: &mut Algebra<'_>,
    rt: &R,
    alloc: Global,
    first: &Diagram,
    second: &Diagram,
) -> Result<Diagram, AllocError>
    requires first { IsDiagram algebra.old first.now }
    requires second { IsDiagram algebra.old second.now }
    ensures knows { Knows algebra.old algebra.new }
    ensures diagram { IfOk result (λ d. IsDiagram algebra.new d) }
{
    let first_alone = without(algebra, rt, alloc, first, second)?;
    let second_alone = without(algebra, rt, alloc, second, first)?;
    let either = algebra.or(rt, alloc, &first_alone, &second_alone)?;
    Ok(either)
}

// With one comparison more, by its number.
fn one_more<R: Wait>(
    algebra: &mut Algebra<'_>,
    rt: &R,
    alloc: Global,
    odd: Diagram,
    number: u32,
) -> Result<Diagram, Fail>
    requires { IsDiagram algebra.old odd }
    ensures knows { Knows algebra.old algebra.new }
    ensures diagram { IfOk result (λ d. IsDiagram algebra.new d) }
{
    let text = format!(in alloc; "'k{number}' in os_name")?;
    let comparison = diagram_of(algebra, rt, alloc, text.as_str())?;
    let next = one_of(algebra, rt, alloc, &odd, &comparison)?;
    Ok(next)
}

// Where an odd number of the comparisons 10 to 49 holds, taken forwards or backwards.
fn odd_number<R: Wait>(
    algebra: &mut Algebra<'_>,
    rt: &R,
    alloc: Global,
    backwards: bool,
) -> Result<Diagram, Fail>
    ensures knows { Knows algebra.old algebra.new }
    ensures diagram { IfOk result (λ d. IsDiagram algebra.new d) }
{
    let mut odd = algebra.of_tree(rt, alloc, &Tree::Truth(false))?;
    for step in 0..40 {
        let number = if backwards { 49 - step } else { 10 + step };
        odd = one_more(algebra, rt, alloc, odd, number)?;
    }
    Ok(odd)
}

// Whether both orders give one diagram, which implies itself and not its negation.
fn orders_agree<R: Wait>(algebra: &mut Algebra<'_>, rt: &R, alloc: Global) -> Result<bool, Fail> {
    let forwards = odd_number(algebra, rt, alloc, false)?;
    let even = algebra.not(rt, alloc, &forwards)?;
    let backwards = odd_number(algebra, rt, alloc, true)?;
    if even.id() == backwards.id() || forwards.id() != backwards.id() {
        return Ok(false);
    }
    Ok(algebra.implies(rt, alloc, &even, &even)?)
}

#[test]
fn forty_comparisons_in_both_orders_are_one_diagram(rt: HostRuntime) -> Result<(), Fail> {
    let alloc = rt.alloc();
    let (interner, pass) = Interner::<DiagramLabel>::begin(alloc)?;
    let mut algebra = Algebra::begin(alloc, &interner, pass);
    assert!(rt; orders_agree(&mut algebra, &rt, alloc)?);
    Ok(())
}
