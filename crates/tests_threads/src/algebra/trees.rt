//! The operations on diagrams against those on trees: a thousand random trees, and wide and deep ones.
ghost use Rattle.std.specs.Prelude.{IfOk};
ghost use Rattle.ul_tree.specs.TreeFacts.{IsTree};
ghost use Rattle.ul_algebra.specs.Answers.{IsDiagram};

use crate::algebra::texts::tree_of;
use std::alloc::{AllocError, Global};
use std::sync::Wait;
use std::test::Fail;
use ul_algebra::{Algebra, DEEPEST, Diagram, DiagramLabel};
use ul_interner::Interner;
use ul_tree::part::is_false;
use ul_tree::{Tree, plain_and, plain_at_extra, plain_not, plain_or, plain_simplify};

// What is made of two trees or diagrams.
#[derive(Clone, Copy)]
enum Operation {
    And,
    Or,
    Not,
    AtExtra,
    Simplify,
}

const OPERATIONS: [Operation; 5] = [
    Operation::And,
    Operation::Or,
    Operation::Not,
    Operation::AtExtra,
    Operation::Simplify,
];

// Comparisons of each kind.
const COMPARISONS: [&str; 12] = [
    "extra == 'test'",
    "extra == ''",
    "python_version >= '3.8'",
    "python_full_version < '3.11.2'",
    "python_version == '3.9'",
    "os_name == 'nt'",
    "os_name == 'posix'",
    "sys_platform == 'linux'",
    "platform_machine != 'arm64'",
    "'Ubuntu' in platform_version",
    "'x' in os_name",
    "platform_release < '5.0x'",
];

// The next number of a generator.
fn next(seed: u64) -> u64 {
    seed.wrapping_mul(6364136223846793005)
        .wrapping_add(1442695040888963407)
        .rotate_left(29)
}

// A tree of comparisons, which joins at most so many pairs in each other.
fn random_tree(alloc: Global, seed: u64, depth: u8) -> Result<Tree, Fail>
    ensures { IfOk result IsTree }
{
    if depth == 0 {
        return tree_of(alloc, COMPARISONS[(seed % 12) as usize]);
    }
    let first = random_tree(alloc, next(seed), depth - 1)?;
    let second = random_tree(alloc, next(seed.wrapping_add(depth.into())), depth - 1)?;
    let joined = match seed % 3 {
        0 => plain_and(alloc, &first, &second)?,
        1 => plain_or(alloc, &first, &second)?,
        _ => plain_not(alloc, &first)?,
    };
    Ok(joined)
}

// An operation on trees. Under a false region a tree stays.
fn of_trees(
    alloc: Global,
    operation: Operation,
    first: &Tree,
    second: &Tree,
) -> Result<Tree, AllocError>
    requires first { IsTree first.now }
    requires second { IsTree second.now }
    ensures { IfOk result IsTree }
{
    match operation {
        Operation::And => plain_and(alloc, first, second),
        Operation::Or => plain_or(alloc, first, second),
        Operation::Not => plain_not(alloc, first),
        Operation::AtExtra => plain_at_extra(alloc, first, "test"),
        Operation::Simplify => {
            if is_false(second) {
                return first.copy(alloc);
            }
            let simpler = plain_simplify(alloc, first, second)?;
            Ok(simpler)
        }
    }
}

// The same operation on diagrams.
fn of_diagrams<R: Wait>(
    algebra: &mut Algebra<'_>,
    rt: &R,
    alloc: Global,
    operation: Operation,
    first: &Diagram,
    second: &Diagram,
) -> Result<Diagram, AllocError>
    requires first { IsDiagram algebra.old first.now }
    requires second { IsDiagram algebra.old second.now }
    ensures { IfOk result (λ d. IsDiagram algebra.new d) }
{
    match operation {
        Operation::And => algebra.and(rt, alloc, first, second),
        Operation::Or => algebra.or(rt, alloc, first, second),
        Operation::Not => algebra.not(rt, alloc, first),
        Operation::AtExtra => algebra.at_extra(first, "test"),
        Operation::Simplify => {
            if algebra.is_false(second) {
                return first.share();
            }
            let simpler = algebra.simplify(rt, alloc, first, second)?;
            Ok(simpler)
        }
    }
}

// Whether an operation on the diagrams of two trees gives the diagram of the one on the trees.
fn agrees<R: Wait>(
    algebra: &mut Algebra<'_>,
    rt: &R,
    alloc: Global,
    operation: Operation,
    first: &Tree,
    second: &Tree,
) -> Result<bool, AllocError>
    requires first { IsTree first.now }
    requires second { IsTree second.now }
{
    let one = algebra.of_tree(rt, alloc, first)?;
    let other = algebra.of_tree(rt, alloc, second)?;
    let made = of_diagrams(algebra, rt, alloc, operation, &one, &other)?;
    let found = algebra.tree(alloc, &made)?;
    let want = of_trees(alloc, operation, first, second)?;
    Ok(found.same(&want))
}

// Whether one diagram implies the other exactly where the first tree without the second is false.
fn implication_agrees<R: Wait>(
    algebra: &mut Algebra<'_>,
    rt: &R,
    alloc: Global,
    first: &Tree,
    second: &Tree,
) -> Result<bool, AllocError>
    requires first { IsTree first.now }
    requires second { IsTree second.now }
{
    let one = algebra.of_tree(rt, alloc, first)?;
    let other = algebra.of_tree(rt, alloc, second)?;
    let implied = algebra.implies(rt, alloc, &one, &other)?;
    let not_second = plain_not(alloc, second)?;
    let first_alone = plain_and(alloc, first, &not_second)?;
    Ok(implied == is_false(&first_alone))
}

// Whether all operations on two trees and their diagrams agree.
fn all_agree<R: Wait>(
    algebra: &mut Algebra<'_>,
    rt: &R,
    alloc: Global,
    first: &Tree,
    second: &Tree,
) -> Result<bool, AllocError>
    requires first { IsTree first.now }
    requires second { IsTree second.now }
{
    for operation in OPERATIONS {
        if !agrees(algebra, rt, alloc, operation, first, second)? {
            return Ok(false);
        }
    }
    implication_agrees(algebra, rt, alloc, first, second)
}

// The first seed of so many at whose trees an operation differs.
fn wrong_seed<R: Wait>(
    algebra: &mut Algebra<'_>,
    rt: &R,
    alloc: Global,
    count: u32,
) -> Result<Option<u64>, Fail> {
    let mut seed = 2024;
    for _ in 0..count {
        seed = next(seed);
        let first = random_tree(alloc, seed, 3)?;
        let second = random_tree(alloc, next(seed), 2)?;
        if !all_agree(algebra, rt, alloc, &first, &second)? {
            return Ok(Some(seed));
        }
    }
    Ok(None)
}

// Variables of each level that has keys, and the front of a literal.
const VARIABLES: [(&str, &str); 3] = [
    ("extra", "e"),
    ("python_full_version", "3."),
    ("os_name", "p"),
];

// So many comparisons of a variable, joined by `or`: as many points, or twice as many pieces.
fn wide(alloc: Global, variable: &str, front: &str, from: u32) -> Result<String, Fail> {
    let mut text = String::from_str(alloc, "'x' in os_name")?;
    for step in 0..300 {
        let number = from.wrapping_add(step);
        let more = format!(in alloc; " or {variable} == '{front}{number}'")?;
        text.push_str(more.as_str())?;
    }
    Ok(text)
}

// So many opaque comparisons: as many levels.
fn deep(alloc: Global, count: usize) -> Result<String, Fail> {
    let mut text = String::from_str(alloc, "'0' in os_name")?;
    for number in 1..count {
        let more = format!(in alloc; " or '{number}' in os_name")?;
        text.push_str(more.as_str())?;
    }
    Ok(text)
}

// Whether all operations agree on the trees of two texts.
fn texts_agree<R: Wait>(
    algebra: &mut Algebra<'_>,
    rt: &R,
    alloc: Global,
    first: &str,
    second: &str,
) -> Result<bool, Fail> {
    let first = tree_of(alloc, first)?;
    let second = tree_of(alloc, second)?;
    let agree = all_agree(algebra, rt, alloc, &first, &second)?;
    Ok(agree)
}

#[test]
fn diagrams_are_joined_as_a_thousand_random_trees(rt: HostRuntime) -> Result<(), Fail> {
    let alloc = rt.alloc();
    let (interner, pass) = Interner::<DiagramLabel>::begin(alloc)?;
    let mut algebra = Algebra::begin(alloc, &interner, pass);
    assert_eq!(rt; wrong_seed(&mut algebra, &rt, alloc, 1_000)?, None);
    Ok(())
}

// The first variable at whose wide diagrams an operation differs.
fn wrong_variable<R: Wait>(
    algebra: &mut Algebra<'_>,
    rt: &R,
    alloc: Global,
) -> Result<Option<&'static str>, Fail> {
    for (variable, front) in VARIABLES {
        let first = wide(alloc, variable, front, 0)?;
        let second = wide(alloc, variable, front, 150)?;
        if !texts_agree(algebra, rt, alloc, first.as_str(), second.as_str())? {
            return Ok(Some(variable));
        }
    }
    Ok(None)
}

#[test]
fn wide_and_deep_diagrams_are_joined_as_trees(rt: HostRuntime) -> Result<(), Fail> {
    let alloc = rt.alloc();
    let (interner, pass) = Interner::<DiagramLabel>::begin(alloc)?;
    let mut algebra = Algebra::begin(alloc, &interner, pass);
    assert_eq!(rt; wrong_variable(&mut algebra, &rt, alloc)?, None);
    let whole = deep(alloc, DEEPEST)?;
    let part = deep(alloc, 300)?;
    assert!(rt; texts_agree(&mut algebra, &rt, alloc, whole.as_str(), part.as_str())?);
    let deeper = tree_of(alloc, deep(alloc, DEEPEST + 1)?.as_str())?;
    assert!(rt; algebra.of_tree(&rt, alloc, &deeper).is_err());
    Ok(())
}
