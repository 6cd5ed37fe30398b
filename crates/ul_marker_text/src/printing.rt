//! The paths of a tree, as a text.
ghost use Rattle.std.specs.Prelude.{◌≡◌, ◌++◌, ◌∷◌, [], OnOk, IfOk, Some, false, true, codes, string_bytes};
ghost use Rattle.ul_comparison.specs.Atoms.{text_number};
ghost use Rattle.ul_comparison.specs.Printed.{bound, IsWritten};
ghost use Rattle.ul_nodes.specs.Apply.{keys};
ghost use Rattle.ul_tree.specs.Comparisons.{lower, upper};
ghost use Rattle.ul_nodes.specs.Keys.{level_view, key_view, has_kind, is_number_key, top_of, branches_of};
ghost use Rattle.ul_nodes.specs.Levels.{python_level};
ghost use Rattle.ul_tree.specs.PathList.{interval, point, longer_paths, paths_to_true};
ghost use Rattle.ul_tree.specs.Pieces.{major_of, minor_of, patch_of};
ghost use Rattle.ul_nodes.specs.Plain.{carries};
ghost use Rattle.ul_tree.specs.TreeFacts.{IsTree};
ghost use Rattle.ul_tree.specs.Views.{tree_view};
ghost use Rattle.ul_marker_text.specs.MarkerText as spec;
ghost use Rattle.ul_marker_text.specs.MarkerText.{key_comparison};
ghost use Rattle.ul_marker_text.specs.Printing.{separated_text, and_joined, others_joined, paths_behind, IsAdded};

use std::alloc::{AllocError, Global};
use ul_marker::Variable;
use ul_marker::printed::{push_atom, push_bound, push_extra, push_text};
use ul_nodes::level::{Key, Level};
use ul_tree::Tree;
use ul_tree::part::{branch_at, branch_count, is_false, known, level_of, rest_of};

// One above the greatest number that an interpreter's numbers may have.
const WIDE: u128 = 1 << 32;

/// One above the greatest interpreter.
pub const END: u128 = 1 << 96;

// A text behind others, with the separator between where others stand.
fn push_joined(out: &mut String, separator: &str, text: &str) -> Result<(), AllocError>
    ensures { OnOk result (string_bytes out.new ≡ separated_text separator.now (string_bytes out.old) text.now) }
{
    if out.is_empty() {
        return out.push_str(text);
    }
    out.push_str(separator)?;
    out.push_str(text)
}

// The three numbers of an interpreter, by its number.
fn interpreter(number: u128) -> (u32, u32, u32)
    ensures major { result.0 ≡ major_of number }
    ensures minor { result.1 ≡ minor_of number }
    ensures patch { result.2 ≡ patch_of number }
{
    (
        (number / WIDE / WIDE % WIDE) as u32,
        (number / WIDE % WIDE) as u32,
        (number % WIDE) as u32,
    )
}

// The text variable of a variable's place among the eight.
fn text_variable(variable: Variable) -> Variable
    ensures { result ≡ spec.text_variable (text_number variable) }
{
    match variable {
        Variable::OsName => Variable::OsName,
        Variable::SysPlatform => Variable::SysPlatform,
        Variable::PlatformMachine => Variable::PlatformMachine,
        Variable::PlatformPythonImplementation => Variable::PlatformPythonImplementation,
        Variable::PlatformRelease => Variable::PlatformRelease,
        Variable::PlatformSystem => Variable::PlatformSystem,
        Variable::PlatformVersion => Variable::PlatformVersion,
        Variable::ImplementationName
        | Variable::PythonVersion
        | Variable::PythonFullVersion
        | Variable::ImplementationVersion
        | Variable::Extras => Variable::ImplementationName,
    }
}

// That a level has a key, or another.
fn push_key(out: &mut String, level: Level<'_>, key: Key<'_>, equal: bool) -> Result<(), AllocError>
    requires kind { has_kind (level_view level) key ≡ true }
    requires points { carries (level_view level) ≡ false }
    ensures { OnOk result (IsWritten (string_bytes out.old) (key_comparison equal (level_view level.entry)
        (key_view key.entry)) (string_bytes out.new)) }
{
    match level {
        Level::Extra => match key {
            Key::Literal(text) => push_extra(out, text, equal),
            Key::Number(_) => unreachable!(),
            Key::Holds => unreachable!(),
        },
        Level::Python => unreachable!(),
        Level::Text(variable) => match key {
            Key::Literal(text) => push_text(out, text_variable(variable), text, equal),
            Key::Number(_) => unreachable!(),
            Key::Holds => unreachable!(),
        },
        Level::Opaque(atom) => push_atom(out, atom, equal),
    }
}

// The same, behind the comparisons that stand already.
fn add_key(out: &mut String, level: Level<'_>, key: Key<'_>, equal: bool) -> Result<(), AllocError>
    requires kind { has_kind (level_view level) key ≡ true }
    requires points { carries (level_view level) ≡ false }
    ensures { OnOk result (IsAdded (string_bytes out.old) (key_comparison equal (level_view level.entry)
        (key_view key.entry)) (string_bytes out.new)) }
{
    if out.is_empty() {
        return push_key(out, level, key, equal);
    }
    out.push_str(" and ")?;
    push_key(out, level, key, equal)
}

// That the interpreter is at least a number, or below it, behind the comparisons that stand already.
fn add_bound(out: &mut String, at_least: bool, number: u128) -> Result<(), AllocError>
    ensures { OnOk result (IsAdded (string_bytes out.old) (bound at_least (major_of number) (minor_of number)
        (patch_of number)) (string_bytes out.new)) }
{
    let python = interpreter(number);
    if out.is_empty() {
        return push_bound(out, at_least, python);
    }
    out.push_str(" and ")?;
    push_bound(out, at_least, python)
}

// Where a piece starts, unless it starts at the first interpreter.
fn add_lower(out: &mut String, start: u128) -> Result<(), AllocError>
    ensures { OnOk result (string_bytes out.new ≡ and_joined (string_bytes out.old) (lower start)) }
{
    if start == 0 {
        return Ok(());
    }
    add_bound(out, true, start)
}

// Where a piece ends, unless it reaches up to the last interpreter.
fn add_upper(out: &mut String, end: u128) -> Result<(), AllocError>
    ensures { OnOk result (string_bytes out.new ≡ and_joined (string_bytes out.old) (upper end)) }
{
    if end == END {
        return Ok(());
    }
    add_bound(out, false, end)
}

// A piece of the interpreter, with the paths of its part.
#[cycle(print)]
fn print_piece(
    alloc: Global,
    out: &mut String,
    prefix: &str,
    start: u128,
    end: u128,
    part: &Tree,
) -> Result<(), AllocError>
    requires { IsTree part.now }
    ensures { OnOk result (string_bytes out.new
        ≡ paths_behind (string_bytes out.old) prefix.now
        (longer_paths (interval start end) (paths_to_true (tree_view part.now)))) }
{
    if is_false(part) {
        return Ok(());
    }
    let mut next = String::from_str(alloc, prefix)?;
    add_lower(&mut next, start)?;
    add_upper(&mut next, end)?;
    print(alloc, out, next.as_str(), part)
}

// A point, with the paths of its part.
#[cycle(print)]
fn print_point(
    alloc: Global,
    out: &mut String,
    prefix: &str,
    level: Level<'_>,
    key: Key<'_>,
    part: &Tree,
) -> Result<(), AllocError>
    requires kind { has_kind (level_view level) key ≡ true }
    requires points { carries (level_view level) ≡ false }
    requires reduced { IsTree part.now }
    ensures { OnOk result (string_bytes out.new
        ≡ paths_behind (string_bytes out.old) prefix.now (longer_paths
        (point (level_view level.entry) (key_view key.entry)) (paths_to_true (tree_view part.now)))) }
{
    if is_false(part) {
        return Ok(());
    }
    let mut next = String::from_str(alloc, prefix)?;
    add_key(&mut next, level, key, true)?;
    print(alloc, out, next.as_str(), part)
}

// The comparisons of a node's other part, behind those that stand already.
fn other_prefix(
    alloc: Global,
    prefix: &str,
    level: Level<'_>,
    tree: &Tree,
) -> Result<String, AllocError>
    requires top { top_of (tree_view tree.now) ≡ Some (level_view level) }
    requires points { carries (level_view level) ≡ false }
    requires reduced { IsTree tree.now }
    ensures { IfOk result (λ s. string_bytes s
        ≡ others_joined (level_view level.entry) prefix.now (keys (branches_of (tree_view tree.now)))) }
{
    let mut next = String::from_str(alloc, prefix)?;
    for index in 0..branch_count(tree) {
        add_key(&mut next, level, branch_at(tree, index).key, false)?;
    }
    Ok(next)
}

// The paths of a node of points.
#[cycle(print)]
fn print_points(
    alloc: Global,
    out: &mut String,
    prefix: &str,
    level: Level<'_>,
    tree: &Tree,
) -> Result<(), AllocError>
    requires top { top_of (tree_view tree.now) ≡ Some (level_view level) }
    requires points { carries (level_view level) ≡ false }
    requires reduced { IsTree tree.now }
    ensures { OnOk result (string_bytes out.new
        ≡ paths_behind (string_bytes out.old) prefix.now (paths_to_true (tree_view tree.now))) }
{
    for index in 0..branch_count(tree) {
        let branch = branch_at(tree, index);
        print_point(alloc, out, prefix, level, branch.key, branch.part)?;
    }
    let rest = rest_of(tree);
    if is_false(rest) {
        return Ok(());
    }
    let next = other_prefix(alloc, prefix, level, tree)?;
    print(alloc, out, next.as_str(), rest)
}

// The number of a piece's key.
fn number_of(key: Key<'_>) -> u128
    requires { is_number_key key ≡ true }
    ensures { key_view key.entry ≡ result ∷ [] }
{
    match key {
        Key::Literal(_) => unreachable!(),
        Key::Number(number) => number,
        Key::Holds => unreachable!(),
    }
}

// The paths of a node of the interpreter.
#[cycle(print)]
fn print_pieces(
    alloc: Global,
    out: &mut String,
    prefix: &str,
    tree: &Tree,
) -> Result<(), AllocError>
    requires top { top_of (tree_view tree.now) ≡ Some python_level }
    requires reduced { IsTree tree.now }
    ensures { OnOk result (string_bytes out.new
        ≡ paths_behind (string_bytes out.old) prefix.now (paths_to_true (tree_view tree.now))) }
{
    let mut start = 0u128;
    let mut part = rest_of(tree);
    for index in 0..branch_count(tree) {
        let branch = branch_at(tree, index);
        let end = number_of(branch.key);
        print_piece(alloc, out, prefix, start, end, part)?;
        start = end;
        part = branch.part;
    }
    print_piece(alloc, out, prefix, start, END, part)
}

/// Writes the paths of a tree behind others, where the first comparisons of each stand already.
#[cycle(print)]
pub fn print(alloc: Global, out: &mut String, prefix: &str, tree: &Tree) -> Result<(), AllocError>
    requires { IsTree tree.now }
    ensures { OnOk result (string_bytes out.new
        ≡ paths_behind (string_bytes out.old) prefix.now (paths_to_true (tree_view tree.now))) }
{
    match level_of(tree) {
        None => {
            if known(tree) {
                return push_joined(out, " or ", prefix);
            }
            Ok(())
        }
        Some(level) => {
            if level.is_carried() {
                return print_pieces(alloc, out, prefix, tree);
            }
            print_points(alloc, out, prefix, level, tree)
        }
    }
}
