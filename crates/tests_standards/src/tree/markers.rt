//! Trees of markers and of specifiers, as tables.
ghost use Rattle.ul_comparison.specs.Formulas.{IsFormula};
ghost use Rattle.ul_marker.specs.Views.{marker_view};
ghost use Rattle.ul_tree.specs.TreeFacts.{IsTree};

use crate::tree::texts::{tree_count, tree_of, world_of};
use std::alloc::Global;
use tests_rows::{cells, letter};
use ul_marker::{Marker, World};
use ul_specifier::Specifiers;
use ul_tree::{Tree, holds, of_marker, of_python};

// What is wanted of the trees of texts:
// - `alike`: the tree holds as the marker at each interpreter of the grid;
// - `one` and `two`: two markers have one tree, or two;
// - `met`: the tree of a specifier holds where it is met.
const TREES: &str = "alike python_full_version ~= '3.8'\n\
    alike python_full_version == '3.8.*'\n\
    alike python_full_version != '3.9.5'\n\
    alike python_full_version < '3.10'\n\
    alike python_full_version > '3.8.1'\n\
    alike python_version == '3.8.*'\n\
    alike python_version == '3.8.0.1'\n\
    alike python_version > '3.8.1'\n\
    alike python_version <= '3.8'\n\
    alike python_full_version <= '3.8'\n\
    alike python_full_version >= '4294967296'\n\
    alike python_full_version < '4294967296'\n\
    alike python_full_version >= '3.4294967296'\n\
    alike python_full_version <= '3.8.4294967295'\n\
    alike python_full_version > '4294967295.4294967295.4294967295'\n\
    alike python_full_version == '3.8+x'\n\
    alike python_full_version != '3.8+x'\n\
    alike python_full_version >= '3.8rc1'\n\
    alike python_full_version > '3.8.dev1'\n\
    alike python_full_version <= '3.8.post1'\n\
    alike python_full_version == '1!3.8'\n\
    alike python_full_version < '1!3.8'\n\
    alike python_full_version ~= '3.8.1'\n\
    alike python_full_version == '0'\n\
    one python_version > '3.7'|python_full_version >= '3.8'\n\
    one sys_platform == 'a' or sys_platform != 'a'|python_version >= '0'\n\
    one sys_platform == 'a' and sys_platform == 'b'|python_version in ''\n\
    one python_version in '3.9, 3.10'|python_full_version >= '3.9.0' and python_full_version < '3.11.0'\n\
    one python_version not in '3.9'|python_full_version < '3.9' or python_full_version >= '3.10'\n\
    one python_version ~= '3.8'|'3.8' <= python_full_version and '4' > python_full_version\n\
    one python_full_version == '3.8.*' and os_name == 'nt'|os_name == 'nt' and python_version == '3.8'\n\
    one extra == 'A_b' or extra == 'c'|extra == 'c' or (extra == 'a-b' and extra != 'd')\n\
    one extra == 'a b'|python_version < '0'\n\
    one platform_version >= 'x' and 'y' in os_name|not_of 'y' not in os_name or platform_version < 'x'\n\
    one implementation_version == '1' or os_name <= 'm'|not_of implementation_version != '1' and os_name > 'm'\n\
    one not_of os_name == 'nt' or sys_platform == 'linux'|os_name != 'nt' and sys_platform != 'linux'\n\
    one 'x' in extras and 'x' in extras|'x' in extras\n\
    one 'x' in extras and os_name == 'nt'|not_of os_name != 'nt' or 'x' not in extras\n\
    two 'x' in extras|'y' in extras\n\
    two os_name == 'nt' or sys_platform == 'linux'|os_name != 'nt' and sys_platform != 'linux'\n\
    met >=3.8,!=3.9.1,<4";

// Whether an interpreter is from 3.8 on, before 4, and not 3.9.1.
fn is_met(python: (u32, u32, u32)) -> bool {
    let (major, minor, patch) = python;
    major == 3 && minor >= 8 && !(minor == 9 && patch == 1)
}

// Whether a world should be one where a marker's tree holds, or that of the specifier.
fn is_wanted(marker: Option<&Marker>, world: &World) -> bool {
    match marker {
        Some(marker) => marker.holds(world, ""),
        None => is_met(world.python),
    }
}

// Whether a tree holds at the world of an interpreter just where it should.
fn agrees_at(tree: &Tree, marker: Option<&Marker>, world: Option<World>) -> bool
    requires { IsTree tree.now }
{
    match world {
        Some(world) => {
            let agrees = holds(tree, &world, "") == is_wanted(marker, &world);
            drop(world);
            agrees
        }
        None => false,
    }
}

fn number(word: &str) -> u32 {
    word.parse::<u32>().unwrap_or(u32::MAX)
}

fn agrees_in(alloc: Global, tree: &Tree, marker: Option<&Marker>, major: u32, minor: u32) -> bool
    requires { IsTree tree.now }
{
    for patch in "0 1 2 5 6 4294967295".split(' ') {
        let python = (major, minor, number(patch));
        let world = world_of(alloc, python, "a", "b", Vec::new(alloc));
        if !agrees_at(tree, marker, world) {
            return false;
        }
    }
    true
}

// Whether a tree holds where it should, at each interpreter of the grid.
fn agrees(alloc: Global, tree: &Tree, marker: Option<&Marker>) -> bool
    requires { IsTree tree.now }
{
    for major in "0 2 3 4 4294967295".split(' ') {
        for minor in "0 7 8 9 10 4294967295".split(' ') {
            if !agrees_in(alloc, tree, marker, number(major), number(minor)) {
                return false;
            }
        }
    }
    true
}

fn is_alike(alloc: Global, marker: &Marker) -> bool
    requires { IsFormula (marker_view marker.now) }
{
    match of_marker(alloc, marker) {
        Ok(tree) => {
            let alike = agrees(alloc, &tree, Some(marker));
            drop(tree);
            alike
        }
        Err(_) => false,
    }
}

fn holds_alike(alloc: Global, text: &str) -> bool {
    match Marker::read(alloc, text) {
        Ok(marker) => {
            let alike = is_alike(alloc, &marker);
            drop(marker);
            alike
        }
        Err(_) => false,
    }
}

fn agrees_with_met(alloc: Global, specifiers: &Specifiers) -> bool {
    match of_python(alloc, specifiers) {
        Ok(tree) => {
            let met = agrees(alloc, &tree, None);
            drop(tree);
            met
        }
        Err(_) => false,
    }
}

fn holds_where_met(alloc: Global, text: &str) -> bool {
    match Specifiers::read(alloc, text) {
        Ok(specifiers) => {
            let met = agrees_with_met(alloc, &specifiers);
            drop(specifiers);
            met
        }
        Err(_) => false,
    }
}

// How many trees the two texts of a line have.
fn line_count(alloc: Global, line: &str) -> &'static str {
    let (first, second) = cells(line, '|');
    match tree_of(alloc, first) {
        Ok(tree) => {
            let count = tree_count(alloc, &tree, second);
            drop(tree);
            count
        }
        Err(_) => "none",
    }
}

fn is_row(alloc: Global, line: &str) -> bool {
    let (kind, text) = cells(line, ' ');
    match letter(kind) {
        b'a' => holds_alike(alloc, text),
        b'm' => holds_where_met(alloc, text),
        _ => line_count(alloc, text) == kind,
    }
}

#[test]
fn trees_hold_as_their_texts(rt: HostRuntime) {
    for line in TREES.lines() {
        assert!(rt; is_row(rt.alloc(), line), "{line}");
    }
}
