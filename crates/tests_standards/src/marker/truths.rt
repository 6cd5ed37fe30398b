//! Truths of markers at worlds, the order of atoms, and the texts of a world, as tables.

use crate::marker::texts::{atom, digit, number, numbered, variable, world};
use crate::marker::worlds::{holds_at, worlds};
use std::alloc::Global;
use tests_rows::{cells, letter, put};
use ul_marker::{Atom, Marker, World, meets_python};
use ul_specifier::{Clause, Op};

// The files of three machines, and behind each the opaque comparisons that hold at its world; at the last none does.
const MACHINES: &str = "\
    {\"os_name\": \"posix\", \"sys_platform\": \"linux\", \"platform_machine\": \"x86_64\", \
    \"platform_python_implementation\": \"CPython\", \"platform_release\": \"6.1.0\", \"platform_system\": \"Linux\", \
    \"platform_version\": \"#1 SMP\", \"implementation_name\": \"cpython\", \
    \"implementation_version\": \"3.8.5\", \"python_full_version\": \"3.8.5\"}|\
    'n' in os_name and implementation_version == '3.8.5';\
    {\"os_name\": \"nt\", \"sys_platform\": \"win32\", \"platform_machine\": \"AMD64\", \
    \"platform_python_implementation\": \"CPython\", \"platform_release\": \"10\", \"platform_system\": \"Windows\", \
    \"platform_version\": \"10.0.19045\", \"implementation_name\": \"cpython\", \
    \"implementation_version\": \"3.10.0\", \"python_full_version\": \"3.10.0\"}|\
    'n' in os_name;\
    {\"os_name\": \"posix\", \"sys_platform\": \"darwin\", \"platform_machine\": \"arm64\", \
    \"platform_python_implementation\": \"PyPy\", \"platform_release\": \"22.6.0\", \"platform_system\": \"Darwin\", \
    \"platform_version\": \"Darwin Kernel\", \"implementation_name\": \"pypy\", \
    \"implementation_version\": \"7.3.9\", \"python_full_version\": \"2.7.18\"}|\
    os_name == 'posix'";

// Where a marker holds at the worlds of these machines: without an extra, and with the extra `test`; how many opaque
// comparisons stand in it, and whether it asks for an extra; and the marker.
const MARKERS: &str = "000 111 0 1|extra == 'test'\n\
    111 000 0 1|extra != 'test'\n\
    111 000 0 1|extra == ''\n\
    000 000 0 1|extra == 'te st'\n\
    100 100 0 0|python_version == '3.8'\n\
    000 000 0 0|python_full_version == '3.8'\n\
    100 100 0 0|python_full_version == '3.8.*'\n\
    010 010 0 0|python_version >= '3.9'\n\
    001 001 0 0|python_full_version < '3.8.5'\n\
    011 011 0 0|python_version in '2.7 3.10'\n\
    010 010 0 0|python_full_version in '2.7 3.10'\n\
    100 100 0 0|python_version not in '2.7 3.10'\n\
    000 000 0 0|python_version in ''\n\
    111 111 0 0|python_full_version not in ''\n\
    101 101 0 0|os_name == 'posix'\n\
    110 110 0 0|implementation_name != 'pypy'\n\
    110 110 1 0|'n' in os_name\n\
    001 001 1 0|'n' not in os_name\n\
    000 000 1 0|os_name in 'n'\n\
    100 000 0 1|extra == '' and sys_platform == 'linux'\n\
    111 100 0 1|extra == '' or sys_platform == 'linux'\n\
    000 100 0 1|extra == 'test' and sys_platform == 'linux'\n\
    100 111 0 1|extra == 'test' or sys_platform == 'linux'\n\
    000 000 0 1|extra == 'test' and sys_platform == 'plan9'\n\
    000 111 0 1|extra == 'test' or sys_platform == 'plan9'\n\
    000 000 0 0|python_version >= '3.8' and os_name == 'a'\n\
    000 000 0 1|extra == 'a'\n\
    111 111 1 1|'a' in os_name or extra != 'b'\n\
    000 000 3 0|('a' in os_name or os_name < 'b') and ('a' in os_name or python_full_version in '3.8.1, 3.9')\n\
    000 000 1 1|implementation_version == '3' and (python_version in '3.8 2' or \
    (extra == '' and sys_platform == 'b'))\n\
    111 111 0 0|conjunction of nothing\n\
    000 000 0 0|disjunction of nothing\n\
    110 110 300 1|a long marker";

// A list of versions, and a choice of comparisons, with 300 numbers each.
fn long_text(alloc: Global) -> String {
    let versions = numbered(alloc, 300, ",3.", "");
    let choices = numbered(alloc, 300, " or ('a", "' in os_name and extra == 'x')");
    let mut text = String::new(alloc);
    put(&mut text, "python_version in '2");
    put(&mut text, versions.as_str());
    put(&mut text, "'");
    put(&mut text, choices.as_str());
    text
}

// The marker of a text, or one that the table names; no other text begins with these letters.
fn marker_of(alloc: Global, text: &str) -> Option<Marker> {
    match letter(text) {
        b'c' => Some(Marker::All(Vec::new(alloc))),
        b'd' => Some(Marker::Any(Vec::new(alloc))),
        b'a' => Marker::read(alloc, long_text(alloc).as_str()).ok(),
        _ => Marker::read(alloc, text).ok(),
    }
}

fn holds(alloc: Global, marker: &Marker, alone: &str, with_test: &str) -> bool {
    let worlds = worlds(alloc, MACHINES);
    let worlds = worlds.as_slice();
    holds_at(worlds, "", marker, alone) && holds_at(worlds, "test", marker, with_test)
}

fn has_count(alloc: Global, marker: &Marker, count: &str) -> bool {
    match marker.atoms(alloc) {
        Ok(atoms) => number(count) == atoms.len(),
        Err(_) => false,
    }
}

// Whether a marker is what the front of a row says.
fn is_told(alloc: Global, marker: &Marker, facts: &str) -> bool {
    let (alone, facts) = cells(facts, ' ');
    let (with_test, facts) = cells(facts, ' ');
    let (count, asks) = cells(facts, ' ');
    digit(marker.asks_extra()) == asks
        && has_count(alloc, marker, count)
        && holds(alloc, marker, alone, with_test)
}

// Whether a marker and its copy are so.
fn is_copied(alloc: Global, marker: &Marker, facts: &str) -> bool {
    match marker.copy(alloc) {
        Ok(copy) => {
            let told = is_told(alloc, marker, facts) && is_told(alloc, &copy, facts);
            drop(copy);
            told
        }
        Err(_) => false,
    }
}

// Comparisons, and their places in the order.
const ORDERED: &str = "0 os_name contains \n\
    1 os_name contains a\n\
    2 os_name contains a a\n\
    3 os_name contains b\n\
    4 os_name within a\n\
    5 os_name below a\n\
    6 os_name at_most a\n\
    7 sys_platform below B\n\
    8 sys_platform below a\n\
    9 platform_version contains a\n\
    10 python_version contains a\n\
    11 python_full_version contains 3.\n\
    12 implementation_name contains a\n\
    13 implementation_version at_most a\n\
    14 implementation_version same a\n\
    15 extras contains a\n\
    16 extras contains a-b";

// Whether a comparison stands at a place among all.
fn stands_at(alloc: Global, place: usize, atom_here: &Atom) -> bool {
    for line in ORDERED.lines() {
        let (other, text) = cells(line, ' ');
        match atom(alloc, text) {
            Some(second) => {
                let order = atom_here.cmp(&second);
                drop(second);
                if order != place.cmp(&number(other)) {
                    return false;
                }
            }
            None => return false,
        }
    }
    true
}

// Whether the copy of a comparison stands there.
fn is_copy_placed(alloc: Global, place: &str, atom: &Atom) -> bool {
    match atom.copy(alloc) {
        Ok(copy) => stands_at(alloc, number(place), &copy),
        Err(_) => false,
    }
}

fn is_placed(alloc: Global, place: &str, text: &str) -> bool {
    match atom(alloc, text) {
        Some(atom) => is_copy_placed(alloc, place, &atom),
        None => false,
    }
}

// What is checked, by the letter of the first word:
// - `atom`: whether a comparison is one;
// - `world`: whether the first machine has a world where the opaque comparisons of a marker hold, in its order;
// - `bare`: whether there is a world without texts;
// - `compatible`: whether 3.10.0 meets the clause `~=` of a version by its minor version, and 4.0.0 doesn't;
// - `text`: the text of a variable at the first machine's world.
const CHECKED: &str = "atom 1 python_version contains ~ '\n\
    atom 0 python_version within a\n\
    atom 0 os_name same a\n\
    atom 1 implementation_version below \"\n\
    atom 1 extras contains dev-tools\n\
    atom 0 extras contains Dev\n\
    atom 0 extras contains a.b\n\
    atom 0 extras contains \n\
    atom 0 extras within x\n\
    atom 0 extras same x\n\
    atom 0 os_name below '\"\n\
    atom 0 os_name below a\\b\n\
    atom 0 os_name below \u{7f}\n\
    atom 0 os_name below a\tb\n\
    world 1 os_name < 'a' or os_name < 'b'\n\
    world 0 os_name < 'b' or os_name < 'a'\n\
    world 0 os_name < 'a' or os_name < 'a'\n\
    bare 0 \n\
    compatible 1 3.7\n\
    text os_name posix\n\
    text sys_platform linux\n\
    text platform_machine x86_64\n\
    text platform_python_implementation CPython\n\
    text platform_release 6.1.0\n\
    text platform_system Linux\n\
    text platform_version #1 SMP\n\
    text implementation_name cpython\n\
    text python_version \n\
    text implementation_version ";

// The world of the first machine where the opaque comparisons of a marker hold.
fn first_world(alloc: Global, marker: &str) -> Option<World> {
    world(alloc, cells(MACHINES, '|').0, marker)
}

fn is_named(alloc: Global, name: &str, want: &str) -> bool {
    match first_world(alloc, "os_name == 'posix'") {
        Some(world) => {
            let is_named = world.text(variable(name)) == want;
            drop(world);
            is_named
        }
        None => false,
    }
}

// Whether there is a world without texts.
fn is_bare_world(alloc: Global) -> bool {
    World::of((3, 8, 5), Vec::new(alloc), Vec::new(alloc)).is_some()
}

fn is_compatible(alloc: Global, version: &str) -> bool {
    match Clause::read(alloc, Op::Compatible, version) {
        Ok(clause) => {
            meets_python(&clause, false, (3, 10, 0)) && !meets_python(&clause, true, (4, 0, 0))
        }
        Err(_) => false,
    }
}

fn is_atom(alloc: Global, text: &str) -> bool {
    atom(alloc, text).is_some()
}

fn is_world(alloc: Global, marker: &str) -> bool {
    first_world(alloc, marker).is_some()
}

fn is_checked(alloc: Global, line: &str) -> bool {
    let (kind, rest) = cells(line, ' ');
    let (want, text) = cells(rest, ' ');
    let holds = letter(want) == b'1';
    match letter(kind) {
        b'a' => is_atom(alloc, text) == holds,
        b'w' => is_world(alloc, text) == holds,
        b'b' => is_bare_world(alloc) == holds,
        b'c' => is_compatible(alloc, text) == holds,
        b't' => is_named(alloc, want, text),
        _ => is_placed(alloc, kind, rest),
    }
}

fn is_row(alloc: Global, line: &str) -> bool {
    let (facts, text) = cells(line, '|');
    if text.is_empty() {
        return is_checked(alloc, line);
    }
    match marker_of(alloc, text) {
        Some(marker) => {
            let is_copied = is_copied(alloc, &marker, facts);
            drop(marker);
            is_copied
        }
        None => false,
    }
}

#[test]
fn markers_atoms_and_worlds_are_as_defined(rt: HostRuntime) {
    for table in [MARKERS, ORDERED, CHECKED] {
        for line in table.lines() {
            assert!(rt; is_row(rt.alloc(), line), "{line}");
        }
    }
}
