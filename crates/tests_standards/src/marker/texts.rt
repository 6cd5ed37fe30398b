//! What the lines of the tests' tables say. Functions answer `None`, or what no line wants, for want of memory.

use std::alloc::Global;
use tests_rows::{cells, letter, put, put_number};
use ul_marker::{Atom, AtomKind, Machine, Marker, Variable, World};

const VARIABLES: [Variable; 12] = [
    Variable::OsName,
    Variable::SysPlatform,
    Variable::PlatformMachine,
    Variable::PlatformPythonImplementation,
    Variable::PlatformRelease,
    Variable::PlatformSystem,
    Variable::PlatformVersion,
    Variable::PythonVersion,
    Variable::PythonFullVersion,
    Variable::ImplementationName,
    Variable::ImplementationVersion,
    Variable::Extras,
];

pub(crate) fn digit(holds: bool) -> &'static str {
    if holds { "1" } else { "0" }
}

/// Two pieces of text with a number between them, for so many numbers from 0 on.
pub(crate) fn numbered(alloc: Global, count: u64, before: &str, after: &str) -> String {
    let mut text = String::new(alloc);
    for number in 0..count {
        put(&mut text, before);
        put_number(&mut text, number);
        put(&mut text, after);
    }
    text
}

/// A text so many times.
pub(crate) fn repeated(alloc: Global, count: usize, piece: &str) -> String {
    let mut text = String::new(alloc);
    for _ in 0..count {
        put(&mut text, piece);
    }
    text
}

/// The number that digits are.
pub(crate) fn number(digits: &str) -> usize {
    digits.parse::<usize>().unwrap_or(usize::MAX)
}

/// The variable of a name.
pub(crate) fn variable(name: &str) -> Variable {
    for variable in VARIABLES {
        if variable.name() == name {
            return variable;
        }
    }
    Variable::OsName
}

// The kind of a name, by its letter.
fn kind(word: &str) -> AtomKind {
    match letter(word) {
        b'c' => AtomKind::Contains,
        b'w' => AtomKind::Within,
        b'b' => AtomKind::Below,
        b'a' => AtomKind::AtMost,
        _ => AtomKind::Same,
    }
}

/// The comparison `VARIABLE KIND LITERAL`, where it is one.
pub(crate) fn atom(alloc: Global, text: &str) -> Option<Atom> {
    let (name, rest) = cells(text, ' ');
    let (word, literal) = cells(rest, ' ');
    match String::from_str(alloc, literal) {
        Ok(literal) => Atom::of(variable(name), kind(word), literal),
        Err(_) => None,
    }
}

/// The opaque comparisons of a marker's text, which may have `extras`, in its order.
pub(crate) fn atoms_of(alloc: Global, text: &str) -> Option<Vec<Atom>> {
    match Marker::read_printed(alloc, text) {
        Ok(marker) => {
            let atoms = marker.atoms(alloc).ok();
            drop(marker);
            atoms
        }
        Err(_) => None,
    }
}

/// The world of a machine's file, where the opaque comparisons of a marker hold, where it is one.
pub(crate) fn world(alloc: Global, file: &str, marker: &str) -> Option<World> {
    let truths = atoms_of(alloc, marker)?;
    match Machine::read(alloc, file.as_bytes()) {
        Ok(machine) => World::of(machine.python, machine.texts, truths),
        Err(_) => None,
    }
}

// How many parts a marker has that is a choice.
fn part_count(marker: &Marker) -> usize {
    match marker {
        Marker::Any(parts) => parts.len(),
        _ => 0,
    }
}

/// How many parts the marker of a text has that is a choice.
pub(crate) fn parts(alloc: Global, text: &str) -> usize {
    match Marker::read(alloc, text) {
        Ok(marker) => {
            let count = part_count(&marker);
            drop(marker);
            count
        }
        Err(_) => 0,
    }
}
