//! Machine files and the worlds of machines, as tables.

use crate::marker::texts::{atom, atoms_of, digit, number, repeated};
use std::alloc::Global;
use tests_rows::{cells, letter, put, put_number};
use ul_marker::{Atom, EnvFault, Machine, World, world_of};

// The keys of a machine file, in the order in which they are looked for.
const KEYS: &str =
    "os_name sys_platform platform_machine platform_python_implementation platform_release \
    platform_system platform_version implementation_name implementation_version python_full_version";

// Puts a key with its text.
fn put_entry(text: &mut String, key: &str, version: &str) {
    let value = match key {
        "python_full_version" => version,
        "implementation_version" => "3.10.4rc1",
        "platform_version" => "#1 SMP \\u00e9",
        _ => key,
    };
    put(text, ", \"");
    put(text, key);
    put(text, "\": \"");
    put(text, value);
    put(text, "\"");
}

// A machine file without one of its keys, with this version of Python, and with more behind them.
fn file(alloc: Global, left_out: &str, version: &str, more: &str) -> String {
    let mut text = String::new(alloc);
    put(&mut text, "{\"python_version\": 7, \"more\": [1]");
    for key in KEYS.split(' ') {
        if key != left_out {
            put_entry(&mut text, key, version);
        }
    }
    put(&mut text, more);
    text
}

fn is_interpreter(python: (u32, u32, u32), want: &str) -> bool {
    let (major, rest) = cells(want, ' ');
    let (minor, patch) = cells(rest, ' ');
    number(major) == python.0 as usize
        && number(minor) == python.1 as usize
        && number(patch) == python.2 as usize
}

// Whether a fault is the one of a name; of a missing key that is the key.
fn is_fault(fault: &EnvFault, want: &str) -> bool {
    match fault {
        EnvFault::NotJson => want == "not json",
        EnvFault::Missing(key) => key.as_str() == want,
        EnvFault::PythonForm => want == "form",
        EnvFault::NoMemory => false,
    }
}

// Whether bytes are read as a machine with this version, or refused by this fault.
fn is_told(alloc: Global, bytes: &[u8], want: &str) -> bool {
    match Machine::read(alloc, bytes) {
        Ok(machine) => {
            let is_so = is_interpreter(machine.python, want);
            drop(machine);
            is_so
        }
        Err(fault) => is_fault(&fault, want),
    }
}

// By the letter of the first word, what machine files are read as, or the first fault: files of a version of Python;
// files that miss a key; texts, which are no object or lack the first key; bytes that are no text; and a long file, in
// place of a text of the others. Then whether opaque comparisons hold on a machine, and the comparisons; and that many of
// them stand in order.
const MACHINES: &str = "version|3 12 4|3.12.4\n\
    version|3 0 4294967295|03.0.4294967295\n\
    version|form|3.12\n\
    version|form|3.12.\n\
    version|form|3.12.4294967296\n\
    version|form|3.12.4.1\n\
    version|form|3.12.4rc1\n\
    version|form|3.+12.4\n\
    version|form| 3.12.4\n\
    version|form|\n\
    missed|os_name\n\
    missed|sys_platform\n\
    missed|platform_machine\n\
    missed|platform_python_implementation\n\
    missed|platform_release\n\
    missed|platform_system\n\
    missed|platform_version\n\
    missed|implementation_name\n\
    missed|implementation_version\n\
    missed|python_full_version\n\
    text|not json|\n\
    text|not json|[]\n\
    text|not json|\"os_name\"\n\
    text|not json|null\n\
    text|not json|{\n\
    text|not json|{\"os_name\": 1,}\n\
    text|os_name|{}\n\
    text|os_name|{\"os_name\": \"\", \"os_name\": null}\n\
    bytes|not json\n\
    long|#1 SMP\n\
    compared|1|'name' in os_name\n\
    compared|0|'Name' in os_name\n\
    compared|1|'' in os_name\n\
    compared|1|os_name in 'an os_name'\n\
    compared|0|os_name in 'os_nam'\n\
    compared|0|os_name < 'os_name'\n\
    compared|1|os_name <= 'os_name'\n\
    compared|1|os_name < 'os_namf'\n\
    compared|0|os_name < 'a'\n\
    compared|0|os_name <= 'a'\n\
    compared|1|'3.10' in python_version\n\
    compared|1|'.10' in python_version\n\
    compared|0|'.4' in python_version\n\
    compared|1|'10.4' in python_full_version\n\
    compared|0|'3.10.4.' in python_full_version\n\
    compared|1|implementation_version < '3.10.4'\n\
    compared|0|implementation_version < '3.9'\n\
    compared|1|implementation_version == '3.10.4.RC.1'\n\
    compared|0|implementation_version == '3.10.4'\n\
    compared|1|implementation_version <= '3.10.4c1'\n\
    compared|1|implementation_version < 'x'\n\
    compared|0|implementation_version < '3 or later'\n\
    compared|1|'rc' in implementation_version\n\
    compared|1|implementation_version in '3.10.4rc1 x'\n\
    compared|0|'x' in extras\n\
    compared|0|'posix' not in extras\n\
    compared|1|sys_platform in 'sys_platform'\n\
    compared|0|'q' in platform_version\n\
    ordered";

fn is_version(alloc: Global, version: &str, want: &str) -> bool {
    is_told(alloc, file(alloc, "", version, "}").as_bytes(), want)
}

// A key that has a number, beside a key whose name ends alike.
fn number_entry(alloc: Global, key: &str) -> String {
    let mut text = String::new(alloc);
    put(&mut text, ", \"");
    put(&mut text, key);
    put(&mut text, "\": 1, \"x");
    put(&mut text, key);
    put(&mut text, "\": \"");
    put(&mut text, key);
    put(&mut text, "\"}");
    text
}

// Whether a key is missed in a file without it that has more behind its keys.
fn is_missed(alloc: Global, key: &str, more: &str) -> bool {
    is_told(alloc, file(alloc, key, "3.12", more).as_bytes(), key)
}

// Whether a key is missed where it is left out, and where it has a number.
fn is_missed_twice(alloc: Global, key: &str) -> bool {
    is_missed(alloc, key, "}") && is_missed(alloc, key, number_entry(alloc, key).as_str())
}

// Whether the text of the platform's version alone is long.
fn has_long_text(machine: &Machine) -> bool {
    for (place, text) in machine.texts.iter().enumerate() {
        if (text.len() > 20_000) != (place == 6) {
            return false;
        }
    }
    machine.texts.len() == 8 && machine.implementation_version.as_str() == "3.10.4rc1"
}

fn has_long(alloc: Global, bytes: &[u8]) -> bool {
    match Machine::read(alloc, bytes) {
        Ok(machine) => {
            let is_long = has_long_text(&machine);
            drop(machine);
            is_long
        }
        Err(_) => false,
    }
}

// Whether a file with 10,000 times `ab` in place of a text is read.
fn is_long_read(alloc: Global, replaced: &str) -> bool {
    let long = repeated(alloc, 10_000, "ab");
    let text = file(alloc, "", "3.12.4", "}");
    match text.replace(alloc, replaced, long.as_str()) {
        Ok(text) => has_long(alloc, text.as_bytes()),
        Err(_) => false,
    }
}

fn world(alloc: Global, atoms: &Vec<Atom>) -> Option<World> {
    match Machine::read(alloc, file(alloc, "", "3.10.4", "}").as_bytes()) {
        Ok(machine) => world_of(alloc, &machine, atoms).ok(),
        Err(_) => None,
    }
}

// The comparisons `os_name < 'ptN'` for 300 numbers, each twice, in disorder, and one that isn't opaque.
fn many_text(alloc: Global) -> String {
    let mut text = String::new(alloc);
    for turn in 0..600u64 {
        put(&mut text, "os_name < 'pt");
        put_number(&mut text, (turn * 7) % 300);
        put(&mut text, "' or ");
    }
    put(&mut text, "extra == ''");
    text
}

fn has_all(world: &World, atoms: &[Atom]) -> bool {
    for atom in atoms {
        if !world.has(atom) {
            return false;
        }
    }
    true
}

fn are_in_order(truths: &[Atom]) -> bool {
    for (number, atom) in truths.iter().enumerate() {
        if let Some(next) = truths.get(number + 1) {
            if !atom.cmp(next).is_lt() {
                return false;
            }
        }
    }
    true
}

// Whether a comparison that isn't asked for holds at a world.
fn has_other(alloc: Global, world: &World) -> bool {
    match atom(alloc, "os_name below a") {
        Some(other) => world.has(&other),
        None => true,
    }
}

// Whether a world has 300 comparisons in order: these, and not another one.
fn is_of_many(alloc: Global, world: &World, atoms: &[Atom]) -> bool {
    atoms.len() == 600
        && world.truths.len() == 300
        && world.python == (3, 10, 4)
        && !has_other(alloc, world)
        && has_all(world, atoms)
        && are_in_order(&world.truths)
}

// Whether a comparison holds at a world as a digit says, or many do in order.
fn is_held(alloc: Global, world: &World, atoms: &[Atom], want: &str) -> bool {
    if want == "many" {
        return is_of_many(alloc, world, atoms);
    }
    atoms.len() == 1 && digit(!world.truths.is_empty()) == want
}

fn are_held(alloc: Global, atoms: &Vec<Atom>, want: &str) -> bool {
    match world(alloc, atoms) {
        Some(world) => {
            let is_held = is_held(alloc, &world, atoms, want);
            drop(world);
            is_held
        }
        None => false,
    }
}

fn is_compared(alloc: Global, text: &str, want: &str) -> bool {
    match atoms_of(alloc, text) {
        Some(atoms) => are_held(alloc, &atoms, want),
        None => false,
    }
}

fn is_row(alloc: Global, line: &str) -> bool {
    let (kind, rest) = cells(line, '|');
    let (want, text) = cells(rest, '|');
    match letter(kind) {
        b'v' => is_version(alloc, text, want),
        b'm' => is_missed_twice(alloc, want),
        b't' => is_told(alloc, text.as_bytes(), want),
        b'b' => is_told(alloc, b"{\"os_name\": \"\xff\"}", want),
        b'l' => is_long_read(alloc, want),
        b'o' => is_compared(alloc, many_text(alloc).as_str(), "many"),
        _ => is_compared(alloc, text, want),
    }
}

#[test]
fn files_and_worlds_of_machines(rt: HostRuntime) {
    for line in MACHINES.split('\n') {
        assert!(rt; is_row(rt.alloc(), line), "{line}");
    }
}
