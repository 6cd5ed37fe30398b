//! What locks give on machines.
//!
//! A row has a lock's name, the machine's interpreter, its `sys_platform` and its `platform_version`, the extras, or
//! `-`, and the text, in which `~` is the end of a line; or `outside`, or `extra` and the first extra that the root
//! doesn't have.

ghost use Rattle.ul_lock.specs.WellFormed.{IsWellFormed};

use crate::lock::sizes::chain;
use crate::lock::texts::text_named;
use std::alloc::Global;
use std::fmt::Write;
use tests_rows::{cells, put};
use ul_base::Name;
use ul_filter::{WalkFault, atoms, environment, environment_text, walk};
use ul_lock::Lock;
use ul_lock_read::read;
use ul_marker::{Atom, EnvFault, Machine, World, world_of};

const ROWS: &str = "leaves 3.8.18 linux 7 - outside
leaves 3.10.4 linux 7 - numpy==1.26~
leaves 3.11.0 linux 7 - numpy==2.1~
leaves 3.10.4 linux 7 gpu extra gpu
leaves 3.8.18 linux 7 gpu outside
extras 3.12.0 linux 7 - p[none,x]==1~q==1~
cycle 3.12.0 linux 7 - a==1~b==1~
cycle 3.7.9 linux 7 - a==1~b==1~
asking 3.12.0 linux 7 - a==1~b==1~
asking 3.12.0 linux2 7 - a==1~
asking 3.12.0 win32 7 -
asking 3.12.0 linux2 7 more a==1~b==1~q[x]==2~
asking 3.12.0 linux2 #6 more a==1~
asking 3.12.0 linux2 #6 more,less,least extra less
files 3.12.0 linux 7 - a[none]==1~
files 3.12.0 win32 7 - a[none,x]==1~b==2~
empty 3.12.0 linux 7 -
platforms 3.12.3 linux 7 dev fastapi==0.110.0~iniconfig==2.0.0~numpy==2.1.0~pytest==8.1.1~starlette==0.36.3~typing-extensions==4.10.0~
platforms 3.12.3 linux 7 - fastapi==0.110.0~numpy==2.1.0~starlette==0.36.3~typing-extensions==4.10.0~
platforms 3.9.0 win32 7 - colorama==0.4.6~fastapi==0.110.0~numpy==1.26.4~starlette==0.36.3~typing-extensions==4.10.0~";

// The keys of a machine's file.
const KEYS: &str =
    "os_name sys_platform platform_machine platform_python_implementation platform_release \
    platform_system platform_version implementation_name implementation_version";

// A machine of three texts; its other texts are empty, but for the implementation's. Of a repeated key the last counts.
fn machine(
    alloc: Global,
    python: &str,
    platform: &str,
    version: &str,
) -> Result<Machine, EnvFault> {
    let mut file = String::new(alloc);
    put(&mut file, "{");
    for key in KEYS.split(' ') {
        let _ = write!(file, "\"{key}\":\"\",");
    }
    let _ = write!(
        file,
        "\"sys_platform\":\"{platform}\",\"platform_version\":\"{version}\",\
        \"python_full_version\":\"{python}\",\"platform_python_implementation\":\"CPython\",\
        \"implementation_version\":\"3\"}}"
    );
    Machine::read(alloc, file.as_bytes())
}

// The names of a cell between commas. What is no name, as `-`, is left out.
fn names(alloc: Global, cell: &str) -> Vec<Name> {
    let mut names = Vec::new(alloc);
    for word in cell.split(',') {
        if let Ok(name) = Name::read(alloc, word) {
            let _ = names.push(name);
        }
    }
    names
}

fn is_fault(fault: &WalkFault, want: &str) -> bool {
    match fault {
        WalkFault::Outside => want == "outside",
        WalkFault::NoExtra(extra) => want.strip_prefix("extra ") == Some(extra.text()),
        WalkFault::NoMemory => false,
    }
}

fn is_answer(given: Result<Vec<u8>, WalkFault>, want: &str) -> bool {
    match given {
        Ok(text) => text.as_slice() == want.as_bytes(),
        Err(fault) => is_fault(&fault, want),
    }
}

// The text of the walk in the machine's world, each by its own call.
fn by_steps(
    alloc: Global,
    lock: &Lock,
    machine: &Machine,
    extras: &[Name],
) -> Result<Vec<u8>, WalkFault>
    requires { IsWellFormed lock.now }
{
    let atoms = atoms(alloc, lock)?;
    let world = world_of(alloc, machine, &atoms)?;
    let picks = walk(alloc, lock, &world, extras)?;
    let text = environment_text(alloc, picks.as_slice())?;
    Ok(text)
}

// Whether a lock gives what is wanted, by one call and by each call of its own.
fn is_given(alloc: Global, lock: &Lock, machine: &Machine, extras: &[Name], want: &str) -> bool
    requires { IsWellFormed lock.now }
{
    is_answer(environment(alloc, lock, machine, extras), want)
        && is_answer(by_steps(alloc, lock, machine, extras), want)
}

// Whether a lock's text gives it.
fn is_text_given(
    alloc: Global,
    text: &str,
    machine: &Machine,
    extras: &[Name],
    want: &str,
) -> bool {
    match read(alloc, text.as_bytes()) {
        Ok(lock) => {
            let given = is_given(alloc, &lock, machine, extras, want);
            drop(lock);
            given
        }
        Err(_) => false,
    }
}

fn is_on(alloc: Global, name: &str, machine: &Machine, rest: &str) -> bool {
    let (extras, want) = cells(rest, ' ');
    let extras = names(alloc, extras);
    is_text_given(alloc, text_named(name), machine, extras.as_slice(), want)
}

// Whether a row whose lines are ended is so.
fn is_case(alloc: Global, line: &str) -> bool {
    let (name, rest) = cells(line, ' ');
    let (python, rest) = cells(rest, ' ');
    let (platform, rest) = cells(rest, ' ');
    let (version, rest) = cells(rest, ' ');
    match machine(alloc, python, platform, version) {
        Ok(machine) => is_on(alloc, name, &machine, rest),
        Err(_) => false,
    }
}

fn is_row(alloc: Global, line: &str) -> bool {
    match line.replace(alloc, "~", "\n") {
        Ok(line) => is_case(alloc, line.as_str()),
        Err(_) => false,
    }
}

// The literals of a lock's comparisons, in the order of its text, behind its name.
const LITERALS: &str = "leaves \nasking Py,7,7,linux,7,4";

fn joined(alloc: Global, atoms: &[Atom]) -> String {
    let mut text = String::new(alloc);
    for atom in atoms {
        let comma = if text.is_empty() { "" } else { "," };
        put(&mut text, comma);
        put(&mut text, atom.literal.as_str());
    }
    text
}

fn has_literals(alloc: Global, lock: &Lock, want: &str) -> bool
    requires { IsWellFormed lock.now }
{
    match atoms(alloc, lock) {
        Ok(atoms) => joined(alloc, atoms.as_slice()).as_str() == want,
        Err(_) => false,
    }
}

fn are_asked(alloc: Global, line: &str) -> bool {
    let (name, want) = cells(line, ' ');
    match read(alloc, text_named(name).as_bytes()) {
        Ok(lock) => {
            let asked = has_literals(alloc, &lock, want);
            drop(lock);
            asked
        }
        Err(_) => false,
    }
}

// How many picks a lock gives in a world; none where it gives no environment.
fn pick_count(alloc: Global, lock: &Lock, world: &World) -> usize
    requires { IsWellFormed lock.now }
{
    match walk(alloc, lock, world, &[]) {
        Ok(picks) => picks.len(),
        Err(_) => 0,
    }
}

// How many a lock's text gives on a machine.
fn walked(alloc: Global, text: &str, machine: &Machine) -> Option<usize> {
    let world = world_of(alloc, machine, &Vec::new(alloc)).ok()?;
    match read(alloc, text.as_bytes()) {
        Ok(lock) => {
            let count = pick_count(alloc, &lock, &world);
            drop(lock);
            Some(count)
        }
        Err(_) => None,
    }
}

fn chain_walked(alloc: Global, count: u64) -> Option<usize> {
    let machine = machine(alloc, "3.12.0", "linux", "7").ok()?;
    walked(alloc, chain(alloc, count).as_str(), &machine)
}

#[test]
fn locks_give_environments(rt: HostRuntime) {
    for line in ROWS.split('\n') {
        assert!(rt; is_row(rt.alloc(), line), "{line}");
    }
    for line in LITERALS.split('\n') {
        assert!(rt; are_asked(rt.alloc(), line), "{line}");
    }
    assert!(rt; chain_walked(rt.alloc(), 20_000) == Some(20_000));
}
