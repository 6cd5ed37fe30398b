//! The truth of opaque comparisons on a machine, and the machine's world.
ghost use Rattle.std.specs.Prelude.{◌≡◌, [], All, IfOk, OnOk, None, string_bytes};
ghost use Rattle.std.specs.Fmt.{decimal};
ghost use Rattle.ul_version.specs.Reading.{version_of};
ghost use Rattle.ul_comparison.specs.Atoms;
ghost use Rattle.ul_comparison.specs.Atoms.{IsAtom};
ghost use Rattle.ul_comparison.specs.Machines as spec;
ghost use Rattle.ul_comparison.specs.Worlds.{Rise};

use crate::world::text_of;
use crate::{Atom, AtomKind, Machine, Variable, World, put_atom};
use std::alloc::{AllocError, Global};
use std::cmp::Ordering;
use ul_version::{Version, VersionFault};

/// The world of a machine, with the truth of these opaque comparisons on it.
///
/// `Contains` and `Within` ask whether the one text stands in the other, and the other kinds compare the bytes of
/// the two. On `implementation_version` these others compare versions (PEP 440) where both texts spell one. The
/// texts of `python_version` and `python_full_version` are the interpreter's numbers joined by points. No literal is
/// in `extras`, since a machine chooses no extras by itself. The comparisons may stand in any order and repeat.
#[tactic(auto, using(crate::proofs::Cloned::texts_cloned))]
pub fn world_of(alloc: Global, machine: &Machine, atoms: &Vec<Atom>) -> Result<World, AllocError>
    ensures { IfOk result (λ w. w ≡ spec.world_of machine.now atoms.now.items) }
{
    let texts = machine.texts.clone()?;
    let truths = truths_on(alloc, machine, atoms.as_slice())?;
    Ok(World {
        python: machine.python,
        texts,
        truths,
    })
}

// The atoms that hold on a machine, in their order and each once.
#[tactic(auto, unfolding(crate::specs::Machines::truths_onto))]
fn truths_on(alloc: Global, machine: &Machine, atoms: &[Atom]) -> Result<Vec<Atom>, AllocError>
    ensures truths { IfOk result (λ ts. ts.items ≡ spec.truths_onto machine.now [] atoms.now) }
    ensures rising { IfOk result (λ ts. Rise None ts.items) }
    ensures atoms { IfOk result (λ ts. All IsAtom ts.items) }
{
    let mut truths = Vec::new(alloc);
    for atom in atoms {
        add_truth(alloc, machine, &mut truths, atom)?;
    }
    Ok(truths)
}

// Puts an atom among others where it holds on a machine.
fn add_truth(
    alloc: Global,
    machine: &Machine,
    truths: &mut Vec<Atom>,
    atom: &Atom,
) -> Result<(), AllocError>
    requires rising { Rise None truths.old.items }
    requires atoms { All IsAtom truths.old.items }
    ensures put { OnOk result (truths.new.items ≡ spec.with_truth machine.now truths.old.items atom.now) }
    ensures rising { OnOk result (Rise None truths.new.items) }
    ensures atoms { OnOk result (All IsAtom truths.new.items) }
{
    if holds_on(alloc, machine, atom)? {
        return put_atom(alloc, truths, atom);
    }
    Ok(())
}

// Whether an atom holds on a machine.
#[tactic(auto, unfolding(crate::specs::Machines::atom_holds))]
fn holds_on(alloc: Global, machine: &Machine, atom: &Atom) -> Result<bool, AllocError>
    ensures { IfOk result (λ b. b ≡ spec.atom_holds machine.now atom.now) }
{
    match atom.variable {
        Variable::PythonVersion => {
            let text = python_version(alloc, machine.python)?;
            compares(alloc, atom, text.as_str())
        }
        Variable::PythonFullVersion => {
            let text = python_full_version(alloc, machine.python)?;
            compares(alloc, atom, text.as_str())
        }
        Variable::ImplementationVersion => {
            compares(alloc, atom, machine.implementation_version.as_str())
        }
        Variable::Extras => Ok(false),
        Variable::OsName
        | Variable::SysPlatform
        | Variable::PlatformMachine
        | Variable::PlatformPythonImplementation
        | Variable::PlatformRelease
        | Variable::PlatformSystem
        | Variable::PlatformVersion
        | Variable::ImplementationName => compares(
            alloc,
            atom,
            text_of(&machine.texts, atom.variable),
        ),
    }
}

// The text of `python_version`.
fn python_version(alloc: Global, python: (u32, u32, u32)) -> Result<String, AllocError>
    ensures { IfOk result (λ t. string_bytes t ≡ spec.before_point python.0 (decimal python.1)) }
{
    let (major, minor, _) = python;
    let text = format!(in alloc; "{major}.{minor}")?;
    Ok(text)
}

// The text of `python_full_version`.
fn python_full_version(alloc: Global, python: (u32, u32, u32)) -> Result<String, AllocError>
    ensures { IfOk result (λ t. string_bytes t
        ≡ spec.before_point python.0 (spec.before_point python.1 (decimal python.2))) }
{
    let (major, minor, patch) = python;
    let text = format!(in alloc; "{major}.{minor}.{patch}")?;
    Ok(text)
}

// Whether a comparison of its variable's text holds.
fn compares(alloc: Global, atom: &Atom, text: &str) -> Result<bool, AllocError>
    ensures { IfOk result (λ b. b ≡ spec.compares atom.now.kind atom.now.variable text.now atom.now.literal) }
{
    let literal = atom.literal.as_str();
    match atom.kind {
        AtomKind::Contains => Ok(is_part(literal, text)),
        AtomKind::Within => Ok(is_part(text, literal)),
        AtomKind::Below => {
            let order = literal_cmp(alloc, atom.variable, text, literal)?;
            Ok(order.is_lt())
        }
        AtomKind::AtMost => {
            let order = literal_cmp(alloc, atom.variable, text, literal)?;
            Ok(order.is_le())
        }
        AtomKind::Same => {
            let order = literal_cmp(alloc, atom.variable, text, literal)?;
            Ok(order.is_eq())
        }
    }
}

// Whether a text stands somewhere in another.
fn is_part(piece: &str, text: &str) -> bool
    ensures { result ≡ spec.is_part piece.now text.now }
{
    text.contains(piece)
}

// The order of a variable's text and a literal.
#[tactic(auto, unfolding(crate::specs::Machines::literal_cmp))]
fn literal_cmp(
    alloc: Global,
    variable: Variable,
    text: &str,
    literal: &str,
) -> Result<Ordering, AllocError>
    ensures { IfOk result (λ o. o ≡ spec.literal_cmp variable text.now literal.now) }
{
    if !is_implementation_version(variable) {
        return Ok(text.cmp(literal));
    }
    let Some(first) = version(alloc, text)? else {
        return Ok(text.cmp(literal));
    };
    let Some(second) = version(alloc, literal)? else {
        return Ok(text.cmp(literal));
    };
    Ok(first.cmp(&second))
}

fn is_implementation_version(variable: Variable) -> bool
    ensures { result ≡ Atoms.is_implementation_version variable }
{
    matches!(variable, Variable::ImplementationVersion)
}

// The version that a text spells, where it spells one.
fn version(alloc: Global, text: &str) -> Result<Option<Version>, AllocError>
    ensures { IfOk result (λ v. v ≡ version_of text.now) }
{
    match Version::read(alloc, text) {
        Ok(version) => Ok(Some(version)),
        Err(VersionFault::NoReading) => Ok(None),
        Err(VersionFault::NoMemory) => Err(AllocError),
    }
}
