//! Worlds.
ghost use Rattle.std.specs.Prelude.{◌≡◌, ◌≤◌, [], All, IfErr, IfOk, IfSome, OnOk, None, true, is_ok, length, map, slice_index_or, string_bytes, vec_len};
ghost use Rattle.std.specs.List.{insert};
ghost use Rattle.std.specs.Ordering.{is_lt};
ghost use Rattle.ul_comparison.specs.Atoms.{IsAtom, atom_cmp, has_atom, text_number};
ghost use Rattle.ul_comparison.specs.Machines.{put_atom};
ghost use Rattle.ul_comparison.specs.Rising;
ghost use Rattle.ul_comparison.specs.Rising.{IsPlace};
ghost use Rattle.ul_comparison.specs.Worlds.{Rise, text_at, world_fields};

use crate::{Atom, Variable};
use std::alloc::{AllocError, Global};
use std::marker::Model;

/// An environment, of a machine or an abstract one, at which markers are evaluated.
///
/// It has the numbers of an interpreter, eight texts in the order of the text variables (`os_name`,
/// `sys_platform`, `platform_machine`, `platform_python_implementation`, `platform_release`,
/// `platform_system`, `platform_version`, `implementation_name`), and the opaque comparisons that hold, in
/// increasing order and each once. Contracts see a world as the record `WorldFields`.
#[derive(Drop)]
pub struct World {
    pub python: (u32, u32, u32),
    pub texts: Vec<String>,
    pub truths: Vec<Atom>,
}

impl Model for World {
    ghost use Rattle.std.specs.Prelude.{map, string_bytes};
    ghost use Rattle.ul_comparison.specs.Worlds.{WorldFields, IsWorld, world_fields};

    ghost Value = { WorldFields };

    ghost view = { λ w. world_fields w.python (map string_bytes w.texts.items) w.truths.items };

    ghost invariant = { λ w. IsWorld (world_fields w.python (map string_bytes w.texts.items) w.truths.items) };
}

impl World {
    /// The world of an interpreter's three numbers, eight texts in the order of the text variables, and the
    /// opaque comparisons that hold.
    ///
    /// `None` exactly where there aren't eight texts, or the comparisons don't stand in increasing order, each
    /// once. It takes no memory.
    pub fn of(python: (u32, u32, u32), texts: Vec<String>, truths: Vec<Atom>) -> Option<World>
        ensures given { IfSome result (λ w. w ≡ world_fields python (map string_bytes texts.items) truths.items) }
        ensures refused { result ≡ None → vec_len texts ≡ 8 → ¬ Rise None truths.items }
    {
        if texts.len() != 8 || !rises(&truths) {
            return None;
        }
        Some(World {
            python,
            texts,
            truths,
        })
    }

    /// The text of a text variable; the empty text for any other variable.
    pub fn text(&self, variable: Variable) -> &str
        ensures { result.now ≡ text_at self.now variable }
    {
        text_of(&self.texts, variable)
    }

    /// Whether an opaque comparison holds. It is found by halves.
    pub fn has(&self, atom: &Atom) -> bool
        ensures { result ≡ has_atom self.now.truths atom.now }
    {
        place(&self.truths, atom).is_ok()
    }
}

/// The text of a text variable among the eight texts of a world, and else the empty text.
pub(crate) fn text_of(texts: &[String], variable: Variable) -> &str
    ensures { result.now ≡ slice_index_or (map string_bytes texts.now) (text_number variable) [] }
{
    match texts.get(variable.text_number()) {
        Some(text) => text.as_str(),
        None => "",
    }
}

/// Where an atom stands among atoms in increasing order, or else where it would stand.
pub(crate) fn place(atoms: &[Atom], atom: &Atom) -> Result<usize, usize>
    requires { Rise None atoms.now }
    ensures has { is_ok result ≡ has_atom atoms.now atom.now }
    ensures there { IfOk result (λ i. put_atom atom.now atoms.now ≡ atoms.now) }
    ensures absent { IfErr result (λ i. put_atom atom.now atoms.now ≡ insert atoms.now i atom.now) }
    ensures fits { IfErr result (λ i. i ≤ length atoms.now) }
{
    let at = count_before(atoms, atom);
    if at >= atoms.len() {
        return Err(at);
    }
    if atoms[at].cmp(atom).is_eq() {
        return Ok(at);
    }
    Err(at)
}

// How many of atoms in increasing order come before an atom.
fn count_before(atoms: &[Atom], atom: &Atom) -> usize
    requires { Rise None atoms.now }
    ensures place { IsPlace atom.now atoms.now result }
    ensures fits { result ≤ length atoms.now }
{
    atoms.partition_point(|other| other.cmp(atom).is_lt())
}

/// Puts an atom among atoms in increasing order, where it isn't there yet.
pub fn put_atom(alloc: Global, atoms: &mut Vec<Atom>, atom: &Atom) -> Result<(), AllocError>
    requires rising { Rise None atoms.old.items }
    requires atoms { All IsAtom atoms.old.items }
    ensures put { OnOk result (atoms.new.items ≡ put_atom atom.now atoms.old.items) }
    ensures rising { OnOk result (Rise None atoms.new.items) }
    ensures atoms { OnOk result (All IsAtom atoms.new.items) }
{
    let _ = &atom.kind;
    if let Err(at) = place(atoms, atom) {
        let atom = atom.copy(alloc)?;
        atoms.insert(at, atom)?;
    }
    Ok(())
}

// Whether atoms stand in increasing order, each once.
fn rises(atoms: &[Atom]) -> bool
    ensures rises { result ≡ Rising.rises atoms.now }
    ensures atoms { result ≡ true → All IsAtom atoms.now }
{
    let [first, rest @ ..] = atoms else {
        return true;
    };
    let mut last = first;
    for atom in rest {
        if !comes_before(last, atom) {
            return false;
        }
        last = atom;
    }
    let _ = &first.kind;
    true
}

// Whether an atom comes before another, of which contracts learn what atoms keep.
fn comes_before(atom: &Atom, other: &Atom) -> bool
    ensures before { result ≡ is_lt (atom_cmp atom.now other.now) }
    ensures other { IsAtom other.now }
{
    let _ = &other.kind;
    atom.cmp(other).is_lt()
}
