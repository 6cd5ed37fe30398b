//! Trees of the clauses that an interpreter's version has to meet.
ghost use Rattle.std.specs.Prelude.{◌≡◌, ◌∷◌, ℕ, List, IfOk, map};
ghost use Rattle.ul_nodes.specs.Plain.{truth};
ghost use Rattle.ul_version.specs.Fields.{plain};
ghost use Rattle.ul_specifier.specs.Meaning.{meets_clause};
ghost use Rattle.ul_tree.specs.TreeFacts.{IsTree, HoldsByPython, meets_release};
ghost use Rattle.ul_tree.specs.Pieces;
ghost use Rattle.ul_tree.specs.Pieces.{flipping, major_of, minor_of, patch_of, starts_of, stepped_of};
ghost use Rattle.ul_tree.specs.Views.{tree_view};

use crate::Tree;
use crate::pairs::made_both;
use std::alloc::{AllocError, Global};
use ul_base::owned::with_one;
use ul_marker::meets_python;
use ul_specifier::Clause;

// One above the greatest number that an interpreter may have.
const WIDE: u128 = 1 << 32;

// One above the greatest interpreter.
const END: u128 = 1 << 96;

/// The tree of the interpreters whose `python_full_version`, or else `python_version`, meets a clause.
///
/// The clause is evaluated at each interpreter where its truth may change, and the tree has those where it does.
pub fn clause_tree(alloc: Global, clause: &Clause, full: bool) -> Result<Tree, AllocError>
    ensures reduced { IfOk result IsTree }
    ensures truth { IfOk result (λ t. HoldsByPython t full (meets_release clause.now)) }
{
    let starts = starts(alloc, clause, full)?;
    stepped(alloc, meets_at(clause, full, 0), &starts)
}

// The three numbers of an interpreter, by its number.
fn interpreter(number: u128) -> (u32, u32, u32)
    ensures major { result.0 ≡ major_of number }
    ensures minor { result.1 ≡ minor_of number }
    ensures patch { result.2 ≡ patch_of number }
{
    (
        (number / WIDE / WIDE % WIDE) as u32,
        (number / WIDE % WIDE) as u32,
        (number % WIDE) as u32,
    )
}

// Whether the interpreter of a number meets a clause.
#[tactic(auto, unfolding(crate::specs::Pieces::meets_at))]
fn meets_at(clause: &Clause, full: bool, number: u128) -> bool
    ensures { result ≡ Pieces.meets_at clause.now full number }
{
    meets_python(clause, full, interpreter(number))
}

// A number of a release, and at most the greatest that an interpreter may have.
fn digit(release: &[u64], i: usize) -> u128
    ensures { result ≡ Pieces.digit release.now i }
{
    match release.get(i) {
        Some(number) => u128::from(*number).min(WIDE - 1),
        None => 0,
    }
}

// At most the last interpreter.
fn capped(number: u128) -> u128
    ensures { result ≡ Pieces.capped_number number }
{
    number.min(END - 1)
}

// The interpreters at which the truth of a clause with this release may change, in order.
#[tactic(auto, unfolding(crate::specs::Pieces::cuts_of))]
fn cuts(release: &[u64]) -> [u128; 6]
    ensures { result ≡ Pieces.cuts_of release.now }
{
    let major = digit(release, 0) * WIDE * WIDE;
    let minor = major + digit(release, 1) * WIDE;
    let patch = minor + digit(release, 2);
    [
        major,
        minor,
        patch,
        capped(patch + 1),
        capped(minor + WIDE),
        capped(major + WIDE * WIDE),
    ]
}

// The interpreters at which the truth of a clause changes, in order.
fn starts(alloc: Global, clause: &Clause, full: bool) -> Result<Vec<u128>, AllocError>
    ensures { IfOk result (λ v. v.items ≡ starts_of clause.now full) }
{
    let mut starts = Vec::new(alloc);
    let mut held = meets_at(clause, full, 0);
    for cut in cuts(clause.version.release.as_slice()) {
        let holds = meets_at(clause, full, cut);
        if holds != held {
            starts.push(cut)?;
            held = holds;
        }
    }
    Ok(starts)
}

// The first interpreter, and those at which a truth changes.
fn pieces(alloc: Global, starts: &[u128]) -> Result<Vec<u128>, AllocError>
    ensures { IfOk result (λ v. v.items ≡ 0 ∷ starts.now) }
{
    let mut pieces = Vec::new(alloc);
    pieces.push(0)?;
    pieces.extend_from_slice(starts)?;
    Ok(pieces)
}

// The parts of a truth that changes at each start.
fn parts(alloc: Global, first: bool, starts: &[u128]) -> Result<Vec<Tree>, AllocError>
    ensures { IfOk result (λ ts. map tree_view ts.items ≡ truth first ∷ flipping first starts.now) }
{
    let mut parts = with_one(Vec::new(alloc), Tree::Truth(first))?;
    let mut held = first;
    for start in starts {
        held = !held;
        parts = with_one(parts, Tree::Truth(held))?;
    }
    Ok(parts)
}

// The tree of a truth that changes at each start.
pub fn stepped(alloc: Global, first: bool, starts: &[u128]) -> Result<Tree, AllocError>
    ensures { IfOk result (λ t. tree_view t ≡ stepped_of first starts.now) }
{
    if starts.is_empty() {
        return Ok(Tree::Truth(first));
    }
    let (starts, parts) = made_both(pieces(alloc, starts), parts(alloc, first, starts))?;
    Ok(Tree::Python { starts, parts })
}
