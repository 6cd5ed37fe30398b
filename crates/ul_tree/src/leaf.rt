//! Trees of single comparisons.
ghost use Rattle.std.specs.Prelude.{◌≡◌, ◌||◌, ℕ, List, IfOk, not, true};
ghost use Rattle.ul_base.specs.Names.{is_name};
ghost use Rattle.ul_comparison.specs.Atoms.{IsAtom, is_literal, is_text};
ghost use Rattle.ul_comparison.specs.Formulas.{IsExtraLiteral};
ghost use Rattle.ul_comparison.specs.Truth.{is_empty};
ghost use Rattle.ul_tree.specs.TreeFacts.{IsTree, HoldsAs, extra_truth, text_truth, atom_truth};
ghost use Rattle.ul_tree.specs.Views.{points_view};
ghost use Rattle.ul_tree.specs.Leaves.{point_of};
ghost use Rattle.ul_tree.specs.declared.tree.Tree.TheVariants.{Truth};

use crate::Tree;
use crate::pairs::made_both;
use std::alloc::{AllocError, Global};
use ul_base::owned::{boxed, named, with_made};
use ul_base::{Name, NameFault};
use ul_marker::{Atom, Variable};

/// The tree of the extras that equal a literal, or don't. A literal that is neither empty nor a name equals
/// none.
pub fn extra_tree(alloc: Global, literal: &str, equal: bool) -> Result<Tree, AllocError>
    requires { IsExtraLiteral literal.now }
    ensures reduced { IfOk result IsTree }
    ensures truth { IfOk result (λ t. HoldsAs t (extra_truth literal.now equal)) }
{
    if !may_be_extra(alloc, literal)? {
        return Ok(Tree::Truth(!equal));
    }
    let (points, other) = branches(alloc, literal, equal)?;
    Ok(Tree::Extra { points, other })
}

// Whether a text is empty or a name.
#[tactic(auto, using(crate::proofs::Leaves::name_may, crate::proofs::Leaves::no_name_may))]
fn may_be_extra(alloc: Global, text: &str) -> Result<bool, AllocError>
    ensures { IfOk result (λ b. b ≡ (is_empty text.now || is_name text.now)) }
{
    if text.is_empty() {
        return Ok(true);
    }
    match Name::read(alloc, text) {
        Ok(_) => Ok(true),
        Err(fault) => match fault {
            NameFault::NoReading => Ok(false),
            NameFault::NoMemory => Err(AllocError),
        },
    }
}

/// The tree of the worlds at which a text variable equals a literal, or doesn't.
pub fn text_tree(
    alloc: Global,
    variable: Variable,
    literal: &str,
    equal: bool,
) -> Result<Tree, AllocError>
    requires variable { is_text variable ≡ true }
    requires literal { is_literal literal.now ≡ true }
    ensures reduced { IfOk result IsTree }
    ensures truth { IfOk result (λ t. HoldsAs t (text_truth variable literal.now equal)) }
{
    let (points, other) = branches(alloc, literal, equal)?;
    Ok(Tree::Text {
        variable,
        points,
        other,
    })
}

/// The tree of the worlds at which an opaque comparison holds, or doesn't.
pub fn opaque_tree(alloc: Global, atom: &Atom, positive: bool) -> Result<Tree, AllocError>
    requires { IsAtom atom.now }
    ensures reduced { IfOk result IsTree }
    ensures truth { IfOk result (λ t. HoldsAs t (atom_truth atom.now positive)) }
{
    let sides = made_both(truth_alone(alloc, positive), truth_alone(alloc, !positive));
    let (atom, sides) = made_both(atom.copy(alloc), sides)?;
    let (yes, no) = sides;
    Ok(Tree::Opaque { atom, yes, no })
}

// A truth in memory of its own.
fn truth_alone(alloc: Global, value: bool) -> Result<Box<Tree>, AllocError>
    ensures { IfOk result (λ place. place.value ≡ Truth value) }
{
    boxed(alloc, Ok(Tree::Truth(value)))
}

// The one point of a comparison, and the part of all else.
fn branches(
    alloc: Global,
    literal: &str,
    equal: bool,
) -> Result<(Vec<(String, Tree)>, Box<Tree>), AllocError>
    ensures point { IfOk result (λ made. points_view made.0.items ≡ point_of literal.now equal) }
    ensures other { IfOk result (λ made. made.1.value ≡ Truth (not equal)) }
{
    let point = named(alloc, literal, Ok(Tree::Truth(equal)));
    made_both(
        with_made(Vec::new(alloc), point),
        truth_alone(alloc, !equal),
    )
}
