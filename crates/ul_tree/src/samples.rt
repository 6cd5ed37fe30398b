//! A world at which a tree holds.
ghost use Rattle.std.specs.Prelude.{◌≡◌, ℕ, List, [], ◌∷◌, false, true, length, IfOk, option_map, string_bytes};
ghost use Rattle.ul_comparison.specs.Worlds.{IsWorld};
ghost use Rattle.ul_tree.specs.TreeFacts.{IsTree};
ghost use Rattle.ul_tree.specs.FirstParts.{first_point_of, first_piece_of};
ghost use Rattle.ul_nodes.specs.Levels.{python_level, text_level, atom_level};
ghost use Rattle.ul_nodes.specs.Plain.{truth};
ghost use Rattle.ul_nodes.specs.Reduced.{Fits};
ghost use Rattle.ul_tree.specs.Sample.{asks_extra, empty_world, fresh, has_key, sample_from, sample_of, with_level};
ghost use Rattle.ul_tree.specs.Values.{tree_holds};
ghost use Rattle.ul_tree.specs.Views.{tree_view, points_view};

use crate::part::is_false;
use crate::tree::Tree;
use std::alloc::{AllocError, Global};
use std::marker::Model;
use ul_marker::{Atom, Variable, World};

// How many values each of an interpreter's numbers has.
const RANGE: u128 = 4294967296;

// What a world is made of.
#[derive(Drop)]
struct Found {
    number: u128,
    texts: Vec<String>,
    truths: Vec<Atom>,
}

impl Model for Found {
    ghost use Rattle.std.specs.Prelude.{map, string_bytes, ◌/◌, ◌%◌, ◌^◌};
    ghost use Rattle.ul_comparison.specs.Worlds.{WorldFields};

    ghost Value = { WorldFields };

    ghost view = { λ f. record { major = (f.number / 2 ^ 32) / 2 ^ 32; minor = (f.number / 2 ^ 32) % 2 ^ 32; patch = f.number % 2 ^ 32; texts = map string_bytes f.texts.items; truths = f.truths.items } };
}

impl Found {
    fn new(alloc: Global) -> Result<Found, AllocError>
        ensures { IfOk result (λ f. f ≡ empty_world) }
    {
        let texts = vec![in alloc;
            String::new(alloc),
            String::new(alloc),
            String::new(alloc),
            String::new(alloc),
            String::new(alloc),
            String::new(alloc),
            String::new(alloc),
            String::new(alloc),
        ]?;
        Ok(Found {
            number: 0,
            texts,
            truths: Vec::new(alloc),
        })
    }

    fn set_number(&mut self, number: u128)
        ensures { self.new ≡ with_level python_level (number ∷ []) self.old }
    {
        self.number = number;
    }

    fn set_text(&mut self, variable: Variable, text: String)
        ensures { self.new ≡ with_level (text_level variable) (string_bytes text) self.old }
    {
        if let Some(place) = self.texts.get_mut(variable.text_number()) {
            *place = text;
        }
    }

    fn add(&mut self, alloc: Global, atom: &Atom) -> Result<(), AllocError>
        ensures { IfOk result (λ _. self.new ≡ with_level (atom_level atom.now) (1 ∷ []) self.old) }
    {
        self.truths.push(atom.copy(alloc)?)?;
        Ok(())
    }

    fn into_world(self) -> World
        requires { IsWorld self }
        ensures { result ≡ self }
    {
        let above = self.number / RANGE;
        World {
            python: (
                (above / RANGE) as u32,
                (above % RANGE) as u32,
                (self.number % RANGE) as u32,
            ),
            texts: self.texts,
            truths: self.truths,
        }
    }
}

// The first point whose part isn't false.
fn first_point<'a>(points: &'a [(String, Tree)]) -> Option<&'a (String, Tree)>
    ensures { option_map (λ p. (string_bytes p.now.0, tree_view p.now.1)) result ≡ first_point_of points.now }
{
    for point in points {
        if !is_false(&point.1) {
            return Some(point);
        }
    }
    None
}

// The first piece whose part isn't false, as its start and its part.
fn first_piece<'a>(starts: &[u128], parts: &'a [Tree]) -> Option<(u128, &'a Tree)>
    requires { length starts.now ≡ length parts.now }
    ensures { option_map (λ p. (p.0 ∷ [], tree_view p.1.now)) result ≡ first_piece_of starts.now parts.now }
{
    for (index, part) in parts.iter().enumerate() {
        if !is_false(part) {
            return Some((starts[index], part));
        }
    }
    None
}

// Whether a text is a point.
fn has_point(points: &[(String, Tree)], text: &str) -> bool
    ensures { result ≡ has_key (points_view points.now) text.now }
{
    for point in points {
        if point.0.as_str() == text {
            return true;
        }
    }
    false
}

// The shortest of the empty text, `x`, `xx` .. that is no point.
fn fresh_text(alloc: Global, points: &[(String, Tree)]) -> Result<String, AllocError>
    ensures { IfOk result (λ text. string_bytes text ≡ fresh (points_view points.now)) }
{
    let mut text = String::new(alloc);
    while has_point(points, text.as_str()) {
        text.push('x')?;
    }
    Ok(text)
}

// Goes down the first path to true, with the values of its levels.
fn follow(alloc: Global, tree: &Tree, found: &mut Found) -> Result<(), AllocError>
    requires reduced { (b : List ℕ) × Fits (tree_view tree.now) b }
    requires not_false { tree_view tree.now ≡ truth false → ⊥ }
    ensures { IfOk result (λ _. found.new ≡ sample_from found.old (tree_view tree.now)) }
{
    match tree {
        Tree::Truth(_) => Ok(()),
        Tree::Extra { points, other } => match first_point(points) {
            Some(point) => follow(alloc, &point.1, found),
            None => follow(alloc, other, found),
        },
        Tree::Python { starts, parts } => match first_piece(starts, parts) {
            Some((start, part)) => {
                found.set_number(start);
                follow(alloc, part, found)
            }
            None => Ok(()),
        },
        Tree::Text {
            variable,
            points,
            other,
        } => match first_point(points) {
            Some(point) => {
                let text = String::from_str(alloc, point.0.as_str())?;
                found.set_text(*variable, text);
                follow(alloc, &point.1, found)
            }
            None => {
                let text = fresh_text(alloc, points)?;
                found.set_text(*variable, text);
                follow(alloc, other, found)
            }
        },
        Tree::Opaque { atom, yes, no } => {
            if is_false(yes) {
                return follow(alloc, no, found);
            }
            found.add(alloc, atom)?;
            follow(alloc, yes, found)
        }
    }
}

/// A world at which a tree holds with every extra: that of its first path to true.
///
/// The path goes through the pieces of the interpreter in their order, through points in their order before
/// the other part, and through the part where an opaque comparison holds before the other. The interpreter is
/// the start of the path's piece, and 0.0.0 where the path has none. A text variable has the path's point; on
/// the other part it has the shortest of the empty text, `x`, `xx` .. that is no point; elsewhere it is empty.
/// The opaque comparisons that hold are those that hold on the path.
///
/// The tree isn't false and asks for no extra. There is no answer for want of memory alone.
pub fn sample(alloc: Global, tree: &Tree) -> Result<World, AllocError>
    requires reduced { IsTree tree.now }
    requires not_false { tree_view tree.now ≡ truth false → ⊥ }
    requires no_extra { asks_extra (tree_view tree.now) ≡ false }
    ensures first { IfOk result (λ w. w ≡ sample_of (tree_view tree.now)) }
    ensures holds { IfOk result (λ w. (x : List ℕ) → tree_holds (tree_view tree.now) w x ≡ true) }
{
    let mut found = Found::new(alloc)?;
    follow(alloc, tree, &mut found)?;
    Ok(found.into_world())
}
