//! A level that is closed over its branches: what its node is made of.
//!
//! The parts are moved into the lists that nodes have, so that each kind of node is made of them by one step.
ghost use Rattle.std.specs.Prelude.{◌≡◌, ◌∷◌, [], length, map, string_bytes, IfOk, All, true};
ghost use Rattle.ul_nodes.specs.Plain.{Plain, carries};
ghost use Rattle.ul_nodes.specs.Apply.{close};
ghost use Rattle.ul_nodes.specs.Keys.{level_view, key_view, is_literal_key, is_number_key, KeysOf};
ghost use Rattle.ul_nodes.specs.Rows.{made_view};
ghost use Rattle.ul_nodes.specs.Closing.{closed_view, closed_parts, branch_parts, level_parts, number_of, IsEven, HasOneMark};

use crate::level::{Key, Level};
use std::alloc::{AllocError, Global};
use ul_comparison::{Atom, Variable};

/// What a closed level is made of: the other part alone where it has no branch, else the parts of a node.
#[derive(Drop)]
pub enum Closed<'a, T> {
    Part(T),
    Extra {
        texts: Vec<String>,
        parts: Vec<T>,
        other: T,
    },
    Python {
        starts: Vec<u128>,
        parts: Vec<T>,
    },
    Text {
        variable: Variable,
        texts: Vec<String>,
        parts: Vec<T>,
        other: T,
    },
    Opaque {
        atom: &'a Atom,
        holds: T,
        fails: T,
    },
}

// The texts and the parts of branches.
fn points_of<T: Drop>(
    alloc: Global,
    made: Vec<(Key<'_>, T)>,
) -> Result<(Vec<String>, Vec<T>), AllocError>
    requires { All (λ e. is_literal_key e.0 ≡ true) made.items }
    ensures texts { IfOk result (λ r. map string_bytes r.0.items ≡ map (λ e. key_view e.0) made.entry.items) }
    ensures parts { IfOk result (λ r. r.1.items ≡ branch_parts made.entry.items) }
{
    let mut texts = Vec::new(alloc);
    let mut parts = Vec::new(alloc);
    for (key, part) in made {
        match key {
            Key::Literal(text) => {
                texts.push(String::from_str(alloc, text)?)?;
                parts.push(part)?;
            }
            Key::Number(_) => unreachable!(),
            Key::Holds => unreachable!(),
        }
    }
    Ok((texts, parts))
}

// The starts and the parts of pieces, the first of which is the other part.
fn pieces_of<T: Drop>(
    alloc: Global,
    other: T,
    made: Vec<(Key<'_>, T)>,
) -> Result<(Vec<u128>, Vec<T>), AllocError>
    requires { All (λ e. is_number_key e.0 ≡ true) made.items }
    ensures starts { IfOk result (λ r. r.0.items ≡ 0 ∷ map (λ e. number_of e.0) made.entry.items) }
    ensures parts { IfOk result (λ r. r.1.items ≡ other ∷ branch_parts made.entry.items) }
{
    let mut starts = Vec::new(alloc);
    let mut parts = Vec::new(alloc);
    starts.push(0)?;
    parts.push(other)?;
    for (key, part) in made {
        match key {
            Key::Number(number) => {
                starts.push(number)?;
                parts.push(part)?;
            }
            Key::Literal(_) => unreachable!(),
            Key::Holds => unreachable!(),
        }
    }
    Ok((starts, parts))
}

// The part of the one branch that there is.
fn only_part<T: Drop>(made: Vec<(Key<'_>, T)>) -> T
    requires { length made.items ≡ 1 }
    ensures { branch_parts made.entry.items ≡ result ∷ [] }
{
    let mut made = made;
    match made.pop() {
        None => unreachable!(),
        Some((_, part)) => part,
    }
}

/// What the node of a level is made of that has these branches; the other part alone where it has none.
pub fn closed_level<'a, T: Drop>(
    alloc: Global,
    level: Level<'a>,
    other: T,
    made: Vec<(Key<'_>, T)>,
) -> Result<Closed<'a, T>, AllocError>
    requires kinds { KeysOf (level_view level) made.items }
    requires one { HasOneMark (level_view level) made.items }
    ensures tree { IfOk result (λ c. (view : T → Plain) → closed_view view c
        ≡ close (level_view level.entry) (view other) (made_view view made.entry.items)) }
    ensures parts { IfOk result (λ c. closed_parts c
        ≡ level_parts (carries (level_view level.entry)) other made.entry.items) }
    ensures even { IfOk result IsEven }
{
    if made.is_empty() {
        return Ok(Closed::Part(other));
    }
    match level {
        Level::Extra => {
            let (texts, parts) = points_of(alloc, made)?;
            Ok(Closed::Extra {
                texts,
                parts,
                other,
            })
        }
        Level::Python => {
            let (starts, parts) = pieces_of(alloc, other, made)?;
            Ok(Closed::Python { starts, parts })
        }
        Level::Text(variable) => {
            let (texts, parts) = points_of(alloc, made)?;
            Ok(Closed::Text {
                variable,
                texts,
                parts,
                other,
            })
        }
        Level::Opaque(atom) => {
            let holds = only_part(made);
            Ok(Closed::Opaque {
                atom,
                holds,
                fails: other,
            })
        }
    }
}
