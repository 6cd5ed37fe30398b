//! Tests of a set as it is kept, and of two.
ghost use Rattle.std.specs.Prelude.{◌≡◌, ◌↔◌, ℕ, false, IsTrue};
ghost use Rattle.ul_ranges.specs.Blocks.{IsExact, flag_at};
ghost use Rattle.ul_ranges.specs.Flags.{IsNext};
ghost use Rattle.ul_ranges.specs.Forms.{AreApart, AreForms, AreSame, AreWithin, IsForm, flag_in};

use crate::forms::{Form, has_in};
use crate::words::{Operation, are_clear, next_bit, next_flag};

// Whether there is no member.
pub fn is_empty(form: &Form) -> bool
    requires { IsForm form.now }
    ensures { IsTrue result ↔ ((k : ℕ) → flag_in form.now k ≡ false) }
{
    match form {
        Form::Word(_, word) => *word == 0,
        Form::Few(_, one) => one.is_none(),
        Form::Many(_, _) => false,
    }
}

// Whether the members are the same.
pub fn same(mine: &Form, theirs: &Form) -> bool
    requires { AreForms mine.now theirs.now }
    ensures { IsTrue result ↔ AreSame mine.now theirs.now }
{
    match (mine, theirs) {
        (Form::Word(_, x), Form::Word(_, y)) => *x == *y,
        (Form::Few(_, a), Form::Few(_, b)) => *a == *b,
        (Form::Many(_, xs), Form::Many(_, ys)) => xs.as_slice() == ys.as_slice(),
        _ => false,
    }
}

// Whether each member of the first is one of the second.
pub fn is_within(mine: &Form, theirs: &Form) -> bool
    requires { AreForms mine.now theirs.now }
    ensures { IsTrue result ↔ AreWithin mine.now theirs.now }
{
    match (mine, theirs) {
        (Form::Word(_, x), Form::Word(_, y)) => *x & !*y == 0,
        (Form::Few(_, None), _) => true,
        (Form::Few(_, Some(member)), _) => has_in(theirs, *member),
        (Form::Many(_, xs), Form::Many(_, ys)) => are_clear(
            Operation::Less,
            xs.as_slice(),
            ys.as_slice(),
        ),
        _ => false,
    }
}

// Whether no member of the first is one of the second.
pub fn is_apart(mine: &Form, theirs: &Form) -> bool
    requires { AreForms mine.now theirs.now }
    ensures { IsTrue result ↔ AreApart mine.now theirs.now }
{
    match (mine, theirs) {
        (Form::Word(_, x), Form::Word(_, y)) => *x & *y == 0,
        (Form::Few(_, None), _) => true,
        (Form::Few(_, Some(member)), _) => !has_in(theirs, *member),
        (_, Form::Few(_, None)) => true,
        (_, Form::Few(_, Some(member))) => !has_in(mine, *member),
        (Form::Many(_, xs), Form::Many(_, ys)) => are_clear(
            Operation::Meet,
            xs.as_slice(),
            ys.as_slice(),
        ),
        _ => false,
    }
}

// The first member from a number on.
pub fn next_in(form: &Form, from: u32) -> Option<u32>
    requires { IsForm form.now }
    ensures { IsNext (λ k. flag_in form.now k) from result }
{
    match form {
        Form::Word(_, word) => if from < 64 {
            next_bit(*word, from)
        } else {
            None
        },
        Form::Few(_, Some(member)) if *member >= from => Some(*member),
        Form::Few(_, _) => None,
        Form::Many(size, blocks) => next_member(blocks.as_slice(), *size, from),
    }
}

// The first member of blocks from a number on. They are those of a size, so that it fits.
fn next_member(blocks: &[u64], size: u32, from: u32) -> Option<u32>
    requires { IsExact size blocks.now }
    ensures { IsNext (λ k. flag_at blocks.now k) from result }
{
    match next_flag(blocks, from as usize) {
        Some(member) => Some(member as u32),
        None => None,
    }
}
