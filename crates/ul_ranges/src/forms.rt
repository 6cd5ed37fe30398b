//! How a set is kept, and the operations on what is kept.
ghost use Rattle.std.specs.Prelude.{◌≡◌, ◌<◌, ◌≤◌, ◌↔◌, ℕ, [], ◌∷◌, true, false, All, IfOk, IfErr, IsTrue, IsFalse, map, zip, bit_and, bit_or, length};
ghost use Rattle.std.specs.Int.{bit_not, w64};
ghost use Rattle.std.specs.List.{range_with_len};
ghost use Rattle.ul_ranges.specs.Blocks.{IsExact, block_count, flag_at};
ghost use Rattle.ul_ranges.specs.Flags.{IsNext};
ghost use Rattle.ul_ranges.specs.Marks.{HasMarked, IsMarkedWord, front_word};
ghost use Rattle.ul_ranges.specs.Forms.{AreApart, AreForms, AreLevel, AreSame, AreWithin, HasFront, HasMembers, IsOpen, IsResealed, IsZipped, size_in, flag_in, bit_in, IsBelow, IsFew, IsFewOf, IsForm, IsMade, IsSealed, HasBlocks, only_in, only_out};
ghost use Rattle.ul_ranges.specs.Operations.{flag_by, in_both, in_either, in_first, word_by};

use crate::shared::{SharedList, put_shared};
use crate::words::{Operation, next_flag, words_by};
use std::alloc::{AllocError, Global};

// How a set is kept, behind its size: up to 64 numbers by the bits of one word; more by the one member that there may be, or by
// blocks of bits where there are two members at least. The size shares a word with the tag, so that a set takes 16 bytes.
#[derive(Drop)]
pub enum Form {
    Word(u32, u64),
    Few(u32, Option<u32>),
    Many(u32, SharedList<u64>),
}

// The size: each member is below it.
pub fn size_in(form: &Form) -> u32
    ensures { result ≡ size_in form.now }
{
    match form {
        Form::Word(size, _) => *size,
        Form::Few(size, _) => *size,
        Form::Many(size, _) => *size,
    }
}

// Whether the number is a member.
pub fn has_in(form: &Form, number: u32) -> bool
    ensures { result ≡ flag_in form.now number }
{
    match form {
        Form::Word(_, word) => has_bit(*word, number),
        Form::Few(_, Some(member)) => *member == number,
        Form::Few(_, None) => false,
        Form::Many(_, blocks) => has_flag(blocks.as_slice(), number),
    }
}

fn has_bit(word: u64, k: u32) -> bool
    ensures { result ≡ bit_in word k }
{
    k < 64 && word >> k & 1 == 1
}

fn has_flag(blocks: &[u64], k: u32) -> bool
    ensures { result ≡ flag_at blocks.now k }
{
    match blocks.get(k as usize / 64) {
        Some(block) => *block >> (k % 64) & 1 == 1,
        None => false,
    }
}

// An equal form.
pub fn copy(alloc: Global, form: &Form) -> Result<Form, AllocError>
    ensures { IfOk result (λ f. f ≡ form.now) }
{
    match form {
        Form::Word(size, word) => Ok(Form::Word(*size, *word)),
        Form::Few(size, one) => Ok(Form::Few(*size, *one)),
        Form::Many(size, blocks) => Ok(Form::Many(*size, copy_blocks(alloc, blocks)?)),
    }
}

// The blocks with one owner more; where the count of owners is at its end, equal blocks.
fn copy_blocks(alloc: Global, blocks: &SharedList<u64>) -> Result<SharedList<u64>, AllocError>
    ensures { IfOk result (λ b. b ≡ blocks.now) }
{
    match blocks.copy() {
        Ok(shared) => Ok(shared),
        Err(_) => {
            let others = Vec::from_slice(alloc, blocks.as_slice())?;
            SharedList::of(alloc, others)
        }
    }
}

// The one member, or none, of blocks that haven't two.
fn few_of(blocks: &[u64], size: u32) -> Option<Option<u32>>
    requires { IsExact size blocks.now }
    ensures { IsFewOf size blocks.now result }
{
    match next_flag(blocks, 0) {
        None => Some(None),
        Some(first) => match next_flag(blocks, first + 1) {
            None => Some(Some(first as u32)),
            Some(_) => None,
        },
    }
}

// The blocks of more than 64 numbers as a set is kept.
pub fn sealed(alloc: Global, size: u32, blocks: Vec<u64>) -> Result<Form, AllocError>
    requires large { 64 < size }
    requires exact { IsExact size blocks.items }
    ensures { IfOk result (λ f. IsSealed size blocks.items f) }
{
    match few_of(blocks.as_slice(), size) {
        Some(few) => Ok(Form::Few(size, few)),
        None => {
            let blocks = SharedList::of(alloc, blocks)?;
            Ok(Form::Many(size, blocks))
        }
    }
}

// The blocks of a set.
pub fn block_list(alloc: Global, form: &Form) -> Result<Vec<u64>, AllocError>
    requires { IsForm form.now }
    ensures { IfOk result (λ v. HasBlocks (size_in form.now) form.now v.items) }
{
    match form {
        Form::Many(_, blocks) => Vec::from_slice(alloc, blocks.as_slice()),
        Form::Few(size, one) => few_blocks(alloc, *size, *one),
        Form::Word(size, word) => vec![in alloc; *word; size.div_ceil(64) as usize],
    }
}

fn few_blocks(alloc: Global, size: u32, one: Option<u32>) -> Result<Vec<u64>, AllocError>
    requires { IsFew size one }
    ensures { IfOk result (λ v. HasBlocks size (Form.Few size one) v.items) }
{
    match one {
        Some(member) => blocks_of(alloc, size, &[member]),
        None => blocks_of(alloc, size, &[]),
    }
}

// The member where it is in the other set.
fn only_in(one: Option<u32>, other: &Form) -> Option<u32>
    ensures { result ≡ only_in one other.now }
{
    match one {
        Some(member) => if has_in(other, member) {
            Some(member)
        } else {
            None
        },
        None => None,
    }
}

// The member where it isn't in the other set.
fn only_out(one: Option<u32>, other: &Form) -> Option<u32>
    ensures { result ≡ only_out one other.now }
{
    match one {
        Some(member) => if has_in(other, member) {
            None
        } else {
            Some(member)
        },
        None => None,
    }
}

// What the operation makes of two sets of more than 64 numbers that have these blocks.
fn sealed_by(
    alloc: Global,
    operation: Operation,
    mine: &Form,
    theirs: &Form,
    xs: &[u64],
    ys: &[u64],
) -> Result<Form, AllocError>
    requires large { 64 < size_in mine.now }
    requires left { HasBlocks (size_in mine.now) mine.now xs.now }
    requires right { HasBlocks (size_in mine.now) theirs.now ys.now }
    ensures { IfOk result (λ f. IsMade (flag_by operation) mine.now theirs.now f) }
{
    let blocks = words_by(alloc, operation, xs, ys)?;
    sealed(alloc, size_in(mine), blocks)
}

// The members of both.
pub fn meet(alloc: Global, mine: &Form, theirs: &Form) -> Result<Form, AllocError>
    requires { AreForms mine.now theirs.now }
    ensures { IfOk result (λ f. IsMade in_both mine.now theirs.now f) }
{
    match (mine, theirs) {
        (Form::Word(size, x), Form::Word(_, y)) => Ok(Form::Word(*size, *x & *y)),
        (Form::Few(size, one), _) => Ok(Form::Few(*size, only_in(*one, theirs))),
        (_, Form::Few(size, one)) => Ok(Form::Few(*size, only_in(*one, mine))),
        (Form::Many(_, xs), Form::Many(_, ys)) => {
            sealed_by(
                alloc,
                Operation::Meet,
                mine,
                theirs,
                xs.as_slice(),
                ys.as_slice(),
            )
        }
        _ => unreachable!(),
    }
}

// The members that the second lacks.
pub fn less(alloc: Global, mine: &Form, theirs: &Form) -> Result<Form, AllocError>
    requires { AreForms mine.now theirs.now }
    ensures { IfOk result (λ f. IsMade in_first mine.now theirs.now f) }
{
    match (mine, theirs) {
        (Form::Word(size, x), Form::Word(_, y)) => Ok(Form::Word(*size, *x & !*y)),
        (Form::Few(size, one), _) => Ok(Form::Few(*size, only_out(*one, theirs))),
        (Form::Many(_, xs), Form::Many(_, ys)) => {
            sealed_by(
                alloc,
                Operation::Less,
                mine,
                theirs,
                xs.as_slice(),
                ys.as_slice(),
            )
        }
        (Form::Many(_, xs), Form::Few(_, _)) => {
            let ys = block_list(alloc, theirs)?;
            sealed_by(
                alloc,
                Operation::Less,
                mine,
                theirs,
                xs.as_slice(),
                ys.as_slice(),
            )
        }
        _ => unreachable!(),
    }
}

// The members of either.
pub fn join(alloc: Global, mine: &Form, theirs: &Form) -> Result<Form, AllocError>
    requires { AreForms mine.now theirs.now }
    ensures { IfOk result (λ f. IsMade in_either mine.now theirs.now f) }
{
    match (mine, theirs) {
        (Form::Word(size, x), Form::Word(_, y)) => Ok(Form::Word(*size, *x | *y)),
        (Form::Few(_, None), _) => copy(alloc, theirs),
        (_, Form::Few(_, None)) => copy(alloc, mine),
        (Form::Many(_, xs), Form::Many(_, ys)) => {
            sealed_by(
                alloc,
                Operation::Join,
                mine,
                theirs,
                xs.as_slice(),
                ys.as_slice(),
            )
        }
        _ => {
            let xs = block_list(alloc, mine)?;
            let ys = block_list(alloc, theirs)?;
            sealed_by(
                alloc,
                Operation::Join,
                mine,
                theirs,
                xs.as_slice(),
                ys.as_slice(),
            )
        }
    }
}

// Blocks that were written to, as a set is kept.
fn reseal(form: &mut Form)
    requires { IsOpen form.old }
    ensures { IsResealed form.old form.new }
{
    let size = size_in(form);
    let few = match form {
        Form::Many(_, blocks) => few_of(blocks.as_slice(), size),
        _ => None,
    };
    if let Some(few) = few {
        *form = Form::Few(size, few);
    }
}

// Writes to blocks in place where they have one owner, and says so.
fn put_in_place(operation: Operation, mine: &mut Form, theirs: &Form) -> bool
    requires { AreLevel mine.old theirs.now }
    ensures done { IsTrue result → IsZipped (word_by operation) mine.old theirs.now mine.new }
    ensures not_done { IsFalse result → mine.new ≡ mine.old }
{
    match mine {
        Form::Many(_, xs) => match theirs {
            Form::Many(_, ys) => put_shared(operation, xs, ys.as_slice()),
            _ => false,
        },
        _ => false,
    }
}

// What the operation makes of two sets.
fn made_by(
    alloc: Global,
    operation: Operation,
    mine: &Form,
    theirs: &Form,
) -> Result<Form, AllocError>
    requires { AreForms mine.now theirs.now }
    ensures { IfOk result (λ f. IsMade (flag_by operation) mine.now theirs.now f) }
{
    match operation {
        Operation::Meet => meet(alloc, mine, theirs),
        Operation::Join => join(alloc, mine, theirs),
        Operation::Less => less(alloc, mine, theirs),
    }
}

// Leaves what the operation makes of the set and another, in place where the blocks have one owner.
pub fn put(
    alloc: Global,
    operation: Operation,
    mine: &mut Form,
    theirs: &Form,
) -> Result<(), AllocError>
    requires { AreForms mine.old theirs.now }
    ensures ok { IfOk result (λ _. IsMade (flag_by operation) mine.old theirs.now mine.new) }
    ensures err { IfErr result (λ _. mine.new ≡ mine.old) }
{
    if put_in_place(operation, mine, theirs) {
        reseal(mine);
        return Ok(());
    }
    let made = made_by(alloc, operation, mine, theirs)?;
    *mine = made;
    Ok(())
}

// The set of one number below a size.
pub fn one(size: u32, member: u32) -> Form
    requires { member < size }
    ensures { HasMembers size (member ∷ []) result }
{
    if size <= 64 {
        Form::Word(size, 1u64 << member)
    } else {
        Form::Few(size, Some(member))
    }
}

// The set of no number.
pub fn none(size: u32) -> Form
    ensures { HasMembers size [] result }
{
    if size <= 64 {
        Form::Word(size, 0)
    } else {
        Form::Few(size, None)
    }
}

// The set of the numbers of a list, each below a size.
pub fn of_list(alloc: Global, size: u32, members: &Vec<u32>) -> Result<Form, AllocError>
    requires { All (λ m. m < size) members.now.items }
    ensures { IfOk result (λ f. HasMembers size members.now.items f) }
{
    if size <= 64 {
        Ok(Form::Word(size, word_of(size, members)))
    } else {
        let blocks = blocks_of(alloc, size, members.as_slice())?;
        sealed(alloc, size, blocks)
    }
}

fn word_of(size: u32, members: &Vec<u32>) -> u64
    requires small { size ≤ 64 }
    requires below { All (λ m. m < size) members.now.items }
    ensures { IsMarkedWord result members.now.items }
{
    let mut word = 0u64;
    for member in members {
        word |= 1u64 << *member;
    }
    word
}

fn blocks_of(alloc: Global, size: u32, members: &[u32]) -> Result<Vec<u64>, AllocError>
    requires { All (λ m. m < size) members.now }
    ensures { IfOk result (λ v. HasMarked size v.items members.now) }
{
    let mut blocks = vec![in alloc; 0u64; size.div_ceil(64) as usize]?;
    for member in members {
        blocks[*member as usize / 64] |= 1u64 << (*member % 64);
    }
    Ok(blocks)
}

// The set of the numbers below a count.
pub fn front(alloc: Global, size: u32, count: u32) -> Result<Form, AllocError>
    requires { count ≤ size }
    ensures { IfOk result (λ f. HasFront size count f) }
{
    if size <= 64 {
        return Ok(Form::Word(size, front_word(count, 0)));
    }
    let blocks = front_blocks(alloc, size, count)?;
    sealed(alloc, size, blocks)
}

// A block of the numbers below a count.
fn front_word(count: u32, place: u32) -> u64
    ensures { result ≡ front_word count place }
{
    let whole = count / 64;
    if place < whole {
        return u64::MAX;
    }
    if place > whole {
        return 0;
    }
    (1u64 << (count % 64)) - 1
}

fn front_blocks(alloc: Global, size: u32, count: u32) -> Result<Vec<u64>, AllocError>
    ensures { IfOk result (λ v. v.items ≡ map (λ j. front_word count j) (range_with_len 0 (block_count size))) }
{
    let mut blocks = Vec::new(alloc);
    for place in 0..size.div_ceil(64) {
        blocks.push(front_word(count, place))?;
    }
    Ok(blocks)
}
