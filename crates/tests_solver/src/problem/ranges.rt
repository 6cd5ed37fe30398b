//! The block sets against the plain ones, and pieces on outside examples.
ghost use Rattle.std.specs.Prelude.{◌<◌, IfOk, All};

use crate::problem::texts::number as size_of;
use std::alloc::{AllocError, Global};
use tests_rows::{cells, letter};
use ul_ranges::{Cuts, Ordinals, plain};

// What is tried, a case a row. The first word, by its letter, says what the others are:
//
// blocks SIZE: sets below a size, against plain ones.
// singles: each number below 50,000 as a set of its own, which takes no memory.
// fit NUMBERS, unfit NUMBERS: whether numbers are starts of pieces.
// piece NUMBER|STARTS|PLACE: the place of a number's piece.
// refined STARTS|STARTS|STARTS: two cuts, and the one that refines both.
const ROWS: &str = "blocks 0;\
    blocks 1;\
    blocks 63;\
    blocks 64;\
    blocks 65;\
    blocks 66;\
    blocks 255;\
    blocks 256;\
    blocks 257;\
    blocks 1000;\
    singles;\
    fit 0;\
    fit 0 5 2^96-1;\
    unfit ;\
    unfit 1;\
    unfit 0 0;\
    unfit 0 5 5;\
    unfit 0 5 4;\
    unfit 0 2^96;\
    piece 0|0 5 9|0;\
    piece 4|0 5 9|0;\
    piece 5|0 5 9|1;\
    piece 8|0 5 9|1;\
    piece 9|0 5 9|2;\
    piece 2^96-1|0 5 9|2;\
    refined 0 5 9|0 5 7 2^95|0 5 7 9 2^95";

// The multiples of `step` below `size`, each twice.
fn multiples(alloc: Global, size: u32, step: u32) -> Result<Vec<u32>, AllocError>
    requires { 0 < step }
    ensures { IfOk result (λ v. All (λ m. m < size) v.items) }
{
    let mut members = Vec::new(alloc);
    for k in 0..size {
        if k % step == 0 {
            members.push(k)?;
            members.push(k)?;
        }
    }
    Ok(members)
}

// Whether the set has a number just where the flags do, also by the walk over its members.
fn agrees_at(set: &Ordinals, flags: &[bool], k: u32) -> bool {
    set.has(k) == plain::has(flags, k) && (set.next_from(k) == Some(k)) == set.has(k)
}

// Whether the set has just these flags.
fn agrees(set: &Ordinals, flags: &[bool]) -> bool {
    for k in 0..set.size() {
        if !agrees_at(set, flags, k) {
            return false;
        }
    }
    !set.has(set.size()) && set.next_from(set.size()).is_none()
}

// A set, as blocks and plain.
#[derive(Drop)]
struct Sets {
    set: Ordinals,
    flags: Vec<bool>,
}

// The multiples of `step` below `size`.
fn multiple_sets(alloc: Global, size: u32, step: u32) -> Result<Sets, AllocError>
    requires { 0 < step }
{
    let list = multiples(alloc, size, step)?;
    let set = Ordinals::of_list(alloc, size, &list)?;
    let flags = plain::of_list(alloc, size, &list)?;
    Ok(Sets { set, flags })
}

fn made(alloc: Global, kind: u8, set: &Ordinals, other: &Ordinals) -> Result<Ordinals, AllocError> {
    if set.size() != other.size() {
        return Err(AllocError);
    }
    match kind {
        b'm' => set.meet(alloc, other),
        b'j' => set.join(alloc, other),
        _ => set.less(alloc, other),
    }
}

fn plain_made(
    alloc: Global,
    kind: u8,
    flags: &[bool],
    others: &[bool],
) -> Result<Vec<bool>, AllocError> {
    if flags.len() != others.len() {
        return Err(AllocError);
    }
    match kind {
        b'm' => plain::meet(alloc, flags, others),
        b'j' => plain::join(alloc, flags, others),
        _ => plain::less(alloc, flags, others),
    }
}

fn put(alloc: Global, kind: u8, set: &mut Ordinals, other: &Ordinals) -> Result<(), AllocError> {
    if set.size() != other.size() {
        return Err(AllocError);
    }
    match kind {
        b'm' => set.put_meet(alloc, other),
        b'j' => set.put_join(alloc, other),
        _ => set.put_less(alloc, other),
    }
}

// Whether the operation in place makes this set.
fn is_put(
    alloc: Global,
    kind: u8,
    set: Result<Ordinals, AllocError>,
    other: &Ordinals,
    want: &Ordinals,
) -> bool {
    match set {
        Ok(set) => {
            let mut set = set;
            put(alloc, kind, &mut set, other).is_ok() && set.same(want)
        }
        Err(_) => false,
    }
}

// An equal set with blocks of its own.
fn own(alloc: Global, set: &Ordinals) -> Result<Ordinals, AllocError> {
    let none = Ordinals::none(alloc, set.size())?;
    made(alloc, b'j', &none, set)
}

fn are_flags(flags: Result<Vec<bool>, AllocError>, set: &Ordinals) -> bool {
    match flags {
        Ok(flags) => agrees(set, &flags),
        Err(_) => false,
    }
}

// Whether an operation is the plain one, and makes an equal set in place, over blocks of its own and over shared ones.
// Its name begins with this letter.
fn operates(alloc: Global, kind: u8, twos: &Sets, threes: &Sets) -> bool {
    match made(alloc, kind, &twos.set, &threes.set) {
        Ok(set) => {
            let flags = plain_made(alloc, kind, &twos.flags, &threes.flags);
            are_flags(flags, &set)
                && is_put(alloc, kind, own(alloc, &twos.set), &threes.set, &set)
                && is_put(alloc, kind, twos.set.copy(alloc), &threes.set, &set)
        }
        Err(_) => false,
    }
}

// Whether the meet, the join and the less of two sets are as they should be, and leave them.
fn operate(alloc: Global, twos: &Sets, threes: &Sets) -> bool {
    operates(alloc, b'm', twos, threes)
        && operates(alloc, b'j', twos, threes)
        && operates(alloc, b'l', twos, threes)
        && agrees(&twos.set, &twos.flags)
        && agrees(&threes.set, &threes.flags)
}

// Whether the tests on those sets answer as they should, for a size.
fn tests_agree(twos: &Ordinals, threes: &Ordinals, size: u32) -> bool {
    if twos.size() != threes.size() {
        return false;
    }
    twos.is_within(threes) == (size < 3)
        && twos.is_within(twos)
        && twos.is_apart(threes) == (size == 0)
        && twos.same(threes) == (size < 3)
}

fn is_copied(alloc: Global, set: &Ordinals) -> bool {
    match set.copy(alloc) {
        Ok(copy) => copy.same(set),
        Err(_) => false,
    }
}

// Whether the first of a list that a set has is that of the plain one.
fn is_first(alloc: Global, sets: &Sets, size: u32) -> bool {
    match multiples(alloc, size, 2) {
        Ok(list) => sets.set.first_in(&list) == plain::first_in(&sets.flags, &list),
        Err(_) => false,
    }
}

// Whether the answers on those sets are those on the plain ones.
fn answer(alloc: Global, twos: &Sets, threes: &Sets, size: u32) -> bool {
    tests_agree(&twos.set, &threes.set, size)
        && threes.set.is_empty() == plain::is_empty(&threes.flags)
        && threes.set.is_empty() == (size == 0)
        && is_first(alloc, threes, size)
        && is_copied(alloc, &twos.set)
        && operate(alloc, twos, threes)
}

fn are_beside(alloc: Global, twos: &Sets, size: u32) -> bool {
    match multiple_sets(alloc, size, 3) {
        Ok(threes) => answer(alloc, twos, &threes, size),
        Err(_) => false,
    }
}

fn are_blocks(alloc: Global, size: u32) -> bool {
    match multiple_sets(alloc, size, 2) {
        Ok(twos) => are_beside(alloc, &twos, size),
        Err(_) => false,
    }
}

// Whether the whole set is right, beside the empty one.
fn is_whole(alloc: Global, none: &Ordinals, size: u32) -> bool {
    match Ordinals::all(alloc, size) {
        Ok(all) => {
            none.same(&all) == (size == 0) && are_flags(vec![in alloc; true; size as usize], &all)
        }
        Err(_) => false,
    }
}

// Whether the empty set and the whole one are right.
fn ends_agree(alloc: Global, size: u32) -> bool {
    match Ordinals::none(alloc, size) {
        Ok(none) => none.is_empty() && is_whole(alloc, &none, size),
        Err(_) => false,
    }
}

// The set of the last number.
fn last_set(alloc: Global, size: u32) -> Result<Ordinals, AllocError>
    requires { 0 < size }
{
    let list = vec![in alloc; size - 1]?;
    Ordinals::of_list(alloc, size, &list)
}

// Whether the last number is the first of a list that a set has.
fn is_last_first(alloc: Global, last: &Ordinals, size: u32) -> bool
    requires { 0 < size }
{
    match vec![in alloc; size, size - 1, 0] {
        Ok(order) => last.first_in(&order) == Some(size - 1),
        Err(_) => false,
    }
}

fn has_blocks(alloc: Global, set: &Ordinals, count: usize) -> bool {
    match set.blocks(alloc) {
        Ok(blocks) => blocks.len() == count,
        Err(_) => false,
    }
}

// Whether the set of the last number is right, where there is one.
fn last_agrees(alloc: Global, size: u32) -> bool {
    if size == 0 {
        return true;
    }
    let one = Ordinals::one(size, size - 1);
    match last_set(alloc, size) {
        Ok(last) => {
            is_last_first(alloc, &last, size)
                && has_blocks(alloc, &one, size.div_ceil(64) as usize)
                && one.same(&last)
                && !last.is_empty()
        }
        Err(_) => false,
    }
}

fn is_size(alloc: Global, size: u32) -> bool {
    are_blocks(alloc, size) && ends_agree(alloc, size) && last_agrees(alloc, size)
}

fn singles(alloc: Global, size: u32) -> Vec<Ordinals> {
    let mut singles = Vec::new(alloc);
    for k in 0..size {
        let _ = singles.push(Ordinals::one(size, k));
    }
    singles
}

// How many of the sets of one number are in a set.
fn count_in(singles: &[Ordinals], set: &Ordinals) -> u32 {
    let mut count = 0u32;
    for single in singles {
        if single.size() == set.size() && single.is_within(set) && !single.is_apart(set) {
            count = count.saturating_add(1);
        }
    }
    count
}

// Whether so many of the sets of one number are in the multiples of seven.
fn are_singles(alloc: Global, size: u32, count: u32) -> bool {
    match multiple_sets(alloc, size, 7) {
        Ok(sevens) => count_in(singles(alloc, size).as_slice(), &sevens.set) == count,
        Err(_) => false,
    }
}

fn number(word: &str) -> u128 {
    match word {
        "2^95" => 1 << 95,
        "2^96-1" => (1 << 96) - 1,
        "2^96" => 1 << 96,
        _ => word.parse::<u128>().unwrap_or(0),
    }
}

fn starts(alloc: Global, text: &str) -> Vec<u128> {
    let mut starts = Vec::new(alloc);
    for word in text.split(' ') {
        if !word.is_empty() {
            let _ = starts.push(number(word));
        }
    }
    starts
}

fn cuts(alloc: Global, text: &str) -> Option<Cuts> {
    let starts = starts(alloc, text);
    if Cuts::fits(&starts) {
        Some(Cuts::of(starts))
    } else {
        None
    }
}

// Whether the piece of a number is this one, also by the plain search.
fn is_piece(cuts: &Cuts, number: u128, want: &str) -> bool {
    if number >= 1 << 96 {
        return false;
    }
    match want.parse::<usize>() {
        Ok(want) => {
            cuts.piece_of(number) == want && plain::piece_of(cuts.starts(), number) == want
        }
        Err(_) => false,
    }
}

// Whether starts are these.
fn are_starts(starts: Result<Vec<u128>, AllocError>, want: &[u128]) -> bool {
    match starts {
        Ok(starts) => starts.as_slice() == want,
        Err(_) => false,
    }
}

// Whether two cuts refine each other to these starts, also by the plain search.
fn refine(alloc: Global, first: &Cuts, second: &Cuts, want: &[u128]) -> bool {
    match first.refine(alloc, second) {
        Ok(both) => {
            both.starts() == want
                && are_starts(plain::refine(alloc, second.starts(), first.starts()), want)
        }
        Err(_) => false,
    }
}

// Whether a cut and that of a text refine each other to the starts behind it.
fn is_refined(alloc: Global, first: &Cuts, row: &str) -> bool {
    let (second, want) = cells(row, '|');
    match cuts(alloc, second) {
        Some(second) => refine(alloc, first, &second, starts(alloc, want).as_slice()),
        None => false,
    }
}

fn are_refined(alloc: Global, row: &str) -> bool {
    let (first, rest) = cells(row, '|');
    match cuts(alloc, first) {
        Some(first) => is_refined(alloc, &first, rest),
        None => false,
    }
}

fn is_placed(alloc: Global, row: &str) -> bool {
    let (word, rest) = cells(row, '|');
    let (starts, want) = cells(rest, '|');
    match cuts(alloc, starts) {
        Some(cuts) => is_piece(&cuts, number(word), want),
        None => false,
    }
}

fn is_row(alloc: Global, line: &str) -> bool {
    let (kind, rest) = cells(line, ' ');
    match letter(kind) {
        b'b' => is_size(alloc, size_of(rest)),
        b's' => are_singles(alloc, 50000, 7143),
        b'f' => Cuts::fits(starts(alloc, rest).as_slice()),
        b'u' => !Cuts::fits(starts(alloc, rest).as_slice()),
        b'p' => is_placed(alloc, rest),
        _ => are_refined(alloc, rest),
    }
}

#[test]
fn sets_and_pieces_are_as_told(rt: HostRuntime) {
    for line in ROWS.split(';') {
        assert!(rt; is_row(rt.alloc(), line), "{line}");
    }
}
