//! Trees, their hashes, and the events of the core.
ghost use Rattle.std.specs.Prelude.{◌≡◌, ◌≤◌, IfOk};

use crate::interner::labels::{Number, Word};
use std::alloc::{AllocError, Global};
use tests_rows::{cells, letter};
use ul_core::{CoreState, Event, EventFault, Label, Plant, hash_step, is_same, structural_hash};

// What is tried, a case a row. The first word, by its letter, says what the others are:
//
// hash LABEL|LEAVES|HASH: a tree and its structural hash, as another program computes it.
// same LABEL|LEAVES|TOLD: whether a tree is `p` with the leaves `one` and `two`.
// next HASH|PART|WANT: a hash so far, the hash of a part, and the hash after it, as another program computes it.
// copy: whether the copy of a label is the same.
// answers, runs: whether the events of the script are answered, and are run, on 1 to 17 shards.
// levels: hashing, comparing and dropping recur once for each of 2,000 levels.
// many: whether each of 300 leaves is taken once.
const ROWS: &str = "hash ||0\n\
    hash seven..||7\n\
    hash p|part-one|6364136223846793014\n\
    hash a|bc|6364136223846793008\n\
    hash a|bc def|8166562322141162356\n\
    hash a|def bc|14530698545987955360\n\
    same p|one two|same\n\
    same q|one two|other\n\
    same p|two one|other\n\
    same p|one|other\n\
    same p|one two two|other\n\
    next 7|8|7655465419508447812\n\
    next 0|0|1\n\
    next 18446744073709551615|18446744073709551615|12082607849862758611\n\
    next 1|2|6364136223846793008\n\
    copy\n\
    answers\n\
    runs\n\
    levels\n\
    many";

// Pushes what was made; what finds no memory is left out.
fn push_made<T: Drop>(row: &mut Vec<T>, made: Result<T, AllocError>) {
    if let Ok(item) = made {
        let _ = row.push(item);
    }
}

fn leaf(alloc: Global, text: &str) -> Result<Plant<Word>, AllocError> {
    let label = Word::new(alloc, text)?;
    Ok(Plant {
        label,
        parts: Vec::new(alloc),
    })
}

fn leaves_of(alloc: Global, leaves: &str) -> Vec<Plant<Word>> {
    let mut parts = Vec::new(alloc);
    for text in leaves.split_whitespace() {
        push_made(&mut parts, leaf(alloc, text));
    }
    parts
}

// The tree of a label and leaves, which the text lists with blanks between them.
fn tree(alloc: Global, label: &str, leaves: &str) -> Result<Plant<Word>, AllocError> {
    let label = Word::new(alloc, label)?;
    let parts = leaves_of(alloc, leaves);
    Ok(Plant { label, parts })
}

// The number that a word is, or 1.
fn number(word: &str) -> u64 {
    word.parse::<u64>().unwrap_or(1)
}

fn is_hashed(alloc: Global, label: &str, rest: &str) -> bool {
    let (leaves, want) = cells(rest, '|');
    let want = number(want);
    match tree(alloc, label, leaves) {
        Ok(plant) => structural_hash(&plant) == want,
        Err(_) => false,
    }
}

// Whether a tree is, or isn't, `p` with the leaves `one` and `two`.
fn is_first(alloc: Global, plant: &Plant<Word>, want: bool) -> bool {
    match tree(alloc, "p", "one two") {
        Ok(first) => is_same(&first, plant) == want,
        Err(_) => false,
    }
}

fn is_compared(alloc: Global, label: &str, rest: &str) -> bool {
    let (leaves, want) = cells(rest, '|');
    let want = want == "same";
    match tree(alloc, label, leaves) {
        Ok(plant) => is_first(alloc, &plant, want),
        Err(_) => false,
    }
}

fn is_next(hash: &str, rest: &str) -> bool {
    let (part, want) = cells(rest, '|');
    hash_step(number(hash), number(part)) == number(want)
}

fn is_own_copy(alloc: Global, label: &Word) -> bool {
    match label.copy(alloc) {
        Ok(copied) => copied.same(label),
        Err(_) => false,
    }
}

fn is_copied(alloc: Global) -> bool {
    match Word::new(alloc, "label") {
        Ok(label) => is_own_copy(alloc, &label),
        Err(_) => false,
    }
}

// The events in turn, and what is answered on any number of shards: a tree `LABEL LEAVES` is published in its own shard,
// or in another, or a number is drawn. Leaf and part have 7 and 8 bytes.
const SCRIPT: &str = "other seven..|shard\n\
    own seven..|new\n\
    own seven..|known\n\
    own another|new\n\
    draw|0\n\
    own p part-one|part\n\
    own part-one|new\n\
    own p part-one|new\n\
    own p part-one|known\n\
    draw|1";

fn event(alloc: Global, shards: u8, text: &str) -> Result<Event<Word>, AllocError>
    requires { 1 ≤ shards }
{
    let (kind, rest) = text.split_once(' ').unwrap_or((text, ""));
    if kind == "draw" {
        return Ok(Event::Claim);
    }
    let (label, leaves) = rest.split_once(' ').unwrap_or((rest, ""));
    let plant = tree(alloc, label, leaves)?;
    let own = (structural_hash(&plant) % shards as u64) as u8;
    let shard = if kind == "own" { own } else { 255 };
    Ok(Event::Publish { shard, plant })
}

fn told(answer: Result<Option<u64>, EventFault>) -> &'static str {
    match answer {
        Ok(None) => "new",
        Ok(Some(0)) => "0",
        Ok(Some(1)) => "1",
        Ok(Some(_)) => "more",
        Err(EventFault::Shard) => "shard",
        Err(EventFault::Known) => "known",
        Err(EventFault::Part) => "part",
        Err(EventFault::Full) => "full",
        Err(EventFault::NoMemory) => "no memory",
    }
}

fn is_answered(alloc: Global, state: &mut CoreState<Word>, shards: u8, line: &str) -> bool
    requires { 1 ≤ shards }
{
    let (text, want) = cells(line, '|');
    match event(alloc, shards, text) {
        Ok(event) => told(state.step(alloc, event)) == want,
        Err(_) => false,
    }
}

fn script_holds(alloc: Global, state: &mut CoreState<Word>, shards: u8) -> bool
    requires { 1 ≤ shards }
{
    for line in SCRIPT.split('\n') {
        if !is_answered(alloc, state, shards, line) {
            return false;
        }
    }
    true
}

fn are_answered(alloc: Global, shards: u8) -> bool
    requires { 1 ≤ shards }
{
    match CoreState::begin(alloc, shards) {
        Ok(mut state) => script_holds(alloc, &mut state, shards),
        Err(_) => false,
    }
}

fn events(alloc: Global, shards: u8) -> Vec<Event<Word>>
    requires { 1 ≤ shards }
{
    let mut events = Vec::new(alloc);
    for line in SCRIPT.split('\n') {
        let (text, _) = cells(line, '|');
        push_made(&mut events, event(alloc, shards, text));
    }
    events
}

fn is_taken(alloc: Global, state: &mut CoreState<Word>, events: Vec<Event<Word>>) -> bool {
    state.run(alloc, events) == Ok(6) && state.step(alloc, Event::Claim) == Ok(Some(2))
}

// Whether the script takes six of its events, and the next number drawn is 2.
fn is_run(alloc: Global, shards: u8) -> bool
    requires { 1 ≤ shards }
{
    match CoreState::begin(alloc, shards) {
        Ok(mut state) => is_taken(alloc, &mut state, events(alloc, shards)),
        Err(_) => false,
    }
}

fn is_script(alloc: Global, runs: bool) -> bool {
    for shards in 1..18 {
        let holds = if runs {
            is_run(alloc, shards)
        } else {
            are_answered(alloc, shards)
        };
        if !holds {
            return false;
        }
    }
    true
}

fn number_leaf(alloc: Global, number: u64) -> Plant<Number> {
    Plant {
        label: Number { number },
        parts: Vec::new(alloc),
    }
}

// The tree with one part.
fn over(alloc: Global, part: Plant<Number>, number: u64) -> Result<Plant<Number>, AllocError> {
    let parts = vec![in alloc; part]?;
    Ok(Plant {
        label: Number { number },
        parts,
    })
}

// A chain of so many levels, each labelled by its number.
fn chain(alloc: Global, levels: u64) -> Result<Plant<Number>, AllocError> {
    let mut plant = number_leaf(alloc, 0);
    for number in 1..levels {
        plant = over(alloc, plant, number)?;
    }
    Ok(plant)
}

// Whether a tree is, or isn't, the chain of so many levels.
fn is_chain(alloc: Global, plant: &Plant<Number>, levels: u64, want: bool) -> bool {
    match chain(alloc, levels) {
        Ok(chain) => is_same(plant, &chain) == want,
        Err(_) => false,
    }
}

fn levels_are_no_depth(alloc: Global) -> bool {
    match chain(alloc, 2_000) {
        Ok(deep) => {
            structural_hash(&deep) == 580571504687712903
                && is_chain(alloc, &deep, 2_000, true)
                && is_chain(alloc, &deep, 1_999, false)
        }
        Err(_) => false,
    }
}

// Publishes so many leaves, each in its own shard.
fn leaves(alloc: Global, shards: u8, count: u64) -> Vec<Event<Number>>
    requires { 1 ≤ shards }
{
    let mut events = Vec::new(alloc);
    for number in 0..count {
        let plant = number_leaf(alloc, number);
        let shard = (structural_hash(&plant) % shards as u64) as u8;
        let _ = events.push(Event::Publish { shard, plant });
    }
    events
}

fn are_taken(alloc: Global, state: &mut CoreState<Number>) -> bool {
    state.run(alloc, leaves(alloc, 16, 300)) == Ok(300)
        && state.run(alloc, leaves(alloc, 16, 300)) == Ok(0)
}

fn each_leaf_is_taken_once(alloc: Global) -> bool {
    match CoreState::begin(alloc, 16) {
        Ok(mut state) => are_taken(alloc, &mut state),
        Err(_) => false,
    }
}

fn is_row(alloc: Global, line: &str) -> bool {
    let (kind, row) = cells(line, ' ');
    let (first, rest) = cells(row, '|');
    match letter(kind) {
        b'h' => is_hashed(alloc, first, rest),
        b's' => is_compared(alloc, first, rest),
        b'n' => is_next(first, rest),
        b'c' => is_copied(alloc),
        b'l' => levels_are_no_depth(alloc),
        b'm' => each_leaf_is_taken_once(alloc),
        kind => is_script(alloc, kind == b'r'),
    }
}

#[test]
fn trees_and_events_of_the_core(rt: HostRuntime) {
    for line in ROWS.split('\n') {
        assert!(rt; is_row(rt.alloc(), line), "{line}");
    }
}
