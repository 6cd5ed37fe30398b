//! The calls of the interner, in one thread and in several.
ghost use Rattle.std.specs.Prelude.{◌≡◌, ◌<◌, ◌≤◌, ℕ, All, IfOk, OnOk, [], ◌∷◌, length};
ghost use Rattle.ul_interner.specs.Known.{Known, Knows};

use crate::interner::labels::{Number, Word};
use std::alloc::{AllocError, Global};
use std::fmt::Write;
use std::sync::Wait;
use std::thread;
use std::thread::Threads;
use ul_core::Label;
use ul_interner::{Interner, Mark, Pass, same};

// The mark of a leaf.
fn leaf<R: Wait>(
    rt: &R,
    alloc: Global,
    interner: &Interner<Number>,
    pass: &mut Pass<Number>,
    number: u64,
) -> Result<Mark<Number>, AllocError>
    requires { pass.old.table ≡ interner.now }
    ensures knows { Knows pass.old pass.new }
    ensures known { IfOk result (λ m. Known pass.new m) }
{
    interner.make(rt, alloc, pass, Number { number }, Vec::new(alloc))
}

// Whether a leaf has its label and this identity.
fn is_at<R: Wait>(
    rt: &R,
    alloc: Global,
    interner: &Interner<Number>,
    pass: &mut Pass<Number>,
    number: u64,
    id: (u8, u64),
) -> bool
    requires { pass.old.table ≡ interner.now }
    ensures { pass.new.table ≡ pass.old.table }
{
    match leaf(rt, alloc, interner, pass, number) {
        Ok(mark) => mark.label().number == number && mark.id() == id,
        Err(_) => false,
    }
}

fn leaf_of_two_passes_is_one<R: Wait>(
    rt: &R,
    alloc: Global,
    interner: &Interner<Number>,
    pass: &mut Pass<Number>,
) -> bool
    requires { pass.old.table ≡ interner.now }
{
    let mut second = interner.split(pass);
    let first = is_at(rt, alloc, interner, pass, 7, (7, 0));
    let again = is_at(rt, alloc, interner, &mut second, 7, (7, 0));
    let other = is_at(rt, alloc, interner, &mut second, 8, (8, 0));
    interner.join(pass, second);
    first && again && other
}

// Whether each leaf below 16 goes to the shard of its number, twice over, and the next one to the first.
fn leaf_goes_to_shard_of_hash<R: Wait>(
    rt: &R,
    alloc: Global,
    interner: &Interner<Number>,
    pass: &mut Pass<Number>,
) -> bool
    requires { pass.old.table ≡ interner.now }
{
    for number in 0..32u64 {
        let shard = number % 16;
        if !is_at(rt, alloc, interner, pass, shard, (shard as u8, 0)) {
            return false;
        }
    }
    is_at(rt, alloc, interner, pass, 16, (0, 1))
}

// After want of memory in one `make` the earlier mark is as it was, and the next `make` takes the same turn.
fn make_goes_on_after_want_of_memory<R: Wait>(
    rt: &R,
    alloc: Global,
    interner: &Interner<Number>,
    pass: &mut Pass<Number>,
) -> bool
    requires { pass.old.table ≡ interner.now }
{
    let Ok(seven) = leaf(rt, alloc, interner, pass, 7) else {
        return false;
    };
    let next = is_at(rt, alloc, interner, pass, 23, (7, 1))
        || is_at(rt, alloc, interner, pass, 23, (7, 1));
    next && seven.id() == (7, 0)
}

// The tree with two parts.
fn pair<R: Wait>(
    rt: &R,
    alloc: Global,
    interner: &Interner<Number>,
    pass: &mut Pass<Number>,
    number: u64,
    left: &Mark<Number>,
    right: &Mark<Number>,
) -> Result<Mark<Number>, AllocError>
    requires own { pass.old.table ≡ interner.now }
    requires left { Known pass.old left.now }
    requires right { Known pass.old right.now }
    ensures knows { Knows pass.old pass.new }
    ensures known { IfOk result (λ m. Known pass.new m) }
{
    let parts = Vec::from_array(alloc, [left.share()?, right.share()?])?;
    interner.make(rt, alloc, pass, Number { number }, parts)
}

// The node 1 over two leaves.
fn node<R: Wait>(
    rt: &R,
    alloc: Global,
    interner: &Interner<Number>,
    pass: &mut Pass<Number>,
    left: u64,
    right: u64,
) -> Result<Mark<Number>, AllocError>
    requires { pass.old.table ≡ interner.now }
    ensures knows { Knows pass.old pass.new }
    ensures known { IfOk result (λ m. Known pass.new m) }
{
    let left = leaf(rt, alloc, interner, pass, left)?;
    let right = leaf(rt, alloc, interner, pass, right)?;
    pair(rt, alloc, interner, pass, 1, &left, &right)
}

// Whether the node over two leaves is made, and is a given one or isn't.
fn is_node<R: Wait>(
    rt: &R,
    alloc: Global,
    interner: &Interner<Number>,
    pass: &mut Pass<Number>,
    known: &Mark<Number>,
    left: u64,
    right: u64,
    want: bool,
) -> bool
    requires own { pass.old.table ≡ interner.now }
    requires known { Known pass.old known.now }
    ensures knows { Knows pass.old pass.new }
    ensures known { Known pass.new known.now }
{
    match node(rt, alloc, interner, pass, left, right) {
        Ok(made) => same(pass, known, &made) == want,
        Err(_) => false,
    }
}

// Whether the parts have the identities of the leaves 3 and 5.
fn has_parts(node: &Mark<Number>) -> bool {
    node.count() == 2 && node.part(0).id() == (3, 0) && node.part(1).id() == (5, 0)
}

// Whether a mark apart is the same.
fn is_same_apart(alloc: Global, pass: &Pass<Number>, node: &Mark<Number>) -> bool
    requires { Known pass.now node.now }
{
    match node.apart(alloc) {
        Ok(apart) => { same(pass, node, &apart) && apart.label().number == 1 && has_parts(&apart) }
        Err(_) => false,
    }
}

fn node_keeps_identities_of_parts<R: Wait>(
    rt: &R,
    alloc: Global,
    interner: &Interner<Number>,
    pass: &mut Pass<Number>,
) -> bool
    requires { pass.old.table ≡ interner.now }
{
    let Ok(made) = node(rt, alloc, interner, pass, 3, 5) else {
        return false;
    };
    let again = is_node(rt, alloc, interner, pass, &made, 3, 5, true);
    let turned = is_node(rt, alloc, interner, pass, &made, 5, 3, false);
    again && turned && is_same_apart(alloc, pass, &made) && has_parts(&made)
}

// What one thread makes, and the identities of it.
#[derive(Drop)]
struct Maker {
    pass: Pass<Number>,
    ids: Vec<(u8, u64)>,
}

// The identities of a leaf, and of a node with the leaf twice.
fn leaf_and_node<R: Wait>(
    rt: &R,
    alloc: Global,
    interner: &Interner<Number>,
    pass: &mut Pass<Number>,
    number: u64,
) -> Result<((u8, u64), (u8, u64)), AllocError>
    requires { pass.old.table ≡ interner.now }
    ensures { pass.new.table ≡ pass.old.table }
{
    let below = leaf(rt, alloc, interner, pass, number)?;
    let node = pair(rt, alloc, interner, pass, number, &below, &below)?;
    Ok((below.id(), node.id()))
}

// The last identity of a chain of 2,000 nodes, each over the one before and a leaf.
fn chain<R: Wait>(
    rt: &R,
    alloc: Global,
    interner: &Interner<Number>,
    pass: &mut Pass<Number>,
) -> Result<(u8, u64), AllocError>
    requires { pass.old.table ≡ interner.now }
    ensures { pass.new.table ≡ pass.old.table }
{
    let mut mark = leaf(rt, alloc, interner, pass, 0)?;
    for number in 1..2000 {
        let next = leaf(rt, alloc, interner, pass, number)?;
        mark = pair(rt, alloc, interner, pass, number, &mark, &next)?;
    }
    Ok(mark.id())
}

// Five hundred leaves and a node over each, and a chain.
fn make_all<R: Wait>(
    rt: &R,
    alloc: Global,
    interner: &Interner<Number>,
    maker: &mut Maker,
) -> Result<(), AllocError>
    requires { maker.old.pass.table ≡ interner.now }
    ensures { maker.new.pass.table ≡ interner.now }
{
    for number in 0..500 {
        let (leaf, node) = leaf_and_node(rt, alloc, interner, &mut maker.pass, number)?;
        maker.ids.push(leaf)?;
        maker.ids.push(node)?;
    }
    let last = chain(rt, alloc, interner, &mut maker.pass)?;
    maker.ids.push(last)?;
    Ok(())
}

// So many makers.
fn makers(
    alloc: Global,
    interner: &Interner<Number>,
    pass: &mut Pass<Number>,
    count: usize,
) -> Result<Vec<Maker>, AllocError>
    requires { pass.old.table ≡ interner.now }
    ensures len { IfOk result (λ v. length v.items ≡ count) }
    ensures own { IfOk result (λ v. All (λ m. m.pass.table ≡ interner.now) v.items) }
{
    let mut all = Vec::new(alloc);
    for _ in 0..count {
        all.push(Maker {
            pass: interner.split(pass),
            ids: Vec::new(alloc),
        })?;
    }
    Ok(all)
}

// Each maker makes all in a thread of its own.
fn make_in_threads<R: Threads + Wait + Sync>(
    rt: &R,
    alloc: Global,
    interner: &Interner<Number>,
    makers: &mut [Maker],
)
    requires some { 0 < length makers.old }
    requires own { All (λ m. m.pass.table ≡ interner.now) makers.old }
{
    let threads = makers.len();
    thread::for_each_mut(
        rt,
        makers,
        threads,
        &|_: usize, maker: &mut Maker|
            requires { maker.now.pass.table ≡ interner.now }
            ensures { maker.exit.now.pass.table ≡ interner.entry.now }
        {
            let _made = make_all(rt, alloc, interner, maker);
        },
    );
}

// Whether all makers have the identities of a thousand leaves and nodes and of the chain, and the same ones.
fn are_alike(makers: &[Maker]) -> bool {
    for maker in makers {
        if maker.ids.len() != 1001 || maker.ids.as_slice() != makers[0].ids.as_slice() {
            return false;
        }
    }
    true
}

fn eight_threads_agree_on_identities<R: Threads + Wait + Sync>(
    rt: &R,
    alloc: Global,
    interner: &Interner<Number>,
    pass: &mut Pass<Number>,
) -> bool
    requires { pass.old.table ≡ interner.now }
{
    match makers(alloc, interner, pass, 8) {
        Ok(mut all) => {
            make_in_threads(rt, alloc, interner, all.as_mut_slice());
            are_alike(all.as_slice())
        }
        Err(_) => false,
    }
}

// Whether the mark of a word has this identity.
fn is_word<R: Wait>(
    rt: &R,
    alloc: Global,
    interner: &Interner<Word>,
    pass: &mut Pass<Word>,
    text: &str,
    id: (u8, u64),
) -> bool
    requires { pass.old.table ≡ interner.now }
    ensures { pass.new.table ≡ pass.old.table }
{
    let Ok(label) = Word::new(alloc, text) else {
        return false;
    };
    match interner.make(rt, alloc, pass, label, Vec::new(alloc)) {
        Ok(mark) => mark.id() == id,
        Err(_) => false,
    }
}

// Whether words of five bytes, whose hash is one, all go to that hash's shard, each to the place behind its colon.
fn are_words<R: Wait>(
    rt: &R,
    alloc: Global,
    interner: &Interner<Word>,
    pass: &mut Pass<Word>,
    words: &str,
) -> bool
    requires { pass.old.table ≡ interner.now }
    ensures { pass.new.table ≡ pass.old.table }
{
    for item in words.split(' ') {
        let (word, place) = item.split_once(':').unwrap_or((item, ""));
        let place = place.parse::<u64>().unwrap_or(u64::MAX);
        if !is_word(rt, alloc, interner, pass, word, (5, place)) {
            return false;
        }
    }
    true
}

// So many words of five digits, each with its number.
fn numbered(alloc: Global, count: u64) -> Result<String, AllocError> {
    let mut words = String::from_str(alloc, "00000:0")?;
    for number in 1..count {
        write!(words, " {number:05}:{number}")?;
    }
    Ok(words)
}

// Whether so many words go to one shard, one after another.
fn labels_of_one_hash_are_told_apart<R: Wait>(
    rt: &R,
    alloc: Global,
    interner: &Interner<Word>,
    pass: &mut Pass<Word>,
    count: u64,
) -> bool
    requires { pass.old.table ≡ interner.now }
    ensures { pass.new.table ≡ pass.old.table }
{
    match numbered(alloc, count) {
        Ok(words) => are_words(rt, alloc, interner, pass, words.as_str()),
        Err(_) => false,
    }
}

// What is tried, each with an interner of its own.
const CASES: &str = "a leaf of two passes is one\n\
    a leaf goes to the shard of its hash\n\
    make goes on after want of memory\n\
    a node keeps the identities of its parts\n\
    eight threads agree on identities\n\
    words are compared by their bytes\n\
    labels of one hash are told apart";

fn holds<R: Threads + Wait + Sync>(
    rt: &R,
    alloc: Global,
    interner: &Interner<Number>,
    pass: &mut Pass<Number>,
    case: &str,
) -> bool
    requires { pass.old.table ≡ interner.now }
{
    match case {
        "a leaf of two passes is one" => leaf_of_two_passes_is_one(rt, alloc, interner, pass),
        "a leaf goes to the shard of its hash" => {
            leaf_goes_to_shard_of_hash(rt, alloc, interner, pass)
        }
        "make goes on after want of memory" => {
            make_goes_on_after_want_of_memory(rt, alloc, interner, pass)
        }
        "a node keeps the identities of its parts" => {
            node_keeps_identities_of_parts(rt, alloc, interner, pass)
        }
        _ => eight_threads_agree_on_identities(rt, alloc, interner, pass),
    }
}

fn holds_of_words<R: Wait>(
    rt: &R,
    alloc: Global,
    interner: &Interner<Word>,
    pass: &mut Pass<Word>,
    case: &str,
) -> bool
    requires { pass.old.table ≡ interner.now }
{
    if case == "words are compared by their bytes" {
        return are_words(rt, alloc, interner, pass, "alpha:0 omega:1 alpha:0");
    }
    labels_of_one_hash_are_told_apart(rt, alloc, interner, pass, 300)
        && labels_of_one_hash_are_told_apart(rt, alloc, interner, pass, 400)
}

fn is_case_of_words<R: Wait>(rt: &R, alloc: Global, case: &str) -> bool {
    match Interner::<Word>::begin(alloc) {
        Ok((interner, mut pass)) => holds_of_words(rt, alloc, &interner, &mut pass, case),
        Err(_) => false,
    }
}

fn is_case<R: Threads + Wait + Sync>(rt: &R, alloc: Global, case: &str) -> bool {
    if case.starts_with("words") || case.starts_with("labels") {
        return is_case_of_words(rt, alloc, case);
    }
    match Interner::<Number>::begin(alloc) {
        Ok((interner, mut pass)) => holds(rt, alloc, &interner, &mut pass, case),
        Err(_) => false,
    }
}

#[test]
fn marks_have_identities(rt: HostRuntime) {
    for case in CASES.split('\n') {
        assert!(rt; is_case(&rt, rt.alloc(), case), "{case}");
    }
}
