//! Names, nodes, files and sinks: that the calls succeed, at size too, and that the definitions mean what PEP 503 and
//! PEP 508 do.
use crate::reading::texts::{number, repeated};
use std::alloc::Global;
use std::collections::{BTreeSet, HashSet};
use tests_rows::{cells, letter, put, put_number};
use ul_base::{Gate, Name, NameFault, Node, Open, is_name};
use ul_files::{Files, MemFiles, MemSink, ReadRefused, Sink, SinkRefused, SureFiles};

// What is tried, a case a row. The first word, by its letter, says what the others are:
//
// name TEXT=FORM: a text, and the normal form of the name that it is, or nothing where it is no name.
// long PIECE=FORM: the same of A with 9,999 such pieces behind it; the form is a with as many.
// order NODE|NODE..: nodes in their order, each a name, and after a blank an extra.
// keys COUNT TEXTS: how many names texts are in a hashed set, where a_B is among them.
// failing_files READS, sure_files READS: reads `PATH LIMIT ANSWER` of three files, answered by `got TEXT`, `absent`,
// `too long` or `failed`. The third read of the failing ones fails.
// memory_files many, sure_files many: 50,000 files, each path twice, of which the first is read. Where each read walks
// the list, this takes 25 billion steps.
// written KEPT=PIECE|PIECE..: what a sink in memory keeps of pieces, of which those behind a ! fail.
// gate: the gate that lets through.
const ROWS: &str = "name Web_App=web-app;\
    name A.B=a-b;\
    name a-b=a-b;\
    name a__b=a-b;\
    name a-._b=a-b;\
    name Zope.Interface=zope-interface;\
    name 7z=7z;\
    name X=x;\
    name =;\
    name -a=;\
    name a-=;\
    name a b=;\
    name _=;\
    name .=;\
    name a.=;\
    name é=;\
    name aéb=;\
    name a\nb=;\
    name a]=;\
    long b=b;\
    long .b=-b;\
    long _.-b=-b;\
    long  b=;\
    order a|a x|a y|a-b|b|b a;\
    keys 2 A.B a-b a__b c;\
    failing_files p 5 got 12345|p 4 too long|q 9 failed|q 0 got |r 9 absent;\
    sure_files p 5 got 12345|p 4 too long|q 9 got |r 9 absent;\
    memory_files many;\
    sure_files many;\
    written first secon third end=first |!second|! third| end;\
    gate";

// Whether a name that a text is has this form, and is its own copy.
fn is_named(alloc: Global, name: &Name, text: &str, form: &str) -> bool {
    if !is_name(text) || name.text() != form {
        return false;
    }
    match name.copy(alloc) {
        Ok(copy) => copy == *name,
        Err(_) => false,
    }
}

// Whether a text is a name of this form; or no name, where there is no form.
fn is_form(alloc: Global, text: &str, form: &str) -> bool {
    match Name::read(alloc, text) {
        Ok(name) => is_named(alloc, &name, text, form),
        Err(NameFault::NoReading) => form.is_empty() && !is_name(text),
        Err(NameFault::NoMemory) => false,
    }
}

fn is_long(alloc: Global, piece: &str, form: &str) -> bool {
    let text = repeated(alloc, "A", piece, 9_999);
    let start = if form.is_empty() { "" } else { "a" };
    let form = repeated(alloc, start, form, 9_999);
    is_form(alloc, text.as_str(), form.as_str())
}

fn node(alloc: Global, text: &str) -> Option<Node> {
    let (name, extra) = cells(text, ' ');
    let name = Name::read(alloc, name).ok()?;
    let extra = Name::read(alloc, extra).ok();
    Some(Node { name, extra })
}

fn copied_node(alloc: Global, text: &str) -> Option<Node> {
    let node = node(alloc, text)?;
    node.copy(alloc).ok()
}

// Puts a node into a set, where there is one.
fn put_node(nodes: &mut BTreeSet<Node>, node: Option<Node>) {
    if let Some(node) = node {
        let _ = nodes.insert(node);
    }
}

fn is_node(alloc: Global, listed: &Node, text: &str) -> bool {
    match node(alloc, text) {
        Some(node) => node == *listed,
        None => false,
    }
}

// Whether the nodes of a text are these, in this order.
fn are_listed(alloc: Global, nodes: &BTreeSet<Node>, texts: &str) -> bool {
    for (listed, text) in nodes.iter().zip(texts.split('|')) {
        if !is_node(alloc, listed, text) {
            return false;
        }
    }
    nodes.len() == texts.split('|').count()
}

// Whether nodes that are put into a set from the last on, each behind its copy, come out in their order.
fn are_ordered(alloc: Global, texts: &str) -> bool {
    let mut nodes = BTreeSet::new(alloc);
    for text in texts.rsplit('|') {
        put_node(&mut nodes, copied_node(alloc, text));
        put_node(&mut nodes, node(alloc, text));
    }
    are_listed(alloc, &nodes, texts)
}

// Puts the name that a text is into a set.
fn put_name(alloc: Global, names: &mut HashSet<Name>, text: &str) {
    if let Ok(name) = Name::read(alloc, text) {
        let _ = names.insert(name);
    }
}

fn has_name(alloc: Global, names: &HashSet<Name>, text: &str) -> bool {
    match Name::read(alloc, text) {
        Ok(name) => names.contains(&name),
        Err(_) => false,
    }
}

fn are_keys(alloc: Global, row: &str) -> bool {
    let (count, texts) = cells(row, ' ');
    let mut names = HashSet::new(alloc);
    for text in texts.split(' ') {
        put_name(alloc, &mut names, text);
    }
    names.len() as u64 == number(count) && has_name(alloc, &names, "a_B")
}

// A piece, with a number behind it.
fn numbered(alloc: Global, piece: &str, number: u32) -> String {
    let mut text = String::new(alloc);
    put(&mut text, piece);
    put_number(&mut text, number.into());
    text
}

// Puts a file of a path and a text into a list.
fn put_file(list: &mut Vec<(String, Vec<u8>)>, path: String, text: String) {
    let _ = list.push((path, text.into_bytes()));
}

fn few_files(alloc: Global) -> Vec<(String, Vec<u8>)> {
    let mut list = Vec::new(alloc);
    for file in "p=12345|p=other|q=".split('|') {
        let (path, text) = cells(file, '=');
        put_file(
            &mut list,
            repeated(alloc, path, "", 0),
            repeated(alloc, text, "", 0),
        );
    }
    list
}

const COUNT: u32 = 50_000;

// Of the first files each has a text of its own, and of those behind them all have the same.
fn many_files(alloc: Global) -> Vec<(String, Vec<u8>)> {
    let mut list = Vec::new(alloc);
    for number in 0..COUNT {
        put_file(
            &mut list,
            numbered(alloc, "index/", number),
            numbered(alloc, "first ", number),
        );
    }
    for number in 0..COUNT {
        put_file(
            &mut list,
            numbered(alloc, "index/", number),
            repeated(alloc, "second", "", 0),
        );
    }
    list
}

fn is_text(bytes: Vec<u8>, want: &str) -> bool {
    match want.strip_prefix("got ") {
        Some(text) => bytes.as_slice() == text.as_bytes(),
        None => false,
    }
}

fn word(refused: ReadRefused) -> &'static str {
    match refused {
        ReadRefused::TooLong => "too long",
        ReadRefused::Failed => "failed",
        ReadRefused::NoMemory => "no memory",
    }
}

// Whether a read, `PATH LIMIT ANSWER`, is answered so.
fn is_answered<F: Files>(files: &mut F, read: &str) -> bool {
    let (path, rest) = cells(read, ' ');
    let (limit, want) = cells(rest, ' ');
    match files.read(path, number(limit)) {
        Ok(Some(bytes)) => is_text(bytes, want),
        Ok(None) => want == "absent",
        Err(refused) => word(refused) == want,
    }
}

// The read of a file of many, which answers the first of its path.
fn first_read(alloc: Global, number: u32) -> String {
    let mut read = numbered(alloc, "index/", number);
    put(&mut read, " 99 got first ");
    put_number(&mut read, number.into());
    read
}

fn reads_many<F: Files>(alloc: Global, files: &mut F) -> bool {
    for number in 0..COUNT {
        let read = first_read(alloc, number);
        if !is_answered(files, read.as_str()) {
            return false;
        }
    }
    is_answered(files, "index 99 absent")
}

fn are_read<F: Files>(alloc: Global, files: &mut F, reads: &str) -> bool {
    if reads == "many" {
        return reads_many(alloc, files);
    }
    for read in reads.split('|') {
        if !is_answered(files, read) {
            return false;
        }
    }
    true
}

fn files_of(alloc: Global, reads: &str) -> Vec<(String, Vec<u8>)> {
    if reads == "many" {
        many_files(alloc)
    } else {
        few_files(alloc)
    }
}

// Whether files, of which the reads of these numbers fail, answer so.
fn files_answer(alloc: Global, reads: &str, failing: Vec<u64>) -> bool {
    let mut files = MemFiles::of(alloc, files_of(alloc, reads), failing);
    are_read(alloc, &mut files, reads)
}

fn failing_files_answer(alloc: Global, reads: &str) -> bool {
    let mut failing = Vec::new(alloc);
    let _ = failing.push(2);
    files_answer(alloc, reads, failing)
}

fn sure_files_answer(alloc: Global, reads: &str) -> bool {
    let mut files = SureFiles::of(alloc, files_of(alloc, reads));
    are_read(alloc, &mut files, reads)
}

// Whether a piece is written, or else refused by a fault.
fn is_written<K: Sink>(sink: &mut K, row: &str) -> bool {
    let piece = row.strip_prefix("!").unwrap_or(row);
    match sink.write_all(piece.as_bytes()) {
        Ok(()) => !row.starts_with("!"),
        Err(SinkRefused::Failed) => row.starts_with("!"),
        Err(SinkRefused::NoMemory) => false,
    }
}

fn are_written<K: Sink>(sink: &mut K, pieces: &str) -> bool {
    for piece in pieces.split('|') {
        if !is_written(sink, piece) {
            return false;
        }
    }
    true
}

fn failing_writes(alloc: Global) -> Vec<(u64, u64)> {
    let mut failing = Vec::new(alloc);
    let _ = failing.push((1, 5));
    let _ = failing.push((2, 9));
    let _ = failing.push((2, 0));
    failing
}

fn is_kept(alloc: Global, kept: &str, pieces: &str) -> bool {
    let mut sink = MemSink::of(alloc, failing_writes(alloc));
    are_written(&mut sink, pieces) && sink.bytes().as_slice() == kept.as_bytes()
}

fn enters<G: Gate>(gate: &G) -> bool {
    gate.enter(7);
    true
}

fn is_row(alloc: Global, line: &str) -> bool {
    let (kind, rest) = cells(line, ' ');
    let (first, second) = cells(rest, '=');
    match letter(kind) {
        b'n' => is_form(alloc, first, second),
        b'l' => is_long(alloc, first, second),
        b'o' => are_ordered(alloc, rest),
        b'k' => are_keys(alloc, rest),
        b'w' => is_kept(alloc, first, second),
        b'g' => enters(&Open),
        b'm' => files_answer(alloc, rest, Vec::new(alloc)),
        b'f' => failing_files_answer(alloc, rest),
        b's' => sure_files_answer(alloc, rest),
        _ => false,
    }
}

#[test]
fn names_nodes_files_and_sinks_are_as_told(rt: HostRuntime) {
    for line in ROWS.split(';') {
        assert!(rt; is_row(rt.alloc(), line), "{line}");
    }
}
