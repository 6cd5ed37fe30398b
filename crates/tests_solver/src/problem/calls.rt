//! The calls on small problems.
ghost use Rattle.std.specs.Prelude.{◌<◌};

use crate::problem::texts::{node, number, problem_of, read_nodes, term};
use std::alloc::{AllocError, Global};
use tests_rows::{cells, letter, put, put_number};
use ul_base::owned::made_from;
use ul_problem::{Incompat, NodeFacts, Problem, Relation, Step, Term, same_terms};
use ul_ranges::Ordinals;

// The problem of demo, q and q[x], with one need of demo.
const SMALL: &str = "demo 1,1 2 0 2;q 2;q/x 2";

// What is tried, a case a row. The first word, by its letter, says what the others are:
//
// fits ROOT NODES, unfit ROOT NODES: whether nodes are a problem with this root; behind the bar what they show.
// terms FIRST|SECOND|MET|JOINED|TOLD: two terms, `in` or `not`, a node, and the size and the ends of a set, their meet,
// their join, and what the first tells of the second.
// small, incompat: the roots and nodes of the small problem, and what a step on its first node says.
// node PLACE SIZE BASE NEEDS: a node of it, and how many needs its first version has.
// many, absent NODE: whether 300 nodes are found, and a node that isn't among them.
const ROWS: &str = "fits 0 demo 1,1 2 0 2,2 2 0 2;q 2;q/x 2|\n\
    unfit 0 demo 1,1 2 0 2,0 2 0 2,1 2 0 2;q 2;q/x 2|a set of another size\n\
    unfit 0 demo 1,2 2 0 2,1 2 0 2;q 2;q/x 2|an extra before its base\n\
    unfit 0 demo 1,1 2 0 2,3 2 0 2;q 2;q/x 2|no such target\n\
    unfit 0 r 1,1 2 0 2;q 2;q/x 2|nodes out of order\n\
    unfit 0 q 1,1 2 0 2;q 2;q/x 2|a node twice\n\
    unfit 0 demo 1,1 2 0 2;q 2;q/x 1|an extra with other versions\n\
    unfit 1 demo 1,1 2 0 2;q 2;q/x 2|a root of two versions\n\
    fits 1 demo 1,1 1 0 1;q 1;q/x 1|another root\n\
    unfit 2 demo 1,1 1 0 1;q 1;q/x 1|an extra alone as the roots\n\
    unfit 9 demo 1,1 1 0 1;q 1;q/x 1|no such root\n\
    terms in 7 4 0 2|in 7 4 1 3|in 7 4 1 2|in 7 4 0 3|unknown\n\
    terms in 7 4 0 2|not 7 4 1 3|in 7 4 0 1|not 7 4 2 3|unknown\n\
    terms not 7 4 0 2|in 7 4 1 3|in 7 4 2 3|not 7 4 0 1|unknown\n\
    terms not 7 4 0 2|not 7 4 1 3|not 7 4 0 3|not 7 4 1 2|unknown\n\
    terms in 7 4 1 2|in 7 4 1 3|in 7 4 1 2|in 7 4 1 3|holds\n\
    terms in 7 4 1 2|not 7 4 1 3|in 7 4 1 1|not 7 4 2 3|fails\n\
    small\n\
    node 0 1 none 1\n\
    node 1 2 none 0\n\
    node 2 2 1 0\n\
    incompat\n\
    many\n\
    absent a\n\
    absent p1000150b\n\
    absent z";

// Whether nodes of a text, which are all read, are no problem with a root.
fn is_unfit(alloc: Global, root: u32, text: &str) -> bool {
    let nodes = read_nodes(alloc, text);
    nodes.len() == text.split(';').count()
        && Problem::fits(alloc, [root as u64].as_slice(), nodes.as_slice()) == Ok(false)
}

// Whether nodes are a problem, or not, as the kind says.
fn is_fit(alloc: Global, kind: u8, row: &str) -> bool {
    let (case, _) = cells(row, '|');
    let (root, nodes) = cells(case, ' ');
    if kind == b'u' {
        return is_unfit(alloc, number(root), nodes);
    }
    problem_of(alloc, number(root), nodes).is_some()
}

fn is_term(made: Result<Term, AllocError>, want: &Term) -> bool {
    match made {
        Ok(made) => made.same(want),
        Err(_) => false,
    }
}

// Whether a term was made, and is a text's.
fn is_told(alloc: Global, made: Result<Term, AllocError>, text: &str) -> bool {
    match term(alloc, text) {
        Ok(want) => is_term(made, &want),
        Err(_) => false,
    }
}

fn name(relation: Relation) -> &'static str {
    match relation {
        Relation::Holds => "holds",
        Relation::Fails => "fails",
        Relation::Unknown => "unknown",
    }
}

// Whether the meet, the join and the relation of two terms are a row's.
fn are_met(alloc: Global, known: &Term, other: &Term, row: &str) -> bool {
    let (met, rest) = cells(row, '|');
    let (joined, relation) = cells(rest, '|');
    if known.node() != other.node() || known.set().size() != other.set().size() {
        return false;
    }
    name(other.relation(known)) == relation
        && is_told(alloc, known.meet(alloc, other), met)
        && is_told(alloc, known.join(alloc, other), joined)
}

fn double_negation(alloc: Global, term: &Term) -> Result<Term, AllocError> {
    let once = term.negation(alloc)?;
    once.negation(alloc)
}

// Whether the row of two terms is theirs; and the first is its own copy, and the negation of its negation.
fn is_beside(alloc: Global, known: &Term, row: &str) -> bool {
    let (other, rest) = cells(row, '|');
    match term(alloc, other) {
        Ok(other) => {
            are_met(alloc, known, &other, rest)
                && is_term(known.copy(alloc), known)
                && is_term(double_negation(alloc, known), known)
        }
        Err(_) => false,
    }
}

fn are_terms(alloc: Global, row: &str) -> bool {
    let (known, rest) = cells(row, '|');
    match term(alloc, known) {
        Ok(known) => is_beside(alloc, &known, rest),
        Err(_) => false,
    }
}

fn has_parts(facts: &NodeFacts, size: usize, base: Option<u64>) -> bool {
    facts.versions.as_slice().len() == size
        && facts.order.as_vec().len() == size
        && facts.needs.as_slice().len() == size
        && facts.base == base
}

// Whether a node is read as one of so many versions, with its base and the needs of its first version.
fn is_read(problem: &Problem, node: u64, size: u32, base: Option<u64>, needs: usize) -> bool {
    if node >= problem.nodes().len() as u64 || problem.size_at(node) != size {
        return false;
    }
    problem.order_at(node).len() == size as usize
        && problem.size_at(node) > 0
        && problem.needs_at(node, 0).len() == needs
        && problem.base_at(node) == base
}

fn is_node(problem: &Problem, text: &str) -> bool {
    let (node, rest) = cells(text, ' ');
    let (size, rest) = cells(rest, ' ');
    let (base, needs) = cells(rest, ' ');
    let (node, size, base) = (number(node), number(size), base.parse::<u64>().ok());
    match problem.nodes().get(node as usize) {
        Some(facts) => {
            has_parts(facts, size as usize, base)
                && is_read(problem, node as u64, size, base, number(needs) as usize)
        }
        None => false,
    }
}

// What a step on the node of demo says.
fn said(alloc: Global, problem: &Problem) -> Result<Incompat, AllocError> {
    if problem.nodes().len() != 3 {
        return Err(AllocError);
    }
    let versions = Ordinals::all(alloc, problem.size_at(0))?;
    let step = Step::Python { node: 0, versions };
    let copy = made_from(step.copy(alloc), step)?;
    made_from(copy.says(alloc, problem), copy)
}

fn is_copied(alloc: Global, said: &Incompat) -> bool {
    match said.copy(alloc) {
        Ok(copy) => copy.terms().len() == 1 && same_terms(copy.terms(), said.terms()),
        Err(_) => false,
    }
}

fn is_said(alloc: Global, problem: &Problem) -> bool {
    match said(alloc, problem) {
        Ok(said) => is_copied(alloc, &said),
        Err(_) => false,
    }
}

// Nodes with one version each, and no needs.
fn many(alloc: Global) -> String {
    let mut text = String::new(alloc);
    for k in 0u64..300 {
        put(&mut text, if k == 0 { "p" } else { ";p" });
        put_number(&mut text, 1000000 + k);
        put(&mut text, " 1");
    }
    text
}

// Whether a node of a text is at this place, or absent.
fn is_at(alloc: Global, problem: &Problem, text: &str, place: Option<u64>) -> bool {
    match node(alloc, text) {
        Some(node) => problem.place_of(&node) == place,
        None => false,
    }
}

fn are_placed(alloc: Global, problem: &Problem) -> bool {
    for k in 0u64..300 {
        let mut text = String::new(alloc);
        put(&mut text, "p");
        put_number(&mut text, 1000000 + k);
        if !is_at(alloc, problem, text.as_str(), Some(k)) {
            return false;
        }
    }
    true
}

// Whether the problem of a row is as the row says.
fn is_so(alloc: Global, problem: &Problem, kind: u8, row: &str) -> bool {
    match kind {
        b's' => problem.roots() == [0].as_slice() && problem.nodes().len() == 3,
        b'n' => is_node(problem, row),
        b'i' => is_said(alloc, problem),
        b'm' => are_placed(alloc, problem),
        _ => is_at(alloc, problem, row, None),
    }
}

fn problem(alloc: Global, kind: u8) -> Option<Problem> {
    match kind {
        b'm' | b'a' => problem_of(alloc, 0, many(alloc).as_str()),
        _ => problem_of(alloc, 0, SMALL),
    }
}

fn is_of_problem(alloc: Global, kind: u8, row: &str) -> bool {
    match problem(alloc, kind) {
        Some(problem) => is_so(alloc, &problem, kind, row),
        None => false,
    }
}

fn is_row(alloc: Global, line: &str) -> bool {
    let (word, rest) = cells(line, ' ');
    match letter(word) {
        b't' => are_terms(alloc, rest),
        b'f' => is_fit(alloc, b'f', rest),
        b'u' => is_fit(alloc, b'u', rest),
        kind => is_of_problem(alloc, kind, rest),
    }
}

#[test]
fn problems_and_terms_are_as_told(rt: HostRuntime) {
    for line in ROWS.split('\n') {
        assert!(rt; is_row(rt.alloc(), line), "{line}");
    }
}
