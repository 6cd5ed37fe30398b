//! Requirements and their texts.

use std::alloc::Global;
use tests_rows::{cells, put, put_number};
use ul_base::{Name, Node};
use ul_marker::World;
use ul_requirement::{ReqFault, Requirement};

// What texts are read as, with `|` before the text and `#` between two rows.
const TEXTS: &str = "flask 0 false|\x0b\x0cFlask\r\n#\
    a b-c d-e 2 true|a \t[ b.c ,\tD-_e ] (>=1 , <2) ; os_name == 'nt' #\
    a 1 false|a[]<1#\
    a 0 true|a;extra=='x'#\
    a 1 false|a(==1.*,)#\
    a 0 false|a( )#\
    url|a @ git+https://x/y@z ; os_name=='a'#\
    url|a [b] @#\
    url|a@\u{e9}#\
    no reading|a \u{e9}#\
    no reading|\u{e9}#\
    no reading|a\u{a0}#\
    no reading|a\x0b>=1#\
    no reading|a[\nb]#\
    no reading|a[b][c]#\
    no reading|[b]#\
    no reading|@#\
    no reading|a[b@c]#\
    no reading|a;os_name=='a';#\
    no reading|a===1#\
    no reading|a>=1 @ x#\
    no reading|a)(";

// Puts a requirement in short: the name, the extras, and how many clauses and whether a marker there are.
fn put_short(told: &mut String, requirement: &Requirement) {
    put(told, requirement.name.text());
    for extra in &requirement.extras {
        put(told, " ");
        put(told, extra.text());
    }
    put(told, " ");
    put_number(told, requirement.specifiers.clauses.len() as u64);
    put(
        told,
        if requirement.marker.is_some() {
            " true"
        } else {
            " false"
        },
    );
}

// What a text is read as.
fn told(alloc: Global, text: &str) -> String {
    let mut told = String::new(alloc);
    match Requirement::read(alloc, text) {
        Ok(requirement) => {
            put_short(&mut told, &requirement);
            drop(requirement);
        }
        Err(ReqFault::Url) => put(&mut told, "url"),
        Err(ReqFault::NoReading) => put(&mut told, "no reading"),
        Err(ReqFault::NoMemory) => put(&mut told, "no memory"),
    }
    told
}

fn is_row(alloc: Global, row: &str) -> bool {
    let (want, text) = cells(row, '|');
    told(alloc, text).as_str() == want
}

#[test]
fn texts_are_read_or_refused(rt: HostRuntime) {
    for row in TEXTS.split('#') {
        assert!(rt; is_row(rt.alloc(), row), "{row}");
    }
}

// Puts the targets of a requirement, with a space behind each.
fn put_targets(told: &mut String, targets: &[Node]) {
    for node in targets {
        put(told, node.name.text());
        if let Some(extra) = &node.extra {
            put(told, extra.text());
        }
        put(told, " ");
    }
}

// A world whose texts are empty.
fn empty_world(alloc: Global) -> Option<World> {
    let mut texts = Vec::new(alloc);
    for _ in 0..8 {
        texts.push(String::new(alloc)).ok()?;
    }
    World::of((3, 12, 0), texts, Vec::new(alloc))
}

// The base of `p`, or `p` with an extra.
fn node(alloc: Global, extra: &str) -> Option<Node> {
    let name = Name::read(alloc, "p").ok()?;
    Some(Node {
        name,
        extra: Name::read(alloc, extra).ok(),
    })
}

// Puts whether a requirement applies to the base of `p`, at `x` and at `y`, in a world.
fn put_truths(alloc: Global, told: &mut String, requirement: &Requirement, world: &World) {
    for extra in "|x|y".split('|') {
        if let Some(node) = node(alloc, extra) {
            put(
                told,
                if requirement.applies_at(&node, world) {
                    "1"
                } else {
                    "0"
                },
            );
        }
    }
}

// The targets of a requirement, the number of its opaque comparisons, and where it applies in a world.
fn aims_told(alloc: Global, requirement: &Requirement, world: &World) -> Option<String> {
    let mut told = String::new(alloc);
    put_targets(&mut told, requirement.targets(alloc).ok()?.as_slice());
    put_number(&mut told, requirement.atoms(alloc).ok()?.len() as u64);
    put(&mut told, " ");
    put_truths(alloc, &mut told, requirement, world);
    Some(told)
}

fn is_aimed(alloc: Global, requirement: &Requirement, want: &str) -> Option<bool> {
    let world = empty_world(alloc)?;
    let told = aims_told(alloc, requirement, &world)?;
    Some(told.as_str() == want)
}

fn has_aims(alloc: Global, text: &str, want: &str) -> bool {
    match Requirement::read(alloc, text) {
        Ok(requirement) => {
            let aimed = is_aimed(alloc, &requirement, want);
            drop(requirement);
            aimed == Some(true)
        }
        Err(_) => false,
    }
}

#[test]
fn targets_and_truths(rt: HostRuntime) {
    let text = "q[v,u]; extra == 'x' or 'a' in os_name";
    assert!(rt; has_aims(rt.alloc(), text, "q qu qv 1 010"));
}

// A requirement with so many extras of each of three kinds, one of them twice, and as many clauses.
fn large(alloc: Global, count: u64) -> String {
    let mut text = String::new(alloc);
    put(&mut text, "a[");
    for number in 0..count {
        put(&mut text, "x");
        put_number(&mut text, count - number);
        put(&mut text, ",y");
        put_number(&mut text, number);
        put(&mut text, ",X.");
        put_number(&mut text, number);
        put(&mut text, ",");
    }
    put(&mut text, "y0]");
    for number in 0..count {
        put(&mut text, ">=");
        put_number(&mut text, number);
        put(&mut text, ",");
    }
    text
}

// Whether a requirement has so many extras, clauses and targets.
fn has_counts(alloc: Global, requirement: &Requirement) -> bool {
    let (extras, clauses) = (&requirement.extras, &requirement.specifiers.clauses);
    match requirement.targets(alloc) {
        Ok(targets) => extras.len() == 12_000 && clauses.len() == 4_000 && targets.len() == 12_001,
        Err(_) => false,
    }
}

// Whether the extras, clauses and targets of a large requirement are counted.
fn is_large_counted(alloc: Global) -> bool {
    let text = large(alloc, 4_000);
    match Requirement::read(alloc, text.as_str()) {
        Ok(requirement) => {
            let counted = has_counts(alloc, &requirement);
            drop(requirement);
            counted && text.len() > 80_000
        }
        Err(_) => false,
    }
}

#[test]
fn large_requirements_are_read(rt: HostRuntime) {
    assert!(rt; is_large_counted(rt.alloc()));
}
