//! The problems that the tests are about. A node's versions are written 1, 2 and so on, and `a 2 (c>=2)` is version 2
//! of a, which needs c.
use crate::problem_texts::read_problem;
use crate::solver::told::put;
use std::alloc::Global;
use std::fmt::Write;
use tests_rows::cells;
use ul_problem::Problem;

// A problem a row, behind its name:
//
// crossed: nodes a, b, c, demo: a 1 (c), a 2 (c>=2), b 1 (c<2), c 1, c 2. demo needs a and b.
// chained: nodes a, b, c, d, demo, u: a 1, a 2 (b), b 1 (c), c 1 (d>=2), d 1, d 2, u 1, u 2. demo needs a, u and d<2.
// alone, missed, three, later: nodes a, demo: a has one version or three, and demo permits each, none, or those from the
// second on.
// spare: nodes a, demo, x: a 1 (x) to a 8 (x), x 1. demo needs a.
// at_once: nodes a, demo, x: a 1, a 2 (x>=2), a 3 (x>=2), x 1, x 2. demo needs a and x<2.
// opposed: nodes demo, q: q 1, q 2. demo needs q>=2 and q<2.
// hopeless: nodes demo, q, z: q 1 (z), q 2 (z), and z has no versions. demo needs q<2.
// extra, extra_below_2, no_extra: nodes demo, p, p[x], q: p 1, p 2, and p 3, which isn't fit; p[x] 1 (q), p[x] 2 (q).
// demo needs p, and p[x] at any version, before 2, or at none.
// pigeons: nodes demo, h0 to h3, p0 to p4: each p sits in one of the h, which has the version of one p.
const SHAPES: &str = "crossed 3 a|2 2 0 2|2 2 1 2;b|2 2 0 1;c||;demo|0 2 0 2,1 1 0 1\n\
    chained 4 a||1 1 0 1;b|2 1 0 1;c|3 2 1 2;d||;demo|0 2 0 2,5 2 0 2,3 2 0 1;u||\n\
    alone 1 a|;demo|0 1 0 1\n\
    missed 1 a|;demo|0 1 1 1\n\
    three 1 a|||;demo|0 3 0 3\n\
    later 1 a|||;demo|0 3 1 3\n\
    spare 1 a|2 1 0 1|2 1 0 1|2 1 0 1|2 1 0 1|2 1 0 1|2 1 0 1|2 1 0 1|2 1 0 1;demo|0 8 0 8;x|\n\
    at_once 1 a||2 2 1 2|2 2 1 2;demo|0 3 0 3,2 2 0 1;x||\n\
    opposed 0 demo|1 2 1 2,1 2 0 1;q||\n\
    hopeless 0 demo|1 2 0 1;q|2 0 0 0|2 0 0 0;z\n\
    extra 0 demo|1 3 0 3,2 3 0 3;p 2|||;p/x 2|3 1 0 1|3 1 0 1|;q|\n\
    extra_below_2 0 demo|1 3 0 3,2 3 0 1;p 2|||;p/x 2|3 1 0 1|3 1 0 1|;q|\n\
    no_extra 0 demo|1 3 0 3,2 3 0 0;p 2|||;p/x 2|3 1 0 1|3 1 0 1|;q|\n\
    pigeons 0 demo|5 4 0 4,6 4 0 4,7 4 0 4,8 4 0 4,9 4 0 4;\
    h0|||||;\
    h1|||||;\
    h2|||||;\
    h3|||||;\
    p0|1 5 0 1|2 5 0 1|3 5 0 1|4 5 0 1;\
    p1|1 5 1 2|2 5 1 2|3 5 1 2|4 5 1 2;\
    p2|1 5 2 3|2 5 2 3|3 5 2 3|4 5 2 3;\
    p3|1 5 3 4|2 5 3 4|3 5 3 4|4 5 3 4;\
    p4|1 5 4 5|2 5 4 5|3 5 4 5|4 5 4 5";

// Nodes a, b, demo, e, u00000 and so on, x: a 1, a 2 (b, e), b 1 (x==1), b 2 (x==2), e 1 (x==3), e 2 (x==4), and two
// versions of each u. demo needs a and each u. Nothing clashes at a 2 until b is decided, which comes after each u.
fn distant(alloc: Global, count: u64) -> String {
    let x = 4u64.saturating_add(count);
    let mut text = String::new(alloc);
    put(&mut text, "2 a||1 2 0 2,3 2 0 2;b|", x);
    put(&mut text, " 4 0 1|", x);
    let _ = text.push_str(" 4 1 2;demo|0 2 0 2");
    for k in 4..x {
        put(&mut text, ",", k);
        let _ = text.push_str(" 2 0 2");
    }
    put(&mut text, ";e|", x);
    put(&mut text, " 4 2 3|", x);
    let _ = text.push_str(" 4 3 4");
    for k in 0..count {
        let _ = write!(text, ";u{k:05}||");
    }
    let _ = text.push_str(";x||||");
    text
}

// Puts what a version of a package of `pins` needs, by the first letter of its name.
fn put_pin(text: &mut String, letter: char, version: u64) {
    match letter {
        'n' => {
            let _ = text.push_str("|");
        }
        's' => {
            put(text, "|0 300 ", version);
            put(text, " ", version.saturating_add(1));
        }
        _ => {
            put(text, "|3 300 ", version);
            let _ = text.push_str(" 300");
        }
    }
}

// A node of 300 versions.
fn put_pins(text: &mut String, name: &str, letter: char) {
    let _ = text.push_str(name);
    for version in 0u64..300 {
        put_pin(text, letter, version);
    }
}

// Nodes core, demo, legacy, net, svc: each version of svc pins core's, core needs that version of net or a later one,
// and legacy permits only the oldest two of net. demo needs svc and legacy.
fn pins(alloc: Global) -> String {
    let mut text = String::new(alloc);
    put_pins(&mut text, "1 core", 'c');
    let _ = text.push_str(";demo|4 300 0 300,2 1 0 1;legacy|3 300 0 2");
    put_pins(&mut text, ";net", 'n');
    put_pins(&mut text, ";svc", 's');
    text
}

// The row of a name, if there is one.
fn row_of(shape: &str) -> Option<&'static str> {
    for row in SHAPES.split('\n') {
        let (name, text) = cells(row, ' ');
        if name == shape {
            return Some(text);
        }
    }
    None
}

fn made(alloc: Global, shape: &str) -> String {
    match shape.strip_prefix("distant_") {
        Some(count) => distant(alloc, count.parse::<u64>().unwrap_or(0)),
        None => pins(alloc),
    }
}

/// The problem of this name: of a row above, `distant_` with a count, or `pins`.
pub(crate) fn problem_of(alloc: Global, shape: &str, order: &str) -> Option<Problem> {
    match row_of(shape) {
        Some(text) => read_problem(alloc, text, order),
        None => read_problem(alloc, made(alloc, shape).as_str(), order),
    }
}
