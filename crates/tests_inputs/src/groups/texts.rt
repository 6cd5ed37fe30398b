//! Projects, and what is told of them piece by piece, which the tests share.
use std::alloc::Global;
use tests_rows::{cells, put};
use ul_groups::expand;
use ul_marker::{Marker, World};
use ul_project::{Project, project};
use ul_requirement::Requirement;
use ul_specifier::{Clause, Op};

/// The project `p` of these lines, which `~` ends.
pub(crate) fn project_of(alloc: Global, lines: &str) -> Option<Project> {
    let lines = lines.replace(alloc, "~", "\n").ok()?;
    let file = format!(in alloc; "[project]\nname = 'p'\n{lines}").ok()?;
    project(alloc, file.as_bytes()).ok()
}

/// That project with its groups expanded.
pub(crate) fn expanded_project(alloc: Global, lines: &str) -> Option<Project> {
    expand(alloc, project_of(alloc, lines)?).ok()
}

fn sign(op: Op) -> &'static str {
    match op {
        Op::Equal => "==",
        Op::Unequal => "!=",
        Op::AtLeast => ">=",
        Op::AtMost => "<=",
        Op::More => ">",
        Op::Less => "<",
        Op::Compatible => "~=",
        Op::Distinct => "!==",
    }
}

fn put_clause(alloc: Global, told: &mut String, clause: &Clause) {
    put(told, sign(clause.op));
    if let Ok(version) = clause.version.text(alloc) {
        put(told, version.as_str());
    }
}

// The interpreter 3.12.0 on a system.
fn world(alloc: Global, system: &str) -> Option<World> {
    let mut texts = Vec::new(alloc);
    texts.push(String::from_str(alloc, system).ok()?).ok()?;
    for _ in 0..7 {
        texts.push(String::new(alloc)).ok()?;
    }
    World::of((3, 12, 0), texts, Vec::new(alloc))
}

// `a` and `b` where a marker holds on the systems of these names, and `A` and `B` where it does so for the extra
// `group-a`.
const WHERE: &str = "a||a b||b a|group-a|A b|group-a|B";

// Puts the letter of a row where a marker holds as it says.
fn put_where(alloc: Global, told: &mut String, marker: &Marker, row: &str) {
    let (system, rest) = cells(row, '|');
    let (extra, letter) = cells(rest, '|');
    if let Some(world) = world(alloc, system) {
        put(
            told,
            if marker.holds(&world, extra) {
                letter
            } else {
                ""
            },
        );
    }
}

fn put_marker(alloc: Global, told: &mut String, marker: &Marker) {
    put(told, ";");
    for row in WHERE.split(' ') {
        put_where(alloc, told, marker, row);
    }
}

// Puts a requirement in short: its name, its extras, its clauses, and where its marker holds.
fn put_requirement(alloc: Global, told: &mut String, requirement: &Requirement) {
    put(told, requirement.name.text());
    for extra in &requirement.extras {
        put(told, "+");
        put(told, extra.text());
    }
    for clause in &requirement.specifiers.clauses {
        put_clause(alloc, told, clause);
    }
    if let Some(marker) = &requirement.marker {
        put_marker(alloc, told, marker);
    }
    put(told, " ");
}

/// Puts requirements in short, with a space behind each.
pub(crate) fn put_requirements(alloc: Global, told: &mut String, list: &[Requirement]) {
    for requirement in list {
        put_requirement(alloc, told, requirement);
    }
}
