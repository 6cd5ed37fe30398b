//! The reach of each node of a lock, the root's among them.
ghost use Rattle.std.specs.Prelude.{◌≢◌, false};
ghost use Rattle.ul_nodes.specs.Plain.{truth};
ghost use Rattle.ul_nodes.specs.Reduced.{IsReduced};
ghost use Rattle.ul_tree.specs.Views.{tree_view};
ghost use Rattle.ul_lock.specs.WellFormed.{IsWellFormed};
ghost use Rattle.ul_algebra.specs.Answers.{IsDiagram};

use crate::reach::locks::text_named;
use crate::reach::rows::names;
use std::alloc::Global;
use std::sync::Wait;
use tests_rows::{cells, put};
use ul_algebra::{Algebra, Diagram, DiagramLabel};
use ul_base::Name;
use ul_interner::Interner;
use ul_lock::Lock;
use ul_lock_nodes::{first_unknown, parts_of};
use ul_lock_read::read;
use ul_reach::reaches;
use ul_tree::Tree;
use ul_tree::part::truth_value;

// A lock's name, the extras, or `-`, and the reach of each of its nodes in their order: `all`, `none` or a marker.
const ROWS: &str = "leaves - all;python_full_version < '3.11.0';python_full_version >= '3.11.0';
cycle - all;all;all;
supported - sys_platform == 'win32';sys_platform == 'linux';all;
extras - os_name == 'nt';none;all;none;none;none;
extras none,dev os_name == 'nt' or os_name == 'posix';none;all;none;all;all;
extras all os_name == 'nt' or os_name == 'posix';all;all;all;all;none;";

fn put_marker(told: &mut String, alloc: Global, tree: &Tree)
    requires reduced { IsReduced (tree_view tree.now) }
    requires not_false { tree_view tree.now ≢ truth false }
{
    if let Ok(text) = ul_marker_text::text(alloc, tree) {
        put(told, text.as_str());
    }
}

fn put_reach(told: &mut String, alloc: Global, algebra: &Algebra<'_>, reach: &Diagram)
    requires { IsDiagram algebra.now reach.now }
{
    let Ok(tree) = algebra.tree(alloc, reach) else {
        return;
    };
    match truth_value(&tree) {
        Some(true) => put(told, "all"),
        Some(false) => put(told, "none"),
        None => put_marker(told, alloc, &tree),
    }
    put(told, ";");
}

fn told<R: Wait>(
    rt: &R,
    alloc: Global,
    algebra: &mut Algebra<'_>,
    lock: &Lock,
    extras: &[Name],
) -> String
    requires { IsWellFormed lock.now }
{
    let mut told = String::new(alloc);
    if first_unknown(lock, extras).is_some() {
        return told;
    }
    let Ok(parts) = parts_of(alloc, lock.packages.as_slice()) else {
        return told;
    };
    let Ok(reached) = reaches(rt, alloc, algebra, parts.as_slice(), lock, extras) else {
        return told;
    };
    for reach in &reached {
        put_reach(&mut told, alloc, algebra, reach);
    }
    told
}

fn is_told<R: Wait>(rt: &R, alloc: Global, algebra: &mut Algebra<'_>, row: &str) -> bool {
    let (name, rest) = cells(row, ' ');
    let (extras, want) = cells(rest, ' ');
    let extras = names(alloc, extras);
    match read(alloc, text_named(name).as_bytes()) {
        Ok(lock) => {
            let told = told(rt, alloc, algebra, &lock, extras.as_slice());
            drop(lock);
            told.as_str() == want
        }
        Err(_) => false,
    }
}

fn is_row<R: Wait>(rt: &R, alloc: Global, row: &str) -> bool {
    let Ok((interner, pass)) = Interner::<DiagramLabel>::begin(alloc) else {
        return false;
    };
    let mut algebra = Algebra::begin(alloc, &interner, pass);
    is_told(rt, alloc, &mut algebra, row)
}

#[test]
fn each_node_has_its_reach(rt: HostRuntime) {
    for row in ROWS.split('\n') {
        assert!(rt; is_row(&rt, rt.alloc(), row), "{row}");
    }
}
