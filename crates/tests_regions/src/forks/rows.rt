//! Small projects: their leaves, or the region that is refused, with each number of workers.
ghost use Rattle.std.specs.Prelude.{IfOk};
ghost use Rattle.ul_tree.specs.TreeFacts.{IsTree};
ghost use Rattle.ul_workers.specs.WorkerCount.{IsWorkerCount};

use crate::forks::asked::{Input, forks, input_of};
use std::alloc::{AllocError, Global};
use std::sync::Wait;
use std::thread::Threads;
use tests_rows::put;
use ul_algebra::{Algebra, Diagram, DiagramLabel};
use ul_base::{Node, Open};
use ul_forks::{ForkAnswer, ForkFault, ForkLeaf, Forked, Path};
use ul_interner::Interner;
use ul_marker::Marker;
use ul_tree::{Tree, of_marker};
use ul_version::Version;
use ul_workers::Round;

// A row has the project's requirements, its settings, and the packages: a line with names and with the releases that
// each of them has. Below the line it has the number of regions of each generation, and then the leaves: the path of
// each, its decisions, and a marker that is true where its region is.
//
// Three markers that don't depend on one another split three times. One marker in two spellings doesn't split; of two
// others the first that fails somewhere does. A release that isn't fit everywhere splits by its interpreters where the
// strategy lets it in, and else gives way to an older one. Of two refused regions the first is answered.
//
// A requirement of an extra stands in no group with one of another extra, nor is a need counted for it there.
//
// Under `deep` a clash is split by the first need of its core that fails somewhere, also one of a package that the
// project doesn't name, and again below it. What is served where it was split is split by interpreters as elsewhere. A
// region whose core holds throughout is refused; so is one below a split, in the part that has no selection.
const ROWS: &str = r#"
'q', "q<2; sys_platform == 'win32'", 'r', "r<2; os_name == 'nt'", 's', "s<2; python_version < '3.10'"
| | q,r,s {"version": "1"}, {"version": "2"}
----
1 2 4 8
[000] demo-0.1 q-1 r-1 s-1 in sys_platform == 'win32' and os_name == 'nt' and python_version < '3.10'
[001] demo-0.1 q-1 r-1 s-2 in sys_platform == 'win32' and os_name == 'nt' and python_version >= '3.10'
[010] demo-0.1 q-1 r-2 s-1 in sys_platform == 'win32' and os_name != 'nt' and python_version < '3.10'
[011] demo-0.1 q-1 r-2 s-2 in sys_platform == 'win32' and os_name != 'nt' and python_version >= '3.10'
[100] demo-0.1 q-2 r-1 s-1 in sys_platform != 'win32' and os_name == 'nt' and python_version < '3.10'
[101] demo-0.1 q-2 r-1 s-2 in sys_platform != 'win32' and os_name == 'nt' and python_version >= '3.10'
[110] demo-0.1 q-2 r-2 s-1 in sys_platform != 'win32' and os_name != 'nt' and python_version < '3.10'
[111] demo-0.1 q-2 r-2 s-2 in sys_platform != 'win32' and os_name != 'nt' and python_version >= '3.10'
====
"a; python_version > '3.7'", "a; python_full_version >= '3.8'" | | a {"version": "1"}
----
1
[] demo-0.1 a-1 in python_version >= '0'
====
"n>=2; python_version >= '3.11'", "n<2; python_version < '3.11'"
| requires-python = '>=3.9' | n {"version": "1"}, {"version": "2"}
----
1 2
[0] demo-0.1 n-2 in python_version >= '3.11'
[1] demo-0.1 n-1 in python_version >= '3.9' and python_version < '3.11'
====
'q>=1', "q<2; sys_platform == 'win32'" | | q {"version": "1"}, {"version": "2"}
----
1 2
[0] demo-0.1 q-1 in sys_platform == 'win32'
[1] demo-0.1 q-2 in sys_platform != 'win32'
====
'a'
| requires-python = '>=3.9'
[tool.uv]
fork-strategy = 'requires-python'
| a {"version": "1", "requires_python": ">=3.8"}, {"version": "2", "requires_python": ">=3.10"}
----
1 2
[0] demo-0.1 a-2 in python_full_version >= '3.10'
[1] demo-0.1 a-1 in python_full_version >= '3.9' and python_full_version < '3.10'
====
'a'
| requires-python = '>=3.9'
[tool.uv]
fork-strategy = 'fewest'
| a {"version": "1", "requires_python": ">=3.8"}, {"version": "2", "requires_python": ">=3.10"}
----
1
[] demo-0.1 a-1 in python_full_version >= '3.9'
====
"q<2; sys_platform == 'win32'", "q>=2; sys_platform != 'win32'"
| | q {"version": "1", "requires_dist": ["z"]}, {"version": "2", "requires_dist": ["z"]}
----
1 2
[0] refused in sys_platform == 'win32'
====
'a', 'b'
|
| a {"version": "1", "requires_dist": ["c<2; sys_platform == 'win32'"]}
b {"version": "1", "requires_dist": ["c>=2; sys_platform != 'win32'"]}
c {"version": "1"}, {"version": "2"}
----
1
[] refused in python_version >= '0'
====
'a', 'b'
| [tool.uv]
fork-strategy = 'deep'
| a {"version": "1", "requires_dist": ["c<2; sys_platform == 'win32'"]}
b {"version": "1", "requires_dist": ["c>=2; sys_platform != 'win32'"]}
c {"version": "1"}, {"version": "2"}
----
1 2
[0] demo-0.1 a-1 b-1 c-1 in sys_platform == 'win32'
[1] demo-0.1 a-1 b-1 c-2 in sys_platform != 'win32'
====
'a', 'b'
| [tool.uv]
fork-strategy = 'deep'
| a {"version": "1", "requires_dist": ["c<2; sys_platform == 'win32'"]}
b {"version": "1", "requires_dist": ["c>=2; os_name == 'nt'"]}
c {"version": "1"}, {"version": "2"}
----
1 2 2
[00] refused in sys_platform == 'win32' and os_name == 'nt'
====
'a', 'b', 'd', 'e'
| [tool.uv]
fork-strategy = 'deep'
| a {"version": "1", "requires_dist": ["c==1; sys_platform == 'win32'"]}
b {"version": "1", "requires_dist": ["c==2; sys_platform == 'linux'"]}
d {"version": "1", "requires_dist": ["c==3; sys_platform == 'darwin'"]}
e {"version": "1", "requires_dist": ["c==4; sys_platform == 'aix'"]}
c {"version": "1"}, {"version": "2"}, {"version": "3"}, {"version": "4"}
----
1 2 2 2
[0] demo-0.1 a-1 b-1 d-1 e-1 c-3 in sys_platform == 'darwin'
[10] demo-0.1 a-1 b-1 d-1 e-1 c-2 in sys_platform == 'linux'
[110] demo-0.1 a-1 b-1 d-1 e-1 c-1 in sys_platform == 'win32'
[111] demo-0.1 a-1 b-1 d-1 e-1 c-4 in sys_platform != 'darwin' and sys_platform != 'linux' and sys_platform != 'win32'
====
'a'
| [tool.uv]
fork-strategy = 'deep'
| a {"version": "1", "requires_dist": ["b", "d"]}
b {"version": "1", "requires_dist": ["c<2; os_name == 'nt'"]}
d {"version": "1", "requires_dist": ["c>=2; os_name != 'nt'"]}
c {"version": "1"}, {"version": "2"}
----
1 2
[0] demo-0.1 a-1 b-1 d-1 c-1 in os_name == 'nt'
[1] demo-0.1 a-1 b-1 d-1 c-2 in os_name != 'nt'
====
'a', 'b'
| requires-python = '>=3.9'
[tool.uv]
fork-strategy = 'deep'
| a {"version": "1", "requires_dist": ["c<2; python_version < '3.10'"]}
b {"version": "1", "requires_dist": ["c>=2; python_version >= '3.10'"]}
c {"version": "1"}, {"version": "2", "requires_python": ">=3.8"}, {"version": "3", "requires_python": ">=3.11"}
----
1 2 2
[0] demo-0.1 a-1 b-1 c-1 in python_version >= '3.9' and python_version < '3.10'
[10] demo-0.1 a-1 b-1 c-3 in python_version >= '3.11'
[11] demo-0.1 a-1 b-1 c-2 in python_version >= '3.10' and python_version < '3.11'
====
"q<2; sys_platform == 'win32'", "q>=2; sys_platform != 'win32'"
| [tool.uv]
fork-strategy = 'deep'
| q {"version": "1", "requires_dist": ["z"]}, {"version": "2", "requires_dist": ["z"]}
----
1 2
[0] refused in sys_platform == 'win32'
====
'p[x]'
| | p {"version": "1", "requires_dist": ["q<2; extra == 'x' and os_name == 'nt'", "q<1; extra == 'y'", "q>=2; extra == 'x' and os_name != 'nt'"]}
q {"version": "1"}, {"version": "2"}
----
1 2
[0] demo-0.1 p-1 p-1 q-1 in os_name == 'nt'
[1] demo-0.1 p-1 p-1 q-2 in os_name != 'nt'
====
'p[x,y]'
| | p {"version": "1", "requires_dist": ["q<2; extra == 'x' and os_name == 'nt'", "q>=2; extra == 'y' and os_name != 'nt'"]}
q {"version": "1"}, {"version": "2"}
----
1
[] refused in python_version >= '0'
====
'p[x]', 's'
| [tool.uv]
fork-strategy = 'deep'
| p {"version": "1", "requires_dist": ["z; extra == 'y'", "r[u]; extra == 'x' or extra == 'y'", "c<2; extra == 'x' and os_name == 'nt'"]}
s {"version": "1", "requires_dist": ["c>=2; os_name != 'nt'"]}
r {"version": "1"}
c {"version": "1"}, {"version": "2"}
----
1 2
[0] demo-0.1 p-1 p-1 s-1 r-1 r-1 c-1 in os_name == 'nt'
[1] demo-0.1 p-1 p-1 s-1 r-1 r-1 c-2 in os_name != 'nt'
"#;

// Puts the digits of a path.
fn put_path(told: &mut String, path: &Path) {
    put(told, "[");
    for digit in path.digits() {
        put(told, if *digit { "1" } else { "0" });
    }
    put(told, "]");
}

fn put_decision(alloc: Global, told: &mut String, node: &Node, version: &Version) {
    put(told, " ");
    put(told, node.name.text());
    put(told, "-");
    if let Ok(version) = version.text(alloc) {
        put(told, version.as_str());
    }
}

// The path and the decisions of a leaf.
fn leaf_told(alloc: Global, leaf: &ForkLeaf) -> String {
    let mut told = String::new(alloc);
    put_path(&mut told, &leaf.path);
    for (node, version) in leaf.done.as_slice() {
        put_decision(alloc, &mut told, node, version);
    }
    told
}

// The tree of a marker.
fn tree_in(alloc: Global, marker: &str) -> Result<Tree, AllocError>
    ensures { IfOk result IsTree }
{
    match Marker::read(alloc, marker) {
        Ok(marker) => of_marker(alloc, &marker),
        Err(_) => Err(AllocError),
    }
}

// The diagram of a marker.
fn region_of<R: Wait>(
    rt: &R,
    alloc: Global,
    algebra: &mut Algebra<'_>,
    marker: &str,
) -> Result<Diagram, AllocError> {
    let tree = tree_in(alloc, marker)?;
    algebra.of_tree(rt, alloc, &tree)
}

// Whether a line has this text and this region. Diagrams of one interner are one where their truth is one.
fn is_line<R: Wait>(
    rt: &R,
    alloc: Global,
    algebra: &mut Algebra<'_>,
    told: &str,
    region: &Diagram,
    line: &str,
) -> bool {
    let (wanted, marker) = line.split_once(" in ").unwrap_or((line, ""));
    match region_of(rt, alloc, algebra, marker) {
        Ok(there) => told == wanted && region.id() == there.id(),
        Err(_) => false,
    }
}

// Whether a line has this leaf.
fn is_leaf<R: Wait>(
    rt: &R,
    alloc: Global,
    algebra: &mut Algebra<'_>,
    leaf: &ForkLeaf,
    line: &str,
) -> bool {
    let told = leaf_told(alloc, leaf);
    is_line(rt, alloc, algebra, told.as_str(), &leaf.region, line)
}

// Whether the lines have these leaves.
fn are_leaves<R: Wait>(
    rt: &R,
    alloc: Global,
    algebra: &mut Algebra<'_>,
    leaves: &[ForkLeaf],
    lines: &str,
) -> bool {
    let mut lines = lines.lines();
    for leaf in leaves {
        let line = lines.next().unwrap_or("");
        if !is_leaf(rt, alloc, algebra, leaf, line) {
            return false;
        }
    }
    lines.next().is_none()
}

// Whether the lines have this refused region.
fn is_refused<R: Wait>(
    rt: &R,
    alloc: Global,
    algebra: &mut Algebra<'_>,
    path: &Path,
    region: &Diagram,
    lines: &str,
) -> bool {
    let mut told = String::new(alloc);
    put_path(&mut told, path);
    put(&mut told, " refused");
    is_line(rt, alloc, algebra, told.as_str(), region, lines.trim())
}

// Whether the lines have this answer.
fn is_answer<R: Wait>(
    rt: &R,
    alloc: Global,
    algebra: &mut Algebra<'_>,
    forked: &ForkAnswer,
    lines: &str,
) -> bool {
    match forked {
        Forked::Leaves(leaves) => are_leaves(rt, alloc, algebra, leaves.as_slice(), lines),
        Forked::Refused {
            path,
            region,
            refusal: _,
        } => is_refused(rt, alloc, algebra, path, region, lines),
    }
}

// Whether there are rounds of so many regions each, with so many workers.
fn are_rounds(rounds: &[Round], workers: u64, counts: &str) -> bool {
    let mut counts = counts.split(' ');
    for round in rounds {
        let count = counts.next().unwrap_or("").parse::<u64>().unwrap_or(0);
        if round.workers() != workers || round.count() != count {
            return false;
        }
    }
    counts.next().is_none()
}

// Whether a project has these counts and this answer with so many workers.
fn is_answered<R: Threads + Wait + Sync>(
    rt: &R,
    alloc: Global,
    workers: u64,
    input: &Input,
    wanted: &str,
) -> Result<bool, ForkFault>
    requires { IsWorkerCount workers }
{
    let (counts, lines) = wanted.split_once('\n').unwrap_or((wanted, ""));
    let (interner, pass) = Interner::<DiagramLabel>::begin(alloc)?;
    let (forked, rounds, mut algebra) = forks(rt, alloc, workers, &interner, pass, input, &Open)?;
    let right = is_answer(rt, alloc, &mut algebra, &forked, lines);
    Ok(right && are_rounds(rounds.as_slice(), workers, counts))
}

// The first cell, and the rest.
fn cut(text: &str) -> (&str, &str) {
    let (cell, rest) = text.split_once('|').unwrap_or((text, ""));
    (cell.trim(), rest)
}

// The project of a row.
fn input_in(alloc: Global, text: &str) -> Option<Input> {
    let (requirements, rest) = cut(text);
    let (settings, packages) = cut(rest);
    input_of(alloc, requirements, settings, packages.trim())
}

// Whether a project has these counts and this answer with 1, 2, 8 and 64 workers.
fn are_answered<R: Threads + Wait + Sync>(
    rt: &R,
    alloc: Global,
    input: &Input,
    wanted: &str,
) -> bool {
    for workers in [1u64, 2, 8, 64] {
        if !matches!(is_answered(rt, alloc, workers, input, wanted), Ok(true)) {
            return false;
        }
    }
    true
}

// Whether a row's project has its counts and its answer.
fn is_row<R: Threads + Wait + Sync>(rt: &R, alloc: Global, row: &str) -> bool {
    let (text, wanted) = row.split_once("----\n").unwrap_or((row, ""));
    match input_in(alloc, text) {
        Some(input) => are_answered(rt, alloc, &input, wanted),
        None => false,
    }
}

#[test]
fn small_projects_with_each_number_of_workers(rt: HostRuntime) {
    for row in ROWS.split("====\n") {
        assert!(rt; is_row(&rt, rt.alloc(), row), "{row}");
    }
}
