//! Samples of trees, as a table.
ghost use Rattle.ul_tree.specs.TreeFacts.{IsTree};

use crate::tree::texts::tree_of;
use std::alloc::Global;
use tests_rows::{cells, put, put_number};
use ul_marker::World;
use ul_tree::part::{asks_extra, is_false};
use ul_tree::{Tree, holds, sample};

// The sample of a marker's tree: the interpreter, the texts, and the literals of the comparisons that hold; and the
// marker.
const SAMPLES: &str = "0.0.0        |python_version >= '0'\n\
    3.8.1        |python_full_version >= '3.8.1'\n\
    0.0.0 nt       |os_name == 'nt'\n\
    0.0.0        |os_name != 'nt'\n\
    0.0.0        x|implementation_name != ''\n\
    0.0.0        xx|implementation_name != '' and implementation_name != 'x'\n\
    0.0.0        +Ubuntu|'Ubuntu' in platform_version\n\
    0.0.0        |'Ubuntu' not in platform_version\n\
    3.1.0 nt x      |python_version > '3' and os_name == 'nt' and sys_platform != ''\n\
    0.0.0 a b      |sys_platform == 'b' and os_name == 'a' or python_full_version >= '3.8' and 'a' in os_name\n\
    3.8.0        +a+b|'b' in os_name and 'a' in os_name and python_version >= '3.8'";

fn shown(alloc: Global, world: &World) -> String {
    let (major, minor, patch) = world.python;
    let mut line = String::new(alloc);
    put_number(&mut line, major.into());
    put(&mut line, ".");
    put_number(&mut line, minor.into());
    put(&mut line, ".");
    put_number(&mut line, patch.into());
    for text in &world.texts {
        put(&mut line, " ");
        put(&mut line, text.as_str());
    }
    for truth in &world.truths {
        put(&mut line, "+");
        put(&mut line, truth.literal.as_str());
    }
    line
}

// Whether the sample of a tree is shown so, and the tree holds at it.
fn is_sample(alloc: Global, tree: &Tree, want: &str) -> bool
    requires { IsTree tree.now }
{
    if is_false(tree) || asks_extra(tree) {
        return false;
    }
    match sample(alloc, tree) {
        Ok(world) => {
            let so = holds(tree, &world, "") && shown(alloc, &world).as_str() == want;
            drop(world);
            so
        }
        Err(_) => false,
    }
}

fn is_sampled(alloc: Global, line: &str) -> bool {
    let (want, text) = cells(line, '|');
    match tree_of(alloc, text) {
        Ok(tree) => {
            let is_sample = is_sample(alloc, &tree, want);
            drop(tree);
            is_sample
        }
        Err(_) => false,
    }
}

#[test]
fn worlds_of_first_paths(rt: HostRuntime) {
    for line in SAMPLES.split('\n') {
        assert!(rt; is_sampled(rt.alloc(), line), "{line}");
    }
}
