//! Trees made simpler, as a table.
ghost use Rattle.ul_tree.specs.TreeFacts.{IsTree};

use crate::tree::texts::{tree_count, tree_of, world_of};
use std::alloc::Global;
use tests_rows::cells;
use ul_marker::World;
use ul_tree::part::is_false;
use ul_tree::{Tree, holds, plain_simplify};

// A marker, a region, and what the marker becomes under it. In the seventh row from the end a piece without a result
// takes the earlier one, in the sixth also a result that it had itself. The last four have regions of two and three
// levels above the tree's, or between its own.
const SIMPLER: &str =
    "python_full_version >= '3.9.0' and python_full_version < '3.10.0'|python_full_version >= '3.9.0'|python_full_version < '3.10.0'\n\
    python_full_version >= '3.9.0' and python_full_version < '3.10.0'|python_full_version < '3.10.0'|python_full_version >= '3.9.0'\n\
    python_version >= '3.9' and os_name == 'nt'|python_version >= '3.9' and 'x' in os_name|os_name == 'nt'\n\
    os_name == 'nt'|os_name == 'nt' and sys_platform == 'win32'|python_version >= '0'\n\
    sys_platform == 'win32'|os_name == 'nt' and sys_platform == 'win32' or os_name == 'x'|sys_platform == 'win32'\n\
    python_version < '3.9' or python_version >= '3.11'|python_version >= '3.10'|python_version >= '3.11'\n\
    python_version == '3.9'|python_version != '3.9'|python_version < '0'\n\
    os_name == 'nt'|os_name == 'nt'|python_version >= '0'\n\
    os_name == 'nt'|os_name != 'nt'|python_version < '0'\n\
    os_name == 'nt'|python_version >= '3.9' and os_name == 'nt'|python_version >= '0'\n\
    python_version >= '3.9'|python_version >= '3.9' and os_name == 'nt'|python_version >= '0'\n\
    python_version >= '3.9' and os_name == 'nt'|python_version >= '3.9'|os_name == 'nt'\n\
    python_version >= '3.9' and os_name == 'nt'|os_name == 'nt'|python_version >= '3.9'\n\
    os_name == 'java' or os_name == 'nt'|os_name == 'java'|python_version >= '0'\n\
    os_name == 'java' or os_name == 'nt'|os_name != 'nt'|os_name == 'java' or os_name == 'nt'\n\
    python_version == '3.9' or os_name == 'nt'|python_version >= '3.9'|python_version < '3.10' or os_name == 'nt'\n\
    'x' in os_name|python_version >= '3.8' and os_name == 'nt' and 'x' in os_name|python_version >= '0'\n\
    sys_platform == 'win32'|python_version >= '3.8' and os_name == 'nt' and sys_platform == 'win32' or python_version < '3.8' and os_name == 'x'|sys_platform == 'win32'\n\
    python_version >= '3.8' and sys_platform == 'linux' and 'x' in os_name|python_version >= '3.8' and os_name == 'posix' and sys_platform == 'linux'|'x' in os_name\n\
    os_name == 'nt' and 'x' in os_name and 'y' in os_name|sys_platform == 'a' and 'x' in os_name and 'y' in os_name|os_name == 'nt'";

// Whether two trees say the same at a world if a region holds there.
fn agree_at(made: &Tree, tree: &Tree, region: &Tree, world: Option<World>) -> bool
    requires made_reduced { IsTree made.now }
    requires tree_reduced { IsTree tree.now }
    requires region_reduced { IsTree region.now }
{
    match world {
        Some(world) => {
            let agree = !holds(region, &world, "")
                || holds(made, &world, "") == holds(tree, &world, "");
            drop(world);
            agree
        }
        None => false,
    }
}

// Whether they do so at nine worlds.
fn agree(alloc: Global, made: &Tree, tree: &Tree, region: &Tree) -> bool
    requires made_reduced { IsTree made.now }
    requires tree_reduced { IsTree tree.now }
    requires region_reduced { IsTree region.now }
{
    for minor in 8..=10 {
        for name in "nt java posix".split(' ') {
            let world = world_of(alloc, (3, minor, 0), name, "", Vec::new(alloc));
            if !agree_at(made, tree, region, world) {
                return false;
            }
        }
    }
    true
}

// Whether a tree becomes that of a text under a region, and says there what it said before.
fn becomes(alloc: Global, tree: &Tree, region: &Tree, wanted: &str) -> bool
    requires tree_reduced { IsTree tree.now }
    requires region_reduced { IsTree region.now }
{
    if is_false(region) {
        return false;
    }
    match plain_simplify(alloc, tree, region) {
        Ok(made) => {
            let becomes = tree_count(alloc, &made, wanted) == "one"
                && agree(alloc, &made, tree, region);
            drop(made);
            becomes
        }
        Err(_) => false,
    }
}

fn is_simpler(alloc: Global, tree: &Tree, rest: &str) -> bool
    requires { IsTree tree.now }
{
    let (region, wanted) = cells(rest, '|');
    match tree_of(alloc, region) {
        Ok(region) => {
            let becomes = becomes(alloc, tree, &region, wanted);
            drop(region);
            becomes
        }
        Err(_) => false,
    }
}

fn is_row(alloc: Global, line: &str) -> bool {
    let (text, rest) = cells(line, '|');
    match tree_of(alloc, text) {
        Ok(tree) => {
            let is_simpler = is_simpler(alloc, &tree, rest);
            drop(tree);
            is_simpler
        }
        Err(_) => false,
    }
}

#[test]
fn trees_under_regions(rt: HostRuntime) {
    for line in SIMPLER.split('\n') {
        assert!(rt; is_row(rt.alloc(), line), "{line}");
    }
}
