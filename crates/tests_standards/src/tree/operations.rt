//! Trees made by the operations, against the truth of what they are made of, at many worlds.
ghost use Rattle.std.specs.Prelude.{IfOk};
ghost use Rattle.ul_tree.specs.TreeFacts.{IsTree};

use crate::tree::texts::{tree_of, world_of};
use std::alloc::{AllocError, Global};
use ul_marker::{Atom, Marker, Variable, World};
use ul_tree::{Tree, holds, plain_and, plain_at_extra, plain_not, plain_or};

// The next number of a generator.
fn next(seed: u64) -> u64 {
    seed.wrapping_mul(6364136223846793005)
        .wrapping_add(1442695040888963407)
        .rotate_left(29)
}

fn text(seed: u64) -> &'static str {
    match seed % 3 {
        0 => "",
        1 => "linux",
        _ => "nt",
    }
}

// The comparison that holds at every second world.
fn truths(alloc: Global, seed: u64) -> Option<Vec<Atom>> {
    if seed % 2 != 0 {
        return Some(Vec::new(alloc));
    }
    match Marker::read(alloc, "'Ubuntu' in platform_version") {
        Ok(marker) => {
            let atoms = marker.atoms(alloc).ok();
            drop(marker);
            atoms
        }
        Err(_) => None,
    }
}

fn world(alloc: Global, seed: u64) -> Option<World> {
    let python = (3, (seed / 18 % 3) as u32 + 7, (seed / 54 % 2) as u32);
    let truths = truths(alloc, seed)?;
    world_of(alloc, python, text(seed / 2), text(seed / 6), truths)
}

fn extra(seed: u64) -> &'static str {
    match seed % 3 {
        0 => "",
        1 => "test",
        _ => "docs",
    }
}

// A text of a tree that asks one thing.
fn leaf(seed: u64) -> &'static str {
    match seed % 5 {
        0 => "extra == 'test'",
        1 => "python_version >= '3.8'",
        2 => "os_name == 'nt'",
        3 => "sys_platform == 'linux'",
        _ => "'Ubuntu' in platform_version",
    }
}

// Whether such a tree should hold.
fn leaf_holds(seed: u64, world: &World, extra: &str) -> bool {
    match seed % 5 {
        0 => extra == "test",
        1 => world.python.0 > 3 || world.python.0 == 3 && world.python.1 >= 8,
        2 => world.text(Variable::OsName) == "nt",
        3 => world.text(Variable::SysPlatform) == "linux",
        _ => !world.truths.is_empty(),
    }
}

// What two trees become by an operation that the seed chooses.
fn joined(alloc: Global, seed: u64, first: &Tree, second: &Tree) -> Result<Tree, AllocError>
    requires first_reduced { IsTree first.now }
    requires second_reduced { IsTree second.now }
    ensures { IfOk result IsTree }
{
    if seed % 5 == 0 {
        return plain_not(alloc, first);
    }
    if seed % 2 == 0 {
        return plain_and(alloc, first, second);
    }
    plain_or(alloc, first, second)
}

// A tree made of leaves by operations that the seed chooses.
fn grown(alloc: Global, seed: u64, depth: u8) -> Result<Tree, AllocError>
    ensures { IfOk result IsTree }
{
    if depth == 0 {
        return tree_of(alloc, leaf(seed));
    }
    let first = grown(alloc, next(seed), depth - 1)?;
    let second = grown(alloc, next(seed.wrapping_add(depth.into())), depth - 1)?;
    joined(alloc, seed, &first, &second)
}

// Whether that tree should hold.
fn grown_holds(seed: u64, depth: u8, world: &World, extra: &str) -> bool {
    if depth == 0 {
        return leaf_holds(seed, world, extra);
    }
    let first = grown_holds(next(seed), depth - 1, world, extra);
    if seed % 5 == 0 {
        return !first;
    }
    let second = grown_holds(
        next(seed.wrapping_add(depth.into())),
        depth - 1,
        world,
        extra,
    );
    if seed % 2 == 0 {
        return first && second;
    }
    first || second
}

// Whether that tree, and its part of the extra `test`, hold at a world where they should.
fn agrees_at(seed: u64, tree: &Tree, of_test: &Tree, world: Option<World>, extra: &str) -> bool
    requires tree_reduced { IsTree tree.now }
    requires of_test_reduced { IsTree of_test.now }
{
    match world {
        Some(world) => {
            let agrees = holds(tree, &world, extra) == grown_holds(seed, 4, &world, extra)
                && holds(of_test, &world, extra) == grown_holds(seed, 4, &world, "test");
            drop(world);
            agrees
        }
        None => false,
    }
}

// Whether they do so at twenty worlds.
fn agrees(alloc: Global, seed: u64, tree: &Tree, of_test: &Tree) -> bool
    requires tree_reduced { IsTree tree.now }
    requires of_test_reduced { IsTree of_test.now }
{
    for turn in 0..20 {
        let world = world(alloc, next(seed.wrapping_add(turn)));
        if !agrees_at(seed, tree, of_test, world, extra(turn)) {
            return false;
        }
    }
    true
}

// Whether a tree and its part of the extra `test` hold where they should.
fn is_right(alloc: Global, seed: u64, tree: &Tree) -> bool
    requires { IsTree tree.now }
{
    match plain_at_extra(alloc, tree, "test") {
        Ok(of_test) => {
            let agrees = agrees(alloc, seed, tree, &of_test);
            drop(of_test);
            agrees
        }
        Err(_) => false,
    }
}

fn is_joined(alloc: Global, seed: u64) -> bool {
    match grown(alloc, seed, 4) {
        Ok(tree) => {
            let is_right = is_right(alloc, seed, &tree);
            drop(tree);
            is_right
        }
        Err(_) => false,
    }
}

#[test]
fn operations_join_truths(rt: HostRuntime) {
    let mut seed = 2024;
    for _ in 0..50 {
        seed = next(seed);
        assert!(rt; is_joined(rt.alloc(), seed), "at {seed}");
    }
}
