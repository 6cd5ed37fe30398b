//! Worlds of machines, and where markers hold at them.

use crate::marker::texts::world;
use std::alloc::Global;
use tests_rows::cells;
use ul_marker::{Marker, World};

// Pushes the world of a machine's file, if it is one.
fn push_world(alloc: Global, worlds: &mut Vec<World>, machine: &str) {
    let (file, truths) = cells(machine, '|');
    if let Some(world) = world(alloc, file, truths) {
        let _ = worlds.push(world);
    }
}

/// The worlds of machines' files that have a semicolon between them. Behind each file, after a bar, stands a marker
/// whose opaque comparisons hold there.
pub(crate) fn worlds(alloc: Global, machines: &str) -> Vec<World> {
    let mut worlds = Vec::new(alloc);
    for machine in machines.split(';') {
        push_world(alloc, &mut worlds, machine);
    }
    worlds
}

/// Whether a marker holds with an extra at each world where a digit is `1`, and only there.
pub(crate) fn holds_at(worlds: &[World], extra: &str, marker: &Marker, digits: &str) -> bool {
    for (world, digit) in worlds.iter().zip(digits.bytes()) {
        if marker.holds(world, extra) != (digit == b'1') {
            return false;
        }
    }
    worlds.len() == digits.len()
}
