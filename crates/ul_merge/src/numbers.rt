//! Numbers of names and nodes: equal ones have equal numbers, and others mostly not.
ghost use Rattle.std.specs.Prelude.{◌≡◌};
ghost use Rattle.ul_merge.specs.Numbers.{mixed, name_number, node_number};

use ul_base::{Name, Node};

/// A number of a list and one more.
pub(crate) fn mixed(seed: u64, number: u64) -> u64
    ensures { result ≡ mixed seed number }
{
    seed.wrapping_mul(1_099_511_628_211).wrapping_add(number)
}

/// A number of a name, behind what was numbered before.
pub(crate) fn name_number(seed: u64, name: &Name) -> u64
    ensures { result ≡ name_number seed name.now }
{
    let mut number = seed;
    for byte in name.text().as_bytes() {
        number = mixed(number, u64::from(*byte));
    }
    number
}

/// A number of a node.
pub(crate) fn node_number(node: &Node) -> u64
    ensures { result ≡ node_number node.now }
{
    let number = name_number(0, &node.name);
    match &node.extra {
        None => number,
        Some(extra) => name_number(mixed(number, 256), extra),
    }
}
