//! What entries are gathered by: nodes at versions, packages, and extras.
use crate::gathering::Key;
use crate::numbers::{mixed, name_number};
use std::cmp::Ordering;
use ul_base::{Name, Node};
use ul_version::Version;

// A number of a version: those of one release have the same.
fn version_number(seed: u64, version: &Version) -> u64 {
    let mut number = seed;
    for part in &version.release {
        number = mixed(number, *part);
    }
    number
}

/// A node at a version.
#[derive(Clone, Copy, Drop)]
pub(crate) struct PickKey<'a> {
    pub(crate) node: &'a Node,
    // A number of the node.
    pub(crate) number: u64,
    pub(crate) version: &'a Version,
}

impl<'a> Key for PickKey<'a> {
    ghost use Rattle.std.specs.Cmp.{on_total, then_total};
    ghost use Rattle.std.specs.Cmp.Lexicographic.{nat_list_cmp_total, options_total};
    ghost use Rattle.ul_version.proofs.ForCallers.{version_total};
    ghost use Rattle.ul_merge.specs.Keys.{pick_cmp};

    ghost cmp = { pick_cmp };

    ghost total = { then_total (on_total (λ k. k.node.now.name) nat_list_cmp_total) (then_total (on_total (λ k. k.version.now) version_total) (on_total (λ k. k.node.now.extra) (options_total nat_list_cmp_total))) };

    fn order(&self, other: &PickKey<'a>) -> Ordering {
        match self.node.name.cmp(&other.node.name) {
            Ordering::Equal => match self.version.cmp(other.version) {
                Ordering::Equal => match (&self.node.extra, &other.node.extra) {
                    (None, None) => Ordering::Equal,
                    (None, Some(_)) => Ordering::Less,
                    (Some(_), None) => Ordering::Greater,
                    (Some(x), Some(y)) => x.cmp(y),
                },
                order => order,
            },
            order => order,
        }
    }

    fn number(&self) -> u64 {
        version_number(self.number, self.version)
    }
}

/// A package at a version.
#[derive(Clone, Copy, Drop)]
pub(crate) struct PairKey<'a> {
    pub(crate) name: &'a Name,
    pub(crate) version: &'a Version,
}

impl<'a> Key for PairKey<'a> {
    ghost use Rattle.std.specs.Cmp.{on_total, then_total};
    ghost use Rattle.std.specs.Cmp.Lexicographic.{nat_list_cmp_total};
    ghost use Rattle.ul_version.proofs.ForCallers.{version_total};
    ghost use Rattle.ul_merge.specs.Keys.{pair_cmp};

    ghost cmp = { pair_cmp };

    ghost total = { then_total (on_total (λ k. k.name.now) nat_list_cmp_total) (on_total (λ k. k.version.now) version_total) };

    fn order(&self, other: &PairKey<'a>) -> Ordering {
        match self.name.cmp(other.name) {
            Ordering::Equal => self.version.cmp(other.version),
            order => order,
        }
    }

    fn number(&self) -> u64 {
        version_number(name_number(0, self.name), self.version)
    }
}

/// An extra.
#[derive(Clone, Copy, Drop)]
pub(crate) struct ExtraKey<'a> {
    pub(crate) name: &'a Name,
}

impl<'a> Key for ExtraKey<'a> {
    ghost use Rattle.std.specs.Cmp.{on_total};
    ghost use Rattle.std.specs.Cmp.Lexicographic.{nat_list_cmp_total};
    ghost use Rattle.ul_merge.specs.Keys.{extra_cmp};

    ghost cmp = { extra_cmp };

    ghost total = { on_total (λ k. k.name.now) nat_list_cmp_total };

    fn order(&self, other: &ExtraKey<'a>) -> Ordering {
        self.name.cmp(other.name)
    }

    fn number(&self) -> u64 {
        name_number(0, self.name)
    }
}
