//! Releases in the order of their versions.

ghost use Rattle.std.specs.Prelude.{◌≡◌, [], IfOk, OnOk};
ghost use Rattle.std.specs.BTreeSet.{insert_key};
ghost use Rattle.std.specs.Cmp.{eq_by_cmp_equiv, on_total, partial_equiv_from_equiv, partial_order_from_total};
ghost use Rattle.std.specs.Ordering.{as_partial_cmp, eq_by_cmp, on};
ghost use Rattle.std.proofs.Common.{refl};
ghost use Rattle.ul_version.specs.Order.{version_cmp};
ghost use Rattle.ul_version.proofs.ForCallers.{version_total};
ghost use Rattle.ul_index.specs.VersionOrders.{by_version, place_list, places_in};

use std::alloc::{AllocError, Global};
use std::cmp::Ordering;
use std::collections::BTreeSet;
use ul_version::Version;

/// Places of releases in the order of their versions.
#[derive(Drop)]
pub(crate) struct VersionOrder<'a> {
    keys: BTreeSet<Versioned<'a>>,
}

impl<'a> VersionOrder<'a> {
    pub(crate) fn new(alloc: Global) -> VersionOrder<'a>
        ensures { places_in result ≡ [] }
    {
        VersionOrder {
            keys: BTreeSet::new(alloc),
        }
    }

    /// Adds the place of a version, and answers whether no equal version was there before.
    pub(crate) fn add(&mut self, version: &'a Version, place: u32) -> Result<bool, AllocError>
        ensures { OnOk result (places_in self.new ≡ insert_key by_version (places_in self.old) (version.now, place)) }
    {
        let added = self.keys.insert(Versioned { version, place })?;
        Ok(added)
    }

    /// The places in order.
    pub(crate) fn places(self, alloc: Global) -> Result<Vec<u32>, AllocError>
        ensures { IfOk result (λ v. v.items ≡ place_list self.entry) }
    {
        let mut places = Vec::new(alloc);
        for key in self.keys {
            places.push(key.place)?;
        }
        Ok(places)
    }
}

/// A place of a version as a key: keys are ordered as their versions are.
#[derive(Drop)]
struct Versioned<'a> {
    version: &'a Version,
    place: u32,
}

impl<'a> PartialEq for Versioned<'a> {
    ghost eq = { eq_by_cmp (on (λ k. k.version.now) version_cmp) };

    ghost laws = { partial_equiv_from_equiv (eq_by_cmp_equiv (on_total (λ k. k.version.now) version_total)) };

    fn eq(&self, other: &Versioned<'a>) -> bool {
        self.version.cmp(other.version).is_eq()
    }
}

impl<'a> Eq for Versioned<'a> {
    ghost laws = { eq_by_cmp_equiv (on_total (λ k. k.version.now) version_total) };
}

impl<'a> PartialOrd for Versioned<'a> {
    ghost partial_cmp = { as_partial_cmp (on (λ k. k.version.now) version_cmp) };

    ghost laws = { partial_order_from_total (on_total (λ k. k.version.now) version_total) };

    fn partial_cmp(&self, other: &Versioned<'a>) -> Option<Ordering> {
        Some(self.cmp(other))
    }
}

impl<'a> Ord for Versioned<'a> {
    ghost cmp = { on (λ k. k.version.now) version_cmp };

    ghost total = { on_total (λ k. k.version.now) version_total };

    ghost matches_partial_cmp = { λ a b. refl };

    ghost matches_eq = { λ a b. refl };

    fn cmp(&self, other: &Versioned<'a>) -> Ordering {
        self.version.cmp(other.version)
    }
}
