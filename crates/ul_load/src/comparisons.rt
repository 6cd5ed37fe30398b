//! Different opaque comparisons.

ghost use Rattle.std.specs.Prelude.{◌≡◌, [], length, map, option_map, IfOk, OnOk};
ghost use Rattle.std.specs.List.{flat_map};
ghost use Rattle.std.specs.BTreeSet.{insert_key};
ghost use Rattle.std.specs.Cmp.{eq_by_cmp_equiv, on_total, partial_equiv_from_equiv, partial_order_from_total};
ghost use Rattle.std.specs.Ordering.{as_partial_cmp, eq_by_cmp, on};
ghost use Rattle.std.proofs.Common.{refl};
ghost use Rattle.ul_comparison.specs.Atoms.{atom_cmp};
ghost use Rattle.ul_marker.specs.Parts.{atoms_of};
ghost use Rattle.ul_marker.specs.Views.{marker_view};
ghost use Rattle.ul_comparison.proofs.ForCallers.{atoms_total};
ghost use Rattle.ul_requirement.specs.Truth as requirement;
ghost use Rattle.ul_load.specs.Counted.{has_too_many};
ghost use Rattle.ul_load.specs.Loading.{atoms_in, comparisons_with, requirements_of};
ghost use Rattle.ul_load.specs.Views.{atoms_of_sources, atoms_view};

use crate::COMPARISONS;
use std::alloc::{AllocError, Global};
use std::cmp::Ordering;
use std::collections::BTreeSet;
use ul_marker::{Atom, Marker};
use ul_project::{NameSources, Source};
use ul_requirement::{Release, Requirement};

/// Different comparisons, in their order.
#[derive(Drop)]
pub(crate) struct Comparisons {
    keys: BTreeSet<Key>,
}

impl Comparisons {
    /// None so far.
    pub(crate) fn new(alloc: Global) -> Comparisons
        ensures { atoms_view result ≡ [] }
    {
        Comparisons {
            keys: BTreeSet::new(alloc),
        }
    }

    /// How many there are.
    pub(crate) fn len(&self) -> usize
        ensures { result ≡ length (atoms_view self.now) }
    {
        self.keys.len()
    }

    // Adds a comparison.
    fn insert(&mut self, atom: Atom) -> Result<(), AllocError>
        ensures { OnOk result (atoms_view self.new ≡ insert_key atom_cmp (atoms_view self.old) atom) }
    {
        let _added = self.keys.insert(Key { atom })?;
        Ok(())
    }

    // Adds comparisons.
    fn add(&mut self, atoms: Vec<Atom>) -> Result<(), AllocError>
        ensures { OnOk result (atoms_view self.new ≡ comparisons_with (atoms_view self.old) atoms.items) }
    {
        for atom in atoms {
            self.insert(atom)?;
        }
        Ok(())
    }

    /// Adds the comparisons of markers.
    pub(crate) fn add_markers(
        &mut self,
        alloc: Global,
        markers: &[Marker],
    ) -> Result<(), AllocError>
        ensures { OnOk result (atoms_view self.new
            ≡ comparisons_with (atoms_view self.old) (flat_map (λ m. atoms_of (marker_view m)) markers.now)) }
    {
        for marker in markers {
            self.add(marker.atoms(alloc)?)?;
        }
        Ok(())
    }

    // Adds the comparisons of a condition, if there is one.
    fn add_condition(&mut self, alloc: Global, condition: &Option<Marker>) -> Result<(), AllocError>
        ensures { OnOk result (atoms_view self.new
            ≡ comparisons_with (atoms_view self.old) (requirement.atoms_in (option_map marker_view condition.now))) }
    {
        match condition {
            Some(marker) => self.add(marker.atoms(alloc)?),
            None => Ok(()),
        }
    }

    // Adds the comparisons of the condition of a source.
    fn add_source(&mut self, alloc: Global, source: &Source) -> Result<(), AllocError>
        ensures { OnOk result (atoms_view self.new
            ≡ comparisons_with (atoms_view self.old) (requirement.atoms_in source.now.condition)) }
    {
        let condition: &Option<Marker> = &source.condition;
        self.add_condition(alloc, condition)
    }

    // Adds the comparisons of the conditions of a name's sources.
    fn add_sources_of(&mut self, alloc: Global, sources: &[Source]) -> Result<(), AllocError>
        ensures { OnOk result (atoms_view self.new
            ≡ comparisons_with (atoms_view self.old) (atoms_of_sources sources.now)) }
    {
        for source in sources {
            self.add_source(alloc, source)?;
        }
        Ok(())
    }

    // Adds the comparisons of the conditions of the sources of a name.
    fn add_name(&mut self, alloc: Global, named: &NameSources) -> Result<(), AllocError>
        ensures { OnOk result (atoms_view self.new
            ≡ comparisons_with (atoms_view self.old) (atoms_of_sources named.now.1)) }
    {
        let sources: &Vec<Source> = &named.sources;
        self.add_sources_of(alloc, sources)
    }

    /// Adds the comparisons of the conditions of the sources of names.
    pub(crate) fn add_sources(
        &mut self,
        alloc: Global,
        sources: &[NameSources],
    ) -> Result<(), AllocError>
        ensures { OnOk result (atoms_view self.new
            ≡ comparisons_with (atoms_view self.old) (flat_map (λ named. atoms_of_sources named.1) sources.now)) }
    {
        for named in sources {
            self.add_name(alloc, named)?;
        }
        Ok(())
    }

    /// Adds the comparisons of requirements.
    pub(crate) fn add_requirements(
        &mut self,
        alloc: Global,
        requirements: &[Requirement],
    ) -> Result<(), AllocError>
        ensures { OnOk result (atoms_view self.new
            ≡ comparisons_with (atoms_view self.old) (atoms_in requirements.now)) }
    {
        for requirement in requirements {
            self.add(requirement.atoms(alloc)?)?;
        }
        Ok(())
    }

    // Adds the comparisons of a release's requirements.
    fn add_release(&mut self, alloc: Global, release: &Release) -> Result<(), AllocError>
        ensures { OnOk result (atoms_view self.new
            ≡ comparisons_with (atoms_view self.old) (atoms_in release.now.requirements)) }
    {
        let requirements: &Vec<Requirement> = release.requirements.as_vec();
        self.add_requirements(alloc, requirements)
    }

    /// Adds the comparisons of the requirements of releases.
    pub(crate) fn add_releases(
        &mut self,
        alloc: Global,
        releases: &[Release],
    ) -> Result<(), AllocError>
        ensures { OnOk result (atoms_view self.new
            ≡ comparisons_with (atoms_view self.old) (atoms_in (requirements_of releases.now))) }
    {
        for release in releases {
            self.add_release(alloc, release)?;
        }
        Ok(())
    }
}

/// Whether markers have more than `COMPARISONS` different opaque comparisons.
///
/// # Errors
///
/// Only for want of memory.
pub fn has_too_many_comparisons(alloc: Global, markers: &[Marker]) -> Result<bool, AllocError>
    ensures { IfOk result (λ b. b ≡ has_too_many (map marker_view markers.now)) }
{
    let mut comparisons = Comparisons::new(alloc);
    comparisons.add_markers(alloc, markers)?;
    Ok(comparisons.len() > COMPARISONS)
}

/// A comparison as a key: keys are ordered as their comparisons are.
#[derive(Drop)]
struct Key {
    atom: Atom,
}

impl PartialEq for Key {
    ghost eq = { eq_by_cmp (on (λ k. k.atom) atom_cmp) };

    ghost laws = { partial_equiv_from_equiv (eq_by_cmp_equiv (on_total (λ k. k.atom) atoms_total)) };

    fn eq(&self, other: &Key) -> bool {
        self.atom.cmp(&other.atom).is_eq()
    }
}

impl Eq for Key {
    ghost laws = { eq_by_cmp_equiv (on_total (λ k. k.atom) atoms_total) };
}

impl PartialOrd for Key {
    ghost partial_cmp = { as_partial_cmp (on (λ k. k.atom) atom_cmp) };

    ghost laws = { partial_order_from_total (on_total (λ k. k.atom) atoms_total) };

    fn partial_cmp(&self, other: &Key) -> Option<Ordering> {
        Some(self.cmp(other))
    }
}

impl Ord for Key {
    ghost cmp = { on (λ k. k.atom) atom_cmp };

    ghost total = { on_total (λ k. k.atom) atoms_total };

    ghost matches_partial_cmp = { λ a b. refl };

    ghost matches_eq = { λ a b. refl };

    fn cmp(&self, other: &Key) -> Ordering {
        self.atom.cmp(&other.atom)
    }
}
