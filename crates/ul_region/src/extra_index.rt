//! Where the requirements of a list stand whose markers name an extra.
ghost use Rattle.std.specs.Prelude.{◌≡◌, ◌<◌, [], IfOk, OnOk, Some, length, option_map};
ghost use Rattle.std.specs.HashMap.{get_by_text};
ghost use Rattle.ul_marker.specs.Views.{marker_view, markers_view};
ghost use Rattle.ul_requirement.specs.Truth.{marker_names, names_extra, some_names_extra};
ghost use Rattle.ul_region.specs.Extras.{AreCandidates, HasNamed, IsExtraIndex, Keeps, names, places_at};

use std::alloc::{AllocError, Global};
use std::collections::HashMap;
use ul_marker::Marker;
use ul_requirement::Requirement;

/// The places of requirements by the extras that their markers name: those of one extra are found without a look at the
/// others.
#[derive(Drop)]
pub(crate) struct ExtraIndex {
    // The number of each extra.
    numbers: HashMap<String, usize>,
    // By these numbers, the places of the requirements that name the extra.
    places: Vec<Vec<usize>>,
}

impl ExtraIndex {
    // The index of no requirements.
    fn new(alloc: Global) -> ExtraIndex {
        ExtraIndex {
            numbers: HashMap::new(alloc),
            places: Vec::new(alloc),
        }
    }

    // The places of the requirements that name an extra.
    fn places_of(&self, extra: &str) -> &[usize]
        ensures { result.now ≡ places_at self.now extra.now }
    {
        let lists: &[Vec<usize>] = self.places.as_slice();
        let Some(number) = self.numbers.get(extra) else {
            return &[];
        };
        match lists.get(*number) {
            Some(list) => list.as_slice(),
            None => &[],
        }
    }

    // Opens a list of places for an extra, under the next number.
    fn open(&mut self, alloc: Global, extra: &str) -> Result<usize, AllocError>
        requires { places_at self.old extra.now ≡ [] }
        ensures keeps { IfOk result (λ _. Keeps self.old self.new) }
        ensures there { IfOk result (λ k. k < length self.new.places.items) }
        ensures number { IfOk result (λ k. get_by_text self.new.numbers extra.now ≡ Some k) }
    {
        let number = self.places.len();
        let key = String::from_str(alloc, extra)?;
        self.places.push(Vec::new(alloc))?;
        self.numbers.insert(key, number)?;
        Ok(number)
    }

    // The number of an extra, which has a list of places.
    fn number_of(&mut self, alloc: Global, extra: &str) -> Result<usize, AllocError>
        ensures keeps { IfOk result (λ _. Keeps self.old self.new) }
        ensures there { IfOk result (λ k. k < length self.new.places.items) }
        ensures number { IfOk result (λ k. get_by_text self.new.numbers extra.now ≡ Some k) }
    {
        let known = self.numbers.get(extra).copied();
        match known {
            Some(number) if number < self.places.len() => Ok(number),
            _ => self.open(alloc, extra),
        }
    }

    // Adds a place to those of an extra.
    fn put(&mut self, alloc: Global, extra: &str, place: usize) -> Result<(), AllocError>
        ensures { OnOk result (HasNamed (names extra.now) place self.old self.new) }
    {
        let number = self.number_of(alloc, extra)?;
        self.places[number].push(place)?;
        Ok(())
    }

    /// The index of requirements.
    ///
    /// # Errors
    ///
    /// Only for want of memory.
    pub(crate) fn of(alloc: Global, requirements: &[Requirement]) -> Result<ExtraIndex, AllocError>
        ensures { IfOk result (IsExtraIndex requirements.now) }
    {
        let mut index = ExtraIndex::new(alloc);
        for place in 0..requirements.len() {
            let requirement: &Requirement = &requirements[place];
            index = add_optional(alloc, &requirement.marker, place, index)?;
        }
        Ok(index)
    }

    /// Where requirements stand that may be true with an extra, in order: those that name it, and those that name the empty
    /// one, which any extra may be told from.
    ///
    /// # Errors
    ///
    /// Only for want of memory.
    pub(crate) fn candidates(&self, alloc: Global, extra: &str) -> Result<Vec<usize>, AllocError>
        ensures { IfOk result (λ v. AreCandidates self.now extra.now v.items) }
    {
        let mut places = Vec::new(alloc);
        places.extend_from_slice(self.places_of(extra))?;
        places.extend_from_slice(self.places_of(""))?;
        places.sort_unstable();
        Ok(places)
    }
}

// An index with a place of the extra that a comparison names.
fn with_extra(
    alloc: Global,
    extra: &str,
    place: usize,
    index: ExtraIndex,
) -> Result<ExtraIndex, AllocError>
    ensures { IfOk result (HasNamed (names extra.now) place index) }
{
    let mut index = index;
    index.put(alloc, extra, place)?;
    Ok(index)
}

// An index with a place of each extra that a marker names.
#[cycle(named)]
fn add_marker(
    alloc: Global,
    marker: &Marker,
    place: usize,
    index: ExtraIndex,
) -> Result<ExtraIndex, AllocError>
    ensures { IfOk result (HasNamed (λ x. names_extra x (marker_view marker.now)) place index) }
{
    match marker {
        Marker::Extra { literal, .. } => with_extra(alloc, literal.as_str(), place, index),
        Marker::All(parts) => add_parts(alloc, parts, place, index),
        Marker::Any(parts) => add_parts(alloc, parts, place, index),
        Marker::Python { .. }
        | Marker::PythonList { .. }
        | Marker::Text { .. }
        | Marker::Opaque { .. } => Ok(index),
    }
}

// An index with a place of each extra that some of these name.
#[cycle(named)]
fn add_parts(
    alloc: Global,
    parts: &[Marker],
    place: usize,
    index: ExtraIndex,
) -> Result<ExtraIndex, AllocError>
    ensures { IfOk result (HasNamed (λ x. some_names_extra x (markers_view parts.now)) place index) }
{
    let mut index = index;
    for part in parts {
        index = add_marker(alloc, part, place, index)?;
    }
    Ok(index)
}

// An index with a place of each extra that a marker names, where there is one.
fn add_optional(
    alloc: Global,
    marker: &Option<Marker>,
    place: usize,
    index: ExtraIndex,
) -> Result<ExtraIndex, AllocError>
    ensures { IfOk result (HasNamed (marker_names (option_map marker_view marker.now)) place index) }
{
    match marker {
        Some(marker) => add_marker(alloc, marker, place, index),
        None => Ok(index),
    }
}
