//! Where the project's requirements on each name stand.

ghost use Rattle.std.specs.Prelude.{◌≡◌, IfOk, filter, map, option_map};
ghost use Rattle.std.specs.Str.{bytes_eq};
ghost use Rattle.ul_index.specs.DirectPlaces as DirectPlaces;
ghost use Rattle.ul_index.specs.DirectPlaces.{IsDirectIndex};
ghost use Rattle.ul_index.specs.Eligible.{on_name};

use std::alloc::{AllocError, Global};
use std::collections::HashMap;
use ul_base::Name;
use ul_requirement::Requirement;

/// The places of requirements by name: those on a name are found without a look at the others.
#[derive(Drop)]
pub(crate) struct DirectIndex {
    // The first place of each name.
    first: HashMap<Name, usize>,
    // Of each place the next one with the same name, and the end of the list where there is none.
    next: Vec<usize>,
}

impl DirectIndex {
    /// The index of requirements.
    ///
    /// # Errors
    ///
    /// Only for want of memory.
    pub(crate) fn of(alloc: Global, requirements: &[Requirement]) -> Result<DirectIndex, AllocError>
        ensures { IfOk result (IsDirectIndex requirements.now) }
    {
        let end = requirements.len();
        let mut first = HashMap::new(alloc);
        let mut next = vec![in alloc; end; end]?;
        for place in (0..end).rev() {
            let name = name_of(&requirements[place]);
            next[place] = place_or(first.get(name), end);
            first.insert(name.copy(alloc)?, place)?;
        }
        Ok(DirectIndex { first, next })
    }

    /// The requirements on a name, by the index of all of them.
    ///
    /// # Errors
    ///
    /// Only for want of memory.
    pub(crate) fn on<'a>(
        &self,
        alloc: Global,
        requirements: &'a [Requirement],
        name: &Name,
    ) -> Result<Vec<&'a Requirement>, AllocError>
        requires { IsDirectIndex requirements.now self.now }
        ensures { IfOk result (λ v. map (λ q. q.now) v.items ≡ filter (on_name name.now) requirements.now) }
    {
        let next: &[usize] = self.next.as_slice();
        let mut found = Vec::new(alloc);
        let mut place = place_or(self.first.get(name), requirements.len());
        while let Some(requirement) = requirements.get(place) {
            if is_on(requirement, name) {
                found.push(requirement)?;
                place = next[place];
            } else {
                place += 1;
            }
        }
        Ok(found)
    }
}

fn name_of(requirement: &Requirement) -> &Name
    ensures { result.now ≡ requirement.now.name }
{
    let name: &Name = &requirement.name;
    name
}

fn is_on(requirement: &Requirement, name: &Name) -> bool
    ensures { result ≡ bytes_eq requirement.now.name name.now }
{
    name_of(requirement).text() == name.text()
}

// A place, and where there is none the end of the list.
fn place_or(place: Option<&usize>, end: usize) -> usize
    ensures { result ≡ DirectPlaces.place_or end (option_map (λ p. p.now) place.entry) }
{
    match place {
        Some(place) => *place,
        None => end,
    }
}
