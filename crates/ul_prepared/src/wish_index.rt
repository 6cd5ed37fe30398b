//! A wish whose old lock's versions are found by their names.
ghost use Rattle.std.specs.Prelude.{◌≡◌, IfOk, filter, map, reverse};
ghost use Rattle.ul_prepared.specs.KeptPlaces.{is_on};

use std::alloc::{AllocError, Global};
use std::collections::HashMap;
use std::marker::Model;
use ul_base::Name;
use ul_requirement::{Mode, Wish};
use ul_version::Version;

/// A wish, with the places of its old lock's versions by name. Contracts see it as the wish.
#[derive(Drop)]
pub(crate) struct WishIndex<'a> {
    wish: &'a Wish,
    // The last place of each name in the old lock.
    last: HashMap<Name, usize>,
    // Of each place in the old lock the one before it that has the same name.
    before: Vec<Option<usize>>,
}

impl<'a> Model for WishIndex<'a> {
    ghost use Rattle.ul_requirement.specs.Fields.{WishFields};
    ghost use Rattle.ul_prepared.specs.KeptPlaces.{IsIndexed};

    ghost Value = { WishFields };

    ghost view = { λ x. x.wish.now };

    ghost invariant = { λ x. IsIndexed x.wish.now.kept x.last x.before.items };
}

impl<'a> WishIndex<'a> {
    /// The index of a wish.
    ///
    /// # Errors
    ///
    /// Only for want of memory.
    pub(crate) fn of(alloc: Global, wish: &'a Wish) -> Result<WishIndex<'a>, AllocError>
        ensures { IfOk result (λ x. x ≡ wish.now) }
    {
        let kept: &'a [(Name, Version)] = wish.kept.as_slice();
        let mut last = HashMap::new(alloc);
        let mut before = Vec::with_capacity(alloc, kept.len())?;
        for place in 0..kept.len() {
            let name = &kept[place].0;
            before.push(last.get(name).copied())?;
            last.insert(name.copy(alloc)?, place)?;
        }
        Ok(WishIndex { wish, last, before })
    }

    /// How versions are preferred.
    pub(crate) fn mode(&self) -> Mode
        ensures { result ≡ self.now.mode }
    {
        let wish: &'a Wish = self.wish;
        wish.mode
    }

    /// The versions of a name that the old lock has, the last one first.
    ///
    /// # Errors
    ///
    /// Only for want of memory.
    pub(crate) fn kept(&self, alloc: Global, name: &Name) -> Result<Vec<&'a Version>, AllocError>
        ensures { IfOk result (λ v. map (λ k. k.now) v.items
            ≡ reverse (map (λ k. k.1) (filter (is_on name.now) self.now.kept))) }
    {
        let wish: &'a Wish = self.wish;
        let kept: &'a [(Name, Version)] = wish.kept.as_slice();
        let before: &[Option<usize>] = self.before.as_slice();
        let mut found = Vec::new(alloc);
        let mut at = self.last.get(name).copied();
        while let Some(place) = at {
            found.push(&kept[place].1)?;
            at = before[place];
        }
        Ok(found)
    }
}
