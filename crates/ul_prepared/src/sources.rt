//! What names are taken from: a catalog, and a wish.
ghost use Rattle.std.specs.Prelude.{◌≡◌, ℕ, List, IfOk};
ghost use Rattle.std.specs.List.{list_any};
ghost use Rattle.std.specs.Str.{bytes_eq};
ghost use Rattle.std.specs.HashSet.{contains};
ghost use Rattle.ul_index.specs.Preference.{is_direct};

use crate::wish_index::WishIndex;
use std::alloc::{AllocError, Global};
use std::collections::HashSet;
use std::marker::Model;
use ul_base::Name;
use ul_index::Catalog;
use ul_requirement::{Requirement, Wish};

/// A catalog, with the set of the names that its project requires, and a wish. Contracts see it as the two.
#[derive(Drop)]
pub(crate) struct Sources<'a, 'w> {
    catalog: &'a Catalog,
    wish: WishIndex<'w>,
    directs: HashSet<Name>,
}

impl<'a, 'w> Model for Sources<'a, 'w> {
    ghost use Rattle.std.specs.Coded.{codes};
    ghost use Rattle.ul_comparison.specs.Codes.{formula_code};
    ghost use Rattle.ul_index.specs.Catalogs.{Packages};
    ghost use Rattle.ul_requirement.specs.Fields.{WishFields};
    ghost use Rattle.ul_prepared.specs.Directs.{AreDirects};

    ghost Value = { Packages × WishFields };

    ghost coded = { Prim.hlevel (codes, formula_code) };

    ghost view = { λ s. (s.catalog.now, s.wish) };

    ghost invariant = { λ s. AreDirects s.catalog.now s.directs };
}

// The names of requirements.
fn names_of(alloc: Global, requirements: &[Requirement]) -> Result<HashSet<Name>, AllocError>
    ensures { IfOk result (λ s. (n : List ℕ) → contains bytes_eq s n
        ≡ list_any (λ q. bytes_eq q.name n) requirements.now) }
{
    let mut names = HashSet::new(alloc);
    for requirement in requirements {
        let name: &Name = &requirement.name;
        names.insert(name.copy(alloc)?)?;
    }
    Ok(names)
}

impl<'a, 'w> Sources<'a, 'w> {
    /// The sources of these two.
    ///
    /// # Errors
    ///
    /// Only for want of memory.
    pub(crate) fn of(
        alloc: Global,
        catalog: &'a Catalog,
        wish: &'w Wish,
    ) -> Result<Sources<'a, 'w>, AllocError>
        ensures { IfOk result (λ s. s ≡ (catalog.now, wish.now)) }
    {
        let wish = WishIndex::of(alloc, wish)?;
        let directs = names_of(alloc, catalog.directs())?;
        Ok(Sources {
            catalog,
            wish,
            directs,
        })
    }

    /// The catalog.
    pub(crate) fn catalog(&self) -> &'a Catalog
        ensures { result.now ≡ self.now.0 }
    {
        self.catalog
    }

    /// The wish.
    pub(crate) fn wish(&self) -> &WishIndex<'w>
        ensures { result.now ≡ self.now.1 }
    {
        &self.wish
    }

    /// Whether the project requires a name.
    pub(crate) fn is_direct(&self, name: &Name) -> bool
        ensures { result ≡ is_direct self.now.0 name.now }
    {
        self.directs.contains(name)
    }
}
