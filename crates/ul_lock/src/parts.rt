//! A lock as data.
//!
//! The lists are types of their own, which contracts see as their elements: each is made of a `Vec`, and gives it back
//! without taking memory.

ghost use Rattle.std.specs.Prelude.{◌≡◌, ℕ, List, [], ◌∷◌, ◌++◌, IfOk, true};
ghost use Rattle.ul_lock.specs.Region.{is_true, IsRegion};
ghost use Rattle.ul_nodes.specs.Plain;
ghost use Rattle.ul_tree.specs.Views.{tree_view};

use std::alloc::{AllocError, Global};
use std::marker::Model;
use ul_base::owned::with_one;
use ul_base::{Name, Node};
use ul_requirement::FileEntry;
use ul_tree::Tree;
use ul_tree::part::known;
use ul_version::Version;

/// A part of all worlds, as a tree, which contracts see as plain data.
///
/// It isn't empty, and asks for no extra: its tree is reduced and not false, and has no node of the extra.
#[derive(Drop)]
pub struct Region {
    tree: Tree,
}

impl Model for Region {
    ghost use Rattle.ul_tree.specs.PlainCode.{plain_code};
    ghost use Rattle.ul_nodes.specs.Plain.{Plain};
    ghost use Rattle.ul_tree.specs.Views.{tree_view};
    ghost use Rattle.ul_lock.specs.Region.{IsRegion};

    ghost Value = { Plain };

    ghost coded = { plain_code };

    ghost view = { λ r. tree_view r.tree };

    ghost invariant = { λ r. IsRegion (tree_view r.tree) };
}

impl Region {
    /// All worlds.
    pub fn all() -> Region
        ensures { result ≡ Plain.truth true }
    {
        Region {
            tree: Tree::Truth(true),
        }
    }

    /// The worlds at which a tree holds.
    pub fn of(tree: Tree) -> Region
        requires { IsRegion (tree_view tree) }
        ensures { result ≡ tree_view tree }
    {
        Region { tree }
    }

    /// The tree.
    pub fn as_tree(&self) -> &Tree
        ensures tree { tree_view result.now ≡ self.now }
        ensures region { IsRegion self.now }
    {
        &self.tree
    }

    /// Whether these are all worlds.
    pub fn is_all(&self) -> bool
        ensures { result ≡ is_true self.now }
    {
        known(&self.tree)
    }
}

/// A dependency of a package, or of an extra of it, on another package of the lock.
#[derive(Drop)]
pub struct Edge {
    /// What is depended on.
    pub target: Node,
    /// The target's version.
    pub version: Version,
    /// Where the dependency holds.
    pub marker: Region,
}

/// An extra's name and its edges.
#[derive(Drop)]
pub struct Extra {
    /// The extra.
    pub name: Name,
    /// What it depends on beside its package, in increasing order.
    pub edges: Edges,
}

/// A package at a version.
#[derive(Drop)]
pub struct Locked {
    /// Its name.
    pub name: Name,
    /// Its version.
    pub version: Version,
    /// Its files, by increasing names.
    pub files: Files,
    /// What it depends on, by increasing name and version of the target, its base first and then its extras.
    pub edges: Edges,
    /// Its extras, by increasing names.
    pub extras: Extras,
}

/// One answer of the resolver for a project.
#[derive(Drop)]
pub struct Lock {
    /// The project's name, which one of the packages has.
    pub root: Name,
    /// The worlds that the project supports.
    pub supported: Region,
    /// The worlds of each leaf, in the order of their paths; none, or two or more.
    pub forks: Regions,
    /// The packages, by increasing name and version.
    pub packages: Packages,
}

/// Parts of all worlds, in a row, which contracts see as their list.
#[derive(Drop)]
pub struct Regions {
    items: Vec<Region>,
}

impl Model for Regions {
    ghost use Rattle.std.specs.Prelude.{List};
    ghost use Rattle.std.specs.Coded.{coded_list};
    ghost use Rattle.ul_tree.specs.PlainCode.{plain_code};
    ghost use Rattle.ul_nodes.specs.Plain.{Plain};

    ghost Value = { List Plain };

    ghost coded = { coded_list plain_code };

    ghost view = { λ t. t.items.items };
}

impl Regions {
    /// None.
    pub fn new(alloc: Global) -> Regions
        ensures { result ≡ [] }
    {
        Regions {
            items: Vec::new(alloc),
        }
    }

    /// The elements of a `Vec`, in its order.
    pub fn of(items: Vec<Region>) -> Regions
        ensures { result ≡ items.items }
    {
        Regions { items }
    }

    /// The same elements as a `Vec`.
    pub fn into_vec(self) -> Vec<Region>
        ensures { result.items ≡ self }
    {
        let Regions { items } = self;
        items
    }

    /// With one more at the end.
    pub fn with(self, item: Region) -> Result<Regions, AllocError>
        ensures { IfOk result (λ v. v ≡ self ++ item ∷ []) }
    {
        let Regions { items } = self;
        let items = with_one(items, item)?;
        Ok(Regions { items })
    }

    /// The elements, in their order.
    pub fn as_slice(&self) -> &[Region]
        ensures { result.now ≡ self.now }
    {
        self.items.as_slice()
    }
}

/// Files, in a row, which contracts see as their list.
#[derive(Drop)]
pub struct Files {
    items: Vec<FileEntry>,
}

impl Model for Files {
    ghost use Rattle.std.specs.Prelude.{List};
    ghost use Rattle.ul_requirement.specs.Fields.{FileFields};

    ghost Value = { List FileFields };

    ghost view = { λ t. t.items.items };
}

impl Files {
    /// None.
    pub fn new(alloc: Global) -> Files
        ensures { result ≡ [] }
    {
        Files {
            items: Vec::new(alloc),
        }
    }

    /// The elements of a `Vec`, in its order.
    pub fn of(items: Vec<FileEntry>) -> Files
        ensures { result ≡ items.items }
    {
        Files { items }
    }

    /// The same elements as a `Vec`.
    pub fn into_vec(self) -> Vec<FileEntry>
        ensures { result.items ≡ self }
    {
        let Files { items } = self;
        items
    }

    /// With one more at the end.
    pub fn with(self, item: FileEntry) -> Result<Files, AllocError>
        ensures { IfOk result (λ v. v ≡ self ++ item ∷ []) }
    {
        let Files { items } = self;
        let items = with_one(items, item)?;
        Ok(Files { items })
    }

    /// The elements, in their order.
    pub fn as_slice(&self) -> &[FileEntry]
        ensures { result.now ≡ self.now }
    {
        self.items.as_slice()
    }
}

/// Edges, in a row, which contracts see as their list.
#[derive(Drop)]
pub struct Edges {
    items: Vec<Edge>,
}

impl Model for Edges {
    ghost use Rattle.std.specs.Prelude.{List};
    ghost use Rattle.std.specs.Coded.{codes};
    ghost use Rattle.ul_lock.specs.contracts.parts.Region as region;
    ghost use Rattle.ul_lock.specs.declared.parts.Edge.{Edge};

    ghost Value = { List Edge };

    ghost coded = { Prim.hlevel (codes, region.the_row.coded) };

    ghost view = { λ t. t.items.items };
}

impl Edges {
    /// None.
    pub fn new(alloc: Global) -> Edges
        ensures { result ≡ [] }
    {
        Edges {
            items: Vec::new(alloc),
        }
    }

    /// The elements of a `Vec`, in its order.
    pub fn of(items: Vec<Edge>) -> Edges
        ensures { result ≡ items.items }
    {
        Edges { items }
    }

    /// The same elements as a `Vec`.
    pub fn into_vec(self) -> Vec<Edge>
        ensures { result.items ≡ self }
    {
        let Edges { items } = self;
        items
    }

    /// With one more at the end.
    pub fn with(self, item: Edge) -> Result<Edges, AllocError>
        ensures { IfOk result (λ v. v ≡ self ++ item ∷ []) }
    {
        let Edges { items } = self;
        let items = with_one(items, item)?;
        Ok(Edges { items })
    }

    /// The elements, in their order.
    pub fn as_slice(&self) -> &[Edge]
        ensures { result.now ≡ self.now }
    {
        self.items.as_slice()
    }
}

/// Extras, in a row, which contracts see as their list.
#[derive(Drop)]
pub struct Extras {
    items: Vec<Extra>,
}

impl Model for Extras {
    ghost use Rattle.std.specs.Prelude.{List};
    ghost use Rattle.std.specs.Coded.{codes};
    ghost use Rattle.ul_lock.specs.contracts.parts.Region as region;
    ghost use Rattle.ul_lock.specs.declared.parts.Extra.{Extra};

    ghost Value = { List Extra };

    ghost coded = { Prim.hlevel (codes, region.the_row.coded) };

    ghost view = { λ t. t.items.items };
}

impl Extras {
    /// None.
    pub fn new(alloc: Global) -> Extras
        ensures { result ≡ [] }
    {
        Extras {
            items: Vec::new(alloc),
        }
    }

    /// The elements of a `Vec`, in its order.
    pub fn of(items: Vec<Extra>) -> Extras
        ensures { result ≡ items.items }
    {
        Extras { items }
    }

    /// The same elements as a `Vec`.
    pub fn into_vec(self) -> Vec<Extra>
        ensures { result.items ≡ self }
    {
        let Extras { items } = self;
        items
    }

    /// With one more at the end.
    pub fn with(self, item: Extra) -> Result<Extras, AllocError>
        ensures { IfOk result (λ v. v ≡ self ++ item ∷ []) }
    {
        let Extras { items } = self;
        let items = with_one(items, item)?;
        Ok(Extras { items })
    }

    /// The elements, in their order.
    pub fn as_slice(&self) -> &[Extra]
        ensures { result.now ≡ self.now }
    {
        self.items.as_slice()
    }
}

/// Packages, in a row, which contracts see as their list.
#[derive(Drop)]
pub struct Packages {
    items: Vec<Locked>,
}

impl Model for Packages {
    ghost use Rattle.std.specs.Prelude.{List};
    ghost use Rattle.std.specs.Coded.{codes};
    ghost use Rattle.ul_lock.specs.contracts.parts.Region as region;
    ghost use Rattle.ul_lock.specs.declared.parts.Locked.{Locked};

    ghost Value = { List Locked };

    ghost coded = { Prim.hlevel (codes, region.the_row.coded) };

    ghost view = { λ t. t.items.items };
}

impl Packages {
    /// None.
    pub fn new(alloc: Global) -> Packages
        ensures { result ≡ [] }
    {
        Packages {
            items: Vec::new(alloc),
        }
    }

    /// The elements of a `Vec`, in its order.
    pub fn of(items: Vec<Locked>) -> Packages
        ensures { result ≡ items.items }
    {
        Packages { items }
    }

    /// The same elements as a `Vec`.
    pub fn into_vec(self) -> Vec<Locked>
        ensures { result.items ≡ self }
    {
        let Packages { items } = self;
        items
    }

    /// With one more at the end.
    pub fn with(self, item: Locked) -> Result<Packages, AllocError>
        ensures { IfOk result (λ v. v ≡ self ++ item ∷ []) }
    {
        let Packages { items } = self;
        let items = with_one(items, item)?;
        Ok(Packages { items })
    }

    /// The elements, in their order.
    pub fn as_slice(&self) -> &[Locked]
        ensures { result.now ≡ self.now }
    {
        self.items.as_slice()
    }
}
