//! Projects.

use crate::{Group, NameSources};
use std::marker::Model;
use ul_base::Name;
use ul_marker::Marker;
use ul_requirement::{Mode, Package, Prereleases, Requirement, Strategy};
use ul_tree::Tree;

/// A project, as its file says.
///
/// The project is a package with one release, whose requirements are those of `project.dependencies` and then, in
/// byte order of the extras, those of each extra, with `extra == 'NAME'` joined to their markers. The extras and the
/// groups are in byte order of their names, each once. The region isn't false and asks for no extra. Contracts see a
/// project as the record `ProjectFields`.
#[derive(Drop)]
pub struct Project {
    pub package: Package,
    pub extras: Vec<Name>,
    /// How many of the requirements are those of each extra, in the order of the extras; all before them are those of
    /// `project.dependencies`.
    pub sizes: Vec<u64>,
    /// The environments of `tool.uv.environments`; none where the project asks for none.
    pub environments: Vec<Marker>,
    /// The worlds that the project supports.
    pub region: Tree,
    pub mode: Mode,
    /// Which pre-releases of its dependencies count.
    pub prereleases: Prereleases,
    pub strategy: Strategy,
    pub groups: Vec<Group>,
    /// The sources of `tool.uv.sources`, in byte order of their names, without those of the project's own name.
    pub sources: Vec<NameSources>,
    /// The requirements of `tool.uv.constraint-dependencies`.
    pub constraints: Vec<Requirement>,
    /// The requirements of `tool.uv.override-dependencies`.
    pub overrides: Vec<Requirement>,
}

impl Model for Project {
    ghost use Rattle.std.specs.Coded.{codes};
    ghost use Rattle.std.specs.Prelude.{map};
    ghost use Rattle.ul_comparison.specs.Codes.{formula_code};
    ghost use Rattle.ul_marker.specs.Views.{marker_view};
    ghost use Rattle.ul_tree.specs.PlainCode.{plain_code};
    ghost use Rattle.ul_tree.specs.Views.{tree_view};
    ghost use Rattle.ul_project.specs.Fields.{ProjectFields, IsProject};

    ghost Value = { ProjectFields };

    ghost coded = { Prim.hlevel (codes, formula_code, plain_code) };

    ghost view = { λ p. record { «package» = p.package; extras = p.extras.items; sizes = p.sizes.items; environments = map marker_view p.environments.items; region = tree_view p.region; mode = p.mode; prereleases = p.prereleases; strategy = p.strategy; groups = p.groups.items; sources = p.sources.items; constraints = p.constraints.items; overrides = p.overrides.items } };

    ghost invariant = { λ p. IsProject (record { «package» = p.package; extras = p.extras.items; sizes = p.sizes.items; environments = map marker_view p.environments.items; region = tree_view p.region; mode = p.mode; prereleases = p.prereleases; strategy = p.strategy; groups = p.groups.items; sources = p.sources.items; constraints = p.constraints.items; overrides = p.overrides.items }) };
}
