//! Places of a project file that are refused.

ghost use Rattle.std.specs.Prelude.{◌≡◌, IfOk, string_bytes};
ghost use Rattle.ul_project.specs.Answers.{place_of};
ghost use Rattle.ul_project.specs.Paths.{key_text, path_text, place_text};

use std::alloc::{AllocError, Global};
use ul_base::Name;

/// A key of a project file that has a fixed place.
#[derive(Clone, Copy)]
pub enum ProjectKey {
    /// `project`
    Project,
    /// `project.name`
    Name,
    /// `project.version`
    Version,
    /// `project.dynamic`
    Dynamic,
    /// `project.requires-python`
    RequiresPython,
    /// `project.dependencies`
    Dependencies,
    /// `project.optional-dependencies`
    OptionalDependencies,
    /// `dependency-groups`
    DependencyGroups,
    /// `tool`
    Tool,
    /// `tool.uv`
    Uv,
    /// `tool.unilock`
    Unilock,
    /// `tool.unilock.profile`
    Profile,
    /// `tool.uv.sources`
    Sources,
    /// `tool.uv.conflicts`
    Conflicts,
    /// `tool.uv.index`
    Index,
    /// `tool.uv.extra-index-url`
    ExtraIndexUrl,
    /// `tool.uv.find-links`
    FindLinks,
    /// `tool.uv.workspace`
    Workspace,
    /// `tool.uv.dev-dependencies`
    DevDependencies,
    /// `tool.uv.constraint-dependencies`
    ConstraintDependencies,
    /// `tool.uv.override-dependencies`
    OverrideDependencies,
    /// `tool.uv.environments`
    Environments,
    /// `tool.uv.resolution`
    Resolution,
    /// `tool.uv.prerelease`
    Prerelease,
    /// `tool.uv.fork-strategy`
    ForkStrategy,
}

/// What stands at a place of a project file as a whole.
#[derive(Drop)]
pub enum Place {
    /// The value of a key.
    Key(ProjectKey),
    /// The list of an extra, under its normal form: `project.optional-dependencies.NAME`.
    Extra(Name),
    /// The list of a group, under its normal form: `dependency-groups.NAME`.
    Group(Name),
    /// The sources of a name, under its normal form: `tool.uv.sources.NAME`.
    Sources(Name),
}

/// The place of an array that is read: a [`Place`] whose name is lent.
///
/// Contracts see it as the place, `place_of`.
#[derive(Clone, Copy)]
pub(crate) enum ArrayPlace<'a> {
    Key(ProjectKey),
    Extra(&'a Name),
    Group(&'a Name),
    Sources(&'a Name),
}

/// A path of a project file: a place, or an entry of the array there. Entries count from 0.
#[derive(Drop)]
pub enum ProjectPath {
    Whole(Place),
    Entry(Place, u64),
}

impl ProjectKey {
    /// The path of the key.
    pub fn text(self) -> &'static str
        ensures { result.now ≡ key_text self }
    {
        match self {
            ProjectKey::Project => "project",
            ProjectKey::Name => "project.name",
            ProjectKey::Version => "project.version",
            ProjectKey::Dynamic => "project.dynamic",
            ProjectKey::RequiresPython => "project.requires-python",
            ProjectKey::Dependencies => "project.dependencies",
            ProjectKey::OptionalDependencies => "project.optional-dependencies",
            ProjectKey::DependencyGroups => "dependency-groups",
            ProjectKey::Tool => "tool",
            ProjectKey::Uv => "tool.uv",
            ProjectKey::Unilock => "tool.unilock",
            ProjectKey::Profile => "tool.unilock.profile",
            ProjectKey::Sources => "tool.uv.sources",
            ProjectKey::Conflicts => "tool.uv.conflicts",
            ProjectKey::Index => "tool.uv.index",
            ProjectKey::ExtraIndexUrl => "tool.uv.extra-index-url",
            ProjectKey::FindLinks => "tool.uv.find-links",
            ProjectKey::Workspace => "tool.uv.workspace",
            ProjectKey::DevDependencies => "tool.uv.dev-dependencies",
            ProjectKey::ConstraintDependencies => "tool.uv.constraint-dependencies",
            ProjectKey::OverrideDependencies => "tool.uv.override-dependencies",
            ProjectKey::Environments => "tool.uv.environments",
            ProjectKey::Resolution => "tool.uv.resolution",
            ProjectKey::Prerelease => "tool.uv.prerelease",
            ProjectKey::ForkStrategy => "tool.uv.fork-strategy",
        }
    }
}

impl Place {
    /// The path of the place.
    pub fn text(&self, alloc: Global) -> Result<String, AllocError>
        ensures { IfOk result (λ t. string_bytes t ≡ place_text self.now) }
    {
        match self {
            Place::Key(key) => String::from_str(alloc, key.text()),
            Place::Extra(name) => extra_text(alloc, name),
            Place::Group(name) => group_text(alloc, name),
            Place::Sources(name) => sources_text(alloc, name),
        }
    }
}

impl<'a> ArrayPlace<'a> {
    // The place, with a name of its own.
    fn place(self, alloc: Global) -> Result<Place, AllocError>
        ensures { IfOk result (λ p. p ≡ place_of self.entry) }
    {
        match self {
            ArrayPlace::Key(key) => Ok(Place::Key(key)),
            ArrayPlace::Extra(name) => Ok(Place::Extra(name.copy(alloc)?)),
            ArrayPlace::Group(name) => Ok(Place::Group(name.copy(alloc)?)),
            ArrayPlace::Sources(name) => Ok(Place::Sources(name.copy(alloc)?)),
        }
    }

    /// The path of the array.
    pub(crate) fn whole(self, alloc: Global) -> Result<ProjectPath, AllocError>
        ensures { IfOk result (λ p. p ≡ ProjectPath.Whole (place_of self.entry)) }
    {
        let place = self.place(alloc)?;
        Ok(ProjectPath::Whole(place))
    }

    /// The path of an entry of the array.
    pub(crate) fn entry(self, alloc: Global, entry: u64) -> Result<ProjectPath, AllocError>
        ensures { IfOk result (λ p. p ≡ ProjectPath.Entry (place_of self.entry) entry) }
    {
        let place = self.place(alloc)?;
        Ok(ProjectPath::Entry(place, entry))
    }
}

// The path of the list of an extra.
fn extra_text(alloc: Global, name: &Name) -> Result<String, AllocError>
    ensures { IfOk result (λ t. string_bytes t ≡ place_text (Place.Extra name.now)) }
{
    let name = name.text();
    let text = format!(in alloc; "project.optional-dependencies.{name}")?;
    Ok(text)
}

// The path of the list of a group.
fn group_text(alloc: Global, name: &Name) -> Result<String, AllocError>
    ensures { IfOk result (λ t. string_bytes t ≡ place_text (Place.Group name.now)) }
{
    let name = name.text();
    let text = format!(in alloc; "dependency-groups.{name}")?;
    Ok(text)
}

// The path of the sources of a name.
fn sources_text(alloc: Global, name: &Name) -> Result<String, AllocError>
    ensures { IfOk result (λ t. string_bytes t ≡ place_text (Place.Sources name.now)) }
{
    let name = name.text();
    let text = format!(in alloc; "tool.uv.sources.{name}")?;
    Ok(text)
}

impl ProjectPath {
    /// The path, such as `project.dependencies[3]` or `dependency-groups.test[0]`.
    pub fn text(&self, alloc: Global) -> Result<String, AllocError>
        ensures { IfOk result (λ t. string_bytes t ≡ path_text self.now) }
    {
        match self {
            ProjectPath::Whole(place) => place.text(alloc),
            ProjectPath::Entry(place, entry) => entry_text(alloc, place, *entry),
        }
    }
}

// The path of an entry of the array at a place.
fn entry_text(alloc: Global, place: &Place, entry: u64) -> Result<String, AllocError>
    ensures { IfOk result (λ t. string_bytes t ≡ path_text (ProjectPath.Entry place.now entry)) }
{
    let place = place.text(alloc)?;
    let place = place.as_str();
    let text = format!(in alloc; "{place}[{entry}]")?;
    Ok(text)
}
