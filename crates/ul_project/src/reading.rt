//! Reading project files.

ghost use Rattle.std.specs.Prelude.{◌≡◌, IfOk, false};
ghost use Rattle.toml.specs.View.{table_view};
ghost use Rattle.ul_nodes.specs.Plain.{truth};
ghost use Rattle.ul_tree.specs.Regions.{HasTruth, IsRegionTree};
ghost use Rattle.ul_tree.specs.Views.{tree_view};
ghost use Rattle.ul_project.specs.Answers.{Gives, IsAnswerOf, required_view};
ghost use Rattle.ul_project.specs.Headline.{IsAnswer, supported_by};
ghost use Rattle.ul_project.specs.ProjectFile as ProjectFile;

use crate::dev::groups_with;
use crate::extras::{Requirements, extras_at, with_extras};
use crate::groups::{Entries, group_lists_at};
use crate::head::{Head, head_in};
use crate::kept::read_beside;
use crate::path::ArrayPlace;
use crate::profile::profile_of;
use crate::region::region;
use crate::requirements::requirements_at;
use crate::settings::{Settings, settings_in};
use crate::shapes::{document, table_at, value_at};
use crate::sources::of_others;
use crate::{Group, Profile, Project, ProjectFault, ProjectKey};
use std::alloc::{AllocError, Global};
use std::collections::BTreeMap;
use std::marker::Model;
use toml::Table;
use ul_base::Name;
use ul_base::owned::{beside, with_one};
use ul_marker::Marker;
use ul_ranges::SharedList;
use ul_requirement::{Package, Prereleases, Release, Requirement};
use ul_specifier::Specifiers;
use ul_tree::Tree;
use ul_tree::part::is_false;
use ul_version::Version;

/// What a file says.
#[derive(Drop)]
struct File {
    head: Head,
    requirements: Vec<Requirement>,
    extras: Vec<Name>,
    sizes: Vec<u64>,
    groups: Vec<Group>,
    settings: Settings,
}

impl Model for File {
    ghost use Rattle.std.specs.Coded.{codes};
    ghost use Rattle.std.specs.Prelude.{map};
    ghost use Rattle.ul_comparison.specs.Codes.{formula_code};
    ghost use Rattle.ul_project.specs.ProjectFile.{FileFields, IsFile};

    ghost Value = { FileFields };

    ghost coded = { Prim.hlevel (codes, formula_code) };

    ghost view = { λ f. record { head = f.head; requirements = f.requirements.items; extras = f.extras.items; sizes = f.sizes.items; groups = f.groups.items; settings = f.settings } };

    ghost invariant = { λ f. IsFile f.extras.items (map (λ g. g.name) f.groups.items) };
}

/// What a file requires: its requirements, the lists of its extras, and those of its groups.
#[derive(Drop)]
struct Required {
    requirements: Vec<Requirement>,
    extras: BTreeMap<Name, Requirements>,
    groups: BTreeMap<Name, Entries>,
}

// What a document and its table `project` require.
#[tactic(auto, unfolding(crate::specs::ProjectFile::required_in))]
fn required_in(
    alloc: Global,
    profile: Profile,
    document: &Table,
    project: &Table,
) -> Result<Required, ProjectFault>
    ensures { Gives required_view result
        (ProjectFile.required_in profile (table_view document.now) (table_view project.now)) }
{
    let place = ArrayPlace::Key(ProjectKey::Dependencies);
    let requirements = requirements_at(alloc, profile, place, value_at(project, "dependencies"))?;
    let extras = extras_at(alloc, profile, value_at(project, "optional-dependencies"));
    let (requirements, extras) = read_beside(requirements, extras)?;
    let listed = value_at(document, "dependency-groups");
    let groups = group_lists_at(alloc, profile, &extras, listed);
    let (kept, groups) = read_beside((requirements, extras), groups)?;
    let (requirements, extras) = kept;
    Ok(Required {
        requirements,
        extras,
        groups,
    })
}

// The file of these parts.
fn file_with(
    alloc: Global,
    head: Head,
    required: Required,
    dev: Vec<Requirement>,
    settings: Settings,
) -> Result<File, AllocError>
    ensures { IfOk result (λ f. f ≡ ProjectFile.file_with head (required_view required) (dev.items, settings)) }
{
    let Required {
        requirements,
        extras,
        groups,
    } = required;
    let groups = groups_with(alloc, groups, dev);
    let (lists, groups) = beside((head, settings, requirements, extras), groups)?;
    let (head, settings, requirements, extras) = lists;
    let listed = with_extras(alloc, requirements, extras);
    let (kept, listed) = beside((head, groups, settings), listed)?;
    let (head, groups, settings) = kept;
    let (requirements, extras, sizes) = listed;
    Ok(File {
        head,
        requirements,
        extras,
        sizes,
        groups,
        settings,
    })
}

// What a document says.
#[tactic(auto, unfolding(crate::specs::ProjectFile::file_in))]
fn file_in(alloc: Global, document: &Table) -> Result<File, ProjectFault>
    ensures { Gives (λ f. f) result (ProjectFile.file_in (table_view document.now)) }
{
    let project = table_at(ProjectKey::Project, value_at(document, "project"))?;
    let head = head_in(alloc, project)?;
    let profile = profile_of(document);
    let required = required_in(alloc, profile, document, project);
    let (head, required) = read_beside(head, required)?;
    let extras: &BTreeMap<Name, Requirements> = &required.extras;
    let asked = settings_in(alloc, profile, extras, document);
    let (kept, asked) = read_beside((head, required), asked)?;
    let (head, required) = kept;
    let (dev, settings) = asked;
    let file = file_with(alloc, head, required, dev, settings)?;
    Ok(file)
}

// What the bytes say.
#[tactic(auto, unfolding(crate::specs::ProjectFile::file_of))]
fn file_of(alloc: Global, bytes: &[u8]) -> Result<File, ProjectFault>
    ensures { Gives (λ f. f) result (ProjectFile.file_of bytes.now) }
{
    let document = document(alloc, bytes)?;
    let file = file_in(alloc, &document);
    drop(document);
    file
}

// The project as a package with one release.
fn package_of(
    alloc: Global,
    name: Name,
    version: Version,
    requirements: Vec<Requirement>,
) -> Result<Package, AllocError>
    ensures { IfOk result (λ p. p ≡ ProjectFile.package_with name version requirements.items) }
{
    let requirements = SharedList::of(alloc, requirements);
    let ((name, version), requirements) = beside((name, version), requirements)?;
    let release = Release {
        version,
        python: Specifiers {
            clauses: Vec::new(alloc),
        },
        requirements,
        yanked: false,
        files: Vec::new(alloc),
        source: None,
    };
    let releases = with_one(Vec::new(alloc), release);
    let (name, releases) = beside(name, releases)?;
    Ok(Package {
        name,
        entries: 1,
        prereleases: Prereleases::Allow,
        releases,
    })
}

// The project of a file, as a package, with a region.
fn project_with(alloc: Global, region: Tree, file: File) -> Result<Project, AllocError>
    requires region { IsRegionTree (tree_view region) }
    requires some { tree_view region ≡ truth false → ⊥ }
    ensures { IfOk result (λ p. p ≡ ProjectFile.project_with (tree_view region) file) }
{
    let File {
        head,
        requirements,
        extras,
        sizes,
        groups,
        settings,
    } = file;
    let Settings {
        sources,
        constraints,
        overrides,
        environments,
        mode,
        prereleases,
        strategy,
    } = settings;
    let lists = (extras, sizes, groups, constraints, overrides, environments);
    let sources = of_others(alloc, &head.name, sources);
    let (kept, sources) = beside((region, head, requirements, lists), sources)?;
    let (region, head, requirements, lists) = kept;
    let package = package_of(alloc, head.name, head.version, requirements);
    let (kept, package) = beside((region, lists, sources), package)?;
    let (region, lists, sources) = kept;
    let (extras, sizes, groups, constraints, overrides, environments) = lists;
    Ok(Project {
        package,
        extras,
        sizes,
        environments,
        region,
        mode,
        prereleases,
        strategy,
        groups,
        sources,
        constraints,
        overrides,
    })
}

// The worlds that the project of a file supports.
fn region_of(alloc: Global, file: &File) -> Result<Tree, AllocError>
    ensures { IfOk result (λ t. HasTruth (tree_view t) (supported_by file.now)) }
{
    let head: &Head = &file.head;
    let settings: &Settings = &file.settings;
    let python: &Specifiers = &head.python;
    let environments: &Vec<Marker> = &settings.environments;
    region(alloc, python, environments.as_slice())
}

// The project that a file says, unless it supports no world.
fn project_of(alloc: Global, file: File) -> Result<Project, ProjectFault>
    ensures { IsAnswerOf file result }
{
    let region = region_of(alloc, &file);
    let (file, region) = beside(file, region)?;
    if is_false(&region) {
        drop((file, region));
        return Err(ProjectFault::EmptyRegion);
    }
    let project = project_with(alloc, region, file)?;
    Ok(project)
}

/// The project that a project file says: a `pyproject.toml` (PEP 621, PEP 735), with keys of uv.
///
/// The checks are made in this order, and the first that fails answers; other keys and tables are passed over. An
/// absent key passes unless said otherwise. Places count from 0, and extras, groups and names with sources stand in
/// paths under their normal forms. The profile is `wide` where `tool.unilock.profile` is that text, else `strict`.
///
/// 1. `NotToml` comes exactly where `toml` doesn't read the bytes.
/// 2. `project` is a table and `project.name` a name, and both are there; `project.version` is a version, and `0`
///    where it is absent.
/// 3. `project.dynamic` is an array of texts; with `dependencies`, `optional-dependencies` or `requires-python` among
///    them it is `Unsupported`.
/// 4. `project.requires-python` is a specifier.
/// 5. `project.dependencies` is an array. Each entry, in order, is a text, else `Shape`; under `strict` not a
///    requirement by a URL, else `Unsupported`; and a requirement (PEP 508), else `Requirement`. One by a URL asks for
///    any version of its name.
/// 6. `project.optional-dependencies` is a table. Its keys are names of which no two have one normal form; its lists
///    follow, in byte order of the keys, each as in 5.
/// 7. `dependency-groups` is a table. Its keys are names of which no two have one normal form, and `group-NAME` is no
///    extra of the project; its lists follow, in byte order of the keys. Each is an array, and each entry a
///    requirement as in 5, or a table with the one key `include-group`, whose text is a name.
/// 8. `tool`, `tool.uv` and `tool.unilock` are tables, and `tool.unilock.profile` is `strict` or `wide`.
/// 9. The keys of uv that the profile doesn't support say nothing. Under `wide`, `tool.uv.sources` is read, before
///    `tool.uv.conflicts` is looked at: a table whose keys are names, of which no two have one normal form; its values
///    follow, in byte order of the keys, each a table or an array of one or more tables. In such a table `index` is a
///    name other than `direct`, `marker` a marker without `extra`, and `extra` and `group` are names. A source with one
///    of these two is `Unsupported`, after `tool.uv.conflicts`. Sources of the project's own name are left out.
///    Then constraints and overrides are lists as in 5, without extras and without markers that ask for one, else
///    `Unsupported`. Under `wide`, `tool.uv.dev-dependencies` is a list as in 5; where it has entries, `group-dev` is no
///    extra of the project, and they follow those of the group `dev`.
/// 10. `tool.uv.environments` is a marker or an array of markers; the empty array asks for nothing.
/// 11. `tool.uv.resolution`, `tool.uv.prerelease` and `tool.uv.fork-strategy` are words that are known.
/// 12. `EmptyRegion` comes exactly where all this passes and no world is supported: none whose interpreter meets
///     `requires-python` and in which some environment holds.
///
/// Where no kind is said, a failed check is `Shape`.
pub fn project(alloc: Global, bytes: &[u8]) -> Result<Project, ProjectFault>
    ensures { IsAnswer bytes.now result }
{
    let file = file_of(alloc, bytes)?;
    project_of(alloc, file)
}
