//! What a project file asks of a resolver under `tool.uv`.

ghost use Rattle.std.specs.Prelude.{◌≡◌, ◌∷◌, [], IfErr, IfOk, map};
ghost use Rattle.toml.specs.View.{items_view, table_view, view};
ghost use Rattle.ul_comparison.specs.Formulas.{AreFormulas, IsFormula};
ghost use Rattle.ul_marker.specs.Views.{marker_view, markers_view};
ghost use Rattle.ul_project.specs.Answers.{Gives, asked_view, formulas_view, list_view, listed_view, members_view, value_view};
ghost use Rattle.ul_project.specs.Lists.{names_of};
ghost use Rattle.ul_project.specs.Results.{each_from};
ghost use Rattle.ul_project.specs.Settings as spec;
ghost use Rattle.ul_project.specs.Shapes.{at_key};
ghost use Rattle.ul_project.specs.Toml.{items_list};

use crate::dev::dev_dependencies_in;
use crate::extras::Requirements;
use crate::kept::{read_beside, with_read};
use crate::path::ArrayPlace;
use crate::profile::profile_at;
use crate::requirements::bounds_at;
use crate::shapes::{
    at_key, entry_text, items_at, optional_table_at, says_nothing, text_or, value_at, value_in,
};
use crate::sources::{SaidSources, Sources, all_supported, said_sources};
use crate::{Place, Profile, ProjectFault, ProjectKey, ProjectPath};
use std::alloc::Global;
use std::collections::BTreeMap;
use std::marker::Model;
use toml::{Table, Value};
use ul_base::Name;
use ul_base::owned::with_one;
use ul_marker::{Marker, MarkerFault};
use ul_requirement::{Mode, Prereleases, Requirement, Strategy};

/// What is asked of the resolver.
#[derive(Drop)]
pub(crate) struct Settings {
    pub(crate) sources: BTreeMap<Name, Sources>,
    pub(crate) constraints: Vec<Requirement>,
    pub(crate) overrides: Vec<Requirement>,
    pub(crate) environments: Vec<Marker>,
    pub(crate) mode: Mode,
    pub(crate) prereleases: Prereleases,
    pub(crate) strategy: Strategy,
}

impl Model for Settings {
    ghost use Rattle.std.specs.Coded.{codes};
    ghost use Rattle.std.specs.Prelude.{map};
    ghost use Rattle.ul_comparison.specs.Codes.{formula_code};
    ghost use Rattle.ul_comparison.specs.Formulas.{AreFormulas};
    ghost use Rattle.ul_marker.specs.Views.{marker_view, markers_view};
    ghost use Rattle.ul_project.specs.Settings.{SettingsFields};

    ghost Value = { SettingsFields };

    ghost coded = { Prim.hlevel (codes, formula_code) };

    ghost view = { λ s. record { sources = s.sources.entries; constraints = s.constraints.items; overrides = s.overrides.items; environments = map marker_view s.environments.items; mode = s.mode; prereleases = s.prereleases; strategy = s.strategy } };

    ghost invariant = { λ s. AreFormulas (markers_view s.environments.items) };
}

// The table `tool.uv` of a document, where there is one; `tool.unilock` is looked at behind it.
#[tactic(auto, unfolding(crate::specs::Settings::uv_at))]
fn uv_at(document: &Table) -> Result<Option<&Table>, ProjectFault>
    ensures { Gives members_view result (spec.uv_at (table_view document.now)) }
{
    let tool = optional_table_at(ProjectKey::Tool, value_at(document, "tool"))?;
    let uv = optional_table_at(ProjectKey::Uv, value_in(tool, "uv"))?;
    profile_at(tool)?;
    Ok(uv)
}

// The key says nothing.
fn silent_at(key: ProjectKey, value: Option<&Value>) -> Result<(), ProjectFault>
    ensures { Gives (λ _. tt) result (spec.silent_at key (value_view value.entry)) }
{
    if says_nothing(value) {
        Ok(())
    } else {
        Err(ProjectFault::Unsupported(at_key(key)))
    }
}

// None of the keys that only the profile `strict` doesn't support says anything, where it is that.
#[tactic(auto, unfolding(crate::specs::Settings::strictly_silent))]
fn strictly_silent(profile: Profile, uv: Option<&Table>) -> Result<(), ProjectFault>
    ensures { Gives (λ _. tt) result (spec.strictly_silent profile (members_view uv.entry)) }
{
    if matches!(profile, Profile::Wide) {
        return Ok(());
    }
    silent_at(ProjectKey::Index, value_in(uv, "index"))?;
    silent_at(ProjectKey::ExtraIndexUrl, value_in(uv, "extra-index-url"))?;
    silent_at(ProjectKey::FindLinks, value_in(uv, "find-links"))?;
    silent_at(ProjectKey::Workspace, value_in(uv, "workspace"))?;
    silent_at(
        ProjectKey::DevDependencies,
        value_in(uv, "dev-dependencies"),
    )
}

// The sources that a profile reads.
#[tactic(auto, unfolding(crate::specs::Settings::said_in))]
fn said_in(
    alloc: Global,
    profile: Profile,
    uv: Option<&Table>,
) -> Result<Vec<(Name, SaidSources)>, ProjectFault>
    ensures { Gives list_view result (spec.said_in profile (members_view uv.entry)) }
{
    let value = value_in(uv, "sources");
    match profile {
        Profile::Strict => {
            silent_at(ProjectKey::Sources, value)?;
            Ok(Vec::new(alloc))
        }
        Profile::Wide => said_sources(alloc, Profile::Wide, value),
    }
}

// The sources; no key that isn't supported says anything, and no source asks for what isn't.
#[tactic(auto, unfolding(crate::specs::Settings::sources_in))]
fn sources_in(
    alloc: Global,
    profile: Profile,
    uv: Option<&Table>,
) -> Result<BTreeMap<Name, Sources>, ProjectFault>
    ensures { Gives (λ m. m.entries) result (spec.sources_in profile (members_view uv.entry)) }
{
    let said = said_in(alloc, profile, uv)?;
    let silent = silent_at(ProjectKey::Conflicts, value_in(uv, "conflicts"));
    let (said, _silent) = read_beside(said, silent)?;
    let sources = all_supported(alloc, said)?;
    let (sources, _silent) = read_beside(sources, strictly_silent(profile, uv))?;
    Ok(sources)
}

// The constraints, the overrides, and the requirements of the group `dev`.
#[tactic(auto, unfolding(crate::specs::Settings::listed_in))]
fn listed_in(
    alloc: Global,
    profile: Profile,
    extras: &BTreeMap<Name, Requirements>,
    uv: Option<&Table>,
) -> Result<(Vec<Requirement>, Vec<Requirement>, Vec<Requirement>), ProjectFault>
    ensures { Gives listed_view result
        (spec.listed_in profile (names_of extras.now.entries) (members_view uv.entry)) }
{
    let place = ArrayPlace::Key(ProjectKey::ConstraintDependencies);
    let value = value_in(uv, "constraint-dependencies");
    let constraints = bounds_at(alloc, profile, place, value)?;
    let place = ArrayPlace::Key(ProjectKey::OverrideDependencies);
    let value = value_in(uv, "override-dependencies");
    let overrides = bounds_at(alloc, profile, place, value);
    let (constraints, overrides) = read_beside(constraints, overrides)?;
    let dev = dev_dependencies_in(alloc, profile, extras, uv);
    let (bounds, dev) = read_beside((constraints, overrides), dev)?;
    let (constraints, overrides) = bounds;
    Ok((constraints, overrides, dev))
}

// The marker that a text at a key is.
fn environment_of(alloc: Global, text: &str) -> Result<Marker, ProjectFault>
    ensures marker { Gives marker_view result (spec.environment_of (at_key ProjectKey.Environments) text.now) }
    ensures valid { IfOk result (λ m. IsFormula (marker_view m)) }
{
    match Marker::read(alloc, text) {
        Ok(marker) => Ok(marker),
        Err(MarkerFault::NoReading) => Err(ProjectFault::Shape(at_key(ProjectKey::Environments))),
        Err(MarkerFault::NoMemory) => Err(ProjectFault::NoMemory),
    }
}

// The path of an environment.
fn environment_path(entry: u64) -> ProjectPath
    ensures { result ≡ spec.environment_path entry }
{
    ProjectPath::Entry(Place::Key(ProjectKey::Environments), entry)
}

// The marker that an entry is.
#[tactic(auto, unfolding(crate::specs::Settings::environment_at))]
fn environment_at(alloc: Global, entry: u64, value: &Value) -> Result<Marker, ProjectFault>
    ensures marker { Gives marker_view result (spec.environment_at entry (view value.now)) }
    ensures valid { IfOk result (λ m. IsFormula (marker_view m)) }
{
    let text = entry_text(
        alloc,
        ArrayPlace::Key(ProjectKey::Environments),
        entry,
        value,
    )?;
    match Marker::read(alloc, text) {
        Ok(marker) => Ok(marker),
        Err(MarkerFault::NoReading) => Err(ProjectFault::Shape(environment_path(entry))),
        Err(MarkerFault::NoMemory) => Err(ProjectFault::NoMemory),
    }
}

// The markers that the values of an array are.
fn environments(alloc: Global, items: &[Value]) -> Result<Vec<Marker>, ProjectFault>
    ensures markers { Gives formulas_view result (each_from spec.environment_at 0 (items_list (items_view items.now))) }
    ensures valid { IfOk result (λ v. AreFormulas (markers_view v.items)) }
{
    let mut list = Vec::new(alloc);
    let mut number: u64 = 0;
    for item in items {
        list = with_read(list, environment_at(alloc, number, item))?;
        number += 1;
    }
    Ok(list)
}

// One marker.
fn only(alloc: Global, marker: Marker) -> Result<Vec<Marker>, ProjectFault>
    requires { IsFormula (marker_view marker) }
    ensures marker { IfOk result (λ v. map marker_view v.items ≡ marker_view marker ∷ []) }
    ensures valid { IfOk result (λ v. AreFormulas (markers_view v.items)) }
    ensures memory { IfErr result (λ e. e ≡ ProjectFault.NoMemory) }
{
    let list = with_one(Vec::new(alloc), marker)?;
    Ok(list)
}

// The environments of a project.
#[tactic(auto, unfolding(crate::specs::Settings::environments_at))]
fn environments_at(alloc: Global, value: Option<&Value>) -> Result<Vec<Marker>, ProjectFault>
    ensures markers { Gives formulas_view result (spec.environments_at (value_view value.entry)) }
    ensures valid { IfOk result (λ v. AreFormulas (markers_view v.items)) }
{
    match value {
        None => Ok(Vec::new(alloc)),
        Some(Value::String(text)) => {
            let marker = environment_of(alloc, text.as_str())?;
            only(alloc, marker)
        }
        Some(value) => {
            let items = items_at(
                alloc,
                ArrayPlace::Key(ProjectKey::Environments),
                Some(value),
            )?;
            environments(alloc, items)
        }
    }
}

// The mode of a word.
fn mode_of(word: &str) -> Option<Mode>
    ensures { result ≡ spec.mode_of word.now }
{
    match word {
        "highest" => Some(Mode::Highest),
        "lowest" => Some(Mode::Lowest),
        "lowest-direct" => Some(Mode::LowestDirect),
        _ => None,
    }
}

// Which versions are tried first.
#[tactic(auto, unfolding(crate::specs::Settings::mode_at))]
fn mode_at(value: Option<&Value>) -> Result<Mode, ProjectFault>
    ensures { Gives (λ m. m) result (spec.mode_at (value_view value.entry)) }
{
    let word = text_or("highest", ProjectKey::Resolution, value)?;
    match mode_of(word) {
        Some(mode) => Ok(mode),
        None => Err(ProjectFault::Shape(at_key(ProjectKey::Resolution))),
    }
}

// The pre-releases that count, by their word.
fn wide_prereleases(word: &str) -> Option<Prereleases>
    ensures { result ≡ spec.wide_prereleases word.now }
{
    match word {
        "disallow" => Some(Prereleases::Disallow),
        "allow" => Some(Prereleases::Allow),
        "if-necessary" => Some(Prereleases::IfNecessary),
        "explicit" => Some(Prereleases::Explicit),
        "if-necessary-or-explicit" => Some(Prereleases::IfNecessaryOrExplicit),
        _ => None,
    }
}

// The pre-releases that count by a word that a profile knows.
fn prereleases_of(profile: Profile, word: &str) -> Option<Prereleases>
    ensures { result ≡ spec.prereleases_of profile word.now }
{
    match profile {
        Profile::Strict => {
            if word == "if-necessary-or-explicit" {
                Some(Prereleases::IfNecessaryOrExplicit)
            } else {
                None
            }
        }
        Profile::Wide => wide_prereleases(word),
    }
}

// Which pre-releases count.
#[tactic(auto, unfolding(crate::specs::Settings::prereleases_at))]
fn prereleases_at(profile: Profile, value: Option<&Value>) -> Result<Prereleases, ProjectFault>
    ensures { Gives (λ p. p) result (spec.prereleases_at profile (value_view value.entry)) }
{
    match value {
        None => Ok(Prereleases::IfNecessaryOrExplicit),
        Some(Value::String(word)) => match prereleases_of(profile, word.as_str()) {
            Some(prereleases) => Ok(prereleases),
            None => Err(ProjectFault::Unsupported(at_key(ProjectKey::Prerelease))),
        },
        Some(_) => Err(ProjectFault::Unsupported(at_key(ProjectKey::Prerelease))),
    }
}

// The strategy of a word.
fn strategy_of(word: &str) -> Option<Strategy>
    ensures { result ≡ spec.strategy_of word.now }
{
    match word {
        "fewest" => Some(Strategy::Fewest),
        "requires-python" => Some(Strategy::RequiresPython),
        "deep" => Some(Strategy::Deep),
        _ => None,
    }
}

// When a region is split.
#[tactic(auto, unfolding(crate::specs::Settings::strategy_at))]
fn strategy_at(value: Option<&Value>) -> Result<Strategy, ProjectFault>
    ensures { Gives (λ s. s) result (spec.strategy_at (value_view value.entry)) }
{
    match value {
        None => Ok(Strategy::Fewest),
        Some(Value::String(word)) => match strategy_of(word.as_str()) {
            Some(strategy) => Ok(strategy),
            None => Err(ProjectFault::Unsupported(at_key(ProjectKey::ForkStrategy))),
        },
        Some(_) => Err(ProjectFault::Unsupported(at_key(ProjectKey::ForkStrategy))),
    }
}

// Which versions are tried first, which pre-releases count, and when a region is split.
#[tactic(auto, unfolding(crate::specs::Settings::choices_in))]
fn choices_in(
    profile: Profile,
    uv: Option<&Table>,
) -> Result<(Mode, Prereleases, Strategy), ProjectFault>
    ensures { Gives (λ c. c) result (spec.choices_in profile (members_view uv.entry)) }
{
    let mode = mode_at(value_in(uv, "resolution"))?;
    let prereleases = prereleases_at(profile, value_in(uv, "prerelease"))?;
    let strategy = strategy_at(value_in(uv, "fork-strategy"))?;
    Ok((mode, prereleases, strategy))
}

// The requirements of the group `dev`, and what a file asks of the resolver, in the order of the checks.
#[tactic(auto, unfolding(crate::specs::Settings::settings_in))]
pub(crate) fn settings_in(
    alloc: Global,
    profile: Profile,
    extras: &BTreeMap<Name, Requirements>,
    document: &Table,
) -> Result<(Vec<Requirement>, Settings), ProjectFault>
    ensures { Gives asked_view result
        (spec.settings_in profile (names_of extras.now.entries) (table_view document.now)) }
{
    let uv = uv_at(document)?;
    let sources = sources_in(alloc, profile, uv)?;
    let listed = listed_in(alloc, profile, extras, uv);
    let (sources, listed) = read_beside(sources, listed)?;
    let environments = environments_at(alloc, value_in(uv, "environments"));
    let (kept, environments) = read_beside((sources, listed), environments)?;
    let (kept, choices) = read_beside((kept, environments), choices_in(profile, uv))?;
    let ((sources, (constraints, overrides, dev)), environments) = kept;
    let (mode, prereleases, strategy) = choices;
    let settings = Settings {
        sources,
        constraints,
        overrides,
        environments,
        mode,
        prereleases,
        strategy,
    };
    Ok((dev, settings))
}
