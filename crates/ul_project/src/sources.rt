//! `tool.uv.sources`: where the releases of a name have to come from.

ghost use Rattle.std.specs.Prelude.{◌≡◌, IfOk, Some, map, option_map};
ghost use Rattle.std.specs.List.{list_any};
ghost use Rattle.std.specs.Str.{bytes_eq};
ghost use Rattle.toml.specs.View.{items_view, table_view, view};
ghost use Rattle.ul_comparison.specs.Formulas.{IsFormula};
ghost use Rattle.ul_marker.specs.Views.{marker_view};
ghost use Rattle.ul_requirement.specs.Fields.{MayBeFormula};
ghost use Rattle.ul_project.specs.Answers.{Gives, list_view, value_view, values_view};
ghost use Rattle.ul_project.specs.GroupLists as GroupLists;
ghost use Rattle.ul_project.specs.Results.{each_from};
ghost use Rattle.ul_project.specs.Sources as spec;
ghost use Rattle.ul_project.specs.Toml.{items_list};

use crate::groups::name_in;
use crate::kept::{read_beside, with_read};
use crate::lists::{NamedList, are_names, by_name, lists_in};
use crate::path::ArrayPlace;
use crate::shapes::{at_key, items_at, optional_table_at, value_at};
use crate::{Profile, ProjectFault, ProjectKey};
use std::alloc::{AllocError, Global};
use std::collections::BTreeMap;
use std::marker::Model;
use toml::{Table, Value};
use ul_base::Name;
use ul_base::owned::{beside, with_one};
use ul_marker::{Marker, MarkerFault};

/// A source of a name.
///
/// Contracts see it as the record `SourceFields`.
#[derive(Drop)]
pub struct Source {
    /// The name of a package index, or `direct` for a path, a URL, a repository or a member of a workspace.
    pub label: Name,
    /// The marker under which the source counts, which doesn't ask for an extra; without one it counts everywhere.
    pub condition: Option<Marker>,
}

impl Model for Source {
    ghost use Rattle.std.specs.Coded.{codes};
    ghost use Rattle.std.specs.Prelude.{option_map};
    ghost use Rattle.ul_comparison.specs.Codes.{formula_code};
    ghost use Rattle.ul_marker.specs.Views.{marker_view};
    ghost use Rattle.ul_project.specs.Sources.{IsSource, SourceFields};

    ghost Value = { SourceFields };

    ghost coded = { Prim.hlevel (codes, formula_code) };

    ghost view = { λ s. record { label = s.label; condition = option_map marker_view s.condition } };

    ghost invariant = { λ s. IsSource (record { label = s.label; condition = option_map marker_view s.condition }) };
}

/// A source as it is read, and whether it counts for an extra or a group alone.
#[derive(Drop)]
pub(crate) struct Said {
    source: Source,
    asks: bool,
}

impl Model for Said {
    ghost use Rattle.std.specs.Coded.{codes};
    ghost use Rattle.ul_comparison.specs.Codes.{formula_code};
    ghost use Rattle.ul_project.specs.Sources.{SaidSource};

    ghost Value = { SaidSource };

    ghost coded = { Prim.hlevel (codes, formula_code) };

    ghost view = { λ s. record { source = s.source; asks = s.asks } };
}

/// The sources of a name as they are read, which contracts see as their list.
#[derive(Drop)]
pub(crate) struct SaidSources {
    list: Vec<Said>,
}

impl Model for SaidSources {
    ghost use Rattle.std.specs.Coded.{codes};
    ghost use Rattle.std.specs.Prelude.{List};
    ghost use Rattle.ul_comparison.specs.Codes.{formula_code};
    ghost use Rattle.ul_project.specs.Sources.{SaidSource};

    ghost Value = { List SaidSource };

    ghost coded = { Prim.hlevel (codes, formula_code) };

    ghost view = { λ s. s.list.items };
}

/// The sources of a name, which contracts see as their list.
#[derive(Drop)]
pub(crate) struct Sources {
    list: Vec<Source>,
}

impl Model for Sources {
    ghost use Rattle.std.specs.Coded.{codes};
    ghost use Rattle.std.specs.Prelude.{List};
    ghost use Rattle.ul_comparison.specs.Codes.{formula_code};
    ghost use Rattle.ul_project.specs.Sources.{SourceFields};

    ghost Value = { List SourceFields };

    ghost coded = { Prim.hlevel (codes, formula_code) };

    ghost view = { λ s. s.list.items };
}

/// The sources of a name, in the order of the file.
#[derive(Drop)]
pub struct NameSources {
    pub name: Name,
    pub sources: Vec<Source>,
}

impl Model for NameSources {
    ghost use Rattle.std.specs.Coded.{codes};
    ghost use Rattle.std.specs.Prelude.{ℕ, List};
    ghost use Rattle.ul_comparison.specs.Codes.{formula_code};
    ghost use Rattle.ul_project.specs.Lists.{Named};
    ghost use Rattle.ul_project.specs.Sources.{SourceFields};

    ghost Value = { Named (List SourceFields) };

    ghost coded = { Prim.hlevel (codes, formula_code) };

    ghost view = { λ s. (s.name, s.sources.items) };
}

// The fault of sources of another shape.
fn misshapen(alloc: Global, name: &Name) -> Result<ProjectFault, AllocError>
    ensures { IfOk result (λ f. f ≡ ProjectFault.Shape (spec.sources_path name.now)) }
{
    Ok(ProjectFault::Shape(ArrayPlace::Sources(name).whole(alloc)?))
}

// The label of what doesn't come from a package index.
fn direct(alloc: Global) -> Result<Name, AllocError>
    ensures { IfOk result (λ n. n ≡ spec.direct) }
{
    match Name::read(alloc, "direct") {
        Ok(name) => Ok(name),
        Err(_) => Err(AllocError),
    }
}

// The name of a package index that a value is.
fn index_in(alloc: Global, value: &Value) -> Result<Option<Name>, AllocError>
    ensures { IfOk result (λ n. n ≡ spec.index_name (GroupLists.name_in (Some (view value.now)))) }
{
    match name_in(alloc, Some(value))? {
        Some(name) => {
            if name.text() == "direct" {
                drop(name);
                return Ok(None);
            }
            Ok(Some(name))
        }
        None => Ok(None),
    }
}

// The label of a source.
#[tactic(auto, unfolding(crate::specs::Sources::label_at))]
fn label_at(alloc: Global, name: &Name, value: Option<&Value>) -> Result<Name, ProjectFault>
    ensures { Gives (λ l. l) result (spec.label_at (spec.sources_path name.now) (value_view value.entry)) }
{
    let Some(value) = value else {
        return Ok(direct(alloc)?);
    };
    match index_in(alloc, value)? {
        Some(label) => Ok(label),
        None => Err(misshapen(alloc, name)?),
    }
}

// The marker of a text, unless it asks for an extra.
fn condition_of(alloc: Global, name: &Name, text: &str) -> Result<Marker, ProjectFault>
    ensures marker { Gives (λ m. Some (marker_view m)) result
        (spec.condition_of (spec.sources_path name.now) text.now) }
    ensures valid { IfOk result (λ m. IsFormula (marker_view m)) }
{
    match Marker::read(alloc, text) {
        Ok(marker) => {
            if marker.asks_extra() {
                drop(marker);
                return Err(misshapen(alloc, name)?);
            }
            Ok(marker)
        }
        Err(MarkerFault::NoReading) => Err(misshapen(alloc, name)?),
        Err(MarkerFault::NoMemory) => Err(ProjectFault::NoMemory),
    }
}

// The marker under which a source counts.
#[tactic(auto, unfolding(crate::specs::Sources::condition_at))]
fn condition_at(
    alloc: Global,
    name: &Name,
    value: Option<&Value>,
) -> Result<Option<Marker>, ProjectFault>
    ensures marker { Gives (option_map marker_view) result
        (spec.condition_at (spec.sources_path name.now) (value_view value.entry)) }
    ensures valid { IfOk result (λ m. MayBeFormula (option_map marker_view m)) }
{
    match value {
        None => Ok(None),
        Some(Value::String(text)) => {
            let marker = condition_of(alloc, name, text.as_str())?;
            Ok(Some(marker))
        }
        Some(_) => Err(misshapen(alloc, name)?),
    }
}

// Whether a source counts for an extra, or a group, alone.
#[tactic(auto, unfolding(crate::specs::Sources::asks_at))]
fn asks_at(alloc: Global, name: &Name, value: Option<&Value>) -> Result<bool, ProjectFault>
    ensures { Gives (λ b. b) result (spec.asks_at (spec.sources_path name.now) (value_view value.entry)) }
{
    let Some(value) = value else {
        return Ok(false);
    };
    match name_in(alloc, Some(value))? {
        Some(asked) => {
            drop(asked);
            Ok(true)
        }
        None => Err(misshapen(alloc, name)?),
    }
}

// A source.
#[tactic(auto, unfolding(crate::specs::Sources::source_in))]
fn source_in(alloc: Global, name: &Name, table: &Table) -> Result<Said, ProjectFault>
    ensures { Gives (λ s. s) result (spec.source_in (spec.sources_path name.now) (table_view table.now)) }
{
    let label = label_at(alloc, name, value_at(table, "index"))?;
    let condition = condition_at(alloc, name, value_at(table, "marker"));
    let (label, condition) = read_beside(label, condition)?;
    let extra = asks_at(alloc, name, value_at(table, "extra"));
    let (kept, extra) = read_beside((label, condition), extra)?;
    let group = asks_at(alloc, name, value_at(table, "group"));
    let ((label, condition), group) = read_beside(kept, group)?;
    Ok(Said {
        source: Source { label, condition },
        asks: extra || group,
    })
}

// A source of an array.
#[tactic(auto, unfolding(crate::specs::Sources::source_at))]
fn source_at(alloc: Global, name: &Name, value: &Value) -> Result<Said, ProjectFault>
    ensures { Gives (λ s. s) result (spec.source_at (spec.sources_path name.now) (view value.now)) }
{
    match value {
        Value::Table(table) => source_in(alloc, name, table),
        _ => Err(misshapen(alloc, name)?),
    }
}

// The sources of the values of an array.
fn listed(alloc: Global, name: &Name, items: &[Value]) -> Result<Vec<Said>, ProjectFault>
    ensures { Gives list_view result
        (each_from (λ i d. spec.source_at (spec.sources_path name.now) d) 0 (items_list (items_view items.now))) }
{
    let mut list = Vec::new(alloc);
    for item in items {
        list = with_read(list, source_at(alloc, name, item))?;
    }
    Ok(list)
}

// The values of an array that isn't empty.
fn some_items<'a>(alloc: Global, name: &Name, value: &'a Value) -> Result<&'a [Value], ProjectFault>
    ensures { Gives values_view result
        (spec.some_items_at (spec.sources_path name.now) (Some (view value.now))) }
{
    let items = items_at(alloc, ArrayPlace::Sources(name), Some(value))?;
    if items.is_empty() {
        return Err(misshapen(alloc, name)?);
    }
    Ok(items)
}

// The source of a table, as a list.
fn one_source(alloc: Global, name: &Name, table: &Table) -> Result<Vec<Said>, ProjectFault>
    ensures { Gives list_view result
        (spec.one_source (spec.sources_path name.now) (table_view table.now)) }
{
    let source = source_in(alloc, name, table)?;
    let list = with_one(Vec::new(alloc), source)?;
    Ok(list)
}

impl NamedList for SaidSources {
    ghost use Rattle.ul_project.specs.Sources.{sources_of};

    ghost list_at = { sources_of };

    #[tactic(auto, unfolding(crate::specs::Sources::sources_of))]
    fn read(
        alloc: Global,
        profile: Profile,
        name: &Name,
        value: &Value,
    ) -> Result<SaidSources, ProjectFault> {
        match value {
            Value::Table(table) => {
                let list = one_source(alloc, name, table)?;
                Ok(SaidSources { list })
            }
            value => {
                let items = some_items(alloc, name, value)?;
                let list = listed(alloc, name, items)?;
                Ok(SaidSources { list })
            }
        }
    }
}

/// The sources that a file says, in byte order of the keys.
#[tactic(auto, unfolding(crate::specs::Sources::said_sources, crate::specs::Lists::lists_in))]
pub(crate) fn said_sources(
    alloc: Global,
    profile: Profile,
    value: Option<&Value>,
) -> Result<Vec<(Name, SaidSources)>, ProjectFault>
    ensures { Gives list_view result (spec.said_sources profile (value_view value.entry)) }
{
    let Some(table) = optional_table_at(ProjectKey::Sources, value)? else {
        return Ok(Vec::new(alloc));
    };
    let none: BTreeMap<Name, SaidSources> = BTreeMap::new(alloc);
    let named = are_names(alloc, &none, table);
    drop(none);
    if !named? {
        return Err(ProjectFault::Shape(at_key(ProjectKey::Sources)));
    }
    lists_in(alloc, profile, ProjectKey::Sources, table)
}

// Whether a source counts for an extra or a group alone.
fn any_asks(list: &[Said]) -> bool
    ensures { result ≡ list_any (λ s. s.asks) list.now }
{
    for said in list {
        if said.asks {
            return true;
        }
    }
    false
}

// The sources without what they ask for.
fn sources_of(alloc: Global, list: Vec<Said>) -> Result<Vec<Source>, AllocError>
    ensures { IfOk result (λ v. v.items ≡ map (λ s. s.source) list.items) }
{
    let mut sources = Vec::new(alloc);
    for said in list {
        sources = with_one(sources, said.source)?;
    }
    Ok(sources)
}

// The sources of a name, where they are supported.
fn supported(alloc: Global, name: Name, said: SaidSources) -> Result<(Name, Sources), ProjectFault>
    ensures { Gives (λ s. s) result (spec.supported (name, said)) }
{
    if any_asks(said.list.as_slice()) {
        let path = ArrayPlace::Sources(&name).whole(alloc);
        let (_kept, path) = beside((name, said), path)?;
        return Err(ProjectFault::Unsupported(path));
    }
    let (name, list) = beside(name, sources_of(alloc, said.list))?;
    Ok((name, Sources { list }))
}

// The sources of names, in their order, where they are supported.
fn each_supported(
    alloc: Global,
    said: Vec<(Name, SaidSources)>,
) -> Result<Vec<(Name, Sources)>, ProjectFault>
    ensures { Gives list_view result (each_from (λ i s. spec.supported s) 0 said.items) }
{
    let mut list = Vec::new(alloc);
    for (name, sources) in said {
        list = with_read(list, supported(alloc, name, sources))?;
    }
    Ok(list)
}

/// The sources of all names, in byte order of these, where they are supported.
#[tactic(auto, unfolding(crate::specs::Sources::all_supported))]
pub(crate) fn all_supported(
    alloc: Global,
    said: Vec<(Name, SaidSources)>,
) -> Result<BTreeMap<Name, Sources>, ProjectFault>
    ensures { Gives (λ m. m.entries) result (spec.all_supported said.items) }
{
    let list = each_supported(alloc, said)?;
    let sources = by_name(alloc, list)?;
    Ok(sources)
}

// Whether two names are one.
fn is_same(name: &Name, other: &Name) -> bool
    ensures { result ≡ bytes_eq name.now other.now }
{
    name.text() == other.text()
}

/// The sources of other names than the project's own, of which no release is looked for.
pub(crate) fn of_others(
    alloc: Global,
    own: &Name,
    sources: BTreeMap<Name, Sources>,
) -> Result<Vec<NameSources>, AllocError>
    ensures { IfOk result (λ v. v.items ≡ spec.of_others own.now sources.entries) }
{
    let mut list = Vec::new(alloc);
    for (name, sources) in sources {
        if !is_same(&name, own) {
            let named = NameSources {
                name,
                sources: sources.list,
            };
            list = with_one(list, named)?;
        }
    }
    Ok(list)
}
