//! What a project file is read as, in one line.
use std::alloc::Global;
use std::fmt::Write;
use tests_rows::{put, put_number};
use ul_base::Name;
use ul_project::{Group, GroupEntry, NameSources, Project, ProjectFault, ProjectPath, project};
use ul_requirement::{Mode, Prereleases, Release, Requirement, Strategy};
use ul_tree::paths;

fn put_name(told: &mut String, name: &Name) {
    put(told, name.text());
    put(told, " ");
}

// Puts a requirement in short: its name, its extras, how many clauses it has, and `;` where it has a marker, or `!` for
// one that asks for an extra.
fn put_requirement(told: &mut String, requirement: &Requirement) {
    put(told, requirement.name.text());
    for extra in &requirement.extras {
        put(told, "+");
        put(told, extra.text());
    }
    let count = requirement.specifiers.clauses.len();
    if count > 0 {
        put(told, ":");
        put_number(told, count as u64);
    }
    if let Some(marker) = &requirement.marker {
        put(told, if marker.asks_extra() { "!" } else { ";" });
    }
    put(told, " ");
}

fn put_requirements(told: &mut String, list: &[Requirement]) {
    for requirement in list {
        put_requirement(told, requirement);
    }
}

fn put_entry(told: &mut String, entry: &GroupEntry) {
    match entry {
        GroupEntry::Needs(requirement) => put_requirement(told, requirement),
        GroupEntry::Include(name) => {
            put(told, "@");
            put_name(told, name);
        }
    }
}

fn put_group(told: &mut String, group: &Group) {
    put(told, group.name.text());
    put(told, "= ");
    for entry in &group.entries {
        put_entry(told, entry);
    }
}

// Puts the version and the requirements of a release, and `?` where it has something that a project can't give it.
fn put_release(alloc: Global, told: &mut String, release: &Release) {
    if let Ok(version) = release.version.text(alloc) {
        put(told, version.as_str());
    }
    put(told, " ");
    put_requirements(told, release.requirements.as_slice());
    let has_source = release.source.is_some();
    if release.yanked
        || has_source
        || !release.files.is_empty()
        || !release.python.clauses.is_empty()
    {
        put(told, "?");
    }
}

// Puts the sources of a name: their labels, each with `;` where it has a condition.
fn put_sources(told: &mut String, named: &NameSources) {
    put(told, " ");
    put(told, named.name.text());
    let mut sign = "=";
    for source in &named.sources {
        put(told, sign);
        put(told, source.label.text());
        if source.condition.is_some() {
            put(told, ";");
        }
        sign = ",";
    }
}

fn mode_text(mode: Mode) -> &'static str {
    match mode {
        Mode::Highest => "highest",
        Mode::Lowest => "lowest",
        Mode::LowestDirect => "lowest-direct",
    }
}

fn strategy_text(strategy: Strategy) -> &'static str {
    match strategy {
        Strategy::Fewest => "fewest",
        Strategy::RequiresPython => "requires-python",
        Strategy::Deep => "deep",
    }
}

// The word of the pre-releases that count, behind a space; nothing where no key is needed for it.
fn prereleases_text(prereleases: Prereleases) -> &'static str {
    match prereleases {
        Prereleases::Disallow => " disallow",
        Prereleases::Allow => " allow",
        Prereleases::IfNecessary => " if-necessary",
        Prereleases::Explicit => " explicit",
        Prereleases::IfNecessaryOrExplicit => "",
    }
}

// Puts the numbers of entries, environments and paths of the region, mode, strategy and which pre-releases count.
fn put_settings(told: &mut String, project: &Project) {
    let entries = project.package.entries;
    let environments = project.environments.len();
    let paths = paths(&project.region);
    let mode = mode_text(project.mode);
    let strategy = strategy_text(project.strategy);
    let _ = write!(told, "| {entries} {environments} {paths} {mode} {strategy}");
    put(told, prereleases_text(project.prereleases));
}

// Puts a project in short: name and version, how many entries, releases and bounds it has, its requirements, extras and
// groups, constraints and overrides, how many environments and paths of the region, mode, strategy and pre-releases, and
// the sources of names.
fn put_project(alloc: Global, told: &mut String, project: &Project) {
    put_name(told, &project.package.name);
    for release in &project.package.releases {
        put_release(alloc, told, release);
    }
    put(told, "| ");
    for extra in &project.extras {
        put_name(told, extra);
    }
    put(told, "| ");
    for group in &project.groups {
        put_group(told, group);
    }
    put(told, "| ");
    put_requirements(told, &project.constraints);
    put(told, "| ");
    put_requirements(told, &project.overrides);
    put_settings(told, project);
    for named in &project.sources {
        put_sources(told, named);
    }
}

fn put_path(alloc: Global, told: &mut String, kind: &str, path: &ProjectPath) {
    if let Ok(path) = path.text(alloc) {
        put(told, kind);
        put(told, path.as_str());
    }
}

/// Puts a fault.
pub(crate) fn put_fault(alloc: Global, told: &mut String, fault: &ProjectFault) {
    match fault {
        ProjectFault::NotToml => put(told, "not TOML"),
        ProjectFault::Shape(path) => put_path(alloc, told, "shape ", path),
        ProjectFault::Requirement(path) => put_path(alloc, told, "requirement ", path),
        ProjectFault::Unsupported(path) => put_path(alloc, told, "unsupported ", path),
        ProjectFault::EmptyRegion => put(told, "empty region"),
        ProjectFault::NoMemory => put(told, "no memory"),
    }
}

// What bytes are read as: the project in short, or the fault.
fn told(alloc: Global, bytes: &[u8]) -> String {
    let mut told = String::new(alloc);
    match project(alloc, bytes) {
        Ok(project) => {
            put_project(alloc, &mut told, &project);
            drop(project);
        }
        Err(fault) => put_fault(alloc, &mut told, &fault),
    }
    told
}

/// Whether bytes are read as this.
pub(crate) fn is_read(alloc: Global, bytes: &[u8], want: &str) -> bool {
    told(alloc, bytes).as_str() == want
}
