//! Catalogs adjusted by constraints, overrides and sources.
//!
//! A row has the lines of a project file, which `~` ends; the two packages of the catalog behind the project, between
//! which a `~` stands, each with its name and the versions of its index document; and the packages as they are adjusted.
//! The project's groups are expanded before.
ghost use Rattle.std.specs.Prelude.{◌≡◌, ◌∷◌, [], IsTrue, bytes_eq, length};
ghost use Rattle.ul_index.specs.Catalogs.{IsCatalog};

use crate::groups::texts::{expanded_project, put_requirements};
use std::alloc::{AllocError, Global};
use std::fmt::Write;
use tests_rows::{cells, put};
use ul_base::Name;
use ul_groups::adjust;
use ul_index::{Catalog, document};
use ul_project::Project;
use ul_requirement::{Package, Release};

const ROWS: &str =
    r#"dependencies = ["q[x]>=1; os_name=='a'", 'r', 's']~[tool.uv]~constraint-dependencies = ["r<3; os_name=='b'", 'q', 'u']~override-dependencies = ['q==2', 'q<9,>1', 't']|r [{"version": "7", "requires_dist": ["t[y]>4", "u"]}]~x []|p 0: q+x==2;aA q;aA q+x<9>1;aA q;aA r r<3;bB s ~r 7: t+y u u ~x ~
dependencies = ['a']~[tool.uv]~constraint-dependencies = ['c<2']|a [{"version": "1", "requires_dist": ["c"]}]~c [{"version": "1"}, {"version": "2"}]|p 0: a ~a 1: c c<2 ~c 1: 2: ~
[tool.uv]~constraint-dependencies = ['c<2']~override-dependencies = ['d==1']|x []~y []|p 0: ~x ~y ~
dependencies = ['a', 'a>1']|a [{"version": "1", "requires_dist": ["a"]}]~x []|p 0: a a>1 ~a 1: a ~x ~
dependencies = ['a']~[tool.uv]~override-dependencies = ['c==1']|a [{"version": "1", "requires_dist": ["c>=2"]}]~c [{"version": "1"}, {"version": "2"}]|p 0: a ~a 1: c==1 ~c 1: 2: ~
dependencies = ["a>2; os_name == 'a'"]~[tool.uv]~override-dependencies = ["a==1; os_name == 'b'", "a==2; python_version >= '3'"]|x []~y []|p 0: a==1; a==2;aA ~x ~y ~
dependencies = ['a>1', 'b']~[tool.uv]~constraint-dependencies = ['a<9', 'a!=4']~override-dependencies = ['a==3']|x []~y []|p 0: a==3 a<9 a!=4 b ~x ~y ~
dependencies = ['A-B[z]']~[tool.uv]~constraint-dependencies = ['a.B<2']|x []~y []|p 0: a-b+z a-b<2 ~x ~y ~
dependencies = ['P']~[tool.uv]~override-dependencies = ['p==0']|x []~y []|p 0: p==0 ~x ~y ~
[project.optional-dependencies]~group-a = ["q[x]; os_name == 'a'"]~[tool.uv]~constraint-dependencies = ['q<3']~override-dependencies = ['q==2']|x []~y []|p 0: q+x==2;A q<3;A ~x ~y ~
dependencies = ['t']~[dependency-groups]~a = [{include-group = 'b'}, 'q']~b = ["t>1; os_name == 'a'"]~[tool.uv]~constraint-dependencies = ['q<3']~override-dependencies = ['t==1']|x []~y []|p 0: t==1 t==1;A q;AB q<3;AB t==1; ~x ~y ~
dependencies = ['a']~[tool.uv]~constraint-dependencies = ["a; os_name == 'a'"]|a [{"version": "1", "requires_dist": ["a"]}, {"version": "2", "requires_dist": ["a!=1", "b", "a<3"]}]~x []|p 0: a a;aA ~a 1: a a;aA 2: a!=1 a;aA b a<3 a;aA ~x ~"#;

// Rows of sources, which are read under the profile `wide` alone.
const SOURCES: &str =
    r#"dependencies = ['t']~[tool.unilock]~profile = 'wide'~[tool.uv.sources]~t = { index = 'Beta' }|t [{"version": "1"}, {"version": "2", "source": "beta"}, {"version": "3", "source": "c"}]~u [{"version": "5", "requires_dist": ["t>1", "t; os_name == 'a'", "v"]}]|p 0: t t!==1!==3 ~t 1: 2: 3: ~u 5: t>1 t!==1!==3 t;aA t!==1!==3;aA v ~
dependencies = ['t']~[tool.uv.sources]~t = { index = 'beta' }|t [{"version": "1"}]~u []|
dependencies = ['t']~[tool.unilock]~profile = 'wide'~[tool.uv.sources]~t = { index = 'beta', marker = "os_name == 'a'" }|t [{"version": "1"}, {"version": "2", "source": "beta"}]~u []|p 0: t t!==1;aA t!==2;bB ~t 1: 2: ~u ~
dependencies = ["t; os_name == 'a'"]~[tool.unilock]~profile = 'wide'~[tool.uv.sources]~t = { index = 'beta', marker = "os_name == 'a'" }|t [{"version": "1"}, {"version": "2", "source": "beta"}]~u []|p 0: t;aA t!==1;aA t!==2; ~t 1: 2: ~u ~
dependencies = ['t']~[tool.unilock]~profile = 'wide'~[tool.uv.sources]~t = [{ index = 'beta', marker = "os_name == 'a'" }, { path = '../t', marker = "os_name != 'a' and python_version < '3'" }]|t [{"version": "1"}, {"version": "2", "source": "beta"}, {"version": "3", "source": "direct"}]~u []|p 0: t t!==1!==3;aA t!==1!==2; t!==2!==3;bB ~t 1: 2: 3: ~u ~
dependencies = ['t']~[tool.unilock]~profile = 'wide'~[tool.uv.sources]~t = [{ index = 'beta', marker = "os_name == 'a'" }, { index = 'c' }]|t [{"version": "1"}, {"version": "2", "source": "beta"}, {"version": "3", "source": "C"}]~u []|p 0: t t!==1!==3;aA t!==1!==2 ~t 1: 2: 3: ~u ~
dependencies = ['t==4']~[tool.unilock]~profile = 'wide'~[tool.uv]~constraint-dependencies = ['t<9']~override-dependencies = ["t>0; os_name == 'b'"]~[tool.uv.sources]~t = { git = 'https://example.org/t' }|t [{"version": "1+local", "source": "not a name!"}, {"version": "2", "source": "direct"}]~u []|p 0: t>0;bB t!==1+local;bB t<9;bB t!==1+local;bB ~t 1+local: 2: ~u ~
dependencies = ['u', 't']~[tool.unilock]~profile = 'wide'~[tool.uv.sources]~u = { index = 'c' }~t = { index = 'beta' }~p = { workspace = true }|t [{"version": "1", "requires_dist": ["u", "p"]}]~u [{"version": "2", "requires_dist": ["u"]}, {"version": "3", "requires_dist": ["u"], "source": "c"}]|p 0: u u!==2 t t!==1 ~t 1: u u!==2 p ~u 2: u u!==2 3: u u!==2 ~
dependencies = ['v']~[tool.unilock]~profile = 'wide'~[tool.uv.sources]~v = { index = 'c' }|t []~u []|p 0: v v ~t ~u ~
dependencies = ['t[x]']~[dependency-groups]~a = ["t>0"]~[tool.unilock]~profile = 'wide'~[tool.uv.sources]~T = { index = 'c' }|t [{"version": "1"}]~u []|p 0: t+x t!==1 t>0;AB t!==1;AB ~t 1: ~u ~"#;

// The package of a name and the versions of its index document.
fn package(alloc: Global, text: &str) -> Option<Package> {
    let (name, versions) = text.split_once(' ').unwrap_or((text, ""));
    let file = format!(in alloc; "{{\"name\": \"{name}\", \"versions\": {versions}}}").ok()?;
    let name = Name::read(alloc, name).ok()?;
    document(alloc, file.as_bytes(), &name).ok()
}

fn release_count(found: &Package) -> usize
    ensures { result ≡ length found.now.releases }
{
    let releases: &Vec<Release> = &found.releases;
    releases.len()
}

fn have_one_name(one: &Package, other: &Package) -> bool
    ensures { result ≡ bytes_eq one.now.name other.now.name }
{
    let (name, theirs): (&Name, &Name) = (&one.name, &other.name);
    name.text() == theirs.text()
}

// Whether a project and two packages are a catalog.
fn fit(project: &Package, first: &Package, second: &Package) -> bool
    ensures { IsTrue result → IsCatalog (project.now ∷ first.now ∷ second.now ∷ []) }
{
    if release_count(project) != 1
        || have_one_name(project, first)
        || have_one_name(project, second)
    {
        return false;
    }
    release_count(first) < 9_000 && release_count(second) < 9_000 && !have_one_name(first, second)
}

fn are_catalog(packages: &[Package]) -> bool
    ensures { IsTrue result → IsCatalog packages.now }
{
    let [project, first, second] = packages else {
        return false;
    };
    fit(project, first, second)
}

// Pushes the packages of texts, between which a `~` stands.
fn push_packages(alloc: Global, packages: &mut Vec<Package>, texts: &str) {
    for text in texts.split('~') {
        if let Some(found) = package(alloc, text) {
            let _ = packages.push(found);
        }
    }
}

// The catalog of a project and of packages; none where these aren't three together.
fn catalog(alloc: Global, read: &Project, texts: &str) -> Option<Catalog> {
    let mut packages = Vec::new(alloc);
    packages.push(read.package.copy(alloc).ok()?).ok()?;
    push_packages(alloc, &mut packages, texts);
    if !are_catalog(packages.as_slice()) {
        return None;
    }
    Catalog::of(alloc, packages).ok()
}

fn put_package(alloc: Global, told: &mut String, found: &Package) {
    put(told, found.name.text());
    put(told, " ");
    for release in &found.releases {
        put_release(alloc, told, release);
    }
    put(told, "~");
}

fn put_release(alloc: Global, told: &mut String, release: &Release) {
    if let Ok(version) = release.version.text(alloc) {
        put(told, version.as_str());
    }
    put(told, ": ");
    put_requirements(alloc, told, release.requirements.as_slice());
}

fn adjusted_catalog(alloc: Global, read: &Project, packages: &str) -> Option<Catalog> {
    adjust(alloc, read, catalog(alloc, read, packages)?).ok()
}

// The packages of a project's adjusted catalog; nothing where there is none.
fn catalog_told(alloc: Global, read: &Project, packages: &str) -> String {
    let mut told = String::new(alloc);
    if let Some(catalog) = adjusted_catalog(alloc, read, packages) {
        for found in catalog.packages() {
            put_package(alloc, &mut told, found);
        }
        drop(catalog);
    }
    told
}

// Those of the lines of a project file.
fn adjusted(alloc: Global, lines: &str, packages: &str) -> String {
    match expanded_project(alloc, lines) {
        Some(read) => {
            let told = catalog_told(alloc, &read, packages);
            drop(read);
            told
        }
        None => String::new(alloc),
    }
}

fn is_row(alloc: Global, line: &str) -> bool {
    let (lines, rest) = cells(line, '|');
    let (packages, want) = cells(rest, '|');
    adjusted(alloc, lines, packages).as_str() == want
}

#[test]
fn requirements_are_replaced_and_followed(rt: HostRuntime) {
    for line in ROWS.split('\n') {
        assert!(rt; is_row(rt.alloc(), line), "{line}");
    }
}

#[test]
fn sources_are_constraints(rt: HostRuntime) {
    for line in SOURCES.split('\n') {
        assert!(rt; is_row(rt.alloc(), line), "{line}");
    }
}

fn names(alloc: Global, count: u64) -> String {
    let mut names = String::new(alloc);
    for number in 0..count {
        let _ = write!(names, "'n{number}', ");
    }
    names
}

// A project that requires so many names twice, and has a constraint and two overrides on each.
fn many(alloc: Global, count: u64) -> Result<String, AllocError> {
    let names = names(alloc, count);
    format!(in alloc;
        "dependencies = [{names}{names}]~[tool.uv]~constraint-dependencies = [{names}]~override-dependencies = [{names}{names}]~"
    )
}

// In how many pieces blanks cut what is told of such a project.
fn many_adjusted(alloc: Global, count: u64) -> usize {
    match many(alloc, count) {
        Ok(lines) => {
            let told = adjusted(alloc, lines.as_str(), "x []~y []");
            told.as_str().split(' ').count()
        }
        Err(_) => 0,
    }
}

// Each of the 60,000 requirements becomes two, and each of these is followed by one.
#[test]
fn many_names_are_adjusted(rt: HostRuntime) {
    assert!(rt; many_adjusted(rt.alloc(), 30_000) == 240_005);
}

// The releases of so many versions, none of which comes from a source.
fn releases(alloc: Global, count: u64) -> String {
    let mut versions = String::new(alloc);
    for number in 0..count {
        let comma = if number == 0 { "" } else { ", " };
        let _ = write!(versions, "{comma}{{\"version\": \"{number}\"}}");
    }
    versions
}

const FROM_BETA: &str =
    "dependencies = ['t', 't>0', 't>1']~[tool.unilock]~profile = 'wide'~[tool.uv.sources]~t = { index = 'beta' }";

// In how many pieces exclusions cut what is told where all of so many releases come from elsewhere.
fn many_excluded(alloc: Global, count: u64) -> usize {
    let versions = releases(alloc, count);
    match format!(in alloc; "t [{versions}]~u []") {
        Ok(packages) => {
            let told = adjusted(alloc, FROM_BETA, packages.as_str());
            told.as_str().split("!==").count()
        }
        Err(_) => 0,
    }
}

// Each of the three requirements is followed by one that excludes each of the releases.
#[test]
fn many_releases_are_excluded(rt: HostRuntime) {
    assert!(rt; many_excluded(rt.alloc(), 2_000) == 6_001);
}

// So many sources of a name under conditions that are true nowhere.
fn sources(alloc: Global, count: u64) -> String {
    let mut sources = String::new(alloc);
    for number in 0..count {
        let _ = write!(
            sources,
            "{{ index = 'i{number}', marker = \"os_name == 'x'\" }}, "
        );
    }
    sources
}

// In how many pieces exclusions cut what is told of a name with so many sources.
fn many_sources(alloc: Global, count: u64) -> usize {
    let sources = sources(alloc, count);
    match format!(in alloc;
        "dependencies = ['t']~[tool.unilock]~profile = 'wide'~[tool.uv.sources]~t = [{sources}]"
    ) {
        Ok(lines) => {
            let told = adjusted(alloc, lines.as_str(), "t [{\"version\": \"1\"}]~u []");
            told.as_str().split("!==").count()
        }
        Err(_) => 0,
    }
}

// The marker of the rest has one level for them all, however many they are.
#[test]
fn many_sources_are_constraints(rt: HostRuntime) {
    assert!(rt; many_sources(rt.alloc(), 30_000) == 30_001);
}
