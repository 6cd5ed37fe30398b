//! Index documents and eligible releases.

ghost use Rattle.std.specs.Prelude.{◌≡◌, ◌≤◌, All, IfOk, IfSome, IsTrue, false, length};
ghost use Rattle.std.specs.Str.{bytes_eq};
ghost use Rattle.ul_specifier.specs.Clauses.{IsClause};

use std::alloc::{AllocError, Global};
use std::fmt::Write;
use tests_rows::{cells, put, put_number};
use ul_base::Name;
use ul_index::{Catalog, IndexFault, Place, document, eligible};
use ul_requirement::{FileEntry, Package, Prereleases, Release, same_specifiers};
use ul_specifier::{Clause, Op, Specifiers};
use ul_version::Version;

// What documents of `a` are read as. A row has what is told of it; whether its text is a whole document, entries or
// the files of an entry; and the text, where `N` in a file stands for 62 digits.
const DOCUMENTS: &str = "not JSON|d|\n\
    not JSON|d|{\"name\": \"a\", \"versions\": [}\n\
    not JSON|d|{\"name\": \"a\", \"versions\": []} x\n\
    not JSON|d|{\"name\": \"a\", \"versions\": [1e999]}\n\
    shape document|d|[]\n\
    shape document|d|null\n\
    shape name|d|{}\n\
    shape name|d|{\"name\": 1, \"versions\": []}\n\
    shape versions|d|{\"name\": \"b\"}\n\
    shape versions|d|{\"name\": \"a\", \"versions\": {}}\n\
    name|d|{\"name\": \"b\", \"versions\": [1]}\n\
    name|d|{\"name\": \"a!\", \"versions\": []}\n\
    0:|d|{\"name\": \"A\", \"versions\": [], \"more\": {}}\n\
    0:|d|{\"name\": \"b\", \"name\": \"a\", \"versions\": []}\n\
    shape versions[0]|e|1\n\
    shape versions[1]|e|{\"version\": \"1\"}, null\n\
    shape versions[0].version|e|{}\n\
    shape versions[0].version|e|{\"version\": 1, \"files\": 1}\n\
    shape versions[0].requires_python|e|{\"version\": \"1\", \"requires_python\": 3, \"yanked\": 1}\n\
    shape versions[0].requires_dist|e|{\"version\": \"1\", \"requires_dist\": \"b\", \"yanked\": 1}\n\
    shape versions[0].requires_dist|e|{\"version\": \"1\", \"requires_dist\": [\"!!\", null]}\n\
    shape versions[0].yanked|e|{\"version\": \"1\", \"yanked\": 0, \"files\": 1}\n\
    shape versions[0].yanked|e|{\"version\": \"1\", \"yanked\": []}\n\
    shape versions[0].files|e|{\"version\": \"1\", \"files\": {}}\n\
    shape versions[1].files|e|{\"version\": \"x\"}, {\"version\": \"1\", \"files\": 1}, {}\n\
    1:1/0;|e|{\"version\": \"1\", \"requires_python\": null, \"requires_dist\": null, \"yanked\": null, \"files\": null}\n\
    1:1.0rc0/2;|e|{\"version\": \" V1.0.RC \", \"requires_python\": \">=3\", \"requires_dist\": [\"b\", \"c>1\"], \"yanked\": false, \"files\": []}\n\
    2:1!/0;2!/0;|e|{\"version\": \"1\", \"yanked\": true}, {\"version\": \"2\", \"yanked\": \"\"}\n\
    3:2/0;|e|{\"version\": \"x\"}, {\"version\": \"1\", \"requires_python\": \"3\"}, {\"version\": \"2\"}\n\
    2:1/0;|e|{\"version\": \"1\"}, {\"version\": \"2\", \"requires_dist\": [\"!!\"]}\n\
    2:1/0;|e|{\"version\": \"1\"}, {\"version\": \"2\", \"requires_dist\": [\"b\", \"b @ https://x\"]}\n\
    3:1.0/0;1.0+x/0;|e|{\"version\": \"1.0\"}, {\"version\": \"1\", \"yanked\": true}, {\"version\": \"1.0+x\"}\n\
    2:|e|{\"version\": \"1\", \"requires_dist\": [\"!!\"]}, {\"version\": \"1.0\"}\n\
    2:1/0@my-index;2/0@direct;|e|{\"version\": \"1\", \"source\": \"My_Index\"}, {\"source\": \"direct\", \"version\": \"2\"}\n\
    3:1/0;2/0;3/0;|e|{\"version\": \"1\", \"source\": \"https://x\"}, {\"version\": \"2\", \"source\": \"\"}, {\"version\": \"3\", \"source\": \"-x\"}\n\
    3:1/0;2/0;3/0;|e|{\"version\": \"1\", \"source\": null}, {\"version\": \"2\", \"source\": [\"x\"]}, {\"version\": \"3\", \"source\": 1}\n\
    1:1/0@b;|e|{\"version\": \"1\", \"source\": \"a\", \"source\": \"b\"}\n\
    1:1/0 B=09 b.whl=ab;|f|{\"file\": \"b.whl\", \"sha256\": \"AbN\", \"size\": 1}, {\"file\": \"B\", \"sha256\": \"09N\"}\n\
    shape versions[0].files[0]|f|1\n\
    shape versions[0].files[0]|f|{\"sha256\": \"00N\"}\n\
    shape versions[0].files[0]|f|{\"file\": \"x\"}\n\
    shape versions[0].files[0]|f|{\"file\": \"\", \"sha256\": \"00N\"}\n\
    shape versions[0].files[0]|f|{\"file\": \"a b\", \"sha256\": \"00N\"}\n\
    shape versions[0].files[0]|f|{\"file\": \"a\\\"\", \"sha256\": \"00N\"}\n\
    shape versions[0].files[0]|f|{\"file\": \"a\\\\\", \"sha256\": \"00N\"}\n\
    shape versions[0].files[0]|f|{\"file\": \"\u{e9}\", \"sha256\": \"00N\"}\n\
    1:1/0 ~!=00;|f|{\"file\": \"~!\", \"sha256\": \"00N\"}\n\
    shape versions[0].files[0]|f|{\"file\": \"x\", \"sha256\": \"0N\"}\n\
    shape versions[0].files[0]|f|{\"file\": \"x\", \"sha256\": \"000N\"}\n\
    shape versions[0].files[0]|f|{\"file\": \"x\", \"sha256\": \"0gN\"}\n\
    shape versions[0].files|f|{\"file\": \"x\", \"sha256\": \"00N\"}, {\"file\": \"x\", \"sha256\": \"11N\"}\n\
    shape versions[0].files[2]|f|{\"file\": \"x\", \"sha256\": \"00N\"}, {\"file\": \"x\", \"sha256\": \"00N\"}, 1";

// A name; what is told of it in a catalog: the number of packages and of direct requirements, `+` where there is a
// package of the name, and its eligible versions; and the versions of the document of `a`, `!` behind those that were
// withdrawn, and the requirements of the project.
const ELIGIBLE: &str = "a|2/1+2.0a1 |2.0a1|\"a\"\n\
    a|2/1+1.0 |2.0a1 1.0|\"a\"\n\
    a|2/1+1.0 2.0a1 |2.0a1 1.0|\"a>=2.0a0\"\n\
    a|2/3+1.0 2.0a1 |2.0a1 1.0|\"a\", \"A; os_name=='x'\", \"a<=3.dev0; os_name=='x'\"\n\
    a|2/1+1 |2! 1|\"a\"\n\
    a|2/1+1 2 |2! 1|\"a==2\"\n\
    a|2/2+1 |2! 1|\"a==2.*\", \"b==2\"\n\
    a|2/0+|1a1 1.0! 0.9.dev0|\n\
    a|2/0+1.9 1.9+x 1.9.post1 1.10 1!0 |1.10 1.9 1!0 1.9.post1 1.9+x|\n\
    b|2/2-|1 2|\"a\", \"b\"\n\
    demo|2/2+0 |1 2|\"a\", \"b\"\n\
    a|2/2+1 2 |1 2|\"a\", \"b\"\n\
    a|2/5+1.0 2.0a1 |2.0a1 1.0|\"b\", \"a\", \"c\", \"a>=2.0a0\", \"b\"\n\
    a|2/5+1.0 |2.0a1 1.0|\"b>=2.0a0\", \"a\", \"b==2.0a1\", \"a<3\", \"c==2.0a1\"\n\
    a|2/5+1 2 3 |2! 1 3! 4!|\"a==2\", \"b==4\", \"a==3\", \"a>=1\", \"c==4\"\n\
    b|2/3-|2! 1|\"a==2\", \"b==1\", \"a==1\"";

// A mode of pre-releases, and then a row as those of `ELIGIBLE`, of a project whose own version is 0.1.dev0.
const MODES: &str = "disallow|a|2/2+1 |1 2rc1|\"a\", \"b\"\n\
    disallow|a|2/2+|1a1|\"a\", \"b\"\n\
    disallow|a|2/1+1 |1 2rc1|\"a>=2rc1\"\n\
    disallow|demo|2/1+0.1.dev0 |1|\"a\"\n\
    allow|a|2/2+1 2rc1 |1 2rc1|\"a\", \"b\"\n\
    allow|a|2/2+1a1 |1a1|\"a\", \"b\"\n\
    allow|a|2/1+1 |1 2rc1!|\"a\"\n\
    allow|demo|2/1+0.1.dev0 |1|\"a\"\n\
    if-necessary|a|2/2+1 |1 2rc1|\"a\", \"b\"\n\
    if-necessary|a|2/2+1a1 |1a1|\"a\", \"b\"\n\
    if-necessary|a|2/1+1 |1 2rc1|\"a>=2rc1\"\n\
    if-necessary|demo|2/1+0.1.dev0 |1|\"a\"\n\
    explicit|a|2/2+1 |1 2rc1|\"a\", \"b\"\n\
    explicit|a|2/2+|1a1|\"a\", \"b\"\n\
    explicit|a|2/1+1 2rc1 |1 2rc1|\"a>=2rc1\"\n\
    explicit|a|2/2+1 |1 2rc1|\"a!=2rc1\", \"b>=2rc1\"\n\
    explicit|demo|2/1+0.1.dev0 |1|\"a\"\n\
    if-necessary-or-explicit|a|2/2+1 |1 2rc1|\"a\", \"b\"\n\
    if-necessary-or-explicit|a|2/2+1a1 |1a1|\"a\", \"b\"\n\
    if-necessary-or-explicit|a|2/1+1 2rc1 |1 2rc1|\"a>=2rc1\"\n\
    if-necessary-or-explicit|b|2/2-|1 2rc1|\"a\", \"b\"";

// The versions of a document that exclusions leave, the versions that they exclude, and those of the document. A local
// part counts on both sides.
const EXCLUDED: &str = "1.0+x 1.0.post1 2 |1|1.0 1.0+x 1.0.post1 2\n\
    1.0 1.0.post1 2 |1.0+X|1.0 1.0+x 1.0.post1 2\n\
    1.0+y |1.0+x 2 1.0|1.0 1.0+x 1.0+y 2.0\n\
    1.0 1.0+x |1a1 1.0+x.1 1!1.0 1.0.post1|1.0 1.0+x\n\
    |1 2|1 2.0.0";

// Puts the name of a file, and the first two digits of its sum.
fn put_file(told: &mut String, entry: &FileEntry) {
    put(told, " ");
    put(told, entry.file.as_str());
    put(told, "=");
    put(told, &entry.sha256.as_str()[..2]);
}

fn put_version(alloc: Global, told: &mut String, version: &Version) {
    if let Ok(text) = version.text(alloc) {
        put(told, text.as_str());
    }
}

// Puts where a release comes from, if it says that.
fn put_source(told: &mut String, source: &Option<Name>) {
    if let Some(source) = source {
        put(told, "@");
        put(told, source.text());
    }
}

// Puts a release in short: its version, `!` where it was withdrawn, how many requirements it has, its source and its
// files.
fn put_release(alloc: Global, told: &mut String, release: &Release) {
    put_version(alloc, told, &release.version);
    put(told, if release.yanked { "!/" } else { "/" });
    put_number(told, release.requirements.as_slice().len() as u64);
    put_source(told, &release.source);
    for entry in &release.files {
        put_file(told, entry);
    }
    put(told, ";");
}

// Puts a package in short: the number of entries, and the releases.
fn put_package(alloc: Global, told: &mut String, found: &Package) {
    put_number(told, found.entries);
    put(told, ":");
    for release in &found.releases {
        put_release(alloc, told, release);
    }
}

fn put_place(alloc: Global, told: &mut String, place: &Place) {
    if let Ok(text) = place.text(alloc) {
        put(told, "shape ");
        put(told, text.as_str());
    }
}

fn put_fault(alloc: Global, told: &mut String, fault: &IndexFault) {
    match fault {
        IndexFault::NotJson => put(told, "not JSON"),
        IndexFault::WrongName => put(told, "name"),
        IndexFault::Shape(place) => put_place(alloc, told, place),
        IndexFault::NoMemory => put(told, "no memory"),
    }
}

// What a document of a name is read as: the number of entries and the releases, or the fault.
fn told(alloc: Global, bytes: &[u8], name: &Name) -> String {
    let mut told = String::new(alloc);
    match document(alloc, bytes, name) {
        Ok(found) => {
            put_package(alloc, &mut told, &found);
            drop(found);
        }
        Err(fault) => put_fault(alloc, &mut told, &fault),
    }
    told
}

fn is_told(alloc: Global, bytes: &[u8], want: &str) -> bool {
    match Name::read(alloc, "a") {
        Ok(name) => told(alloc, bytes, &name).as_str() == want,
        Err(_) => false,
    }
}

const DIGITS: &str = "00000000000000000000000000000000000000000000000000000000000000";

// What stands before and behind a text of a kind.
fn around(kind: &str) -> (&'static str, &'static str) {
    match kind {
        "e" => ("{\"name\": \"a\", \"versions\": [", "]}"),
        "f" => (
            "{\"name\": \"a\", \"versions\": [{\"version\": \"1\", \"files\": [",
            "]}]}",
        ),
        _ => ("", ""),
    }
}

// The document of a text of a kind.
fn document_text(alloc: Global, kind: &str, text: &str) -> Result<String, AllocError> {
    let (front, back) = around(kind);
    let short = format!(in alloc; "{front}{text}{back}")?;
    short.replace(alloc, "N", DIGITS)
}

fn is_row(alloc: Global, line: &str) -> bool {
    let (want, rest) = cells(line, '|');
    let (kind, text) = cells(rest, '|');
    match document_text(alloc, kind, text) {
        Ok(text) => is_told(alloc, text.as_bytes(), want),
        Err(_) => false,
    }
}

// The last case's bytes are no text.
#[test]
fn documents(rt: HostRuntime) {
    for line in DOCUMENTS.lines() {
        assert!(rt; is_row(rt.alloc(), line), "{line}");
    }
    assert!(rt; is_told(rt.alloc(), b"\"\xff\"", "not JSON"));
}

// Puts the entry of a version, with `!` behind it where it was withdrawn.
fn put_entry(json: &mut String, text: &str) {
    put(json, if json.ends_with("[") { "" } else { ", " });
    put(json, "{\"version\": \"");
    put(json, text.strip_suffix("!").unwrap_or(text));
    put(json, "\", \"yanked\": ");
    put(
        json,
        if text.ends_with("!") {
            "true}"
        } else {
            "false}"
        },
    );
}

// What a document of a name is read as.
fn package(alloc: Global, name: &str, text: &str) -> Option<Package> {
    let name = Name::read(alloc, name).ok()?;
    document(alloc, text.as_bytes(), &name).ok()
}

// A document's releases of these versions.
fn releases(alloc: Global, versions: &str) -> Option<Package> {
    let mut json = String::new(alloc);
    put(&mut json, "{\"name\": \"a\", \"versions\": [");
    for text in versions.split(' ') {
        put_entry(&mut json, text);
    }
    put(&mut json, "]}");
    package(alloc, "a", json.as_str())
}

// The project's document of a version with these direct requirements.
fn project(alloc: Global, version: &str, directs: &str) -> Option<Package> {
    let text = format!(in alloc;
        "{{\"name\": \"demo\", \"versions\": [{{\"version\": \"{version}\", \"requires_dist\": [{directs}]}}]}}"
    );
    package(alloc, "demo", text.ok()?.as_str())
}

fn release_count(found: &Package) -> usize
    ensures { result ≡ length found.now.releases }
{
    let releases: &Vec<Release> = &found.releases;
    releases.len()
}

fn have_one_name(one: &Package, other: &Package) -> bool
    ensures { result ≡ bytes_eq one.now.name other.now.name }
{
    let name: &Name = &one.name;
    let theirs: &Name = &other.name;
    name.text() == theirs.text()
}

// Whether a project of one release and a package of few have two names.
fn are_apart(project: &Package, found: &Package) -> bool
    ensures apart { IsTrue result → bytes_eq project.now.name found.now.name ≡ false }
    ensures one { IsTrue result → length project.now.releases ≡ 1 }
    ensures few { IsTrue result → length found.now.releases ≤ 1000000 }
{
    if have_one_name(project, found) {
        return false;
    }
    if release_count(project) != 1 {
        return false;
    }
    release_count(found) <= 1_000_000
}

// The catalog of a project and a package; none where they make none.
fn catalog(alloc: Global, project: Package, found: Package) -> Result<Catalog, AllocError> {
    if are_apart(&project, &found) {
        let packages = vec![in alloc; project, found]?;
        return Catalog::of(alloc, packages);
    }
    Err(AllocError)
}

// The catalog of a project of a version with these direct requirements, and of these versions of `a`.
fn catalog_of(alloc: Global, own: &str, directs: &str, versions: &str) -> Option<Catalog> {
    let project = project(alloc, own, directs)?;
    let found = releases(alloc, versions)?;
    catalog(alloc, project, found).ok()
}

// Puts the versions at places of releases, with a space behind each.
fn put_places(alloc: Global, told: &mut String, releases: &[Release], places: &[u32]) {
    for place in places {
        match releases.get(*place as usize) {
            Some(release) => put_version(alloc, told, &release.version),
            None => put(told, "no place"),
        }
        put(told, " ");
    }
}

fn put_eligible(alloc: Global, told: &mut String, catalog: &Catalog, name: &Name) {
    if let Ok(places) = eligible(alloc, catalog, name) {
        put_places(alloc, told, catalog.releases_of(name), places.as_slice());
    }
}

// What is told of a catalog and a name.
fn catalog_told(alloc: Global, catalog: &Catalog, name: &Name) -> String {
    let mut told = String::new(alloc);
    put_number(&mut told, catalog.packages().len() as u64);
    put(&mut told, "/");
    put_number(&mut told, catalog.directs().len() as u64);
    put(
        &mut told,
        if catalog.find(name).is_some() {
            "+"
        } else {
            "-"
        },
    );
    put_eligible(alloc, &mut told, catalog, name);
    told
}

fn is_told_of(alloc: Global, catalog: &Catalog, name: &str, want: &str) -> bool {
    match Name::read(alloc, name) {
        Ok(name) => catalog_told(alloc, catalog, &name).as_str() == want,
        Err(_) => false,
    }
}

// Whether there is a catalog, and this is told of it and a name.
fn is_made(alloc: Global, catalog: Option<Catalog>, name: &str, want: &str) -> bool {
    match catalog {
        Some(catalog) => {
            let told = is_told_of(alloc, &catalog, name, want);
            drop(catalog);
            told
        }
        None => false,
    }
}

fn is_catalog_row(alloc: Global, line: &str) -> bool {
    let (name, rest) = cells(line, '|');
    let (want, rest) = cells(rest, '|');
    let (versions, directs) = cells(rest, '|');
    is_made(alloc, catalog_of(alloc, "0", directs, versions), name, want)
}

fn mode(word: &str) -> Prereleases {
    match word {
        "disallow" => Prereleases::Disallow,
        "allow" => Prereleases::Allow,
        "if-necessary" => Prereleases::IfNecessary,
        "explicit" => Prereleases::Explicit,
        _ => Prereleases::IfNecessaryOrExplicit,
    }
}

// The catalog of a project of version 0.1.dev0 in a mode.
fn catalog_in(alloc: Global, mode: Prereleases, directs: &str, versions: &str) -> Option<Catalog> {
    let catalog = catalog_of(alloc, "0.1.dev0", directs, versions)?;
    Some(catalog.with_prereleases(mode))
}

fn is_mode_row(alloc: Global, line: &str) -> bool {
    let (word, rest) = cells(line, '|');
    let (name, rest) = cells(rest, '|');
    let (want, rest) = cells(rest, '|');
    let (versions, directs) = cells(rest, '|');
    let catalog = catalog_in(alloc, mode(word), directs, versions);
    is_made(alloc, catalog, name, want)
}

// Puts the numbers from 1 up that 7 divides, or the others, with a space before each.
fn put_versions(line: &mut String, count: u64, are_divided: bool) {
    for number in 1..count {
        if (number % 7 == 0) == are_divided {
            put(line, " ");
            put_number(line, number);
        }
    }
}

// A line of so many versions of `a` in another order: those that 7 divides are behind the others.
fn many_versions(alloc: Global, count: u64) -> String {
    let mut line = String::new(alloc);
    put(&mut line, "a|2/1+");
    for number in 0..count {
        put_number(&mut line, number);
        put(&mut line, " ");
    }
    put(&mut line, "|0");
    put_versions(&mut line, count, false);
    put_versions(&mut line, count, true);
    put(&mut line, "|\"a\"");
    line
}

// Whether so many versions in another order are eligible in their own.
fn are_in_order(alloc: Global, count: u64) -> bool {
    let line = many_versions(alloc, count);
    is_catalog_row(alloc, line.as_str())
}

// Puts so many requirements on other names, with a comma behind each.
fn put_others(line: &mut String, count: u64) {
    for number in 0..count {
        let _ = write!(line, "\"p{number}\", ");
    }
}

// Whether two requirements on `a` count that stand among 20,000 on other names.
fn are_found_among_others(alloc: Global) -> bool {
    let mut line = String::new(alloc);
    put(&mut line, "a|2/20002+1 2 3a1 |3a1 2! 1|");
    put_others(&mut line, 10_000);
    put(&mut line, "\"a==2\", ");
    put_others(&mut line, 10_000);
    put(&mut line, "\"a<=3a1\"");
    is_catalog_row(alloc, line.as_str())
}

#[test]
fn eligible_releases(rt: HostRuntime) {
    for line in ELIGIBLE.lines() {
        assert!(rt; is_catalog_row(rt.alloc(), line), "{line}");
    }
    assert!(rt; are_in_order(rt.alloc(), 10_000));
    assert!(rt; are_found_among_others(rt.alloc()));
}

#[test]
fn modes_of_pre_releases(rt: HostRuntime) {
    for line in MODES.lines() {
        assert!(rt; is_mode_row(rt.alloc(), line), "{line}");
    }
}

// The clause that a version alone doesn't meet.
fn exclusion(alloc: Global, text: &str) -> Option<Clause>
    ensures { IfSome result IsClause }
{
    let version = Version::read(alloc, text).ok()?;
    Some(Clause {
        op: Op::Distinct,
        version,
        prefix: false,
    })
}

// Clauses, and one more.
fn with_clause(clauses: Vec<Clause>, clause: Clause) -> Result<Vec<Clause>, AllocError>
    requires clauses { All IsClause clauses.items }
    requires clause { IsClause clause }
    ensures { IfOk result (λ v. All IsClause v.items) }
{
    let mut clauses = clauses;
    clauses.push(clause)?;
    Ok(clauses)
}

// The exclusions of versions, with a space between each two.
fn exclusions(alloc: Global, texts: &str) -> Option<Specifiers> {
    let mut clauses = Vec::new(alloc);
    for text in texts.split(' ') {
        let clause = exclusion(alloc, text)?;
        let Ok(more) = with_clause(clauses, clause) else {
            return None;
        };
        clauses = more;
    }
    Some(Specifiers { clauses })
}

// Puts the versions of the releases that meet a list, with a space behind each.
fn put_met(alloc: Global, told: &mut String, list: &Specifiers, releases: &[Release]) {
    for release in releases {
        if list.meets(&release.version) {
            put_version(alloc, told, &release.version);
            put(told, " ");
        }
    }
}

// The versions of a document that exclusions leave.
fn left(alloc: Global, excluded: &str, versions: &str) -> Option<String> {
    let list = exclusions(alloc, excluded)?;
    let found = releases(alloc, versions)?;
    let mut told = String::new(alloc);
    put_met(alloc, &mut told, &list, found.releases());
    drop(found);
    drop(list);
    Some(told)
}

fn is_left(alloc: Global, excluded: &str, versions: &str, want: &str) -> bool {
    match left(alloc, excluded, versions) {
        Some(told) => told.as_str() == want,
        None => false,
    }
}

fn is_excluded_row(alloc: Global, line: &str) -> bool {
    let (want, rest) = cells(line, '|');
    let (excluded, versions) = cells(rest, '|');
    is_left(alloc, excluded, versions, want)
}

// Whether the exclusions of two texts are the same list.
fn are_same(alloc: Global, one: &str, other: &str) -> Option<bool> {
    let some = exclusions(alloc, one)?;
    let others = exclusions(alloc, other)?;
    let same = same_specifiers(&some, &others);
    drop(some);
    drop(others);
    Some(same)
}

#[test]
fn exclusions_leave_all_releases_but_one(rt: HostRuntime) {
    let alloc = rt.alloc();
    for line in EXCLUDED.lines() {
        assert!(rt; is_excluded_row(alloc, line), "{line}");
    }
    assert!(rt; are_same(alloc, "1.0+x 2", "1.0+X 2") == Some(true));
    assert!(rt; are_same(alloc, "1.0+x 2", "1.0 2") == Some(false));
}

// Which entries have the same requirements: all, every other one, or none.
#[derive(Clone, Copy, Drop)]
enum Repeated {
    Always,
    EveryOther,
    Never,
}

// The number in the requirements of an entry.
fn bound(repeated: Repeated, number: u64) -> u64 {
    match repeated {
        Repeated::Always => 0,
        Repeated::EveryOther => number % 2,
        Repeated::Never => number,
    }
}

// Puts an entry of a number, with twenty requirements, which have a bound.
fn put_large_entry(text: &mut String, number: u64, bound: u64) {
    put(
        text,
        if number > 0 {
            ",{\"version\":\""
        } else {
            "{\"version\":\""
        },
    );
    put_number(text, number);
    put(
        text,
        "\",\"requires_python\":\">=3.9\",\"requires_dist\":[\"b\"",
    );
    for more in 1..20 {
        let _ = write!(text, ",\"package-{more}>={bound}\"");
    }
    put(text, "],\"yanked\":false}");
}

// A document of `a` with so many such entries.
fn large_document(alloc: Global, count: u64, repeated: Repeated) -> String {
    let mut text = String::new(alloc);
    put(&mut text, "{\"name\": \"a\", \"versions\": [");
    for number in 0..count {
        put_large_entry(&mut text, number, bound(repeated, number));
    }
    put(&mut text, "]}");
    text
}

// Whether a package has so many entries and releases, and each of these twenty requirements.
fn is_whole(found: &Package, count: u64) -> bool {
    for release in &found.releases {
        if release.requirements.as_slice().len() != 20 {
            return false;
        }
    }
    found.entries == count && found.releases.len() as u64 == count
}

fn is_read_whole(alloc: Global, count: u64, repeated: Repeated) -> bool {
    let text = large_document(alloc, count, repeated);
    match package(alloc, "a", text.as_str()) {
        Some(found) => {
            let whole = is_whole(&found, count);
            drop(found);
            whole
        }
        None => false,
    }
}

#[test]
fn large_documents(rt: HostRuntime) {
    assert!(rt; is_read_whole(rt.alloc(), 10_000, Repeated::Never));
}

#[test]
fn large_documents_of_equal_lists(rt: HostRuntime) {
    assert!(rt; is_read_whole(rt.alloc(), 3_000, Repeated::Always));
    assert!(rt; is_read_whole(rt.alloc(), 3_000, Repeated::EveryOther));
}
