//! Fork answers of small projects.
ghost use Rattle.std.specs.Prelude.{◌≡◌, ◌∷◌, [], IfSome};
ghost use Rattle.ul_requirement.specs.Truth.{base};
ghost use Rattle.ul_workers.specs.WorkerCount.{IsWorkerCount};
ghost use Rattle.ul_prepared.specs.Project.{IsProjectOf};
ghost use Rattle.ul_forks.specs.Forked as forked;

use std::alloc::{AllocError, Global};
use std::sync::Wait;
use std::thread::Threads;
use ul_algebra::{Algebra, DiagramLabel, DiagramPass};
use ul_base::owned::refused;
use ul_base::{Gate, Name};
use ul_files::SureFiles;
use ul_forks::{ForkAnswer, ForkFault, Forks, Question, fork_all, start_nodes};
use ul_index::Catalog;
use ul_interner::Interner;
use ul_load::load_project;
use ul_project::{Project, project};
use ul_requirement::{Package, Release, Wish};
use ul_workers::Round;

/// A project, and the catalog of it and of a folder.
#[derive(Drop)]
pub struct Input {
    project: Project,
    catalog: Catalog,
}

// The project of a file with these requirements, and these lines behind them.
fn project_of(alloc: Global, requirements: &str, settings: &str) -> Option<Project> {
    let file = format!(in alloc;
        "[project]\nname = 'demo'\nversion = '0.1'\ndependencies = [{requirements}]\n{settings}\n"
    );
    project(alloc, file.ok()?.as_bytes()).ok()
}

// The path and the document of a package that has these releases.
fn document(alloc: Global, name: &str, releases: &str) -> Result<(String, Vec<u8>), AllocError> {
    let path = format!(in alloc; "ix/{name}.json")?;
    let json = format!(in alloc; "{{\"name\": \"{name}\", \"versions\": [{releases}]}}")?;
    Ok((path, json.into_bytes()))
}

// Puts the documents of a line: names, between commas, and behind a blank the releases that each of them has.
fn put_documents(
    alloc: Global,
    list: &mut Vec<(String, Vec<u8>)>,
    line: &str,
) -> Result<(), AllocError> {
    let (names, releases) = line.split_once(' ').unwrap_or((line, ""));
    for name in names.split(',') {
        list.push(document(alloc, name, releases)?)?;
    }
    Ok(())
}

// A folder of the documents of such lines.
fn folder(alloc: Global, packages: &str) -> Result<SureFiles, AllocError> {
    let mut list = Vec::new(alloc);
    for line in packages.lines() {
        put_documents(alloc, &mut list, line)?;
    }
    Ok(SureFiles::of(alloc, list))
}

// The catalog of a project and of such a folder.
fn catalog_of(alloc: Global, project: &Project, packages: &str) -> Option<Catalog> {
    let mut files = folder(alloc, packages).ok()?;
    load_project(alloc, &mut files, "ix", project).ok()
}

/// The project of these requirements and settings, with the packages of these lines: names, between commas, and behind
/// a blank the releases that each of them has; none where they aren't read.
pub fn input_of(
    alloc: Global,
    requirements: &str,
    settings: &str,
    packages: &str,
) -> Option<Input> {
    let project = project_of(alloc, requirements, settings)?;
    match catalog_of(alloc, &project, packages) {
        Some(catalog) => Some(Input { project, catalog }),
        None => refused(project),
    }
}

// What a project wishes, without an old lock.
fn wish_of(alloc: Global, project: &Project) -> Wish {
    Wish {
        mode: project.mode,
        strategy: project.strategy,
        kept: Vec::new(alloc),
    }
}

// The release of a package that has one.
fn only_release(found: &Package) -> Option<&Release>
    ensures { IfSome result (λ r. found.now.releases ≡ r.now ∷ []) }
{
    let releases: &Vec<Release> = &found.releases;
    match releases.as_slice() {
        [release] => Some(release),
        _ => None,
    }
}

// The name of a catalog's first package, if that has one release, which isn't yanked.
#[tactic(auto, using(crate::proofs::Beginning::begun_with_release))]
fn project_name(catalog: &Catalog) -> Option<&Name>
    ensures name { IfSome result (λ n. n.now ≡ forked.project_name catalog.now) }
    ensures project { IfSome result (λ n. IsProjectOf catalog.now (base n.now ∷ [])) }
{
    match catalog.packages() {
        [project, ..] => match only_release(project) {
            Some(release) if !release.yanked => Some(&project.name),
            _ => None,
        },
        [] => None,
    }
}

/// The fork answer of a project without extras.
pub fn forks<'i, R: Threads + Wait + Sync, G: Gate + Sync>(
    rt: &R,
    alloc: Global,
    workers: u64,
    interner: &'i Interner<DiagramLabel>,
    pass: DiagramPass,
    input: &Input,
    gate: &G,
) -> Result<(ForkAnswer, Vec<Round>, Algebra<'i>), ForkFault>
    requires workers { IsWorkerCount workers }
    requires own { pass.table ≡ interner.now }
{
    let project: &Project = &input.project;
    let catalog: &Catalog = &input.catalog;
    let Some(name) = project_name(catalog) else {
        return Err(ForkFault::NoMemory);
    };
    let starts = start_nodes(alloc, name, &[])?;
    let wish = wish_of(alloc, project);
    let question = Question {
        catalog,
        extras: &[],
        starts: starts.as_slice(),
        wish: &wish,
    };
    let Forks {
        answer,
        rounds,
        algebra,
        ..
    } = fork_all(
        rt,
        alloc,
        workers,
        interner,
        pass,
        gate,
        &question,
        &project.region,
    )?;
    Ok((answer, rounds, algebra))
}

/// That answer alone, on an interner of its own.
pub fn forked<R: Threads + Wait + Sync, G: Gate + Sync>(
    rt: &R,
    alloc: Global,
    workers: u64,
    input: &Input,
    gate: &G,
) -> Result<ForkAnswer, ForkFault>
    requires { IsWorkerCount workers }
{
    let (interner, pass) = Interner::<DiagramLabel>::begin(alloc)?;
    let answer = forks(rt, alloc, workers, &interner, pass, input, gate)?;
    Ok(answer.0)
}
