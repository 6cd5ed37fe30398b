//! Problems of projects.
ghost use Rattle.std.specs.Prelude.{◌≡◌, ◌∷◌, [], IfOk, IsTrue};
ghost use Rattle.ul_requirement.specs.Truth.{base};
ghost use Rattle.tests_regions.specs.Begun.{HasOne};
ghost use Rattle.ul_prepared.specs.Project.{IsProjectOf};
ghost use Rattle.ul_region.specs.Truths.{IsRegion};

use crate::placing::told::told;
use std::alloc::{AllocError, Global};
use std::sync::Wait;
use std::test::Fail;
use ul_algebra::{Algebra, Diagram, DiagramLabel};
use ul_base::{Name, Node};
use ul_files::Files;
use ul_index::Catalog;
use ul_interner::Interner;
use ul_load::load_project;
use ul_placing::problem_of;
use ul_problem::Problem;
use ul_project::{Project, project};
use ul_region::truth_at;
use ul_requirement::{Package, Release, Requirement, Wish};
use ul_version::Version;

// Whether a package has one release, which isn't yanked.
#[tactic(auto, using(crate::proofs::Beginning::has_one))]
fn has_one(found: &Package) -> bool
    ensures { IsTrue result → HasOne found.now }
{
    let releases: &Vec<Release> = &found.releases;
    match releases.as_slice() {
        [release] => !release.yanked,
        _ => false,
    }
}

// The node of a name without an extra.
fn base_node(alloc: Global, name: &Name) -> Result<Node, AllocError>
    ensures { IfOk result (λ n. n ≡ base name.now) }
{
    let name = name.copy(alloc)?;
    Ok(Node { name, extra: None })
}

// The name of a package.
fn name_of(found: &Package) -> &Name
    ensures { result.now ≡ found.now.name }
{
    &found.name
}

// The base of a package.
fn base_nodes(alloc: Global, found: &Package) -> Result<Vec<Node>, AllocError>
    ensures { IfOk result (λ v. v.items ≡ base found.now.name ∷ []) }
{
    let mut nodes = Vec::new(alloc);
    nodes.push(base_node(alloc, name_of(found))?)?;
    Ok(nodes)
}

// The base of the first package, which is a project.
#[tactic(auto, using(crate::proofs::Beginning::begun))]
fn starts_of(alloc: Global, catalog: &Catalog) -> Result<Vec<Node>, Fail>
    ensures { IfOk result (λ v. IsProjectOf catalog.now v.items) }
{
    match catalog.packages() {
        [project, ..] => {
            if !has_one(project) {
                return Err(Fail::from("no project"));
            }
            let nodes = base_nodes(alloc, project)?;
            Ok(nodes)
        }
        [] => Err(Fail::from("no project")),
    }
}

// The requirement of a name that no package has, with this marker.
fn requirement_in(alloc: Global, marker: &str) -> Result<Requirement, Fail> {
    let text = format!(in alloc; "region; {marker}")?;
    Ok(Requirement::read(alloc, text.as_str())?)
}

// The region of a marker.
fn region_of<R: Wait>(
    rt: &R,
    alloc: Global,
    algebra: &mut Algebra<'_>,
    marker: &str,
) -> Result<Diagram, Fail>
    ensures { IfOk result (IsRegion algebra.new) }
{
    let requirement = requirement_in(alloc, marker)?;
    let node = Node {
        name: requirement.name.copy(alloc)?,
        extra: None,
    };
    let region = truth_at(rt, alloc, algebra, &node, &requirement)?;
    Ok(region)
}

fn pair_of(alloc: Global, name: &str, version: &str) -> Result<(Name, Version), Fail> {
    let version = Version::read(alloc, version).ok().ok_or(AllocError)?;
    let name = Name::read(alloc, name)?;
    Ok((name, version))
}

// The names and versions of an old lock, `NAME VERSION` between commas.
fn kept_of(alloc: Global, text: &str) -> Result<Vec<(Name, Version)>, Fail> {
    let mut kept = Vec::new(alloc);
    for part in text.split(',') {
        if let Some((name, version)) = part.split_once(' ') {
            kept.push(pair_of(alloc, name, version)?)?;
        }
    }
    Ok(kept)
}

/// What a project wishes, with an old lock.
pub fn wish_of(alloc: Global, project: &Project, kept: &str) -> Result<Wish, Fail> {
    let kept = kept_of(alloc, kept)?;
    Ok(Wish {
        mode: project.mode,
        strategy: project.strategy,
        kept,
    })
}

/// The catalog of a project and of a folder.
pub fn catalog_of<F: Files>(
    alloc: Global,
    files: &mut F,
    project: &Project,
) -> Result<Catalog, Fail> {
    match load_project(alloc, files, "ix", project) {
        Ok(catalog) => Ok(catalog),
        Err(_) => Err(Fail::from("not loaded")),
    }
}

// The problem of a region, for a catalog and what is wished.
fn problem_at<R: Wait>(
    rt: &R,
    alloc: Global,
    catalog: &Catalog,
    wish: &Wish,
    algebra: &mut Algebra<'_>,
    region: &Diagram,
) -> Result<Problem, Fail>
    requires { IsRegion algebra.old region.now }
{
    let nodes = starts_of(alloc, catalog)?;
    let starts = nodes.as_slice();
    Ok(problem_of(rt, alloc, catalog, starts, wish, algebra, region)?)
}

// The problem of the region of a marker, with a given algebra.
fn problem_over<R: Wait>(
    rt: &R,
    alloc: Global,
    catalog: &Catalog,
    wish: &Wish,
    algebra: &mut Algebra<'_>,
    marker: &str,
) -> Result<Problem, Fail> {
    let region = region_of(rt, alloc, algebra, marker)?;
    problem_at(rt, alloc, catalog, wish, algebra, &region)
}

/// The problem of the region of a marker, for a catalog and what is wished.
pub fn problem_in<R: Wait>(
    rt: &R,
    alloc: Global,
    catalog: &Catalog,
    wish: &Wish,
    marker: &str,
) -> Result<Problem, Fail> {
    let (interner, pass) = Interner::<DiagramLabel>::begin(alloc)?;
    let mut algebra = Algebra::begin(alloc, &interner, pass);
    problem_over(rt, alloc, catalog, wish, &mut algebra, marker)
}

// Whether the problem of a region is told so.
fn is_told<R: Wait>(
    rt: &R,
    alloc: Global,
    catalog: &Catalog,
    wish: &Wish,
    marker: &str,
    want: &str,
) -> Result<bool, Fail> {
    let problem = problem_in(rt, alloc, catalog, wish, marker)?;
    Ok(told(alloc, &problem)?.as_str() == want)
}

// That for a project, its catalog and an old lock.
fn is_told_of<R: Wait>(
    rt: &R,
    alloc: Global,
    project: &Project,
    catalog: &Catalog,
    kept: &str,
    marker: &str,
    want: &str,
) -> Result<bool, Fail> {
    let wish = wish_of(alloc, project, kept)?;
    is_told(rt, alloc, catalog, &wish, marker, want)
}

// That for a project, a folder and an old lock.
fn is_told_over<R: Wait, F: Files>(
    rt: &R,
    alloc: Global,
    project: &Project,
    files: &mut F,
    kept: &str,
    marker: &str,
    want: &str,
) -> Result<bool, Fail> {
    let catalog = catalog_of(alloc, files, project)?;
    is_told_of(rt, alloc, project, &catalog, kept, marker, want)
}

/// Whether the problem of a region is told so, for a project's file, a folder and an old lock.
pub fn is_told_in<R: Wait, F: Files>(
    rt: &R,
    alloc: Global,
    file: &str,
    files: &mut F,
    kept: &str,
    marker: &str,
    want: &str,
) -> Result<bool, Fail> {
    let project = project(alloc, file.as_bytes()).ok().ok_or(AllocError)?;
    is_told_over(rt, alloc, &project, files, kept, marker, want)
}
