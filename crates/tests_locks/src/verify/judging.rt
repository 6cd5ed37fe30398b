//! What the judge says of a lock's text, for a project's text and documents.
use std::alloc::{AllocError, Global};
use std::sync::Wait;
use tests_rows::{cells, put};
use ul_algebra::{Algebra, DiagramLabel};
use ul_base::Name;
use ul_files::SureFiles;
use ul_index::Catalog;
use ul_interner::Interner;
use ul_load::load_project;
use ul_lock_read::read;
use ul_project::{Project, project};
use ul_verify::{VerifyFault, verify};
use ul_version::Version;

// The path and the document of a line: a package's name, and its releases.
fn document(alloc: Global, line: &str) -> Result<(String, Vec<u8>), AllocError> {
    let (name, releases) = cells(line, ' ');
    let path = format!(in alloc; "ix/{name}.json")?;
    let json = format!(in alloc; "{{\"name\": \"{name}\", \"versions\": [{releases}]}}")?;
    Ok((path, json.into_bytes()))
}

// The folder of such lines.
fn folder(alloc: Global, lines: &str) -> Result<SureFiles, AllocError> {
    let mut list = Vec::new(alloc);
    for line in lines.lines() {
        list.push(document(alloc, line)?)?;
    }
    Ok(SureFiles::of(alloc, list))
}

// The catalog of a project and of such a folder.
fn catalog_of(alloc: Global, project: &Project, lines: &str) -> Option<Catalog> {
    let mut files = folder(alloc, lines).ok()?;
    load_project(alloc, &mut files, "ix", project).ok()
}

fn put_package(alloc: Global, told: &mut String, name: &Name, version: &Version) {
    put(told, name.text());
    put(told, " ");
    if let Ok(version) = version.text(alloc) {
        put(told, version.as_str());
    }
}

fn put_fault(alloc: Global, told: &mut String, fault: &VerifyFault) {
    match fault {
        VerifyFault::Root => put(told, "root"),
        VerifyFault::Supported => put(told, "supported"),
        VerifyFault::Package(name, version) => put_package(alloc, told, name, version),
        VerifyFault::NoMemory => put(told, "no memory"),
    }
}

// What is said of a lock, for a project and a catalog.
fn put_verdict<R: Wait>(
    rt: &R,
    alloc: Global,
    told: &mut String,
    project: &Project,
    catalog: &Catalog,
    text: &str,
) -> Result<(), AllocError> {
    let (interner, pass) = Interner::<DiagramLabel>::begin(alloc)?;
    let mut algebra = Algebra::begin(alloc, &interner, pass);
    match read(alloc, text.as_bytes()) {
        Ok(lock) => match verify(rt, alloc, &mut algebra, &lock, project, catalog) {
            Ok(_) => put(told, "verified"),
            Err(fault) => put_fault(alloc, told, &fault),
        },
        Err(_) => put(told, "not a lock"),
    }
    Ok(())
}

/// What the judge says of a lock's text, for a project's text and a line for each document: `verified`, or what isn't
/// right.
pub(crate) fn verdict<R: Wait>(
    rt: &R,
    alloc: Global,
    project_text: &str,
    documents: &str,
    lock: &str,
) -> String {
    let mut told = String::new(alloc);
    if let Ok(project) = project(alloc, project_text.as_bytes()) {
        if let Some(catalog) = catalog_of(alloc, &project, documents) {
            let _ = put_verdict(rt, alloc, &mut told, &project, &catalog, lock);
        }
    }
    told
}
