//! What a project loads, in one line.
use std::alloc::Global;
use tests_rows::{put, put_number};
use ul_files::Files;
use ul_index::{Catalog, IndexFault, Place};
use ul_load::{LoadFault, load_project};
use ul_project::{Project, project};

// Puts the packages, each with its name, how many entries its document has, and how many releases there are.
fn put_packages(told: &mut String, catalog: &Catalog) {
    for found in catalog.packages() {
        put(told, found.name.text());
        put(told, " ");
        put_number(told, found.entries);
        put(told, "/");
        put_number(told, found.releases.len() as u64);
        put(told, ", ");
    }
}

// Puts the packages, or, in short, how many there are.
fn put_catalog(told: &mut String, catalog: &Catalog, is_short: bool) {
    if is_short {
        put_number(told, catalog.packages().len() as u64);
        put(told, " packages");
    } else {
        put_packages(told, catalog);
    }
}

fn put_place(alloc: Global, told: &mut String, place: &Place) {
    if let Ok(place) = place.text(alloc) {
        put(told, ": shape ");
        put(told, place.as_str());
    }
}

fn put_document_fault(alloc: Global, told: &mut String, fault: &IndexFault) {
    match fault {
        IndexFault::NotJson => put(told, ": not JSON"),
        IndexFault::WrongName => put(told, ": name"),
        IndexFault::Shape(place) => put_place(alloc, told, place),
        IndexFault::NoMemory => put(told, ": no memory"),
    }
}

fn limit_text(fault: &LoadFault) -> &'static str {
    match fault {
        LoadFault::TooManyBytes => "total-bytes",
        LoadFault::TooManyPackages => "packages",
        LoadFault::TooManyReleases => "releases",
        LoadFault::TooManyAtoms => "comparisons",
        _ => "no memory",
    }
}

fn put_fault(alloc: Global, told: &mut String, fault: &LoadFault) {
    match fault {
        LoadFault::Read(path) => {
            put(told, "read ");
            put(told, path.as_str());
        }
        LoadFault::TooLong(path) => {
            put(told, "file-bytes ");
            put(told, path.as_str());
        }
        LoadFault::Document(path, fault) => {
            put(told, path.as_str());
            put_document_fault(alloc, told, fault);
        }
        _ => put(told, limit_text(fault)),
    }
}

// What a project loads from the folder `ix`: the packages, or, in short, how many there are; or the fault.
fn loaded<F: Files>(alloc: Global, files: &mut F, project: &Project, is_short: bool) -> String {
    let mut told = String::new(alloc);
    match load_project(alloc, files, "ix", project) {
        Ok(catalog) => {
            put_catalog(&mut told, &catalog, is_short);
            drop(catalog);
        }
        Err(fault) => put_fault(alloc, &mut told, &fault),
    }
    told
}

/// That of a project's file; nothing where it is none.
pub fn told<F: Files>(alloc: Global, files: &mut F, file: &str, is_short: bool) -> String {
    match project(alloc, file.as_bytes()) {
        Ok(project) => {
            let told = loaded(alloc, files, &project, is_short);
            drop(project);
            told
        }
        Err(_) => String::new(alloc),
    }
}
