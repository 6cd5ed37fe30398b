//! Locks of many packages, and of a node with many edges.
use crate::verify::judging::verdict;
use std::alloc::{AllocError, Global};
use std::fmt::Write;
use std::sync::Wait;

const FIRST: u64 = 1001;

// How the packages hang together: each asks for the next one, or the project asks for each.
#[derive(Clone, Copy)]
enum Form {
    Chain,
    Star,
}

// Packages up to the last one, which hang together so.
#[derive(Clone, Copy)]
struct Shape {
    form: Form,
    last: u64,
}

// The last package that the project asks for.
fn last_asked(shape: Shape) -> u64 {
    match shape.form {
        Form::Chain => FIRST,
        Form::Star => shape.last,
    }
}

// Whether a package asks for the next one.
fn goes_on(shape: Shape, number: u64) -> bool {
    matches!(shape.form, Form::Chain) && number < shape.last
}

// The project's text.
fn project(alloc: Global, shape: Shape) -> Result<String, AllocError> {
    let mut text = String::from_str(
        alloc,
        "[project]\nname = 'demo'\nversion = '1'\ndependencies = [",
    )?;
    for number in FIRST..=last_asked(shape) {
        write!(text, "'p{number}',")?;
    }
    text.push_str("]\n")?;
    Ok(text)
}

// A line for each document; the last package is at this version.
fn documents(alloc: Global, shape: Shape, last: &str) -> Result<String, AllocError> {
    let mut text = String::new(alloc);
    for number in FIRST..=shape.last {
        let version = if number == shape.last { last } else { "1" };
        write!(text, "p{number} {{\"version\": \"{version}\"")?;
        if goes_on(shape, number) {
            let next = number.wrapping_add(1);
            write!(text, ", \"requires_dist\": [\"p{next}\"]")?;
        }
        text.push_str("}\n")?;
    }
    Ok(text)
}

fn put_edge(text: &mut String, number: u64) -> Result<(), AllocError> {
    write!(text, "    {{ name = \"p{number}\", version = \"1\" }},\n")
}

// Puts the project's package, without an edge to one of the packages.
fn put_project(text: &mut String, shape: Shape, left_out: u64) -> Result<(), AllocError> {
    text.push_str("\n[[package]]\nname = \"demo\"\nversion = \"1\"\ndependencies = [\n")?;
    for number in FIRST..=last_asked(shape) {
        if number != left_out {
            put_edge(text, number)?;
        }
    }
    text.push_str("]\n")
}

// Puts a package.
fn put_package(
    text: &mut String,
    shape: Shape,
    number: u64,
    left_out: u64,
) -> Result<(), AllocError> {
    let next = number.wrapping_add(1);
    write!(
        text,
        "\n[[package]]\nname = \"p{number}\"\nversion = \"1\"\n"
    )?;
    if goes_on(shape, number) && next != left_out {
        text.push_str("dependencies = [\n")?;
        put_edge(text, next)?;
        text.push_str("]\n")?;
    }
    Ok(())
}

// The lock, without an edge to one of the packages.
fn lock(alloc: Global, shape: Shape, left_out: u64) -> Result<String, AllocError> {
    let mut text = String::from_str(alloc, "version = 2\nroot = \"demo\"\n")?;
    put_project(&mut text, shape, left_out)?;
    for number in FIRST..=shape.last {
        put_package(&mut text, shape, number, left_out)?;
    }
    Ok(text)
}

// What is said where the last package is at a version, and an edge is left out.
fn said<R: Wait>(
    rt: &R,
    alloc: Global,
    shape: Shape,
    last: &str,
    left_out: u64,
) -> Result<String, AllocError> {
    let project = project(alloc, shape)?;
    let documents = documents(alloc, shape, last)?;
    let lock = lock(alloc, shape, left_out)?;
    let said = verdict(
        rt,
        alloc,
        project.as_str(),
        documents.as_str(),
        lock.as_str(),
    );
    Ok(said)
}

fn is_said<R: Wait>(
    rt: &R,
    alloc: Global,
    shape: Shape,
    last: &str,
    left_out: u64,
    want: &str,
) -> bool {
    match said(rt, alloc, shape, last, left_out) {
        Ok(told) => told.as_str() == want,
        Err(_) => false,
    }
}

#[test]
fn three_hundred_packages(rt: HostRuntime) {
    let shape = Shape {
        form: Form::Chain,
        last: 1300,
    };
    assert!(rt; is_said(&rt, rt.alloc(), shape, "1", 0, "verified"));
    assert!(rt; is_said(&rt, rt.alloc(), shape, "2", 0, "p1300 1"));
    assert!(rt; is_said(&rt, rt.alloc(), shape, "1", 1251, "p1250 1"));
}

#[test]
fn two_thousand_edges_of_one_node(rt: HostRuntime) {
    let shape = Shape {
        form: Form::Star,
        last: 3000,
    };
    assert!(rt; is_said(&rt, rt.alloc(), shape, "1", 0, "verified"));
    assert!(rt; is_said(&rt, rt.alloc(), shape, "1", 3000, "demo 1"));
}
