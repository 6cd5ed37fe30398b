//! Locks of a package with many extras, for all of which one requirement asks, or for each one.
use crate::verify::judging::verdict;
use std::alloc::{AllocError, Global};
use std::fmt::Write;
use std::sync::Wait;

const FIRST: u64 = 1001;

const LAST: u64 = 1400;

// How many requirements ask for the extras.
#[derive(Clone, Copy)]
enum Asked {
    Together,
    Apart,
}

// Puts one requirement for all extras up to the last.
fn put_together(text: &mut String, last: u64) -> Result<(), AllocError> {
    text.push_str("'q[x1000")?;
    for number in FIRST..=last {
        write!(text, ",x{number}")?;
    }
    text.push_str("]'")
}

// Puts a requirement for each extra up to the last.
fn put_apart(text: &mut String, last: u64) -> Result<(), AllocError> {
    text.push_str("'q[x1000]'")?;
    for number in FIRST..=last {
        write!(text, ", 'q[x{number}]'")?;
    }
    Ok(())
}

// The project's text.
fn project(alloc: Global, asked: Asked, last: u64) -> Result<String, AllocError> {
    let mut text = String::from_str(
        alloc,
        "[project]\nname = 'demo'\nversion = '1'\ndependencies = [",
    )?;
    match asked {
        Asked::Together => put_together(&mut text, last)?,
        Asked::Apart => put_apart(&mut text, last)?,
    }
    text.push_str("]\n")?;
    Ok(text)
}

fn put_edges(text: &mut String, left_out: u64) -> Result<(), AllocError> {
    for number in FIRST..=LAST {
        if number != left_out {
            write!(
                text,
                "    {{ name = \"q\", version = \"1\", extra = \"x{number}\" }},\n"
            )?;
        }
    }
    Ok(())
}

fn put_extras(text: &mut String) -> Result<(), AllocError> {
    for number in FIRST..=LAST {
        write!(text, "x{number} = []\n")?;
    }
    Ok(())
}

// The lock, without an edge to one of the extras.
fn lock(alloc: Global, left_out: u64) -> Result<String, AllocError> {
    let mut text = String::from_str(
        alloc,
        "version = 2\nroot = \"demo\"\n\n[[package]]\nname = \"demo\"\nversion = \"1\"\ndependencies = [\n",
    )?;
    text.push_str("    { name = \"q\", version = \"1\" },\n")?;
    text.push_str("    { name = \"q\", version = \"1\", extra = \"x1000\" },\n")?;
    put_edges(&mut text, left_out)?;
    text.push_str(
        "]\n\n[[package]]\nname = \"q\"\nversion = \"1\"\n\n[package.optional-dependencies]\nx1000 = []\n",
    )?;
    put_extras(&mut text)?;
    Ok(text)
}

// What is said where the project asks for extras up to the last, and an edge is left out.
fn said<R: Wait>(
    rt: &R,
    alloc: Global,
    asked: Asked,
    last: u64,
    left_out: u64,
) -> Result<String, AllocError> {
    let project = project(alloc, asked, last)?;
    let lock = lock(alloc, left_out)?;
    let said = verdict(
        rt,
        alloc,
        project.as_str(),
        "q {\"version\": \"1\"}",
        lock.as_str(),
    );
    Ok(said)
}

fn is_said<R: Wait>(
    rt: &R,
    alloc: Global,
    asked: Asked,
    last: u64,
    left_out: u64,
    want: &str,
) -> bool {
    match said(rt, alloc, asked, last, left_out) {
        Ok(told) => told.as_str() == want,
        Err(_) => false,
    }
}

#[test]
fn four_hundred_extras_of_one_requirement(rt: HostRuntime) {
    assert!(rt; is_said(&rt, rt.alloc(), Asked::Together, LAST, 0, "verified"));
    assert!(rt; is_said(&rt, rt.alloc(), Asked::Together, LAST, LAST, "demo 1"));
    assert!(rt; is_said(&rt, rt.alloc(), Asked::Together, 1399, 0, "demo 1"));
}

#[test]
fn four_hundred_requirements_of_one_name(rt: HostRuntime) {
    assert!(rt; is_said(&rt, rt.alloc(), Asked::Apart, LAST, 0, "verified"));
    assert!(rt; is_said(&rt, rt.alloc(), Asked::Apart, LAST, FIRST, "demo 1"));
    assert!(rt; is_said(&rt, rt.alloc(), Asked::Apart, 1399, 0, "demo 1"));
}
