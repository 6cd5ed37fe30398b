//! Markers as diagrams: one truth has one identity, and what is made simpler in a region.
use crate::algebra::texts::diagram_of;
use std::alloc::Global;
use std::sync::Wait;
use std::test::Fail;
use ul_algebra::{Algebra, DiagramLabel};
use ul_interner::Interner;

// Two texts of markers that have one truth.
const ONE_TRUTH: [(&str, &str); 8] = [
    ("python_version > '3.7'", "python_full_version >= '3.8'"),
    (
        "sys_platform == 'a' or sys_platform != 'a'",
        "python_version >= '0'",
    ),
    (
        "sys_platform == 'a' and sys_platform == 'b'",
        "python_version < '0'",
    ),
    (
        "python_version in '3.9, 3.10'",
        "python_full_version >= '3.9.0' and python_full_version < '3.11.0'",
    ),
    (
        "extra == 'A_b' or extra == 'c'",
        "extra == 'c' or (extra == 'a-b' and extra != 'd')",
    ),
    (
        "os_name == 'nt' or (os_name != 'nt' and 'x' in os_name)",
        "'x' in os_name or os_name == 'nt'",
    ),
    (
        "python_version >= '3.8' and (os_name == 'a' or os_name == 'b')",
        "(os_name == 'b' or os_name == 'a') and python_full_version >= '3.8'",
    ),
    (
        "platform_machine == 'x' and 'y' not in os_name",
        "'y' not in os_name and platform_machine == 'x'",
    ),
];

// A marker, a region, and what the marker becomes there.
const SIMPLER: [(&str, &str, &str); 8] = [
    (
        "python_full_version >= '3.9.0' and python_full_version < '3.10.0'",
        "python_full_version >= '3.9.0'",
        "python_full_version < '3.10.0'",
    ),
    (
        "python_version >= '3.8'",
        "python_version >= '3.9'",
        "python_version >= '0'",
    ),
    (
        "python_version >= '3.9' and os_name == 'nt'",
        "python_version >= '3.9' and 'x' in os_name",
        "os_name == 'nt'",
    ),
    (
        "sys_platform == 'win32'",
        "os_name == 'nt' and sys_platform == 'win32' or os_name == 'x'",
        "sys_platform == 'win32'",
    ),
    (
        "python_version == '3.9'",
        "python_version != '3.9'",
        "python_version < '0'",
    ),
    (
        "os_name == 'java' or os_name == 'nt'",
        "os_name == 'java'",
        "python_version >= '0'",
    ),
    (
        "extra == 'test' and 'x' in os_name",
        "'x' in os_name",
        "extra == 'test'",
    ),
    (
        "'x' in os_name and 'y' in os_name",
        "extra == 'test' and 'x' in os_name",
        "'y' in os_name",
    ),
];

// Whether two texts of markers are one diagram.
fn is_one<R: Wait>(
    algebra: &mut Algebra<'_>,
    rt: &R,
    alloc: Global,
    first: &str,
    second: &str,
) -> Result<bool, Fail> {
    let one = diagram_of(algebra, rt, alloc, first)?;
    let other = diagram_of(algebra, rt, alloc, second)?;
    Ok(algebra.same(&one, &other) && one.id() == other.id())
}

// Whether a marker becomes another in a region.
fn becomes<R: Wait>(
    algebra: &mut Algebra<'_>,
    rt: &R,
    alloc: Global,
    marker: &str,
    region: &str,
    want: &str,
) -> Result<bool, Fail> {
    let want = diagram_of(algebra, rt, alloc, want)?;
    let marker = diagram_of(algebra, rt, alloc, marker)?;
    let region = diagram_of(algebra, rt, alloc, region)?;
    if algebra.is_false(&region) {
        return Ok(false);
    }
    let simpler = algebra.simplify(rt, alloc, &marker, &region)?;
    Ok(simpler.id() == want.id())
}

// The first row of the tables that isn't met.
fn wrong_row<R: Wait>(
    algebra: &mut Algebra<'_>,
    rt: &R,
    alloc: Global,
) -> Result<Option<&'static str>, Fail> {
    for (first, second) in ONE_TRUTH {
        if !is_one(algebra, rt, alloc, first, second)? {
            return Ok(Some(first));
        }
    }
    for (marker, region, want) in SIMPLER {
        if !becomes(algebra, rt, alloc, marker, region, want)? {
            return Ok(Some(marker));
        }
    }
    Ok(None)
}

#[test]
fn one_truth_is_one_diagram_and_regions_simplify(rt: HostRuntime) -> Result<(), Fail> {
    let alloc = rt.alloc();
    let (interner, pass) = Interner::<DiagramLabel>::begin(alloc)?;
    let mut algebra = Algebra::begin(alloc, &interner, pass);
    assert_eq!(rt; wrong_row(&mut algebra, &rt, alloc)?, None);
    Ok(())
}
