//! The truth of single comparisons.
ghost use Rattle.std.specs.Prelude.{◌≡◌, ◌∷◌, []};
ghost use Rattle.ul_version.specs.Fields.{plain};
ghost use Rattle.ul_specifier.specs.Meaning.{meets_clause};
ghost use Rattle.ul_comparison.specs.Truth;
ghost use Rattle.ul_comparison.specs.Truth.{python_numbers};

use ul_base::is_name;
use ul_specifier::{Clause, equals_plain};
use ul_version::Version;

/// Whether `python_full_version`, or else `python_version`, of an interpreter meets a clause.
///
/// The interpreter is its major, minor and patch number; `python_full_version` has all three, and
/// `python_version` the first two (PEP 508, "Environment Markers"). It takes no memory.
pub fn meets_python(clause: &Clause, full: bool, python: (u32, u32, u32)) -> bool
    ensures { result ≡ meets_clause clause.now (plain (python_numbers full python.0 python.1 python.2)) }
{
    clause.meets_plain(release_of(full, &numbers_of(python)))
}

/// Whether `python_full_version`, or else `python_version`, of an interpreter is one of a list of versions.
///
/// The interpreter is its major, minor and patch number. It is one of the list where `==` and one of the versions
/// are met (PEP 440, "Version specifiers"). It takes no memory.
pub fn is_of_list(versions: &[Version], full: bool, python: (u32, u32, u32)) -> bool
    ensures { result ≡ Truth.is_listed versions.now (python_numbers full python.0 python.1 python.2) }
{
    is_listed(versions, release_of(full, &numbers_of(python)))
}

// An interpreter's numbers as those of a release.
fn numbers_of(python: (u32, u32, u32)) -> [u64; 3]
    ensures { result ≡ python.0 ∷ python.1 ∷ python.2 ∷ [] }
{
    [
        u64::from(python.0),
        u64::from(python.1),
        u64::from(python.2),
    ]
}

// The release that `python_full_version`, or else `python_version`, is.
fn release_of(full: bool, numbers: &[u64; 3]) -> &[u64]
    ensures { result.now ≡ Truth.numbers_in full numbers.now }
{
    if full { numbers } else { &numbers[..2] }
}

// Whether the version that has a release alone equals one of a list, as `==` compares them.
fn is_listed(versions: &[Version], release: &[u64]) -> bool
    ensures { result ≡ Truth.is_listed versions.now release.now }
{
    for version in versions {
        if equals_plain(version, release) {
            return true;
        }
    }
    false
}

/// Whether what is asked for holds: a comparison, or else its negation.
pub fn as_asked(asked: bool, holds: bool) -> bool
    ensures { result ≡ Truth.as_asked asked holds }
{
    if asked { holds } else { !holds }
}

/// Whether an extra equals a literal. A literal that is neither empty nor a name equals none.
///
/// The extra is the normal form of a name, or empty, which stands for no extra. It takes no memory.
pub fn equals_extra(literal: &str, extra: &str) -> bool
    ensures { result ≡ Truth.equals_extra literal.now extra.now }
{
    (literal.is_empty() || is_name(literal)) && literal == extra
}
