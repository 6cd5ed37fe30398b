//! Parts of versions. Versions that rise don't fall by any part of them, so those that come before a version by a part
//! of the two, and those that equal it by that part, stand together, and their ends are found by halves.
ghost use Rattle.std.specs.Prelude.{◌≡◌};
ghost use Rattle.ul_problem.specs.Problems.{Increases, VersionBefore};
ghost use Rattle.ul_prepared.specs.Parts;
ghost use Rattle.ul_prepared.specs.Parts.{core, prefix, CountsBefore, CountsThrough};

use std::cmp::Ordering;
use ul_version::{Public, Version};

/// A part of a version.
#[derive(Clone, Copy)]
pub enum Part {
    /// All of it.
    Whole,
    /// All but its local part.
    Public,
    /// Its epoch and its release.
    Release,
    /// Its epoch, and so many numbers of its release.
    Prefix(usize),
}

// A version's epoch and release.
fn core(version: &Version) -> Public<'_>
    ensures { result ≡ core version.now }
{
    Public {
        epoch: version.epoch,
        release: version.release.as_slice(),
        pre: None,
        post: None,
        dev: None,
    }
}

// A version's epoch, and so many numbers of its release.
fn prefix(version: &Version, count: usize) -> Public<'_>
    ensures { result ≡ prefix count version.now }
{
    let release = version.release.as_slice();
    Public {
        epoch: version.epoch,
        release: &release[..count.min(release.len())],
        pre: None,
        post: None,
        dev: None,
    }
}

// A version beside another one, by a part of the two.
fn side(part: Part, version: &Version, candidate: &Version) -> Ordering
    ensures { result ≡ Parts.side part version.now candidate.now }
{
    match part {
        Part::Whole => candidate.cmp(version),
        Part::Public => Public::of(candidate).cmp(&Public::of(version)),
        Part::Release => core(candidate).cmp(&core(version)),
        Part::Prefix(count) => prefix(candidate, count).cmp(&prefix(version, count)),
    }
}

/// How many of rising versions come before a version by a part.
pub(crate) fn count_before(part: Part, version: &Version, versions: &[Version]) -> usize
    requires { Increases VersionBefore versions.now }
    ensures { CountsBefore part version.now versions.now result }
{
    versions.partition_point(|other| side(part, version, other).is_lt())
}

/// How many of rising versions don't come after a version by a part.
pub(crate) fn count_through(part: Part, version: &Version, versions: &[Version]) -> usize
    requires { Increases VersionBefore versions.now }
    ensures { CountsThrough part version.now versions.now result }
{
    versions.partition_point(|other| !side(part, version, other).is_gt())
}
