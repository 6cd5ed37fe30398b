//! Releases and packages.
ghost use Rattle.std.specs.Prelude.{◌≡◌};
ghost use Rattle.ul_requirement.specs.Fields.{VersionsDiffer};

use crate::{Prereleases, Requirement};
use std::marker::Model;
use ul_base::Name;
use ul_ranges::SharedList;
use ul_specifier::Specifiers;
use ul_version::Version;

/// A file of a release, with the sum of its bytes.
///
/// Contracts see it as the record `FileFields`.
#[derive(Drop)]
pub struct FileEntry {
    /// One or more printable bytes of ASCII without space, `"` and `\\`.
    pub file: String,
    /// 64 hexadecimal digits in lower case.
    pub sha256: String,
}

impl Model for FileEntry {
    ghost use Rattle.std.specs.Prelude.{string_bytes};
    ghost use Rattle.ul_requirement.specs.Fields.{FileFields, IsFile};

    ghost Value = { FileFields };

    ghost view = { λ f. record { file = string_bytes f.file; sha256 = string_bytes f.sha256 } };

    ghost invariant = { λ f. IsFile (record { file = string_bytes f.file; sha256 = string_bytes f.sha256 }) };
}

/// A usable release of a package.
///
/// The files are in byte order of their names, each once. Contracts see a release as the record
/// `ReleaseFields`.
#[derive(Drop)]
pub struct Release {
    pub version: Version,
    /// The interpreters that it asks for; none where it asks for nothing.
    pub python: Specifiers,
    /// Releases of a package mostly ask for the same; those share one list.
    pub requirements: SharedList<Requirement>,
    /// Whether it was withdrawn (PEP 592).
    pub yanked: bool,
    pub files: Vec<FileEntry>,
    /// Where it comes from: the name of a package index that isn't the usual one, or `direct` for a path, a URL, a
    /// repository or a member of a workspace; none where nothing is said.
    pub source: Option<Name>,
}

impl Model for Release {
    ghost use Rattle.std.specs.Coded.{codes};
    ghost use Rattle.ul_comparison.specs.Codes.{formula_code};
    ghost use Rattle.ul_requirement.specs.Fields.{ReleaseFields, IsRelease};

    ghost Value = { ReleaseFields };

    ghost coded = { Prim.hlevel (codes, formula_code) };

    ghost view = { λ r. record { version = r.version; python = r.python; requirements = r.requirements; yanked = r.yanked; files = r.files.items; source = r.source } };

    ghost invariant = { λ r. IsRelease (record { version = r.version; python = r.python; requirements = r.requirements; yanked = r.yanked; files = r.files.items; source = r.source }) };
}

/// A package: its usable releases, in the order of its document.
///
/// The versions of the releases differ, by the order of versions. Contracts see it as the record `PackageFields`.
#[derive(Drop)]
pub struct Package {
    pub name: Name,
    /// How many releases the document lists, unusable ones included.
    pub entries: u64,
    /// Which of its pre-releases count.
    pub prereleases: Prereleases,
    pub releases: Vec<Release>,
}

impl Model for Package {
    ghost use Rattle.std.specs.Coded.{codes};
    ghost use Rattle.ul_comparison.specs.Codes.{formula_code};
    ghost use Rattle.ul_requirement.specs.Fields.{PackageFields, IsPackage};

    ghost Value = { PackageFields };

    ghost coded = { Prim.hlevel (codes, formula_code) };

    ghost view = { λ p. record { name = p.name; entries = p.entries; prereleases = p.prereleases; releases = p.releases.items } };

    ghost invariant = { λ p. IsPackage (record { name = p.name; entries = p.entries; prereleases = p.prereleases; releases = p.releases.items }) };
}

impl Package {
    /// The usable releases, in the order of the document.
    pub fn releases(&self) -> &[Release]
        ensures releases { result.now ≡ self.now.releases }
        ensures differ { VersionsDiffer self.now.releases }
    {
        let releases: &Vec<Release> = &self.releases;
        releases.as_slice()
    }
}
