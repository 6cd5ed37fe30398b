//! Projects at size.
ghost use Rattle.std.specs.Prelude.{◌≢◌, None};
ghost use Rattle.ul_files.specs.Files.{IsWithin};

use crate::placing::folders::within;
use crate::placing::problems::{catalog_of, problem_in, wish_of};
use std::alloc::{AllocError, Global};
use std::sync::Wait;
use std::test::Fail;
use ul_files::{Files, Noted, ReadRefused, Reads};
use ul_problem::Problem;
use ul_project::project;

/// A folder of so many packages `p0`, `p1` and so on, each of so many releases. Each release of the first `askers`
/// packages has so many requirements, with as many different specifiers. A version is a number behind the text
/// `version`, and a specifier a number between the texts of `specifier`.
#[derive(Drop)]
struct Numbered {
    alloc: Global,
    packages: usize,
    releases: usize,
    askers: usize,
    requirements: usize,
    specifiers: usize,
    version: &'static str,
    specifier: (&'static str, &'static str),
    reads: Reads,
}

// Puts the requirement of a number of a release of a package.
fn push_requirement(
    alloc: Global,
    json: &mut String,
    to: usize,
    specifier: (&str, usize, &str),
    number: usize,
) -> Result<(), AllocError> {
    let marker = match number % 3 {
        0 => "",
        1 => "; sys_platform == 'linux'",
        _ => "; sys_platform == 'win32'",
    };
    let comma = if number == 0 { "" } else { ", " };
    let (before, bound, after) = specifier;
    json.push_str(format!(in alloc; "{comma}\"p{to}{before}{bound}{after}{marker}\"")?.as_str())
}

impl Numbered {
    fn push_release(
        &self,
        json: &mut String,
        package: usize,
        release: usize,
    ) -> Result<(), AllocError> {
        let comma = if release == 0 { "" } else { ", " };
        let version = self.version;
        let head = format!(in self.alloc;
            "{comma}{{\"version\": \"{version}{release}\", \"requires_dist\": ["
        )?;
        json.push_str(head.as_str())?;
        if self.packages > 0 && self.specifiers > 0 && package < self.askers {
            for number in 0..self.requirements {
                let to = package.wrapping_add(number.wrapping_mul(7)).wrapping_add(1)
                    % self.packages;
                let bound = release.wrapping_add(number) % self.specifiers;
                let specifier = (self.specifier.0, bound, self.specifier.1);
                push_requirement(self.alloc, json, to, specifier, number)?;
            }
        }
        json.push_str("]}")
    }

    fn document(&self, package: usize) -> Result<String, AllocError> {
        let mut json = format!(in self.alloc; "{{\"name\": \"p{package}\", \"versions\": [")?;
        for release in 0..self.releases {
            self.push_release(&mut json, package, release)?;
        }
        json.push_str("]}")?;
        Ok(json)
    }

    // The answer to a read.
    fn answer(&self, path: &str, limit: u64) -> Result<Option<Vec<u8>>, ReadRefused>
        ensures within { IsWithin limit result }
        ensures sure { result ≢ Err ReadRefused.Failed }
    {
        let Some(package) = number_in(path) else {
            return Ok(None);
        };
        let json = self.document(package)?;
        within(json.into_bytes(), limit)
    }
}

// The number of a package that a path asks for.
fn number_in(path: &str) -> Option<usize> {
    let name = path.strip_prefix("ix/p")?;
    name.strip_suffix(".json")?.parse::<usize>().ok()
}

impl Files for Numbered {
    ghost use Rattle.std.proofs.lemmas.Option.{none-some};

    ghost map = { λ _. None };

    ghost faults = { λ _. 0 };

    ghost last_failed = { λ _. None };

    ghost reads = { λ n. n.reads.list };

    ghost agrees = { λ _ m e. absurd (none-some m e) };

    fn read(&mut self, path: &str, limit: u64) -> Result<Option<Vec<u8>>, ReadRefused> {
        let answer = self.answer(path, limit);
        self.reads = self.reads.with(&Noted {
            path,
            limit,
            answer: &answer,
        });
        answer
    }
}

// How many needs a problem has.
fn need_count(problem: &Problem) -> usize {
    let mut count: usize = 0;
    for facts in problem.nodes() {
        for row in facts.needs.as_slice() {
            count = count.wrapping_add(row.as_slice().len());
        }
    }
    count
}

// The file of a project that requires the first package.
const FILE: &str = "[project]\nname = 'demo'\ndependencies = ['p0']\n";

// The problem of a region of that project in short: how many nodes and how many needs it has.
fn counts_in<R: Wait>(
    rt: &R,
    alloc: Global,
    files: &mut Numbered,
    marker: &str,
) -> Result<(usize, usize), Fail> {
    let project = project(alloc, FILE.as_bytes()).ok().ok_or(AllocError)?;
    let catalog = catalog_of(alloc, files, &project)?;
    let wish = wish_of(alloc, &project, "")?;
    let problem = problem_in(rt, alloc, &catalog, &wish, marker)?;
    Ok((problem.nodes().len(), need_count(&problem)))
}

// A project, a region, and how many nodes and needs the problem of the region has.
struct Size {
    packages: usize,
    releases: usize,
    askers: usize,
    requirements: usize,
    specifiers: usize,
    version: &'static str,
    specifier: (&'static str, &'static str),
    marker: &'static str,
    nodes: usize,
    needs: usize,
}

// From the fifth on each has millions of pairs of a specifier and a version, or of two requirements, which aren't
// compared one by one. The last has versions of one release alone.
const SIZES: [Size; 9] = [
    Size {
        packages: 30,
        releases: 20,
        askers: 30,
        requirements: 15,
        specifiers: 50,
        version: "1.",
        specifier: (">=1.", ""),
        marker: "sys_platform == 'win32'",
        nodes: 31,
        needs: 6_001,
    },
    Size {
        packages: 30,
        releases: 20,
        askers: 30,
        requirements: 15,
        specifiers: 50,
        version: "1.",
        specifier: (">=1.", ""),
        marker: "python_version >= '0'",
        nodes: 31,
        needs: 9_001,
    },
    Size {
        packages: 2,
        releases: 2_000,
        askers: 2,
        requirements: 1,
        specifiers: 50,
        version: "1.",
        specifier: (">=1.", ""),
        marker: "python_version >= '0'",
        nodes: 3,
        needs: 4_001,
    },
    Size {
        packages: 600,
        releases: 4,
        askers: 600,
        requirements: 3,
        specifiers: 50,
        version: "1.",
        specifier: (">=1.", ""),
        marker: "python_version >= '0'",
        nodes: 601,
        needs: 7_201,
    },
    Size {
        packages: 2,
        releases: 2_000,
        askers: 2,
        requirements: 1,
        specifiers: 2_000,
        version: "1.",
        specifier: (">=1.", ""),
        marker: "python_version >= '0'",
        nodes: 3,
        needs: 4_001,
    },
    Size {
        packages: 1_500,
        releases: 1,
        askers: 1,
        requirements: 3_000,
        specifiers: 1,
        version: "1.",
        specifier: (">=1.", ""),
        marker: "python_version >= '0'",
        nodes: 1_501,
        needs: 3_001,
    },
    Size {
        packages: 2,
        releases: 2_000,
        askers: 2,
        requirements: 1,
        specifiers: 2_000,
        version: "1.",
        specifier: ("~=1.", ".0"),
        marker: "python_version >= '0'",
        nodes: 3,
        needs: 4_001,
    },
    Size {
        packages: 2,
        releases: 2_000,
        askers: 2,
        requirements: 1,
        specifiers: 2_000,
        version: "1.",
        specifier: ("==1.", ".*"),
        marker: "python_version >= '0'",
        nodes: 3,
        needs: 4_001,
    },
    Size {
        packages: 2,
        releases: 2_000,
        askers: 2,
        requirements: 1,
        specifiers: 2_000,
        version: "1.0.post",
        specifier: (">=1.0.post", ""),
        marker: "python_version >= '0'",
        nodes: 3,
        needs: 4_001,
    },
];

#[test]
fn projects_at_size(rt: HostRuntime) -> Result<(), Fail> {
    let alloc = rt.alloc();
    for size in &SIZES {
        let mut files = Numbered {
            alloc,
            packages: size.packages,
            releases: size.releases,
            askers: size.askers,
            requirements: size.requirements,
            specifiers: size.specifiers,
            version: size.version,
            specifier: size.specifier,
            reads: Reads::new(),
        };
        let counts = counts_in(&rt, alloc, &mut files, size.marker)?;
        assert!(rt;
            counts == (size.nodes, size.needs),
            "{} {}",
            size.packages,
            size.releases
        );
    }
    Ok(())
}
