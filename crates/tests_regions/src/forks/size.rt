//! As many leaves as there may be, and one more.
use crate::forks::asked::{Input, forked, input_of};
use std::alloc::Global;
use std::sync::Wait;
use std::thread::Threads;
use ul_base::Open;
use ul_forks::{ForkAnswer, ForkFault, Forked};

// Eleven packages that are each required everywhere, and again where a letter of their own stands in the platform's
// version.
const PAIRS: &str = r#"'pa', "pa; 'a' in platform_version",
'pb', "pb; 'b' in platform_version",
'pc', "pc; 'c' in platform_version",
'pd', "pd; 'd' in platform_version",
'pe', "pe; 'e' in platform_version",
'pf', "pf; 'f' in platform_version",
'pg', "pg; 'g' in platform_version",
'ph', "ph; 'h' in platform_version",
'pi', "pi; 'i' in platform_version",
'pj', "pj; 'j' in platform_version",
'pk', "pk; 'k' in platform_version""#;

// Where one of the letters stands, and where all of them stand, and one more.
const ONE_LETTER: &str = "'a' in platform_version";

const ALL_LETTERS: &str = "'a' in platform_version and 'b' in platform_version \
    and 'c' in platform_version and 'd' in platform_version and 'e' in platform_version \
    and 'f' in platform_version and 'g' in platform_version and 'h' in platform_version \
    and 'i' in platform_version and 'j' in platform_version and 'k' in platform_version \
    and 'm' in platform_version";

// Where the first letter doesn't stand, and where the last doesn't.
const FIRST_LACKS: &str = "'a' not in platform_version";

const LAST_LACKS: &str = "'m' not in platform_version";

const NAMES: &str = "pa,pb,pc,pd,pe,pf,pg,ph,pi,pj,pk,z";

// What one package requires of those eleven, each where a letter of its own stands in the platform's version.
const BELOW: &str = "\"pa<2; 'a' in platform_version\", \"pb<2; 'b' in platform_version\", \
    \"pc<2; 'c' in platform_version\", \"pd<2; 'd' in platform_version\", \
    \"pe<2; 'e' in platform_version\", \"pf<2; 'f' in platform_version\", \
    \"pg<2; 'g' in platform_version\", \"ph<2; 'h' in platform_version\", \
    \"pi<2; 'i' in platform_version\", \"pj<2; 'j' in platform_version\", \
    \"pk<2; 'k' in platform_version\"";

// What another requires of them where the letter doesn't stand there: the two clash eleven times over.
const ABOVE: &str =
    "\"pa>=2; 'a' not in platform_version\", \"pb>=2; 'b' not in platform_version\", \
    \"pc>=2; 'c' not in platform_version\", \"pd>=2; 'd' not in platform_version\", \
    \"pe>=2; 'e' not in platform_version\", \"pf>=2; 'f' not in platform_version\", \
    \"pg>=2; 'g' not in platform_version\", \"ph>=2; 'h' not in platform_version\", \
    \"pi>=2; 'i' not in platform_version\", \"pj>=2; 'j' not in platform_version\", \
    \"pk>=2; 'k' not in platform_version\"";

// How many leaves there are, or how many leaves and regions are too many.
fn count_of(answer: &Result<ForkAnswer, ForkFault>) -> (u64, bool) {
    match answer {
        Ok(Forked::Leaves(leaves)) => (leaves.len() as u64, true),
        Err(ForkFault::TooManyForks { count }) => (*count, false),
        _ => (0, false),
    }
}

// The project of the pairs, and of a further package that is required everywhere, and again where a marker holds.
fn pairs(alloc: Global, marker: &str) -> Option<Input> {
    let requirements = format!(in alloc; "{PAIRS}, 'z', \"z; {marker}\"").ok()?;
    let packages = format!(in alloc; "{NAMES} {{\"version\": \"1\"}}").ok()?;
    input_of(alloc, requirements.as_str(), "", packages.as_str())
}

// The project of the two packages that clash, also over a further one, which one of them requires where a marker holds,
// and the other one where another marker does.
fn clashes(alloc: Global, marker: &str, other: &str) -> Option<Input> {
    let packages = format!(in alloc;
        "a {{\"version\": \"1\", \"requires_dist\": [{BELOW}, \"z<2; {marker}\"]}}\n\
        b {{\"version\": \"1\", \"requires_dist\": [{ABOVE}, \"z>=2; {other}\"]}}\n\
        {NAMES} {{\"version\": \"1\"}}, {{\"version\": \"2\"}}"
    );
    let settings = "[tool.uv]\nfork-strategy = 'deep'";
    input_of(alloc, "'a', 'b'", settings, packages.ok()?.as_str())
}

// That count of a project.
fn fork_count<R: Threads + Wait + Sync>(rt: &R, alloc: Global, input: &Input) -> (u64, bool) {
    let answer = forked(rt, alloc, 4, input, &Open);
    count_of(&answer)
}

// Whether there is a project, and it has this count.
fn has_count<R: Threads + Wait + Sync>(
    rt: &R,
    alloc: Global,
    input: Option<Input>,
    count: (u64, bool),
) -> bool {
    match input {
        Some(input) => fork_count(rt, alloc, &input) == count,
        None => false,
    }
}

#[test]
fn many_leaves_and_one_too_many(rt: HostRuntime) {
    let alloc = rt.alloc();
    assert!(rt;
        has_count(&rt, alloc, pairs(alloc, ONE_LETTER), (2048, true))
            && has_count(&rt, alloc, pairs(alloc, ALL_LETTERS), (2049, false))
    );
}

#[test]
fn many_clashes_and_one_too_many(rt: HostRuntime) {
    let alloc = rt.alloc();
    assert!(rt;
        has_count(
            &rt,
            alloc,
            clashes(alloc, ONE_LETTER, FIRST_LACKS),
            (2048, true)
        ) && has_count(
            &rt,
            alloc,
            clashes(alloc, ALL_LETTERS, LAST_LACKS),
            (2049, false)
        )
    );
}
