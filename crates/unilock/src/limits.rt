// What is answered at the limits of forks, of a marker's paths and of comparisons, and one past each.
use crate::tests::{cells, printed, put};
use std::alloc::Global;
use std::fmt::Write;
use std::sync::Wait;
use std::thread::Threads;

// A project with these requirements, and the document of each of these packages, which has release 1.
fn case_of(alloc: Global, requirements: &str, names: &str) -> String {
    let mut text = String::new(alloc);
    put(
        &mut text,
        "lock p.toml ix 1\n@p.toml\n[project]\nname = \"demo\"\nversion = \"0.1\"\ndependencies = [",
    );
    put(&mut text, requirements);
    put(&mut text, "]");
    for name in names.split(' ') {
        let _ = write!(
            text,
            "\n@ix/{name}.json\n{{\"name\": \"{name}\", \"versions\": [{{\"version\": \"1\"}}]}}"
        );
    }
    text
}

const PARTED: &str = "pa pb pc pd pe pf pg ph pi pj pk z";

// Eleven packages, each required twice, the second time on platforms of its own, and these requirements behind them.
fn parted(alloc: Global, behind: &str) -> String {
    let mut requirements = String::new(alloc);
    for letter in "abcdefghijk".chars() {
        let _ = write!(
            requirements,
            "'p{letter}', \"p{letter}; '{letter}' in platform_version\", "
        );
    }
    put(&mut requirements, behind);
    case_of(alloc, requirements.as_str(), PARTED)
}

const PAIRS: &str = "a-b c-d e-f g-h i-j k-l m-n o-p q-r s-t u-v w-x y-z";

// A requirement whose marker joins what stands before and so many pairs of comparisons.
fn joined(alloc: Global, before: &str, pairs: usize) -> String {
    let mut requirement = String::new(alloc);
    put(&mut requirement, "\"a; ");
    put(&mut requirement, before);
    for pair in PAIRS.split(' ').take(pairs) {
        let (one, other) = pair.split_once('-').unwrap_or((pair, pair));
        let _ = write!(
            requirement,
            "('{one}' in os_name and '{other}' in os_name) or "
        );
    }
    put(&mut requirement, "'a' in os_name and 'b' in os_name\"");
    case_of(alloc, requirement.as_str(), "a")
}

// Puts so many pairs of comparisons, joined by `or`.
fn put_pairs(told: &mut String, pairs: usize) {
    for pair in 0..pairs {
        let or = if pair == 0 { "" } else { " or " };
        let _ = write!(
            told,
            "{or}('k{pair}a' in os_name and 'k{pair}b' in os_name)"
        );
    }
}

// Words over a project that requires a package below 2, and from 2 on where one of so many pairs of comparisons is true.
fn clashing(alloc: Global, words: &str, pairs: usize) -> String {
    let mut text = String::new(alloc);
    put(&mut text, words);
    put(
        &mut text,
        "\n@p.toml\n[project]\nname = \"demo\"\nversion = \"0.1\"\ndependencies = [\"a<2; 'zz' in os_name\", \"a>=2; ",
    );
    put_pairs(&mut text, pairs);
    put(
        &mut text,
        "\"]\n@ix/a.json\n{\"name\": \"a\", \"versions\": [{\"version\": \"1\"}, {\"version\": \"2\"}]}",
    );
    text
}

// Words over a project with these requirements, and a package whose release requires another one by a marker that joins so
// many pairs of comparisons.
fn chosen(alloc: Global, words: &str, requirements: &str, pairs: usize) -> String {
    let mut text = String::new(alloc);
    let _ = write!(
        text,
        "{words}\n@p.toml\n[project]\nname = \"demo\"\nversion = \"0.1\"\ndependencies = [{requirements}]"
    );
    put(
        &mut text,
        "\n@ix/b.json\n{\"name\": \"b\", \"versions\": [{\"version\": \"1\"}]}\n@ix/a.json\n{\"name\": \"a\", \"versions\": [{\"version\": \"1\", \"requires_dist\": [\"b; ",
    );
    put_pairs(&mut text, pairs);
    put(&mut text, "\"]}]}");
    text
}

// So many requirements, each with a comparison of its own.
fn compared(alloc: Global, count: usize) -> String {
    let mut requirements = String::new(alloc);
    let mut names = String::new(alloc);
    for place in 0..count {
        let _ = write!(requirements, "\"p{place}; 'k{place}' in os_name\", ");
        let _ = write!(names, "p{place} ");
    }
    case_of(alloc, requirements.as_str(), names.as_str())
}

// Puts so many texts that a variable may have, each as a comparison.
fn put_points(told: &mut String, variable: &str, count: usize) {
    for place in 0..count {
        let or = if place == 0 { "" } else { " or " };
        let _ = write!(told, "{or}{variable} == 'x{}'", place.saturating_add(100));
    }
}

// Puts the edge to a package of a number, and that package, so often that there are as many packages in a chain.
fn put_chain(told: &mut String, count: usize) {
    for place in 0..count {
        let number = place.saturating_add(100);
        let _ = write!(
            told,
            "\ndependencies = [\n    {{ name = \"r{number}\", version = \"1\" }},\n]\n"
        );
        let _ = write!(told, "\n[[package]]\nname = \"r{number}\"\nversion = \"1\"");
    }
}

// `export` with more words, and a lock whose package q is reached under as many paths as the product of this number and
// 64; it leads to a chain of so many packages.
fn reached(alloc: Global, more: &str, count: usize, chained: usize) -> String {
    let mut text = String::new(alloc);
    put(&mut text, "export l");
    put(&mut text, more);
    put(
        &mut text,
        "\n@l\nversion = 2\nroot = \"demo\"\n\n[[package]]\nname = \"a\"\nversion = \"1\"\ndependencies = [\n    { name = \"q\", version = \"1\", marker = \"",
    );
    put_points(&mut text, "sys_platform", 64);
    put(
        &mut text,
        "\" },\n]\n\n[[package]]\nname = \"demo\"\nversion = \"0.1\"\ndependencies = [\n    { name = \"a\", version = \"1\", marker = \"",
    );
    put_points(&mut text, "os_name", count);
    put(
        &mut text,
        "\" },\n]\n\n[[package]]\nname = \"q\"\nversion = \"1\"",
    );
    put_chain(&mut text, chained);
    text
}

// The case of a kind, and the word whose pieces are counted in what is printed for it.
fn case_in(alloc: Global, kind: &str, count: usize, more: &str) -> (String, &'static str) {
    match kind {
        "forks" => (parted(alloc, more), "\n"),
        "paths" => (joined(alloc, more, count), " or "),
        "chosen" => (chosen(alloc, more, "'a'", count), " or "),
        "clashing" => (clashing(alloc, more, count), " or "),
        "reached" => (reached(alloc, more, count, 0), " or "),
        "chained" => (reached(alloc, more, count, 350), " or "),
        _ => (compared(alloc, count), " in os_name"),
    }
}

// In how many pieces a word cuts what is printed for the case, whose status is 0; for another status what is printed.
fn told<R: Threads + Wait + Sync>(rt: &R, alloc: Global, given: &str, word: &str) -> String {
    let printed = printed(rt, alloc, given);
    if !printed.starts_with("0\n") {
        return printed;
    }
    let mut told = String::new(alloc);
    let _ = write!(told, "{}", printed.split(word).count());
    told
}

// A kind, a number, what stands before the pairs of a marker's comparisons, behind the packages that fork or behind the
// words, and what is told: of forks the status, four lines around the forks, 44 of the packages and 17 of the project;
// of a marker its paths; of an exported lock the paths of two markers, less one; and of comparisons one more than there
// are. The second row has a requirement where all the platforms are. With a marker of more paths than fit anywhere the lock
// isn't written, though no fork is refused; and a refused fork whose region has so many isn't told. Of an exported lock an
// extra that its root doesn't have is told before a marker's paths, and these before the length of the text.
const LIMITS: &str = "forks|0||2115#\
    forks|0|'z', \"z; 'a' in platform_version and 'b' in platform_version and 'c' in platform_version and 'd' in platform_version and 'e' in platform_version and 'f' in platform_version and 'g' in platform_version and 'h' in platform_version and 'i' in platform_version and 'j' in platform_version and 'k' in platform_version and 'm' in platform_version\"|4\nlimit: forks 2048\n#\
    paths|12||4095#\
    paths|12|sys_platform == 'x' or |4096#\
    paths|13||4\nlimit: marker-paths 4096\n#\
    paths|12|sys_platform == 'x' or sys_platform == 'y' or |4\nlimit: marker-paths 4096\n#\
    chosen|12|lock p.toml ix 1|4095#\
    chosen|12|lock p.toml ix 8|4095#\
    chosen|13|lock p.toml ix 1|4\nlimit: marker-paths 4096\n#\
    chosen|24|lock p.toml ix 8|4\nlimit: marker-paths 4096\n#\
    chosen|120|lock p.toml ix 1|4\nlimit: marker-paths 4096\n#\
    chosen|120|lock p.toml ix 8|4\nlimit: marker-paths 4096\n#\
    chosen|120|why p.toml ix 8|1#\
    clashing|24|lock p.toml ix 1|4\nlimit: marker-paths 4096\n#\
    clashing|24|why p.toml ix 8|4\nlimit: marker-paths 4096\n#\
    reached|64||4159#\
    reached|65||4\nlimit: marker-paths 4096\n#\
    reached|65| gpu|8\nextra: gpu\n#\
    chained|64||4\nlimit: text-bytes 67108864\n#\
    chained|65||4\nlimit: marker-paths 4096\n#\
    chained|64| gpu|8\nextra: gpu\n#\
    comparisons|256||257#\
    comparisons|257||4\nlimit: comparisons 256\n";

fn is_limit<R: Threads + Wait + Sync>(rt: &R, alloc: Global, row: &str) -> bool {
    let (kind, rest) = row.split_once('|').unwrap_or((row, ""));
    let (count, rest) = rest.split_once('|').unwrap_or((rest, ""));
    let (more, want) = rest.split_once('|').unwrap_or((rest, ""));
    let (given, word) = case_in(alloc, kind, count.parse::<usize>().unwrap_or(0), more);
    told(rt, alloc, given.as_str(), word).as_str() == want
}

#[test]
fn limits_and_one_past_each(rt: HostRuntime) {
    for row in LIMITS.split('#') {
        assert!(rt; is_limit(&rt, rt.alloc(), row), "{row}");
    }
}

// Whether `lock` refuses a project that nothing serves, and `check` accepts what `why` prints of it, where a release has a
// marker with more paths than fit anywhere.
fn is_refused<R: Threads + Wait + Sync>(rt: &R, alloc: Global, requirements: &str) -> bool {
    let lock = chosen(alloc, "lock p.toml ix 8", requirements, 120);
    let why = chosen(alloc, "why p.toml ix 8", requirements, 120);
    let reason = printed(rt, alloc, why.as_str());
    let (status, lines) = cells(reason.as_str(), "\n");
    let mut check = chosen(alloc, "check p.toml ix d", requirements, 120);
    put(&mut check, "\n@d\n");
    put(&mut check, lines.strip_suffix('\n').unwrap_or(lines));
    status == "1"
        && printed(rt, alloc, lock.as_str()).starts_with("1\n")
        && printed(rt, alloc, check.as_str()).as_str() == "0\naccepted\n"
}

#[test]
fn refusals_come_before_limits(rt: HostRuntime) {
    assert!(rt; is_refused(&rt, rt.alloc(), "'a', 'b<1'"));
}
