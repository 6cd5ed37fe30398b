//! Readings, texts and orders of PEP 440, and texts that are cut.
use crate::reading::texts::{number, repeated};
use std::alloc::Global;
use std::cmp::Ordering;
use tests_rows::{cells, letter};
use ul_version::ascii::{
    Alphanumeric, Blank, ByteClass, Digit, Letter, Only, Separator, White, after_run, after_word,
    before_run, before_word, begins, front_run, is_run, piece_len, run_len, trimmed,
};
use ul_version::{Pre, PreKind, Public, Segment, Version, VersionFault, cmp_releases, has_front};

// What is tried, a case a row. The first word, by its letter, says what the others are:
//
// spelled TEXT|NORMAL: a spelling of a version, and its normal text.
// refused TEXT, invalid_bytes: what is no version; the bytes are no text.
// long_refused PIECE, accepted PIECE: whether 1 with 100,000 such pieces behind it is a version.
// huge START PIECE SIGN RELEASE LOCAL: a version of 50,000 pieces, how it comes to 1, and how many numbers and segments
// it has.
// ordered VERSION..: each is greater than those before it. They are compared 2,800 times.
// made VERSION: equal to the version that is made of the release 1, 0; and public parts are made of releases.
// different VERSION..: each is the same as itself alone, though it may be equal to others.
// public VERSION SIGN VERSION, numbers VERSION SIGN VERSION: how public parts and releases come to each other.
// front VERSION has VERSION, front VERSION lacks VERSION: whether a release begins with another, padded by zeros.
// both VERSION, unmarked VERSION: whether a version is both a pre-release and a post-release.
// told VERSION: the parts of this one version.
// kind BYTE..: a byte, and whether it is white, a blank, a digit, a letter, alphanumeric, a separator.
// cut WORD TEXT|WANT: what a cut of a text gives: the run of white at its front, what comes after it, what comes before
// the one at the end, and the text without both; what comes before a comma, and before a digit; the word at its front,
// and what comes past it; whether it begins with a letter, and whether it is a number; what comes after a sign, and
// before an ending.
// gap: cuts of a text of 10,000 blanks behind a digit.
const ROWS: &str = "spelled v1.0|1.0;\
    spelled  1!2.0-ALPHA_3 |1!2.0a3;\
    spelled 1.0-1|1.0.post1;\
    spelled 1.0.RC|1.0rc0;\
    spelled 1.0preview2|1.0rc2;\
    spelled 1.0pre1|1.0rc1;\
    spelled 1.2.3.4.5.6.7.8.9.10|1.2.3.4.5.6.7.8.9.10;\
    spelled 1!0.1.2.3.4.5.6.7.8.9.10-B_1-2.dev-3+a.b.c.d.e.f.1.2.3.4|\
    1!0.1.2.3.4.5.6.7.8.9.10b1.post2.dev3+a.b.c.d.e.f.1.2.3.4;\
    spelled 18446744073709551615|18446744073709551615;\
    spelled 1.0.rev3|1.0.post3;\
    spelled 01.002|1.2;\
    spelled 1.0+Ubuntu-1_2|1.0+ubuntu.1.2;\
    spelled 1.0a.dev|1.0a0.dev0;\
    spelled 1.0dev|1.0.dev0;\
    spelled 1.0+001|1.0+1;\
    spelled 1.0a-1|1.0a1;\
    spelled \t\n\u{b}\u{c}\r 0!1.0.R-4_dev \r\u{c}\u{b}\n\t|1.0.post4.dev0;\
    spelled 1.0-beta.post-2|1.0b0.post2;\
    spelled 1.0+00a.A0.0|1.0+00a.a0.0;\
    refused ;\
    refused  ;\
    refused 1.;\
    refused 1.0+;\
    refused a1;\
    refused 1..0;\
    refused 1!;\
    refused 18446744073709551616;\
    refused 1.18446744073709551616;\
    refused 1.0a18446744073709551616;\
    refused 1.0+18446744073709551616;\
    refused 1.0+a..b;\
    refused 1.0+a.;\
    refused v;\
    refused vv1;\
    refused 1!2!3;\
    refused 1 .0;\
    refused 1.0\u{a0};\
    refused \u{661}.0;\
    refused 1.0+\u{e9};\
    refused 1.0.x;\
    refused 1.0post1a1;\
    refused 1.0--1;\
    invalid_bytes;\
    long_refused 9;\
    long_refused .;\
    long_refused a;\
    long_refused +;\
    long_refused !;\
    long_refused -1;\
    accepted  ;\
    huge 1 .0 = 50001 0;\
    huge 1+x .y > 1 50001;\
    ordered 1.0.dev456 1.0a1 1.0a2.dev456 1.0a12.dev456 1.0a12 1.0b1.dev456 1.0b2 1.0b2.post345.dev456 \
    1.0b2.post345 1.0rc1.dev456 1.0rc1 1.0 1.0+ab 1.0+abc 1.0+abc.5 1.0+abc.7 1.0+abc.10 1.0+5 1.0+10 \
    1.0.post456.dev34 1.0.post456 1.0.15 1.1.dev1 1.1.2.3.4.5.6.7.8.9;\
    made 1.0.0;\
    different 1.0 1.0.0 1!1.0 1.0a1 1.0b1 1.0a2 1.0.post1 1.0.dev1 1.0+1 1.0+a 1.0+a.1 1.0+b;\
    public 1!2.0rc1.post2.dev3+x > 3;\
    public 1!2.0rc1.post2.dev3+x < 1!3;\
    public 1!2.0rc1.post2.dev3+x < 1!2;\
    public 1!2.0rc1.post2.dev3+x = 1!2.0rc1.post2.dev3;\
    public 1!2.0rc1.post2.dev3+x > 1!2rc1.post1;\
    public 1!2.0rc1.post2.dev3+x < 1!2rc1.post2.dev4;\
    public 1!2.0rc1.post2.dev3+x = 1!2.0.0rc1.post2.dev3+y;\
    numbers 1.2.3.4.5.6.7.8.9.10 > 1.2.3.4.5.6.7.8.9;\
    numbers 1 = 1.0.0.0.0.0.0.0.0.0;\
    front 1.2.3.4.5.6.7.8.9.10 has 1.2.3.4.5.6.7.8.9;\
    front 1 has 1.0;\
    front 1.2.3.4.5.6.7.8.9 lacks 1.2.3.4.5.6.7.8.9.10;\
    front 1.2.3.4.5.6.7.8.9.10 lacks 2;\
    both 1!2.0rc1.post2.dev3+x;\
    both 3!1.4rc2.post5.dev6+a1.7;\
    unmarked 1.0+dev;\
    told 3!1.4rc2.post5.dev6+a1.7;\
    kind  110000;\
    kind \t110000;\
    kind \r100000;\
    kind \u{8}000000;\
    kind \u{e}000000;\
    kind 0001010;\
    kind Z000110;\
    kind a000110;\
    kind .000001;\
    kind -000001;\
    kind _000001;\
    kind @000000;\
    cut run  \ta1, b | \t;\
    cut after_white  \ta1, b |a1, b ;\
    cut before_white  \ta1, b | \ta1, b;\
    cut trimmed  \ta1, b |a1, b;\
    cut comma  \ta1, b | \ta1;\
    cut digit abc|abc;\
    cut word a1, b|a1;\
    cut past_word a1, b|, b;\
    cut letter a1|yes;\
    cut letter 1a|no;\
    cut letter |no;\
    cut number |yes;\
    cut number 19|yes;\
    cut number 1a|no;\
    cut sign ~=1|1;\
    cut sign ~1|none;\
    cut ending 1.*|1;\
    cut ending 1.|none;\
    gap";

fn has_text(alloc: Global, version: &Version, want: &str) -> bool {
    match version.text(alloc) {
        Ok(text) => text.as_str() == want,
        Err(_) => false,
    }
}

// Whether a version has this text, and is its own copy.
fn has_copy(alloc: Global, version: &Version, want: &str) -> bool {
    match version.copy(alloc) {
        Ok(copy) => {
            version.cmp(&copy).is_eq()
                && version.same(&copy)
                && has_text(alloc, version, want)
                && has_text(alloc, &copy, want)
        }
        Err(_) => false,
    }
}

// Whether a text is a version with this normal text.
fn is_spelled(alloc: Global, text: &str, want: &str) -> bool {
    match Version::read(alloc, text) {
        Ok(version) => has_copy(alloc, &version, want),
        Err(_) => false,
    }
}

fn is_refused(alloc: Global, text: &[u8]) -> bool {
    match Version::read_bytes(alloc, text) {
        Ok(_) => false,
        Err(VersionFault::NoReading) => true,
        Err(VersionFault::NoMemory) => false,
    }
}

fn is_long_refused(alloc: Global, piece: &str) -> bool {
    let text = repeated(alloc, "1", piece, 100_000);
    is_refused(alloc, text.as_str().as_bytes())
}

fn sign(order: Ordering) -> &'static str {
    match order {
        Ordering::Less => "<",
        Ordering::Equal => "=",
        Ordering::Greater => ">",
    }
}

// What a comparison of two versions says.
fn word(kind: u8, version: &Version, other: &Version) -> &'static str {
    let (release, front) = (version.release.as_slice(), other.release.as_slice());
    match kind {
        b'p' => sign(Public::of(version).cmp(&Public::of(other))),
        b'n' => sign(cmp_releases(release, front)),
        b'f' if has_front(release, front) => "has",
        b'f' => "lacks",
        _ if version.same(other) => "same",
        _ => sign(version.cmp(other)),
    }
}

fn comes_so(alloc: Global, kind: u8, version: &Version, want: &str, other: &str) -> bool {
    match Version::read(alloc, other) {
        Ok(other) => word(kind, version, &other) == want,
        Err(_) => false,
    }
}

// Whether a row `VERSION WORD VERSION` says what the comparison does.
fn is_pair(alloc: Global, kind: u8, row: &str) -> bool {
    let (text, rest) = cells(row, ' ');
    let (want, other) = cells(rest, ' ');
    match Version::read(alloc, text) {
        Ok(version) => comes_so(alloc, kind, &version, want, other),
        Err(_) => false,
    }
}

// Whether a version of this text is a row's: how it comes to 1 without being the same, and its lengths.
fn is_so_long(alloc: Global, version: &Version, text: &str, row: &str) -> bool {
    let (want, rest) = cells(row, ' ');
    let (release, local) = cells(rest, ' ');
    comes_so(alloc, 0, version, want, "1")
        && version.release.len() as u64 == number(release)
        && version.local.len() as u64 == number(local)
        && has_copy(alloc, version, text)
}

fn is_long_version(alloc: Global, text: &str, row: &str) -> bool {
    match Version::read(alloc, text) {
        Ok(version) => is_so_long(alloc, &version, text, row),
        Err(_) => false,
    }
}

fn is_huge(alloc: Global, row: &str) -> bool {
    let (start, rest) = cells(row, ' ');
    let (piece, rest) = cells(rest, ' ');
    let text = repeated(alloc, start, piece, 50_000);
    is_long_version(alloc, text.as_str(), rest)
}

fn push_version(alloc: Global, versions: &mut Vec<Version>, text: &str) {
    if let Ok(version) = Version::read(alloc, text) {
        let _ = versions.push(version);
    }
}

// Whether a version comes to others as its place does to theirs.
fn is_placed(version: &Version, place: usize, versions: &[Version]) -> bool {
    for (other_place, other) in versions.iter().enumerate() {
        if version.cmp(other) != place.cmp(&other_place) {
            return false;
        }
    }
    true
}

// Whether a version is the same as that of its place alone.
fn is_alone(version: &Version, place: usize, versions: &[Version]) -> bool {
    for (other_place, other) in versions.iter().enumerate() {
        if version.same(other) != (place == other_place) {
            return false;
        }
    }
    true
}

fn are_told(kind: u8, versions: &[Version]) -> bool {
    for (place, version) in versions.iter().enumerate() {
        let is_told = if kind == b'o' {
            is_placed(version, place, versions)
        } else {
            is_alone(version, place, versions)
        };
        if !is_told {
            return false;
        }
    }
    true
}

// Whether versions, of which there are so many, are told so as often as that.
fn are_told_often(kind: u8, versions: &[Version], count: usize, times: u32) -> bool {
    for _ in 0..times {
        if !are_told(kind, versions) {
            return false;
        }
    }
    versions.len() == count
}

fn are_versions(alloc: Global, kind: u8, texts: &str) -> bool {
    let mut versions = Vec::new(alloc);
    for text in texts.split(' ') {
        push_version(alloc, &mut versions, text);
    }
    let (count, times) = if kind == b'o' { (24, 2_800) } else { (12, 1) };
    are_told_often(kind, versions.as_slice(), count, times)
}

// Whether a version is the one that is made of the release 1, 0.
fn is_made(alloc: Global, version: &Version) -> bool {
    match vec![in alloc; 1, 0] {
        Ok(release) => version.cmp(&Version::plain_of(alloc, release)).is_eq(),
        Err(_) => false,
    }
}

fn is_plain() -> bool {
    let plain = Public::plain(&[1, 2, 3]);
    let order = plain.cmp(&Public::plain(&[1, 2, 3, 0]));
    order.is_eq() && !plain.is_pre() && !plain.is_post()
}

// Whether a version, and its public part, are both a pre-release and a post-release, or neither.
fn is_both(version: &Version, want: bool) -> bool {
    let public = Public::of(version);
    public.is_pre() == want
        && public.is_post() == want
        && version.is_pre() == want
        && version.is_post() == want
}

fn has_local(local: &[Segment]) -> bool {
    let [Segment::Word(word), Segment::Number(7)] = local else {
        return false;
    };
    word.as_str() == "a1"
}

fn has_parts(version: &Version) -> bool {
    version.epoch == 3
        && matches!(version.release.as_slice(), [1, 4])
        && matches!(
            version.pre,
            Some(Pre {
                kind: PreKind::Rc,
                number: 2
            })
        )
        && matches!(version.post, Some(5))
        && matches!(version.dev, Some(6))
        && has_local(version.local.as_slice())
}

fn is_so(alloc: Global, kind: u8, version: &Version) -> bool {
    match kind {
        b'b' => is_both(version, true),
        b'u' => is_both(version, false),
        b't' => has_parts(version),
        _ => is_made(alloc, version) && is_plain(),
    }
}

fn is_version(alloc: Global, kind: u8, text: &str) -> bool {
    match Version::read(alloc, text) {
        Ok(version) => is_so(alloc, kind, &version),
        Err(_) => false,
    }
}

fn digit(holds: bool) -> u8 {
    if holds { b'1' } else { b'0' }
}

fn is_of_classes(byte: u8, classes: &[u8]) -> bool {
    let (white, blank, one) = (
        digit(White.has(byte)),
        digit(Blank.has(byte)),
        digit(Digit.has(byte)),
    );
    let (letter, both) = (digit(Letter.has(byte)), digit(Alphanumeric.has(byte)));
    classes == [white, blank, one, letter, both, digit(Separator.has(byte))].as_slice()
}

fn is_class_row(line: &[u8]) -> bool {
    match line.split_first() {
        Some((byte, classes)) => {
            let only = Only { byte: *byte }.has(*byte) && !Only { byte: b'?' }.has(*byte);
            only && is_of_classes(*byte, classes)
        }
        None => false,
    }
}

fn yes(holds: bool) -> &'static [u8] {
    if holds { b"yes" } else { b"no" }
}

fn cut(kind: u8, text: &[u8]) -> &[u8] {
    match kind {
        b'a' => after_run(&White, text),
        b'b' => before_run(&White, text),
        b't' => trimmed(&White, text),
        b'w' => front_run(&Alphanumeric, text).0,
        b'p' => front_run(&Alphanumeric, text).1,
        b's' => after_word(text, b"~=").unwrap_or(b"none"),
        b'e' => before_word(text, b".*").unwrap_or(b"none"),
        b'l' => yes(begins(&Letter, text)),
        _ => yes(is_run(&Digit, text)),
    }
}

fn cut_length(kind: u8, text: &[u8]) -> usize {
    match kind {
        b'r' => run_len(&White, text),
        b'c' => piece_len(&Only { byte: b',' }, text),
        _ => piece_len(&Digit, text),
    }
}

// Whether what a cut gives of a text is this, or its length this one's.
fn is_cut(row: &str) -> bool {
    let (kind, rest) = cells(row, ' ');
    let (text, want) = cells(rest, '|');
    match letter(kind) {
        b'r' | b'c' | b'd' => cut_length(letter(kind), text.as_bytes()) == want.len(),
        kind => cut(kind, text.as_bytes()) == want.as_bytes(),
    }
}

fn is_long_cut(text: &[u8]) -> bool {
    run_len(&Blank, after_run(&Digit, text)) == 10_000
        && piece_len(&Letter, text) == 10_001
        && matches!(trimmed(&White, text), [b'1'])
}

fn is_cut_at_length(alloc: Global) -> bool {
    let long = repeated(alloc, "1", " ", 10_000);
    is_long_cut(long.as_str().as_bytes())
}

fn is_row(alloc: Global, line: &str) -> bool {
    let (word, rest) = cells(line, ' ');
    let (text, want) = cells(rest, '|');
    let kind = letter(word);
    match kind {
        b's' => is_spelled(alloc, text, want),
        b'r' => is_refused(alloc, rest.as_bytes()),
        b'i' => is_refused(alloc, &[b'1', 255]),
        b'l' => is_long_refused(alloc, rest),
        b'a' => !is_long_refused(alloc, rest),
        b'h' => is_huge(alloc, rest),
        b'o' | b'd' => are_versions(alloc, kind, rest),
        b'p' | b'n' | b'f' => is_pair(alloc, kind, rest),
        b'k' => is_class_row(rest.as_bytes()),
        b'c' => is_cut(rest),
        b'g' => is_cut_at_length(alloc),
        _ => is_version(alloc, kind, rest),
    }
}

#[test]
fn versions_and_cuts_are_as_told(rt: HostRuntime) {
    for line in ROWS.split(';') {
        assert!(rt; is_row(rt.alloc(), line), "{line}");
    }
}
