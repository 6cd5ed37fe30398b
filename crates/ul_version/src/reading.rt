//! Reading a version from a text.
//!
//! Each part is cut from the front of the text, and an ASCII letter is read as its lower case.

ghost use Rattle.std.specs.Prelude.{◌≡◌, ◌<◌, ◌+◌, ◌*◌, ◌-◌, ◌^◌, ◌≤◌, ◌&&◌, ◌==◌, IfSome, IfNone, IfOk, IfErr, IsTrue, Some, None, length, take, drop, ◌∷◌, []};
ghost use Rattle.std.specs.Char.{is_ascii_digit};
ghost use Rattle.std.specs.List.{list_all};
ghost use Rattle.ul_version.specs.Fields.{is_word_byte, IsVersion};
ghost use Rattle.ul_version.specs.Reading as spec;
ghost use Rattle.ul_version.specs.Ascii.{letter_v};
ghost use Rattle.ul_version.specs.Reading.{begins, lowercase_text, pieces_of};
ghost use Rattle.ul_version.specs.Views.{cut_view, rest_view, Reads, release_view, segments_view};

use crate::ascii::{Alphanumeric, ByteClass, Digit, Separator, White, is_run, piece_len, trimmed};
use crate::{Pre, PreKind, Segment, Text, Version, VersionFault, ascii};
use std::alloc::{AllocError, Global};

fn after_separator(input: &[u8]) -> &[u8]
    ensures { lowercase_text result.now ≡ spec.after_optional spec.is_separator (lowercase_text input.now) }
{
    match input {
        [byte, rest @ ..] if Separator.has(*byte) => rest,
        _ => input,
    }
}

fn after_v(input: &[u8]) -> &[u8]
    ensures { lowercase_text result.now ≡ spec.after_optional (λ b. b == letter_v) (lowercase_text input.now) }
{
    match input {
        [byte, rest @ ..] if byte.to_ascii_lowercase() == b'v' => rest,
        _ => input,
    }
}

fn begins_with_digit(input: &[u8]) -> bool
    ensures { result ≡ begins is_ascii_digit (lowercase_text input.now) }
{
    ascii::begins(&Digit, input)
}

// The number `value` with one digit more, if that fits.
fn next_value(value: u64, digit: u8) -> Option<u64>
    requires { 48 ≤ digit }
    ensures none { IfNone result (2 ^ 64 ≤ value * 10 + (digit - 48)) }
    ensures some { IfSome result (λ sum. (sum ≡ value * 10 + (digit - 48)) × (sum < 2 ^ 64)) }
{
    let tens = value.checked_mul(10)?;
    tens.checked_add(u64::from(digit - b'0'))
}

// The number in front, which is 0 where there is no digit.
fn number(input: &[u8]) -> Option<(u64, &[u8])>
    ensures { cut_view result ≡ spec.number (lowercase_text input.now) }
{
    let mut value = 0u64;
    'digits: for i in 0..input.len() {
        let digit = input[i];
        if !digit.is_ascii_digit() {
            return Some((value, &input[i..]));
        }
        let Some(sum) = next_value(value, digit) else {
            return None;
        };
        value = sum;
    }
    Some((value, &input[input.len()..]))
}

// The text after the word, where the word stands in front.
fn after_word<'a>(input: &'a [u8], word: &[u8]) -> Option<&'a [u8]>
    ensures { rest_view result ≡ spec.after_word word.now (lowercase_text input.now) }
{
    if input.len() < word.len() {
        return None;
    }
    for i in 0..word.len() {
        if input[i].to_ascii_lowercase() != word[i] {
            return None;
        }
    }
    Some(&input[word.len()..])
}

// A number that must be there.
#[tactic(auto, unfolding(crate::specs::Reading::required_number))]
fn needed(input: &[u8]) -> Option<(u64, &[u8])>
    ensures { cut_view result ≡ spec.required_number (lowercase_text input.now) }
{
    if begins_with_digit(input) {
        number(input)
    } else {
        None
    }
}

// The text from its digits on, where the mark and a digit stand in front.
#[tactic(auto, unfolding(crate::specs::Reading::marked_digits))]
fn marked<'a>(input: &'a [u8], mark: &[u8]) -> Option<&'a [u8]>
    ensures { rest_view result ≡ spec.marked_digits mark.now (lowercase_text input.now) }
{
    let rest = after_word(input, mark)?;
    if begins_with_digit(rest) {
        Some(rest)
    } else {
        None
    }
}

// The epoch, which is 0 where there is none.
#[tactic(auto, unfolding(crate::specs::Reading::epoch))]
fn epoch(input: &[u8]) -> Option<(u64, &[u8])>
    ensures { cut_view result ≡ spec.epoch (lowercase_text input.now) }
{
    if !begins_with_digit(input) {
        return Some((0, input));
    }
    let (number, rest) = number(input)?;
    match after_word(rest, b"!") {
        None => Some((0, input)),
        Some(after) => Some((number, after)),
    }
}

// The kind of pre-release whose word stands in front, and the text after the word.
fn any_kind(input: &[u8]) -> Option<(PreKind, &[u8])>
    ensures { cut_view result ≡ spec.any_kind (lowercase_text input.now) }
{
    if let Some(rest) = after_either(input, b"alpha", b"a") {
        return Some((PreKind::A, rest));
    }
    if let Some(rest) = after_either(input, b"beta", b"b") {
        return Some((PreKind::B, rest));
    }
    if let Some(rest) = after_either(input, b"preview", b"pre") {
        return Some((PreKind::Rc, rest));
    }
    if let Some(rest) = after_either(input, b"rc", b"c") {
        return Some((PreKind::Rc, rest));
    }
    None
}

// The text after the first of two words that stands in front.
fn after_either<'a>(input: &'a [u8], first: &[u8], second: &[u8]) -> Option<&'a [u8]>
    ensures { rest_view result
        ≡ spec.or_else (spec.after_word first.now (lowercase_text input.now)) (spec.after_word second.now (lowercase_text input.now)) }
{
    match after_word(input, first) {
        Some(rest) => Some(rest),
        None => after_word(input, second),
    }
}

// The number of a pre, post or dev part after its word.
fn suffix_number(input: &[u8]) -> Option<(u64, &[u8])>
    ensures { cut_view result ≡ spec.suffix_number (lowercase_text input.now) }
{
    number(after_separator(input))
}

#[tactic(auto, unfolding(crate::specs::Reading::pre))]
fn pre(input: &[u8]) -> Option<(Option<Pre>, &[u8])>
    ensures { cut_view result ≡ spec.pre (lowercase_text input.now) }
{
    let Some((kind, rest)) = any_kind(after_separator(input)) else {
        return Some((None, input));
    };
    let (number, rest) = suffix_number(rest)?;
    Some((Some(Pre { kind, number }), rest))
}

#[tactic(auto, unfolding(crate::specs::Reading::post))]
fn post(input: &[u8]) -> Option<(Option<u64>, &[u8])>
    ensures { cut_view result ≡ spec.post (lowercase_text input.now) }
{
    if let Some(rest) = marked(input, b"-") {
        let (number, rest) = number(rest)?;
        return Some((Some(number), rest));
    }
    match post_word(after_separator(input)) {
        None => Some((None, input)),
        Some(rest) => {
            let (number, rest) = suffix_number(rest)?;
            Some((Some(number), rest))
        }
    }
}

// The text after the word of a post-release, where one stands in front.
fn post_word(input: &[u8]) -> Option<&[u8]>
    ensures { rest_view result ≡ spec.after_any spec.post_words (lowercase_text input.now) }
{
    match after_word(input, b"post") {
        Some(rest) => Some(rest),
        None => after_either(input, b"rev", b"r"),
    }
}

#[tactic(auto, unfolding(crate::specs::Reading::dev))]
fn dev(input: &[u8]) -> Option<(Option<u64>, &[u8])>
    ensures { cut_view result ≡ spec.dev (lowercase_text input.now) }
{
    match after_word(after_separator(input), b"dev") {
        None => Some((None, input)),
        Some(rest) => {
            let (number, rest) = suffix_number(rest)?;
            Some((Some(number), rest))
        }
    }
}

// The numbers of a release, and the text after it.
fn release(alloc: Global, input: &[u8]) -> Result<(Vec<u64>, &[u8]), VersionFault>
    ensures { Reads release_view result (spec.release (lowercase_text input.now)) }
{
    let Some((first, mut rest)) = needed(input) else {
        return Err(VersionFault::NoReading);
    };
    let mut numbers = vec![in alloc; first]?;
    'numbers: for _round in 0..input.len() {
        let Some(digits) = marked(rest, b".") else {
            return Ok((numbers, rest));
        };
        let Some((number, after)) = number(digits) else {
            return Err(VersionFault::NoReading);
        };
        numbers.push(number)?;
        rest = after;
    }
    Ok((numbers, rest))
}

// Whether each byte is a letter or a digit.
fn is_alphanumeric(piece: &[u8]) -> bool
    ensures { result ≡ list_all is_word_byte (lowercase_text piece.now) }
{
    is_run(&Alphanumeric, piece)
}

fn is_numeric(piece: &[u8]) -> bool
    ensures { result ≡ list_all is_ascii_digit (lowercase_text piece.now) }
{
    is_run(&Digit, piece)
}

// The text in which letters are lower case.
fn lower_text(alloc: Global, piece: &[u8]) -> Result<Text, AllocError>
    requires { IsTrue (list_all is_word_byte (lowercase_text piece.now)) }
    ensures { IfOk result (λ t. t ≡ lowercase_text piece.now) }
{
    let mut text = String::with_capacity(alloc, piece.len())?;
    for byte in piece {
        text.push(char::from(byte.to_ascii_lowercase()))?;
    }
    Ok(Text::of(text))
}

// One segment of a local part.
#[tactic(auto, unfolding(crate::specs::Reading::segment))]
fn segment(alloc: Global, piece: &[u8]) -> Result<Segment, VersionFault>
    ensures { Reads (λ s. s) result (spec.segment (lowercase_text piece.now)) }
{
    if piece.is_empty() || !is_alphanumeric(piece) {
        return Err(VersionFault::NoReading);
    }
    if !is_numeric(piece) {
        return Ok(Segment::Word(lower_text(alloc, piece)?));
    }
    match number(piece) {
        None => Err(VersionFault::NoReading),
        Some((number, _)) => Ok(Segment::Number(number)),
    }
}

// The length of the text before the first separator, or of the whole text.
fn segment_len(input: &[u8]) -> usize
    ensures fits { result ≤ length input.now }
    ensures last { length input.now ≤ result → pieces_of (lowercase_text input.now) ≡ lowercase_text input.now ∷ [] }
    ensures more { result < length input.now → pieces_of (lowercase_text input.now)
        ≡ lowercase_text (take result input.now) ∷ pieces_of (lowercase_text (drop (result + 1) input.now)) }
{
    piece_len(&Separator, input)
}

// The segments of a local part, between single separators.
fn segments(alloc: Global, input: &[u8]) -> Result<Vec<Segment>, VersionFault>
    ensures { Reads segments_view result (spec.segments (pieces_of (lowercase_text input.now))) }
{
    let mut list = Vec::new(alloc);
    let mut rest = input;
    'pieces: loop {
        let count = segment_len(rest);
        let piece = segment(alloc, &rest[..count])?;
        list.push(piece)?;
        if count >= rest.len() {
            return Ok(list);
        }
        rest = &rest[count..][1..];
    }
}

// The local part, which ends the text.
#[tactic(auto, unfolding(crate::specs::Reading::local))]
fn local(alloc: Global, input: &[u8]) -> Result<Vec<Segment>, VersionFault>
    ensures { Reads segments_view result (spec.local (lowercase_text input.now)) }
{
    match input {
        [] => Ok(Vec::new(alloc)),
        [b'+', rest @ ..] => segments(alloc, rest),
        _ => Err(VersionFault::NoReading),
    }
}

impl Version {
    /// The version that a text spells, by PEP 440's grammar with all the spellings that it normalizes.
    ///
    /// White space at both ends is dropped, and letters may be of either case. Each part takes as much of
    /// the text as it can. `NoReading` is the answer exactly where the text has no reading, among them
    /// every text with a number of 2^64 or more.
    pub fn read(alloc: Global, text: &str) -> Result<Version, VersionFault>
        ensures read { IfOk result (λ v. spec.version_of text.now ≡ Some v) }
        ensures valid { IfOk result IsVersion }
        ensures no_reading { IfErr result (λ e. e ≡ VersionFault.NoReading → spec.version_of text.now ≡ None) }
    {
        Version::read_bytes(alloc, text.as_bytes())
    }

    /// The version that these bytes spell, as `read` has it of a text. Bytes that are no text have no reading.
    #[tactic(auto, unfolding(crate::specs::Reading::version_of, crate::specs::Reading::fields_of, crate::specs::Reading::after_white, crate::specs::Reading::before_white))]
    pub fn read_bytes(alloc: Global, text: &[u8]) -> Result<Version, VersionFault>
        ensures read { IfOk result (λ v. spec.version_of text.now ≡ Some v) }
        ensures valid { IfOk result IsVersion }
        ensures no_reading { IfErr result (λ e. e ≡ VersionFault.NoReading → spec.version_of text.now ≡ None) }
    {
        let input = after_v(trimmed(&White, text));
        let Some((epoch, rest)) = epoch(input) else {
            return Err(VersionFault::NoReading);
        };
        let (release, rest) = release(alloc, rest)?;
        let Some((pre, rest)) = pre(rest) else {
            return Err(VersionFault::NoReading);
        };
        let Some((post, rest)) = post(rest) else {
            return Err(VersionFault::NoReading);
        };
        let Some((dev, rest)) = dev(rest) else {
            return Err(VersionFault::NoReading);
        };
        let local = local(alloc, rest)?;
        Ok(Version {
            epoch,
            release,
            pre,
            post,
            dev,
            local,
        })
    }
}
