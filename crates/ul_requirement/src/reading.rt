//! Reading requirements from their texts.

ghost use Rattle.std.specs.Prelude.{◌≡◌, ◌≤◌, ◌<◌, ◌==◌, ℕ, ◌≢◌, IfOk, IfSome, IsTrue, drop, length, slice_index};
ghost use Rattle.std.specs.List.{list_all, slice_split};
ghost use Rattle.std.specs.List.Sorted.{IsStrictlySortedBy};
ghost use Rattle.ul_base.specs.Names as Names;
ghost use Rattle.ul_version.specs.Ascii.{comma, is_blank, text_between};
ghost use Rattle.ul_specifier.specs.Reading.{specifiers_of};
ghost use Rattle.ul_marker.specs.Reading.{marker_of};
ghost use Rattle.ul_requirement.specs.Answers.{IsReading, Reads, extras_view, front_view, names_view, optional_marker, pair_view, parts_view, tail_view, text_view};
ghost use Rattle.ul_requirement.specs.Fields.{MayBeFormula};
ghost use Rattle.ul_requirement.specs.Reading as spec;

use crate::fault::PartFault;
use crate::{ReqFault, Requirement};
use std::alloc::{AllocError, Global};
use std::collections::BTreeSet;
use ul_base::Name;
use ul_marker::Marker;
use ul_specifier::Specifiers;
use ul_version::ascii::{
    Blank, ByteClass, Only, White, after_run, begins, front_run, is_run, piece_len, trimmed,
};

/// The bytes of a name: letters, digits, `-`, `.` and `_`.
#[derive(Clone, Copy, Drop)]
struct NameByte;

impl ByteClass for NameByte {
    ghost use Rattle.ul_base.specs.Names.{is_name_byte};

    ghost has = { λ _ byte. is_name_byte byte };

    fn has(&self, byte: u8) -> bool {
        byte.is_ascii_alphanumeric() || (byte == b'-' || (byte == b'.' || byte == b'_'))
    }
}

/// The bytes that may stand behind the extras: printable ASCII, and tab.
#[derive(Clone, Copy, Drop)]
struct InnerByte;

impl ByteClass for InnerByte {
    ghost use Rattle.ul_requirement.specs.Reading.{is_inner_byte};

    ghost has = { λ _ byte. is_inner_byte byte };

    fn has(&self, byte: u8) -> bool {
        (b' ' <= byte && byte <= b'~') || byte == b'\t'
    }
}

/// The bytes of a URL: printable ASCII, but no space.
#[derive(Clone, Copy, Drop)]
struct UrlByte;

impl ByteClass for UrlByte {
    ghost use Rattle.ul_requirement.specs.Reading.{is_url_byte};

    ghost has = { λ _ byte. is_url_byte byte };

    fn has(&self, byte: u8) -> bool {
        b' ' < byte && byte <= b'~'
    }
}

// How many bytes stand before the first such byte, or in the whole text.
fn place_of(input: &[u8], byte: u8) -> usize
    ensures fits { result ≤ length input.now }
    ensures before { (k : ℕ) → k < result → slice_index input.now k ≢ byte }
    ensures found { result < length input.now → slice_index input.now result ≡ byte }
{
    for i in 0..input.len() {
        if input[i] == byte {
            return i;
        }
    }
    input.len()
}

// What stands before the first such byte and what after it.
fn cut_at(input: &[u8], byte: u8) -> Option<(&[u8], &[u8])>
    ensures { pair_view result ≡ spec.cut_at byte input.now }
{
    let n = place_of(input, byte);
    if n >= input.len() {
        return None;
    }
    Some((&input[..n], &input[n..][1..]))
}

// The name that bytes are.
fn name(alloc: Global, input: &[u8]) -> Result<Name, PartFault>
    ensures { Reads (λ n. n) result (Names.name_of input.now) }
{
    let Ok(text) = str::from_utf8(input) else {
        return Err(PartFault::NoReading);
    };
    let name = Name::read(alloc, text)?;
    Ok(name)
}

// The name that a piece is, without the blanks at its ends.
fn piece_name(alloc: Global, piece: &[u8]) -> Result<Name, PartFault>
    ensures { Reads (λ n. n) result (Names.name_of (text_between is_blank piece.now)) }
{
    name(alloc, trimmed(&Blank, piece))
}

// The names between commas.
fn names(alloc: Global, input: &[u8]) -> Result<Vec<Name>, PartFault>
    ensures { Reads names_view result (spec.names_of (slice_split (λ b. b == comma) input.now)) }
{
    let mut list = Vec::new(alloc);
    let mut rest = input;
    'pieces: loop {
        let n = piece_len(&Only { byte: b',' }, rest);
        let name = piece_name(alloc, &rest[..n])?;
        list.push(name)?;
        if n >= rest.len() {
            return Ok(list);
        }
        rest = &rest[n..][1..];
    }
}

// Names in their order, each once.
fn name_set(alloc: Global, names: Vec<Name>) -> Result<Vec<Name>, AllocError>
    ensures set { IfOk result (λ v. v.items ≡ spec.name_set names.items) }
    ensures rises { IfOk result (λ v. IsStrictlySortedBy Names.name_cmp v.items) }
{
    let mut set = BTreeSet::new(alloc);
    for name in names {
        set.insert(name)?;
    }
    set.into_iter().collect(alloc)
}

// The extras between brackets.
#[tactic(auto, unfolding(crate::specs::Reading::extras_in))]
fn extras_in(alloc: Global, input: &[u8]) -> Result<Vec<Name>, PartFault>
    ensures extras { Reads names_view result (spec.extras_in input.now) }
    ensures rises { IfOk result (λ v. IsStrictlySortedBy Names.name_cmp v.items) }
{
    let inside = trimmed(&Blank, input);
    if inside.is_empty() {
        return Ok(Vec::new(alloc));
    }
    let names = names(alloc, inside)?;
    let extras = name_set(alloc, names)?;
    Ok(extras)
}

// The extras in front, and the text after them.
#[tactic(auto, unfolding(crate::specs::Reading::extras_front))]
fn extras_front(alloc: Global, input: &[u8]) -> Result<(Vec<Name>, &[u8]), PartFault>
    ensures extras { Reads extras_view result (spec.extras_front input.now) }
    ensures rises { IfOk result (λ p. IsStrictlySortedBy Names.name_cmp p.0.items) }
{
    let [byte, text @ ..] = input else {
        return Ok((Vec::new(alloc), input));
    };
    if *byte != b'[' {
        return Ok((Vec::new(alloc), input));
    }
    let Some((inside, rest)) = cut_at(text, b']') else {
        return Err(PartFault::NoReading);
    };
    let extras = extras_in(alloc, inside)?;
    Ok((extras, rest))
}

// The name and the extras in front, and the text behind them.
#[tactic(auto, unfolding(crate::specs::Reading::front_of))]
fn front(alloc: Global, input: &[u8]) -> Result<(Name, Vec<Name>, &[u8]), PartFault>
    ensures front { Reads front_view result (spec.front_of input.now) }
    ensures rises { IfOk result (λ p. IsStrictlySortedBy Names.name_cmp p.1.items) }
{
    let (text, behind) = front_run(&NameByte, input);
    let name = name(alloc, text)?;
    let (extras, rest) = extras_front(alloc, after_run(&Blank, behind))?;
    Ok((name, extras, after_run(&Blank, rest)))
}

// The specifiers of a text.
fn clauses(alloc: Global, text: &[u8]) -> Result<Specifiers, PartFault>
    requires { IsTrue (list_all spec.is_inner_byte text.now) }
    ensures { Reads (λ s. s) result (specifiers_of text.now) }
{
    let Ok(text) = str::from_utf8(text) else {
        return Err(PartFault::NoReading);
    };
    let specifiers = Specifiers::read(alloc, text)?;
    Ok(specifiers)
}

// The specifiers of a text, which may stand in parentheses.
#[tactic(auto, unfolding(crate::specs::Reading::specifiers_in))]
fn specifiers_in(alloc: Global, input: &[u8]) -> Result<Specifiers, PartFault>
    requires { IsTrue (list_all spec.is_inner_byte input.now) }
    ensures { Reads (λ s. s) result (spec.specifiers_in input.now) }
{
    let [byte, text @ ..] = input else {
        return Ok(Specifiers {
            clauses: Vec::new(alloc),
        });
    };
    if *byte != b'(' {
        return clauses(alloc, input);
    }
    let Some(inside) = text.strip_suffix(b")") else {
        return Err(PartFault::NoReading);
    };
    clauses(alloc, inside)
}

// The marker of a text, where there is one.
#[tactic(auto, unfolding(crate::specs::Reading::marker_in))]
fn marker_in(alloc: Global, input: Option<&[u8]>) -> Result<Option<Marker>, PartFault>
    requires { IfSome input (λ text. IsTrue (list_all spec.is_inner_byte text.now)) }
    ensures marker { Reads optional_marker result (spec.marker_in (text_view input.entry)) }
    ensures valid { IfOk result (λ m. MayBeFormula (optional_marker m)) }
{
    let Some(text) = input else {
        return Ok(None);
    };
    let Ok(text) = str::from_utf8(text) else {
        return Err(PartFault::NoReading);
    };
    let marker = Marker::read(alloc, text)?;
    Ok(Some(marker))
}

// The text before the first semicolon, and the text after it.
fn parts(input: &[u8]) -> (&[u8], Option<&[u8]>)
    ensures { parts_view result ≡ spec.parts_of input.now }
{
    match cut_at(input, b';') {
        Some((front, marker)) => (front, Some(marker)),
        None => (input, None),
    }
}

// The specifiers and the marker behind a name and its extras.
#[tactic(auto, unfolding(crate::specs::Reading::tail_of))]
fn tail(alloc: Global, input: &[u8]) -> Result<(Specifiers, Option<Marker>), PartFault>
    ensures tail { Reads tail_view result (spec.tail_of input.now) }
    ensures valid { IfOk result (λ p. MayBeFormula (optional_marker p.1)) }
{
    if !is_run(&InnerByte, input) {
        return Err(PartFault::NoReading);
    }
    let (front, marker) = parts(input);
    let specifiers = specifiers_in(alloc, trimmed(&Blank, front))?;
    let marker = marker_in(alloc, marker)?;
    Ok((specifiers, marker))
}

// The marker behind a URL and blanks.
#[tactic(auto, unfolding(crate::specs::Reading::marker_behind))]
fn marker_behind(alloc: Global, input: &[u8]) -> Result<Option<Marker>, PartFault>
    requires { IsTrue (list_all spec.is_inner_byte input.now) }
    ensures marker { Reads optional_marker result (spec.marker_behind input.now) }
    ensures valid { IfOk result (λ m. MayBeFormula (optional_marker m)) }
{
    let [byte, text @ ..] = input else {
        return Ok(None);
    };
    if *byte != b';' {
        return Err(PartFault::NoReading);
    }
    marker_in(alloc, Some(text))
}

// The marker behind a URL.
#[tactic(auto, unfolding(crate::specs::Reading::url_marker))]
fn url_marker(alloc: Global, input: &[u8]) -> Result<Option<Marker>, PartFault>
    ensures marker { Reads optional_marker result (spec.url_marker input.now) }
    ensures valid { IfOk result (λ m. MayBeFormula (optional_marker m)) }
{
    if !is_run(&InnerByte, input) {
        return Err(PartFault::NoReading);
    }
    if !begins(&UrlByte, input) {
        return Err(PartFault::NoReading);
    }
    marker_behind(alloc, after_run(&Blank, after_run(&UrlByte, input)))
}

// The text behind its first byte.
fn after_first(input: &[u8]) -> &[u8]
    ensures { result.now ≡ drop 1 input.now }
{
    match input {
        [_, rest @ ..] => rest,
        [] => input,
    }
}

// The requirement by a URL that a text without white space at its ends spells.
fn address(alloc: Global, input: &[u8]) -> Result<Requirement, PartFault>
    ensures { Reads (λ q. q) result (spec.read_address (spec.reading_behind (spec.front_of input.now))) }
{
    let (name, extras, rest) = front(alloc, input)?;
    if !begins(&Only { byte: b'@' }, rest) {
        return Err(PartFault::NoReading);
    }
    let marker = url_marker(alloc, after_run(&Blank, after_first(rest)))?;
    Ok(Requirement {
        name,
        extras,
        specifiers: Specifiers {
            clauses: Vec::new(alloc),
        },
        marker,
    })
}

impl Requirement {
    /// The requirement that a text spells, by the grammar of PEP 508.
    ///
    /// A name may be followed by extras in brackets, by specifiers, which may stand in parentheses, and by a
    /// semicolon with a marker. Space and tab may stand between all parts, and white space at both ends of
    /// the text is dropped. Empty parentheses, which PEP 508 doesn't have, are read as no specifiers. `Url` is
    /// the answer exactly where `@` follows the name or the extras, and `NoReading` exactly where the text
    /// has no other reading.
    #[tactic(auto, unfolding(crate::specs::Reading::reading_of))]
    pub fn read(alloc: Global, text: &str) -> Result<Requirement, ReqFault>
        ensures { IsReading result (spec.reading_of text.now) }
    {
        let input = trimmed(&White, text.as_bytes());
        let (name, extras, rest) = front(alloc, input)?;
        if begins(&Only { byte: b'@' }, rest) {
            return Err(ReqFault::Url);
        }
        let (specifiers, marker) = tail(alloc, rest)?;
        Ok(Requirement {
            name,
            extras,
            specifiers,
            marker,
        })
    }

    /// What a text by a URL requires: any version of its name, with its extras, where its marker holds.
    ///
    /// There is none where the text isn't one by a URL, and none where it hasn't the form of PEP 508: behind `@` a URL
    /// stands, which is one or more printable bytes of ASCII without space, and behind that there may be a semicolon,
    /// before which space or tab stands, with a marker. The only error is want of memory.
    #[tactic(auto, unfolding(crate::specs::Reading::reading_of))]
    pub fn by_url(alloc: Global, text: &str) -> Result<Option<Requirement>, AllocError>
        ensures { IfOk result (λ q. q ≡ spec.read_address (spec.reading_of text.now)) }
    {
        match address(alloc, trimmed(&White, text.as_bytes())) {
            Ok(requirement) => Ok(Some(requirement)),
            Err(PartFault::NoReading) => Ok(None),
            Err(PartFault::NoMemory) => Err(AllocError),
        }
    }
}
