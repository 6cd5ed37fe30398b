//! Bytes of ASCII, and texts that are cut by them.
//!
//! A class of bytes is white space, digits, one byte, or a class of a reader's own. The functions cut a text at the
//! bytes of a class, and take no memory.
ghost use Rattle.std.specs.Prelude.{◌≡◌, ◌≤◌, ◌<◌, ◌+◌, ◌∷◌, [], ℕ, Bool, IsTrue, Ok, codes, drop, length, option_map, take};
ghost use Rattle.std.specs.List.{list_all, slice_split};
ghost use Rattle.ul_version.specs.Ascii;
ghost use Rattle.ul_version.specs.Ascii.{after_all, after_front, before_all, before_end, run_length, text_between};

/// A class of bytes.
pub trait ByteClass {
    /// Which bytes it has.
    ghost has: { Self → ℕ → Bool };

    /// Whether it has a byte.
    fn has(&self, byte: u8) -> bool
        ensures { result ≡ has self.now byte };
}

/// Space and the five bytes from tab to carriage return.
///
/// White space of ASCII as it stands at the ends of versions (PEP 440) and of requirements and markers (PEP 508).
#[derive(Clone, Copy, Drop)]
pub struct White;

impl ByteClass for White {
    ghost use Rattle.ul_version.specs.Ascii.{is_white};

    ghost has = { λ _ byte. is_white byte };

    fn has(&self, byte: u8) -> bool {
        byte == b' ' || (b'\t' <= byte && byte <= b'\r')
    }
}

/// Space and tab, as they stand inside specifiers, requirements and markers (PEP 508).
#[derive(Clone, Copy, Drop)]
pub struct Blank;

impl ByteClass for Blank {
    ghost use Rattle.ul_version.specs.Ascii.{is_blank};

    ghost has = { λ _ byte. is_blank byte };

    fn has(&self, byte: u8) -> bool {
        byte == b' ' || byte == b'\t'
    }
}

/// The digits `0` to `9`.
#[derive(Clone, Copy, Drop)]
pub struct Digit;

impl ByteClass for Digit {
    ghost use Rattle.std.specs.Char.{is_ascii_digit};

    ghost has = { λ _ byte. is_ascii_digit byte };

    fn has(&self, byte: u8) -> bool {
        byte.is_ascii_digit()
    }
}

/// The letters of ASCII, of either case.
#[derive(Clone, Copy, Drop)]
pub struct Letter;

impl ByteClass for Letter {
    ghost use Rattle.std.specs.Char.{is_ascii_alphabetic};

    ghost has = { λ _ byte. is_ascii_alphabetic byte };

    fn has(&self, byte: u8) -> bool {
        byte.is_ascii_alphabetic()
    }
}

/// The letters and digits of ASCII.
#[derive(Clone, Copy, Drop)]
pub struct Alphanumeric;

impl ByteClass for Alphanumeric {
    ghost use Rattle.std.specs.Char.{is_ascii_alphanumeric};

    ghost has = { λ _ byte. is_ascii_alphanumeric byte };

    fn has(&self, byte: u8) -> bool {
        byte.is_ascii_alphanumeric()
    }
}

/// The separators of versions and names: `.`, `-` and `_`.
#[derive(Clone, Copy, Drop)]
pub struct Separator;

impl ByteClass for Separator {
    ghost use Rattle.ul_version.specs.Ascii.{is_separator};

    ghost has = { λ _ byte. is_separator byte };

    fn has(&self, byte: u8) -> bool {
        byte == b'.' || (byte == b'-' || byte == b'_')
    }
}

/// One byte alone.
#[derive(Clone, Copy, Drop)]
pub struct Only {
    /// The byte.
    pub byte: u8,
}

impl ByteClass for Only {
    ghost use Rattle.std.specs.Prelude.{◌==◌};

    ghost has = { λ class byte. byte == class.byte };

    fn has(&self, byte: u8) -> bool {
        byte == self.byte
    }
}

/// How many bytes in front are of a class, one behind the other.
pub fn run_len<C: ByteClass>(class: &C, text: &[u8]) -> usize
    ensures length { result ≡ run_length (C.has class.now) text.now }
    ensures fits { result ≤ length text.now }
{
    for i in 0..text.len() {
        if !class.has(text[i]) {
            return i;
        }
    }
    text.len()
}

/// The bytes in front that are of a class, and the text after them.
pub fn front_run<'a, C: ByteClass>(class: &C, text: &'a [u8]) -> (&'a [u8], &'a [u8])
    ensures run { result.0.now ≡ take (run_length (C.has class.now) text.now) text.now }
    ensures rest { result.1.now ≡ drop (run_length (C.has class.now) text.now) text.now }
{
    let count = run_len(class, text);
    (&text[..count], &text[count..])
}

/// The text without the bytes in front that are of a class.
pub fn after_run<'a, C: ByteClass>(class: &C, text: &'a [u8]) -> &'a [u8]
    ensures { result.now ≡ after_all (C.has class.now) text.now }
{
    let count = run_len(class, text);
    &text[count..]
}

/// The text without the bytes at its end that are of a class.
pub fn before_run<'a, C: ByteClass>(class: &C, text: &'a [u8]) -> &'a [u8]
    ensures { result.now ≡ before_all (C.has class.now) text.now }
{
    let mut end = text.len();
    while end > 0 && class.has(text[end - 1]) {
        end -= 1;
    }
    &text[..end]
}

/// The text without the bytes at both ends that are of a class.
pub fn trimmed<'a, C: ByteClass>(class: &C, text: &'a [u8]) -> &'a [u8]
    ensures { result.now ≡ text_between (C.has class.now) text.now }
{
    before_run(class, after_run(class, text))
}

/// Whether each byte is of a class.
pub fn is_run<C: ByteClass>(class: &C, text: &[u8]) -> bool
    ensures { result ≡ list_all (C.has class.now) text.now }
{
    for i in 0..text.len() {
        if !class.has(text[i]) {
            return false;
        }
    }
    true
}

/// Whether a byte of a class stands in front.
pub fn begins<C: ByteClass>(class: &C, text: &[u8]) -> bool
    ensures { result ≡ Ascii.begins (C.has class.now) text.now }
{
    match text {
        [byte, ..] => class.has(*byte),
        [] => false,
    }
}

/// The length of the text before the first byte of a class, or of the whole text.
pub fn piece_len<C: ByteClass>(class: &C, text: &[u8]) -> usize
    ensures fits { result ≤ length text.now }
    ensures last { length text.now ≤ result → slice_split (C.has class.now) text.now ≡ text.now ∷ [] }
    ensures more { result < length text.now → slice_split (C.has class.now) text.now
        ≡ take result text.now ∷ slice_split (C.has class.now) (drop (result + 1) text.now) }
{
    for i in 0..text.len() {
        if class.has(text[i]) {
            return i;
        }
    }
    text.len()
}

/// The text after a word, where the text begins with it.
pub fn after_word<'a>(text: &'a [u8], word: &[u8]) -> Option<&'a [u8]>
    ensures { option_map (λ rest. rest.now) result ≡ after_front word.now text.now }
{
    text.strip_prefix(word)
}

/// The text before a word, where the text ends with it.
pub fn before_word<'a>(text: &'a [u8], word: &[u8]) -> Option<&'a [u8]>
    ensures { option_map (λ rest. rest.now) result ≡ before_end word.now text.now }
{
    text.strip_suffix(word)
}
