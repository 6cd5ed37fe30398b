//! The tokens of a marker's text.

ghost use Rattle.std.specs.Prelude.{◌≡◌, ◌≤◌, ◌<◌, ◌+◌, ◌^◌, Some, true, length};
ghost use Rattle.std.specs.List.{list_all, list_any};
ghost use Rattle.std.specs.Str.{bytes_eq};
ghost use Rattle.ul_comparison.specs.Atoms.{is_literal};
ghost use Rattle.ul_marker.specs.Readers.{front_view, optional_bytes, optional_front, Reads, ReadsTokens};
ghost use Rattle.ul_marker.specs.Reading;
ghost use Rattle.ul_marker.specs.Words as Grammar;

use crate::{MarkerFault, Variable};
use std::alloc::{AllocError, Global};
use std::marker::Model;
use ul_base::owned::with_one;
use ul_comparison::is_literal_byte;
use ul_specifier::{Op, after_space, operator};
use ul_version::ascii::{ByteClass, White, run_len};

/// How many parentheses may be open at one place.
pub const MAX_DEPTH: u8 = 64;

/// Where a marker stands, which says which of the variables `extra` and `extras` it may have.
#[derive(Clone, Copy)]
pub enum Dialect {
    /// In a document: `extra` alone (PEP 508).
    Document,
    /// In a lock: `extras` alone (PEP 751).
    Lock,
    /// In what this program prints: both.
    Printed,
}

/// The text of a literal: printable ASCII without the backslash, and not with both quotes.
///
/// Contracts see it as its bytes.
#[derive(Drop)]
pub struct Literal {
    text: String,
}

impl Model for Literal {
    ghost use Rattle.std.specs.Prelude.{◌≡◌, true, List, ℕ, string_bytes};
    ghost use Rattle.ul_comparison.specs.Atoms.{is_literal};

    ghost Value = { List ℕ };

    ghost view = { λ l. string_bytes l.text };

    ghost invariant = { λ l. is_literal (string_bytes l.text) ≡ true };
}

impl Literal {
    /// The text itself.
    pub fn as_str(&self) -> &str
        ensures text { result.now ≡ self.now }
        ensures literal { is_literal self.now ≡ true }
    {
        self.text.as_str()
    }
}

/// A token of a marker's text.
#[derive(Drop)]
pub enum Token {
    /// `(`
    Open,
    /// `)`
    Close,
    /// `and`
    And,
    /// `or`
    Or,
    /// `in`
    In,
    /// `not`
    Not,
    /// `extra`
    Extra,
    /// The name of a variable, in its newer or its older spelling.
    Named(Variable),
    /// The sign of a comparison.
    Sign(Op),
    /// A literal, without its quotes.
    Literal(Literal),
}

fn is_quote(byte: u8) -> bool
    ensures { result ≡ Grammar.is_quote byte }
{
    byte == b'\'' || byte == b'"'
}

fn is_sign_byte(byte: u8) -> bool
    ensures { result ≡ Grammar.is_sign_byte byte }
{
    byte == b'<' || (byte == b'>' || (byte == b'=' || (byte == b'!' || byte == b'~')))
}

/// The bytes of words.
#[derive(Clone, Copy, Drop)]
struct WordByte;

impl ByteClass for WordByte {
    ghost use Rattle.ul_marker.specs.Words.{is_word_byte};

    ghost has = { λ _ byte. is_word_byte byte };

    fn has(&self, byte: u8) -> bool {
        !(White.has(byte)
            || (byte == b'(' || (byte == b')' || (is_quote(byte) || is_sign_byte(byte)))))
    }
}

/// The bytes that stand in a literal with this quote.
#[derive(Clone, Copy, Drop)]
struct Quoted {
    quote: u8,
}

impl ByteClass for Quoted {
    ghost use Rattle.ul_marker.specs.Words.{is_quoted};

    ghost has = { λ class byte. is_quoted class.quote byte };

    fn has(&self, byte: u8) -> bool {
        is_literal_byte(byte) && byte != self.quote
    }
}

fn is_same(word: &[u8], other: &[u8]) -> bool
    ensures { result ≡ bytes_eq word.now other.now }
{
    word == other
}

fn keyword(word: &[u8]) -> Option<Token>
    ensures { result ≡ Grammar.table_token Grammar.keywords word.now }
{
    if is_same(word, b"and") {
        return Some(Token::And);
    }
    if is_same(word, b"or") {
        return Some(Token::Or);
    }
    if is_same(word, b"in") {
        return Some(Token::In);
    }
    if is_same(word, b"not") {
        return Some(Token::Not);
    }
    if is_same(word, b"extra") {
        return Some(Token::Extra);
    }
    None
}

fn variable(word: &[u8]) -> Option<Token>
    ensures { result ≡ Grammar.table_token Grammar.variables word.now }
{
    if is_same(word, b"os_name") {
        return Some(Token::Named(Variable::OsName));
    }
    if is_same(word, b"sys_platform") {
        return Some(Token::Named(Variable::SysPlatform));
    }
    if is_same(word, b"platform_machine") {
        return Some(Token::Named(Variable::PlatformMachine));
    }
    if is_same(word, b"platform_python_implementation") {
        return Some(Token::Named(Variable::PlatformPythonImplementation));
    }
    if is_same(word, b"platform_release") {
        return Some(Token::Named(Variable::PlatformRelease));
    }
    if is_same(word, b"platform_system") {
        return Some(Token::Named(Variable::PlatformSystem));
    }
    if is_same(word, b"platform_version") {
        return Some(Token::Named(Variable::PlatformVersion));
    }
    if is_same(word, b"python_version") {
        return Some(Token::Named(Variable::PythonVersion));
    }
    if is_same(word, b"python_full_version") {
        return Some(Token::Named(Variable::PythonFullVersion));
    }
    if is_same(word, b"implementation_name") {
        return Some(Token::Named(Variable::ImplementationName));
    }
    if is_same(word, b"implementation_version") {
        return Some(Token::Named(Variable::ImplementationVersion));
    }
    if is_same(word, b"extras") {
        return Some(Token::Named(Variable::Extras));
    }
    None
}

// A variable in its older spelling.
fn old_variable(word: &[u8]) -> Option<Token>
    ensures { result ≡ Grammar.table_token Grammar.old_variables word.now }
{
    if is_same(word, b"os.name") {
        return Some(Token::Named(Variable::OsName));
    }
    if is_same(word, b"sys.platform") {
        return Some(Token::Named(Variable::SysPlatform));
    }
    if is_same(word, b"platform.version") {
        return Some(Token::Named(Variable::PlatformVersion));
    }
    if is_same(word, b"platform.machine") {
        return Some(Token::Named(Variable::PlatformMachine));
    }
    if is_same(word, b"platform.python_implementation") {
        return Some(Token::Named(Variable::PlatformPythonImplementation));
    }
    if is_same(word, b"python_implementation") {
        return Some(Token::Named(Variable::PlatformPythonImplementation));
    }
    None
}

#[tactic(auto, unfolding(crate::specs::Words::word_token))]
fn word_token(word: &[u8]) -> Option<Token>
    ensures { result ≡ Grammar.word_token word.now }
{
    if let Some(token) = keyword(word) {
        return Some(token);
    }
    if let Some(token) = variable(word) {
        return Some(token);
    }
    old_variable(word)
}

// The word in front, and the text after it.
#[tactic(auto, unfolding(crate::specs::Words::front_word))]
fn front_word(input: &[u8]) -> Option<(Token, &[u8])>
    ensures { optional_front result ≡ Grammar.front_word input.now }
{
    let n = run_len(&WordByte, input);
    let token = word_token(&input[..n])?;
    Some((token, &input[n..]))
}

// The token of the sign in front, and the text after it.
#[tactic(auto, unfolding(crate::specs::Words::front_sign))]
fn front_sign(input: &[u8]) -> Option<(Token, &[u8])>
    ensures { optional_front result ≡ Grammar.front_sign input.now }
{
    let (op, rest) = operator(input)?;
    Some((Token::Sign(op), rest))
}

// The literal of bytes that stand in one.
fn literal_text(alloc: Global, quote: u8, bytes: &[u8]) -> Result<Literal, MarkerFault>
    requires quote { Grammar.is_quote quote ≡ true }
    requires bytes { list_all (Grammar.is_quoted quote) bytes.now ≡ true }
    ensures { Reads (λ l. l) result (Some bytes.now) }
{
    let Ok(text) = str::from_utf8(bytes) else {
        return Err(MarkerFault::NoReading);
    };
    let text = String::from_str(alloc, text)?;
    Ok(Literal { text })
}

// The literal in front, after its first quote, and the text after it.
#[tactic(auto, unfolding(crate::specs::Words::front_literal))]
fn front_literal(alloc: Global, quote: u8, input: &[u8]) -> Result<(Token, &[u8]), MarkerFault>
    requires { Grammar.is_quote quote ≡ true }
    ensures { Reads front_view result (Grammar.front_literal quote input.now) }
{
    let n = run_len(&Quoted { quote }, input);
    let Some(rest) = after_quote(quote, &input[n..]) else {
        return Err(MarkerFault::NoReading);
    };
    let literal = literal_text(alloc, quote, &input[..n])?;
    Ok((Token::Literal(literal), rest))
}

// The text after a quote in front.
fn after_quote(quote: u8, input: &[u8]) -> Option<&[u8]>
    ensures { optional_bytes result ≡ Grammar.after_quote quote input.now }
{
    let [byte, rest @ ..] = input else {
        return None;
    };
    if *byte == quote { Some(rest) } else { None }
}

// The token in front, and the text after it.
#[tactic(auto, unfolding(crate::specs::Words::front_token))]
fn front_token(alloc: Global, input: &[u8]) -> Result<(Token, &[u8]), MarkerFault>
    ensures { Reads front_view result (Grammar.front_token input.now) }
{
    let [byte, rest @ ..] = input else {
        return Err(MarkerFault::NoReading);
    };
    let byte = *byte;
    if byte == b'(' {
        return Ok((Token::Open, rest));
    }
    if byte == b')' {
        return Ok((Token::Close, rest));
    }
    if is_quote(byte) {
        return front_literal(alloc, byte, rest);
    }
    if is_sign_byte(byte) {
        return front_sign(input).ok_or(MarkerFault::NoReading);
    }
    front_word(input).ok_or(MarkerFault::NoReading)
}

/// How many parentheses are open after a token.
pub fn opened(token: &Token, count: usize) -> usize
    requires { count + 1 < 2 ^ 64 }
    ensures { result ≡ Reading.open_count token.now count }
{
    match token {
        Token::Open => count + 1,
        Token::Close => count.saturating_sub(1),
        Token::And
        | Token::Or
        | Token::In
        | Token::Not
        | Token::Extra
        | Token::Named(_)
        | Token::Sign(_)
        | Token::Literal(_) => count,
    }
}

/// The tokens of a marker's text without blanks in front.
///
/// It stops where more parentheses are open than a marker may have, so a text that nests too deep costs no more
/// tokens than these.
pub fn tokens(alloc: Global, input: &[u8]) -> Result<Vec<Token>, MarkerFault>
    ensures { ReadsTokens result (Grammar.tokens_of input.now) }
{
    let mut list = Vec::new(alloc);
    let mut depth = 0;
    let mut rest = input;
    'tokens: while !rest.is_empty() {
        let (token, after) = front_token(alloc, rest)?;
        depth = opened(&token, depth);
        if depth > usize::from(MAX_DEPTH) {
            return Err(MarkerFault::NoReading);
        }
        list = with_one(list, token)?;
        rest = after_space(after, true);
    }
    Ok(list)
}

// Whether a token has no reading in a dialect.
fn is_unread(token: &Token, dialect: Dialect) -> bool
    ensures { result ≡ Grammar.is_unread dialect token.now }
{
    match dialect {
        Dialect::Document => matches!(token, Token::Named(Variable::Extras)),
        Dialect::Lock => matches!(token, Token::Extra),
        Dialect::Printed => false,
    }
}

/// Whether some token has no reading in a dialect.
pub fn has_unread(tokens: &[Token], dialect: Dialect) -> bool
    ensures { result ≡ list_any (Grammar.is_unread dialect) tokens.now }
{
    for token in tokens {
        if is_unread(token, dialect) {
            return true;
        }
    }
    false
}
