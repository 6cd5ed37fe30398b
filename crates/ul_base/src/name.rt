//! Names of packages and of extras.
ghost use Rattle.std.specs.Prelude.{◌≡◌, ◌++◌, ◌∷◌, [], true, false, Some, OnOk, IfOk, IfErr, string_bytes, if◌then◌else◌};
ghost use Rattle.std.proofs.Common.{refl, rules};
ghost use Rattle.std.specs.Cmp.{partial_equiv_from_equiv};
ghost use Rattle.std.specs.Cmp.Lexicographic.{nat_list_eq_equiv, nat_list_cmp_total, texts_ties, texts_po};
ghost use Rattle.std.specs.Cmp.Rules.{hashing};
ghost use Rattle.std.specs.Hash as fed;
ghost use Rattle.std.specs.List.{list_all};
ghost use Rattle.std.specs.Str.{bytes_eq};
ghost use Rattle.ul_base.specs.Names;
ghost use Rattle.ul_base.specs.Names.{AddsByte, IsFormOf, IsNormalName, IsPlain, NameReading, has_ends, is_name_byte, is_separator, name_cmp};

use std::alloc::{AllocError, Global};
use std::cmp::Ordering;
use std::hash::{Hash, Hasher};
use std::marker::Model;

/// Why a text gives no name.
#[derive(Clone, Copy, Debug, PartialEq, Eq)]
pub enum NameFault {
    /// The text is no name.
    NoReading,
    /// Memory ran out.
    NoMemory,
}

impl From<AllocError> for NameFault {
    ghost use Rattle.std.specs.Prelude.{◌≡◌};
    ghost use Rattle.ul_base.specs.declared.name.NameFault.TheVariants.{NoMemory};

    ghost from_gives = { λ _ e. e ≡ NoMemory };

    fn from(_: AllocError) -> Self {
        NameFault::NoMemory
    }
}

/// The name of a package or of an extra, in its normal form.
///
/// A name is letters, digits, `.`, `-` and `_` of ASCII, beginning and ending with a letter or a digit (PEP 508). Its
/// normal form is lower case, with each run of `-`, `_` and `.` as one `-` (PEP 503; for extras PEP 685). A clause
/// sees a `Name` as the bytes of its normal form. Names are equal, ordered and hashed by these bytes.
#[derive(Debug, Drop)]
pub struct Name {
    text: String,
}

impl Model for Name {
    ghost use Rattle.std.specs.Prelude.{List, ℕ, string_bytes};
    ghost use Rattle.ul_base.specs.Names.{IsNormalName};

    ghost Value = { List ℕ };

    ghost view = { λ n. string_bytes n.text };

    ghost invariant = { λ n. IsNormalName (string_bytes n.text) };
}

impl Name {
    /// The name that a text is. `NoReading` comes exactly where it is none.
    #[tactic(auto, using(crate::proofs::Names::name_reads, crate::proofs::Names::unread_by_ends, crate::proofs::Names::unread_by_bytes, crate::proofs::Names::name_reads_itself))]
    pub fn read(alloc: Global, text: &str) -> Result<Name, NameFault>
        ensures { NameReading text.now result }
    {
        let bytes = text.as_bytes();
        if !ends_well(bytes) {
            return Err(NameFault::NoReading);
        }
        let text = normalized(alloc, bytes)?;
        Ok(Name { text })
    }

    /// The normal form: digits, lower-case letters and `-`, and never empty.
    #[tactic(auto, using(crate::proofs::Names::name_is_plain))]
    pub fn text(&self) -> &str
        ensures value { result.now ≡ self.now }
        ensures normal { IsNormalName self.now }
        ensures plain { IsPlain self.now }
    {
        self.text.as_str()
    }

    /// An equal name.
    pub fn copy(&self, alloc: Global) -> Result<Name, AllocError>
        ensures { IfOk result (λ n. n ≡ self.now) }
    {
        let text = String::from_str(alloc, self.text.as_str())?;
        Ok(Name { text })
    }
}

impl PartialEq for Name {
    ghost eq = { bytes_eq };

    ghost laws = { partial_equiv_from_equiv nat_list_eq_equiv };

    fn eq(&self, other: &Name) -> bool {
        self.text.as_str() == other.text.as_str()
    }
}

impl Eq for Name {
    ghost laws = { nat_list_eq_equiv };
}

impl PartialOrd for Name {
    ghost partial_cmp = { λ a b. Some (name_cmp a b) };

    ghost laws = { texts_po };

    fn partial_cmp(&self, other: &Name) -> Option<Ordering> {
        Some(self.cmp(other))
    }
}

impl Ord for Name {
    ghost cmp = { name_cmp };

    ghost total = { nat_list_cmp_total };

    ghost matches_partial_cmp = { λ a b. refl };

    ghost matches_eq = { texts_ties };

    fn cmp(&self, other: &Name) -> Ordering {
        self.text.as_str().cmp(other.text.as_str())
    }
}

impl Hash for Name {
    ghost hash_input = { λ n. fed.str n };

    ghost respects_eq = { Prim.search (hashing, rules) };

    fn hash<H: Hasher>(&self, state: &mut H) {
        self.text.as_str().hash(state);
    }
}

/// Whether a text is a name, in its normal form or not. It takes no memory.
///
/// `Name::read` answers `NoReading` exactly where it is none.
#[tactic(auto, unfolding(crate::specs::Names::is_name))]
pub fn is_name(text: &str) -> bool
    ensures { result ≡ Names.is_name text.now }
{
    let bytes = text.as_bytes();
    ends_well(bytes) && has_name_bytes(bytes)
}

// Each byte is a letter, a digit or a separator.
fn has_name_bytes(bytes: &[u8]) -> bool
    ensures { result ≡ list_all is_name_byte bytes.now }
{
    for byte in bytes {
        if !byte.is_ascii_alphanumeric() && !separates(*byte) {
            return false;
        }
    }
    true
}

// The bytes begin and end with a letter or a digit.
fn ends_well(bytes: &[u8]) -> bool
    ensures { result ≡ has_ends bytes.now }
{
    match bytes {
        [] => false,
        [only] => only.is_ascii_alphanumeric(),
        [first, .., last] => first.is_ascii_alphanumeric() && last.is_ascii_alphanumeric(),
    }
}

// One of `-`, `.` and `_`.
fn separates(byte: u8) -> bool
    ensures { result ≡ is_separator byte }
{
    byte == b'-' || byte == b'.' || byte == b'_'
}

// The normal form of letters, digits and separators; `NoReading` where another byte is among them.
fn normalized(alloc: Global, bytes: &[u8]) -> Result<String, NameFault>
    ensures value { IfOk result (λ t. IsFormOf bytes.now (string_bytes t)) }
    ensures no_reading { IfErr result (λ e. e ≡ NameFault.NoReading → list_all is_name_byte bytes.now ≡ false) }
{
    let mut text = String::new(alloc);
    let mut run = false;
    for byte in bytes {
        run = add(&mut text, run, *byte)?;
    }
    close(&mut text, run)?;
    Ok(text)
}

// Adds a byte to a form, and says whether a run of separators is open behind it.
#[tactic(auto, using(crate::proofs::Names::adds_separator))]
fn add(text: &mut String, run: bool, byte: u8) -> Result<bool, NameFault>
    ensures { AddsByte (string_bytes text.old) (string_bytes text.new) run byte result }
{
    if separates(byte) {
        return Ok(true);
    }
    if !byte.is_ascii_alphanumeric() {
        return Err(NameFault::NoReading);
    }
    close(text, run)?;
    text.push(char::from(byte.to_ascii_lowercase()))?;
    Ok(false)
}

// Writes a run of separators that is open.
fn close(text: &mut String, run: bool) -> Result<(), AllocError>
    ensures { OnOk result (string_bytes text.new ≡ string_bytes text.old ++ (if run then 45 ∷ [] else [])) }
{
    if run {
        text.push('-')?;
    }
    Ok(())
}
