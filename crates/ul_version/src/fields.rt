//! A version and its parts.
ghost use Rattle.std.specs.Prelude.{◌≡◌, ◌<◌, IfOk, length, string_bytes};
ghost use Rattle.ul_version.specs.Fields.{is_post_of, is_pre_of, plain, IsVersion};

use std::alloc::{AllocError, Global};
use std::marker::Model;

/// The kind of a pre-release, in the order of the kinds: alpha, beta, release candidate.
#[derive(Clone, Copy, PartialEq, Eq)]
pub enum PreKind {
    A,
    B,
    Rc,
}

/// The pre part of a version, as `a1` or `rc2`.
#[derive(Clone, Copy, PartialEq, Eq)]
pub struct Pre {
    pub kind: PreKind,
    pub number: u64,
}

/// A text, which contracts see as its bytes.
#[derive(Drop)]
pub struct Text {
    text: String,
}

impl Model for Text {
    ghost use Rattle.std.specs.Prelude.{List, ℕ, string_bytes};

    ghost Value = { List ℕ };

    ghost view = { λ t. string_bytes t.text };
}

impl Text {
    /// The text that has these bytes.
    pub fn of(text: String) -> Text
        ensures { result ≡ string_bytes text }
    {
        Text { text }
    }

    /// The text itself.
    pub fn as_str(&self) -> &str
        ensures { result.now ≡ self.now }
    {
        self.text.as_str()
    }

    /// An equal text.
    pub fn copy(&self, alloc: Global) -> Result<Text, AllocError>
        ensures { IfOk result (λ t. t ≡ self.now) }
    {
        let text = String::from_str(alloc, self.text.as_str())?;
        Ok(Text { text })
    }
}

/// A segment of a local part: a number, or a word of lower-case ASCII letters and digits that has at
/// least one letter.
#[derive(Drop)]
pub enum Segment {
    Number(u64),
    Word(Text),
}

impl Segment {
    /// An equal segment.
    pub fn copy(&self, alloc: Global) -> Result<Segment, AllocError>
        ensures { IfOk result (λ s. s ≡ self.now) }
    {
        match self {
            Segment::Number(number) => Ok(Segment::Number(*number)),
            Segment::Word(text) => Ok(Segment::Word(text.copy(alloc)?)),
        }
    }
}

/// A version of PEP 440.
///
/// The release isn't empty. The local part is empty where the version has none. Contracts see a version
/// as the record `Fields` of these parts.
#[derive(Drop)]
pub struct Version {
    pub epoch: u64,
    pub release: Vec<u64>,
    pub pre: Option<Pre>,
    pub post: Option<u64>,
    pub dev: Option<u64>,
    pub local: Vec<Segment>,
}

impl Model for Version {
    ghost use Rattle.ul_version.specs.Fields.{Fields, IsVersion};

    ghost Value = { Fields };

    ghost view = { λ v. record { epoch = v.epoch; release = v.release.items; pre = v.pre; post = v.post; dev = v.dev; local = v.local.items } };

    ghost invariant = { λ v. IsVersion (record { epoch = v.epoch; release = v.release.items; pre = v.pre; post = v.post; dev = v.dev; local = v.local.items }) };
}

impl Version {
    /// Whether this is a pre-release: a version with a pre or a dev part.
    pub fn is_pre(&self) -> bool
        ensures { result ≡ is_pre_of self.now }
    {
        self.pre.is_some() || self.dev.is_some()
    }

    /// Whether this is a post-release: a version with a post part.
    pub fn is_post(&self) -> bool
        ensures { result ≡ is_post_of self.now }
    {
        self.post.is_some()
    }

    /// An equal version.
    pub fn copy(&self, alloc: Global) -> Result<Version, AllocError>
        ensures { IfOk result (λ v. v ≡ self.now) }
    {
        let release = Vec::from_slice(alloc, self.release.as_slice())?;
        let local = copied(alloc, self.local.as_slice())?;
        Ok(Version {
            epoch: self.epoch,
            release,
            pre: self.pre,
            post: self.post,
            dev: self.dev,
            local,
        })
    }

    /// The version that has this release, epoch 0 and nothing else. The release isn't empty.
    pub fn plain_of(alloc: Global, release: Vec<u64>) -> Version
        requires { 0 < length release.items }
        ensures { result ≡ plain release.items }
    {
        Version {
            epoch: 0,
            release,
            pre: None,
            post: None,
            dev: None,
            local: Vec::new(alloc),
        }
    }
}

// Equal segments.
fn copied(alloc: Global, segments: &[Segment]) -> Result<Vec<Segment>, AllocError>
    ensures { IfOk result (λ v. v.items ≡ segments.now) }
{
    let mut copies = Vec::with_capacity(alloc, segments.len())?;
    for segment in segments {
        copies.push(segment.copy(alloc)?)?;
    }
    Ok(copies)
}
