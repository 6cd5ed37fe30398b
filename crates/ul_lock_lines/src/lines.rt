//! What stands on one line.

ghost use Rattle.std.specs.Prelude.{◌≡◌, ℕ, List, IfOk};

use std::alloc::{AllocError, Global};
use std::marker::Model;
use ul_base::Name;
use ul_lock::{Edge, Region};
use ul_requirement::FileEntry;
use ul_version::Version;

/// A text, as bytes.
#[derive(Drop)]
pub struct Text {
    bytes: Vec<u8>,
}

impl Model for Text {
    ghost use Rattle.std.specs.Prelude.{ℕ, List};

    ghost Value = { List ℕ };

    ghost view = { λ t. t.bytes.items };
}

impl Text {
    /// The text of these bytes.
    pub fn of(alloc: Global, bytes: &[u8]) -> Result<Text, AllocError>
        ensures { IfOk result (λ t. t ≡ bytes.now) }
    {
        Ok(Text {
            bytes: Vec::from_slice(alloc, bytes)?,
        })
    }

    /// The bytes.
    pub fn as_bytes(&self) -> &[u8]
        ensures { result.now ≡ self.now }
    {
        self.bytes.as_slice()
    }
}

/// The version of the format.
#[derive(Clone, Copy)]
pub enum Edition {
    First,
    Second,
}

/// The texts of a file's line.
#[derive(Drop)]
pub struct RawFile {
    pub file: Text,
    pub hash: Text,
}

/// The texts of an edge's line.
#[derive(Drop)]
pub struct RawEdge {
    pub name: Text,
    pub version: Text,
    pub extra: Option<Text>,
    pub marker: Option<Text>,
}

/// A line, as texts.
#[derive(Drop)]
pub enum RawLine {
    First(Edition),
    Root(Text),
    Supported(Text),
    Item(Text),
    Close,
    Gap,
    Entry,
    Name(Text),
    Version(Text),
    File(RawFile),
    Edge(RawEdge),
    Table,
    Opens(Text),
    Bare(Text),
}

/// A line, as values.
#[derive(Drop)]
pub enum Line {
    First(Edition),
    Root(Name),
    Supported(Region),
    Item(Region),
    Close,
    Gap,
    Entry,
    Name(Name),
    Version(Version),
    File(FileEntry),
    Edge(Edge),
    Table,
    Opens(Name),
    Bare(Name),
}
