//! Places of a document that have another shape than they should.

ghost use Rattle.std.specs.Prelude.{◌≡◌, IfOk, string_bytes};
ghost use Rattle.ul_index.specs.Places.{key_text, place_text};

use std::alloc::{AllocError, Global};

/// A key of an entry of `versions`.
#[derive(Clone, Copy)]
pub enum EntryKey {
    Version,
    RequiresPython,
    RequiresDist,
    Yanked,
    Files,
}

/// A place of an index document. Entries and files count from 0.
#[derive(Clone, Copy)]
pub enum Place {
    /// The document itself, which isn't an object.
    Document,
    /// `name`
    Name,
    /// `versions`
    Versions,
    /// An entry of `versions`, which isn't an object.
    Entry(u64),
    /// A key of an entry.
    Key(u64, EntryKey),
    /// A file of an entry: the number of the entry, and that of the file.
    File(u64, u64),
}

impl EntryKey {
    // The key itself.
    fn text(self) -> &'static str
        ensures { result.now ≡ key_text self }
    {
        match self {
            EntryKey::Version => "version",
            EntryKey::RequiresPython => "requires_python",
            EntryKey::RequiresDist => "requires_dist",
            EntryKey::Yanked => "yanked",
            EntryKey::Files => "files",
        }
    }
}

impl Place {
    /// The path of the place, such as `versions[3].files[0]`; the document itself is `document`.
    pub fn text(self, alloc: Global) -> Result<String, AllocError>
        ensures { IfOk result (λ t. string_bytes t ≡ place_text self) }
    {
        match self {
            Place::Document => String::from_str(alloc, "document"),
            Place::Name => String::from_str(alloc, "name"),
            Place::Versions => String::from_str(alloc, "versions"),
            Place::Entry(entry) => {
                let text = format!(in alloc; "versions[{entry}]")?;
                Ok(text)
            }
            Place::Key(entry, key) => key_path(alloc, entry, key),
            Place::File(entry, file) => file_path(alloc, entry, file),
        }
    }
}

// The path of a key of an entry.
fn key_path(alloc: Global, entry: u64, key: EntryKey) -> Result<String, AllocError>
    ensures { IfOk result (λ t. string_bytes t ≡ place_text (Place.Key entry key)) }
{
    let key = key.text();
    let text = format!(in alloc; "versions[{entry}].{key}")?;
    Ok(text)
}

// The path of a file of an entry.
fn file_path(alloc: Global, entry: u64, file: u64) -> Result<String, AllocError>
    ensures { IfOk result (λ t. string_bytes t ≡ place_text (Place.File entry file)) }
{
    let text = format!(in alloc; "versions[{entry}].files[{file}]")?;
    Ok(text)
}
