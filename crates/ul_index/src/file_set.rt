//! Files in the order of their names.

ghost use Rattle.std.specs.Prelude.{◌≡◌, ◌||◌, ℕ, List, [], false, not, map, IfOk, OnOk};
ghost use Rattle.std.specs.BTreeSet.{insert_key};
ghost use Rattle.std.specs.Cmp.{eq_by_cmp_equiv, on_total, partial_equiv_from_equiv, partial_order_from_total};
ghost use Rattle.std.specs.Cmp.Lexicographic.{nat_list_cmp_total, slice_cmp};
ghost use Rattle.std.specs.Ordering.{as_partial_cmp, eq_by_cmp, nat_cmp, on};
ghost use Rattle.std.specs.Str.{bytes_eq};
ghost use Rattle.std.proofs.Common.{refl};
ghost use Rattle.ul_requirement.specs.Fields.{FilesRise};
ghost use Rattle.ul_index.specs.Documents.{by_name};
ghost use Rattle.ul_index.specs.FileSets.{NotesName, by_name_total, files_in, has_name};

use std::alloc::{AllocError, Global};
use std::cmp::Ordering;
use std::collections::BTreeSet;
use ul_requirement::FileEntry;

/// Files in the order of their names, each name once.
#[derive(Drop)]
pub(crate) struct FileSet {
    keys: BTreeSet<ByName>,
}

impl FileSet {
    pub(crate) fn new(alloc: Global) -> FileSet
        ensures { files_in result ≡ [] }
    {
        FileSet {
            keys: BTreeSet::new(alloc),
        }
    }

    /// Adds a file, and answers whether no file of its name was there before.
    pub(crate) fn add(&mut self, file: FileEntry) -> Result<bool, AllocError>
        ensures new { IfOk result (λ added. added ≡ not (has_name self.old file.file)) }
        ensures noted { OnOk result (NotesName self.old self.new file.file) }
        ensures files { OnOk result (files_in self.new ≡ insert_key by_name (files_in self.old) file) }
    {
        let added = self.keys.insert(ByName { file })?;
        Ok(added)
    }

    /// The files in order.
    pub(crate) fn into_list(self, alloc: Global) -> Result<Vec<FileEntry>, AllocError>
        ensures files { IfOk result (λ v. v.items ≡ files_in self) }
        ensures rises { IfOk result (λ v. FilesRise v.items) }
    {
        let _size = self.keys.len();
        listed(alloc, self)
    }
}

// The files of a set, in its order.
fn listed(alloc: Global, set: FileSet) -> Result<Vec<FileEntry>, AllocError>
    ensures { IfOk result (λ v. v.items ≡ files_in set) }
{
    let mut files = Vec::new(alloc);
    for key in set.keys {
        files.push(key.file)?;
    }
    Ok(files)
}

/// A file as a key: keys are ordered as the names of their files are.
#[derive(Drop)]
struct ByName {
    file: FileEntry,
}

impl PartialEq for ByName {
    ghost eq = { eq_by_cmp (on (λ k. k.file) by_name) };

    ghost laws = { partial_equiv_from_equiv (eq_by_cmp_equiv (on_total (λ k. k.file) by_name_total)) };

    fn eq(&self, other: &ByName) -> bool {
        self.cmp(other).is_eq()
    }
}

impl Eq for ByName {
    ghost laws = { eq_by_cmp_equiv (on_total (λ k. k.file) by_name_total) };
}

impl PartialOrd for ByName {
    ghost partial_cmp = { as_partial_cmp (on (λ k. k.file) by_name) };

    ghost laws = { partial_order_from_total (on_total (λ k. k.file) by_name_total) };

    fn partial_cmp(&self, other: &ByName) -> Option<Ordering> {
        Some(self.cmp(other))
    }
}

impl Ord for ByName {
    ghost cmp = { on (λ k. k.file) by_name };

    ghost total = { on_total (λ k. k.file) by_name_total };

    ghost matches_partial_cmp = { λ a b. refl };

    ghost matches_eq = { λ a b. refl };

    fn cmp(&self, other: &ByName) -> Ordering {
        let mine: &FileEntry = &self.file;
        let theirs: &FileEntry = &other.file;
        mine.file.as_str().cmp(theirs.file.as_str())
    }
}
