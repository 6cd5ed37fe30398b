//! Lists that contracts see as plain lists, and that several owners may share: a copy is a count.
ghost use Rattle.std.specs.Prelude.{◌≡◌, IfOk, IsTrue, IsFalse, length, map, zip};
ghost use Rattle.ul_ranges.specs.Operations.{word_by};

use crate::words::{Operation, put_words};
use std::alloc::{AllocError, Global};
use std::marker::Model;
use std::sync::Arc;

/// A list that several owners may share. It is written to only while it has one owner.
#[derive(Drop)]
pub struct SharedList<T> {
    items: Arc<Vec<T>, Global>,
}

impl<T> Model for SharedList<T> {
    ghost use Rattle.std.specs.Prelude.{List};
    ghost use Rattle.std.specs.Arc.{arc_value};

    ghost Value = { List T };

    ghost view = { λ s. (arc_value s.items).items };
}

impl<T: Drop> SharedList<T> {
    /// The list, with one owner. An error is want of memory.
    pub fn of(alloc: Global, items: Vec<T>) -> Result<SharedList<T>, AllocError>
        ensures { IfOk result (λ s. s ≡ items.items) }
    {
        let items = Arc::new(alloc, items)?;
        Ok(SharedList { items })
    }

    /// The elements.
    pub fn as_slice(&self) -> &[T]
        ensures { result.now ≡ self.now }
    {
        self.items.as_slice()
    }

    /// The elements, as a `Vec`.
    pub fn as_vec(&self) -> &Vec<T>
        ensures { result.now.items ≡ self.now }
    {
        &self.items
    }

    /// The same list, with one owner more. An error is a count of owners at its end.
    pub fn copy(&self) -> Result<SharedList<T>, AllocError>
        ensures { IfOk result (λ s. s ≡ self.now) }
    {
        let items = Arc::try_clone(&self.items)?;
        Ok(SharedList { items })
    }
}

// Writes what the operation makes of each word and the other's, and says so; words with a further owner stay as they are.
pub fn put_shared(operation: Operation, mine: &mut SharedList<u64>, theirs: &[u64]) -> bool
    requires { length mine.old ≡ length theirs.now }
    ensures done { IsTrue result → mine.new ≡ map (λ p. word_by operation p.0 p.1) (zip mine.old theirs.now) }
    ensures not_done { IsFalse result → mine.new ≡ mine.old }
{
    match Arc::get_mut(&mut mine.items) {
        Some(words) => {
            put_words(operation, words.as_mut_slice(), theirs);
            true
        }
        None => false,
    }
}
