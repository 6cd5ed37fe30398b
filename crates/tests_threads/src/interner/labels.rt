// Labels of the tests.
ghost use Rattle.std.specs.Prelude.{◌≡◌, IfOk};

use std::alloc::{AllocError, Global};
use std::marker::Model;
use ul_core::Label;

/// A label whose hash is its number.
#[derive(Drop)]
pub struct Number {
    pub number: u64,
}

impl Label for Number {
    ghost hash_of = { λ n. n.number };

    fn same(&self, other: &Number) -> bool {
        self.number == other.number
    }

    fn hash(&self) -> u64 {
        self.number
    }

    fn copy(&self, _alloc: Global) -> Result<Number, AllocError> {
        Ok(Number {
            number: self.number,
        })
    }
}

/// A label with a text. Its hash is the number of its bytes.
#[derive(Drop)]
pub struct Word {
    text: String,
}

impl Model for Word {
    ghost use Rattle.std.specs.Prelude.{List, ℕ};
    ghost use Rattle.std.specs.String.{string_bytes};

    ghost Value = { List ℕ };

    ghost view = { λ w. string_bytes w.text };
}

impl Label for Word {
    ghost use Rattle.std.specs.Prelude.{length};

    ghost hash_of = { λ w. length w };

    fn same(&self, other: &Word) -> bool {
        self.text == other.text
    }

    fn hash(&self) -> u64 {
        self.text.len() as u64
    }

    fn copy(&self, _alloc: Global) -> Result<Word, AllocError> {
        Ok(Word {
            text: self.text.clone()?,
        })
    }
}

impl Word {
    /// The label of a text.
    pub fn new(alloc: Global, text: &str) -> Result<Word, AllocError> {
        let text = text.to_string(alloc)?;
        Ok(Word { text })
    }
}
