//! The laws of the interner, each on a function that does nothing.

ghost use Rattle.ul_interner.specs.Headline.{InternerPromises};
ghost use Rattle.ul_interner.specs.Laws.{EachKnownStays, EachPartIsKnown, EachTreeHasOneMark};
ghost use Rattle.ul_interner.specs.Vectors.{KnownVectors, NewestVectors, TableVectors};

use ul_core::Label;

/// The promises of the interner.
pub fn interner_promises<L: Label>()
    ensures { InternerPromises L.hash_of }
{}

/// What a pass knew it knows for good.
pub fn each_known_stays<L>()
    ensures { EachKnownStays L }
{}

/// The parts of a known mark are known.
pub fn each_part_is_known<L>()
    ensures { EachPartIsKnown L }
{}

/// A tree has one mark, and an identity too.
pub fn each_tree_has_one_mark<L: Label>()
    ensures { EachTreeHasOneMark L.hash_of }
{}

/// Worked examples of what a pass knows.
pub fn known_vectors()
    ensures { KnownVectors }
{}

/// Worked examples of the newest mark of a bucket.
pub fn newest_vectors()
    ensures { NewestVectors }
{}

/// Worked examples of tables.
pub fn table_vectors()
    ensures { TableVectors }
{}
