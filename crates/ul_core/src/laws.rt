//! The laws of the core, each on a function that does nothing.

ghost use Rattle.ul_core.specs.Hashes.{EachHashIsOfParts};
ghost use Rattle.ul_core.specs.Headline.{RunPromises};
ghost use Rattle.ul_core.specs.Laws.{EachRunGoesOn, EachSoundCoreStays, EachStepKeepsLogs};
ghost use Rattle.ul_core.specs.Vectors.{HashVectors, RunVectors};

use crate::labels::Label;

/// What every run keeps, on any number of shards from 1: all trees of the logs differ, each is in its own
/// shard's log, and so is each part of each tree; a tree keeps its place; a log has what was taken for its
/// shard; the draws are the numbers from 0 on; and where memory is found, a run has one end.
pub fn run_promises<L: Label>()
    ensures { RunPromises L.hash_of }
{}

/// A run goes on by one step.
pub fn each_run_goes_on<L: Label>()
    ensures { EachRunGoesOn L.hash_of }
{}

/// A run from any core whose logs are in order leaves logs that are in order.
pub fn each_sound_core_stays<L: Label>()
    ensures { EachSoundCoreStays L.hash_of }
{}

/// What a step leaves in its own log, in the others, and of the claim number.
pub fn each_step_keeps_logs<L: Label>()
    ensures { EachStepKeepsLogs L.hash_of }
{}

/// The hash of a tree comes from its label's hash and its parts' hashes.
pub fn each_hash_is_of_parts<L: Label>()
    ensures { EachHashIsOfParts L.hash_of }
{}

/// Worked values of the structural hash.
pub fn hash_vectors()
    ensures { HashVectors }
{}

/// A worked run on two shards, and the claim that is refused.
pub fn run_vectors()
    ensures { RunVectors }
{}
