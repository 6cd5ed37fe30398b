ghost use Rattle.std.specs.Prelude.{◌≡◌, ◌≤◌, ◌<◌, ◌%◌, ◌↔◌, IfOk, IfErr, OnErr, OnOk, IsTrue, length, map};
ghost use Rattle.std.specs.List.{fold};
ghost use Rattle.std.specs.Bool.{OnTrue, OnFalse};
ghost use Rattle.ul_core.specs.Core.{first_core, Stands, IsPart};
ghost use Rattle.ul_core.specs.Hashes.{next_hash, tree_hash};
ghost use Rattle.ul_core.specs.Trees.{Has};

use crate::events::{Event, EventFault};
use crate::labels::Label;
use crate::plants::{Plant, has, hash_step, structural_hash};
use std::alloc::{AllocError, Global};
use std::marker::Model;

/// The state of the core: a log of trees for each shard, and the claim number.
#[derive(Drop)]
pub struct CoreState<L: Label> {
    logs: Vec<Vec<Plant<L>>>,
    claims: u64,
}

impl<L: Label> Model for CoreState<L> {
    ghost use Rattle.ul_core.specs.Core.{Core, core_code};

    ghost Value = { Core L };

    ghost coded = { core_code L.code };

    ghost use Rattle.std.specs.Prelude.{length, ◌<◌, ◌≤◌};
    ghost use Rattle.ul_core.specs.Core.{core_of};

    ghost view = { λ s. core_of s.logs.items s.claims };

    ghost invariant = { λ s. (0 < length s.logs.items) × (length s.logs.items ≤ 255) };
}

impl<L: Label> CoreState<L> {
    ghost use Rattle.ul_core.specs.declared.events.Event.TheVariants.{Publish, Claim};
    ghost use Rattle.ul_core.specs.Steps.{MayPublish, Takes, Refuses, RunsAll, RunsUntil, after_tree};

    /// The state with `shards` empty logs and claim number 0. `shards` is at least 1. Only memory can be
    /// wanting.
    pub fn begin(alloc: Global, shards: u8) -> Result<CoreState<L>, AllocError>
        requires { 1 ≤ shards }
        ensures { IfOk result (λ s. s ≡ first_core shards) }
    {
        let mut logs = Vec::new(alloc);
        for _ in 0..shards {
            logs.push(Vec::new(alloc))?;
        }
        Ok(CoreState { logs, claims: 0 })
    }

    /// One event. A publication appends the tree to its shard's log and answers None. A claim answers the
    /// claim number as it was, and adds one to it. A refusal changes nothing: the first cause in the order
    /// of `EventFault` is answered, `NoMemory` only for a tree that may be published.
    pub fn step(&mut self, _alloc: Global, event: Event<L>) -> Result<Option<u64>, EventFault>
        ensures taken { IfOk result (λ answer. Takes L.hash_of self.old event answer self.new) }
        ensures refused { IfErr result (λ fault. Refuses L.hash_of self.old event fault) }
        ensures same { OnErr result (self.new ≡ self.old) }
    {
        match event {
            Event::Publish { shard, plant } => self.publish(shard, plant),
            Event::Claim => self.claim(),
        }
    }

    /// Steps all events, skips those that are refused, and answers how many were taken. After want of
    /// memory the state is that of the events before the one that wanted it.
    pub fn run(&mut self, alloc: Global, events: Vec<Event<L>>) -> Result<u64, AllocError>
        ensures all { IfOk result (λ taken. RunsAll L.hash_of self.old events.items taken self.new) }
        ensures until { OnErr result (RunsUntil L.hash_of self.old events.items self.new) }
    {
        let mut taken = 0;
        for event in events {
            match self.step(alloc, event) {
                Ok(_) => taken += 1,
                Err(fault) => {
                    if fault == EventFault::NoMemory {
                        return Err(AllocError);
                    }
                }
            }
        }
        Ok(taken)
    }

    // Appends the tree to the log of its own shard.
    fn publish(&mut self, shard: u8, plant: Plant<L>) -> Result<Option<u64>, EventFault>
        ensures taken { IfOk result (λ answer. Takes L.hash_of self.old (Publish shard plant) answer self.new) }
        ensures refused { IfErr result (λ fault. Refuses L.hash_of self.old (Publish shard plant) fault) }
        ensures same { OnErr result (self.new ≡ self.old) }
    {
        if let Err(fault) = self.check(shard, &plant) {
            drop(plant);
            return Err(fault);
        }
        if let Err(failed) = self.logs[shard as usize].push(plant) {
            drop(failed);
            return Err(EventFault::NoMemory);
        }
        Ok(None)
    }

    // Whether the tree may be published, or why not: the first cause. Each node is hashed once.
    fn check(&self, shard: u8, plant: &Plant<L>) -> Result<(), EventFault>
        ensures may { OnOk result (MayPublish L.hash_of self.now shard plant.now) }
        ensures first { IfErr result (λ fault. Refuses L.hash_of self.now (Publish shard plant.now) fault) }
        ensures below { OnOk result (shard < length self.now.logs) }
    {
        let (hash, all_stand) = self.look(plant);
        if self.shard_at(hash) != shard {
            return Err(EventFault::Shard);
        }
        if self.stands(hash, plant) {
            return Err(EventFault::Known);
        }
        if !all_stand {
            return Err(EventFault::Part);
        }
        Ok(())
    }

    // Draws the claim number.
    fn claim(&mut self) -> Result<Option<u64>, EventFault>
        ensures taken { IfOk result (λ answer. Takes L.hash_of self.old Claim answer self.new) }
        ensures refused { IfErr result (λ fault. Refuses L.hash_of self.old Claim fault) }
        ensures same { OnErr result (self.new ≡ self.old) }
    {
        if self.claims == u64::MAX {
            return Err(EventFault::Full);
        }
        let number = self.claims;
        self.claims += 1;
        Ok(Some(number))
    }

    // The shard of a tree with this hash.
    fn shard_at(&self, hash: u64) -> u8
        ensures shard { result ≡ hash % length self.now.logs }
        ensures below { result < length self.now.logs }
    {
        (hash % self.logs.len() as u64) as u8
    }

    // Whether the tree, which has this hash, stands in the log of its own shard.
    fn stands(&self, hash: u64, plant: &Plant<L>) -> bool
        requires { hash ≡ tree_hash L.hash_of plant.now }
        ensures { IsTrue result ↔ Stands L.hash_of self.now plant.now }
    {
        let log = &self.logs[self.shard_at(hash) as usize];
        has(log.as_slice(), plant)
    }

    // The hash of the tree, and whether each of its parts stands in the log of the part's own shard.
    fn look(&self, plant: &Plant<L>) -> (u64, bool)
        ensures hash { result.0 ≡ tree_hash L.hash_of plant.now }
        ensures all { OnTrue result.1 ((t : _) → IsPart t plant.now → Stands L.hash_of self.now t) }
        ensures some { OnFalse result.1 ((t : _) × IsPart t plant.now × ¬ Stands L.hash_of self.now t) }
    {
        let mut hash = plant.label.hash();
        let mut all_stand = true;
        for part in &plant.parts {
            let part_hash = structural_hash(part);
            hash = hash_step(hash, part_hash);
            all_stand &= self.stands(part_hash, part);
        }
        (hash, all_stand)
    }
}
