//! What the facts leave open of each node.
ghost use Rattle.std.specs.Prelude.{◌≡◌, ◌+◌, ◌-◌, ◌++◌, ◌∷◌, ◌<◌, [], length, take, IfOk};
ghost use Rattle.ul_trail.specs.Standing.{IsSized, IsToldBy};
ghost use Rattle.ul_trail.specs.Parts.{Stands};

use crate::fact::Fact;
use std::alloc::{AllocError, Global};
use std::mem;
use ul_problem::{Relation, Term};

/// The facts; of each node a term that says what they leave open; and of each fact what was known of its node before it.
#[derive(Drop)]
pub struct Standing {
    pub sizes: Vec<u32>,
    pub known: Vec<Term>,
    pub before: Vec<Term>,
    pub facts: Vec<Fact>,
}

impl Standing {
    /// One more fact.
    pub fn push(&mut self, alloc: Global, fact: Fact) -> Result<(), AllocError>
        requires standing { Stands self.old }
        requires sized { IsSized self.old.sizes.items fact.term }
        ensures standing { IfOk result (λ _. Stands self.new) }
        ensures facts { IfOk result (λ _. self.new.facts.items ≡ self.old.facts.items ++ fact ∷ []) }
        ensures sizes { IfOk result (λ _. self.new.sizes.items ≡ self.old.sizes.items) }
    {
        let node = fact.term.node() as usize;
        let met = self.known[node].meet(alloc, &fact.term)?;
        let before = mem::replace(&mut self.known[node], met);
        self.before.push(before)?;
        self.facts.push(fact)?;
        Ok(())
    }

    /// What the facts tell of a term.
    pub fn told(&self, term: &Term) -> Relation
        requires standing { Stands self.now }
        requires sized { IsSized self.now.sizes.items term.now }
        ensures { IsToldBy self.now.sizes.items self.now.facts.items term.now result }
    {
        let known = &self.known[term.node() as usize];
        term.relation(known)
    }

    /// The last fact is taken back.
    pub fn pop(&mut self)
        requires standing { Stands self.old }
        requires some { 0 < length self.old.facts.items }
        ensures standing { Stands self.new }
        ensures facts { self.new.facts.items ≡ take (length self.old.facts.items - 1) self.old.facts.items }
        ensures sizes { self.new.sizes.items ≡ self.old.sizes.items }
    {
        if let Some(fact) = self.facts.pop() {
            let node = fact.term.node() as usize;
            drop(fact);
            if let Some(before) = self.before.pop() {
                drop(mem::replace(&mut self.known[node], before));
            }
        }
    }
}
