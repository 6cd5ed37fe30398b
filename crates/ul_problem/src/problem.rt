//! A problem: nodes with their versions, and what each version needs.
ghost use Rattle.std.specs.Prelude.{◌≡◌, ◌<◌, ◌++◌, ◌∷◌, [], length, map, IfOk};
ghost use Rattle.ul_problem.specs.HeldNeeds.{need_renumbered};
ghost use Rattle.ul_problem.specs.Plain.{base_of, needs_of, order_of, size_of};
ghost use Rattle.ul_problem.specs.Problems.{IsWellFormed};

use crate::lists::{Places, Versions};
use crate::needs::{HeldNeeds, copied, few, listed, renumber_needs, renumbered, shared, with_need};
use std::alloc::{AllocError, Global};
use std::marker::Model;
use std::mem;
use ul_base::Node;
use ul_ranges::Ordinals;

/// A need of a version: a target, and which of its versions meet the need.
#[derive(Drop)]
pub struct Need {
    /// The target's place among the nodes.
    pub node: u64,
    /// The target's versions that meet the need.
    pub permitted: Ordinals,
}

impl Need {
    /// An equal need.
    pub fn copy(&self, alloc: Global) -> Result<Need, AllocError>
        ensures { IfOk result (λ k. k ≡ self.now) }
    {
        let permitted = self.permitted.copy(alloc)?;
        Ok(Need {
            node: self.node,
            permitted,
        })
    }
}

/// The needs of one version. Those of several versions may be one list; a row that is written to has one of its own.
#[derive(Drop)]
pub struct NeedRow {
    held: HeldNeeds,
}

impl Model for NeedRow {
    ghost use Rattle.std.specs.Prelude.{List};
    ghost use Rattle.ul_problem.specs.declared.problem.Need.{Need};
    ghost use Rattle.ul_problem.specs.HeldNeeds.{needs_held};

    ghost Value = { List Need };

    ghost view = { λ s. needs_held s.held };
}

impl NeedRow {
    /// No need.
    pub fn none() -> NeedRow
        ensures { result ≡ [] }
    {
        NeedRow {
            held: HeldNeeds::Empty,
        }
    }

    /// The needs of a list, in its order.
    pub fn of(mut needs: Vec<Need>) -> NeedRow
        ensures { result ≡ needs.items }
    {
        if needs.len() > 2 {
            return NeedRow {
                held: HeldNeeds::Listed(needs),
            };
        }
        let last = needs.pop();
        let first = needs.pop();
        NeedRow {
            held: few(first, last),
        }
    }

    /// The same needs, where more than two stand in a list that copies of the row share.
    ///
    /// # Errors
    ///
    /// Only for want of memory.
    pub fn share(self, alloc: Global) -> Result<NeedRow, AllocError>
        ensures { IfOk result (λ row. row ≡ self) }
    {
        let held = shared(alloc, self.held)?;
        Ok(NeedRow { held })
    }

    /// An equal row. It shares a list that `share` made.
    ///
    /// # Errors
    ///
    /// Only for want of memory, or a count of owners at its end.
    pub fn copy(&self, alloc: Global) -> Result<NeedRow, AllocError>
        ensures { IfOk result (λ row. row ≡ self.now) }
    {
        let held = copied(alloc, &self.held)?;
        Ok(NeedRow { held })
    }

    /// The needs, in their order.
    pub fn as_slice(&self) -> &[Need]
        ensures { result.now ≡ self.now }
    {
        match &self.held {
            HeldNeeds::Empty => &[],
            HeldNeeds::One(needs) => &needs[..],
            HeldNeeds::Two(needs) => &needs[..],
            HeldNeeds::Listed(needs) => needs.as_slice(),
            HeldNeeds::Shared(needs) => needs.as_slice(),
        }
    }

    /// Puts a need at the end.
    ///
    /// # Errors
    ///
    /// Only for want of memory; the row then has no need.
    pub fn push(&mut self, alloc: Global, need: Need) -> Result<(), AllocError>
        ensures { IfOk result (λ _. self.new ≡ self.old ++ need ∷ []) }
    {
        let held = mem::replace(&mut self.held, HeldNeeds::Empty);
        self.held = with_need(alloc, held, need)?;
        Ok(())
    }

    /// Room for so many needs in a list, where they are more than stand in place.
    ///
    /// # Errors
    ///
    /// Only for want of memory; the row then has no need.
    pub fn make_room(&mut self, alloc: Global, count: usize) -> Result<(), AllocError>
        ensures { IfOk result (λ _. self.new ≡ self.old) }
    {
        if count > 2 {
            let held = mem::replace(&mut self.held, HeldNeeds::Empty);
            let mut list = listed(alloc, held)?;
            list.reserve(count.saturating_sub(list.len()))?;
            self.held = HeldNeeds::Listed(list);
        }
        Ok(())
    }

    /// Puts the number at each target's place in its place, or 0 where there is none.
    ///
    /// # Errors
    ///
    /// Only for want of memory, which only a row that shares its list takes.
    pub fn renumber(&mut self, alloc: Global, numbers: &[u64]) -> Result<(), AllocError>
        ensures { IfOk result (λ _. self.new ≡ map (need_renumbered numbers.now) self.old) }
    {
        match &mut self.held {
            HeldNeeds::Empty => {}
            HeldNeeds::One(needs) => renumber_needs(numbers, &mut needs[..]),
            HeldNeeds::Two(needs) => renumber_needs(numbers, &mut needs[..]),
            HeldNeeds::Listed(needs) => renumber_needs(numbers, needs.as_mut_slice()),
            HeldNeeds::Shared(needs) => {
                let list = renumbered(alloc, numbers, needs.as_slice())?;
                self.held = HeldNeeds::Listed(list);
            }
        }
        Ok(())
    }
}

/// The needs of each version of a node.
#[derive(Drop)]
pub struct NeedRows {
    rows: Vec<NeedRow>,
}

impl Model for NeedRows {
    ghost use Rattle.std.specs.Prelude.{List};
    ghost use Rattle.ul_problem.specs.declared.problem.Need.{Need};

    ghost Value = { List (List Need) };

    ghost view = { λ s. s.rows.items };
}

impl NeedRows {
    pub fn of(rows: Vec<NeedRow>) -> NeedRows
        ensures { result ≡ rows.items }
    {
        NeedRows { rows }
    }

    pub fn as_slice(&self) -> &[NeedRow]
        ensures { result.now ≡ self.now }
    {
        self.rows.as_slice()
    }

    pub fn into_vec(self) -> Vec<NeedRow>
        ensures { result.items ≡ self }
    {
        self.rows
    }
}

/// What is known of a node.
#[derive(Drop)]
pub struct NodeFacts {
    pub node: Node,
    /// The place of the node's base, where the node has an extra.
    pub base: Option<u64>,
    /// The versions, which increase.
    pub versions: Versions,
    /// The places of the versions in the order of preference.
    pub order: Places,
    /// The versions that aren't fit throughout the region.
    pub barred: Ordinals,
    /// The needs of each version.
    pub needs: NeedRows,
}

/// A problem of a region: its nodes, and the places of the project's own.
///
/// The nodes strictly increase. Each place is in range, and each set has the size of its node's versions. An order has each version
/// once. An extra has a base and the base's versions. A need of an extra comes after a need of its base. The roots strictly
/// increase and are a base and extras of it, and each has exactly one version.
#[derive(Drop)]
pub struct Problem {
    roots: Vec<u64>,
    nodes: Vec<NodeFacts>,
}

impl Model for Problem {
    ghost use Rattle.ul_problem.specs.Plain.{Plain};
    ghost use Rattle.ul_problem.specs.Problems.{IsWellFormed};

    ghost Value = { Plain };

    ghost view = { λ s. record { roots = s.roots.items; nodes = s.nodes.items } };

    ghost invariant = { λ s. IsWellFormed (record { roots = s.roots.items; nodes = s.nodes.items }) };
}

impl Problem {
    /// The problem of these roots and nodes. `Problem::fits` tests the condition.
    pub fn of(roots: Vec<u64>, nodes: Vec<NodeFacts>) -> Problem
        requires { IsWellFormed (record { roots = roots.items; nodes = nodes.items }) }
        ensures { result ≡ record { roots = roots.items; nodes = nodes.items } }
    {
        Problem { roots, nodes }
    }

    /// The places of the project's base and of its extras.
    pub fn roots(&self) -> &[u64]
        ensures value { result.now ≡ self.now.roots }
        ensures whole { IsWellFormed self.now }
    {
        self.roots.as_slice()
    }

    /// The nodes.
    pub fn nodes(&self) -> &[NodeFacts]
        ensures value { result.now ≡ self.now.nodes }
        ensures whole { IsWellFormed self.now }
    {
        self.nodes.as_slice()
    }

    /// How many versions a node has.
    pub fn size_at(&self, node: u64) -> u32
        requires { node < length self.now.nodes }
        ensures { result ≡ size_of self.now node }
    {
        self.nodes()[node as usize].barred.size()
    }

    /// The place of a node's base, where the node has an extra.
    pub fn base_at(&self, node: u64) -> Option<u64>
        requires { node < length self.now.nodes }
        ensures { result ≡ base_of self.now node }
    {
        self.nodes()[node as usize].base
    }

    /// The needs of a version.
    pub fn needs_at(&self, node: u64, version: u32) -> &[Need]
        requires node { node < length self.now.nodes }
        requires version { version < size_of self.now node }
        ensures { result.now ≡ needs_of self.now node version }
    {
        let rows = self.nodes()[node as usize].needs.as_slice();
        rows[version as usize].as_slice()
    }

    /// The places of a node's versions in the order of preference.
    pub fn order_at(&self, node: u64) -> &Vec<u32>
        requires { node < length self.now.nodes }
        ensures { result.now.items ≡ order_of self.now node }
    {
        self.nodes()[node as usize].order.as_vec()
    }
}
