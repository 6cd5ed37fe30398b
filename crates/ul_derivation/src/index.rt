//! Where the needs of long rows stand, by their targets.
//!
//! What an index says is only tried, so no answer rests on it: where it leads to no need, the row is read.

use std::alloc::{AllocError, Global};
use std::collections::HashMap;
use ul_problem::Need;

// A row of at most so many needs is read as it is.
const SHORT: usize = 16;

// A need of a row: its target, and its place in the row.
pub type Entry = (u64, usize);

// The needs of the long rows that were looked at, in the order of their targets. A row is that of a node and a version.
#[derive(Drop)]
pub struct Index {
    rows: HashMap<(u64, u32), Vec<Entry>>,
}

impl Index {
    pub(crate) fn new(alloc: Global) -> Index {
        Index {
            rows: HashMap::new(alloc),
        }
    }

    // Has the row of a node and a version in it, if the row is long.
    pub(crate) fn prepare(
        &mut self,
        alloc: Global,
        node: u64,
        version: u32,
        needs: &[Need],
    ) -> Result<(), AllocError> {
        if needs.len() > SHORT && !self.rows.contains_key(&(node, version)) {
            let entries = sorted(alloc, needs)?;
            self.rows.insert((node, version), entries)?;
        }
        Ok(())
    }

    // What it has of the row of a node and a version.
    pub(crate) fn entries(&self, node: u64, version: u32) -> &[Entry] {
        match self.rows.get(&(node, version)) {
            Some(entries) => entries.as_slice(),
            None => &[],
        }
    }
}

fn sorted(alloc: Global, needs: &[Need]) -> Result<Vec<Entry>, AllocError> {
    let mut entries = Vec::with_capacity(alloc, needs.len())?;
    for place in 0..needs.len() {
        entries.push((needs[place].node, place))?;
    }
    entries.sort_unstable();
    Ok(entries)
}
