//! Places among the nodes that a region reaches.
ghost use Rattle.std.specs.Prelude.{◌≡◌, IfOk, get_or, map, option_map};
ghost use Rattle.ul_placing.specs.Ranks.{places_from, ranks_from};

use crate::aims::NodeAims;
use std::alloc::{AllocError, Global};

/// Of each node how many are reached before it.
///
/// # Errors
///
/// Only for want of memory.
pub(crate) fn ranks_of(alloc: Global, aims: &[Option<NodeAims>]) -> Result<Vec<u64>, AllocError>
    ensures { IfOk result (λ v. v.items ≡ ranks_from 0 aims.now) }
{
    let mut ranks = Vec::with_capacity(alloc, aims.len())?;
    let mut rank: u64 = 0;
    for one in aims {
        ranks.push(rank)?;
        if one.is_some() {
            rank += 1;
        }
    }
    Ok(ranks)
}

/// The places of the nodes that are reached, in order.
///
/// # Errors
///
/// Only for want of memory.
pub(crate) fn places_of(alloc: Global, aims: &[Option<NodeAims>]) -> Result<Vec<u64>, AllocError>
    ensures { IfOk result (λ v. v.items ≡ places_from 0 aims.now) }
{
    let mut places = Vec::with_capacity(alloc, aims.len())?;
    for place in 0..aims.len() {
        let Some(_) = &aims[place] else {
            continue;
        };
        places.push(place as u64)?;
    }
    Ok(places)
}

// The rank at a place.
fn rank_at(ranks: &[u64], place: u64) -> u64
    ensures { result ≡ get_or ranks.now place 0 }
{
    match ranks.get(place as usize) {
        Some(rank) => *rank,
        None => 0,
    }
}

/// The ranks at places.
///
/// # Errors
///
/// Only for want of memory.
pub(crate) fn ranks_at(alloc: Global, ranks: &[u64], places: &[u64]) -> Result<Vec<u64>, AllocError>
    ensures { IfOk result (λ v. v.items ≡ map (λ k. get_or ranks.now k 0) places.now) }
{
    let mut list = Vec::with_capacity(alloc, places.len())?;
    for place in places {
        list.push(rank_at(ranks, *place))?;
    }
    Ok(list)
}

/// The rank of a base, where there is one.
pub(crate) fn base_at(ranks: &[u64], base: Option<u64>) -> Option<u64>
    ensures { result ≡ option_map (λ k. get_or ranks.now k 0) base }
{
    match base {
        Some(place) => Some(rank_at(ranks, place)),
        None => None,
    }
}
