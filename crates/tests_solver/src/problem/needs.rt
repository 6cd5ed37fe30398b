//! Rows of needs, their copies, and what is written to them.
use std::alloc::{AllocError, Global};
use ul_base::owned::made_from;
use ul_problem::{Need, NeedRow};
use ul_ranges::Ordinals;

// A target with 70 versions.
fn need(alloc: Global, node: u64) -> Result<Need, AllocError> {
    let permitted = Ordinals::all(alloc, 70)?;
    Ok(Need { node, permitted })
}

// The needs of so many targets, at the places 0, 1 and so on.
fn listed(alloc: Global, count: u64) -> Result<NeedRow, AllocError> {
    let mut needs = Vec::new(alloc);
    for node in 0..count {
        needs.push(need(alloc, node)?)?;
    }
    Ok(NeedRow::of(needs))
}

// The same, put one behind the other.
fn pushed(alloc: Global, count: u64) -> Result<NeedRow, AllocError> {
    let mut row = NeedRow::none();
    for node in 0..count {
        row.push(alloc, need(alloc, node)?)?;
    }
    Ok(row)
}

// The same, with room for all of them from the third on.
fn roomy(alloc: Global, count: u64) -> Result<NeedRow, AllocError> {
    let mut row = NeedRow::none();
    for node in 0..count {
        if node == 2 {
            row.make_room(alloc, count as usize)?;
        }
        row.push(alloc, need(alloc, node)?)?;
    }
    Ok(row)
}

// The same, where the last was put behind a list that is shared.
fn unshared(alloc: Global, count: u64) -> Result<NeedRow, AllocError> {
    let mut row = shared(alloc, count.saturating_sub(1))?;
    if count > 0 {
        row.push(alloc, need(alloc, count - 1)?)?;
    }
    Ok(row)
}

fn shared(alloc: Global, count: u64) -> Result<NeedRow, AllocError> {
    listed(alloc, count)?.share(alloc)
}

// The copy of a copy of a row. The two rows before it are let go.
fn copied(alloc: Global, row: NeedRow) -> Result<NeedRow, AllocError> {
    let once = made_from(row.copy(alloc), row)?;
    made_from(once.copy(alloc), once)
}

fn are_needs(needs: &[Need], count: u64) -> bool {
    for k in 0..needs.len() {
        if needs[k].node != k as u64 || needs[k].permitted.size() != 70 {
            return false;
        }
    }
    needs.len() as u64 == count
}

// Whether a row and its copies have so many needs.
fn is_copied(
    alloc: Global,
    row: Result<NeedRow, AllocError>,
    count: u64,
) -> Result<bool, AllocError> {
    let row = row?;
    let is_row = are_needs(row.as_slice(), count);
    let copy = copied(alloc, row)?;
    Ok(is_row && are_needs(copy.as_slice(), count))
}

#[test]
fn copies_have_the_needs_of_their_rows(rt: HostRuntime) -> Result<(), AllocError> {
    let alloc = rt.alloc();
    for count in 0u64..40 {
        assert!(rt; is_copied(alloc, listed(alloc, count), count)?, "{count}");
        assert!(rt; is_copied(alloc, shared(alloc, count), count)?, "{count}");
    }
    Ok(())
}

#[test]
fn needs_stand_behind_one_another(rt: HostRuntime) -> Result<(), AllocError> {
    let alloc = rt.alloc();
    for count in 0u64..40 {
        assert!(rt; is_copied(alloc, pushed(alloc, count), count)?, "{count}");
        assert!(rt; is_copied(alloc, roomy(alloc, count), count)?, "{count}");
        assert!(rt; is_copied(alloc, unshared(alloc, count), count)?, "{count}");
    }
    Ok(())
}

// The numbers of 30 places: 1, 3, 5 and so on.
fn numbers(alloc: Global) -> Result<Vec<u64>, AllocError> {
    let mut numbers = Vec::new(alloc);
    for place in 0u64..30 {
        numbers.push(2 * place + 1)?;
    }
    Ok(numbers)
}

fn number_at(place: usize) -> u64 {
    if place < 30 { 2 * place as u64 + 1 } else { 0 }
}

fn are_renumbered(needs: &[Need]) -> bool {
    for k in 0..needs.len() {
        if needs[k].node != number_at(k) {
            return false;
        }
    }
    true
}

// Whether a row is renumbered, and its copy isn't.
fn is_apart(
    alloc: Global,
    row: Result<NeedRow, AllocError>,
    count: u64,
) -> Result<bool, AllocError> {
    let mut row = row?;
    let copy = row.copy(alloc)?;
    let numbers = numbers(alloc)?;
    row.renumber(alloc, numbers.as_slice())?;
    Ok(are_renumbered(row.as_slice()) && are_needs(copy.as_slice(), count))
}

#[test]
fn targets_are_renumbered_in_one_row_alone(rt: HostRuntime) -> Result<(), AllocError> {
    let alloc = rt.alloc();
    for count in 0u64..40 {
        assert!(rt; is_apart(alloc, listed(alloc, count), count)?, "{count}");
        assert!(rt; is_apart(alloc, shared(alloc, count), count)?, "{count}");
    }
    Ok(())
}
