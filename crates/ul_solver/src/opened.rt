//! The versions whose steps the trail holds.
//!
//! The steps of a version are held when they are wanted: of a version that the facts make certain at once, of another one
//! before it is decided. A version whose needs clash with the facts is then excluded by its own step, without a conflict.
//! Where a node is asked for a further version, those behind it in its order are opened with it, twice as many each time,
//! so that a node of many versions that all clash takes few turns and few conflicts. Of a node that took part in a conflict
//! all are: where decisions clash again and again, a version that can't be is best seen before it is decided. Where there
//! are more conflicts than an eighth of the versions, the rest is opened at once.
ghost use Rattle.std.specs.Prelude.{◌≡◌, ◌+◌, ◌<◌, ◌≤◌, IfOk, IfSome, false, length};
ghost use Rattle.ul_problem.specs.Plain.{size_of};
ghost use Rattle.ul_solver.specs.Opened.{AreClosedTo, IsOpened, is_opened};
ghost use Rattle.ul_solver.specs.State.{IsState};
ghost use Rattle.ul_solver.specs.Turns.{HasOpened, HasWidened, IsLook, IsLookedOver};
ghost use Rattle.ul_trail.specs.Certain.{IsCertainAt};

use std::alloc::{AllocError, Global};
use ul_problem::{Problem, Step, Term};
use ul_ranges::Ordinals;
use ul_trail::Trail;

/// The versions whose steps are held.
#[derive(Drop)]
pub struct Opened {
    /// The set of them, node by node.
    pub versions: Vec<Ordinals>,
    /// How many further ones are opened with the next one, node by node; the greatest number stands for all.
    pub counts: Vec<u32>,
    /// How many facts were looked at for versions that they make certain.
    pub looked: usize,
    /// After how many further conflicts all versions of all nodes are opened.
    pub patience: u64,
}

// No version of any node.
fn closed_rows(alloc: Global, problem: &Problem) -> Result<Vec<Ordinals>, AllocError>
    ensures { IfOk result (λ v. AreClosedTo problem.now (length problem.now.nodes) v.items) }
{
    let count = problem.nodes().len();
    let mut rows = Vec::with_capacity(alloc, count)?;
    for node in 0..count {
        let row = Ordinals::none(alloc, problem.size_at(node as u64))?;
        rows.push(row)?;
    }
    Ok(rows)
}

// How many versions all nodes have.
fn count_versions(problem: &Problem) -> u64 {
    let mut count = 0u64;
    for node in 0..problem.nodes().len() {
        count = count.saturating_add(problem.size_at(node as u64) as u64);
    }
    count
}

/// No version is opened, and no fact was looked at.
pub fn none_opened(alloc: Global, problem: &Problem) -> Result<Opened, AllocError>
    ensures rows { IfOk result (λ o. AreClosedTo problem.now (length problem.now.nodes) o.versions.items) }
    ensures counts { IfOk result (λ o. length o.counts.items ≡ length problem.now.nodes) }
    ensures looked { IfOk result (λ o. o.looked ≡ 0) }
{
    let versions = closed_rows(alloc, problem)?;
    let counts = vec![in alloc; 0u32; versions.len()]?;
    Ok(Opened {
        versions,
        counts,
        looked: 0,
        patience: count_versions(problem) / 8,
    })
}

// Holds the steps of a version.
fn open(
    alloc: Global,
    problem: &Problem,
    trail: &mut Trail,
    opened: &mut Opened,
    node: u64,
    version: u32,
) -> Result<(), AllocError>
    requires state { IsState problem.now trail.old }
    requires opened { IsOpened problem.now trail.old opened.old }
    requires node { node < length problem.now.nodes }
    requires version { version < size_of problem.now node }
    requires closed { is_opened opened.old.versions.items node version ≡ false }
    ensures { IfOk result (λ _. HasOpened problem.now trail.old opened.old node version trail.new opened.new) }
{
    let one = Ordinals::one(problem.size_at(node), version);
    let row = opened.versions[node as usize].join(alloc, &one)?;
    trail.hold(alloc, problem, node, version)?;
    opened.versions[node as usize] = row;
    Ok(())
}

// Holds the steps of a version, if they aren't. The answer is whether they weren't.
fn open_unless(
    alloc: Global,
    problem: &Problem,
    trail: &mut Trail,
    opened: &mut Opened,
    node: u64,
    version: u32,
) -> Result<bool, AllocError>
    requires state { IsState problem.now trail.old }
    requires opened { IsOpened problem.now trail.old opened.old }
    requires node { node < length problem.now.nodes }
    requires version { version < size_of problem.now node }
    ensures { IfOk result (λ _. HasWidened problem.now trail.old opened.old trail.new opened.new) }
{
    if opened.versions[node as usize].has(version) {
        return Ok(false);
    }
    open(alloc, problem, trail, opened, node, version)?;
    Ok(true)
}

// The place of a version in an order, or the order's end.
fn place_in(order: &[u32], version: u32) -> usize
    ensures { result ≤ length order.now }
{
    for place in 0..order.len() {
        if order[place] == version {
            return place;
        }
    }
    order.len()
}

// Holds the steps of the versions behind this one in a node's order: of so many whose steps aren't held.
fn open_more(
    alloc: Global,
    problem: &Problem,
    trail: &mut Trail,
    opened: &mut Opened,
    node: u64,
    version: u32,
    count: u32,
) -> Result<(), AllocError>
    requires state { IsState problem.now trail.old }
    requires opened { IsOpened problem.now trail.old opened.old }
    requires node { node < length problem.now.nodes }
    ensures { IfOk result (λ _. HasWidened problem.now trail.old opened.old trail.new opened.new) }
{
    let _ = problem.roots();
    let order = problem.order_at(node);
    let mut left = count;
    let first = if count == u32::MAX {
        0
    } else {
        place_in(order, version)
    };
    for place in first..order.len() {
        if left == 0 {
            return Ok(());
        }
        if open_unless(alloc, problem, trail, opened, node, order[place])? {
            left = left.saturating_sub(1);
        }
    }
    Ok(())
}

// With the next version of a node all are opened.
fn mark(counts: &mut Vec<u32>, node: u64)
    ensures { length counts.new.items ≡ length counts.old.items }
{
    let at = node as usize;
    if at < counts.len() {
        counts[at] = u32::MAX;
    }
}

// With the next version of the terms' nodes all are.
fn mark_terms(counts: &mut Vec<u32>, terms: &[Term])
    ensures { length counts.new.items ≡ length counts.old.items }
{
    for term in terms {
        mark(counts, term.node());
    }
}

fn mark_step(counts: &mut Vec<u32>, step: &Step)
    ensures { length counts.new.items ≡ length counts.old.items }
{
    match step {
        Step::Need { node, target, .. } => {
            mark(counts, *node);
            mark(counts, *target);
        }
        Step::Python { node, .. } | Step::Base { node, .. } => mark(counts, *node),
        Step::Cut { node, terms, .. } => {
            mark(counts, *node);
            mark_terms(counts, terms.as_slice());
        }
    }
}

/// With the next version of each node that took part in a conflict, by what was learned from it, all of the node are opened.
pub fn mark_learned(counts: &mut Vec<u32>, learned: &[Step])
    ensures { length counts.new.items ≡ length counts.old.items }
{
    for step in learned {
        mark_step(counts, step);
    }
}

// Holds the steps of all versions of all nodes.
fn open_all(
    alloc: Global,
    problem: &Problem,
    trail: &mut Trail,
    opened: &mut Opened,
) -> Result<(), AllocError>
    requires state { IsState problem.now trail.old }
    requires opened { IsOpened problem.now trail.old opened.old }
    ensures { IfOk result (λ _. HasWidened problem.now trail.old opened.old trail.new opened.new) }
{
    for node in 0..problem.nodes().len() {
        open_more(alloc, problem, trail, opened, node as u64, 0, u32::MAX)?;
    }
    Ok(())
}

// Holds the steps of the versions behind this one in a node's order, of so many; or of all versions, where conflicts
// are so many that holding them costs less than finding each conflict.
fn open_further(
    alloc: Global,
    problem: &Problem,
    trail: &mut Trail,
    opened: &mut Opened,
    node: u64,
    version: u32,
    count: u32,
) -> Result<(), AllocError>
    requires state { IsState problem.now trail.old }
    requires opened { IsOpened problem.now trail.old opened.old }
    requires node { node < length problem.now.nodes }
    ensures { IfOk result (λ _. HasWidened problem.now trail.old opened.old trail.new opened.new) }
{
    if opened.patience == 0 {
        open_all(alloc, problem, trail, opened)
    } else {
        open_more(alloc, problem, trail, opened, node, version, count)
    }
}

/// Holds the steps of a version that isn't opened, with those of the ones behind it.
pub fn open_block(
    alloc: Global,
    problem: &Problem,
    trail: &mut Trail,
    opened: &mut Opened,
    node: u64,
    version: u32,
) -> Result<(), AllocError>
    requires state { IsState problem.now trail.old }
    requires opened { IsOpened problem.now trail.old opened.old }
    requires node { node < length problem.now.nodes }
    requires version { version < size_of problem.now node }
    requires closed { is_opened opened.old.versions.items node version ≡ false }
    ensures { IfOk result (λ _. HasOpened problem.now trail.old opened.old node version trail.new opened.new) }
{
    let count = opened.counts[node as usize];
    open(alloc, problem, trail, opened, node, version)?;
    open_further(alloc, problem, trail, opened, node, version, count)?;
    opened.counts[node as usize] = count.saturating_mul(2).saturating_add(1);
    Ok(())
}

// Looks at a fact: holds the steps of its node's version, if that is certain and they aren't held. The answer is whether
// they weren't.
fn look_at(
    alloc: Global,
    problem: &Problem,
    trail: &mut Trail,
    opened: &mut Opened,
    place: usize,
) -> Result<bool, AllocError>
    requires state { IsState problem.now trail.old }
    requires opened { IsOpened problem.now trail.old opened.old }
    requires next { opened.old.looked ≡ place }
    requires there { place < length trail.old.facts }
    ensures { IfOk result (λ any. IsLook problem.now trail.old opened.old trail.new opened.new (place + 1) any) }
{
    let _ = trail.facts().len();
    match trail.certain(problem, place) {
        None => {
            opened.looked = place + 1;
            Ok(false)
        }
        Some((node, version)) => {
            if opened.versions[node as usize].has(version) {
                opened.looked = place + 1;
                return Ok(false);
            }
            open_block(alloc, problem, trail, opened, node, version)?;
            opened.looked = place + 1;
            Ok(true)
        }
    }
}

/// Looks at the facts that are new, up to one that makes a version certain whose steps weren't held: they are then. The
/// answer is whether there was one.
pub fn look(
    alloc: Global,
    problem: &Problem,
    trail: &mut Trail,
    opened: &mut Opened,
) -> Result<bool, AllocError>
    requires state { IsState problem.now trail.old }
    requires opened { IsOpened problem.now trail.old opened.old }
    ensures { IfOk result (λ any. IsLookedOver problem.now trail.old opened.old trail.new opened.new any) }
{
    let count = trail.facts().len();
    for place in opened.looked..count {
        if look_at(alloc, problem, trail, opened, place)? {
            return Ok(true);
        }
    }
    Ok(false)
}
