//! The roots' facts.
ghost use Rattle.std.specs.Prelude.{◌≡◌, ◌<◌, ◌++◌, ◌∷◌, [], length, false, IfOk};
ghost use Rattle.ul_problem.specs.Plain.{size_of, needs_of};
ghost use Rattle.ul_problem.specs.Best.{is_decided, targets, joined_needs};
ghost use Rattle.ul_trail.specs.Counts.{sizes_of};
ghost use Rattle.ul_trail.specs.Propagation.{root_fact, root_facts};
ghost use Rattle.ul_trail.specs.Standing.{IsStanding};
ghost use Rattle.ul_trail.specs.Watched.{IsWatched};
ghost use Rattle.ul_trail.specs.Parts.{AppendsRoot, AsksNeeds, Stands};
ghost use Rattle.ul_trail.specs.Kept.{IsIndexed};
ghost use Rattle.ul_trail.specs.Roots.{root_picks};

use crate::asking::pick;
use crate::deciding::decision;
use crate::fact::Fact;
use crate::standing::Standing;
use crate::watching::Row;
use std::alloc::{AllocError, Global};
use ul_problem::{Problem, Term};
use ul_ranges::Ordinals;

/// What is picked and asked for.
#[derive(Drop)]
pub struct Asked {
    pub picks: Vec<(u64, u32)>,
    pub positions: Vec<usize>,
    pub queue: Vec<u64>,
}

/// The number of versions of each node.
pub fn sizes(alloc: Global, problem: &Problem) -> Result<Vec<u32>, AllocError>
    ensures { IfOk result (λ v. v.items ≡ sizes_of problem.now) }
{
    let nodes = problem.nodes();
    let mut sizes = Vec::with_capacity(alloc, nodes.len())?;
    for facts in nodes {
        sizes.push(facts.barred.size())?;
    }
    Ok(sizes)
}

/// Of each node a term that holds of every option.
pub fn opens(alloc: Global, sizes: &[u32]) -> Result<Vec<Term>, AllocError>
    ensures { IfOk result (λ v. IsStanding sizes.now v.items [] []) }
{
    let mut known = Vec::with_capacity(alloc, sizes.len())?;
    for node in 0..sizes.len() {
        let none = Ordinals::none(alloc, sizes[node])?;
        known.push(Term::NotIn(node as u64, none))?;
    }
    Ok(known)
}

/// So many empty rows.
pub fn empty_rows(alloc: Global, count: usize) -> Result<Vec<Row>, AllocError>
    ensures watched { IfOk result (λ v. IsWatched [] v.items) }
    ensures width { IfOk result (λ v. length v.items ≡ count) }
{
    let mut rows = Vec::with_capacity(alloc, count)?;
    for _ in 0..count {
        rows.push(Row::empty(alloc))?;
    }
    Ok(rows)
}

// The fact of one root.
fn plant_one(
    alloc: Global,
    problem: &Problem,
    standing: &mut Standing,
    asked: &mut Asked,
    root: u64,
) -> Result<(), AllocError>
    requires standing { Stands standing.old }
    requires sizes { standing.old.sizes.items ≡ sizes_of problem.now }
    requires root { root < length problem.now.nodes }
    requires single { size_of problem.now root ≡ 1 }
    requires indexed { IsIndexed asked.old.picks.items asked.old.positions.items }
    requires positions { length asked.old.positions.items ≡ length problem.now.nodes }
    requires undecided { is_decided root asked.old.picks.items ≡ false }
    ensures standing { IfOk result (λ _. Stands standing.new) }
    ensures sizes { IfOk result (λ _. standing.new.sizes.items ≡ standing.old.sizes.items) }
    ensures facts { IfOk result (λ _. AppendsRoot problem.now root standing.old standing.new) }
    ensures picks { IfOk result (λ _. asked.new.picks.items ≡ asked.old.picks.items ++ (root, 0) ∷ []) }
    ensures indexed { IfOk result (λ _. IsIndexed asked.new.picks.items asked.new.positions.items) }
    ensures positions { IfOk result (λ _. length asked.new.positions.items ≡ length asked.old.positions.items) }
    ensures queue { IfOk result (λ _. AsksNeeds problem.now root asked.old asked.new) }
{
    pick(
        &mut asked.picks,
        &mut asked.positions,
        &mut asked.queue,
        (root, 0),
        problem.needs_at(root, 0),
    )?;
    let term = decision(problem.size_at(root), root, 0);
    standing.push(
        alloc,
        Fact {
            term,
            level: 0,
            cause: None,
        },
    )?;
    Ok(())
}

/// The roots' facts.
pub fn plant(
    alloc: Global,
    problem: &Problem,
    standing: &mut Standing,
    asked: &mut Asked,
) -> Result<(), AllocError>
    requires standing { Stands standing.old }
    requires sizes { standing.old.sizes.items ≡ sizes_of problem.now }
    requires facts { standing.old.facts.items ≡ [] }
    requires picks { asked.old.picks.items ≡ [] }
    requires positions { length asked.old.positions.items ≡ length problem.now.nodes }
    requires queue { asked.old.queue.items ≡ problem.now.roots }
    ensures standing { IfOk result (λ _. Stands standing.new) }
    ensures sizes { IfOk result (λ _. standing.new.sizes.items ≡ sizes_of problem.now) }
    ensures facts { IfOk result (λ _. standing.new.facts.items ≡ root_facts problem.now problem.now.roots) }
    ensures picks { IfOk result (λ _. asked.new.picks.items ≡ root_picks problem.now.roots) }
    ensures indexed { IfOk result (λ _. IsIndexed asked.new.picks.items asked.new.positions.items) }
    ensures positions { IfOk result (λ _. length asked.new.positions.items ≡ length problem.now.nodes) }
    ensures queue { IfOk result (λ _. asked.new.queue.items
        ≡ problem.now.roots ++ joined_needs problem.now (root_picks problem.now.roots)) }
{
    let roots = problem.roots();
    for place in 0..roots.len() {
        plant_one(alloc, problem, standing, asked, roots[place])?;
    }
    Ok(())
}
