//! The fork answer of a project's supported region.
ghost use Rattle.std.specs.Prelude.{◌≡◌, IfOk, IfErr};
ghost use Rattle.ul_interner.specs.Known.{Knows};
ghost use Rattle.ul_requirement.specs.Truth.{base, with_extra};
ghost use Rattle.ul_tree.specs.Regions.{IsRegionTree};
ghost use Rattle.ul_tree.specs.Views.{tree_view};
ghost use Rattle.ul_algebra.specs.Spelled.{tree_of};
ghost use Rattle.ul_workers.specs.WorkerCount.{IsWorkerCount};
ghost use Rattle.ul_generations.specs.Answers.{Fails};
ghost use Rattle.ul_region.specs.Laws.{roots};
ghost use Rattle.ul_region.specs.Truths.{IsRegion};
ghost use Rattle.ul_forks.specs.Outcome.{IsOutcome};
ghost use Rattle.ul_forks.specs.Forked.{HasRegions, IsForked};
ghost use Rattle.ul_forks.specs.Judge.{IsReady, question_with};
ghost use Rattle.ul_forks.specs.Questions.{IsQuestion, IsReadyFor, view};

use crate::laws::judged_laws;
use crate::question::Question;
use crate::region_judge::RegionJudge;
use std::alloc::{AllocError, Global};
use std::sync::Wait;
use std::thread::Threads;
use ul_algebra::{Algebra, Diagram, DiagramLabel, DiagramPass};
use ul_base::{Gate, Name, Node};
use ul_generations::{ForkFault, Forked, Leaf};
use ul_interner::Interner;
use ul_prepared::Prepared;
use ul_problem::Derivation;
use ul_tree::Tree;
use ul_version::Version;
use ul_workers::Round;

/// The decisions of a leaf, in order. Each version has the text of its release in the catalog.
pub type Decisions = Vec<(Node, Version)>;

/// A region that nothing splits, with its path and the decisions of its best selection.
pub type ForkLeaf = Leaf<Diagram, Decisions>;

/// The leaves in path order, or the first refused region with a derivation.
pub type ForkAnswer = Forked<Diagram, Decisions, Derivation>;

/// The fork answer, and what it was found with.
#[derive(Drop)]
pub struct Forks<'i, 'q> {
    pub answer: ForkAnswer,
    /// The rounds of the workers, one for each generation.
    pub rounds: Vec<Round>,
    /// What all regions share.
    pub prepared: Prepared<'q>,
    /// An algebra on the interner, which knows all regions of the answer.
    pub algebra: Algebra<'i>,
}

// The node of a name with an extra.
fn extra_node(alloc: Global, name: &Name, extra: &Name) -> Result<Node, AllocError>
    ensures { IfOk result (λ n. n ≡ with_extra name.now extra.now) }
{
    let name = name.copy(alloc)?;
    let extra = extra.copy(alloc)?;
    Ok(Node {
        name,
        extra: Some(extra),
    })
}

// The node of a name without an extra.
fn base_node(alloc: Global, name: &Name) -> Result<Node, AllocError>
    ensures { IfOk result (λ n. n ≡ base name.now) }
{
    let name = name.copy(alloc)?;
    Ok(Node { name, extra: None })
}

/// The nodes that each selection of a project starts from: its base, and then its extras.
///
/// # Errors
///
/// Only for want of memory.
pub fn start_nodes(alloc: Global, name: &Name, extras: &[Name]) -> Result<Vec<Node>, AllocError>
    ensures { IfOk result (λ v. v.items ≡ roots name.now extras.now) }
{
    let mut nodes = Vec::new(alloc);
    nodes.push(base_node(alloc, name)?)?;
    for extra in extras {
        let node = extra_node(alloc, name, extra)?;
        nodes.push(node)?;
    }
    Ok(nodes)
}

// The fork answer of a region's diagram, by what all regions share.
fn forks_by<'p, R: Threads + Wait + Sync, G: Gate + Sync>(
    rt: &R,
    alloc: Global,
    workers: u64,
    interner: &Interner<DiagramLabel>,
    pass: &mut DiagramPass,
    prepared: &'p Prepared<'_>,
    extras: &'p [Name],
    gate: &G,
    region: Diagram,
) -> Result<(ForkAnswer, Vec<Round>), ForkFault>
    requires workers { IsWorkerCount workers }
    requires own { pass.old.table ≡ interner.now }
    requires ready { IsReady pass.old prepared.now extras.now }
    requires region { IsRegion pass.old region }
    ensures knows { Knows pass.old pass.new }
    ensures answer { IfOk result (λ r. IsForked (question_with prepared.now extras.now) (tree_of region)
        workers r.0 r.1.items) }
    ensures fault { IfErr result (λ e. Fails (IsOutcome (question_with prepared.now extras.now)) (tree_of region) e) }
    ensures regions { IfOk result (λ r. HasRegions pass.new r.0) }
{
    judged_laws();
    let judge = RegionJudge { prepared, extras };
    ul_generations::fork_all(rt, alloc, workers, interner, pass, &judge, gate, region)
}

// The fork answer of a region's diagram.
fn forks_from<'i, 'q, R: Threads + Wait + Sync, G: Gate + Sync>(
    rt: &R,
    alloc: Global,
    workers: u64,
    interner: &'i Interner<DiagramLabel>,
    mut algebra: Algebra<'i>,
    gate: &G,
    question: &Question<'q>,
    region: Diagram,
) -> Result<Forks<'i, 'q>, ForkFault>
    requires workers { IsWorkerCount workers }
    requires own { algebra.table ≡ interner.now }
    requires question { IsQuestion question.now }
    requires region { IsRegion algebra region }
    ensures answer { IfOk result (λ f. IsForked (view question.now) (tree_of region) workers f.answer f.rounds.items) }
    ensures fault { IfErr result (λ e. Fails (IsOutcome (view question.now)) (tree_of region) e) }
    ensures knows { IfOk result (λ f. Knows algebra.entry f.algebra) }
    ensures regions { IfOk result (λ f. HasRegions f.algebra f.answer) }
    ensures shared { IfOk result (λ f. IsReadyFor f.algebra question.now f.prepared) }
{
    let prepared = Prepared::of(
        rt,
        alloc,
        &mut algebra,
        question.catalog,
        question.starts,
        question.wish,
    )?;
    let mut pass = algebra.end();
    let (answer, rounds) = forks_by(
        rt,
        alloc,
        workers,
        interner,
        &mut pass,
        &prepared,
        question.extras,
        gate,
        region,
    )?;
    let algebra = Algebra::begin(alloc, interner, pass);
    Ok(Forks {
        answer,
        rounds,
        prepared,
        algebra,
    })
}

/// The fork answer of a region to a question.
///
/// From 1 to 64 workers judge the regions, and the answer is the same for every number of them. There is one round for
/// each generation, with as many results as it has regions. Each region's job enters the gate first, with its number in
/// its generation.
///
/// # Errors
///
/// `TooManyForks` exactly where there are more than 2,048 leaves and open regions, with their number.
pub fn fork_all<'i, 'q, R: Threads + Wait + Sync, G: Gate + Sync>(
    rt: &R,
    alloc: Global,
    workers: u64,
    interner: &'i Interner<DiagramLabel>,
    pass: DiagramPass,
    gate: &G,
    question: &Question<'q>,
    region: &Tree,
) -> Result<Forks<'i, 'q>, ForkFault>
    requires workers { IsWorkerCount workers }
    requires own { pass.table ≡ interner.now }
    requires question { IsQuestion question.now }
    requires region { IsRegionTree (tree_view region.now) }
    ensures answer { IfOk result (λ f. IsForked (view question.now) (tree_view region.now) workers f.answer
        f.rounds.items) }
    ensures fault { IfErr result (λ e. Fails (IsOutcome (view question.now)) (tree_view region.now) e) }
    ensures knows { IfOk result (λ f. Knows pass f.algebra) }
    ensures regions { IfOk result (λ f. HasRegions f.algebra f.answer) }
    ensures shared { IfOk result (λ f. IsReadyFor f.algebra question.now f.prepared) }
{
    let mut algebra = Algebra::begin(alloc, interner, pass);
    let whole = algebra.of_tree(rt, alloc, region)?;
    let forks = forks_from(rt, alloc, workers, interner, algebra, gate, question, whole)?;
    Ok(forks)
}
