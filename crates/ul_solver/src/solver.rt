//! The solver: the best selection of a problem, or a derivation that there is none.
//!
//! **What is solved.** A problem has nodes with versions, and each version needs versions of other nodes. A selection serves where it has
//! the roots, each extra with its base at the same version, only versions that are fit, and each need of each of its versions. Of those that
//! serve, the best is wanted: its decisions begin with the roots; each further node is the first undecided one in the joined needs of the
//! decided nodes, in the order of decision; and each version is the first in its node's order with which some serving selection agrees with
//! all decisions up to it.
//!
//! **By which rules.** Unit propagation with learned incompatibilities, as in PubGrub, after the conflict-driven clause learning of SAT
//! solvers. A decision takes the first version that no fact excludes. A version that was passed over is excluded by a fact, and facts follow
//! from the earlier decisions; so no serving selection that agrees with them has it, and a finished trail's decisions are the best list. A
//! conflict is resolved: either to learned incompatibilities and a lower level where the last of them derives something new, or to a
//! derivation that no selection serves. The steps of a version are held only once it is certain or about to be decided (`opened`), so that
//! what is looked at grows with the selection and not with the index.
//!
//! **By which measure it ends.** A list of numbers, one for each level from 0 to the number of nodes, compared from level 0 on. The number
//! of a reached level is how many options, versions or being absent, the facts up to that level leave open; that of a level that isn't
//! reached is more than there are. A decision reaches a level; a backjump with the propagation after it lowers the number of the level that
//! it goes to. The list is read as the digits of one number. A turn in which steps are held may leave it; but then fewer versions are left
//! whose steps aren't held, and their number counts first. There is no budget.
//!
//! **What is known to be slow.** Problems that only long derivations refuse, such as ten pigeons in nine holes: the number of learned steps
//! grows by a factor with each pigeon, and none is ever forgotten. A node with many thousand incompatibilities is looked at whole each time a
//! fact on it is new. A conflict goes down the facts one by one, so that a jump over many thousand decisions takes time by their number.
ghost use Rattle.std.specs.Prelude.{◌≡◌, ◌<◌, IfOk, Some, false, length, true};
ghost use Rattle.ul_problem.specs.Plain.{size_of};
ghost use Rattle.ul_problem.specs.Best.{next_of};
ghost use Rattle.ul_conflict.specs.Headline.{IsBackjump};
ghost use Rattle.ul_trail.specs.Facts.{is_open, level_of, picks_of};
ghost use Rattle.ul_trail.specs.Moves.{HasSteps};
ghost use Rattle.ul_trail.specs.Propagation.{IsConflict, IsQuiet, IsProgress};
ghost use Rattle.ul_solver.specs.Headline.{IsAnswered};
ghost use Rattle.ul_solver.specs.Opened.{IsOpened, is_opened};
ghost use Rattle.ul_solver.specs.State.{IsState, IsFirstOpen};
ghost use Rattle.ul_solver.specs.Turns.{IsFollowed, IsMove, IsTurn};

use crate::opened::{Opened, look, mark_learned, none_opened, open_block};
use std::alloc::{AllocError, Global};
use ul_conflict::{Outcome, resolve};
use ul_problem::{Derivation, Problem, Step};
use ul_trail::{Progress, Trail};

/// What a turn comes to.
#[derive(Drop)]
pub enum Turn {
    Again(Progress),
    Finished,
    Refused(Derivation),
}

/// The answer.
#[derive(Drop)]
pub enum Answer {
    Best {
        picks: Vec<(u64, u32)>,
        trail: Trail,
    },
    Nothing(Derivation),
}

// The first version of the next node that no fact excludes.
fn choose(alloc: Global, problem: &Problem, trail: &Trail, node: u64) -> Result<u32, AllocError>
    requires state { IsState problem.now trail.now }
    requires quiet { IsQuiet problem.now trail.now }
    requires held { HasSteps problem.now (picks_of trail.now.facts) trail.now.steps }
    requires next { next_of problem.now (picks_of trail.now.facts) ≡ Some node }
    ensures there { IfOk result (λ v. v < size_of problem.now node) }
    ensures open { IfOk result (λ v. is_open trail.now.facts node (Some v) ≡ true) }
    ensures first { IfOk result (λ v. IsFirstOpen problem.now trail.now.facts node v) }
{
    let _ = problem.roots();
    let allowed = trail.allowed(alloc, problem, node)?;
    let order = problem.order_at(node);
    match allowed.first_in(order) {
        Some(version) => Ok(version),
        None => unreachable!(),
    }
}

// A decision and what follows.
fn decide(
    alloc: Global,
    problem: &Problem,
    trail: &mut Trail,
    opened: &Opened,
    node: u64,
    version: u32,
) -> Result<Progress, AllocError>
    requires state { IsState problem.now trail.old }
    requires opened { IsOpened problem.now trail.old opened.now }
    requires looked { opened.now.looked ≡ length trail.old.facts }
    requires quiet { IsQuiet problem.now trail.old }
    requires next { next_of problem.now (picks_of trail.old.facts) ≡ Some node }
    requires there { version < size_of problem.now node }
    requires open { is_open trail.old.facts node (Some version) ≡ true }
    requires first { IsFirstOpen problem.now trail.old.facts node version }
    ensures { IfOk result (λ g. IsMove problem.now trail.old opened.now trail.new opened.now g) }
{
    trail.decide(alloc, problem, node, version)?;
    let progress = trail.propagate(alloc, problem)?;
    Ok(progress)
}

// The steps of a version that isn't opened, with those of the ones behind it, and what follows.
fn widen(
    alloc: Global,
    problem: &Problem,
    trail: &mut Trail,
    opened: &mut Opened,
    node: u64,
    version: u32,
) -> Result<Progress, AllocError>
    requires state { IsState problem.now trail.old }
    requires opened { IsOpened problem.now trail.old opened.old }
    requires node { node < length problem.now.nodes }
    requires version { version < size_of problem.now node }
    requires closed { is_opened opened.old.versions.items node version ≡ false }
    ensures { IfOk result (λ g. IsMove problem.now trail.old opened.old trail.new opened.new g) }
{
    open_block(alloc, problem, trail, opened, node, version)?;
    let progress = trail.propagate(alloc, problem)?;
    Ok(progress)
}

// The next node's first open version: its steps where they aren't held, else its decision; and what follows.
fn forward(
    alloc: Global,
    problem: &Problem,
    trail: &mut Trail,
    opened: &mut Opened,
    node: u64,
) -> Result<Progress, AllocError>
    requires state { IsState problem.now trail.old }
    requires opened { IsOpened problem.now trail.old opened.old }
    requires looked { opened.old.looked ≡ length trail.old.facts }
    requires quiet { IsQuiet problem.now trail.old }
    requires next { next_of problem.now (picks_of trail.old.facts) ≡ Some node }
    ensures { IfOk result (λ g. IsMove problem.now trail.old opened.old trail.new opened.new g) }
{
    let _ = problem.roots();
    let version = choose(alloc, problem, trail, node)?;
    if opened.versions[node as usize].has(version) {
        decide(alloc, problem, trail, opened, node, version)
    } else {
        widen(alloc, problem, trail, opened, node, version)
    }
}

// What follows steps that were opened.
fn follow(
    alloc: Global,
    problem: &Problem,
    trail: &mut Trail,
    opened: &Opened,
) -> Result<Progress, AllocError>
    requires state { IsState problem.now trail.old }
    requires opened { IsOpened problem.now trail.old opened.now }
    ensures { IfOk result (λ g. IsFollowed problem.now trail.old trail.new opened.now g) }
{
    let progress = trail.propagate(alloc, problem)?;
    Ok(progress)
}

// A backjump and what follows.
fn backward(
    alloc: Global,
    problem: &Problem,
    trail: &mut Trail,
    opened: &mut Opened,
    level: u64,
    learned: Vec<Step>,
) -> Result<Progress, AllocError>
    requires state { IsState problem.now trail.old }
    requires opened { IsOpened problem.now trail.old opened.old }
    requires jump { IsBackjump problem.now trail.old level learned.items }
    ensures { IfOk result (λ g. IsMove problem.now trail.old opened.old trail.new opened.new g) }
{
    mark_learned(&mut opened.counts, learned.as_slice());
    trail.back(alloc, problem, level, learned)?;
    opened.looked = trail.facts().len();
    opened.patience = opened.patience.saturating_sub(1);
    let progress = trail.propagate(alloc, problem)?;
    Ok(progress)
}

// A turn behind propagation that came to its end: steps that are opened, a decision, or the end.
fn after_quiet(
    alloc: Global,
    problem: &Problem,
    trail: &mut Trail,
    opened: &mut Opened,
) -> Result<Turn, AllocError>
    requires state { IsState problem.now trail.old }
    requires opened { IsOpened problem.now trail.old opened.old }
    requires quiet { IsQuiet problem.now trail.old }
    ensures { IfOk result (λ r. IsTurn problem.now trail.old opened.old trail.new opened.new r) }
{
    if look(alloc, problem, trail, opened)? {
        let next = follow(alloc, problem, trail, opened)?;
        return Ok(Turn::Again(next));
    }
    match trail.next(problem) {
        None => Ok(Turn::Finished),
        Some(node) => {
            let next = forward(alloc, problem, trail, opened, node)?;
            Ok(Turn::Again(next))
        }
    }
}

// A turn behind a conflict: a backjump, or the end.
fn after_conflict(
    alloc: Global,
    problem: &Problem,
    trail: &mut Trail,
    opened: &mut Opened,
    place: u64,
) -> Result<Turn, AllocError>
    requires state { IsState problem.now trail.old }
    requires opened { IsOpened problem.now trail.old opened.old }
    requires conflict { IsConflict problem.now trail.old place }
    ensures { IfOk result (λ r. IsTurn problem.now trail.old opened.old trail.new opened.new r) }
{
    let outcome = resolve(alloc, problem, trail, place)?;
    match outcome {
        Outcome::Closed(derivation) => Ok(Turn::Refused(derivation)),
        Outcome::Backjump { level, learned } => {
            let next = backward(alloc, problem, trail, opened, level, learned)?;
            Ok(Turn::Again(next))
        }
    }
}

// One turn: a decision, a backjump, steps that are opened, or the end.
fn advance(
    alloc: Global,
    problem: &Problem,
    trail: &mut Trail,
    opened: &mut Opened,
    progress: Progress,
) -> Result<Turn, AllocError>
    requires state { IsState problem.now trail.old }
    requires opened { IsOpened problem.now trail.old opened.old }
    requires progress { IsProgress problem.now trail.old progress }
    ensures { IfOk result (λ r. IsTurn problem.now trail.old opened.old trail.new opened.new r) }
{
    match progress {
        Progress::Conflict(place) => after_conflict(alloc, problem, trail, opened, place),
        Progress::Quiet => after_quiet(alloc, problem, trail, opened),
    }
}

// A trail that is begun.
fn start(alloc: Global, problem: &Problem) -> Result<Trail, AllocError>
    ensures state { IfOk result (λ t. IsState problem.now t) }
    ensures first { IfOk result (λ t. level_of t.facts ≡ 0) }
{
    let _ = problem.roots();
    let trail = Trail::begin(alloc, problem)?;
    Ok(trail)
}

/// The best selection, or a derivation that there is none.
pub fn solve(alloc: Global, problem: &Problem) -> Result<Answer, AllocError>
    ensures { IfOk result (λ a. IsAnswered problem.now a) }
{
    let _ = problem.roots();
    let mut trail = start(alloc, problem)?;
    let mut opened = none_opened(alloc, problem)?;
    let mut progress = follow(alloc, problem, &mut trail, &opened)?;
    loop {
        let next = advance(alloc, problem, &mut trail, &mut opened, progress)?;
        match next {
            Turn::Again(more) => {
                progress = more;
            }
            Turn::Finished => {
                let picks = trail.picks(alloc)?;
                return Ok(Answer::Best { picks, trail });
            }
            Turn::Refused(derivation) => return Ok(Answer::Nothing(derivation)),
        }
    }
}
