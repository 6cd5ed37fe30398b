//! What has been read, and which line may follow.
ghost use Rattle.std.specs.Prelude.{◌≡◌, ◌++◌, ◌∷◌, [], IfOk, bytes_eq};
ghost use Rattle.ul_report.specs.Texts.{world_text};
ghost use Rattle.ul_report_read.specs.Automaton as spec;
ghost use Rattle.ul_report_read.specs.Automaton.{final, step};
ghost use Rattle.ul_report_read.specs.declared.line.Line.TheVariants.{Step, World};
ghost use Rattle.ul_report_read.specs.declared.states.State.TheVariants.{Start, Titled, Forked, Bounded, Stepping};
ghost use Rattle.ul_tree.specs.Sample.{sample_of};

use crate::line::Line;
use crate::proof::{Path, Proof};
use std::alloc::{AllocError, Global};
use ul_base::owned::{beside, refused, with_one};
use ul_lines::same;
use ul_lock::Region;
use ul_lock_lines::Text;
use ul_report::{Steps, TextStep, sample_text};

/// What has been read of a text.
#[derive(Drop)]
pub enum State {
    Start,
    Titled,
    Forked(Path),
    Bounded(Path, Region),
    Stepping(Path, Region, Steps),
}

fn after_title(line: Line) -> Option<State>
    ensures { result ≡ step Titled line }
{
    match line {
        Line::Fork(path) => Some(State::Forked(path)),
        other => refused(other),
    }
}

fn after_fork(path: Path, line: Line) -> Option<State>
    ensures { result ≡ step (Forked path) line }
{
    match line {
        Line::Region(region) => Some(State::Bounded(path, region)),
        other => refused((path, other)),
    }
}

// Whether a text is that of the sample of a region.
fn is_sample(alloc: Global, region: &Region, text: &Text) -> Result<bool, AllocError>
    ensures { IfOk result (λ b. b ≡ bytes_eq text.now (world_text (sample_of region.now))) }
{
    let again = sample_text(alloc, region.as_tree())?;
    let is_same = same(text.as_bytes(), again.as_str().as_bytes());
    Ok(is_same)
}

// The state behind a world, if it is the sample of the region.
fn with_world(
    alloc: Global,
    path: Path,
    region: Region,
    text: Text,
) -> Result<Option<State>, AllocError>
    ensures { IfOk result (λ o. o ≡ step (Bounded path region) (World text)) }
{
    let sampled = is_sample(alloc, &region, &text);
    let (kept, is_sampled) = beside((path, region, text), sampled)?;
    if is_sampled {
        let (path, region, _) = kept;
        Ok(Some(State::Stepping(path, region, Steps::of(Vec::new(alloc)))))
    } else {
        Ok(refused(kept))
    }
}

fn after_region(
    alloc: Global,
    path: Path,
    region: Region,
    line: Line,
) -> Result<Option<State>, AllocError>
    ensures { IfOk result (λ o. o ≡ step (Bounded path region) line) }
{
    match line {
        Line::World(text) => with_world(alloc, path, region, text),
        other => Ok(refused((path, region, other))),
    }
}

// With one step more.
fn with(steps: Steps, step: TextStep) -> Result<Steps, AllocError>
    ensures { IfOk result (λ ss. ss ≡ steps ++ step ∷ []) }
{
    let list = with_one(steps.into_vec(), step)?;
    Ok(Steps::of(list))
}

// The state behind one more step, if it has the next number.
fn with_step(
    path: Path,
    region: Region,
    steps: Steps,
    number: u64,
    text: TextStep,
) -> Result<Option<State>, AllocError>
    ensures { IfOk result (λ o. o ≡ step (Stepping path region steps) (Step number text)) }
{
    let count = steps.as_slice().len() as u64;
    if number == count + 1 {
        let (kept, steps) = beside((path, region), with(steps, text))?;
        let (path, region) = kept;
        Ok(Some(State::Stepping(path, region, steps)))
    } else {
        Ok(refused((path, region, steps, text)))
    }
}

fn after_steps(
    path: Path,
    region: Region,
    steps: Steps,
    line: Line,
) -> Result<Option<State>, AllocError>
    ensures { IfOk result (λ o. o ≡ step (Stepping path region steps) line) }
{
    match line {
        Line::Step(number, text) => with_step(path, region, steps, number, text),
        other => Ok(refused((path, region, steps, other))),
    }
}

/// The state behind the line, if it may follow.
pub fn next(alloc: Global, state: State, line: Line) -> Result<Option<State>, AllocError>
    ensures { IfOk result (λ o. o ≡ step state line) }
{
    match state {
        State::Start => match line {
            Line::Title => Ok(Some(State::Titled)),
            other => Ok(refused(other)),
        },
        State::Titled => Ok(after_title(line)),
        State::Forked(path) => Ok(after_fork(path, line)),
        State::Bounded(path, region) => after_region(alloc, path, region, line),
        State::Stepping(path, region, steps) => after_steps(path, region, steps, line),
    }
}

/// What has been read, where the text may end here.
pub fn ended(state: State) -> Option<Proof>
    ensures { result ≡ final state }
{
    match state {
        State::Stepping(path, region, steps) => Some(Proof {
            path,
            region,
            steps,
        }),
        other => refused(other),
    }
}
