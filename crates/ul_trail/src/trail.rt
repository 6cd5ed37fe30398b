//! The trail.
ghost use Rattle.std.specs.Prelude.{◌≡◌, ◌+◌, ◌++◌, ◌∷◌, ◌<◌, ◌≤◌, ◌^◌, ◌⊎◌, [], List, ℕ, length, IfOk, IfSome, slice_get, get_or, take, Some, None, suc, true};
ghost use Rattle.ul_trail.specs.Facts.{IsAllowed, is_open, picks_of, level_of, up_to};
ghost use Rattle.ul_trail.specs.Watched.{places_on};
ghost use Rattle.ul_trail.specs.Standing.{versions_in};
ghost use Rattle.ul_problem.specs.Plain.{size_of};
ghost use Rattle.ul_problem.specs.Best.{next_of};
ghost use Rattle.ul_problem.specs.Steps.{AreRightAfter};
ghost use Rattle.ul_trail.specs.Headline.{IsPropagated};
ghost use Rattle.ul_trail.specs.Propagation.{IsTrailOf, AreForbidden, root_facts};
ghost use Rattle.ul_trail.specs.First.{steps_for};
ghost use Rattle.ul_trail.specs.Parts.{IsOpenBefore};
ghost use Rattle.ul_trail.specs.Moves.{AppendsDecision, HasPythons};
ghost use Rattle.ul_trail.specs.Certain.{IsCertainAt, IsOnlyMember, IsOnlyOption};

use crate::asking::{first_undecided, pick};
use crate::beginning::{node_steps, version_steps};
use crate::deciding::decision;
use crate::fact::{Fact, Progress};
use crate::held_steps::HeldSteps;
use crate::holding::{hold, unwind};
use crate::mark::Mark;
use crate::propagation::{Cursor, spread};
use crate::rooting::{Asked, empty_rows, opens, plant, sizes};
use crate::standing::Standing;
use crate::watching::Watching;
use std::alloc::{AllocError, Global};
use std::marker::Model;
use ul_problem::{Incompat, Problem, Step, Term};
use ul_ranges::Ordinals;

/// The held steps, what is decided and derived, and what it leaves open.
#[derive(Drop)]
pub struct Trail {
    held: HeldSteps,
    watching: Watching,
    standing: Standing,
    cursor: Cursor,
    marks: Vec<Mark>,
    picks: Vec<(u64, u32)>,
    positions: Vec<usize>,
    queue: Vec<u64>,
    first: usize,
    whole: bool,
}

impl Model for Trail {
    ghost use Rattle.std.specs.Prelude.{◌≡◌, true, length};
    ghost use Rattle.ul_trail.specs.Track.{Track};

    ghost Value = { Track };

    ghost use Rattle.ul_trail.specs.HeldSteps.{steps_in};
    ghost use Rattle.ul_trail.specs.Kept.{IsKept, turns_of};

    ghost view = { λ s. record { steps = steps_in s.held s.watching.terms.items; terms = s.watching.terms.items; facts = s.standing.facts.items; sizes = s.standing.sizes.items; width = length s.watching.rows.items; queue = s.queue.items; turns = turns_of s.marks.items; whole = s.whole } };

    ghost invariant = { λ s. s.whole ≡ true → IsKept s };
}

impl Trail {
    /// No decision: a fact for each root, and the steps of the versions that aren't fit.
    pub fn begin(alloc: Global, problem: &Problem) -> Result<Trail, AllocError>
        ensures right { IfOk result (λ t. IsTrailOf problem.now t) }
        ensures facts { IfOk result (λ t. t.facts ≡ root_facts problem.now problem.now.roots) }
        ensures pythons { IfOk result (λ t. HasPythons problem.now t.steps) }
    {
        let nodes = problem.nodes();
        let mut trail = rooted(alloc, problem)?;
        for node in 0..nodes.len() {
            let steps = node_steps(alloc, &nodes[node], node as u64)?;
            trail.learn(alloc, problem, steps)?;
        }
        Ok(trail)
    }

    /// Holds the steps that a version gives.
    pub fn hold(
        &mut self,
        alloc: Global,
        problem: &Problem,
        node: u64,
        version: u32,
    ) -> Result<(), AllocError>
        requires right { IsTrailOf problem.now self.old }
        requires node { node < length problem.now.nodes }
        requires version { version < size_of problem.now node }
        ensures kept { IfOk result (λ _. IsTrailOf problem.now self.new) }
        ensures steps { IfOk result (λ _. self.new.steps ≡ self.old.steps ++ steps_for problem.now node version) }
        ensures facts { IfOk result (λ _. self.new.facts ≡ self.old.facts) }
    {
        let nodes = problem.nodes();
        let steps = version_steps(alloc, &nodes[node as usize], node, version)?;
        self.learn(alloc, problem, steps)?;
        Ok(())
    }

    /// How many steps are held.
    pub fn count(&self) -> usize
        ensures value { result ≡ length self.now.steps }
        ensures few { result < 2 ^ 63 }
    {
        self.held.places.len()
    }

    /// The held step at a place. An error is want of memory.
    pub fn step(&self, alloc: Global, place: usize) -> Result<Step, AllocError>
        requires { place < length self.now.steps }
        ensures { IfOk result (λ s. slice_get self.now.steps place ≡ Some s) }
    {
        let step = self.held.step(alloc, place, self.watching.terms_at(place))?;
        Ok(step)
    }

    /// The held steps. An error is want of memory.
    pub fn steps(&self, alloc: Global) -> Result<Vec<Step>, AllocError>
        ensures { IfOk result (λ v. v.items ≡ self.now.steps) }
    {
        let count = self.count();
        let mut steps = Vec::with_capacity(alloc, count)?;
        for place in 0..count {
            let step = self.step(alloc, place)?;
            steps.push(step)?;
        }
        Ok(steps)
    }

    /// The facts.
    pub fn facts(&self) -> &Vec<Fact>
        ensures { result.now.items ≡ self.now.facts }
    {
        &self.standing.facts
    }

    /// The incompatibility that the held step at a place says.
    pub fn terms(&self, place: u64) -> &Incompat
        requires { place < length self.now.terms }
        ensures { slice_get self.now.terms place ≡ Some result.now }
    {
        &self.watching.terms[place as usize]
    }

    /// What was open of the node of the fact at a place before it.
    pub fn before(&self, place: usize) -> &Term
        requires whole { self.now.whole ≡ true }
        requires place { place < length self.now.facts }
        ensures { IsOpenBefore self.now place result.now }
    {
        &self.standing.before[place]
    }

    /// The places of the held incompatibilities with a term on a node, increasing.
    pub fn watched(&self, node: u64) -> &Vec<u64>
        requires whole { self.now.whole ≡ true }
        requires node { node < self.now.width }
        ensures { result.now.items ≡ places_on node self.now.terms }
    {
        self.watching.rows[node as usize].as_vec()
    }

    /// The roots and then the decisions.
    pub fn picks(&self, alloc: Global) -> Result<Vec<(u64, u32)>, AllocError>
        requires { self.now.whole ≡ true }
        ensures { IfOk result (λ v. v.items ≡ picks_of self.now.facts) }
    {
        Vec::from_slice(alloc, self.picks.as_slice())
    }

    /// The versions of a node that no fact excludes.
    pub fn allowed(
        &self,
        alloc: Global,
        problem: &Problem,
        node: u64,
    ) -> Result<Ordinals, AllocError>
        requires right { IsTrailOf problem.now self.now }
        requires node { node < length problem.now.nodes }
        ensures { IfOk result (λ s. IsAllowed self.now.facts node (size_of problem.now node) s) }
    {
        let _ = problem.roots();
        allowed_by(alloc, &self.standing.known[node as usize])
    }

    /// Unit propagation over the held steps.
    pub fn propagate(&mut self, alloc: Global, problem: &Problem) -> Result<Progress, AllocError>
        requires right { IsTrailOf problem.now self.old }
        ensures { IfOk result (λ r. IsPropagated problem.now self.old self.new r) }
    {
        let _ = problem.roots();
        let level = self.marks.len() as u64;
        self.whole = false;
        let progress = spread(
            alloc,
            &self.watching,
            &mut self.standing,
            &mut self.cursor,
            level,
        )?;
        self.whole = true;
        Ok(progress)
    }

    /// The node of the fact at a place with its version, where the facts leave no other option of the node open.
    pub fn certain(&self, problem: &Problem, place: usize) -> Option<(u64, u32)>
        requires right { IsTrailOf problem.now self.now }
        requires place { place < length self.now.facts }
        ensures { IsCertainAt problem.now self.now.facts place result }
    {
        let _ = problem.roots();
        let node = self.standing.facts[place].term.node();
        match only_option(&self.standing.known[node as usize]) {
            Some(version) => Some((node, version)),
            None => None,
        }
    }

    /// The next undecided node: of the roots and then the needs of the decided versions, in the order of decision.
    pub fn next(&self, problem: &Problem) -> Option<u64>
        requires right { IsTrailOf problem.now self.now }
        ensures { result ≡ next_of problem.now (picks_of self.now.facts) }
    {
        let _ = problem.roots();
        let queue = self.queue.as_slice();
        let place = first_undecided(
            queue,
            self.picks.as_slice(),
            self.positions.as_slice(),
            self.first,
        );
        if place < queue.len() {
            Some(queue[place])
        } else {
            None
        }
    }

    /// Decides the next node at a version.
    pub fn decide(
        &mut self,
        alloc: Global,
        problem: &Problem,
        node: u64,
        version: u32,
    ) -> Result<(), AllocError>
        requires right { IsTrailOf problem.now self.old }
        requires next { next_of problem.now (picks_of self.old.facts) ≡ Some node }
        requires there { version < size_of problem.now node }
        requires open { is_open self.old.facts node (Some version) ≡ true }
        ensures kept { IfOk result (λ _. IsTrailOf problem.now self.new) }
        ensures steps { IfOk result (λ _. self.new.steps ≡ self.old.steps) }
        ensures facts { IfOk result (λ _. AppendsDecision problem.now node version self.old.facts self.new.facts) }
    {
        let first = first_undecided(
            self.queue.as_slice(),
            self.picks.as_slice(),
            self.positions.as_slice(),
            self.first,
        );
        self.whole = false;
        let mark = mark_of(
            &self.standing,
            self.cursor,
            self.picks.len(),
            self.queue.len(),
            first,
        );
        self.marks.push(mark)?;
        pick(
            &mut self.picks,
            &mut self.positions,
            &mut self.queue,
            (node, version),
            problem.needs_at(node, version),
        )?;
        let term = decision(problem.size_at(node), node, version);
        let level = self.marks.len() as u64;
        self.standing.push(
            alloc,
            Fact {
                term,
                level,
                cause: None,
            },
        )?;
        self.first = first;
        self.whole = true;
        Ok(())
    }

    /// Goes back to a level, and holds learned steps.
    pub fn back(
        &mut self,
        alloc: Global,
        problem: &Problem,
        level: u64,
        learned: Vec<Step>,
    ) -> Result<(), AllocError>
        requires right { IsTrailOf problem.now self.old }
        requires level { level ≤ level_of self.old.facts }
        requires learned { AreRightAfter problem.now self.old.steps learned.items }
        requires forbidden { AreForbidden problem.now learned.items }
        ensures kept { IfOk result (λ _. IsTrailOf problem.now self.new) }
        ensures steps { IfOk result (λ _. self.new.steps ≡ self.old.steps ++ learned.items) }
        ensures facts { IfOk result (λ _. self.new.facts ≡ up_to level self.old.facts) }
    {
        self.rewind(problem, level);
        self.learn(alloc, problem, learned)
    }

    // Takes back the decisions above a level.
    fn rewind(&mut self, problem: &Problem, level: u64)
        requires right { IsTrailOf problem.now self.old }
        requires level { level ≤ level_of self.old.facts }
        ensures kept { IsTrailOf problem.now self.new }
        ensures steps { self.new.steps ≡ self.old.steps }
        ensures facts { self.new.facts ≡ up_to level self.old.facts }
    {
        let _ = problem.roots();
        if (level as usize) < self.marks.len() {
            let mark = self.marks[level as usize];
            unwind(&mut self.standing, mark.facts);
            self.picks.truncate(mark.picks);
            self.queue.truncate(mark.queue);
            self.marks.truncate(level as usize);
            self.first = mark.first;
            self.cursor = Cursor {
                seen: mark.facts,
                checked: mark.checked,
            };
        }
    }

    // Holds steps more.
    fn learn(
        &mut self,
        alloc: Global,
        problem: &Problem,
        learned: Vec<Step>,
    ) -> Result<(), AllocError>
        requires right { IsTrailOf problem.now self.old }
        requires learned { AreRightAfter problem.now self.old.steps learned.items }
        requires forbidden { AreForbidden problem.now learned.items }
        ensures kept { IfOk result (λ _. IsTrailOf problem.now self.new) }
        ensures steps { IfOk result (λ _. self.new.steps ≡ self.old.steps ++ learned.items) }
        ensures facts { IfOk result (λ _. self.new.facts ≡ self.old.facts) }
    {
        let _ = problem.roots();
        self.whole = false;
        hold(alloc, problem, &mut self.watching, learned.as_slice())?;
        self.held.append(learned)?;
        self.whole = true;
        Ok(())
    }
}

// The versions that a term allows.
fn allowed_by(alloc: Global, known: &Term) -> Result<Ordinals, AllocError>
    ensures { IfOk result (λ s. s ≡ versions_in known.now) }
{
    match known {
        Term::In(_, set) => set.copy(alloc),
        Term::NotIn(_, set) => {
            let all = Ordinals::all(alloc, set.size())?;
            all.less(alloc, set)
        }
    }
}

// The one member of a set.
fn only_member(set: &Ordinals) -> Option<u32>
    ensures { IsOnlyMember set.now result }
{
    let _ = set.size();
    match set.next_from(0) {
        None => None,
        Some(first) => match set.next_from(first + 1) {
            None => Some(first),
            Some(_) => None,
        },
    }
}

// The version that a term allows, where it allows no other option.
fn only_option(known: &Term) -> Option<u32>
    ensures { IsOnlyOption known.now result }
{
    match known {
        Term::NotIn(_, _) => None,
        Term::In(_, set) => only_member(set),
    }
}

// A fact for each root, and no step.
fn rooted(alloc: Global, problem: &Problem) -> Result<Trail, AllocError>
    ensures right { IfOk result (λ t. IsTrailOf problem.now t) }
    ensures roots { IfOk result (λ t. t.facts ≡ root_facts problem.now problem.now.roots) }
    ensures steps { IfOk result (λ t. t.steps ≡ []) }
{
    let roots = problem.roots();
    let sizes = sizes(alloc, problem)?;
    let known = opens(alloc, sizes.as_slice())?;
    let positions = vec![in alloc; 0usize; sizes.len()]?;
    let queue = Vec::from_slice(alloc, roots)?;
    let rows = empty_rows(alloc, sizes.len())?;
    let terms = Vec::with_capacity(alloc, 0)?;
    let held = HeldSteps::with_room(alloc, 0)?;
    let mut standing = Standing {
        sizes,
        known,
        before: Vec::new(alloc),
        facts: Vec::new(alloc),
    };
    let mut asked = Asked {
        picks: Vec::new(alloc),
        positions,
        queue,
    };
    plant(alloc, problem, &mut standing, &mut asked)?;
    Ok(Trail {
        held,
        watching: Watching { terms, rows },
        standing,
        cursor: Cursor {
            seen: 0,
            checked: 0,
        },
        marks: Vec::new(alloc),
        picks: asked.picks,
        positions: asked.positions,
        queue: asked.queue,
        first: 0,
        whole: true,
    })
}

// A mark of what stands.
fn mark_of(standing: &Standing, cursor: Cursor, picks: usize, queue: usize, first: usize) -> Mark
    requires { cursor.seen ≤ length standing.now.facts.items }
    ensures facts { result.facts ≡ length standing.now.facts.items }
    ensures picks { result.picks ≡ picks }
    ensures queue { result.queue ≡ queue }
    ensures first { result.first ≡ first }
    ensures checked { result.checked ≤ cursor.checked }
    ensures settled { cursor.seen ≡ length standing.now.facts.items ⊎ result.checked ≡ 0 }
{
    let facts = standing.facts.len();
    let checked = if cursor.seen == facts {
        cursor.checked
    } else {
        0
    };
    Mark {
        facts,
        picks,
        queue,
        first,
        checked,
    }
}
