//! The comparisons of a path, cut into steps: each asks one level of a tree.
ghost use Rattle.std.specs.Prelude.{◌≡◌, ◌≤◌, IfOk, IfSome, Some, map, take, drop, length, false};
ghost use Rattle.ul_tree.specs.Fans.{same_keys as same_plain_keys, same_step as same_plain_step};
ghost use Rattle.ul_nodes.specs.Keys.{level_view, key_view};
ghost use Rattle.ul_tree.specs.PathLaws as PathLaws;
ghost use Rattle.ul_tree.specs.Pieces.{packed_number};
ghost use Rattle.ul_nodes.specs.Plain.{carries};
ghost use Rattle.std.specs.Str.{bytes_eq};
ghost use Rattle.ul_marker_text.specs.Rows as Rows;
ghost use Rattle.ul_marker_text.specs.Rows.{after_keys, front_keys, steps_of};
ghost use Rattle.ul_marker_text.specs.StepViews.{plain_comparison, asked_view, comparison_key, comparison_level, front_view, row_view, step_view};

use crate::printing::END;
use std::alloc::{AllocError, Global};
use ul_marker::printed::Comparison;
use ul_nodes::level::{Key, Level};

/// A step of a path: what it asks of one level.
#[derive(Clone, Copy)]
pub enum Step<'r, 'm> {
    /// An interpreter from a number up to another.
    Interval(u128, u128),
    /// The key of a comparison.
    Point(Comparison<'m>),
    /// None of the keys of comparisons: a first one, and those after it.
    Others(Comparison<'m>, &'r [Comparison<'m>]),
}

/// What a comparison asks.
#[derive(Clone, Copy)]
pub enum Asked {
    /// The interpreter is at least a number.
    Lower(u128),
    /// The interpreter is below a number.
    Upper(u128),
    /// The level has the key.
    Same,
    /// The level has another key.
    Other,
}

// An interpreter as one number.
fn number_of(python: (u32, u32, u32)) -> u128
    ensures { result ≡ packed_number python.0 python.1 python.2 }
{
    let (major, minor, patch) = python;
    (u128::from(major) << 64) + (u128::from(minor) << 32) + u128::from(patch)
}

/// What a comparison asks.
pub fn asked_by(comparison: Comparison<'_>) -> Asked
    ensures { asked_view result comparison.entry ≡ plain_comparison comparison.entry }
{
    match comparison {
        Comparison::Bound { lower, python } => {
            if lower {
                return Asked::Lower(number_of(python));
            }
            Asked::Upper(number_of(python))
        }
        Comparison::Extra { equal, .. } => {
            if equal {
                return Asked::Same;
            }
            Asked::Other
        }
        Comparison::Text { equal, .. } => {
            if equal {
                return Asked::Same;
            }
            Asked::Other
        }
        Comparison::Opaque { holds, .. } => {
            if holds {
                return Asked::Same;
            }
            Asked::Other
        }
    }
}

/// The level of a comparison that asks for a key.
pub fn level_of<'m>(comparison: Comparison<'m>) -> Level<'m>
    ensures level { level_view result ≡ comparison_level comparison.entry }
    ensures points { carries (level_view result) ≡ false }
{
    match comparison {
        Comparison::Bound { .. } => Level::Extra,
        Comparison::Extra { .. } => Level::Extra,
        Comparison::Text { variable, .. } => Level::Text(variable),
        Comparison::Opaque { atom, .. } => Level::Opaque(atom),
    }
}

/// The key that a comparison asks for.
pub fn key_of<'m>(comparison: Comparison<'m>) -> Key<'m>
    ensures { key_view result ≡ comparison_key comparison.entry }
{
    match comparison {
        Comparison::Bound { .. } => Key::Holds,
        Comparison::Extra { literal, .. } => Key::Literal(literal),
        Comparison::Text { literal, .. } => Key::Literal(literal),
        Comparison::Opaque { .. } => Key::Holds,
    }
}

// Whether two comparisons ask for one level.
fn is_of_level(comparison: Comparison<'_>, other: Comparison<'_>) -> bool
    ensures { result ≡ bytes_eq (comparison_level comparison.entry) (comparison_level other.entry) }
{
    level_of(comparison).cmp(level_of(other)).is_eq()
}

/// Whether two comparisons ask for one key.
pub fn has_key(comparison: Comparison<'_>, other: Comparison<'_>) -> bool
    ensures { result ≡ bytes_eq (comparison_key comparison.entry) (comparison_key other.entry) }
{
    key_of(comparison).cmp(key_of(other)).is_eq()
}

// Whether a comparison says that the level of another hasn't a key.
fn is_other_of(first: Comparison<'_>, comparison: Comparison<'_>) -> bool
    ensures { result ≡ Rows.is_other (comparison_level first.entry) (plain_comparison comparison.entry) }
{
    match asked_by(comparison) {
        Asked::Lower(_) => false,
        Asked::Upper(_) => false,
        Asked::Same => false,
        Asked::Other => is_of_level(first, comparison),
    }
}

// How many comparisons at the front say that the level of another hasn't a key.
fn other_count(first: Comparison<'_>, row: &[Comparison<'_>]) -> usize
    ensures within { result ≤ length row.now }
    ensures keys { map comparison_key (take result row.now)
        ≡ front_keys (comparison_level first.entry) (row_view row.now) }
    ensures rest { row_view (drop result row.now) ≡ after_keys (comparison_level first.entry) (row_view row.now) }
{
    for index in 0..row.len() {
        if !is_other_of(first, row[index]) {
            return index;
        }
    }
    row.len()
}

// The interval that starts at a number, and how many comparisons of it follow.
fn interval_from<'r, 'm>(start: u128, row: &'r [Comparison<'m>]) -> (Step<'r, 'm>, usize)
    ensures front { Some (step_view result.0, row_view (drop result.1 row.now))
        ≡ Rows.interval_from start (row_view row.now) }
    ensures within { result.1 ≤ length row.now }
{
    let [next, ..] = row else {
        return (Step::Interval(start, END), 0);
    };
    match asked_by(*next) {
        Asked::Upper(end) => (Step::Interval(start, end), 1),
        Asked::Lower(_) => (Step::Interval(start, END), 0),
        Asked::Same => (Step::Interval(start, END), 0),
        Asked::Other => (Step::Interval(start, END), 0),
    }
}

// The step at the front of comparisons, and how many they are.
fn front_step<'r, 'm>(row: &'r [Comparison<'m>]) -> Option<(Step<'r, 'm>, usize)>
    ensures front { front_view row.now result ≡ Rows.front_step (row_view row.now) }
    ensures within { IfSome result (λ front. front.1 ≤ length row.now) }
{
    let [first, rest @ ..] = row else {
        return None;
    };
    match asked_by(*first) {
        Asked::Lower(start) => {
            let (step, count) = interval_from(start, rest);
            Some((step, count + 1))
        }
        Asked::Upper(end) => Some((Step::Interval(0, end), 1)),
        Asked::Same => Some((Step::Point(*first), 1)),
        Asked::Other => {
            let count = other_count(*first, rest);
            Some((Step::Others(*first, &rest[..count]), count + 1))
        }
    }
}

/// The steps of a path.
pub fn steps<'r, 'm>(
    alloc: Global,
    row: &'r [Comparison<'m>],
) -> Result<Vec<Step<'r, 'm>>, AllocError>
    ensures { IfOk result (λ v. map step_view v.items ≡ steps_of (length row.now) (row_view row.now)) }
{
    let mut found = Vec::new(alloc);
    let mut at = 0;
    for turn in 0..row.len() {
        match front_step(&row[at..]) {
            None => return Ok(found),
            Some((step, count)) => {
                found.push(step)?;
                at += count;
            }
        }
    }
    Ok(found)
}

// Whether the keys of comparisons are equal.
fn same_keys(row: &[Comparison<'_>], other: &[Comparison<'_>]) -> bool
    ensures { result ≡ same_plain_keys (map comparison_key row.now) (map comparison_key other.now) }
{
    let mut left = row;
    let mut right = other;
    while let [first, rest @ ..] = left {
        let [second, more @ ..] = right else {
            return false;
        };
        if !has_key(*first, *second) {
            return false;
        }
        left = rest;
        right = more;
    }
    right.is_empty()
}

/// Whether two steps are equal.
pub fn same_step(step: &Step<'_, '_>, other: &Step<'_, '_>) -> bool
    ensures { result ≡ same_plain_step (step_view step.now) (step_view other.now) }
{
    match step {
        Step::Interval(start, end) => match other {
            Step::Interval(begin, stop) => *start == *begin && *end == *stop,
            Step::Point(_) => false,
            Step::Others(_, _) => false,
        },
        Step::Point(comparison) => match other {
            Step::Interval(_, _) => false,
            Step::Point(found) => is_of_level(*comparison, *found) && has_key(*comparison, *found),
            Step::Others(_, _) => false,
        },
        Step::Others(first, row) => match other {
            Step::Interval(_, _) => false,
            Step::Point(_) => false,
            Step::Others(second, more) => {
                is_of_level(*first, *second) && has_key(*first, *second) && same_keys(row, more)
            }
        },
    }
}

/// The level of a step.
pub fn step_level<'m>(step: &Step<'_, 'm>) -> Level<'m>
    ensures { level_view result ≡ PathLaws.step_level (step_view step.now) }
{
    match step {
        Step::Interval(_, _) => Level::Python,
        Step::Point(comparison) => level_of(*comparison),
        Step::Others(first, _) => level_of(*first),
    }
}
