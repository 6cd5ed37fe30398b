//! Which of a name's versions specifiers permit. Equal specifiers on one name share one set.
ghost use Rattle.std.specs.Prelude.{◌≡◌, ◌<◌, [], All, IfOk, MatchOption, length, map};
ghost use Rattle.ul_specifier.specs.Meaning.{meets_list};
ghost use Rattle.ul_prepared.specs.Permitted.{IsPermitted, IsRising, IsSetOf};

use crate::clauses::permitted;
use crate::prepared::NameFacts;
use std::alloc::{AllocError, Global};
use std::collections::HashMap;
use ul_base::owned::beside;
use ul_ranges::Ordinals;
use ul_requirement::same_specifiers;
use ul_specifier::{Clause, Op, Specifiers};
use ul_version::{Segment, Version};

/// The versions of a name that specifiers permit.
#[derive(Drop)]
pub(crate) struct SetOf<'a> {
    pub(crate) name: usize,
    pub(crate) specifiers: &'a Specifiers,
    pub(crate) set: Ordinals,
}

/// Sets that were found, mostly each once.
#[derive(Drop)]
pub(crate) struct Sets<'a> {
    pub(crate) list: Vec<SetOf<'a>>,
    places: HashMap<u64, usize>,
}

// The versions of a name that specifiers permit.
fn permitted_of(
    alloc: Global,
    facts: &NameFacts,
    specifiers: &Specifiers,
) -> Result<Ordinals, AllocError>
    requires { IsRising facts.now }
    ensures { IfOk result (λ s. s ≡ map (meets_list specifiers.now) facts.now.versions) }
{
    permitted(alloc, specifiers, facts.versions.as_slice())
}

fn mixed(seed: u64, number: u64) -> u64 {
    seed.wrapping_mul(1_099_511_628_211).wrapping_add(number)
}

fn number_of(op: Op) -> u64 {
    match op {
        Op::Compatible => 1,
        Op::Equal => 2,
        Op::Unequal => 3,
        Op::AtMost => 4,
        Op::AtLeast => 5,
        Op::Less => 6,
        Op::More => 7,
        Op::Distinct => 8,
    }
}

// A number of the parts that tell the versions of one release apart.
fn suffix_print(seed: u64, version: &Version) -> u64 {
    let pre = match version.pre {
        Some(pre) => pre.number,
        None => 0,
    };
    let print = mixed(mixed(seed, pre), version.post.unwrap_or(0));
    mixed(print, version.dev.unwrap_or(0))
}

// A number of a part of a local part.
fn segment_print(seed: u64, segment: &Segment) -> u64 {
    match segment {
        Segment::Number(number) => mixed(seed, *number),
        Segment::Word(word) => {
            let mut print = seed;
            for byte in word.as_str().as_bytes() {
                print = mixed(print, *byte as u64);
            }
            print
        }
    }
}

// A number of a local part, by which alone exclusions often differ.
fn local_print(seed: u64, version: &Version) -> u64 {
    let mut print = seed;
    for segment in &version.local {
        print = segment_print(print, segment);
    }
    print
}

// A number of a clause: equal clauses have equal ones, and others mostly not.
fn print_of(seed: u64, clause: &Clause) -> u64 {
    let version: &Version = &clause.version;
    let mut print = mixed(seed, number_of(clause.op));
    for number in &version.release {
        print = mixed(print, *number);
    }
    local_print(suffix_print(print, version), version)
}

// A number of specifiers on a name: equal ones have equal ones, and others mostly not.
fn fingerprint(name: usize, specifiers: &Specifiers) -> u64 {
    let mut print = name as u64;
    for clause in &specifiers.clauses {
        print = print_of(print, clause);
    }
    print
}

impl<'a> Sets<'a> {
    pub(crate) fn new(alloc: Global) -> Sets<'a>
        ensures { result.list.items ≡ [] }
    {
        Sets {
            list: Vec::new(alloc),
            places: HashMap::new(alloc),
        }
    }

    // The set of a name and specifiers, if it is found where their number was put last.
    fn found(
        &self,
        names: &[NameFacts],
        key: u64,
        name: usize,
        specifiers: &Specifiers,
    ) -> Option<&Ordinals>
        requires { All (IsSetOf names.now) self.now.list.items }
        ensures { MatchOption result (Unit {0}) (λ s. IsPermitted names.now name specifiers.now s.now) }
    {
        let place = *self.places.get(&key)?;
        let list: &[SetOf<'a>] = self.list.as_slice();
        if place >= list.len() {
            return None;
        }
        let one: &SetOf<'a> = &list[place];
        if one.name != name || !same_specifiers(one.specifiers, specifiers) {
            return None;
        }
        Some(&one.set)
    }

    // Puts a set that wasn't found.
    fn put(&mut self, names: &[NameFacts], key: u64, one: SetOf<'a>) -> Result<(), AllocError>
        requires one { IsSetOf names.now one }
        requires sets { All (IsSetOf names.now) self.old.list.items }
        ensures { All (IsSetOf names.now) self.new.list.items }
    {
        let place = self.list.len();
        self.list.push(one)?;
        self.places.insert(key, place)?;
        Ok(())
    }

    /// The versions of the name at a place that specifiers permit.
    ///
    /// # Errors
    ///
    /// Only for want of memory.
    pub(crate) fn of(
        &mut self,
        alloc: Global,
        names: &[NameFacts],
        name: usize,
        specifiers: &'a Specifiers,
    ) -> Result<Ordinals, AllocError>
        requires name { name < length names.now }
        requires rising { All IsRising names.now }
        requires sets { All (IsSetOf names.now) self.old.list.items }
        ensures sets { All (IsSetOf names.now) self.new.list.items }
        ensures set { IfOk result (IsPermitted names.now name specifiers.now) }
    {
        let key = fingerprint(name, specifiers);
        if let Some(set) = self.found(names, key, name, specifiers) {
            let set = set.copy(alloc)?;
            return Ok(set);
        }
        let made = permitted_of(alloc, &names[name], specifiers)?;
        let copied = made.copy(alloc);
        let (own, copy) = beside(made, copied)?;
        let one = SetOf {
            name,
            specifiers,
            set: copy,
        };
        let both = beside(own, self.put(names, key, one))?;
        Ok(both.0)
    }
}
