//! Numbers of the names of a release's requirements.
ghost use Rattle.std.specs.Option.{option_or};
ghost use Rattle.std.specs.Prelude.{◌≡◌, ◌<◌, ◌+◌, ℕ, List, All, IfOk, IsTrue, get_or, length};
ghost use Rattle.std.specs.HashMap.{get};
ghost use Rattle.std.specs.Str.{bytes_eq};
ghost use Rattle.ul_region.specs.Numbers;
ghost use Rattle.ul_region.specs.Numbers.{AreFirstNumbers, AreFirstPlaces, AreNextOthers, AreOthersFrom, ArePlacesOfFirst};
ghost use Rattle.ul_region.specs.Numbers.{HasNumber, IsFirstFrom, IsOtherFrom, RepeatsName};
ghost use Rattle.ul_region.specs.Numbers.{fields_in, numbers_of, or_zero, place_on};

use std::alloc::{AllocError, Global};
use std::collections::HashMap;
use ul_base::Name;
use ul_requirement::Requirement;

// Up to so many requirements are compared with each other; the names of more are looked up.
const FEW: usize = 16;

// Whether a requirement is on a name.
fn is_on(requirement: &Requirement, name: &Name) -> bool
    ensures { result ≡ bytes_eq requirement.now.name name.now }
{
    let own: &Name = &requirement.name;
    own.text() == name.text()
}

// The place of the first requirement on a name, or how many there are.
fn first_on(requirements: &[&Requirement], name: &Name) -> usize
    ensures { result ≡ Numbers.first_on name.now (fields_in requirements.now) }
{
    for (place, requirement) in requirements.iter().enumerate() {
        if is_on(requirement, name) {
            return place;
        }
    }
    requirements.len()
}

// The number of a requirement's name.
fn number_of(requirements: &[&Requirement], requirement: &Requirement) -> usize
    ensures { result ≡ Numbers.first_on requirement.now.name (fields_in requirements.now) }
{
    let name: &Name = &requirement.name;
    first_on(requirements, name)
}

// The numbers of names that are compared with each other.
fn few_numbers(alloc: Global, requirements: &[&Requirement]) -> Result<Vec<usize>, AllocError>
    ensures { IfOk result (λ v. v.items ≡ numbers_of (fields_in requirements.now)) }
{
    let mut numbers = Vec::with_capacity(alloc, requirements.len())?;
    for requirement in requirements {
        numbers.push(number_of(requirements, requirement))?;
    }
    Ok(numbers)
}

// Whether the requirement at a place is on the same name as the one before it.
fn repeats_name(requirements: &[&Requirement], place: usize) -> bool
    ensures { IsTrue result → RepeatsName (fields_in requirements.now) place }
{
    if place == 0 || place >= requirements.len() {
        return false;
    }
    let own: &Requirement = requirements[place];
    let name: &Name = &own.name;
    is_on(requirements[place - 1], name)
}

// Keeps the place of a requirement's name, where none is kept.
fn keep_first(
    alloc: Global,
    places: &mut HashMap<Name, usize>,
    requirement: &Requirement,
    place: usize,
) -> Result<(), AllocError>
    ensures { IfOk result (λ _. (n : List ℕ) → get bytes_eq places.new n
        ≡ option_or (get bytes_eq places.old n) (place_on requirement.now n place)) }
{
    let own: &Name = &requirement.name;
    if places.contains_key(own) {
        return Ok(());
    }
    let name = own.copy(alloc)?;
    places.insert(name, place)?;
    Ok(())
}

// Takes the requirement at a place, behind those before it. Mostly those on one name stand together.
fn take_place(
    alloc: Global,
    places: &mut HashMap<Name, usize>,
    requirements: &[&Requirement],
    place: usize,
) -> Result<(), AllocError>
    requires place { place < length requirements.now }
    requires taken { ArePlacesOfFirst (fields_in requirements.now) place places.old }
    ensures { IfOk result (λ _. ArePlacesOfFirst (fields_in requirements.now) (place + 1) places.new) }
{
    if repeats_name(requirements, place) {
        return Ok(());
    }
    keep_first(alloc, places, requirements[place], place)?;
    Ok(())
}

// Where the first requirement on each name stands.
fn first_places(
    alloc: Global,
    requirements: &[&Requirement],
) -> Result<HashMap<Name, usize>, AllocError>
    ensures { IfOk result (AreFirstPlaces (fields_in requirements.now)) }
{
    let mut places = HashMap::new(alloc);
    for place in 0..requirements.len() {
        take_place(alloc, &mut places, requirements, place)?;
    }
    Ok(places)
}

// The place that is kept for a requirement's name.
fn place_in(places: &HashMap<Name, usize>, requirement: &Requirement) -> usize
    ensures { result ≡ or_zero (get bytes_eq places.now requirement.now.name) }
{
    let name: &Name = &requirement.name;
    match places.get(name) {
        Some(place) => *place,
        None => 0,
    }
}

// The number of the name of the requirement at a place, behind the numbers of those before it.
fn next_number(
    places: &HashMap<Name, usize>,
    requirements: &[&Requirement],
    numbers: &[usize],
    place: usize,
) -> usize
    requires places { AreFirstPlaces (fields_in requirements.now) places.now }
    requires place { place < length requirements.now }
    requires numbers { AreFirstNumbers (fields_in requirements.now) place numbers.now }
    ensures { HasNumber (fields_in requirements.now) place result }
{
    if repeats_name(requirements, place) {
        return numbers[place - 1];
    }
    place_in(places, requirements[place])
}

// The numbers of names that are looked up.
fn many_numbers(alloc: Global, requirements: &[&Requirement]) -> Result<Vec<usize>, AllocError>
    ensures { IfOk result (λ v. v.items ≡ numbers_of (fields_in requirements.now)) }
{
    let places = first_places(alloc, requirements)?;
    let mut numbers = Vec::with_capacity(alloc, requirements.len())?;
    for place in 0..requirements.len() {
        let number = next_number(&places, requirements, numbers.as_slice(), place);
        numbers.push(number)?;
    }
    Ok(numbers)
}

/// Of each requirement the number of its name: the place of the first requirement on it.
///
/// # Errors
///
/// Only for want of memory.
#[tactic(auto, using(crate::proofs::NameNumbers::numbers_below, crate::proofs::NameNumbers::numbers_count))]
pub(crate) fn name_numbers(
    alloc: Global,
    requirements: &[&Requirement],
) -> Result<Vec<usize>, AllocError>
    ensures numbers { IfOk result (λ v. v.items ≡ numbers_of (fields_in requirements.now)) }
    ensures count { IfOk result (λ v. length v.items ≡ length requirements.now) }
    ensures below { IfOk result (λ v. All (λ n. n < length v.items) v.items) }
{
    if requirements.len() <= FEW {
        let numbers = few_numbers(alloc, requirements)?;
        return Ok(numbers);
    }
    let numbers = many_numbers(alloc, requirements)?;
    Ok(numbers)
}

// Of the number at a place the next place that has it and another truth, where the next place that has it is given, and
// the places after have theirs.
fn next_other(
    numbers: &[usize],
    truths: &[usize],
    next: &[usize],
    place: usize,
    later: usize,
) -> usize
    requires place { place < length numbers.now }
    requires truths { length truths.now ≡ length numbers.now }
    requires count { length next.now ≡ length numbers.now }
    requires later { IsFirstFrom numbers.now (place + 1) (get_or numbers.now place 0) later }
    requires next { AreOthersFrom numbers.now truths.now next.now (place + 1) }
    ensures { IsOtherFrom numbers.now truths.now (place + 1)
        (get_or numbers.now place 0) (get_or truths.now place 0) result }
{
    if later >= numbers.len() {
        return later;
    }
    if truths[later] != truths[place] {
        return later;
    }
    next[later]
}

/// Of the number at each place the next place that has it and another truth, or how many numbers there are.
///
/// # Errors
///
/// Only for want of memory.
pub(crate) fn next_others(
    alloc: Global,
    numbers: &[usize],
    truths: &[usize],
) -> Result<Vec<usize>, AllocError>
    requires below { All (λ n. n < length numbers.now) numbers.now }
    requires count { length truths.now ≡ length numbers.now }
    ensures next { IfOk result (λ v. AreNextOthers numbers.now truths.now v.items) }
    ensures count { IfOk result (λ v. length v.items ≡ length numbers.now) }
{
    let count = numbers.len();
    let mut seen = vec![in alloc; count; count]?;
    let mut next = vec![in alloc; count; count]?;
    for place in (0..count).rev() {
        let number = numbers[place];
        next[place] = next_other(numbers, truths, next.as_slice(), place, seen[number]);
        seen[number] = place;
    }
    Ok(next)
}
