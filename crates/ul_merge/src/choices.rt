//! What leaves chose, by node.
ghost use Rattle.std.specs.Prelude.{◌≡◌, IfOk, map, option_map};
ghost use Rattle.ul_index.specs.Serves.{choice_of};
ghost use Rattle.ul_merge.specs.Chosen.{ArePlaces, choice_at, first_of};
ghost use Rattle.ul_merge.specs.Numbers.{node_number};
ghost use Rattle.ul_merge.specs.Views.{picks_of};

use crate::numbers::node_number;
use std::alloc::{AllocError, Global};
use std::collections::HashMap;
use std::marker::Model;
use ul_algebra::Diagram;
use ul_base::Node;
use ul_base::owned::with_made;
use ul_generations::Leaf;
use ul_version::Version;

/// What a leaf chose. Contracts see it as the leaf's selection.
#[derive(Drop)]
pub(crate) struct Choices<'a> {
    picks: &'a [(Node, Version)],
    // Where the first pick stands whose node has a number.
    places: HashMap<u64, usize>,
}

impl<'a> Model for Choices<'a> {
    ghost use Rattle.ul_index.specs.Serves.{Selection};
    ghost use Rattle.ul_merge.specs.Chosen.{ArePlaces};

    ghost Value = { Selection };

    ghost view = { λ c. c.picks.now };

    ghost invariant = { λ c. ArePlaces c.picks.now c.places };
}

// Where the first pick stands of those whose node has a number.
fn places_of(alloc: Global, picks: &[(Node, Version)]) -> Result<HashMap<u64, usize>, AllocError>
    ensures { IfOk result (ArePlaces picks.now) }
{
    let mut places = HashMap::new(alloc);
    for place in (0..picks.len()).rev() {
        places.insert(node_number(&picks[place].0), place)?;
    }
    Ok(places)
}

// The version of the first pick of a node.
#[tactic(auto, unfolding(ul_index::specs::Serves::choice_of))]
fn version_in<'a>(picks: &'a [(Node, Version)], node: &Node) -> Option<&'a Version>
    ensures { option_map (λ v. v.now) result ≡ choice_of picks.now node.now }
{
    for pick in picks {
        if pick.0 == *node {
            return Some(&pick.1);
        }
    }
    None
}

impl<'a> Choices<'a> {
    pub(crate) fn of(alloc: Global, picks: &'a [(Node, Version)]) -> Result<Choices<'a>, AllocError>
        ensures { IfOk result (λ c. c ≡ picks.now) }
    {
        let places = places_of(alloc, picks)?;
        Ok(Choices { picks, places })
    }

    /// The picks, in their order.
    pub(crate) fn picks(&self) -> &'a [(Node, Version)]
        ensures { result.now ≡ self.now }
    {
        self.picks
    }

    // The first pick whose node has a number.
    fn first(&self, number: u64) -> Option<&'a (Node, Version)>
        ensures { option_map (λ d. d.now) result ≡ first_of self.now number }
    {
        let place = *self.places.get(&number)?;
        self.picks.get(place)
    }

    /// The version that was chosen for a node, by the node's number.
    #[tactic(auto, using(crate::proofs::Places::no_version, crate::proofs::Places::own_version))]
    pub(crate) fn version(&self, node: &Node, number: u64) -> Option<&'a Version>
        requires { number ≡ node_number node.now }
        ensures { option_map (λ v. v.now) result ≡ choice_of self.now node.now }
    {
        match self.first(number) {
            Some(pick) => {
                if pick.0 == *node {
                    return Some(&pick.1);
                }
                version_in(self.picks, node)
            }
            None => None,
        }
    }
}

/// The version that the leaf at a place chose for a node, by the node's number.
pub(crate) fn version_at<'a>(
    choices: &[Choices<'a>],
    leaf: usize,
    node: &Node,
    number: u64,
) -> Option<&'a Version>
    requires { number ≡ node_number node.now }
    ensures { option_map (λ v. v.now) result ≡ choice_at choices.now leaf node.now }
{
    match choices.get(leaf) {
        Some(one) => one.version(node, number),
        None => None,
    }
}

/// What each leaf chose, in order.
pub(crate) fn choices_of<'a>(
    alloc: Global,
    leaves: &'a [Leaf<Diagram, Vec<(Node, Version)>>],
) -> Result<Vec<Choices<'a>>, AllocError>
    ensures { IfOk result (λ v. v.items ≡ map picks_of leaves.now) }
{
    let mut choices = Vec::with_capacity(alloc, leaves.len())?;
    for leaf in leaves {
        let one = Choices::of(alloc, leaf.done.as_slice());
        choices = with_made(choices, one)?;
    }
    Ok(choices)
}
