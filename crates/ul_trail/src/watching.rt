//! The held incompatibilities, and of each node the places of those with a term on it.
ghost use Rattle.std.specs.Prelude.{◌≡◌, ◌++◌, ◌∷◌, [], length, get_or, IfOk};
ghost use Rattle.ul_problem.specs.Terms.{IsOrdered};
ghost use Rattle.ul_trail.specs.Parts.{Watches, AreBelow, AreListed};

use std::alloc::{AllocError, Global};
use std::marker::Model;
use ul_problem::{Incompat, Term};

/// Places of held incompatibilities.
#[derive(Drop)]
pub struct Row {
    places: Vec<u64>,
}

impl Model for Row {
    ghost use Rattle.std.specs.Prelude.{List, ℕ};

    ghost Value = { List ℕ };

    ghost view = { λ s. s.places.items };
}

impl Row {
    /// An empty row.
    pub fn empty(alloc: Global) -> Row
        ensures { result ≡ [] }
    {
        Row {
            places: Vec::new(alloc),
        }
    }

    pub fn as_vec(&self) -> &Vec<u64>
        ensures { result.now.items ≡ self.now }
    {
        &self.places
    }

    pub fn push(&mut self, place: u64) -> Result<(), AllocError>
        ensures { IfOk result (λ _. self.new ≡ self.old ++ place ∷ []) }
    {
        self.places.push(place)?;
        Ok(())
    }
}

/// The held incompatibilities and the rows of the nodes.
#[derive(Drop)]
pub struct Watching {
    pub terms: Vec<Incompat>,
    pub rows: Vec<Row>,
}

impl Watching {
    /// What is held at a place, or nothing past the end.
    pub fn terms_at(&self, place: usize) -> &[Term]
        ensures { result.now ≡ get_or self.now.terms.items place [] }
    {
        match self.terms.get(place) {
            Some(incompat) => incompat.terms(),
            None => &[],
        }
    }

    /// One more incompatibility, on the row of each of its nodes.
    pub fn push(&mut self, incompat: Incompat) -> Result<(), AllocError>
        requires watched { Watches self.old }
        requires ordered { IsOrdered incompat }
        requires nodes { AreBelow incompat (length self.old.rows.items) }
        ensures watched { IfOk result (λ _. Watches self.new) }
        ensures terms { IfOk result (λ _. self.new.terms.items ≡ self.old.terms.items ++ incompat ∷ []) }
        ensures width { IfOk result (λ _. length self.new.rows.items ≡ length self.old.rows.items) }
    {
        let place = self.terms.len();
        self.terms.push(incompat)?;
        list(&mut self.rows, place as u64, self.terms[place].terms())?;
        Ok(())
    }
}

// The place at the end of the row of each term's node.
fn list(rows: &mut Vec<Row>, place: u64, terms: &[Term]) -> Result<(), AllocError>
    requires ordered { IsOrdered terms.now }
    requires nodes { AreBelow terms.now (length rows.old.items) }
    ensures width { IfOk result (λ _. length rows.new.items ≡ length rows.old.items) }
    ensures rows { IfOk result (λ _. AreListed place terms.now rows.old.items rows.new.items) }
{
    for term in terms {
        let row = &mut rows[term.node() as usize];
        row.push(place)?;
    }
    Ok(())
}
