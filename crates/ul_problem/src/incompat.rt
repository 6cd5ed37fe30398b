//! Incompatibilities.
ghost use Rattle.std.specs.Prelude.{◌≡◌, ◌∷◌, [], IfOk};
ghost use Rattle.ul_problem.specs.Steps.{IsIncompat};

use crate::term::{Term, Terms};
use std::alloc::{AllocError, Global};
use std::marker::Model;
use ul_base::owned::beside;

// Terms as they are held: up to two, as most steps say them, in place, and more in a list.
#[derive(Drop)]
enum Held {
    One([Term; 1]),
    Two([Term; 2]),
    Listed(Terms),
}

/// Terms of an incompatibility that is made.
#[derive(Drop)]
pub(crate) struct Saying {
    held: Held,
}

impl Model for Saying {
    ghost use Rattle.std.specs.Prelude.{List};
    ghost use Rattle.ul_problem.specs.declared.term.Term.{Term};
    ghost use Rattle.ul_problem.specs.Held.{terms_in};

    ghost Value = { List Term };

    ghost view = { λ s. terms_in s.held };
}

impl Saying {
    pub(crate) fn one(term: Term) -> Saying
        ensures { result ≡ term ∷ [] }
    {
        Saying {
            held: Held::One([term]),
        }
    }

    pub(crate) fn two(first: Term, second: Term) -> Saying
        ensures { result ≡ first ∷ second ∷ [] }
    {
        Saying {
            held: Held::Two([first, second]),
        }
    }

    pub(crate) fn of(terms: Terms) -> Saying
        ensures { result ≡ terms }
    {
        Saying {
            held: Held::Listed(terms),
        }
    }

    fn terms(&self) -> &[Term]
        ensures { result.now ≡ self.now }
    {
        match &self.held {
            Held::One(terms) => &terms[..],
            Held::Two(terms) => &terms[..],
            Held::Listed(terms) => terms.as_slice(),
        }
    }

    fn copy(&self, alloc: Global) -> Result<Saying, AllocError>
        ensures { IfOk result (λ ts. ts ≡ self.now) }
    {
        match &self.held {
            Held::One([term]) => Ok(Saying::one(term.copy(alloc)?)),
            Held::Two([first, second]) => {
                let (first, second) = beside(first.copy(alloc)?, second.copy(alloc))?;
                Ok(Saying::two(first, second))
            }
            Held::Listed(terms) => Ok(Saying::of(terms.copy(alloc)?)),
        }
    }
}

/// Terms of which no serving selection has all: at most one on a node, in the order of nodes, and none that always holds.
#[derive(Drop)]
pub struct Incompat {
    terms: Saying,
}

impl Model for Incompat {
    ghost use Rattle.std.specs.Prelude.{List};
    ghost use Rattle.ul_problem.specs.declared.term.Term.{Term};
    ghost use Rattle.ul_problem.specs.Steps.{IsIncompat};

    ghost Value = { List Term };

    ghost view = { λ s. s.terms };

    ghost invariant = { λ s. IsIncompat s.terms };
}

impl Incompat {
    pub fn of(terms: Terms) -> Incompat
        requires { IsIncompat terms }
        ensures { result ≡ terms }
    {
        Incompat {
            terms: Saying::of(terms),
        }
    }

    /// What was said.
    pub(crate) fn said(terms: Saying) -> Incompat
        requires { IsIncompat terms }
        ensures { result ≡ terms }
    {
        Incompat { terms }
    }

    /// The terms.
    pub fn terms(&self) -> &[Term]
        ensures value { result.now ≡ self.now }
        ensures whole { IsIncompat self.now }
    {
        self.terms.terms()
    }

    /// The terms in a list of their own.
    pub fn to_terms(&self, alloc: Global) -> Result<Terms, AllocError>
        ensures { IfOk result (λ ts. ts ≡ self.now) }
    {
        Terms::copied(alloc, self.terms.terms())
    }

    /// An equal incompatibility.
    pub fn copy(&self, alloc: Global) -> Result<Incompat, AllocError>
        ensures { IfOk result (λ ts. ts ≡ self.now) }
    {
        let terms = self.terms.copy(alloc)?;
        Ok(Incompat { terms })
    }
}
