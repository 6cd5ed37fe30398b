//! Steps of a derivation.
ghost use Rattle.std.specs.Prelude.{◌≡◌, IfOk};

use crate::term::Terms;
use std::alloc::{AllocError, Global};
use std::marker::Model;
use ul_base::owned::beside;
use ul_ranges::Ordinals;

/// A step. It says that no serving selection has all of some terms.
#[derive(Drop)]
pub enum Step {
    /// Each of the versions of the node has a need of the target whose permitted versions are all in `permitted`: not the node at
    /// these versions with the target elsewhere.
    Need {
        node: u64,
        versions: Ordinals,
        target: u64,
        permitted: Ordinals,
    },
    /// None of the versions of the node is fit: not the node at these versions.
    Python {
        node: u64,
        versions: Ordinals,
    },
    /// The node has an extra: not the node at these versions with its base elsewhere.
    Base {
        node: u64,
        versions: Ordinals,
    },
    /// The resolvent of two earlier steps on a node. Their numbers are from 1.
    Cut {
        left: u64,
        right: u64,
        node: u64,
        terms: Terms,
    },
}

impl Step {
    /// An equal step.
    pub fn copy(&self, alloc: Global) -> Result<Step, AllocError>
        ensures { IfOk result (λ s. s ≡ self.now) }
    {
        match self {
            Step::Need {
                node,
                versions,
                target,
                permitted,
            } => {
                let (versions, permitted) = beside(versions.copy(alloc)?, permitted.copy(alloc))?;
                Ok(Step::Need {
                    node: *node,
                    versions,
                    target: *target,
                    permitted,
                })
            }
            Step::Python { node, versions } => {
                let versions = versions.copy(alloc)?;
                Ok(Step::Python {
                    node: *node,
                    versions,
                })
            }
            Step::Base { node, versions } => {
                let versions = versions.copy(alloc)?;
                Ok(Step::Base {
                    node: *node,
                    versions,
                })
            }
            Step::Cut {
                left,
                right,
                node,
                terms,
            } => {
                let terms = terms.copy(alloc)?;
                Ok(Step::Cut {
                    left: *left,
                    right: *right,
                    node: *node,
                    terms,
                })
            }
        }
    }
}

/// The steps of a derivation.
#[derive(Drop)]
pub struct Derivation {
    steps: Vec<Step>,
}

impl Model for Derivation {
    ghost use Rattle.std.specs.Prelude.{List};
    ghost use Rattle.ul_problem.specs.declared.step.Step.{Step};

    ghost Value = { List Step };

    ghost view = { λ s. s.steps.items };
}

impl Derivation {
    pub fn of(steps: Vec<Step>) -> Derivation
        ensures { result ≡ steps.items }
    {
        Derivation { steps }
    }

    pub fn as_slice(&self) -> &[Step]
        ensures { result.now ≡ self.now }
    {
        self.steps.as_slice()
    }

    pub fn into_vec(self) -> Vec<Step>
        ensures { result.items ≡ self }
    {
        self.steps
    }
}
