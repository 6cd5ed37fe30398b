//! The steps of a derivation by names and versions, as its text has them.
//!
//! The lists are types of their own, which contracts see as their elements: each is made of a `Vec`, and gives it back
//! without taking memory.

ghost use Rattle.std.specs.Prelude.{◌≡◌};

use std::marker::Model;
use ul_base::Node;
use ul_version::Version;

/// Versions of a node.
#[derive(Drop)]
pub struct Versions {
    list: Vec<Version>,
}

impl Model for Versions {
    ghost use Rattle.std.specs.Prelude.{List};
    ghost use Rattle.ul_version.specs.Fields.{Fields};

    ghost Value = { List Fields };

    ghost view = { λ s. s.list.items };
}

impl Versions {
    /// These versions.
    pub fn of(list: Vec<Version>) -> Versions
        ensures { result ≡ list.items }
    {
        Versions { list }
    }

    /// The versions.
    pub fn as_slice(&self) -> &[Version]
        ensures { result.now ≡ self.now }
    {
        self.list.as_slice()
    }

    /// The versions.
    pub fn into_vec(self) -> Vec<Version>
        ensures { result.items ≡ self }
    {
        self.list
    }
}

/// What is said of a selection: `In`, that it has the node at one of the versions; `NotIn`, that this isn't so.
#[derive(Drop)]
pub enum TextTerm {
    In(Node, Versions),
    NotIn(Node, Versions),
}

/// Terms of a cut.
#[derive(Drop)]
pub struct Terms {
    list: Vec<TextTerm>,
}

impl Model for Terms {
    ghost use Rattle.std.specs.Prelude.{List};
    ghost use Rattle.ul_report.specs.declared.text_steps.TextTerm.{TextTerm};

    ghost Value = { List TextTerm };

    ghost view = { λ s. s.list.items };
}

impl Terms {
    /// These terms.
    pub fn of(list: Vec<TextTerm>) -> Terms
        ensures { result ≡ list.items }
    {
        Terms { list }
    }

    /// The terms.
    pub fn as_slice(&self) -> &[TextTerm]
        ensures { result.now ≡ self.now }
    {
        self.list.as_slice()
    }

    /// The terms.
    pub fn into_vec(self) -> Vec<TextTerm>
        ensures { result.items ≡ self }
    {
        self.list
    }
}

/// A step, which says that no serving selection has all of some terms.
#[derive(Drop)]
pub enum TextStep {
    /// Each of the versions of the node has a need of the target whose permitted versions are all in `permitted`.
    Need {
        node: Node,
        versions: Versions,
        target: Node,
        permitted: Versions,
    },
    /// None of the versions of the node is fit.
    Python {
        node: Node,
        versions: Versions,
    },
    /// The node has an extra, and needs its base at the same versions.
    Base {
        node: Node,
        versions: Versions,
    },
    /// The resolvent of two earlier steps on a node. Their numbers are from 1.
    Cut {
        left: u64,
        right: u64,
        node: Node,
        terms: Terms,
    },
}

/// The steps of a derivation.
#[derive(Drop)]
pub struct Steps {
    list: Vec<TextStep>,
}

impl Model for Steps {
    ghost use Rattle.std.specs.Prelude.{List};
    ghost use Rattle.ul_report.specs.declared.text_steps.TextStep.{TextStep};

    ghost Value = { List TextStep };

    ghost view = { λ s. s.list.items };
}

impl Steps {
    /// These steps.
    pub fn of(list: Vec<TextStep>) -> Steps
        ensures { result ≡ list.items }
    {
        Steps { list }
    }

    /// The steps.
    pub fn as_slice(&self) -> &[TextStep]
        ensures { result.now ≡ self.now }
    {
        self.list.as_slice()
    }

    /// The steps.
    pub fn into_vec(self) -> Vec<TextStep>
        ensures { result.items ≡ self }
    {
        self.list
    }
}
