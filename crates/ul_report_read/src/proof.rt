//! What a derivation file says.
ghost use Rattle.std.specs.Prelude.{◌≡◌};

use std::marker::Model;
use ul_lock::Region;
use ul_report::Steps;

/// The path of a fork: at each split, whether it is the second part.
#[derive(Drop)]
pub struct Path {
    digits: Vec<bool>,
}

impl Model for Path {
    ghost use Rattle.std.specs.Prelude.{List, Bool};

    ghost Value = { List Bool };

    ghost view = { λ p. p.digits.items };
}

impl Path {
    /// This path.
    pub fn of(digits: Vec<bool>) -> Path
        ensures { result ≡ digits.items }
    {
        Path { digits }
    }

    /// The digits.
    pub fn as_slice(&self) -> &[bool]
        ensures { result.now ≡ self.now }
    {
        self.digits.as_slice()
    }

    /// The digits.
    pub fn into_vec(self) -> Vec<bool>
        ensures { result.items ≡ self }
    {
        self.digits
    }
}

/// A fork that no selection serves, and the steps that show it.
#[derive(Drop)]
pub struct Proof {
    /// The fork's path; none for the whole region.
    pub path: Path,
    /// The fork's region.
    pub region: Region,
    /// The steps, by names and versions.
    pub steps: Steps,
}
