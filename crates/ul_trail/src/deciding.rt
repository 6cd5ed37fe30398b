//! The term of a decision.
ghost use Rattle.std.specs.Prelude.{◌≡◌, ◌<◌};
ghost use Rattle.ul_problem.specs.declared.term.Term.TheVariants.{In};
ghost use Rattle.ul_trail.specs.Facts.{one_of};

use ul_problem::Term;
use ul_ranges::Ordinals;

/// The set of one version.
pub fn single(size: u32, version: u32) -> Ordinals
    requires { version < size }
    ensures { result ≡ one_of size version }
{
    Ordinals::one(size, version)
}

/// The node is at one version.
pub fn decision(size: u32, node: u64, version: u32) -> Term
    requires { version < size }
    ensures { result ≡ In node (one_of size version) }
{
    Term::In(node, single(size, version))
}
