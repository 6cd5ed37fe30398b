ghost use Rattle.std.specs.Prelude.{◌≡◌, ◌↔◌, ℕ, IfOk, IsTrue};

use std::alloc::{AllocError, Global};

/// What stands at a node of a tree. The value that contracts see of a label is the whole of it, so a
/// label that holds memory, as a text, has a `Model`.
pub trait Label: Drop + Send + Sync {
    /// The hash of a label, by its value: equal labels hash alike.
    ghost hash_of: { Self → ℕ };

    /// Whether the two labels are equal.
    fn same(&self, other: &Self) -> bool
        ensures { IsTrue result ↔ (self.now ≡ other.now) };

    /// The label's hash.
    fn hash(&self) -> u64
        ensures { result ≡ hash_of self.now };

    /// A label that is the same, or want of memory.
    fn copy(&self, alloc: Global) -> Result<Self, AllocError>
        ensures { IfOk result (λ x. x ≡ self.now) };
}
