//! What is wanted of a resolution.

/// What is wanted of a resolution.
#[derive(Clone, Copy, Drop)]
pub(crate) enum Wanted {
    /// Its lock.
    Lock,
    /// Why it has none.
    Reason,
}
