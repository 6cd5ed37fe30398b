//! A gate that jobs pass.

/// What a job calls before it begins.
///
/// `enter` returns and takes no memory; nothing else is promised of it. Tests hand in gates that note who came.
pub trait Gate {
    /// A job enters with the number that it claimed.
    fn enter(&self, number: u64);
}

/// The gate that does nothing.
#[derive(Clone, Copy, Debug)]
pub struct Open;

impl Gate for Open {
    fn enter(&self, _number: u64) {}
}
