//! How deep diagrams may be.

/// The most levels that a path of a diagram has. A diagram that would have more is refused by want of memory, long
/// before the recursions over diagrams reach the end of a thread's stack.
pub const DEEPEST: usize = 512;
