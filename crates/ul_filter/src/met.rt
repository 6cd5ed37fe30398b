//! Nodes that were met.
ghost use Rattle.std.specs.Prelude.{◌≤◌, count_by, length};

/// Which nodes were met, by their places, and in which order: each once, so that the queue ends.
#[derive(Drop)]
pub(crate) struct Met {
    pub(crate) flags: Vec<bool>,
    pub(crate) queue: Vec<usize>,
    ghost once: { length queue.items ≤ count_by (λ flag. flag) flags.items },
}
