//! What is asked.

/// What the words of a command line ask.
#[derive(Drop)]
pub enum Asked<'w> {
    /// The words aren't one of the commands.
    Usage,
    /// The lock of a project file over an index folder, by so many workers, perhaps with an old lock.
    Lock {
        project: &'w str,
        folder: &'w str,
        workers: u64,
        old: Option<&'w str>,
    },
    /// Why there is no such lock.
    Why {
        project: &'w str,
        folder: &'w str,
        workers: u64,
        old: Option<&'w str>,
    },
    /// What becomes of an old lock, for a project file over an index folder, by so many workers.
    Relock {
        project: &'w str,
        folder: &'w str,
        workers: u64,
        old: &'w str,
    },
    /// How many packages and forks the lock of a generated project has: its seed and size, by so many workers.
    Gen {
        seed: u64,
        size: u64,
        workers: u64,
    },
    /// What a lock gives on a machine, with the extras of these words.
    Env {
        lock: &'w str,
        machine: &'w str,
        extras: &'w [String],
    },
    /// In which worlds a lock gives each of its nodes, with the extras of these words.
    Export {
        lock: &'w str,
        extras: &'w [String],
    },
    /// The canonical texts of a file's markers.
    Marker {
        file: &'w str,
    },
    /// Whether a derivation is accepted for a project file and an index folder.
    Check {
        project: &'w str,
        folder: &'w str,
        derivation: &'w str,
    },
    /// Whether a lock is verified for a project file and an index folder.
    Verify {
        project: &'w str,
        folder: &'w str,
        lock: &'w str,
    },
}
