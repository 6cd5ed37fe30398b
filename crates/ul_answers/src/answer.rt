//! What the program answers.
use ul_base::Name;
use ul_lock::{Lock, Region};
use ul_reach::Reached;
use ul_version::Version;

/// What the program answers, where its inputs are read.
#[derive(Drop)]
pub enum Answer {
    /// The words aren't one of the commands.
    Usage,
    /// A lock, merged of so many forks.
    Locked {
        lock: Lock,
        forks: u64,
    },
    /// How many packages a lock has, and of how many forks it is merged.
    Counted {
        lock: Lock,
        forks: u64,
    },
    /// A lock isn't written, since one of its markers isn't printable.
    Unwritten,
    /// A fork that no selection serves isn't told, since its region isn't printable.
    Untold,
    /// The fork at this path, with this region, that no selection serves, with the lines of its core.
    NoSelection {
        path: Vec<bool>,
        region: Region,
        core: Vec<u8>,
    },
    /// Such a fork, with the lines of a derivation.
    Derived {
        path: Vec<bool>,
        region: Region,
        steps: Vec<u8>,
    },
    /// No fork is refused.
    NoneRefused,
    /// The lines of what a lock gives on a machine.
    Environment(Vec<u8>),
    /// Where a lock gives each of its packages.
    Exported(Vec<Reached>),
    /// The canonical texts of a file's markers, a line for each.
    Canonical(Vec<u8>),
    /// The lock isn't for the machine.
    Outside,
    /// The lock's root doesn't have the extra of this word.
    NoExtra(String),
    /// A derivation is accepted.
    Accepted,
    /// A derivation is rejected at this step.
    Rejected(u64),
    /// A lock is verified.
    Verified,
    /// A lock isn't, since its root isn't the project's.
    RejectedRoot,
    /// A lock isn't, since it is for other worlds than the project supports.
    RejectedSupported,
    /// A lock isn't, since this is its first package that isn't right.
    RejectedPackage {
        name: Name,
        version: Version,
    },
}
