use crate::labels::Label;
use crate::plants::Plant;
use std::alloc::AllocError;

/// One event of the core.
#[derive(Drop)]
pub enum Event<L: Label> {
    /// The publication of one tree: it is appended to the log of its own shard.
    Publish { shard: u8, plant: Plant<L> },
    /// One claim: it draws the claim number, which then is one more.
    Claim,
}

/// Why an event is refused.
#[derive(Clone, Copy, PartialEq, Eq)]
pub enum EventFault {
    /// The event's shard isn't the tree's own.
    Shard,
    /// The shard's log has the tree.
    Known,
    /// A part doesn't stand in the log of its own shard.
    Part,
    /// The claim number is 2^64 - 1.
    Full,
    /// There isn't memory for the longer log.
    NoMemory,
}

impl From<AllocError> for EventFault {
    ghost use Rattle.ul_core.specs.declared.events.EventFault.TheVariants.{NoMemory};
    ghost use Rattle.std.specs.Prelude.{◌≡◌};

    ghost from_gives = { λ _ fault. fault ≡ NoMemory };

    fn from(_: AllocError) -> EventFault {
        EventFault::NoMemory
    }
}
