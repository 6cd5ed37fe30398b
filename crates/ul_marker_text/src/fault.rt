//! Why there is no text of a tree.
ghost use Rattle.ul_marker_text.specs.Faults.{is_no_memory};

use std::alloc::AllocError;

/// Why there is no text of a tree.
#[derive(Clone, Copy, PartialEq, Eq, Debug)]
pub enum TextFault {
    /// More than 4,096 paths of the tree lead to true, or one has more than 512 nodes: how many lead to true, and 2^127
    /// where there are more.
    TooLong { paths: u128 },
    /// Memory ran out, which says nothing of the tree.
    NoMemory,
}

impl From<AllocError> for TextFault {
    ghost use Rattle.ul_marker_text.specs.Faults.{is_no_memory};

    ghost from_gives = { λ _ e. is_no_memory e };

    fn from(_: AllocError) -> TextFault {
        TextFault::NoMemory
    }
}
