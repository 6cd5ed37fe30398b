//! Lists of a node that contracts see as plain lists. An extra shares its base's.
use ul_ranges::SharedList;
use ul_version::Version;

/// Versions, in a node's order.
pub type Versions = SharedList<Version>;

/// Places of versions.
pub type Places = SharedList<u32>;
