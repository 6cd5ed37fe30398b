//! What stands on one line.
use crate::proof::Path;
use ul_lock::Region;
use ul_lock_lines::Text;
use ul_report::TextStep;

/// A line of a derivation file.
#[derive(Drop)]
pub enum Line {
    Title,
    Fork(Path),
    Region(Region),
    World(Text),
    Step(u64, TextStep),
}
