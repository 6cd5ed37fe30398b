//! What becomes of texts, which the tests share.
ghost use Rattle.std.specs.Prelude.{IfOk};
ghost use Rattle.ul_tree.specs.TreeFacts.{IsTree};

use std::alloc::Global;
use ul_marker::{Marker, MarkerFault};
use ul_marker_text::{TextFault, read, read_marker, text};
use ul_tree::part::is_false;
use ul_tree::{Tree, of_marker};

/// The number that digits are, or 0.
pub(crate) fn number(digits: &str) -> usize {
    digits.parse::<usize>().unwrap_or(0)
}

/// Whether a text is read, and its tree has it `again` or has an `other` text, or so many paths, too many for a text;
/// whether it is the text of no tree, and `refused`; or whether there is no `memory`.
pub(crate) fn is_told(alloc: Global, spelled: &str, want: &str) -> bool {
    match read(alloc, spelled) {
        Err(MarkerFault::NoReading) => want == "refused",
        Err(MarkerFault::NoMemory) => want == "memory",
        Ok(tree) => match text(alloc, &tree) {
            Ok(again) => want
                == if again.as_str() == spelled {
                    "again"
                } else {
                    "other"
                },
            Err(TextFault::TooLong { paths }) => paths == number(want) as u128,
            Err(TextFault::NoMemory) => want == "memory",
        },
    }
}

// The tree of a marker.
fn tree_of(alloc: Global, marker: &str) -> Result<Tree, MarkerFault>
    ensures { IfOk result IsTree }
{
    let marker = Marker::read_printed(alloc, marker)?;
    let tree = of_marker(alloc, &marker)?;
    Ok(tree)
}

/// The text of a marker's tree; `false` where it is false everywhere, and else why it has none.
pub(crate) fn text_of(alloc: Global, marker: &str) -> Result<String, MarkerFault> {
    let tree = tree_of(alloc, marker)?;
    if is_false(&tree) {
        return Ok(String::from_str(alloc, "false")?);
    }
    match text(alloc, &tree) {
        Ok(spelled) => Ok(spelled),
        Err(TextFault::TooLong { paths }) => Ok(format!(in alloc; "{paths} paths")?),
        Err(TextFault::NoMemory) => Ok(String::from_str(alloc, "no memory")?),
    }
}

/// Whether a text is that of a marker's tree.
pub(crate) fn has_text(alloc: Global, marker: &str, spelled: &str) -> bool {
    match text_of(alloc, marker) {
        Ok(found) => found.as_str() == spelled,
        Err(_) => false,
    }
}

/// Whether a text is one of a lock's marker.
pub(crate) fn is_marker(alloc: Global, bytes: &[u8]) -> bool {
    match read_marker(alloc, bytes) {
        Ok(tree) => tree.is_some(),
        Err(_) => false,
    }
}
