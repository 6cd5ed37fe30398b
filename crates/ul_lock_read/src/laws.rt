//! The laws of a lock's text.

ghost use Rattle.ul_lock_read.specs.Laws.{OneTextOneLock, TextIsLocks, FirstVersion, OneFault};

/// One well formed lock has one text, which is a lock's text; different locks have different texts.
pub fn text_laws()
    ensures different { OneTextOneLock }
    ensures locks_text { TextIsLocks }
{}

/// A text of version 1 stands for exactly one well formed lock, which has no files.
pub fn first_version()
    ensures { FirstVersion }
{}

/// A text has at most one wrong line that is the first, and none where it is shaped.
pub fn one_fault()
    ensures { OneFault }
{}
