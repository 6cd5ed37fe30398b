//! What the lines that `export` prints say. None of these functions does anything but name the laws that it rests on.
ghost use Rattle.laws_exports.specs.Examples.{ReadingExamples, PinExamples};
ghost use Rattle.laws_exports.specs.Lines.{LinesAreRead};
ghost use Rattle.laws_exports.specs.Pins.{PinsOneVersion};

/// The specifier `==VERSION` is met by its version, and by which others.
pub fn one_version_is_pinned()
    ensures { PinsOneVersion }
{}

/// The lines of the rows of a well formed lock are read as requirements of PEP 508 that pin its nodes, and in each
/// world that the lock supports they ask for what it gives there.
pub fn lines_are_read()
    ensures { LinesAreRead }
{
    ul_marker::laws::readings();
    ul_reach::laws::row_promises();
}

/// Worked examples of lines and of versions that meet `==VERSION`.
pub fn examples()
    ensures lines { ReadingExamples }
    ensures pins { PinExamples }
{}
