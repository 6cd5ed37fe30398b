//! Writing a whole piece.
ghost use Rattle.std.specs.Prelude.{ℕ, OnOk, OnErr, take};
ghost use Rattle.std.specs.Io.KnownBytes.{Appends};
ghost use Rattle.ul_edge.specs.Counting.{HasCounted, inner_of};

use crate::counted::Counted;
use std::io;
use std::io::Write;

/// Writes all of a piece, by as many writes as it takes.
///
/// A write that takes a part is followed by one of the rest. An error comes only where a write failed, or took nothing of a
/// piece that isn't empty. Then a front of the piece was written.
pub fn write_all<W: Write>(writer: &mut Counted<W>, piece: &[u8]) -> io::Result<()>
    ensures whole { OnOk result
        (Appends (W.contents (inner_of writer.old)) (W.contents (inner_of writer.new)) piece.now) }
    ensures front { OnErr result ((n : ℕ)
        × Appends (W.contents (inner_of writer.old)) (W.contents (inner_of writer.new)) (take n piece.now)) }
    ensures failed { HasCounted result writer.old writer.new }
{
    let mut written = 0;
    while written < piece.len() {
        written += writer.write(&piece[written..])?;
    }
    Ok(())
}
