//! A writer of the system, such as standard output.
ghost use Rattle.std.specs.Prelude.{◌≡◌, ◌≢◌, ◌∷◌, ◌++◌, [], ℕ, None, Err, OnOk, OnErr, take};
ghost use Rattle.std.specs.Io.KnownBytes.{Appends};
ghost use Rattle.ul_files.specs.Sinks.{WriteCause};
ghost use Rattle.ul_files.specs.declared.sink.SinkRefused.{SinkRefused};
ghost use Rattle.ul_edge.specs.Counting.{HasCounted, inner_of};

use std::io::Write;
use ul_edge::{Counted, write_all};
use ul_files::{Piece, Pieces, Sink, SinkRefused};

/// A writer as a sink; the program's is standard output. It tells the program no bytes, but it keeps the record of the
/// pieces that it was given, so what is proved of the program over it speaks of those. Of a writer that tells what it holds,
/// a write says what became of it.
///
/// Failures are counted, and at the count's last value it stays there.
#[derive(Drop)]
pub struct OutSink<W> {
    writer: Counted<W>,
    faults: u64,
    given: Pieces,
}

impl<W: Write> OutSink<W> {
    /// A writer as a sink, with no fault so far.
    pub fn new(writer: W) -> OutSink<W>
        ensures writer { inner_of result.writer ≡ writer }
        ensures faults { ⟦<OutSink<W> as Sink>⟧.faults result ≡ 0 }
        ensures given { ⟦<OutSink<W> as Sink>⟧.given result ≡ [] }
    {
        OutSink {
            writer: Counted::new(writer),
            faults: 0,
            given: Pieces::new(),
        }
    }
}

impl<W: Write> Sink for OutSink<W> {
    ghost use Rattle.std.specs.Prelude.{None};

    ghost bytes = { λ _. None };

    ghost faults = { λ s. s.faults };

    ghost given = { λ s. s.given.list };

    /// Writes all of a piece, and refuses it only where the writer failed.
    fn write_all(&mut self, piece: &[u8]) -> Result<(), SinkRefused>
        ensures recorded { self.new.given.list ≡ self.old.given.list ++ piece.now ∷ [] }
        ensures cause { WriteCause self.old.faults self.new.faults None None piece.now result }
        ensures sure { result ≢ Err SinkRefused.NoMemory }
        ensures whole { OnOk result
            (Appends (W.contents (inner_of self.old.writer)) (W.contents (inner_of self.new.writer)) piece.now) }
        ensures front { OnErr result ((n : ℕ)
            × Appends (W.contents (inner_of self.old.writer)) (W.contents (inner_of self.new.writer))
            (take n piece.now)) }
        ensures failed { HasCounted result self.old.writer self.new.writer }
    {
        self.given = self.given.with(&Piece { bytes: piece });
        match write_all(&mut self.writer, piece) {
            Ok(()) => Ok(()),
            Err(_) => {
                self.faults = self.faults.saturating_add(1);
                Err(SinkRefused::Failed)
            }
        }
    }
}
