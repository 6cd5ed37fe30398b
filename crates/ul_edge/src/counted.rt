//! A reader or a writer whose failures are counted.
ghost use Rattle.std.specs.Prelude.{◌≡◌, ◌<◌, IfOk};
ghost use Rattle.std.specs.Io.{ReadsAtMost, WritesAtMost};
ghost use Rattle.std.specs.Io.KnownBytes.{ReadConsumes, WriteAppends};
ghost use Rattle.ul_edge.specs.Counting.{HasCounted, IsCounted, inner_of};

use std::io;
use std::io::{ErrorKind, Read, Write};

/// A reader or a writer, with the count of its calls that failed and of those that a signal interrupted.
///
/// The counts rise nowhere but in its own calls. At its last value each stays there.
#[derive(Drop)]
pub struct Counted<T> {
    inner: T,
    failures: u64,
    interruptions: u64,
}

impl<T> Counted<T> {
    /// A reader or a writer of which no call was made.
    pub fn new(inner: T) -> Counted<T>
        ensures { inner_of result ≡ inner }
    {
        Counted {
            inner,
            failures: 0,
            interruptions: 0,
        }
    }

    // Counts what a call answered, if it failed or was interrupted.
    fn count(&mut self, answer: &io::Result<usize>)
        ensures counted { IsCounted answer.now self.old self.new }
        ensures same { inner_of self.new ≡ inner_of self.old }
    {
        if let Err(error) = answer {
            if error.kind() == ErrorKind::Interrupted {
                self.interruptions = self.interruptions.saturating_add(1);
            } else {
                self.failures = self.failures.saturating_add(1);
            }
        }
    }
}

impl<R: Read> Counted<R> {
    // One call of the reader.
    fn read_once(&mut self, buffer: &mut [u8]) -> io::Result<usize>
        ensures bound { ReadsAtMost result buffer.new }
        ensures bytes { ReadConsumes
            (R.remaining (inner_of self.old)) (R.remaining (inner_of self.new)) result buffer.new }
        ensures counted { IsCounted result self.old self.new }
    {
        let answer = self.inner.read(buffer);
        self.count(&answer);
        answer
    }

    /// One read. One that a signal interrupts is tried again, so an error is a failure, or all tries were interrupted.
    #[tactic(auto, using(crate::proofs::GivenBytes::read_kept))]
    pub fn read(&mut self, buffer: &mut [u8]) -> io::Result<usize>
        ensures bound { ReadsAtMost result buffer.new }
        ensures bytes { ReadConsumes
            (R.remaining (inner_of self.old)) (R.remaining (inner_of self.new)) result buffer.new }
        ensures counted { HasCounted result self.old self.new }
    {
        for _ in 0..u64::MAX {
            match self.read_once(buffer) {
                Ok(count) => return Ok(count),
                Err(error) => {
                    if error.kind() != ErrorKind::Interrupted {
                        return Err(error);
                    }
                }
            }
        }
        Err(io::Error::from(ErrorKind::Interrupted))
    }
}

impl<W: Write> Counted<W> {
    // One call of the writer. To take nothing of a piece is a failure.
    fn write_once(&mut self, piece: &[u8]) -> io::Result<usize>
        ensures bound { WritesAtMost result piece.now }
        ensures bytes { WriteAppends
            (W.contents (inner_of self.old)) (W.contents (inner_of self.new)) result piece.now }
        ensures some { IfOk result (λ n. 0 < n) }
        ensures counted { IsCounted result self.old self.new }
    {
        let answer = match self.inner.write(piece) {
            Ok(0) => Err(io::Error::from(ErrorKind::WriteZero)),
            answer => answer,
        };
        self.count(&answer);
        answer
    }

    /// One write, which takes a part of the piece. One that a signal interrupts is tried again, so an error is a failure,
    /// or all tries were interrupted.
    #[tactic(auto, using(crate::proofs::GivenBytes::write_kept))]
    pub fn write(&mut self, piece: &[u8]) -> io::Result<usize>
        ensures bound { WritesAtMost result piece.now }
        ensures bytes { WriteAppends
            (W.contents (inner_of self.old)) (W.contents (inner_of self.new)) result piece.now }
        ensures some { IfOk result (λ n. 0 < n) }
        ensures counted { HasCounted result self.old self.new }
    {
        for _ in 0..u64::MAX {
            match self.write_once(piece) {
                Ok(count) => return Ok(count),
                Err(error) => {
                    if error.kind() != ErrorKind::Interrupted {
                        return Err(error);
                    }
                }
            }
        }
        Err(io::Error::from(ErrorKind::Interrupted))
    }
}
