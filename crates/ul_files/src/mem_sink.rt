//! A sink in memory.
ghost use Rattle.std.specs.Prelude.{◌≡◌, ◌∷◌, ◌++◌, [], Some, take};
ghost use Rattle.ul_files.specs.Sinks.{WriteCause};
ghost use Rattle.ul_files.specs.MemSink.{SinkState, MemWrite, bytes_before, empty_sink};

use crate::pieces::{Piece, Pieces};
use crate::sink::{Sink, SinkRefused};
use std::alloc::Global;
use std::marker::Model;

/// A sink in memory, of which the writes of given numbers fail.
///
/// A clause sees the bytes written, the writes that fail, how many writes there were and how many of them failed
/// (both stand still at their type's end), and the pieces that were given.
#[derive(Drop)]
pub struct MemSink {
    bytes: Vec<u8>,
    failing: Vec<(u64, u64)>,
    calls: u64,
    faults: u64,
    given: Pieces,
}

impl Model for MemSink {
    ghost Value = { SinkState };

    ghost view = { λ s. record {
      bytes = s.bytes.items;
      failing = s.failing.items;
      calls = s.calls;
      faults = s.faults;
      given = s.given.list;
    } };
}

impl MemSink {
    /// An empty sink. A write whose number, from 0, stands first in a pair of `failing` fails, after as many bytes
    /// as the pair's second number or the whole piece, whichever is less; the first such pair counts.
    pub fn of(alloc: Global, failing: Vec<(u64, u64)>) -> MemSink
        ensures { result ≡ empty_sink failing.items }
    {
        MemSink {
            bytes: Vec::new(alloc),
            failing,
            calls: 0,
            faults: 0,
            given: Pieces::new(),
        }
    }

    /// What was written.
    pub fn bytes(&self) -> &Vec<u8>
        ensures { result.now.items ≡ self.now.bytes }
    {
        &self.bytes
    }
}

impl Sink for MemSink {
    ghost bytes = { λ s. Some s.bytes };

    ghost faults = { λ s. s.faults };

    ghost given = { λ s. s.given };

    fn write_all(&mut self, piece: &[u8]) -> Result<(), SinkRefused>
        ensures recorded { self.new.given ≡ self.old.given ++ piece.now ∷ [] }
        ensures cause { WriteCause self.old.faults self.new.faults
            (Some self.old.bytes) (Some self.new.bytes) piece.now result }
        ensures exact { MemWrite self.old self.new piece.now result }
    {
        let failing = failing_at(&self.failing, self.calls);
        self.calls = self.calls.saturating_add(1);
        self.given = self.given.with(&Piece { bytes: piece });
        match failing {
            None => {
                self.bytes.extend_from_slice(piece)?;
                Ok(())
            }
            Some(count) => {
                self.bytes.extend_from_slice(front(piece, count))?;
                self.faults = self.faults.saturating_add(1);
                Err(SinkRefused::Failed)
            }
        }
    }
}

// The first so many bytes of a piece, or all of it.
fn front(piece: &[u8], count: u64) -> &[u8]
    ensures { result.now ≡ take count piece.now }
{
    if count < piece.len() as u64 {
        &piece[..count as usize]
    } else {
        piece
    }
}

// After how many bytes the call of this number fails.
fn failing_at(failing: &[(u64, u64)], call: u64) -> Option<u64>
    ensures { result ≡ bytes_before failing.now call }
{
    for pair in failing {
        if pair.0 == call {
            return Some(pair.1);
        }
    }
    None
}
