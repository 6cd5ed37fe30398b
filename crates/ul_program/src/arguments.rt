//! The program but for its surroundings: from the arguments to the status.
ghost use Rattle.std.specs.Prelude.{◌≡◌, IfOk, drop};
ghost use Rattle.std.specs.Vec.Iter.{into_iter_items};
ghost use Rattle.ul_program.specs.Given.{given_words};
ghost use Rattle.ul_program.specs.Headline.{Headline, files_seen, sink_seen, texts_of};

use crate::top::run;
use std::alloc::{AllocError, Global};
use std::env::Args;
use std::io;
use std::io::ErrorKind;
use std::sync::Wait;
use std::thread::Threads;
use ul_base::Gate;
use ul_files::{Files, Sink};

// The status where memory runs out.
const NO_MEMORY: u8 = 7;

/// Answers the arguments of the program, of which the first is its name, by `run`; the result is the status to end with.
///
/// Where one of the arguments is no text there are no words, so that they aren't one of the commands.
pub fn ended<R: Threads + Wait + Sync, F: Files, K: Sink, G: Gate + Sync>(
    rt: &R,
    alloc: Global,
    arguments: io::Result<Args>,
    files: &mut F,
    out: &mut K,
    gate: &G,
) -> u8
    ensures headline { Headline (given_words into_iter_items arguments)
        (files_seen F.map F.faults F.last_failed F.reads files.old)
        (files_seen F.map F.faults F.last_failed F.reads files.new)
        (sink_seen K.bytes K.faults K.given out.old) (sink_seen K.bytes K.faults K.given out.new) result }
{
    match words_of(alloc, arguments) {
        Ok(words) => run(rt, alloc, &words, files, out, gate),
        Err(AllocError) => NO_MEMORY,
    }
}

// The words after the program's name.
fn words_of(alloc: Global, arguments: io::Result<Args>) -> Result<Vec<String>, AllocError>
    ensures { IfOk result (λ words. texts_of words ≡ given_words into_iter_items arguments) }
{
    match arguments {
        Ok(arguments) => all_but_first(alloc, arguments),
        Err(error) => {
            if error.kind() == ErrorKind::InvalidData {
                Ok(Vec::new(alloc))
            } else {
                Err(AllocError)
            }
        }
    }
}

fn all_but_first(alloc: Global, mut arguments: Args) -> Result<Vec<String>, AllocError>
    ensures { IfOk result (λ v. v.items ≡ drop 1 (into_iter_items arguments)) }
{
    let mut words = Vec::new(alloc);
    let _program = arguments.next();
    for word in arguments {
        words.push(word)?;
    }
    Ok(words)
}
