//! The top call.
ghost use Rattle.std.specs.Prelude.{◌≡◌, ℕ, ◌<◌, ◌≤◌, ◌++◌, ◌∷◌, [], take, ◌⊎◌, map, string_bytes, Some, IfOk};
ghost use Rattle.ul_files.specs.Causes.{Rose};
ghost use Rattle.ul_files.specs.Files.{Remembers};
ghost use Rattle.ul_program.specs.Headline.{Headline, IsOutput, IsOwn, BytesTold, files_seen, pieces_of, sink_seen, texts_of};

use crate::words::ask;
use std::alloc::{AllocError, Global};
use std::sync::Wait;
use std::thread::Threads;
use ul_answers::{Output, answer_output, refusal_output};
use ul_base::Gate;
use ul_commands::command;
use ul_files::{Files, Sink, SinkRefused};

// The output of the words.
fn answer<R: Threads + Wait + Sync, F: Files, G: Gate + Sync>(
    rt: &R,
    alloc: Global,
    files: &mut F,
    gate: &G,
    words: &[String],
) -> Result<Output, AllocError>
    ensures output { IfOk result (λ o. IsOutput (map string_bytes words.now)
        (files_seen F.map F.faults F.last_failed F.reads files.old)
        (files_seen F.map F.faults F.last_failed F.reads files.new) o.status o.text.items) }
    ensures same { F.map files.new ≡ F.map files.old }
    ensures grown { Remembers (F.reads files.old) (F.reads files.new) }
    ensures count { F.faults files.old ≤ F.faults files.new }
{
    ul_lock_commands::laws::exports_are_exact();
    let asked = ask(words);
    match command(rt, alloc, files, gate, &asked) {
        Ok(answer) => answer_output(alloc, answer),
        Err(refusal) => refusal_output(alloc, &refusal),
    }
}

/// Answers the words of a command line: reads the files that they name, writes what is printed to the sink in one piece,
/// and gives the status.
///
/// The status is that of the words' output over the files (`IsOutput`), whose text was then appended; or 6, where a write
/// failed and a front of that text was appended; or 7, where memory ran out and nothing was appended. Where no read failed,
/// the output is the definitions' answer (`IsAnswer`) over each map of files that agrees with what was read.
pub fn run<R: Threads + Wait + Sync, F: Files, K: Sink, G: Gate + Sync>(
    rt: &R,
    alloc: Global,
    words: &Vec<String>,
    files: &mut F,
    out: &mut K,
    gate: &G,
) -> u8
    ensures headline { Headline (texts_of words.now)
        (files_seen F.map F.faults F.last_failed F.reads files.old)
        (files_seen F.map F.faults F.last_failed F.reads files.new)
        (sink_seen K.bytes K.faults K.given out.old) (sink_seen K.bytes K.faults K.given out.new) result }
{
    match answer(rt, alloc, files, gate, words.as_slice()) {
        Ok(output) => print(out, &output),
        Err(_) => 7,
    }
}

// Writes an output's text, by at most one call, and gives the status that the program ends with.
fn print<K: Sink>(out: &mut K, output: &Output) -> u8
    requires { IsOwn output.now.status }
    ensures status { (result ≡ output.now.status) ⊎ (result ≡ 6) ⊎ (result ≡ 7) }
    ensures once { (K.given out.new ≡ K.given out.old)
        ⊎ (K.given out.new ≡ K.given out.old ++ output.now.text.items ∷ []) }
    ensures pieces { IsOwn result → K.given out.new ≡ K.given out.old ++ pieces_of output.now.text.items }
    ensures piece { result ≡ 6 → K.given out.new ≡ K.given out.old ++ output.now.text.items ∷ [] }
    ensures whole { IsOwn result → BytesTold (K.bytes out.old)
        (λ had. K.bytes out.new ≡ Some (had ++ output.now.text.items)) }
    ensures front { result ≡ 6 → BytesTold (K.bytes out.old)
        (λ had. (n : ℕ) × (K.bytes out.new ≡ Some (had ++ take n output.now.text.items))) }
    ensures write_fault { result ≡ 6 → Rose (K.faults out.old) (K.faults out.new) }
    ensures write_rise { K.faults out.old < K.faults out.new → result ≡ 6 }
    ensures count { K.faults out.old ≤ K.faults out.new }
    ensures no_memory { result ≡ 7 → K.bytes out.new ≡ K.bytes out.old }
{
    if output.text.is_empty() {
        return output.status;
    }
    match out.write_all(&output.text) {
        Ok(()) => output.status,
        Err(SinkRefused::Failed) => 6,
        Err(SinkRefused::NoMemory) => 7,
    }
}
