// The workers run side by side, and pass the gate that `run` is given: two jobs that wait there for each other both go on.
use crate::tests::{files_of, words_of};
use std::alloc::{AllocError, Global};
use std::process::Abort;
use std::sync::Wait;
use std::sync::atomic::{AtomicU64, Ordering};
use std::thread::Threads;
use ul_base::Gate;
use ul_files::MemSink;
use ul_program::run;

// A gate whose second and third entries wait for each other.
#[derive(Drop)]
struct Meeting {
    entries: AtomicU64,
    second: AtomicU64,
    third: AtomicU64,
    met: AtomicU64,
}

// Sets one flag, and looks at the other until it is set.
fn meet(mine: &AtomicU64, other: &AtomicU64, met: &AtomicU64) {
    mine.store(1, Ordering::SeqCst);
    for _turn in 0..100_000_000u64 {
        if other.load(Ordering::SeqCst) == 1 {
            met.fetch_add(1, Ordering::SeqCst);
            return;
        }
    }
}

impl Gate for Meeting {
    fn enter(&self, _number: u64) {
        match self.entries.fetch_add(1, Ordering::SeqCst) {
            1 => meet(&self.second, &self.third, &self.met),
            2 => meet(&self.third, &self.second, &self.met),
            _ => {}
        }
    }
}

// The status of words over these files, with a gate.
fn status_at<R: Threads + Wait + Sync>(
    rt: &R,
    alloc: Global,
    gate: &Meeting,
    given: &str,
) -> Result<u8, AllocError> {
    let words = words_of(alloc, given)?;
    let mut files = files_of(alloc, given, u64::MAX)?;
    let mut out = MemSink::of(alloc, Vec::new(alloc));
    Ok(run(rt, alloc, &words, &mut files, &mut out, gate))
}

// Whether the case is answered, so many jobs entered the gate, and the second met the third.
fn is_met<R: Threads + Wait + Sync>(rt: &R, alloc: Global, given: &str, entries: u64) -> bool {
    let gate = Meeting {
        entries: AtomicU64::new(0),
        second: AtomicU64::new(0),
        third: AtomicU64::new(0),
        met: AtomicU64::new(0),
    };
    matches!(status_at(rt, alloc, &gate, given), Ok(0))
        && gate.entries.load(Ordering::SeqCst) == entries
        && gate.met.load(Ordering::SeqCst) == 2
}

// Two workers on one region that is split in two, and then on one that is split in four.
const LOCK: &str = r#"lock p.toml ix 2
@p.toml
[project]
name = "demo"
requires-python = ">=3.9"
dependencies = ["numpy>=2; python_version >= '3.11'", "numpy<2; python_version < '3.11'"]
@ix/numpy.json
{"name": "numpy", "versions": [{"version": "1.26"}, {"version": "2.1"}]}"#;

const WHY: &str = r#"why p.toml ix 2
@p.toml
[project]
name = "demo"
dependencies = ["q<2; sys_platform == 'win32'", "q", "r<2; os_name == 'nt'", "r"]
@ix/q.json
{"name": "q", "versions": [{"version": "1"}, {"version": "2"}]}
@ix/r.json
{"name": "r", "versions": [{"version": "1"}, {"version": "2"}]}"#;

#[test]
fn workers_meet_at_the_gate(rt: HostRuntime) {
    for (given, entries) in [(LOCK, 3), (WHY, 7), ("gen 1 5 2", 7)] {
        assert!(rt; is_met(&rt, rt.alloc(), given, entries), "{given}");
    }
}
