//! Jobs enter the gate side by side.
use crate::forks::asked::{forked, input_of};
use std::alloc::Global;
use std::sync::Wait;
use std::sync::atomic::{AtomicU64, Ordering};
use std::thread::Threads;
use ul_base::Gate;

// A gate whose second entry waits for the third.
#[derive(Drop)]
struct Meeting {
    entries: AtomicU64,
    met: AtomicU64,
}

impl Gate for Meeting {
    fn enter(&self, _number: u64) {
        if self.entries.fetch_add(1, Ordering::SeqCst) != 1 {
            return;
        }
        for _turn in 0..100_000_000u64 {
            if self.entries.load(Ordering::SeqCst) > 2 {
                self.met.store(1, Ordering::SeqCst);
                return;
            }
        }
    }
}

const REQUIREMENTS: &str = "'q>=1', \"q<2; sys_platform == 'win32'\"";

const PACKAGES: &str = "q {\"version\": \"1\"}, {\"version\": \"2\"}";

// Whether there is an answer where the first region, and then its two parts, pass a gate.
fn is_answered<R: Threads + Wait + Sync>(rt: &R, alloc: Global, gate: &Meeting) -> bool {
    match input_of(alloc, REQUIREMENTS, "", PACKAGES) {
        Some(input) => forked(rt, alloc, 2, &input, gate).is_ok(),
        None => false,
    }
}

// Whether three entered a gate, and the second met the third.
fn have_met(gate: &Meeting) -> bool {
    gate.entries.load(Ordering::SeqCst) == 3 && gate.met.load(Ordering::SeqCst) == 1
}

fn are_side_by_side<R: Threads + Wait + Sync>(rt: &R, alloc: Global) -> bool {
    let gate = Meeting {
        entries: AtomicU64::new(0),
        met: AtomicU64::new(0),
    };
    is_answered(rt, alloc, &gate) && have_met(&gate)
}

#[test]
fn two_workers_run_side_by_side(rt: HostRuntime) {
    assert!(rt; are_side_by_side(&rt, rt.alloc()));
}
