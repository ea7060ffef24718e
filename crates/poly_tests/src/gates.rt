//! The test kit of gates: a gate that no crew passes whose workers search one after another.

use poly_crew::Gate;
use std::sync::atomic::{AtomicU64, Ordering};
use std::thread;

/// Holds the first worker that enters until another worker has ended a search.
#[derive(Drop)]
pub(crate) struct HoldingGate {
    held: AtomicU64,
    other_left: AtomicU64,
    gave_up: AtomicU64,
}

impl HoldingGate {
    /// A gate that no worker has entered yet.
    pub(crate) fn new() -> HoldingGate {
        HoldingGate {
            held: AtomicU64::new(0),
            other_left: AtomicU64::new(0),
            gave_up: AtomicU64::new(0),
        }
    }

    /// Whether no worker that was held gave up waiting.
    pub(crate) fn was_passed(&self) -> bool {
        self.gave_up.load(Ordering::SeqCst) == 0
    }

    fn has_left(&self) -> bool {
        for _ in 0..100_000_000u64 {
            if self.other_left.load(Ordering::SeqCst) == 1 {
                return true;
            }
            thread::yield_now();
        }
        false
    }
}

impl Gate for HoldingGate {
    fn enter(&self, worker: u32, _turn: u64) {
        let me = u64::from(worker) + 1;
        let first = self
            .held
            .compare_exchange(0, me, Ordering::SeqCst, Ordering::SeqCst);
        if first.is_ok() && !self.has_left() {
            self.gave_up.store(1, Ordering::SeqCst);
        }
    }

    fn leave(&self, worker: u32, _turn: u64) {
        if self.held.load(Ordering::SeqCst) != u64::from(worker) + 1 {
            self.other_left.store(1, Ordering::SeqCst);
        }
    }
}
