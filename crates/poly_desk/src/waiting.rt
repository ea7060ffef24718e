//! Waiting for a lock. The calls of workers usually take less time than waking a thread that sleeps. So a worker tries for a
//! while to lock without waiting, before it sleeps. If there are more threads than processors, the lock may be held by a thread
//! that has no processor at the moment. So after a few microseconds, which suffice for most calls, it yields between its tries.

use std::hint::spin_loop;
use std::sync::{Mutex, MutexGuard, Wait};
use std::thread;

/// How many times a thread tries to lock before it yields its processor, and how many pauses it makes after each failed try.
#[derive(Clone, Copy, Debug)]
pub(crate) struct Tries {
    /// The number of tries.
    count: u32,
    /// The number of pauses after each failed try.
    pauses: u32,
}

/// For a short call: taking a task. These tries are so close together that a worker that has just handed a report in usually
/// gets the lock for its next task before the workers that wait with reports.
pub(crate) const OFTEN: Tries = Tries {
    count: 128,
    pauses: 20,
};

/// For a long call: handing a report in.
pub(crate) const SELDOM: Tries = Tries {
    count: 16,
    pauses: 250,
};

// How many times a thread yields before it sleeps.
const YIELDS: u32 = 128;

/// Locks the mutex.
pub(crate) fn lock<'a, T, R: Wait>(rt: &R, mutex: &'a Mutex<T>, tries: Tries) -> MutexGuard<'a, T> {
    for yielded in 0..YIELDS {
        if let Some(guard) = try_lock_often(mutex, tries) {
            return guard;
        }
        thread::yield_now();
    }
    mutex.lock(rt)
}

// Locks the mutex if one of the tries finds it free.
fn try_lock_often<T>(mutex: &Mutex<T>, tries: Tries) -> Option<MutexGuard<'_, T>> {
    for attempt in 0..tries.count {
        if let Some(guard) = mutex.try_lock() {
            return Some(guard);
        }
        pause(tries.pauses);
    }
    None
}

fn pause(pauses: u32) {
    for pause in 0..pauses {
        spin_loop();
    }
}
