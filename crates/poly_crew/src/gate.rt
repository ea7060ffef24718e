//! A gate that is told before and after each search of a crew.

/// A gate is told when a worker begins to search a task, and when the search has ended. It can hold the worker by
/// not returning at once. Workers and their turns are counted from 0.
///
/// While one worker is held, another one of the crew works, if there is one. While more are held, it may be that none works, if
/// there are more workers than processors.
pub trait Gate {
    /// Called when the worker is about to search the task that it took in that turn.
    fn enter(&self, worker: u32, turn: u64);

    /// Called when the search has ended, before its report is handed in. A search that ran out of memory has no report.
    fn leave(&self, worker: u32, turn: u64);
}

/// A gate that never holds a worker.
#[derive(Clone, Copy, Debug)]
pub struct OpenGate;

impl Gate for OpenGate {
    fn enter(&self, _worker: u32, _turn: u64) {}

    fn leave(&self, _worker: u32, _turn: u64) {}
}
