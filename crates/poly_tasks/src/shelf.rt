//! What the history keeps with a change.

use crate::task::Own;
use poly_tiling::Tiling;

/// The atoms of a task at the time of a change: its own atoms, and the guards of every change from its making up to then.
/// These are read from the guard log, so however many they are, they take no room here.
#[derive(Drop)]
pub struct Frozen {
    /// The task's own atoms.
    pub own: Own,
    /// The edition at which the task was made.
    pub made: u64,
    /// How many of the guards that the log has from that edition on are among the atoms.
    pub count: usize,
}

/// What a change stores, so that its undo or redo need not search again for the tilings that the change took away.
#[derive(Drop)]
pub struct Shelf {
    /// The listed tilings that the change took away.
    pub tilings: Vec<Tiling>,
    /// The atoms of each task that was pending before the change.
    pub frozen: Vec<Frozen>,
}

/// What the history keeps with a change.
#[derive(Drop)]
pub struct Kept {
    /// The edition after the step that put the change among those to undo or to redo.
    pub made: u64,
    /// What that step stored: the listed tilings that it took away, and the atoms of the tasks that were pending before it.
    /// `None` if `MAX_SHELF` didn't allow it.
    pub shelf: Option<Shelf>,
}
