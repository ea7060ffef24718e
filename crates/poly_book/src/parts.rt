//! What a book is made of.

use crate::scene::Scene;
use crate::step::{Ending, Step};
use poly_atom::GuardLog;
use poly_catalogue::Catalogue;
use poly_design::{Change, Design};
use poly_place::Table;
use poly_tasks::{Kept, Pending, Register};
use poly_undo::History;
use std::alloc::Global;

/// The fields of a book. `Keeps` says what holds of them before and after each call of the book.
#[derive(Drop)]
pub(crate) struct Parts {
    /// The allocator.
    pub alloc: Global,
    /// The design that the book began with.
    pub opened: Design,
    /// The design now.
    pub design: Design,
    /// The numbers of placements. A refused change may have given out numbers that the scene's view doesn't have.
    pub table: Table,
    /// The design now, by numbers.
    pub scene: Scene,
    /// The listed tilings.
    pub listed: Catalogue,
    /// The guards of each change. Those of the first changes may have been dropped if nothing reads them any more.
    pub log: GuardLog,
    /// How many guards the log had after the last time that guards were dropped.
    pub settled: usize,
    /// The pending tasks, in the order of their numbers.
    pub tasks: Vec<Pending>,
    /// The pending tasks by the placements and items of their own atoms. The newest tasks may not be noted yet.
    pub register: Register,
    /// The number that the next new task gets.
    pub next: u64,
    /// The changes that can be undone and those that can be redone, each with what is kept for it.
    pub history: History<Change, Kept>,
    /// The changes that were made, the oldest first.
    pub steps: Vec<Step>,
    /// The endings of tasks, the oldest first.
    pub endings: Vec<Ending>,
}
