//! What a script keeps.

use crate::slots::Slots;
use poly_book::{Job, Quiet};
use poly_design::{Edit, Name};
use poly_report::Report;
use std::alloc::Global;

/// Jobs, reports and lists of all tilings, each kind under names of its own. They stay when another book is begun.
#[derive(Drop)]
pub struct Kept {
    /// What `take` gave.
    pub jobs: Slots<Job>,
    /// Reports to be handed in, any number of times.
    pub reports: Slots<Report>,
    /// What `quiet` gave.
    pub quiets: Slots<Quiet>,
    /// The events of the next run.
    pub events: Vec<Planned>,
}

/// An event of the next run.
#[derive(Clone, Copy)]
pub enum Planned {
    /// An edit.
    Edit(Edit),
    /// An undo.
    Undo,
    /// A redo.
    Redo,
    /// The report that is kept under the name.
    HandIn(Name),
}

impl Kept {
    /// Nothing is kept.
    pub fn new(alloc: Global) -> Kept {
        Kept {
            jobs: Slots::new(alloc),
            reports: Slots::new(alloc),
            quiets: Slots::new(alloc),
            events: Vec::new(alloc),
        }
    }
}
