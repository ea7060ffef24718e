//! Pending tasks: what they are read from, which of them a change opens, and which go on after it.
//!
//! - [`Pending`], [`Own`], [`Base`]: a pending task, and where its own atoms are read. `all_atoms`, `read_all`, `list_of` and
//!   `is_made_of` read and compare them.
//! - [`Frozen`], [`Shelf`], [`Kept`]: what a change stores for its undo or redo. `freeze` makes a frozen task.
//! - [`fresh_tasks`], [`opened`]: the tasks that a change opens, and those that are opened for the rests of a report.
//! - [`Touch`], [`reached`], [`surviving`]: what a change touches, how far that reaches, and which tasks go on.
//! - [`Register`], [`Maps`]: the pending tasks by the placements and items of their own atoms.
//! - [`is_same_list`]: whether two lists of atoms are the same.
#![tactic(auto)]

mod base;
mod excerpt;
mod fresh;
mod harm;
mod judge;
mod laid;
mod lead;
mod maps;
mod placed;
mod reach;
mod register;
mod rows;
mod shelf;
mod spoilt;
mod spots;
mod survey;
mod task;
mod touch;
mod touching;
mod untouched;

pub use base::Base;
pub use fresh::{fresh_tasks, opened};
pub use maps::Maps;
pub use reach::reached;
pub use register::Register;
pub use shelf::{Frozen, Kept, Shelf};
pub use survey::surviving;
pub use task::{Own, Pending, all_atoms, freeze, is_made_of, is_same_list, list_of, read_all};
pub use touch::Touch;
