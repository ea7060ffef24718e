//! Undo and redo: the last changes of a design, each with what is kept for its undo or redo.
//!
//! - [`History`]: the steps that can be undone and those that can be redone, at most 256 together. A history allocates
//!   only when it is made. It never looks into what it keeps, so it also serves owners that keep something other than
//!   changes of a design and a [`Shelf`] for each.
//! - [`Step`]: a change and what is kept with it.
//! - [`Shelf`]: what a change of a design stores for its undo or redo.
//! - [`MAX_STEPS`]: the most steps of a history; [`most_steps_are_256`] states the number.
#![tactic(auto)]

mod history;
mod laws;
mod shelf;
mod step;

pub use history::{History, MAX_STEPS};
pub use laws::most_steps_are_256;
pub use shelf::Shelf;
pub use step::Step;
