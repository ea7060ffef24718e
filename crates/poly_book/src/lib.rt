//! The book: a design under edits with exact undo, the tilings that are listed and the tasks that are still to be searched.
//!
//! Whatever happens, each tiling of the design is listed once or belongs to exactly one pending task, and nothing else is
//! listed. So the catalogue has all tilings if no task is pending.
//!
//! - [`Book`]: `begin`; `edit`, `undo`, `redo`; `next`, `take`, `hand_in`, `hand_in_found`, `hand_in_checked`; `quiet`,
//!   `settle`, `vouch`; `whole`, whose contract states what holds of every book; and what a book holds: `numbers`, `design`,
//!   `catalogue`, `view`, `steps`, `endings`.
//! - [`Done`], [`Step`], [`Kind`]: a change that was made. [`Applied`]: a report that was applied. [`Ending`]: how a task
//!   ended.
//! - [`Which`]: which task to take. [`Job`]: a task to be worked on. [`Found`]: what a search found for it.
//!   [`Remains`]: what is left of it after it was applied.
//! - [`Quiet`]: all tilings of a design.
//! - [`Numbers`]: how many changes, endings, listed tilings and pending tasks there are. [`Pending`], [`Own`], [`Kept`],
//!   [`Shelf`], [`Frozen`]: of `poly_tasks`.
//! - Limits: [`MAX_CHANGES`] of a book, [`MAX_GUARDS`] of a change, and [`MAX_SHELF`] on what is kept for an undo or a
//!   redo.
//! - [`laws`]: `run` and `still_holds`, which run a list of events; the laws of events and of runs of events; and the values
//!   of the limits.
#![tactic(auto)]

mod apply;
mod begin;
mod book;
mod edit;
mod forget;
mod found;
mod hand_in;
pub mod laws;
mod narrowed;
mod next_tasks;
mod parts;
mod prepare;
mod quiet;
mod scene;
mod settle;
mod step;
mod take;
mod vouch;

pub use book::{Book, Numbers};
pub use found::{Found, Remains};
pub use poly_tasks::{Frozen, Kept, Own, Pending, Shelf};
pub use prepare::{MAX_CHANGES, MAX_GUARDS, MAX_SHELF};
pub use quiet::Quiet;
pub use step::{Applied, Done, Ending, Kind, Step};
pub use take::{Job, Which};
