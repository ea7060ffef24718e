//! A desk: a book that several workers share under one lock. Each worker has a pass, which notes what the worker has seen
//! and counts what the worker has done.
//!
//! - [`Opening`]: a trait; each type that implements it names what a desk began with.
//! - [`Desk`]: `begin`, `pass`; `edit`, `undo`, `redo`, `hand_in`, `hand_in_found`; `next`, `take`, `browse`, `quiet`;
//!   `look`; `settle_up`.
//! - [`Pass`]: the right to use a desk. [`Receipt`]: a change, or the end of a task by a report, and its place among the steps
//!   or the endings of the desk's book.
//! - [`Floor`]: what the lock protects. A floor does the work of each call under the lock, and never waits.
//! - [`Bench`]: a desk as a worker sees it.
//! - [`NotBegun`], [`NotSettled`]: what `begin` and `settle_up` hand back if they fail.
//! - [`MOST_PASSES`]: the most passes that a desk can make. [`PARTS`]: how many parts each of the two blank ledgers that
//!   `begin` takes must have.
#![tactic(auto)]

mod bench;
mod call;
mod desk;
mod floor;
mod found;
mod ledgers;
mod marks;
mod opening;
mod pass;
mod reading;
mod receipt;
mod right;
mod settle;
mod shares;
mod tick;
mod waiting;

pub use bench::Bench;
pub use desk::{Desk, NotSettled};
pub use floor::{Floor, NotBegun};
pub use ledgers::{MOST_PASSES, PARTS};
pub use opening::Opening;
pub use pass::Pass;
pub use receipt::Receipt;
