//! A node of a search: a view, the atoms that it began with, the steps taken since then, and what is open, due and found
//! at the node.
//!
//! - [`Frame`]: `new`, `over`, `within`; the steps `pick` and `leave`, which `back` and `backtrack_to` undo;
//!   `pick_unless_starved`, which doesn't take a step if it sees that the step leads nowhere, and `starves`, which only tells it;
//!   `focus`, after which the steps below the node take less time; what is open, dead, ruled out, due and found at the node; and
//!   `into_parts`.
//! - [`Room`]: memory that frames use one after another.
//! - [`Matrix`]: the exact cover matrix of a view, which the frames of that view can share; or a part of that matrix, which a
//!   frame leaves for the frames whose atoms go on from its own.
//! - [`STEPS`]: the most steps that a frame can have at one time.
//! - [`steps_are_4096`], [`steps_come_back`]: the value of `STEPS`, and that a step that is undone leaves no trace.
#![tactic(auto)]

mod bits;
mod frame;
mod laws;
mod plain;

pub use frame::{Frame, Matrix, Room, STEPS};
pub use laws::{steps_are_4096, steps_come_back};
