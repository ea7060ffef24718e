//! A crew: workers in threads that take tasks of a desk, search them and hand the results in.
//!
//! - [`crew`]: runs a worker for each pass. [`Crew`]: the passes, the receipts, how many reports were applied, and how the
//!   workers ended. [`MOST_WORKERS`], [`MOST_TURNS`]: the most workers, and the most turns of each.
//! - [`Gate`]: is told before and after each search; [`OpenGate`] never holds a worker.
//! - [`Lane`]: a worker's own list of hints. The worker pushes new hints and pops the oldest one.
//! - [`Thief`]: another worker's end of a lane, which steals the oldest hint. Any thread may use it.
//! - [`laws`]: what holds of a lane and its thieves together.
//!
//! A hint is the number of a task that may be pending. The rule of a lane holds after each step, for any number of thieves:
//! the hints that were pushed are, in their order, those that left the lane, followed by those that it holds. The hints that
//! left are, in some order, those that the lane and its thieves have taken together.
#![tactic(auto)]

mod crewing;
mod gate;
mod hints;
mod lane;
mod last_view;
pub mod laws;
mod outcome;
mod room;
mod rule;
mod thief;
mod turns;
mod worker;

pub use crewing::{MOST_TURNS, MOST_WORKERS, crew};
pub use gate::{Gate, OpenGate};
pub use lane::Lane;
pub use outcome::Crew;
pub use thief::Thief;
