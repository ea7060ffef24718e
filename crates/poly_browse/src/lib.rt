//! Questions about the tilings of a design, answered from a list of them.
//!
//! - [`browse`] answers a [`Query`] with an [`Answer`]: how many tilings meet the query, which placements all of these have,
//!   and for each item of the design, how many different placements cover it in at least one of these tilings.
//! - [`classes_of`] counts the tilings of a design up to its symmetries, from a list of all of them. [`classes`] does so from
//!   a [`Quiet`](poly_book::Quiet), which has such a list.
//! - [`laws`] has what follows from the definitions of an answer and of a class.
#![tactic(auto)]

mod board;
mod browsing;
mod covers;
mod flags;
mod gather;
pub mod laws;
mod lines;
mod motion;
mod orbits;
mod query;
mod symmetry;

pub use browsing::browse;
pub use orbits::{classes, classes_of};
pub use query::{Answer, Query};
