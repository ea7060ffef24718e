//! Sets of cells, shapes and their orientations.
//!
//! A [`Cells`] is a small set of cells, in cell order. A [`Shape`] is such a set that is connected on its grid and at its
//! normal position: its least column and its least row are 0. The orientations of a shape are its images under the grid's
//! rotations, each moved to its normal position. If the shape may be turned over, its images under the grid's reflections are
//! orientations too. [`laws`] has what follows from these definitions.
#![tactic(auto)]

mod cells;
mod connected;
mod images;
pub mod laws;
mod shape;

pub use cells::Cells;
pub use shape::Shape;
