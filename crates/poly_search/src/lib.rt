//! Search: growing the tree of one task, and listing a whole family.
//!
//! - [`explore`]: a worker's step. It grows a tree that holds for the task and has at most the given number of nodes that
//!   aren't Rest. [`explore_with_leaves`] also gathers the leaves of the tree, and [`explore_over`] does so with a matrix
//!   that the caller has. Both return an [`Explored`]. [`leaves_within`] gathers the leaves without making the tree. It begins
//!   with the part of the matrix that an earlier task left, and also returns the part that it leaves itself.
//! - [`search_all`]: all tilings of a view that meet the atoms, if there are at most 1,000,000.
#![tactic(auto)]

mod growth;
mod lister;
mod step;
mod whole;

pub use step::{Explored, explore, explore_over, explore_with_leaves, leaves_within};
pub use whole::search_all;
