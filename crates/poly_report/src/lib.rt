//! Reports: trees that certify how a family of tilings is cut up.
//!
//! - [`Report`], [`Tree`], [`Arm`]: what a worker hands in. [`fits`]: whether a tree is within [`NODES`] and [`DEPTH`].
//! - [`discard`]: drops a tree of any depth with a small stack; a report drops its tree so.
//! - [`holds`]: whether each Branch of a tree has all arms that it needs, each different and with the Branch's item, and no
//!   placement is open at a Found. If so, no tiling of the family is lost or listed twice. The tree under a dead placement
//!   isn't checked, since no tiling of the family has that placement.
//! - [`leaves`], [`Leaves`]: the tilings and the rests of a tree that holds. [`cut_up`], [`cut_up_over`]: the check and the
//!   leaves in one walk.
//! - [`Gathered`]: the leaves while a walk over a frame gathers them. Of each rest it keeps only the path, which follows the
//!   atoms that the tree is for. `Gathered::into_leaves` puts these before the paths.
//! - [`Rests`]: the rests of a tree. `Rests::share` finishes them, to be shared.
//! - [`Frame`], [`Matrix`], [`STEPS`] come from `poly_frame`: `Gathered` reads a frame, and `cut_up_over` takes a matrix.
//!   [`AtomLists`], [`SharedLists`] come from `poly_lists`, which stores the paths and the rests.
//! - The laws give the limits of trees. They say that a tree that holds shares out its family, and that it keeps holding after
//!   a change if the guards of the change are added; that the tilings of a tree belong to its family; and that if a tree takes
//!   and leaves only open placements of the design, each of its rests is hopeless exactly if the atoms are.
#![tactic(auto)]

mod arms;
mod cut;
mod gathered;
mod laws;
mod leaf;
mod size;
mod tree;

pub use cut::{cut_up, cut_up_over, holds, leaves};
pub use gathered::Gathered;
pub use laws::{
    limits_of_trees, open_paths_add_nothing_hopeless, tree_tilings_belong, trees_keep_holding,
    trees_share_out,
};
pub use leaf::{Leaves, Rests};
pub use poly_frame::{Frame, Matrix, Room, STEPS};
pub use poly_lists::{AtomLists, SharedLists};
pub use size::{DEPTH, NODES, fits};
pub use tree::{Arm, Report, Tree, discard};
