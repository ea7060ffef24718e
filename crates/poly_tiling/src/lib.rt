//! What a tiling is: an exact cover with primary and secondary items and with multiplicities.
//!
//! - [`View`]: an immutable snapshot of a design, in which a placement is a number.
//! - [`PlacementList`]: the placement of each number, in a view. [`PlacementBlocks`]: blocks of [`BLOCK_SIZE`] placements that
//!   the lists of many views share.
//! - [`LiveNumbers`]: the numbers of a view's placements, with a mark for each if these are kept.
//! - [`Item`], [`Bound`]: a cell or a piece, and how often a tiling covers it, at least and at most. [`item_list`]: the items
//!   of a design with their bounds. [`find_bound`]: one item in such a list.
//! - [`conflict`]: whether two placements are different and share a cell.
//! - [`Tiling`]: the numbers of a tiling's placements. [`has_number`], [`has_all`], [`ascends`]: tests of lists of numbers.
//! - [`list_tilings`]: all tilings of a view, by the plain lister, if there are at most [`MAX_TILINGS`].
//! - [`sort_tilings`], [`tilings_in_order`]: tilings in ascending order.
//! - The laws say how tilings by numbers agree with the tilings of the design that a view shows, how they compare, what stays
//!   the same when new numbers are assigned, and that `MAX_TILINGS` is 1,000,000.
#![tactic(auto)]

mod bound;
mod conflicts;
mod item;
mod laws;
mod leading;
mod lister;
mod live_numbers;
mod numbering;
mod numbers;
mod order;
mod placement_blocks;
mod placement_list;
mod rows;
mod tiling;
mod view;

pub use bound::Bound;
pub use conflicts::conflict;
pub use item::Item;
pub use laws::{
    listings_show, most_tilings_are_a_million, numbers_may_grow, numbers_reach, numbers_show,
    over_shows, ranks_compare, same_design_grows,
};
pub use lister::{MAX_TILINGS, list_tilings};
pub use live_numbers::LiveNumbers;
pub use numbering::item_list;
pub use numbers::{ascends, has_all, has_number};
pub use order::{sort_tilings, tilings_in_order};
pub use placement_blocks::{BLOCK_SIZE, PlacementBlocks};
pub use placement_list::PlacementList;
pub use tiling::Tiling;
pub use view::{View, find_bound};
