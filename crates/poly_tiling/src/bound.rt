//! Items with their bounds.

use crate::item::Item;

/// An item of a view with its bounds: how many placements of a tiling have the item, at least and at most.
#[derive(Clone, Copy, Debug, PartialEq, Eq)]
pub struct Bound {
    /// The item.
    pub item: Item,
    /// At least this many placements of a tiling have the item.
    pub least: u8,
    /// At most this many placements of a tiling have the item.
    pub most: u8,
}
