//! A query about tilings, and its answer.

use poly_design::Placement;
use poly_tiling::Item;

/// What a tiling must have, lack and cover. Every tiling meets a query whose three lists are empty.
#[derive(Drop)]
pub struct Query {
    /// Placements that the tiling must have. No tiling has a placement that the design doesn't have.
    pub has: Vec<Placement>,
    /// Placements that the tiling must not have.
    pub lacks: Vec<Placement>,
    /// Items that the tiling must cover. Nothing covers an item that isn't in the design.
    pub covers: Vec<Item>,
}

/// The answer to a query about a list of tilings.
#[derive(Drop)]
pub struct Answer {
    /// How many tilings meet the query.
    pub count: u64,
    /// The placements that all tilings that meet the query have, in placement order. None if no tiling meets it.
    pub forced: Vec<Placement>,
    /// Each item of the design, in item order, and how many different placements cover it in at least one tiling that meets
    /// the query.
    pub options: Vec<(Item, u64)>,
}
