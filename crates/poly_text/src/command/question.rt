//! What `browse` asks.

use poly_design::Placement;
use poly_tiling::Item;
use std::marker::Model;

/// What a tiling must have, lack and cover, each list in the order of the words. Every tiling meets a question without words.
#[derive(Debug, Drop)]
pub struct Question {
    /// Placements that the tiling must have.
    pub has: Vec<Placement>,
    /// Placements that the tiling must not have.
    pub lacks: Vec<Placement>,
    /// Items that the tiling must cover. A tiling covers an item if at least one placement of the tiling has the item.
    pub covers: Vec<Item>,
}

impl Model for Question {
    ghost use Rattle.poly_text.specs.Asked.{Asked};

    ghost Value = { Asked };

    ghost view = { λ q. record { has = q.has.items; lacks = q.lacks.items; covers = q.covers.items } };
}
