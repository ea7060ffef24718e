//! The only poster of a board.

ghost use Rattle.std.specs.Prelude.{◌≡◌, ◌++◌, [], ◌∷◌};
ghost use Rattle.poly_board.specs.Posts.{NoneFalls, last_of};
ghost use Rattle.poly_board.specs.Sight.{Sight, sight};

use crate::board::{Board, BoardSeat};
use crate::posted::Posted;
use std::marker::Model;
use std::sync::Arc;

/// Posts numbers on a board. Contracts see the board and all posts on it, oldest first.
#[derive(Drop)]
pub struct Poster {
    /// The board that gets the posts.
    pub(crate) board: Arc<Board>,
    /// The poster's own seat at the board's word.
    pub(crate) seat: BoardSeat,
}

impl Model for Poster {
    ghost use Rattle.std.specs.Prelude.{true};
    ghost use Rattle.std.specs.Arc.{arc_value};
    ghost use Rattle.poly_board.specs.Seated.{IsSeated};
    ghost use Rattle.poly_board.specs.Sight.{Sight, sight};

    ghost Value = { Sight };

    ghost view = { λ p. sight p.seat.table_id p.seat.me.0.posts };

    ghost invariant = { λ p. IsSeated (arc_value p.board).word.shared.table_id p.seat true };
}

impl Poster {
    /// Posts the numbers in one store. Requires that neither number is below that of the last post. Never allocates or
    /// waits.
    pub fn post(&mut self, posted: Posted)
        requires rising { NoneFalls (last_of self.old.posts) posted }
        ensures posts { self.new ≡ sight self.old.board (self.old.posts ++ posted ∷ []) }
        ensures last { last_of self.new.posts ≡ posted }
    {
        self.board.store(&mut self.seat, posted);
    }
}
