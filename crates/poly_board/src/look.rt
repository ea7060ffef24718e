//! A look at the posted numbers.

ghost use Rattle.std.specs.Prelude.{◌≡◌, ◌≤◌, IfErr, IfOk};
ghost use Rattle.poly_board.specs.Posts.{NoneFalls, StartsWith, IsRising, last_of};
ghost use Rattle.poly_grid.specs.declared.refusal.Refusal.TheVariants.{Memory};

use crate::board::{Board, BoardSeat};
use crate::posted::Posted;
use crate::poster::Poster;
use poly_grid::Refusal;
use std::alloc::Global;
use std::marker::Model;
use std::sync::Arc;

/// Reads a board. Contracts see the board and the posts on it that the look knows, oldest first.
#[derive(Drop)]
pub struct Look {
    /// The board that is read.
    pub(crate) board: Arc<Board>,
    /// The look's own seat at the board's word.
    pub(crate) seat: BoardSeat,
}

impl Model for Look {
    ghost use Rattle.std.specs.Prelude.{false};
    ghost use Rattle.std.specs.Arc.{arc_value};
    ghost use Rattle.poly_board.specs.Seated.{IsSeated};
    ghost use Rattle.poly_board.specs.Sight.{Sight, sight};

    ghost Value = { Sight };

    ghost view = { λ l. sight l.seat.table_id l.seat.me.0.posts };

    ghost invariant = { λ l. IsSeated (arc_value l.board).word.shared.table_id l.seat false };
}

impl Look {
    /// Returns the last post, read in one load. Never returns an older post than this look has returned, or than the look
    /// that it was split from had returned before the split. Never allocates or waits.
    pub fn look(&mut self) -> Posted
        ensures board { self.new.board ≡ self.old.board }
        ensures later { StartsWith self.new.posts self.old.posts }
        ensures value { result ≡ last_of self.new.posts }
        ensures rising { IsRising self.new.posts }
        ensures after { NoneFalls (last_of self.old.posts) result }
    {
        self.board.load(&mut self.seat)
    }

    /// Returns another look at the same board, which knows the same posts. Fails with `Memory` only.
    pub fn split(&mut self, alloc: Global) -> Result<Look, Refusal>
        ensures same { self.new ≡ self.old }
        ensures other { IfOk result (λ l. l ≡ self.old) }
        ensures why { IfErr result (λ e. e ≡ Refusal.Memory) }
    {
        let board = Arc::try_clone(&self.board)?;
        let seat = self.board.split(&mut self.seat);
        Ok(Look { board, seat })
    }

    /// Makes the look know all posts, with the help of the poster. The poster's posts begin with those that the look knew.
    /// Only the law `last_post_is_seen` calls this, for its proof. Like `look`, it reads only the word.
    pub(crate) fn catch_up(&mut self, poster: &mut Poster)
        requires board { self.old.board ≡ poster.old.board }
        ensures poster { poster.new ≡ poster.old }
        ensures known { StartsWith poster.old.posts self.old.posts }
        ensures all { self.new ≡ poster.old }
    {
        let mine = self.board.split(&mut self.seat);
        poster.board.tell(&mut poster.seat, mine);
        poster.board.load(&mut poster.seat);
        let theirs = poster.board.split(&mut poster.seat);
        self.board.learn(&mut self.seat, theirs);
    }
}
