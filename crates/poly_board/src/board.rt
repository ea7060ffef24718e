//! The word of a board, and the steps on this word. `rule.rt` has the rule that each step keeps.

ghost use Rattle.std.specs.Prelude.{◌≡◌, ◌++◌, [], ◌∷◌, true, false, IfErr, IfOk};
ghost use Rattle.poly_board.specs.Posts.{NoneFalls, last_of, unpacked};
ghost use Rattle.poly_board.specs.Rule.{Looks, Posts, view};
ghost use Rattle.poly_board.specs.Sight.{sight};
ghost use Rattle.poly_grid.specs.declared.refusal.Refusal.TheVariants.{Memory};

use crate::look::Look;
use crate::posted::Posted;
use crate::poster::Poster;
use crate::rule::{Copying, Learning, Looking, OneLog, Posting, Telling, View};
use atomic_table::{Seat, Table};
use poly_grid::Refusal;
use std::alloc::Global;
use std::sync::Arc;

type Word = Table<u8, View, Posted, OneLog, Global>;

/// A seat at a board's word.
pub(crate) type BoardSeat = Seat<u8, View>;

/// One word that holds the last post. The poster and all looks share it.
#[derive(Drop)]
pub struct Board {
    /// The table of one word, whose rule is `OneLog`.
    pub(crate) word: Word,
    ghost one: { word.shared.table_id.words ≡ 1 },
}

impl Board {
    /// Makes a board with the opening post, which may have any numbers. Returns the board's only poster and a look. Fails
    /// with `Memory` only.
    pub fn new(alloc: Global, opening: Posted) -> Result<(Poster, Look), Refusal>
        ensures same { IfOk result (λ b. b.0 ≡ b.1) }
        ensures opening { IfOk result (λ b. b.0.posts ≡ opening ∷ []) }
        ensures why { IfErr result (λ e. e ≡ Refusal.Memory) }
    {
        let (word, mut seat) = Word::of_words(alloc, &[opening.pack()], &opening)?;
        let other = word.shared.split_seat::<Copying>(&mut seat);
        let board = Arc::new(alloc, Board { word })?;
        let shared = Arc::try_clone(&board)?;
        Ok((
            Poster { board, seat },
            Look {
                board: shared,
                seat: other,
            },
        ))
    }

    /// Loads the word: the last post.
    pub(crate) fn load(&self, seat: &mut BoardSeat) -> Posted
        requires board { seat.old.table_id ≡ self.now.word.shared.table_id }
        ensures board { seat.new.table_id ≡ seat.old.table_id }
        ensures held { seat.new.me.1 ≡ seat.old.me.1 }
        ensures looks { (word : _) × (result ≡ unpacked word) × Looks seat.old.me.0 word seat.new.me.0 }
    {
        Posted::unpack(self.word.shared.load::<Looking>(seat, 0))
    }

    /// Stores the word: one more post.
    pub(crate) fn store(&self, seat: &mut BoardSeat, posted: Posted)
        requires board { seat.old.table_id ≡ self.now.word.shared.table_id }
        requires poster { seat.old.me.0.is_poster ≡ true }
        requires rising { NoneFalls (last_of seat.old.me.0.posts) posted }
        ensures board { seat.new.table_id ≡ seat.old.table_id }
        ensures held { seat.new.me.1 ≡ seat.old.me.1 }
        ensures posts { seat.new.me.0 ≡ view true (seat.old.me.0.posts ++ posted ∷ []) [] }
    {
        self.word.shared.store::<Posting>(seat, 0, posted.pack())
    }

    /// A new seat, which knows the same posts.
    pub(crate) fn split(&self, seat: &mut BoardSeat) -> BoardSeat
        requires board { seat.old.table_id ≡ self.now.word.shared.table_id }
        ensures same { (seat.new.table_id ≡ seat.old.table_id) × (seat.new.me ≡ seat.old.me) }
        ensures other { (result.table_id ≡ seat.old.table_id) × (result.me ≡ (view false seat.old.me.0.posts [], [])) }
    {
        self.word.shared.split_seat::<Copying>(seat)
    }

    /// Tells `seat` what `other` knows, and uses `other` up. The seat still knows what it knew before.
    pub(crate) fn tell(&self, seat: &mut BoardSeat, other: BoardSeat)
        requires board { (seat.old.table_id ≡ self.now.word.shared.table_id) × (other.table_id ≡ self.now.word.shared.table_id) }
        requires held { other.me.1 ≡ [] }
        ensures board { seat.new.table_id ≡ seat.old.table_id }
        ensures told { seat.new.me ≡ (view seat.old.me.0.is_poster seat.old.me.0.posts other.me.0.posts, seat.old.me.1) }
    {
        self.word.shared.join_seat::<Telling>(seat, other);
    }

    /// Replaces what `seat` knows by what `other` knows, and uses `other` up.
    pub(crate) fn learn(&self, seat: &mut BoardSeat, other: BoardSeat)
        requires board { (seat.old.table_id ≡ self.now.word.shared.table_id) × (other.table_id ≡ self.now.word.shared.table_id) }
        requires held { other.me.1 ≡ [] }
        ensures board { seat.new.table_id ≡ seat.old.table_id }
        ensures learned { seat.new.me ≡ (view false other.me.0.posts [], seat.old.me.1) }
    {
        self.word.shared.join_seat::<Learning>(seat, other);
    }
}
