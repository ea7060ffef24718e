//! The rule of a board's word: all posts form one log in which neither number ever falls, the word holds the last post of
//! the log, and each seat knows a beginning of the log.
//!
//! Each step on the word must keep the rule. The plays, the split and the joins below state what a seat knows after a step.
//!
//! A board has four kinds of step: making the views together with the word, a post, a look, and the split of a look.
//! [`Look::catch_up`](crate::look::Look::catch_up), which only the law uses, joins views too.

ghost use Rattle.std.specs.Prelude.{◌≡◌, [], ◌∷◌, true, false};
ghost use Rattle.poly_board.specs.Rule.{Looks, Posts, IsKept, view};

use crate::posted::Posted;
use atomic_table::{Join, Play, Split, TableRule};
use std::collections::LinkedList;

/// What a seat knows. Only proofs use this type: the program never makes a value of it.
pub struct View {
    /// Whether the seat is the poster's.
    pub is_poster: bool,
    /// The posts that the seat knows, oldest first.
    pub posts: LinkedList<Posted>,
    /// The posts that another seat has told this one. The next load or store empties the list.
    pub told: LinkedList<Posted>,
}

/// The rule of the word. Its key is the opening post.
pub struct OneLog;

impl TableRule<u8, View, Posted> for OneLog {
    ghost holds = { λ _ s. IsKept s };

    ghost first = { λ opening. view true (opening ∷ []) [] };
}

/// A load: the seat comes to know all posts so far.
pub struct Looking;

impl Play<u8, View> for Looking {
    ghost then = { λ _ me found after. (after.1 ≡ me.1) × Looks me.0 found after.0 };
}

/// A store: one more post.
pub struct Posting;

impl Play<u8, View> for Posting {
    ghost then = { λ _ me stored after. (after.1 ≡ me.1) × Posts me.0 stored after.0 };
}

/// A split: the new seat knows the same posts.
pub struct Copying;

impl Split<View> for Copying {
    ghost left = { λ v. v };

    ghost right = { λ v. view false v.posts [] };
}

/// A join: the seat is told which posts the other seat knows, and still knows what it knew before.
pub struct Telling;

impl Join<View> for Telling {
    ghost both = { λ v w. view v.is_poster v.posts w.posts };

    ghost spent = { view false [] [] };
}

/// A join: the seat, which is a look's, knows afterwards what the other seat knew.
pub struct Learning;

impl Join<View> for Learning {
    ghost both = { λ _ w. view false w.posts [] };

    ghost spent = { view false [] [] };
}
