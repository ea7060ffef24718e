//! Two numbers of a desk, its edition and its endings, posted where any thread can read them without a lock.
//!
//! - [`Posted`]: an edition and a number of endings.
//! - [`Board`]: one word that holds the last post. [`Board::new`] returns its only poster and a first look.
//! - [`Poster`]: posts numbers. Neither number ever falls.
//! - [`Look`]: reads the last post. Split it to give each thread a look of its own.
//!
//! Contracts see a poster and a look as a board and the posts on it that are known, oldest first. The poster knows all
//! posts. A look knows the posts up to one of them, and each read makes it know all posts so far. So a look never returns
//! an older post than before. [`laws`] states that a look that reads after a post returns this post, if no other
//! post comes in between.
#![tactic(auto)]

mod board;
pub mod laws;
mod look;
mod posted;
mod poster;
mod rule;

pub use board::Board;
pub use look::Look;
pub use posted::Posted;
pub use poster::Poster;
