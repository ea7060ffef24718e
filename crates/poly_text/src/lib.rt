//! What the lines of a session say.
//!
//! The puzzle line:
//!
//! - [`puzzle_of`]: the design that it gives, or why it is refused.
//!
//! Each later line:
//!
//! - [`asked`]: what it asks for, which is nothing if it has no words; or why it is refused.
//! - [`Command`]: an edit, an undo, a redo, a question about the tilings, or `status`.
//! - [`Question`]: what `browse` asks of a tiling.
//!
//! Words of a line:
//!
//! - [`words_of`]: the words.
//! - [`item_of`], [`placement_of`]: the item or the placement that a word names.
//! - [`number_of`]: the number that a word writes.
//!
//! Replies:
//!
//! - [`ReplyLine`]: a buffer for one reply line, allocated once, with a method for each kind of reply line but refusals.
//! - [`refusal_line`]: the line of a refusal, which needs no buffer.
//!
//! This crate knows nothing of engines and searches, nor of where lines come from.
#![tactic(auto)]

mod command;
mod puzzle;
mod replies;
mod words;

pub use command::{Command, Question, asked, item_of, placement_of};
pub use puzzle::puzzle_of;
pub use replies::{ReplyLine, refusal_line};
pub use words::{number_of, words_of};
