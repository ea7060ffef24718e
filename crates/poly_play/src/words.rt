//! The words of a script's lines. Names, items, placements and numbers are read as a session reads them.
//!
//! Each function fails with `BadCommand` if the line has no further word, or if the word has another form.
ghost use Rattle.std.specs.Prelude.{◌≤◌};
ghost use Rattle.poly_report.specs.declared.size.TheConstants.{NODES};

use poly_design::{Name, Placement};
use poly_grid::Refusal;
use poly_report::NODES;
use poly_text::{item_of, number_of, placement_of};
use poly_tiling::{Item, View};
use std::alloc::Global;
use std::str::SplitWhitespace;

/// The words of a line that are still to be read.
pub type Words<'a> = SplitWhitespace<'a>;

fn word<'a>(words: &mut Words<'a>) -> Result<&'a str, Refusal> {
    words.next().ok_or(Refusal::BadCommand)
}

/// The next word as a name.
pub fn name(words: &mut Words<'_>) -> Result<Name, Refusal> {
    Name::new(word(words)?.as_bytes())
}

/// The next word as an item: `X,Y` or the name of a piece.
pub fn item(words: &mut Words<'_>) -> Result<Item, Refusal> {
    item_of(word(words)?.as_bytes())
}

/// The next word as a number.
pub fn number(words: &mut Words<'_>) -> Result<u64, Refusal> {
    number_of(word(words)?.as_bytes()).ok_or(Refusal::BadCommand)
}

/// The next word as the number of a task.
pub fn short_number(words: &mut Words<'_>) -> Result<u32, Refusal> {
    short(number(words)?)
}

fn short(number: u64) -> Result<u32, Refusal> {
    if number > u64::from(u32::MAX) {
        return Err(Refusal::BadCommand);
    }
    Ok(number as u32)
}

/// The next word as the number of an atom's bound.
pub fn tiny_number(words: &mut Words<'_>) -> Result<u8, Refusal> {
    let number = number(words)?;
    if number > u64::from(u8::MAX) {
        return Err(Refusal::BadCommand);
    }
    Ok(number as u8)
}

/// The next word as the number of a placement: `NAME=X,Y/X,Y/..`, or the number itself.
pub fn placement(alloc: Global, view: &View, words: &mut Words<'_>) -> Result<u32, Refusal> {
    numbered(alloc, view, word(words)?)
}

/// The number of the placement that the word names. Fails with `NotAPlacement` if the view has no number for it.
pub fn numbered(alloc: Global, view: &View, word: &str) -> Result<u32, Refusal> {
    match number_of(word.as_bytes()) {
        Some(number) => short(number),
        None => number_in(view, placement_of(alloc, word.as_bytes())?),
    }
}

fn number_in(view: &View, placement: Option<Placement>) -> Result<u32, Refusal> {
    for number in 0..u32::MAX {
        if view.placement(number).is_none() {
            break;
        }
        if view.placement(number) == placement {
            return Ok(number);
        }
    }
    Err(Refusal::NotAPlacement)
}

/// A number of nodes that `explore` and `settle` accept.
#[derive(Clone, Copy)]
pub struct Nodes {
    /// The number.
    pub count: u32,
    ghost some: { 1 ≤ count },
    ghost few: { count ≤ NODES },
}

/// The next word as a number of nodes.
pub fn node_count(words: &mut Words<'_>) -> Result<Nodes, Refusal> {
    let count = short_number(words)?;
    if count < 1 || count > NODES {
        return Err(Refusal::BadCommand);
    }
    Ok(Nodes { count })
}
