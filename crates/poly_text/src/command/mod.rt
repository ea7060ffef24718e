//! Command lines: what the words of a line ask for.
ghost use Rattle.std.specs.Prelude.{◌≡◌, ◌∷◌, [], codes, false, map, Option, None, Ok};
ghost use Rattle.std.specs.Str.{bytes_eq};
ghost use Rattle.poly_grid.specs.declared.grid.Grid as grid;
ghost use Rattle.poly_text.specs.Commands.{Asks, AskedBy, CommandSays, FormSays, form, just};
ghost use Rattle.poly_text.specs.Gives.{GivesBy};
ghost use Rattle.poly_text.specs.Words.{words_of};

use crate::command::edits::{
    add, allow, cell, copies, drop_piece, forbid, mirror, need, pin, unpin,
};
use crate::command::queries::question_of;
use crate::words::{is_blank, words_of};
use poly_design::Edit;
use poly_grid::{Grid, Refusal};
use std::alloc::Global;

mod edits;
mod queries;
mod question;

pub use queries::{item_of, placement_of};
pub use question::Question;

/// What a command line asks for.
#[derive(Debug, Drop)]
pub enum Command {
    /// An edit of the design: `add`, `drop`, `need`, `copies`, `mirror`, `cell`, `pin`, `unpin`, `forbid` and `allow`.
    Edit(Edit),
    /// `undo`: undoes the last change that can be undone.
    Undo,
    /// `redo`: of the changes that can be redone, redoes the one that was undone last.
    Redo,
    /// `count`: asks how many tilings the design has.
    Count,
    /// `list`: asks for all tilings of the design, in order, and how many there are.
    ListAll,
    /// `browse`: asks about the tilings that meet the question: how many there are, which placements all of them have, and
    /// for each item, how many different placements of these tilings cover it.
    Browse(Question),
    /// `classes`: asks how many tilings the design has up to its symmetries.
    Classes,
    /// `status`: asks for the edition, the number of listed tilings and the number of pending tasks.
    Status,
}

/// Returns the command that the line asks for, or `None` if the line has no word. `grid` is the grid of the design.
///
/// Fails with the first of these causes:
///
/// 1. `BadCommand` if the first word is not a command, the number of words is wrong, or a keyword is wrong;
/// 2. word by word from the left: `BadName` if a name isn't 1 to 16 of `A-Z a-z 0-9 _`; `BadCommand` if a cell, a number or
///    a word of `browse` is malformed; `BadCell` if a coordinate is over 63;
/// 3. `BadShape` if a list of cells has over 16 cells or a cell twice, or if the cells of `add` aren't connected on the grid;
///    `BadCommand` if the least of `copies` is above the most, or the most is over 16.
///
/// `Memory` may come in place of any result, except for a line without words: reading such a line takes no memory.
pub fn asked(alloc: Global, grid: Grid, line: &[u8]) -> Result<Option<Command>, Refusal>
    ensures says { GivesBy (λ a. a) result (Asks grid line.now) }
    ensures blank { words_of line.now ≡ [] → result ≡ Ok None }
{
    if is_blank(line) {
        return Ok(None);
    }
    let words = words_of(alloc, line)?;
    asked_by(alloc, grid, words.as_slice())
}

// The command that the words of a line ask for; none if there is no word.
fn asked_by(alloc: Global, grid: Grid, words: &[&[u8]]) -> Result<Option<Command>, Refusal>
    ensures { GivesBy (λ a. a) result (AskedBy grid (map (λ w. w.now) words.now)) }
{
    if words.is_empty() {
        return Ok(None);
    }
    let command = command_of(alloc, grid, words)?;
    Ok(Some(command))
}

// The command of one or more words.
fn command_of(alloc: Global, grid: Grid, words: &[&[u8]]) -> Result<Command, Refusal>
    ensures { GivesBy (λ c. c) result (CommandSays grid (map (λ w. w.now) words.now)) }
{
    let [first, rest @ ..] = words else {
        return Err(Refusal::BadCommand);
    };
    if *first == b"browse".as_slice() {
        let question = question_of(alloc, rest)?;
        Ok(Command::Browse(question))
    } else {
        plain_command(grid, first, rest)
    }
}

// The command of a line whose first word isn't `browse`.
fn plain_command(grid: Grid, first: &[u8], rest: &[&[u8]]) -> Result<Command, Refusal>
    requires { bytes_eq first.now (codes "browse") ≡ false }
    ensures { CommandSays grid (first.now ∷ map (λ w. w.now) rest.now) result }
{
    if first == b"add".as_slice() {
        add(grid, rest)
    } else if first == b"drop".as_slice() {
        drop_piece(rest)
    } else if first == b"need".as_slice() {
        need(rest)
    } else if first == b"copies".as_slice() {
        copies(rest)
    } else if first == b"mirror".as_slice() {
        mirror(rest)
    } else if first == b"cell".as_slice() {
        cell(rest)
    } else if first == b"pin".as_slice() {
        pin(rest)
    } else if first == b"unpin".as_slice() {
        unpin(rest)
    } else if first == b"forbid".as_slice() {
        forbid(rest)
    } else if first == b"allow".as_slice() {
        allow(rest)
    } else if first == b"undo".as_slice() {
        alone(Command::Undo, rest)
    } else if first == b"redo".as_slice() {
        alone(Command::Redo, rest)
    } else if first == b"count".as_slice() {
        alone(Command::Count, rest)
    } else if first == b"list".as_slice() {
        alone(Command::ListAll, rest)
    } else if first == b"classes".as_slice() {
        alone(Command::Classes, rest)
    } else if first == b"status".as_slice() {
        alone(Command::Status, rest)
    } else {
        Err(Refusal::BadCommand)
    }
}

// The command, which has no words after the first. Fails with `BadCommand` if there are more words.
fn alone(command: Command, words: &[&[u8]]) -> Result<Command, Refusal>
    ensures { (g : grid.Grid) → FormSays g (form [] [] (just command)) (map (λ w. w.now) words.now) result }
{
    if words.is_empty() {
        Ok(command)
    } else {
        Err(Refusal::BadCommand)
    }
}
