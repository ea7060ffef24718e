//! The words of `browse`, and the question that they make.
ghost use Rattle.std.specs.Prelude.{◌≡◌, ◌⊎◌, map, Ok, Err, IfOk, IfErr};
ghost use Rattle.poly_text.specs.Gives.{GivesBy, Follows};
ghost use Rattle.poly_text.specs.Queries.{Query, Named, Makes, item_of, named_cells, query_of, QuestionSays};
ghost use Rattle.poly_text.specs.Read.{IsReadAs};
ghost use Rattle.poly_text.specs.Words.{read_each};

use crate::command::question::Question;
use crate::words::{cell_of, index_of, listed_set, name_of};
use poly_design::Placement;
use poly_grid::Refusal;
use poly_tiling::Item;
use std::alloc::Global;

// What one word asks. A placement is `None` if its list of cells has over 16 cells or a cell twice: this is refused only
// after all words are read.
#[derive(Clone, Copy)]
enum QueryWord {
    Has(Option<Placement>),
    Lacks(Option<Placement>),
    Covers(Item),
}

/// Returns the placement that the text `NAME=CELL/CELL/..` names, or `None` if its list of cells has over 16 cells or a cell
/// twice. Fails with `BadCommand` if the text has no `=`, then with `BadName` if the name isn't valid, then with `BadCommand`
/// if a cell is malformed, then with `BadCell` if a coordinate is over 63; or with `Memory`.
#[tactic(auto, unfolding(crate::specs::Queries::named_cells))]
pub fn placement_of(alloc: Global, text: &[u8]) -> Result<Option<Placement>, Refusal>
    ensures ok { IfOk result (λ made. (named : Named) × (named_cells text.now ≡ Ok named) × Makes named made) }
    ensures why { IfErr result (λ e. (e ≡ Refusal.Memory) ⊎ (named_cells text.now ≡ Err e)) }
{
    let equals = index_of(text, b'=').ok_or(Refusal::BadCommand)?;
    let name = name_of(&text[..equals]).ok_or(Refusal::BadName)?;
    let set = listed_set(alloc, &text[equals + 1..])?;
    match set {
        Some(cells) => Ok(Some(Placement { name, cells })),
        None => Ok(None),
    }
}

/// Returns the item that the text names: a cell if it has a comma, otherwise a piece. Fails with `BadCommand` if a cell is
/// malformed, with `BadCell` if a coordinate is over 63, and with `BadName` if the name of a piece isn't valid.
#[tactic(auto, unfolding(crate::specs::Queries::item_of))]
pub fn item_of(text: &[u8]) -> Result<Item, Refusal>
    ensures { result ≡ item_of text.now }
{
    if index_of(text, b',').is_some() {
        let cell = cell_of(text)?;
        Ok(Item::Cell(cell))
    } else {
        let name = name_of(text).ok_or(Refusal::BadName)?;
        Ok(Item::Piece(name))
    }
}

// What the word asks, by its first byte.
fn query_of(alloc: Global, word: &[u8]) -> Result<QueryWord, Refusal>
    ensures ok { IfOk result (λ query. (q : Query) × (query_of word.now ≡ Ok q) × IsReadAs q query) }
    ensures why { IfErr result (λ e. (e ≡ Refusal.Memory) ⊎ (query_of word.now ≡ Err e)) }
{
    let [first, text @ ..] = word else {
        return Err(Refusal::BadCommand);
    };
    if *first == b'+' {
        let made = placement_of(alloc, text)?;
        Ok(QueryWord::Has(made))
    } else if *first == b'-' {
        let made = placement_of(alloc, text)?;
        Ok(QueryWord::Lacks(made))
    } else if *first == b'@' {
        let item = item_of(text)?;
        Ok(QueryWord::Covers(item))
    } else {
        Err(Refusal::BadCommand)
    }
}

/// Returns the question that the words of `browse` make. A tiling must have the placement of each word
/// `+NAME=CELL/CELL/..`, must not have the placement of `-NAME=CELL/CELL/..`, and must cover the cell of `@x,y` and use the
/// piece of `@NAME`.
///
/// Fails with the cause of the leftmost word that is refused: `BadName` if its name isn't valid, `BadCommand` if the word
/// is malformed, `BadCell` if a coordinate is over 63. If all words are accepted, fails with `BadShape` if a list of cells
/// has over 16 cells or a cell twice. `Memory` may come in place of any result.
pub fn question_of(alloc: Global, words: &[&[u8]]) -> Result<Question, Refusal>
    ensures { GivesBy (λ q. q) result (λ r. Follows (read_each query_of (map (λ w. w.now) words.now)) (λ queries. QuestionSays queries r) r) }
{
    let mut has = Vec::new(alloc);
    let mut lacks = Vec::new(alloc);
    let mut covers = Vec::new(alloc);
    let mut are_sets = true;
    for word in words {
        let query = query_of(alloc, word)?;
        match query {
            QueryWord::Has(Some(placement)) => has.push(placement)?,
            QueryWord::Lacks(Some(placement)) => lacks.push(placement)?,
            QueryWord::Covers(item) => covers.push(item)?,
            QueryWord::Has(None) => are_sets = false,
            QueryWord::Lacks(None) => are_sets = false,
        }
    }
    if are_sets {
        Ok(Question { has, lacks, covers })
    } else {
        Err(Refusal::BadShape)
    }
}
