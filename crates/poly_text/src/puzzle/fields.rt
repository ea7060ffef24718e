//! The fields of a piece object.
ghost use Rattle.std.specs.Prelude.{◌≡◌, List, ℕ, length, map, option_map, option_and_then};
ghost use Rattle.std.specs.List.{list_all};
ghost use Rattle.serde_json.specs.View.{view, members_view};
ghost use Rattle.poly_text.specs.Fields.{fields_one, fields_two, fields_of, is_pair, copies_of, copies_by_need, mirror_of, present, cell_of};
ghost use Rattle.poly_text.specs.Views.{views, fields_view};

use crate::puzzle::head::Format;
use crate::puzzle::json::{as_list, count, is_whole, list_at, text_at};
use poly_design::Copies;
use poly_grid::Cell;
use serde_json::Value;

/// The fields of a piece object, each of the right kind.
#[derive(Clone, Copy)]
pub struct Fields<'v> {
    /// The text at `name`, which need not be a valid name.
    pub name: &'v str,
    /// The elements of `cells`, each a list of two whole numbers.
    pub cells: &'v [Value],
    /// How often the piece is used, by `need` or by `least` and `most`.
    pub copies: Copies,
    /// Whether the piece may be turned over.
    pub mirror: bool,
}

/// The fields of the value, if it is an object with the keys of the format and no others, each with a value of the right kind,
/// and the copies are in range. `need`, a key of format 1 only, may be missing, and so may `mirror`.
pub fn fields_of(format: Format, value: &Value) -> Option<Fields<'_>>
    ensures { option_map fields_view result ≡ fields_of format (view value.now) }
{
    match format {
        Format::One => fields_one(value),
        Format::Two => fields_two(value),
    }
}

// The fields of format 1. An object has each key once, so if the number of its keys is right, it has no other keys.
#[tactic(auto, using(crate::proofs::Testing::list_all_views), unfolding(crate::specs::Fields::fields_one))]
fn fields_one(value: &Value) -> Option<Fields<'_>>
    ensures { option_map fields_view result ≡ fields_one (view value.now) }
{
    let map = value.as_object()?;
    let name = text_at(value, "name")?;
    let cells = list_at(value, "cells")?;
    let copies = copies_by_need(value.get("need"))?;
    let mirror = mirror_of(value.get("mirror"))?;
    let keys = 2 + present(value.get("need")) + present(value.get("mirror"));
    if count(map) == keys && are_pairs(cells) {
        Some(Fields {
            name,
            cells,
            copies,
            mirror,
        })
    } else {
        None
    }
}

// The fields of format 2.
#[tactic(auto, using(crate::proofs::Testing::list_all_views), unfolding(crate::specs::Fields::fields_two))]
fn fields_two(value: &Value) -> Option<Fields<'_>>
    ensures { option_map fields_view result ≡ fields_two (view value.now) }
{
    let map = value.as_object()?;
    let name = text_at(value, "name")?;
    let cells = list_at(value, "cells")?;
    let least = value.get("least").and_then(Value::as_u64)?;
    let most = value.get("most").and_then(Value::as_u64)?;
    let copies = copies_of(least, most)?;
    let mirror = mirror_of(value.get("mirror"))?;
    let keys = 4 + present(value.get("mirror"));
    if count(map) == keys && are_pairs(cells) {
        Some(Fields {
            name,
            cells,
            copies,
            mirror,
        })
    } else {
        None
    }
}

// Whether the value is a list of two whole numbers.
fn is_pair(value: &Value) -> bool
    ensures { result ≡ is_pair (view value.now) }
{
    match as_list(value) {
        Some([x, y]) => is_whole(x) && is_whole(y),
        _ => false,
    }
}

fn are_pairs(values: &[Value]) -> bool
    ensures { result ≡ list_all (λ v. is_pair (view v)) values.now }
{
    values.iter().all(|value| is_pair(value))
}

fn copies_of(least: u64, most: u64) -> Option<Copies>
    ensures { result ≡ copies_of least most }
{
    Copies::new(least, most)
}

// The copies that the value at the key `need` gives, if this is `required` or `optional`; exactly one copy if the key is
// missing.
fn copies_by_need(need: Option<&Value>) -> Option<Copies>
    ensures { result ≡ copies_by_need (option_map (λ v. view v.now) need.entry) }
{
    let Some(need) = need else {
        return copies_of(1, 1);
    };
    let text = need.as_str()?;
    if text == "required" {
        copies_of(1, 1)
    } else if text == "optional" {
        copies_of(0, 1)
    } else {
        None
    }
}

// The value at the key `mirror`, if it is true or false; true if the key is missing.
fn mirror_of(mirror: Option<&Value>) -> Option<bool>
    ensures { result ≡ mirror_of (option_map (λ v. view v.now) mirror.entry) }
{
    match mirror {
        None => Some(true),
        Some(mirror) => mirror.as_bool(),
    }
}

// How many keys an optional field adds.
fn present(field: Option<&Value>) -> usize
    ensures { result ≡ present (option_map (λ v. view v.now) field.entry) }
{
    match field {
        None => 0,
        Some(_) => 1,
    }
}

/// The cell of the value, if it is a list of two whole numbers from 0 to 63: the column and the row.
pub fn cell_of(value: &Value) -> Option<Cell>
    ensures { result ≡ cell_of (view value.now) }
{
    match as_list(value)? {
        [x, y] => Cell::new(x.as_u64()?, y.as_u64()?),
        _ => None,
    }
}
