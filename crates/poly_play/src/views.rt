//! The design now: its placements, and its view by numbers.

use crate::reply::Reply;
use crate::words::{Words, item, name, numbered, placement};
use poly_design::{Design, Placement};
use poly_grid::Refusal;
use poly_tiling::{Item, View, conflict};
use std::alloc::Global;

/// `places`, or `places ITEM` for those that cover the item.
pub fn places(design: &Design, reply: &mut Reply, words: &mut Words<'_>) -> Result<(), Refusal> {
    let places = listed(design, words)?;
    reply.field("places ", places.len() as u64);
    reply.each_placement(places.as_slice());
    reply.end();
    Ok(())
}

fn listed(design: &Design, words: &mut Words<'_>) -> Result<Vec<Placement>, Refusal> {
    match &item(words) {
        Ok(item) => covering(design, item),
        Err(_) => design.places(),
    }
}

fn covering(design: &Design, item: &Item) -> Result<Vec<Placement>, Refusal> {
    match item {
        Item::Cell(cell) => design.places_on(*cell),
        Item::Piece(name) => design.places_of(*name),
    }
}

/// `count_places`
pub fn count_places(design: &Design, reply: &mut Reply) -> Result<(), Refusal> {
    let places = design.places()?;
    reply.line("places ", places.len() as u64);
    Ok(())
}

/// `pinned NAME`
pub fn pinned(design: &Design, reply: &mut Reply, words: &mut Words<'_>) -> Result<(), Refusal> {
    let name = name(words)?;
    let Some(spec) = design.spec(name) else {
        return Err(Refusal::NoSuchPiece);
    };
    reply.text("pinned");
    match spec.pin {
        Some(cells) => reply.each_placement(&[Placement { name, cells }]),
        None => reply.each_placement(&[]),
    }
    reply.end();
    Ok(())
}

/// `live`
pub fn live(view: &View, reply: &mut Reply) {
    reply.text("live");
    for number in view.live() {
        reply.field(" ", u64::from(*number));
    }
    reply.end();
}

/// `pins`
pub fn pins(view: &View, reply: &mut Reply) {
    reply.text("pins");
    reply.placements(view, view.pins());
    reply.end();
}

/// `bounds ITEM`
pub fn bounds(view: &View, reply: &mut Reply, words: &mut Words<'_>) -> Result<(), Refusal> {
    let (least, most) = view.bounds(item(words)?);
    reply.field("bounds ", u64::from(least));
    reply.line(" ", u64::from(most));
    Ok(())
}

/// `covers PLACEMENT ITEM`
pub fn covers(
    alloc: Global,
    view: &View,
    reply: &mut Reply,
    words: &mut Words<'_>,
) -> Result<(), Refusal> {
    let number = placement(alloc, view, words)?;
    reply.answer("covers", view.covers(number, item(words)?));
    Ok(())
}

/// `conflict PLACEMENT PLACEMENT`
pub fn conflicts(
    alloc: Global,
    view: &View,
    reply: &mut Reply,
    words: &mut Words<'_>,
) -> Result<(), Refusal> {
    let one = named(alloc, view, words)?;
    let other = named(alloc, view, words)?;
    reply.answer("conflict", conflict(&one, &other));
    Ok(())
}

fn named(alloc: Global, view: &View, words: &mut Words<'_>) -> Result<Placement, Refusal> {
    let number = placement(alloc, view, words)?;
    view.placement(number).ok_or(Refusal::NotAPlacement)
}

/// `is_tiling PLACEMENT ..`
pub fn is_tiling(
    alloc: Global,
    view: &View,
    reply: &mut Reply,
    words: &mut Words<'_>,
) -> Result<(), Refusal> {
    let numbers = numbers(alloc, view, words)?;
    reply.answer("tiling", view.is_tiling(numbers.as_slice()));
    Ok(())
}

fn numbers(alloc: Global, view: &View, words: &mut Words<'_>) -> Result<Vec<u32>, Refusal> {
    let mut numbers = Vec::new(alloc);
    for word in words {
        numbers.push(numbered(alloc, view, word)?)?;
    }
    Ok(numbers)
}
