//! An answer over a list with a number that names nothing.

use crate::designs::{DOMINOES, design_of};
use poly_browse::{Answer, Query, browse};
use poly_grid::Refusal;
use poly_tiling::{Item, Tiling, View};
use std::alloc::Global;

/// The query without words, which every tiling answers.
pub(crate) fn everything(alloc: Global) -> Query {
    Query {
        has: Vec::new(alloc),
        lacks: Vec::new(alloc),
        covers: Vec::new(alloc),
    }
}

// The answer over a list of one tiling. This tiling has the number of the first placement and the greatest `u32`, which names
// nothing.
fn over_a_number_of_nothing(alloc: Global) -> Result<Answer, Refusal> {
    let design = design_of(alloc, DOMINOES, &[])?;
    let view = View::plain(alloc, &design)?;
    let mut tilings = Vec::new(alloc);
    tilings.push(Tiling::new(vec![in alloc; 0, u32::MAX]?))?;
    browse(alloc, &design, &tilings, &view, &everything(alloc))
}

// How many of the items have this many options.
fn counted(items: &[(Item, u64)], options: u64) -> u64 {
    let mut count = 0u64;
    for item in items {
        if item.1 == options {
            count = count.saturating_add(1);
        }
    }
    count
}

// This must not take memory for each number up to the greatest one: a flag for each would take 4 GiB.
#[test]
fn browses_over_a_number_of_nothing(rt: HostRuntime) {
    let found = over_a_number_of_nothing(rt.alloc()).expect(&rt, "memory");
    assert!(rt; (found.count, found.forced.len(), found.options.len()) == (1, 1, 6));
    // A on the upper row covers two of the four cells and uses A: three of the six items have one option, and the others none.
    assert!(rt; counted(&found.options, 0) == 3);
    assert!(rt; counted(&found.options, 1) == 3);
}
