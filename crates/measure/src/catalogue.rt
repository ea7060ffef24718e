//! What listing all tilings of a design costs: time and memory.
ghost use Rattle.std.specs.Prelude.{◌≡◌, ◌++◌, IfOk, true};
ghost use Rattle.std.specs.List.{list_all};
ghost use Rattle.poly_tiling.specs.Puzzle.{is_tiling};
ghost use Rattle.poly_catalogue.specs.Listed.{AreOnce};

use poly_catalogue::Catalogue;
use poly_design::Design;
use poly_grid::Refusal;
use poly_search::search_all;
use poly_tiling::{Tiling, View};
use std::alloc::Global;
use std::time::Instant;
use std::{fs, io};

/// Measures `list_all` of all tilings of the design.
pub fn measure(rt: &HostRuntime, design: &Design) -> io::Result<()> {
    let before = resident_bytes(rt)?;
    match all_tilings(rt.alloc(), design) {
        Ok((view, tilings)) => measure_list(rt, &view, tilings, before),
        Err(refusal) => println!(rt; "a search was refused: {}", refusal.name()),
    }
}

// Lists the tilings. `before` is how many bytes were resident before the search.
fn measure_list(rt: &HostRuntime, view: &View, tilings: Vec<Tiling>, before: u64) -> io::Result<()>
    requires tilings { list_all (is_tiling view.now) tilings.items ≡ true }
    requires once { AreOnce tilings.items }
{
    let begin = Instant::now(rt)?;
    let mut catalogue = Catalogue::new(rt.alloc());
    let listed = catalogue.list_all(view, tilings);
    let taken = begin.elapsed(rt)?.as_millis();
    if let Err(refusal) = listed {
        return println!(rt; "list_all: {}", refusal.name());
    }
    let count = catalogue.len();
    let more = resident_bytes(rt)?.saturating_sub(before);
    let each = more.checked_div(count as u64).unwrap_or(0);
    println!(rt; "list_all: {count} tilings, {taken} ms, {each} bytes of resident memory a tiling")
}

// The view of the design, and all tilings.
fn all_tilings(alloc: Global, design: &Design) -> Result<(View, Vec<Tiling>), Refusal>
    ensures tilings { IfOk result (λ r. list_all (is_tiling r.0) r.1.items ≡ true) }
    ensures once { IfOk result (λ r. AreOnce r.1.items) }
{
    let view = View::plain(alloc, design)?;
    let tilings = search_all(alloc, &view, &[])?;
    Ok((view, tilings))
}

// The bytes of a page. /proc/self/statm counts memory in pages.
const PAGE: u64 = 4096;

// How many bytes of the program are in memory now, by /proc/self/statm; 0 if that file can't be understood.
fn resident_bytes(rt: &HostRuntime) -> io::Result<u64> {
    let text = fs::read_to_string(rt, "/proc/self/statm")?;
    let Some(pages) = text.as_str().split_whitespace().nth(1) else {
        return Ok(0);
    };
    match pages.parse::<u64>() {
        Ok(pages) => Ok(pages.saturating_mul(PAGE)),
        Err(_) => Ok(0),
    }
}
