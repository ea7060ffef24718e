//! Frames of small designs: what is open, due and found there is counted by hand. Placement 0 of `DOMINOES` is A on the upper
//! row, and placement 7 is B on the lower row.
ghost use Rattle.std.specs.Prelude.{length, ◌+◌, ◌<◌, ◌≡◌};
ghost use Rattle.poly_frame.specs.declared.frame.TheConstants.{STEPS};

use crate::designs::{DOMINOES, design_of};
use poly_atom::Atom;
use poly_design::Name;
use poly_frame::{Frame, Matrix};
use poly_grid::Refusal;
use poly_tiling::{Item, View};
use std::alloc::{AllocGlobal, Global};
use std::process::Abort;

// Three dominoes on six cells.
const STRIP: &[u8] =
    b"{\"format\":1,\"grid\":\"square\",\"board\":[\"###\",\"###\"],\"pieces\":[{\"name\":\"A\",\"cells\":[[0,0],[1,0]]},{\"name\":\"B\",\"cells\":[[0,0],[1,0]]},{\"name\":\"C\",\"cells\":[[0,0],[1,0]]}]}";

fn view_of(alloc: Global, puzzle: &[u8]) -> Result<View, Refusal> {
    let design = design_of(alloc, puzzle, &[])?;
    View::plain(alloc, &design)
}

// How many options each item of the view has: the cells in their order, and then the pieces.
fn counts(alloc: Global, view: &View, frame: &mut Frame<'_>) -> Result<Vec<usize>, Refusal>
    ensures { frame.new ≡ frame.old }
{
    let mut counts = Vec::new(alloc);
    for bound in view.items() {
        counts.push(frame.options(bound.item).len())?;
    }
    Ok(counts)
}

// Asserts that the items have as many options as `want` says.
fn expect_counts(
    rt: &(impl AllocGlobal + Abort),
    view: &View,
    frame: &mut Frame<'_>,
    want: &[usize],
)
    ensures { frame.new ≡ frame.old }
{
    let found = counts(rt.alloc(), view, frame).expect(rt, "memory");
    assert!(rt; found.as_slice() == want);
}

// Asserts which placement is the first that is open.
fn expect_first(rt: &impl Abort, frame: &Frame<'_>, want: Option<u32>) {
    assert!(rt; frame.first_open() == want);
}

#[test]
fn a_step_leaves_one_open(rt: HostRuntime) {
    let view = view_of(rt.alloc(), DOMINOES).expect(&rt, "a view");
    let mut frame = Frame::new(rt.alloc(), &view, &[]).expect(&rt, "memory");
    expect_counts(&rt, &view, &mut frame, &[4, 4, 4, 4, 4, 4]);
    frame.pick(0);
    expect_counts(&rt, &view, &mut frame, &[0, 0, 1, 1, 0, 1]);
    expect_first(&rt, &frame, Some(7));
    frame.back();
    expect_counts(&rt, &view, &mut frame, &[4, 4, 4, 4, 4, 4]);
}

// Asserts what the frame has found, and whether some item is due.
fn expect_found(rt: &impl Abort, frame: &Frame<'_>, want: Option<&[u32]>, due: bool) {
    assert!(rt; frame.found() == want);
    assert!(rt; frame.next_due().is_some() == due);
}

#[test]
fn a_frame_finds_what_fills_the_square(rt: HostRuntime) {
    let view = view_of(rt.alloc(), DOMINOES).expect(&rt, "a view");
    let matrix = Matrix::new(rt.alloc(), &view).expect(&rt, "memory");
    let lacks = [Atom::Lacks(1)];
    let mut frame = Frame::over(rt.alloc(), &view, &matrix, &lacks).expect(&rt, "memory");
    expect_found(&rt, &frame, None, true);
    frame.pick(7);
    frame.pick(0);
    expect_found(&rt, &frame, Some(&[0, 7]), false);
    frame.leave(0);
    expect_found(&rt, &frame, None, false);
}

// Asserts which item is due next.
fn expect_due(rt: &impl Abort, frame: &Frame<'_>, want: &Item) {
    assert!(rt; frame.next_due() == Some(*want));
}

// Asserts whether taking the placement leaves too few options for the last cell of the square.
fn expect_starved(rt: &impl Abort, view: &View, frame: &mut Frame<'_>, placement: u32, want: bool)
    requires { length frame.old.atoms < frame.old.given + STEPS }
    ensures { frame.new ≡ frame.old }
{
    let cell = view.items().get(3).expect(rt, "four cells").item;
    assert!(rt; frame.starves(placement, cell) == want);
}

// Asserts whether the frame sees that taking the placement leaves too few options for some item, and so doesn't take it.
fn expect_refused(rt: &impl Abort, frame: &mut Frame<'_>, placement: u32, want: bool)
    requires { length frame.old.atoms < frame.old.given + STEPS }
{
    let level = frame.level();
    match frame.pick_unless_starved(placement) {
        None => assert!(rt; !want && frame.level() == level + 1),
        Some(item) => assert!(rt; want && frame.level() == level && frame.starves(placement, item)),
    }
}

#[test]
fn a_placement_starves_a_cell_that_it_leaves_without_options(rt: HostRuntime) {
    let view = view_of(rt.alloc(), DOMINOES).expect(&rt, "a view");
    let mut frame = Frame::new(rt.alloc(), &view, &[]).expect(&rt, "memory");
    expect_starved(&rt, &view, &mut frame, 0, false);
    expect_starved(&rt, &view, &mut frame, 7, false);
    frame.leave(7);
    expect_starved(&rt, &view, &mut frame, 0, true);
    expect_counts(&rt, &view, &mut frame, &[4, 4, 3, 3, 4, 3]);
}

// Placement 1 of `STRIP` is A on the left column. Placements 11 and 13 are those of B on the cell at the lower right, and 18 and
// 20 are those of C there. Without these four, A is needed for that cell.
#[test]
fn a_look_ahead_sees_a_cell_without_options(rt: HostRuntime) {
    let view = view_of(rt.alloc(), STRIP).expect(&rt, "a view");
    let mut frame = Frame::new(rt.alloc(), &view, &[]).expect(&rt, "memory");
    expect_refused(&rt, &mut frame, 1, false);
    let atoms = [
        Atom::Lacks(11),
        Atom::Lacks(13),
        Atom::Lacks(18),
        Atom::Lacks(20),
    ];
    let mut needed = Frame::new(rt.alloc(), &view, &atoms).expect(&rt, "memory");
    expect_refused(&rt, &mut needed, 1, true);
}

#[test]
fn an_item_that_is_not_there_is_due_first(rt: HostRuntime) {
    let view = view_of(rt.alloc(), STRIP).expect(&rt, "a view");
    let gone = Item::Piece(Name::new(b"Z").expect(&rt, "a name"));
    let atoms = [Atom::AtLeast(gone, 1)];
    let frame = Frame::new(rt.alloc(), &view, &atoms).expect(&rt, "memory");
    expect_due(&rt, &frame, &gone);
}

#[test]
fn numbers_that_name_nothing_take_no_memory(rt: HostRuntime) {
    let view = view_of(rt.alloc(), DOMINOES).expect(&rt, "a view");
    let atoms = [Atom::Lacks(u32::MAX), Atom::Has(u32::MAX - 1)];
    let mut frame = Frame::new(rt.alloc(), &view, &atoms).expect(&rt, "memory");
    expect_counts(&rt, &view, &mut frame, &[4, 4, 4, 4, 4, 4]);
    assert!(rt; frame.dead(u32::MAX));
}
