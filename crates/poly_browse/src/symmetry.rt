//! The symmetries of a design, each as a list that maps a live number to the number that it is carried to.
//!
//! A symmetry carries the first cell to some cell, so each turn together with each cell gives one motion to try. Nearly all
//! of these motions fail at one of the first cells. If a motion carries each cell to one of the same mode, each placement's
//! image is looked up by a binary search. After that, tilings are carried by numbers alone.
ghost use Rattle.std.specs.Prelude.{IfErr, IfNone, IfOk, IfSome, List, OnOk, length, slice_index, slice_index_or, true, false, ℕ, ◌<◌, ◌≡◌, ◌≢◌};
ghost use Rattle.std.specs.List.{All, Contains, list_all};
ghost use Rattle.poly_grid.specs.Grid.{IsNear, turn_count};
ghost use Rattle.poly_grid.specs.Spot.{Spot};
ghost use Rattle.poly_shape.specs.Order.{IsAscending};
ghost use Rattle.poly_design.specs.PlacementOrder.{placement_cmp};
ghost use Rattle.poly_design.specs.Layout.{mode_of};
ghost use Rattle.poly_design.specs.declared.placement.Placement.{Placement};
ghost use Rattle.poly_tiling.specs.Lists.{mem};
ghost use Rattle.poly_tiling.specs.Shows.{Shows, names};
ghost use Rattle.poly_browse.specs.declared.motion.Motion.{Motion};
ghost use Rattle.poly_browse.specs.Symmetries.{IsSymmetry, Takes, TakesPlacement};
ghost use Rattle.poly_browse.specs.Maps.{AreSets, HasMap, IsMapOf, IsSmall, IsSound, KeepsMode, image_of};

use crate::board::{board_of, named};
use crate::motion::Motion;
use poly_design::{Design, Mode, Placement};
use poly_grid::{Cell, Grid, Refusal};
use poly_tiling::{View, has_number};
use std::alloc::Global;
use std::marker::Model;

/// A symmetry of a design, by placement numbers. Contracts see the list of what each number is carried to.
#[derive(Drop)]
pub(crate) struct Symmetry {
    /// For each live number, the number that it is carried to; 0 for each other number.
    images: Vec<u32>,
}

impl Model for Symmetry {
    ghost use Rattle.std.specs.Prelude.{List, ℕ};

    ghost Value = { List ℕ };

    ghost view = { λ s. s.images.items };
}

impl Symmetry {
    // Returns the number that a number is carried to.
    fn image(&self, number: u32) -> u32
        ensures { result ≡ slice_index self.now number }
    {
        self.images.get(number as usize).copied().unwrap_or(0)
    }

    fn keeps(&self, numbers: &[u32]) -> bool
        ensures { result ≡ list_all (λ n. mem numbers.now (slice_index self.now n)) numbers.now }
    {
        numbers.iter().all(|n| has_number(numbers, self.image(*n)))
    }

    /// Writes into `room` what the numbers are carried to, ascending and each once.
    pub(crate) fn write_image(&self, numbers: &[u32], room: &mut Vec<u32>) -> Result<(), Refusal>
        ensures ok { OnOk result (room.new.items ≡ image_of self.now numbers.now) }
        ensures why { IfErr result (λ e. e ≡ Refusal.Memory) }
    {
        room.clear();
        for number in numbers {
            room.push(self.image(*number))?;
        }
        room.sort_unstable();
        room.dedup();
        Ok(())
    }
}

/// Returns the symmetries of the design by the numbers of the view. Returns none if all cells are blocked: then there is no
/// placement to carry anywhere.
pub(crate) fn symmetries(
    alloc: Global,
    design: &Design,
    view: &View,
) -> Result<Vec<Symmetry>, Refusal>
    requires shows { Shows view.now design.now }
    requires pinned { list_all (λ n. mem view.now.live n) view.now.pins ≡ true }
    ensures sound { IfOk result (λ list. All (IsSound view.now design.now) list.items) }
    ensures whole { IfOk result (λ list. 0 < length design.now.cells → (m : Motion) → IsSymmetry design.now m → HasMap view.now design.now.grid list.items m) }
    ensures why { IfErr result (λ e. e ≡ Refusal.Memory) }
{
    let board = board_of(alloc, design)?;
    let placements = named(alloc, view, view.live())?;
    let mut list = Vec::new(alloc);
    if board.is_empty() {
        return Ok(list);
    }
    for turn in 0..design.grid().turns(true) {
        add_turn(alloc, &mut list, design, view, &board, &placements, turn)?;
    }
    Ok(list)
}

fn first_cell(board: &[(Cell, Mode)]) -> Cell
    requires { 0 < length board.now }
    ensures { (mode : Mode) × Contains board.now (result, mode) }
{
    board[0].0
}

// Adds the symmetries that have this turn.
fn add_turn(
    alloc: Global,
    list: &mut Vec<Symmetry>,
    design: &Design,
    view: &View,
    board: &[(Cell, Mode)],
    placements: &[Placement],
    turn: u8,
) -> Result<(), Refusal>
    requires shows { Shows view.now design.now }
    requires pinned { list_all (λ n. mem view.now.live n) view.now.pins ≡ true }
    requires board { board.now ≡ design.now.cells }
    requires small { All (λ e. IsSmall e.0) board.now }
    requires placements { placements.now ≡ names view.now view.now.live }
    requires some { 0 < length board.now }
    requires known { turn < turn_count design.now.grid true }
    ensures sound { OnOk result (All (IsSound view.now design.now) list.old.items → All (IsSound view.now design.now) list.new.items) }
    ensures kept { OnOk result ((f : List ℕ) → Contains list.old.items f → Contains list.new.items f) }
    ensures whole { OnOk result ((m : Motion) → IsSymmetry design.now m → m.turn ≡ turn → HasMap view.now design.now.grid list.new.items m) }
    ensures why { IfErr result (λ e. e ≡ Refusal.Memory) }
{
    let grid = design.grid();
    let first = first_cell(board);
    for entry in board {
        let motion = Motion::between(grid, turn, first, entry.0);
        if let Some(symmetry) = symmetry_by(alloc, design, view, board, placements, motion)? {
            list.push(symmetry)?;
        }
    }
    Ok(())
}

// Returns the motion by numbers, or `None` if it isn't a symmetry.
fn symmetry_by(
    alloc: Global,
    design: &Design,
    view: &View,
    board: &[(Cell, Mode)],
    placements: &[Placement],
    motion: Motion,
) -> Result<Option<Symmetry>, Refusal>
    requires shows { Shows view.now design.now }
    requires pinned { list_all (λ n. mem view.now.live n) view.now.pins ≡ true }
    requires board { board.now ≡ design.now.cells }
    requires small { All (λ e. IsSmall e.0) board.now }
    requires placements { placements.now ≡ names view.now view.now.live }
    requires known { motion.turn < turn_count design.now.grid true }
    requires near { IsNear motion.shift }
    ensures some { IfOk result (λ found. IfSome found (λ f. IsSymmetry design.now motion × IsMapOf view.now design.now.grid motion f)) }
    ensures none { IfOk result (λ found. IfNone found (¬ IsSymmetry design.now motion)) }
    ensures why { IfErr result (λ e. e ≡ Refusal.Memory) }
{
    let grid = design.grid();
    if !keeps_modes(design, board, motion) {
        return Ok(None);
    }
    match map_of(alloc, grid, view, placements, motion)? {
        None => Ok(None),
        Some(symmetry) => {
            if symmetry.keeps(view.pins()) {
                Ok(Some(symmetry))
            } else {
                Ok(None)
            }
        }
    }
}

// Whether the motion carries each cell to one of the same mode.
fn keeps_modes(design: &Design, board: &[(Cell, Mode)], motion: Motion) -> bool
    requires known { motion.turn < turn_count design.now.grid true }
    requires near { IsNear motion.shift }
    ensures yes { result ≡ true → All (KeepsMode design.now motion) board.now }
    ensures no { result ≡ false → (c : Spot) × (mode : Mode) × Contains board.now (c, mode) × ((b : Spot) → IsSmall b → Takes design.now.grid motion c b → mode_of design.now b ≢ mode) }
{
    for (cell, mode) in board {
        if !keeps_mode(design, motion, *cell, *mode) {
            return false;
        }
    }
    true
}

fn keeps_mode(design: &Design, motion: Motion, cell: Cell, mode: Mode) -> bool
    requires known { motion.turn < turn_count design.now.grid true }
    requires near { IsNear motion.shift }
    ensures yes { result ≡ true → KeepsMode design.now motion (cell, mode) }
    ensures no { result ≡ false → (b : Spot) → IsSmall b → Takes design.now.grid motion cell b → mode_of design.now b ≢ mode }
{
    match motion.moved(design.grid(), cell) {
        Some(to) => design.mode(to) == mode,
        None => false,
    }
}

// Returns what each live number is carried to, or `None` if the image of some placement isn't a placement.
fn map_of(
    alloc: Global,
    grid: Grid,
    view: &View,
    placements: &[Placement],
    motion: Motion,
) -> Result<Option<Symmetry>, Refusal>
    requires placements { placements.now ≡ names view.now view.now.live }
    requires sets { AreSets placements.now }
    requires known { motion.turn < turn_count grid true }
    requires near { IsNear motion.shift }
    ensures some { IfOk result (λ found. IfSome found (IsMapOf view.now grid motion)) }
    ensures none { IfOk result (λ found. IfNone found ((p : Placement) × Contains placements.now p × ((q : Placement) → Contains placements.now q → ¬ TakesPlacement grid motion p q))) }
    ensures why { IfErr result (λ e. e ≡ Refusal.Memory) }
{
    let live = view.live();
    let mut images = Vec::from_elem(alloc, 0, view.number_count())?;
    for at in 0..live.len() {
        let Some(to) = index_of_image(grid, motion, placements, &placements[at]) else {
            return Ok(None);
        };
        images[live[at] as usize] = live[to];
    }
    Ok(Some(Symmetry { images }))
}

// Returns the index of the placement that the motion carries the given one to, or `None` if there is none.
fn index_of_image(
    grid: Grid,
    motion: Motion,
    placements: &[Placement],
    placement: &Placement,
) -> Option<usize>
    requires ascend { IsAscending placement_cmp placements.now }
    requires sets { AreSets placements.now }
    requires known { motion.turn < turn_count grid true }
    requires near { IsNear motion.shift }
    ensures within { IfSome result (λ to. to < length placements.now) }
    ensures some { IfSome result (λ to. TakesPlacement grid motion placement.now (slice_index_or placements.now to placement.now)) }
    ensures none { IfNone result ((q : Placement) → Contains placements.now q → ¬ TakesPlacement grid motion placement.now q) }
{
    let cells = motion.moved_all(grid, placement.cells.as_slice())?;
    let image = Placement {
        name: placement.name,
        cells,
    };
    match placements.binary_search(&image) {
        Ok(to) => Some(to),
        Err(_) => None,
    }
}
