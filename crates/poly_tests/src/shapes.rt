//! Sets of cells, shapes and their orientations, and how many shapes there are of a size.
ghost use Rattle.std.specs.Prelude.{◌<◌, length};
ghost use Rattle.poly_grid.specs.Grid.{steps};

use poly_grid::{Cell, Grid, Refusal};
use poly_shape::{Cells, Shape};
use std::alloc::{AllocGlobal, Global};
use std::collections::HashSet;
use std::process::Abort;

fn cells_of(alloc: Global, points: &[(u64, u64)]) -> Result<Vec<Cell>, Refusal> {
    let mut cells = Vec::new(alloc);
    for point in points {
        match Cell::new(point.0, point.1) {
            Some(cell) => cells.push(cell)?,
            None => return Err(Refusal::BadCell),
        }
    }
    Ok(cells)
}

fn try_set(alloc: Global, points: &[(u64, u64)]) -> Result<Cells, Refusal> {
    Cells::new(&cells_of(alloc, points)?)
}

fn try_shape(alloc: Global, grid: Grid, points: &[(u64, u64)]) -> Result<Shape, Refusal> {
    Shape::from_cells(grid, &cells_of(alloc, points)?)
}

fn set(rt: &(impl AllocGlobal + Abort), points: &[(u64, u64)]) -> Cells {
    try_set(rt.alloc(), points).expect(rt, "a set")
}

fn square(rt: &(impl AllocGlobal + Abort), points: &[(u64, u64)]) -> Shape {
    try_shape(rt.alloc(), Grid::Square, points).expect(rt, "a shape")
}

// Asserts that a hash set into which `set` was put contains `same`, which is equal to `set`.
fn expect_hashed(rt: &(impl AllocGlobal + Abort), set: Cells, same: &Cells) {
    let mut seen = HashSet::new(rt.alloc());
    seen.insert(set).expect(rt, "memory");
    assert!(rt; seen.contains(same));
}

#[test]
fn sets(rt: HostRuntime) {
    let two = set(&rt, &[(1, 0), (0, 0)]);
    let three = set(&rt, &[(2, 0), (0, 0), (1, 0)]);
    let last = Cell::new(2, 0).expect(&rt, "a cell");
    assert!(rt; Cells::one(last).with(Cell::ORIGIN) == set(&rt, &[(0, 0), (2, 0)]));
    assert!(rt; !two.contains(last));
    assert!(rt; three.as_slice().last() == Some(&last));
    assert!(rt; two < three);
    assert!(rt; two.translated(62, 63) == Some(set(&rt, &[(62, 63), (63, 63)])));
    assert!(rt; two.translated(63, 0).is_none());
    expect_hashed(&rt, two, &set(&rt, &[(0, 0), (1, 0)]));
}

#[test]
fn shapes(rt: HostRuntime) {
    let domino = square(&rt, &[(6, 7), (5, 7)]);
    assert!(rt; domino.cells() == set(&rt, &[(0, 0), (1, 0)]));
    assert!(rt; domino.grid() == Grid::Square);
    assert!(rt; try_shape(rt.alloc(), Grid::Square, &[(0, 0), (2, 0)]).is_err());
    // A hexagon has a neighbour one column to the right and one row up, and none one column to the right and one row down.
    assert!(rt; try_shape(rt.alloc(), Grid::Hex, &[(1, 0), (0, 1)]).is_ok());
    assert!(rt; try_shape(rt.alloc(), Grid::Hex, &[(0, 0), (1, 1)]).is_err());
}

// How many orientations the shape has under rotations and reflections.
fn count(rt: &(impl AllocGlobal + Abort), shape: &Shape) -> usize {
    shape
        .orientations(rt.alloc(), true)
        .expect(rt, "memory")
        .len()
}

// The twelve pentominoes and how many orientations each has, after Golomb, "Polyominoes".
const PENTOMINOES: [([(u64, u64); 5], usize); 12] = [
    ([(1, 0), (2, 0), (0, 1), (1, 1), (1, 2)], 8),
    ([(0, 0), (0, 1), (0, 2), (0, 3), (0, 4)], 2),
    ([(0, 0), (0, 1), (0, 2), (0, 3), (1, 3)], 8),
    ([(1, 0), (1, 1), (0, 2), (1, 2), (0, 3)], 8),
    ([(0, 0), (1, 0), (0, 1), (1, 1), (0, 2)], 8),
    ([(0, 0), (1, 0), (2, 0), (1, 1), (1, 2)], 4),
    ([(0, 0), (2, 0), (0, 1), (1, 1), (2, 1)], 4),
    ([(0, 0), (0, 1), (0, 2), (1, 2), (2, 2)], 4),
    ([(0, 0), (0, 1), (1, 1), (1, 2), (2, 2)], 4),
    ([(1, 0), (0, 1), (1, 1), (2, 1), (1, 2)], 1),
    ([(1, 0), (0, 1), (1, 1), (1, 2), (1, 3)], 8),
    ([(0, 0), (1, 0), (1, 1), (1, 2), (2, 2)], 4),
];

#[test]
fn pentominoes(rt: HostRuntime) {
    for (points, wanted) in &PENTOMINOES {
        assert!(rt; count(&rt, &square(&rt, points)) == *wanted);
    }
}

// The cell's neighbour in that direction, if its coordinates are those of a cell.
fn neighbour(grid: Grid, cell: Cell, direction: u8) -> Option<Cell>
    requires { direction < length (steps grid) }
{
    let point = grid.neighbour(direction, cell.point());
    if point.x < 0 || point.y < 0 {
        return None;
    }
    Cell::new(point.x as u64, point.y as u64)
}

// Adds the shape with one more cell, if the shape doesn't have that cell yet and the larger shape is not listed yet.
fn add_grown(
    alloc: Global,
    grid: Grid,
    room: &Cells,
    next: Cell,
    found: &mut Vec<Cells>,
) -> Result<(), Refusal> {
    if room.contains(next) {
        return Ok(());
    }
    let mut cells = room.as_slice().to_vec(alloc)?;
    cells.push(next)?;
    let cells = Shape::from_cells(grid, &cells)?.cells();
    if !found.contains(&cells) {
        found.push(cells)?;
    }
    Ok(())
}

// The shapes with one cell more than those of the list.
fn grown(alloc: Global, grid: Grid, fixed: &[Cells]) -> Result<Vec<Cells>, Refusal> {
    let mut found = Vec::new(alloc);
    for cells in fixed {
        // The shape is moved one step off the edges, so that each neighbour is a cell.
        let Some(room) = cells.translated(1, 1) else {
            return Err(Refusal::BadCell);
        };
        for cell in room.as_slice() {
            for direction in 0..grid.directions() {
                if let Some(next) = neighbour(grid, *cell, direction) {
                    add_grown(alloc, grid, &room, next, &mut found)?;
                }
            }
        }
    }
    Ok(found)
}

// Whether the shape comes first among its orientations, by rotations alone or by all turns.
fn is_first(alloc: Global, grid: Grid, cells: &Cells, mirror: bool) -> Result<bool, Refusal> {
    let shape = Shape::from_cells(grid, cells.as_slice())?;
    let found = shape.orientations(alloc, mirror)?;
    Ok(found.first() == Some(cells))
}

// How many of these shapes there are up to rotations, or up to all turns.
fn classes(alloc: Global, grid: Grid, fixed: &[Cells], mirror: bool) -> Result<usize, Refusal> {
    let mut first = Vec::new(alloc);
    for cells in fixed {
        if is_first(alloc, grid, cells, mirror)? {
            first.push(*cells)?;
        }
    }
    Ok(first.len())
}

// How many shapes of `size` cells there are: fixed, one-sided and free.
fn enumerated(alloc: Global, grid: Grid, size: usize) -> Result<[usize; 3], Refusal> {
    let mut fixed = Vec::new(alloc);
    fixed.push(Cells::one(Cell::ORIGIN))?;
    for _ in 1..size {
        fixed = grown(alloc, grid, &fixed)?;
    }
    Ok([
        fixed.len(),
        classes(alloc, grid, &fixed, false)?,
        classes(alloc, grid, &fixed, true)?,
    ])
}

// The numbers of polyominoes and of polyhexes: sequences A001168, A000988 and A000105, and A001207, A006535 and
// A000228 of the OEIS.
#[test]
fn enumerations(rt: HostRuntime) {
    for (grid, size, wanted) in [
        (Grid::Square, 4, [19, 7, 5]),
        (Grid::Square, 5, [63, 18, 12]),
        (Grid::Hex, 1, [1, 1, 1]),
        (Grid::Hex, 2, [3, 1, 1]),
        (Grid::Hex, 3, [11, 3, 3]),
        (Grid::Hex, 4, [44, 10, 7]),
    ] {
        let found = enumerated(rt.alloc(), grid, size).expect(&rt, "memory");
        assert!(rt; found == wanted);
    }
}
