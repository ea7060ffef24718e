//! The two grids: the neighbours of a point, and the images of a point under the turns of the plane. A turn is a
//! rotation about the point (0, 0), or a reflection in a line through it.
//!
//! A square has the coordinates (x, y): x grows to the right and y downwards. A hexagon has the
//! axial coordinates (q, r), kept in the fields x and y: two of the three cube coordinates q, r and
//! s, whose sum is always 0. A step to a neighbour adds constants to the coordinates. A turn permutes
//! the coordinates (for hexagons, the cube coordinates) and may change signs. So the tables below are
//! all the geometry there is. Both grids are endless. A turn can make coordinates negative, so a turned
//! shape is moved back into the board's range afterwards.

ghost use Rattle.std.specs.Prelude.{◌≡◌, ◌<◌, ◌≤ℤ◌, pos, negsuc, true, length, slice_index_or};
ghost use Rattle.poly_grid.specs.declared.grid.Grid.TheVariants.{Square, Hex};
ghost use Rattle.poly_grid.specs.Grid.{neighbour_of, steps, turn_count, turned_of, IsNear};

/// The grid that cells belong to: the plane divided into squares or into hexagons.
#[derive(Clone, Copy, Debug, PartialEq, Eq)]
pub enum Grid {
    /// Squares, each with four neighbours, in coordinates (x, y).
    Square,
    /// Hexagons, each with six neighbours, in axial coordinates: x is q and y is r.
    Hex,
}

/// A point of the endless grid: column and row, or the axial q and r.
#[derive(Clone, Copy, Debug, PartialEq, Eq)]
pub struct Point {
    /// The column, or q.
    pub x: i16,
    /// The row, or r.
    pub y: i16,
}

impl Grid {
    /// How many neighbours each point has: 4 on the square grid, 6 on the hexagonal one.
    pub fn directions(self) -> u8
        ensures { result ≡ length (steps self) }
    {
        match self {
            Grid::Square => 4,
            Grid::Hex => 6,
        }
    }

    /// The neighbour of the point in a direction, a number below `directions()`.
    ///
    /// The directions go round in a circle. Squares: right, down, left, up. Hexagons: (1, 0), (0, 1), (-1, 1),
    /// (-1, 0), (0, -1), (1, -1). The direction half a circle further leads back. Requires coordinates from
    /// -1,000 to 1,000, so that no sum overflows.
    pub fn neighbour(self, direction: u8, point: Point) -> Point
        requires known { direction < length (steps self) }
        requires near { IsNear point }
        ensures { result ≡ neighbour_of self direction point }
    {
        let (x, y) = self.step(direction);
        Point {
            x: point.x + x,
            y: point.y + y,
        }
    }

    fn step(self, direction: u8) -> (i16, i16)
        requires { direction < length (steps self) }
        ensures value { result ≡ slice_index_or (steps self) direction (pos 0, pos 0) }
        ensures small { (negsuc 0 ≤ℤ result.0) × (result.0 ≤ℤ pos 1) × (negsuc 0 ≤ℤ result.1) × (result.1 ≤ℤ pos 1) }
    {
        match (self, direction) {
            (Grid::Square, 0) => (1, 0),
            (Grid::Square, 1) => (0, 1),
            (Grid::Square, 2) => (-1, 0),
            (Grid::Square, 3) => (0, -1),
            (Grid::Hex, 0) => (1, 0),
            (Grid::Hex, 1) => (0, 1),
            (Grid::Hex, 2) => (-1, 1),
            (Grid::Hex, 3) => (-1, 0),
            (Grid::Hex, 4) => (0, -1),
            (Grid::Hex, 5) => (1, -1),
            _ => unreachable!(),
        }
    }

    /// How many turns there are: the rotations, 4 or 6 of them, or with `mirror` the rotations and reflections, 8 or 12.
    ///
    /// The rotations come first, so that a piece that may not be turned over uses the numbers below
    /// `turns(false)`.
    pub fn turns(self, mirror: bool) -> u8
        ensures { result ≡ turn_count self mirror }
    {
        match (self, mirror) {
            (Grid::Square, false) => 4,
            (Grid::Square, true) => 8,
            (Grid::Hex, false) => 6,
            (Grid::Hex, true) => 12,
        }
    }

    /// The image of the point under a turn, a number below `turns(true)`. Every turn fixes (0, 0).
    ///
    /// Turn 0 is the identity, and turn 1 is a quarter or a sixth of a full turn. The rotations are the powers
    /// of turn 1. The first reflection takes (x, y) to (-x, y), or (q, r) to (r, q). Each further reflection is
    /// the first one followed by a rotation. Requires coordinates from -1,000 to 1,000, so that no sum overflows.
    pub fn turned(self, turn: u8, point: Point) -> Point
        requires known { turn < turn_count self true }
        requires near { IsNear point }
        ensures { result ≡ turned_of self turn point }
    {
        match self {
            Grid::Square => square_turned(turn, point.x, point.y),
            Grid::Hex => hex_turned(turn, point.x, point.y),
        }
    }
}

fn square_turned(turn: u8, x: i16, y: i16) -> Point
    requires known { turn < 8 }
    requires near { IsNear (record { x = x; y = y }) }
    ensures { result ≡ turned_of Square turn (record { x = x; y = y }) }
{
    match turn {
        0 => Point { x, y },
        1 => Point { x: -y, y: x },
        2 => Point { x: -x, y: -y },
        3 => Point { x: y, y: -x },
        4 => Point { x: -x, y },
        5 => Point { x: -y, y: -x },
        6 => Point { x, y: -y },
        7 => Point { x: y, y: x },
        _ => unreachable!(),
    }
}

fn hex_turned(turn: u8, q: i16, r: i16) -> Point
    requires known { turn < 12 }
    requires near { IsNear (record { x = q; y = r }) }
    ensures { result ≡ turned_of Hex turn (record { x = q; y = r }) }
{
    let sum = q + r;
    match turn {
        0 => Point { x: q, y: r },
        1 => Point { x: -r, y: sum },
        2 => Point { x: -sum, y: q },
        3 => Point { x: -q, y: -r },
        4 => Point { x: r, y: -sum },
        5 => Point { x: sum, y: -q },
        6 => Point { x: r, y: q },
        7 => Point { x: -q, y: sum },
        8 => Point { x: -sum, y: r },
        9 => Point { x: -r, y: -q },
        10 => Point { x: q, y: -sum },
        11 => Point { x: sum, y: -r },
        _ => unreachable!(),
    }
}
