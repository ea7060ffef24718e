//! The turns of a point on both grids.

use poly_grid::{Grid, Point};

#[test]
fn squares_have_eight_turns(rt: HostRuntime) {
    let expected = [
        (2, 1),
        (-1, 2),
        (-2, -1),
        (1, -2),
        (-2, 1),
        (-1, -2),
        (2, -1),
        (1, 2),
    ];
    assert_eq!(rt; Grid::Square.turns(false), 4);
    assert_eq!(rt; Grid::Square.turns(true), 8);
    for turn in 0..8u8 {
        let (x, y) = expected[usize::from(turn)];
        assert_eq!(rt;
            Grid::Square.turned(turn, Point { x: 2, y: 1 }),
            Point { x, y }
        );
    }
}

#[test]
fn hexagons_have_twelve_turns(rt: HostRuntime) {
    let expected = [
        (2, 1),
        (-1, 3),
        (-3, 2),
        (-2, -1),
        (1, -3),
        (3, -2),
        (1, 2),
        (-2, 3),
        (-3, 1),
        (-1, -2),
        (2, -3),
        (3, -1),
    ];
    assert_eq!(rt; Grid::Hex.turns(false), 6);
    assert_eq!(rt; Grid::Hex.turns(true), 12);
    for turn in 0..12u8 {
        let (x, y) = expected[usize::from(turn)];
        assert_eq!(rt;
            Grid::Hex.turned(turn, Point { x: 2, y: 1 }),
            Point { x, y }
        );
    }
}
