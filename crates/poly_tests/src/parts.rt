//! Copies of a design, and of a change, whose pin is no placement.

use crate::designs::{change_of, edited};

// A row of three cells and one above its left end, and a piece that fits on them only if it is turned over.
const TURNED: &[u8] =
    b"{\"format\":1,\"grid\":\"square\",\"board\":[\"#..\",\"###\"],\"pieces\":[{\"name\":\"A\",\"cells\":[[0,0],[0,1],[0,2],[1,2]],\"mirror\":false}]}";

// The last change takes the piece's pin out of its placements.
#[test]
fn a_pin_that_is_no_placement_is_copied(rt: HostRuntime) {
    let lines: [&[u8]; 2] = [b"mirror A on", b"pin A 0,0 0,1 1,1 2,1"];
    let mut design = edited(&rt, TURNED, &lines);
    let change = change_of(rt.alloc(), &design, b"mirror A off").expect(&rt, "a change");
    assert!(rt; change.copy().expect(&rt, "memory").is_same(&change));
    design.make(&change).expect(&rt, "memory");
    assert!(rt; design.copy().expect(&rt, "memory").is_same(&design));
}
