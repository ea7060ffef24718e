//! The text of items, placements, atoms and tilings.

use crate::reply::Reply;
use poly_atom::Atom;
use poly_design::Placement;
use poly_grid::Cell;
use poly_tiling::{Item, Tiling, View};

impl Reply {
    /// Appends `X,Y`.
    pub fn cell(&mut self, cell: Cell) {
        self.number(u64::from(cell.x()));
        self.field(",", u64::from(cell.y()));
    }

    /// Appends `X,Y` or the name of a piece.
    pub fn item(&mut self, item: &Item) {
        match item {
            Item::Cell(cell) => self.cell(*cell),
            Item::Piece(name) => self.bytes(name.as_bytes()),
        }
    }

    /// Appends `NAME=X,Y/X,Y/..`.
    pub fn placement(&mut self, placement: &Placement) {
        self.bytes(placement.name.as_bytes());
        let mut sign = "=";
        for cell in placement.cells.as_slice() {
            self.text(sign);
            self.cell(*cell);
            sign = "/";
        }
    }

    /// Appends the placement that the number names, or the number if it names none.
    pub fn numbered(&mut self, view: &View, number: u32) {
        match view.placement(number) {
            Some(placement) => self.placement(&placement),
            None => self.number(u64::from(number)),
        }
    }

    /// Appends the atom.
    pub fn atom(&mut self, view: &View, atom: &Atom) {
        match atom {
            Atom::Has(number) => {
                self.text(" has ");
                self.numbered(view, *number);
            }
            Atom::Lacks(number) => {
                self.text(" lacks ");
                self.numbered(view, *number);
            }
            Atom::AtLeast(item, count) => self.bound(" least ", item, *count),
            Atom::AtMost(item, count) => self.bound(" most ", item, *count),
        }
    }

    fn bound(&mut self, text: &str, item: &Item, count: u8) {
        self.text(text);
        self.item(item);
        self.field(" ", u64::from(count));
    }

    /// Appends the atoms.
    pub fn atoms(&mut self, view: &View, atoms: &[Atom]) {
        for atom in atoms {
            self.atom(view, atom);
        }
    }

    /// Appends the placements, or a dash if there are none.
    pub fn each_placement(&mut self, placements: &[Placement]) {
        if placements.is_empty() {
            self.text(" -");
        }
        for placement in placements {
            self.text(" ");
            self.placement(placement);
        }
    }

    /// Appends the placements of the numbers, or a dash if there are none.
    pub fn placements(&mut self, view: &View, numbers: &[u32]) {
        if numbers.is_empty() {
            self.text(" -");
        }
        for number in numbers {
            self.text(" ");
            self.numbered(view, *number);
        }
    }
}

/// Appends a line for each tiling.
pub fn put_tilings(reply: &mut Reply, view: &View, tilings: &[Tiling]) {
    for tiling in tilings {
        reply.text("tiling");
        reply.placements(view, tiling.numbers());
        reply.end();
    }
}
