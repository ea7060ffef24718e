//! What a frame reads at its current node. The steps are a separate value, because taking a step changes them but only reads
//! the node.
ghost use Rattle.std.specs.Prelude.{◌≡◌};
ghost use Rattle.poly_frame.specs.Matrices.{matrix_of};

use crate::frame::matrix::{Columns, Matrix};
use crate::frame::table::Table;
use poly_atom::Atom;
use poly_tiling::View;

/// A node of a search, without its steps.
#[derive(Drop)]
pub(crate) struct Node<'a> {
    /// The view that is searched.
    pub(crate) view: &'a View,
    /// The atoms on the trail: the given ones, then one for each step.
    pub(crate) trail: &'a [Atom],
    /// How many atoms were given.
    pub(crate) given: usize,
    /// How many atoms were on the trail when the layer that the frame reads was made.
    pub(crate) base: usize,
    /// The matrix of that layer.
    pub(crate) matrix: &'a Matrix,
    /// What the design and the first `base` atoms say about the items.
    pub(crate) table: &'a Table,
    /// A bit for each number, set if its placement is not dead at the given atoms; or empty if that is not kept.
    pub(crate) alive: &'a [u64],
}

/// Where a frame stands: what its node reads besides the atoms.
#[derive(Drop)]
pub(crate) struct Stand<'a> {
    /// The view that is searched.
    pub(crate) view: &'a View,
    /// How many atoms were given.
    pub(crate) given: usize,
    /// How many atoms were on the trail when the frame began to read this matrix.
    pub(crate) base: usize,
    /// The matrix that the frame reads.
    pub(crate) columns: Columns<'a>,
    /// What stays the same while the frame moves on this matrix.
    pub(crate) table: Table,
    /// A bit for each number, set if its placement is not dead at the given atoms; or empty if that is not kept.
    pub(crate) alive: Vec<u64>,
}

impl<'a> Stand<'a> {
    /// The node with these atoms on the trail.
    pub(crate) fn node<'b>(&'b self, trail: &'b [Atom]) -> Node<'b>
        ensures view { result.view.now ≡ self.now.view.now }
        ensures trail { result.trail.now ≡ trail.now }
        ensures given { result.given ≡ self.now.given }
        ensures base { result.base ≡ self.now.base }
        ensures matrix { result.matrix.now ≡ matrix_of self.now.columns }
        ensures table { result.table.now ≡ self.now.table }
        ensures alive { result.alive.now ≡ self.now.alive.items }
    {
        Node {
            view: self.view,
            trail,
            given: self.given,
            base: self.base,
            matrix: self.columns.matrix(),
            table: &self.table,
            alive: &self.alive,
        }
    }
}
