//! Pieces.
ghost use Rattle.std.specs.Prelude.{◌≡◌, IfOk, IfErr};

use crate::cells_set::CellsSet;
use crate::copies::Copies;
use poly_grid::Refusal;
use poly_shape::{Cells, Shape};

/// A piece, apart from its name.
#[derive(Drop)]
pub struct Spec {
    /// The shape, in one of its orientations.
    pub shape: Shape,
    /// How many copies a tiling uses.
    pub copies: Copies,
    /// Whether the piece may be turned over.
    pub mirror: bool,
    /// The cells that a copy has to lie on, if any.
    pub pin: Option<Cells>,
    /// The forbidden sets of cells: no copy may cover exactly the cells of one of them.
    pub forbidden: CellsSet,
}

impl Spec {
    /// An equal piece. Fails only when out of memory.
    pub fn copy(&self) -> Result<Spec, Refusal>
        ensures ok { IfOk result (λ spec. spec ≡ self.now) }
        ensures why { IfErr result (λ e. e ≡ Refusal.Memory) }
    {
        Ok(Spec {
            shape: self.shape,
            copies: self.copies,
            mirror: self.mirror,
            pin: self.pin,
            forbidden: self.forbidden.copy()?,
        })
    }
}

pub(crate) fn copy_of(spec: &Option<Spec>) -> Result<Option<Spec>, Refusal>
    ensures ok { IfOk result (λ copy. copy ≡ spec.now) }
    ensures why { IfErr result (λ e. e ≡ Refusal.Memory) }
{
    match spec {
        Some(spec) => Ok(Some(spec.copy()?)),
        None => Ok(None),
    }
}
