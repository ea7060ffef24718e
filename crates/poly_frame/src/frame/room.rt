//! The memory of frames that are gone, which later frames use again.

ghost use Rattle.std.specs.Prelude.{IfErr, IfOk, IfSome, [], length, vec_capacity, ◌≡◌, ◌≤◌};
ghost use Rattle.poly_atom.specs.Hopeless.{base};
ghost use Rattle.poly_frame.specs.declared.frame.TheConstants.{STEPS};
ghost use Rattle.poly_frame.specs.declared.frame.matrix.Matrix.{Matrix as MatrixOf};
ghost use Rattle.poly_frame.specs.FrameConsistent.{ConsistentShows};
ghost use Rattle.poly_frame.specs.FrameTable.{HasOpen, HaveShows, TableShows};
ghost use Rattle.poly_frame.specs.Frames.{IsKept};
ghost use Rattle.poly_frame.specs.Matrices.{IsMatrix, RowOf};
ghost use Rattle.poly_frame.specs.Open.{open_in};

use crate::frame::levels::{Counted, Spare, counted_of};
use crate::frame::lists::{Lists, begin_lists};
use crate::frame::matrix::Matrix;
use poly_atom::Atom;
use poly_grid::Refusal;
use poly_tiling::View;
use std::alloc::Global;
use std::mem;

/// Memory that frames use one after another, so that a new frame need not ask for its own. A frame answers the same with any
/// room.
#[derive(Drop)]
pub struct Room {
    /// The lists of a frame. Only their room is used.
    pub(crate) lists: Lists,
    /// What a frame kept besides its lists. Only its room is used.
    pub(crate) spare: Spare,
}

impl Room {
    /// Room without memory.
    pub fn new(alloc: Global) -> Room {
        Room {
            lists: Lists {
                trail: Vec::new(alloc),
                members: Vec::new(alloc),
                sizes: Vec::new(alloc),
                options: Vec::new(alloc),
            },
            spare: Spare {
                live: Vec::new(alloc),
                raised: Vec::new(alloc),
                marks: Vec::new(alloc),
                matrix: Matrix::none(alloc),
            },
        }
    }

    /// Takes the memory out, for a frame.
    pub fn take(&mut self, alloc: Global) -> Room {
        mem::replace(self, Room::new(alloc))
    }

    /// Puts memory back that was taken out.
    pub fn put_back(&mut self, room: Room) {
        *self = room;
    }

    /// Lets the next frame use the memory of the matrix.
    pub fn reuse(&mut self, matrix: Matrix) {
        self.spare.matrix = matrix;
    }
}

/// Makes the room's lists those of a frame at the atoms, and its row that of the columns of `part` that are open there. Returns
/// what is counted there. `whole` is a matrix that has columns for the members of the base, too, or `None` if that is `part`.
pub(crate) fn prepare(
    alloc: Global,
    view: &View,
    part: &Matrix,
    whole: Option<&Matrix>,
    atoms: &[Atom],
    room: &mut Room,
) -> Result<Counted, Refusal>
    requires part { IsMatrix view.now part.now }
    requires whole { IfSome whole (λ m. IsMatrix view.now m.now) }
    ensures kept { IfOk result (λ _. IsKept view.now room.new.lists.trail (length atoms.now) room.new.lists.members room.new.lists.options) }
    ensures trail { IfOk result (λ _. room.new.lists.trail.items ≡ atoms.now) }
    ensures sizes { IfOk result (λ _. room.new.lists.sizes.items ≡ []) }
    ensures changes { IfOk result (λ _. STEPS ≤ vec_capacity room.new.lists.sizes) }
    ensures len { IfOk result (λ _. length room.new.spare.live.items ≡ part.now.width) }
    ensures row { IfOk result (λ _. RowOf (λ p. open_in view.now atoms.now p) part.now room.new.spare.live.items) }
    ensures consistent { IfOk result (λ c. ConsistentShows view.now atoms.now (length atoms.now) c.consistent) }
    ensures have_len { IfOk result (λ c. length c.have.items ≡ length view.now.bounds) }
    ensures have { IfOk result (λ c. HaveShows view.now (base view.now atoms.now) c.have.items) }
    ensures table { IfOk result (λ c. (m : MatrixOf) → IsMatrix view.now m → HasOpen view.now atoms.now m → TableShows view.now atoms.now m c.table) }
    ensures why { IfErr result (λ e. e ≡ Refusal.Memory) }
{
    begin_lists(view, atoms, &mut room.lists)?;
    let counted = counted_of(
        alloc,
        view,
        part,
        whole,
        atoms,
        &room.lists.members,
        &mut room.spare.live,
        &mut room.spare.raised,
    )?;
    Ok(counted)
}
