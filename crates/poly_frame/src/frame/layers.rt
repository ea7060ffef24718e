//! The layers of a frame. A layer is a cover matrix with what the frame keeps of it: the frame reads the last layer, which has
//! a column for each placement that was open when the layer was made. Going back past that point drops the layer.
ghost use Rattle.std.specs.Prelude.{IfErr, IfOk, OnOk, length, reverse, true, ℕ, ◌<◌, ◌^◌, ◌≡◌};
ghost use Rattle.poly_tiling.specs.Lists.{mem};
ghost use Rattle.poly_atom.specs.Hopeless.{base};

use crate::frame::matrix::{Columns, Matrix};
use crate::frame::node::{Node, Stand};
use crate::frame::opened::first_row;
use crate::frame::queries;
use crate::frame::steps::{Steps, start};
use crate::frame::table::{Table, table_again};
use poly_atom::Atom;
use poly_grid::Refusal;
use poly_tiling::View;
use std::alloc::Global;
use std::mem;

/// A cover matrix, and what a frame keeps of it.
#[derive(Drop)]
pub(crate) struct Layer<'a> {
    /// The matrix.
    pub(crate) columns: Columns<'a>,
    /// What stays the same while the frame moves on this layer.
    pub(crate) table: Table,
    /// What each step changes.
    pub(crate) steps: Steps,
    /// How many atoms were on the trail when the layer was made.
    pub(crate) base: usize,
}

impl<'a> Layer<'a> {
    /// A layer without columns, which takes no memory.
    pub(crate) fn none(alloc: Global) -> Layer<'a> {
        Layer {
            columns: Columns::Own(Matrix::none(alloc)),
            table: Table::none(alloc),
            steps: Steps::none(alloc),
            base: 0,
        }
    }
}

ghost use Rattle.poly_frame.specs.FrameSteps.{HasRoom, IsAt, StepsKeep};
ghost use Rattle.poly_frame.specs.Layers.{LayerShows, PileShows};
ghost use Rattle.poly_frame.specs.FrameTable.{HaveShows, TableShows};
ghost use Rattle.poly_frame.specs.Matrices.{matrix_of};
ghost use Rattle.poly_frame.specs.Open.{open_in};

/// Drops the last layer if the frame stands where the layer was made, so that the last step can be undone. If `spare` has room,
/// the layer goes there, so that its memory can be used again.
#[tactic(auto, using(crate::proofs::Layers::pile_open))]
pub(crate) fn widen<'a>(
    stand: &mut Stand<'a>,
    trail: &[Atom],
    steps: &mut Steps,
    under: &mut Vec<Layer<'a>>,
    spare: &mut Vec<Layer<'a>>,
)
    requires levels { StepsKeep stand.old.view.now trail.now stand.old.base (matrix_of stand.old.columns) stand.old.table steps.old }
    requires room { HasRoom (matrix_of stand.old.columns) steps.old }
    requires pile { PileShows stand.old.view.now trail.now stand.old.given stand.old.base (reverse under.old.items) }
    requires some { stand.old.given < length trail.now }
    ensures stays { stand.new ≡ record stand.old { base = stand.new.base; columns = stand.new.columns; table = stand.new.table } }
    ensures levels { StepsKeep stand.new.view.now trail.now stand.new.base (matrix_of stand.new.columns) stand.new.table steps.new }
    ensures room { HasRoom (matrix_of stand.new.columns) steps.new }
    ensures pile { PileShows stand.new.view.now trail.now stand.new.given stand.new.base (reverse under.new.items) }
    ensures below { stand.new.base < length trail.now }
{
    if stand.base < trail.len() {
        return;
    }
    if let Some(below) = under.pop() {
        let dropped = exchange(stand, steps, below);
        keep(dropped, spare);
    }
}

/// Makes the frame read the layer, and returns the layer that it read.
pub(crate) fn exchange<'a>(stand: &mut Stand<'a>, steps: &mut Steps, layer: Layer<'a>) -> Layer<'a>
    ensures stand { stand.new ≡ record stand.old { base = layer.entry.base; columns = layer.entry.columns; table = layer.entry.table } }
    ensures steps { steps.new ≡ layer.entry.steps }
    ensures layer { result ≡ record { columns = stand.old.columns; table = stand.old.table; steps = steps.old; base = stand.old.base } }
{
    let Layer {
        columns,
        table,
        steps: new_steps,
        base,
    } = layer;
    Layer {
        columns: mem::replace(&mut stand.columns, columns),
        table: mem::replace(&mut stand.table, table),
        steps: mem::replace(steps, new_steps),
        base: mem::replace(&mut stand.base, base),
    }
}

// Keeps the layer, so that its memory can be used again, if the list has room.
fn keep<'a>(layer: Layer<'a>, spare: &mut Vec<Layer<'a>>) {
    if spare.len() < spare.capacity() {
        spare.push_reserved(layer);
    } else {
        drop(layer);
    }
}

/// The layer that has the open columns of the node's matrix. `members` is the base. Overwrites `spare`, a layer that was
/// dropped before.
pub(crate) fn narrow_layer<'a>(
    alloc: Global,
    node: &Node<'_>,
    steps: &Steps,
    members: &[u32],
    spare: Layer<'a>,
) -> Result<Layer<'a>, Refusal>
    requires kept { IsAt node.now steps.now }
    requires members { members.now ≡ base node.now.view.now node.now.trail.now }
    requires few { length members.now < 2 ^ 63 }
    ensures layer { IfOk result (λ l. LayerShows node.now.view.now node.now.trail.now l) }
    ensures here { IfOk result (λ l. l.base ≡ length node.now.trail.now) }
    ensures why { IfErr result (λ e. e ≡ Refusal.Memory) }
{
    let Layer {
        columns,
        mut table,
        steps: mut new_steps,
        base: _,
    } = spare;
    let old_matrix = columns.into_own().unwrap_or(Matrix::none(alloc));
    let Ok(matrix) = queries::narrowed_now(alloc, node, steps, old_matrix) else {
        drop(table);
        drop(new_steps);
        return Err(Refusal::Memory);
    };
    let later = &node.trail[node.base..];
    let Ok(_) = table_again(node.view, node.table, later, &mut table) else {
        drop(matrix);
        drop(table);
        drop(new_steps);
        return Err(Refusal::Memory);
    };
    let here = Node {
        view: node.view,
        trail: node.trail,
        given: node.given,
        base: node.trail.len(),
        matrix: &matrix,
        table: &table,
        alive: node.alive,
    };
    let Ok(_) = start_again(&here, steps, &mut new_steps) else {
        drop(matrix);
        drop(table);
        drop(new_steps);
        return Err(Refusal::Memory);
    };
    Ok(Layer {
        columns: Columns::Own(matrix),
        table,
        steps: new_steps,
        base: node.trail.len(),
    })
}

// Makes `steps` those of a layer that is made at the node: none yet. `from` are those of the layer below.
fn start_again(node: &Node<'_>, from: &Steps, steps: &mut Steps) -> Result<(), Refusal>
    requires table { TableShows node.now.view.now node.now.trail.now node.now.matrix.now node.now.table.now }
    requires open { (q : ℕ) → mem node.now.matrix.now.numbers.items q ≡ true → open_in node.now.view.now node.now.trail.now q ≡ true }
    requires have { HaveShows node.now.view.now (base node.now.view.now node.now.trail.now) from.now.have.items }
    requires len { length from.now.have.items ≡ length node.now.view.now.bounds }
    ensures kept { OnOk result (StepsKeep node.now.view.now node.now.trail.now (length node.now.trail.now) node.now.matrix.now node.now.table.now steps.new) }
    ensures room { OnOk result (HasRoom node.now.matrix.now steps.new) }
    ensures why { IfErr result (λ e. e ≡ Refusal.Memory) }
{
    first_row(
        node.matrix.numbers.len(),
        node.matrix.width,
        &mut steps.live,
    )?;
    steps.have.clear();
    steps.have.extend_from_slice(&from.have)?;
    steps.due.clear();
    steps.due.extend_from_slice(&from.due)?;
    start(node, steps)
}
