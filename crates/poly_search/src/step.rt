//! The worker's step.
//!
//! Large values are dropped by name at the end of a function: the proof is shorter than with a drop of each of their parts.
ghost use Rattle.std.specs.Prelude.{◌≡◌, ◌≤◌, ◌++◌, map, true, false, length, IfOk, IfErr, IfSome, OnOk};
ghost use Rattle.poly_tiling.specs.Lists.{distinct};
ghost use Rattle.poly_frame.specs.FrameTable.{HasOpen};
ghost use Rattle.poly_frame.specs.Matrices.{IsMatrix, IsWhole};
ghost use Rattle.poly_report.specs.Holds.{holds};
ghost use Rattle.poly_report.specs.Leaves.{rests, tilings};
ghost use Rattle.poly_report.specs.Opened.{opened};
ghost use Rattle.poly_report.specs.Shapes.{plan_of};
ghost use Rattle.poly_report.specs.Sizes.{all_fewer, fits, inner, is_rest};
ghost use Rattle.poly_report.specs.Trees.{Plan};
ghost use Rattle.poly_search.specs.Searches.{IsExplored};

use crate::growth::{Growth, grow};
use poly_atom::Atom;
use poly_grid::Refusal;
use poly_report::{DEPTH, Frame, Gathered, Leaves, Matrix, NODES, Room, Tree};
use poly_tiling::View;
use std::alloc::Global;

/// A tree that was grown for a task, and its leaves.
#[derive(Drop)]
pub struct Explored {
    /// The tree, as `explore` returns it.
    pub tree: Tree,
    /// The leaves of the tree, as `poly_report::leaves` returns them.
    pub leaves: Leaves,
}

/// Grows a tree as `explore` does, and gathers the tree's leaves on the way: the same tilings and rests as
/// `poly_report::leaves` finds in the tree, in the same order. Each placement is open at the node of the tree that takes it or
/// leaves it out. `nodes` is from 1 to 4,096. The only refusal is `Memory`.
pub fn explore_with_leaves(
    alloc: Global,
    view: &View,
    atoms: &[Atom],
    nodes: u32,
) -> Result<Explored, Refusal>
    requires some { 1 ≤ nodes }
    requires few { nodes ≤ NODES }
    ensures fits { IfOk result (λ e. fits (plan_of e.tree) ≡ true) }
    ensures holds { IfOk result (λ e. holds view.now atoms.now (plan_of e.tree) ≡ true) }
    ensures opened { IfOk result (λ e. opened view.now atoms.now (plan_of e.tree) ≡ true) }
    ensures inner { IfOk result (λ e. inner (plan_of e.tree) ≤ nodes) }
    ensures root { IfOk result (λ e. is_rest (plan_of e.tree) ≡ false) }
    ensures smaller { IfOk result (λ e. all_fewer view.now atoms.now (rests view.now atoms.now (plan_of e.tree)) ≡ true) }
    ensures tilings { IfOk result (λ e. e.leaves.tilings.items ≡ tilings view.now atoms.now (plan_of e.tree)) }
    ensures rests { IfOk result (λ e. e.leaves.rests ≡ rests view.now atoms.now (plan_of e.tree)) }
    ensures why { IfErr result (λ e. e ≡ Refusal.Memory) }
{
    let whole = Matrix::new(alloc, view)?;
    let explored = explore_over(alloc, view, &whole, atoms, nodes);
    drop(whole);
    explored
}

/// Does what `explore_with_leaves` does, but takes the view's matrix, so that many tasks can be searched with one matrix.
/// Requires that `whole` is the view's matrix, from [`Matrix::new`]. The only refusal is `Memory`.
pub fn explore_over(
    alloc: Global,
    view: &View,
    whole: &Matrix,
    atoms: &[Atom],
    nodes: u32,
) -> Result<Explored, Refusal>
    requires whole { IsWhole view.now whole.now }
    requires some { 1 ≤ nodes }
    requires few { nodes ≤ NODES }
    ensures fits { IfOk result (λ e. fits (plan_of e.tree) ≡ true) }
    ensures holds { IfOk result (λ e. holds view.now atoms.now (plan_of e.tree) ≡ true) }
    ensures opened { IfOk result (λ e. opened view.now atoms.now (plan_of e.tree) ≡ true) }
    ensures inner { IfOk result (λ e. inner (plan_of e.tree) ≤ nodes) }
    ensures root { IfOk result (λ e. is_rest (plan_of e.tree) ≡ false) }
    ensures smaller { IfOk result (λ e. all_fewer view.now atoms.now (rests view.now atoms.now (plan_of e.tree)) ≡ true) }
    ensures tilings { IfOk result (λ e. e.leaves.tilings.items ≡ tilings view.now atoms.now (plan_of e.tree)) }
    ensures rests { IfOk result (λ e. e.leaves.rests ≡ rests view.now atoms.now (plan_of e.tree)) }
    ensures why { IfErr result (λ e. e ≡ Refusal.Memory) }
{
    let mut room = Room::new(alloc);
    let explored = explore_tree(alloc, view, whole, atoms, nodes, &mut room);
    drop(room);
    explored
}

// The tree that `explore_over` grows, and its leaves. The search uses the memory of `room`, and leaves it there.
fn explore_tree(
    alloc: Global,
    view: &View,
    whole: &Matrix,
    atoms: &[Atom],
    nodes: u32,
    room: &mut Room,
) -> Result<Explored, Refusal>
    requires whole { IsWhole view.now whole.now }
    requires some { 1 ≤ nodes }
    requires few { nodes ≤ NODES }
    ensures tree { IfOk result (λ e. IsExplored view.now atoms.now nodes (plan_of e.tree) e.leaves.tilings.items e.leaves.rests) }
    ensures why { IfErr result (λ e. e ≡ Refusal.Memory) }
{
    let (explored, own) = explore_within(alloc, view, whole, whole, atoms, nodes, true, room)?;
    drop(own);
    Ok(explored)
}

/// The leaves that `explore_over` gathers, without the tree, which takes less time. Begins with `part`, which takes less time the
/// fewer columns `part` has. Requires that `part` is a matrix of the view with a column for each placement that is open at the
/// atoms. Also returns the matrix that the search made for the atoms, if it made one. That matrix can be the `part` of each task
/// whose atoms go on from these. The search uses the memory of `room`, and leaves it there for the next one. The only refusal is
/// `Memory`.
pub fn leaves_within(
    alloc: Global,
    view: &View,
    whole: &Matrix,
    part: &Matrix,
    atoms: &[Atom],
    nodes: u32,
    room: &mut Room,
) -> Result<(Leaves, Option<Matrix>), Refusal>
    requires whole { IsWhole view.now whole.now }
    requires part { IsMatrix view.now part.now }
    requires all { HasOpen view.now atoms.now part.now }
    requires some { 1 ≤ nodes }
    requires few { nodes ≤ NODES }
    ensures tree { IfOk result (λ r. (t : Plan) × IsExplored view.now atoms.now nodes t r.0.tilings.items r.0.rests) }
    ensures own { IfOk result (λ r. IfSome r.1 (λ m. IsMatrix view.now m × HasOpen view.now atoms.now m)) }
    ensures why { IfErr result (λ e. e ≡ Refusal.Memory) }
{
    let (explored, own) = explore_within(alloc, view, whole, part, atoms, nodes, false, room)?;
    let Explored { leaves, tree } = explored;
    drop(tree);
    Ok((leaves, own))
}

// Searches the atoms, and keeps the tree if `keep` is set. If not, the tree that is returned says nothing. The frame uses the
// memory of `room`, and leaves it there.
fn explore_within(
    alloc: Global,
    view: &View,
    whole: &Matrix,
    part: &Matrix,
    atoms: &[Atom],
    nodes: u32,
    keep: bool,
    room: &mut Room,
) -> Result<(Explored, Option<Matrix>), Refusal>
    requires whole { IsWhole view.now whole.now }
    requires part { IsMatrix view.now part.now }
    requires all { HasOpen view.now atoms.now part.now }
    requires some { 1 ≤ nodes }
    requires few { nodes ≤ NODES }
    ensures tree { IfOk result (λ r. (t : Plan) × (keep ≡ true → plan_of r.0.tree ≡ t) × IsExplored view.now atoms.now nodes t r.0.leaves.tilings.items r.0.leaves.rests) }
    ensures own { IfOk result (λ r. IfSome r.1 (λ m. IsMatrix view.now m × HasOpen view.now atoms.now m)) }
    ensures why { IfErr result (λ e. e ≡ Refusal.Memory) }
{
    let taken = room.take(alloc);
    let mut frame = Frame::within(alloc, view, whole, part, atoms, taken)?;
    let explored = explore_on(alloc, &mut frame, atoms, nodes, keep);
    let (own, left) = frame.into_parts(alloc);
    room.put_back(left);
    match explored {
        Ok(e) => Ok((e, own)),
        Err(e) => {
            drop(own);
            Err(e)
        }
    }
}

// Searches the atoms on a frame with these atoms and no step, and keeps the tree if `keep` is set.
fn explore_on(
    alloc: Global,
    frame: &mut Frame<'_>,
    atoms: &[Atom],
    nodes: u32,
    keep: bool,
) -> Result<Explored, Refusal>
    requires atoms { frame.old.atoms ≡ atoms.now }
    requires given { frame.old.given ≡ length atoms.now }
    requires once { distinct frame.old.scene.live ≡ true }
    requires some { 1 ≤ nodes }
    requires few { nodes ≤ NODES }
    ensures same { OnOk result (frame.new ≡ frame.old) }
    ensures tree { IfOk result (λ e. (t : Plan) × (keep ≡ true → plan_of e.tree ≡ t) × IsExplored frame.old.scene atoms.now nodes t e.leaves.tilings.items e.leaves.rests) }
    ensures why { IfErr result (λ e. e ≡ Refusal.Memory) }
{
    let mut growth = Growth {
        nodes: NODES,
        inner: nodes,
        whole: nodes,
        gathered: Gathered::new(alloc),
        spare: Vec::new(alloc),
        keep,
    };
    match grow(alloc, frame, &mut growth, 0, DEPTH, true) {
        Ok(tree) => with_leaves(alloc, atoms, tree, growth),
        Err(e) => Err(e),
    }
}

// The tree, and the leaves that were gathered when it grew for these atoms.
fn with_leaves(
    alloc: Global,
    atoms: &[Atom],
    tree: Tree,
    growth: Growth,
) -> Result<Explored, Refusal>
    ensures made { IfOk result (λ e. (e.tree ≡ tree) × (e.leaves.tilings.items ≡ growth.gathered.tilings.items) × (e.leaves.rests ≡ map (λ p. atoms.now ++ p) growth.gathered.paths)) }
    ensures why { IfErr result (λ e. e ≡ Refusal.Memory) }
{
    let Growth {
        gathered,
        spare,
        ..
    } = growth;
    drop(spare);
    match gathered.into_leaves(alloc, atoms) {
        Ok(leaves) => Ok(Explored { tree, leaves }),
        Err(e) => {
            drop(tree);
            Err(e)
        }
    }
}

/// Returns a tree that divides the family of the atoms, with at most `nodes` nodes that aren't Rest; `nodes` is from 1 to
/// 4,096.
///
/// The tree fits the limits of a report and holds for the atoms, its root isn't Rest, and each of its rests has fewer
/// open placements than the atoms have. The only refusal is `Memory`.
pub fn explore(alloc: Global, view: &View, atoms: &[Atom], nodes: u32) -> Result<Tree, Refusal>
    requires some { 1 ≤ nodes }
    requires few { nodes ≤ NODES }
    ensures fits { IfOk result (λ t. fits (plan_of t) ≡ true) }
    ensures holds { IfOk result (λ t. holds view.now atoms.now (plan_of t) ≡ true) }
    ensures inner { IfOk result (λ t. inner (plan_of t) ≤ nodes) }
    ensures root { IfOk result (λ t. is_rest (plan_of t) ≡ false) }
    ensures rests { IfOk result (λ t. all_fewer view.now atoms.now (rests view.now atoms.now (plan_of t)) ≡ true) }
    ensures why { IfErr result (λ e. e ≡ Refusal.Memory) }
{
    let Explored { tree, leaves: _ } = explore_with_leaves(alloc, view, atoms, nodes)?;
    Ok(tree)
}
