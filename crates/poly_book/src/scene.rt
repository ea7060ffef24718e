//! The design by numbers, with the cover matrices that serve to explore its tasks and to check the trees of reports.
ghost use Rattle.std.specs.Prelude.{◌≡◌, ◌≤◌, IfErr, IfOk, MatchOption, None, false, true};
ghost use Rattle.std.specs.Arc.{arc_value};
ghost use Rattle.poly_frame.specs.Matrices.{IsWhole};
ghost use Rattle.poly_report.specs.Gather.{IsCutUp};
ghost use Rattle.poly_report.specs.Holds.{holds};
ghost use Rattle.poly_report.specs.Shapes.{plan_of};
ghost use Rattle.poly_report.specs.Sizes.{fits};
ghost use Rattle.poly_report.specs.Trees.{Plan};
ghost use Rattle.poly_search.specs.Searches.{IsExplored};
ghost use Rattle.poly_book.specs.Scenes.{AreNarrowed, IsMatrixOf};
ghost use Rattle.poly_report.specs.declared.size.TheConstants.{NODES};

use crate::narrowed::{Narrowed, drop_others, keep, nearest, reuse};
use poly_atom::Atom;
use poly_grid::Refusal;
use poly_report::{Leaves, Matrix, Room, Tree, cut_up_over};
use poly_search::leaves_within;
use poly_tiling::View;
use std::alloc::Global;
use std::marker::Model;
use std::sync::Arc;

/// A design by numbers. Its matrix is made when a task first needs it, and then serves every task. A task whose atoms go on
/// from those of a task that was explored is served by that task's matrix.
#[derive(Drop)]
pub(crate) struct Scene {
    /// The design, by numbers.
    view: Arc<View>,
    /// The cover matrix of the view, once it is made.
    matrix: Option<Matrix>,
    /// The matrices of tasks that were explored and that left rests, the widest first.
    narrower: Vec<Narrowed>,
}

impl Model for Scene {
    ghost use Rattle.std.specs.Arc.{arc_value};
    ghost use Rattle.poly_tiling.specs.Puzzle.{View as ViewOf};
    ghost use Rattle.poly_book.specs.Scenes.{AreNarrowed, IsMatrixOf};

    ghost Value = { ViewOf };

    ghost view = { λ s. arc_value s.view };

    ghost invariant = { λ s. IsMatrixOf (arc_value s.view) s.matrix × AreNarrowed (arc_value s.view) s.narrower.items };
}

impl Scene {
    /// The scene of a view. No matrix is made yet.
    pub fn new(alloc: Global, view: Arc<View>) -> Scene
        ensures { result ≡ arc_value view }
    {
        Scene {
            view,
            matrix: None,
            narrower: Vec::new(alloc),
        }
    }

    /// The view.
    pub fn view(&self) -> &View
        ensures { result.now ≡ self.now }
    {
        &self.view
    }

    /// The view, to be shared.
    pub fn shared(&self) -> &Arc<View>
        ensures { arc_value result.now ≡ self.now }
    {
        &self.view
    }

    /// The leaves that `poly_search::leaves_within` gathers. The search uses the memory of `room`, and leaves it there.
    pub fn leaves(
        &mut self,
        alloc: Global,
        atoms: &[Atom],
        nodes: u32,
        room: &mut Room,
    ) -> Result<Leaves, Refusal>
        requires some { 1 ≤ nodes }
        requires few { nodes ≤ NODES }
        ensures stays { self.new ≡ self.old }
        ensures tree { IfOk result (λ l. (t : Plan) × IsExplored self.old atoms.now nodes t l.tilings.items l.rests) }
        ensures why { IfErr result (λ e. e ≡ Refusal.Memory) }
    {
        leaves_from(
            alloc,
            &self.view,
            &mut self.matrix,
            &mut self.narrower,
            atoms,
            nodes,
            room,
        )
    }

    /// What `poly_report::cut_up` answers.
    pub fn cut_up(
        &mut self,
        alloc: Global,
        atoms: &[Atom],
        tree: &Tree,
    ) -> Result<Option<Leaves>, Refusal>
        requires { fits (plan_of tree.now) ≡ true }
        ensures stays { self.new ≡ self.old }
        ensures value { IfOk result (λ o. MatchOption o (holds self.old atoms.now (plan_of tree.now) ≡ false) (λ l. IsCutUp self.old atoms.now (plan_of tree.now) l.tilings.items l.rests)) }
        ensures why { IfErr result (λ e. e ≡ Refusal.Memory) }
    {
        cut_up_from(alloc, &self.view, &mut self.matrix, atoms, tree)
    }
}

// Searches the atoms with the last of the narrower matrices that serves them, or else with the matrix in the slot, which is
// made if the slot is empty. Adds the matrix of the atoms to the list if there are rests, whose atoms go on from these.
fn leaves_from(
    alloc: Global,
    view: &View,
    slot: &mut Option<Matrix>,
    narrower: &mut Vec<Narrowed>,
    atoms: &[Atom],
    nodes: u32,
    room: &mut Room,
) -> Result<Leaves, Refusal>
    requires matrix { IsMatrixOf view.now slot.old }
    requires narrower { AreNarrowed view.now narrower.old.items }
    requires some { 1 ≤ nodes }
    requires few { nodes ≤ NODES }
    ensures matrix { IsMatrixOf view.now slot.new }
    ensures narrower { AreNarrowed view.now narrower.new.items }
    ensures tree { IfOk result (λ l. (t : Plan) × IsExplored view.now atoms.now nodes t l.tilings.items l.rests) }
    ensures why { IfErr result (λ e. e ≡ Refusal.Memory) }
{
    let whole = take_matrix(alloc, view, slot)?;
    drop_others(narrower, atoms);
    let part = nearest(&whole, narrower, atoms);
    let found = leaves_within(alloc, view, &whole, part, atoms, nodes, room);
    drop(slot.replace(whole));
    let (leaves, own) = found?;
    if leaves.rests.is_empty() {
        reuse(own, room);
        return Ok(leaves);
    }
    match keep(alloc, narrower, atoms, own) {
        Ok(()) => Ok(leaves),
        Err(refusal) => {
            drop(leaves);
            Err(refusal)
        }
    }
}

// The leaves of the tree, if it holds, and `None` if it doesn't. Uses the matrix in the slot, which is made if the slot is
// empty.
fn cut_up_from(
    alloc: Global,
    view: &View,
    slot: &mut Option<Matrix>,
    atoms: &[Atom],
    tree: &Tree,
) -> Result<Option<Leaves>, Refusal>
    requires matrix { IsMatrixOf view.now slot.old }
    requires small { fits (plan_of tree.now) ≡ true }
    ensures matrix { IsMatrixOf view.now slot.new }
    ensures value { IfOk result (λ o. MatchOption o (holds view.now atoms.now (plan_of tree.now) ≡ false) (λ l. IsCutUp view.now atoms.now (plan_of tree.now) l.tilings.items l.rests)) }
    ensures why { IfErr result (λ e. e ≡ Refusal.Memory) }
{
    let whole = take_matrix(alloc, view, slot)?;
    let cut = cut_up_over(alloc, view, &whole, atoms, tree);
    drop(slot.replace(whole));
    cut
}

// The view's matrix, taken out of its slot, or a new one if the slot is empty.
fn take_matrix(alloc: Global, view: &View, slot: &mut Option<Matrix>) -> Result<Matrix, Refusal>
    requires { IsMatrixOf view.now slot.old }
    ensures whole { IfOk result (λ m. IsWhole view.now m) }
    ensures empty { slot.new ≡ None }
    ensures why { IfErr result (λ e. e ≡ Refusal.Memory) }
{
    match slot.take() {
        Some(whole) => Ok(whole),
        None => {
            let whole = Matrix::new(alloc, view)?;
            Ok(whole)
        }
    }
}
