//! A report that a search made. Its tree fits, and holds for the atoms and the view that were searched, and its leaves were
//! gathered during the search. So the tree needs no check if the task has these atoms and the book has this view. And since the
//! tree names only open placements, none of its rests is hopeless unless the task is.
ghost use Rattle.std.specs.Prelude.{◌≡◌, ◌≤◌, ◌==◌, false, IfErr, IfOk, IsTrue, OnErr, Some, true};
ghost use Rattle.std.specs.Arc.{arc_value};
ghost use Rattle.std.specs.List.{position_from};
ghost use Rattle.poly_tiling.specs.Listings.{HasOverTilings};
ghost use Rattle.poly_frame.specs.Matrices.{IsWhole};
ghost use Rattle.poly_report.specs.Shapes.{plan_of};
ghost use Rattle.poly_report.specs.Sizes.{inner, is_rest};
ghost use Rattle.poly_report.specs.Trees.{Plan};
ghost use Rattle.poly_book.specs.Findings.{HasAtoms, IsFound};
ghost use Rattle.poly_book.specs.Keeps.{Keeps, state_of};
ghost use Rattle.poly_book.specs.Refused.{IsNotApplied};
ghost use Rattle.poly_book.specs.Reports.{IsApplied};
ghost use Rattle.poly_tasks.specs.Tasks.{AreHopeful};
ghost use Rattle.poly_tiling.specs.declared.lister.TheConstants.{MAX_TILINGS};
ghost use Rattle.poly_report.specs.declared.size.TheConstants.{NODES};

use crate::book::Book;
use crate::hand_in::{apply_leaves, apply_report, index_of};
use crate::parts::Parts;
use crate::step::Applied;
use crate::take::Job;
use poly_atom::{Atom, hopeless};
use poly_grid::Refusal;
use poly_report::{Leaves, Matrix, Report};
use poly_search::{Explored, explore_over};
use poly_tasks::is_made_of;
use poly_tiling::View;
use std::alloc::Global;
use std::sync::Arc;

/// A report that a search made, with what the search knows of it.
#[derive(Drop)]
pub struct Found {
    /// The report.
    pub report: Report,
    /// The atoms that were searched.
    pub atoms: Vec<Atom>,
    /// The view in which they were searched.
    pub view: Arc<View>,
    /// The leaves of the report's tree.
    pub leaves: Leaves,
    ghost right: { IsFound (arc_value view) atoms.items (plan_of report.tree) leaves.tilings.items leaves.rests },
}

impl Found {
    /// Searches the job's task in the view with at most `nodes` nodes that aren't Rest. `nodes` is from 1 to 4,096, and the
    /// matrix is that of the view. Fails only when out of memory.
    pub fn explore(
        alloc: Global,
        view: Arc<View>,
        matrix: &Matrix,
        job: Job,
        nodes: u32,
    ) -> Result<Found, Refusal>
        requires whole { IsWhole (arc_value view) matrix.now }
        requires some { 1 ≤ nodes }
        requires few { nodes ≤ NODES }
        ensures task { IfOk result (λ f. f.report.task ≡ job.task) }
        ensures edition { IfOk result (λ f. f.report.edition ≡ job.edition) }
        ensures atoms { IfOk result (λ f. f.atoms.items ≡ job.atoms.items) }
        ensures view { IfOk result (λ f. arc_value f.view ≡ arc_value view) }
        ensures nodes { IfOk result (λ f. inner (plan_of f.report.tree) ≤ nodes) }
        ensures root { IfOk result (λ f. is_rest (plan_of f.report.tree) ≡ false) }
        ensures why { IfErr result (λ e. e ≡ Refusal.Memory) }
    {
        let Job {
            task,
            edition,
            atoms,
            view: _,
        } = job;
        let Explored { tree, leaves } = explore_over(alloc, &view, matrix, &atoms, nodes)?;
        Ok(Found {
            report: Report {
                task,
                edition,
                tree,
            },
            atoms,
            view,
            leaves,
        })
    }
}

/// What is left of a found report after it was applied. It is handed back so that a caller that holds a lock can free its
/// memory after unlocking.
#[derive(Drop)]
pub struct Remains {
    /// The report.
    pub report: Report,
    /// The atoms that were searched.
    pub atoms: Vec<Atom>,
    /// The view in which they were searched.
    pub view: Arc<View>,
}

impl Book {
    /// `hand_in` for a report that a search made in the book's view. If the task has the atoms that were searched, the leaves
    /// are applied without a check. If it has other atoms, as after a change and its undo, the tree is checked. The result is
    /// that of `hand_in`, with what is left of the report.
    pub fn hand_in_found(&mut self, found: Found) -> Result<(Applied, Remains), Refusal>
        requires view { arc_value found.view ≡ self.old.view }
        ensures ok { IfOk result (λ r. IsApplied found.report.task found.report.edition (plan_of found.report.tree) self.old self.new r.0) }
        ensures report { IfOk result (λ r. r.1.report ≡ found.report) }
        ensures atoms { IfOk result (λ r. r.1.atoms.items ≡ found.atoms.items) }
        ensures left { IfOk result (λ r. arc_value r.1.view ≡ arc_value found.view) }
        ensures err { OnErr result (self.new ≡ self.old) }
        ensures why { IfErr result (λ e. IsNotApplied found.report.task (plan_of found.report.tree) self.old e) }
        ensures full { IfErr result (λ e. e ≡ Refusal.CatalogueFull → HasOverTilings MAX_TILINGS self.old.design) }
    {
        let Found {
            report,
            atoms,
            view,
            leaves,
        } = found;
        let applied = apply_found(&mut self.parts, &report, &atoms, leaves)?;
        Ok((
            applied,
            Remains {
                report,
                atoms,
                view,
            },
        ))
    }

    /// `hand_in_found` for a report that a search made in any view. The tree is checked.
    pub fn hand_in_checked(&mut self, found: Found) -> Result<(Applied, Remains), Refusal>
        ensures ok { IfOk result (λ r. IsApplied found.report.task found.report.edition (plan_of found.report.tree) self.old self.new r.0) }
        ensures report { IfOk result (λ r. r.1.report ≡ found.report) }
        ensures atoms { IfOk result (λ r. r.1.atoms.items ≡ found.atoms.items) }
        ensures left { IfOk result (λ r. arc_value r.1.view ≡ arc_value found.view) }
        ensures err { OnErr result (self.new ≡ self.old) }
        ensures why { IfErr result (λ e. IsNotApplied found.report.task (plan_of found.report.tree) self.old e) }
        ensures full { IfErr result (λ e. e ≡ Refusal.CatalogueFull → HasOverTilings MAX_TILINGS self.old.design) }
    {
        let Found {
            report,
            atoms,
            view,
            leaves,
        } = found;
        drop(leaves);
        let applied = apply_report(&mut self.parts, &report)?;
        Ok((
            applied,
            Remains {
                report,
                atoms,
                view,
            },
        ))
    }
}

// Applies the report of a search of these atoms, without a check if the task has them. The leaves are those of its tree.
fn apply_found(
    parts: &mut Parts,
    report: &Report,
    atoms: &[Atom],
    leaves: Leaves,
) -> Result<Applied, Refusal>
    requires keeps { Keeps parts.old }
    requires found { IsFound parts.old.scene atoms.now (plan_of report.now.tree) leaves.tilings.items leaves.rests }
    ensures keeps { Keeps parts.new }
    ensures ok { IfOk result (λ a. IsApplied report.now.task report.now.edition (plan_of report.now.tree) (state_of parts.old) (state_of parts.new) a) }
    ensures err { OnErr result (state_of parts.new ≡ state_of parts.old) }
    ensures why { IfErr result (λ e. IsNotApplied report.now.task (plan_of report.now.tree) (state_of parts.old) e) }
{
    let Some(at) = index_of(&parts.tasks, report.task) else {
        drop(leaves);
        return Err(Refusal::Gone);
    };
    if has_atoms(parts, at, report.task, atoms) {
        let sure = is_hopeful(parts.scene.view(), atoms, &leaves);
        return apply_leaves(parts, at, report.edition, leaves, sure);
    }
    drop(leaves);
    apply_report(parts, report)
}

// If this is true, no rest is hopeless. The leaves are those of a search of the atoms, whose rests are hopeless only if the atoms
// are. So the atoms are asked about only if there are rests.
fn is_hopeful(view: &View, atoms: &[Atom], leaves: &Leaves) -> bool
    requires { (tree : Plan) × IsFound view.now atoms.now tree leaves.now.tilings.items leaves.now.rests }
    ensures { result ≡ true → AreHopeful view.now leaves.now.rests }
{
    leaves.rests.is_empty() || !hopeless(view, atoms)
}

// If this is true, the task with this number has exactly these atoms. `at` is its index among the pending tasks.
fn has_atoms(parts: &Parts, at: usize, number: u32, atoms: &[Atom]) -> bool
    requires keeps { Keeps parts.now }
    requires index { position_from (λ q. q.number == number) 0 parts.now.tasks.items ≡ Some at }
    ensures same { IsTrue result → HasAtoms (state_of parts.now).pending number atoms.now }
{
    is_made_of(&parts.log, &parts.tasks[at], atoms)
}
