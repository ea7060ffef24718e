//! Applies a report: its task ends, its tilings are listed, and its rests that aren't hopeless become new tasks.
ghost use Rattle.std.specs.Prelude.{◌≡◌, ◌<◌, ◌==◌, IfErr, IfOk, None, OnErr, Some, cond, true, ℕ};
ghost use Rattle.std.specs.List.{position_from};
ghost use Rattle.std.specs.List.Sorted.{IsNonDecreasingBy};
ghost use Rattle.poly_report.specs.Shapes.{plan_of};
ghost use Rattle.poly_report.specs.Sizes.{fits};
ghost use Rattle.poly_report.specs.Trees.{Plan};
ghost use Rattle.poly_tiling.specs.Listings.{HasOverTilings};
ghost use Rattle.poly_book.specs.Keeps.{Keeps, state_of};
ghost use Rattle.poly_book.specs.Refused.{IsNotApplied, IsOver};
ghost use Rattle.poly_book.specs.Reports.{AreLeaves, IsApplied};
ghost use Rattle.poly_tasks.specs.Tasks.{AreHopeful};
ghost use Rattle.poly_tiling.specs.declared.lister.TheConstants.{MAX_TILINGS};

use crate::apply::push_tasks;
use crate::book::Book;
use crate::parts::Parts;
use crate::step::{Applied, Ending};
use poly_grid::Refusal;
use poly_report::{Leaves, Report, fits};
use poly_tasks::{Pending, all_atoms, list_of, opened};

impl Book {
    /// Applies the report: its task ends as `Cut`, the tree's tilings are listed, and the tree's rests that aren't hopeless
    /// are opened as tasks. The report's edition decides only whether the answer says that the report is late.
    ///
    /// Refused with `Gone` if the task isn't pending, with `TooLarge` if the tree doesn't fit, with `DoesNotHold` if the
    /// tree doesn't hold for the task's atoms, with `Spent` if a task number would pass its last value, with `CatalogueFull`
    /// if over 1,000,000 tilings would be listed, or with `Memory`. A refused report leaves the book as it was.
    pub fn hand_in(&mut self, report: Report) -> Result<Applied, Refusal>
        ensures ok { IfOk result (λ a. IsApplied report.task report.edition (plan_of report.tree) self.old self.new a) }
        ensures err { OnErr result (self.new ≡ self.old) }
        ensures why { IfErr result (λ e. IsNotApplied report.task (plan_of report.tree) self.old e) }
        ensures full { IfErr result (λ e. e ≡ Refusal.CatalogueFull → HasOverTilings MAX_TILINGS self.old.design) }
    {
        apply_report(&mut self.parts, &report)
    }
}

/// Checks the report, and applies the leaves of its tree.
pub(crate) fn apply_report(parts: &mut Parts, report: &Report) -> Result<Applied, Refusal>
    requires keeps { Keeps parts.old }
    ensures keeps { Keeps parts.new }
    ensures ok { IfOk result (λ a. IsApplied report.now.task report.now.edition (plan_of report.now.tree) (state_of parts.old) (state_of parts.new) a) }
    ensures err { OnErr result (state_of parts.new ≡ state_of parts.old) }
    ensures why { IfErr result (λ e. IsNotApplied report.now.task (plan_of report.now.tree) (state_of parts.old) e) }
{
    let Some(at) = index_of(&parts.tasks, report.task) else {
        return Err(Refusal::Gone);
    };
    if !fits(&report.tree) {
        return Err(Refusal::TooLarge);
    }
    let leaves = checked_leaves(parts, at, report)?;
    apply_leaves(parts, at, report.edition, leaves, false)
}

// The leaves of the report's tree, if the tree holds for the task at the index; otherwise refused with `DoesNotHold`.
fn checked_leaves(parts: &mut Parts, at: usize, report: &Report) -> Result<Leaves, Refusal>
    requires keeps { Keeps parts.old }
    requires index { position_from (λ q. q.number == report.now.task) 0 parts.old.tasks.items ≡ Some at }
    requires small { fits (plan_of report.now.tree) ≡ true }
    ensures stays { parts.new ≡ parts.old }
    ensures leaves { IfOk result (λ l. AreLeaves parts.old report.now.task at (plan_of report.now.tree) l.tilings.items l.rests) }
    ensures why { IfErr result (λ e. IsNotApplied report.now.task (plan_of report.now.tree) (state_of parts.old) e) }
{
    let atoms = all_atoms(parts.alloc, &parts.log, &parts.tasks[at])?;
    let Some(leaves) = parts.scene.cut_up(parts.alloc, &atoms, &report.tree)? else {
        return Err(Refusal::DoesNotHold);
    };
    Ok(leaves)
}

/// Ends the task at the index, lists the tilings and opens the rests that aren't hopeless. The tilings and the rests are the
/// leaves of a tree that fits and holds for the task. If `sure`, no rest is hopeless.
pub(crate) fn apply_leaves(
    parts: &mut Parts,
    at: usize,
    edition: u64,
    leaves: Leaves,
    sure: bool,
) -> Result<Applied, Refusal>
    requires keeps { Keeps parts.old }
    requires leaves { (k : ℕ) × (tree : Plan) × AreLeaves parts.old k at tree leaves.tilings.items leaves.rests }
    requires sure { sure ≡ true → AreHopeful parts.old.scene leaves.rests }
    ensures keeps { Keeps parts.new }
    ensures ok { IfOk result (λ a. (k : ℕ) (tree : Plan) → AreLeaves parts.old k at tree leaves.tilings.items leaves.rests → IsApplied k edition tree (state_of parts.old) (state_of parts.new) a) }
    ensures err { OnErr result (state_of parts.new ≡ state_of parts.old) }
    ensures why { IfErr result (λ e. (k : ℕ) (tree : Plan) → AreLeaves parts.old k at tree leaves.tilings.items leaves.rests → IsOver k tree (state_of parts.old) e) }
{
    let Leaves { tilings, rests } = leaves;
    let now = parts.log.len() as u64;
    let start = parts.next;
    let base = list_of(&parts.log, &parts.tasks[at].own);
    let fresh = opened(
        parts.alloc,
        parts.scene.view(),
        rests,
        base,
        start,
        now,
        sure,
    )?;
    let more = fresh.len();
    let found = tilings.len() as u64;
    let place = parts.endings.len() as u64 + 1;
    parts.tasks.reserve(more)?;
    parts.endings.reserve(1)?;
    parts.listed.list_all(parts.scene.view(), tilings)?;
    let task = parts.tasks.remove(at);
    push_tasks(fresh, &mut parts.tasks);
    parts
        .endings
        .push_reserved(Ending::Cut { task: task.number });
    parts.next += more as u64;
    Ok(Applied {
        place,
        listed: found,
        opened: more as u64,
        first: start,
        late: edition < now,
    })
}

/// The index of the first task with the number, if there is one, found by binary search. The numbers rise.
pub(crate) fn index_of(tasks: &[Pending], number: u32) -> Option<usize>
    requires { IsNonDecreasingBy (λ p. p.number) tasks.now }
    ensures { result ≡ position_from (λ p. p.number == number) 0 tasks.now }
{
    let index = tasks.partition_point(|task| task.number < number);
    if index < tasks.len() {
        return some_if(tasks[index].number == number, index);
    }
    None
}

fn some_if(yes: bool, index: usize) -> Option<usize>
    ensures { result ≡ cond yes (Some index) None }
{
    if yes { Some(index) } else { None }
}
