//! The turns of a worker: it takes tasks, searches them and hands the results in.
ghost use Rattle.std.specs.Prelude.{◌≡◌, ◌≤◌, ◌⊎◌, IfErr, IfOk, IfSome, false};
ghost use Rattle.std.specs.Arc.{arc_value};
ghost use Rattle.poly_crew.specs.Worked.{HasRun, IsWorked};
ghost use Rattle.poly_report.specs.declared.size.TheConstants.{NODES};

use crate::gate::Gate;
use crate::last_view::{LastView, explore_job};
use crate::worker::Worker;
use poly_book::{Found, Which};
use poly_desk::Bench;
use poly_grid::Refusal;
use std::alloc::Global;
use std::sync::Wait;

/// What all workers of a crew share.
#[derive(Drop)]
pub(crate) struct Work<'a, B, G> {
    /// Where memory comes from.
    pub(crate) alloc: Global,
    /// Where tasks are taken and reports are handed in.
    pub(crate) bench: &'a B,
    /// What is told before and after each search.
    pub(crate) gate: &'a G,
    /// The most turns that a worker takes.
    pub(crate) turns: u64,
    /// The most nodes that the tree of a search may have, not counting its Rest nodes.
    pub(crate) nodes: u32,
    ghost some: { 1 ≤ nodes },
    ghost few: { nodes ≤ NODES },
}

/// Lets the worker take its turns, and records in it how it ended: `Ok` if no task was left to take, `Unfinished` if it has
/// used up its turns, or else the refusal that ended it.
pub(crate) fn run<R: Wait, B: Bench, G: Gate>(
    rt: &R,
    work: &Work<B, G>,
    number: u32,
    worker: &mut Worker<B::Pass>,
)
    ensures { HasRun B.changes B.cuts B.gave B.found_none B.refused work.now.turns worker.old worker.new }
{
    let mut last: Option<LastView> = None;
    for turn in 0..work.turns {
        match take_turn(rt, work, number, turn, &mut last, worker) {
            Ok(true) => {}
            Ok(false) => {
                worker.end = Ok(());
                return;
            }
            Err(refusal) => {
                worker.end = Err(refusal);
                return;
            }
        }
    }
    worker.end = Err(Refusal::Unfinished);
}

// One turn: takes a task, searches it and hands the result in. Returns `false` if no task is left to take. If the hinted task
// isn't pending, the turn does nothing and returns `true`.
fn take_turn<R: Wait, B: Bench, G: Gate>(
    rt: &R,
    work: &Work<B, G>,
    number: u32,
    turn: u64,
    last: &mut Option<LastView>,
    worker: &mut Worker<B::Pass>,
) -> Result<bool, Refusal>
    requires last { IfSome last.old (λ s. B.is_view_at s.edition s.view) }
    ensures last { IfSome last.new (λ s. B.is_view_at s.edition s.view) }
    ensures worked { IsWorked B.changes B.cuts B.gave 1 worker.old worker.new }
    ensures none { IfOk result (λ more. more ≡ false → B.found_none worker.new.pass) }
    ensures why { IfErr result (λ e. (e ≡ Refusal.Memory) ⊎ B.refused worker.new.pass e) }
{
    let which = worker.hints.next();
    let Some(job) = work.bench.take(rt, &mut worker.pass, which)? else {
        return match which {
            Which::Any => Ok(false),
            Which::Task(_) => Ok(true),
        };
    };
    work.gate.enter(number, turn);
    let found = explore_job::<B>(work.alloc, last, job, work.nodes);
    work.gate.leave(number, turn);
    hand_in(rt, work.bench, worker, found?)?;
    Ok(true)
}

// Hands in what was found, keeps the receipt, and pushes hints of the tasks that the report opened. If the task has ended in
// the meantime, drops what was found.
fn hand_in<R: Wait, B: Bench>(
    rt: &R,
    bench: &B,
    worker: &mut Worker<B::Pass>,
    found: Found,
) -> Result<(), Refusal>
    requires searched { B.is_view_at found.report.edition (arc_value found.view) }
    ensures worked { IsWorked B.changes B.cuts B.gave 1 worker.old worker.new }
    ensures why { IfErr result (λ e. (e ≡ Refusal.Memory) ⊎ B.refused worker.new.pass e) }
{
    worker.receipts.reserve(1)?;
    match bench.hand_in_found(rt, &mut worker.pass, found) {
        Ok((applied, receipt)) => {
            worker.receipts.push_reserved(receipt);
            *worker.applied += 1;
            worker.hints.push_opened(applied);
            Ok(())
        }
        Err(Refusal::Gone) => Ok(()),
        Err(refusal) => Err(refusal),
    }
}
