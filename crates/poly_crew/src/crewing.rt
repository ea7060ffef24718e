//! Runs a crew.
ghost use Rattle.std.specs.Prelude.{◌≡◌, ◌≤◌, ◌<◌, ◌*◌, ℕ, length, map, slice_index_or, sum_by, vec_len};
ghost use Rattle.std.specs.List.{AllZip};
ghost use Rattle.poly_crew.specs.Counts.{added};
ghost use Rattle.poly_crew.specs.Worked.{HasRun, Leaves};
ghost use Rattle.poly_report.specs.declared.size.TheConstants.{NODES};

use crate::gate::Gate;
use crate::outcome::Crew;
use crate::room::{Room, applied_by, first_refusal, room_for, seat_all, take_apart};
use crate::turns::{Work, run};
use crate::worker::Worker;
use poly_desk::Bench;
use std::alloc::Global;
use std::sync::Wait;
use std::thread;
use std::thread::Threads;

/// The most workers of a crew.
pub const MOST_WORKERS: usize = 16;

/// The most turns that each worker of a crew may take.
pub const MOST_TURNS: u64 = 1_000_000_000;

/// How many threads of a crew share a processor at most. With one thread for each, a processor would be idle while its thread
/// waits for a lock. With many, a thread that is set aside with the lock in its hands makes all others wait.
const SHARING: usize = 2;

/// Runs a worker for each pass. Each has a thread of its own, unless there are more workers than processors: then there are at
/// most two threads for each processor, and each runs one or more workers, one after another. A worker takes tasks of the bench,
/// searches them and hands the results in, until no task is left to take, it has used up its `turns` turns, or a refusal ends
/// it. A turn whose hint names a task that has ended, or whose report is refused with `Gone`, counts but doesn't end the worker.
/// If memory for the workers runs out before they begin, none of them runs, and there are no lists of receipts. Otherwise there
/// is a list for each pass.
///
/// The crew ends with `Ok` only if the bench answered each worker that no task is pending, and otherwise as the first worker,
/// in the order of the passes, that ended in another way.
///
/// A worker first tries the tasks that its own reports opened, as a rule those of the latest report before others; then a task
/// that another worker's report opened; then any task. Each tree has at most `nodes` nodes that aren't Rest.
///
/// Requires 1 to [`MOST_WORKERS`] passes, at most [`MOST_TURNS`] turns, and `nodes` from 1 to 4,096.
pub fn crew<R: Threads + Wait + Sync, B: Bench + Sync, G: Gate + Sync>(
    rt: &R,
    alloc: Global,
    bench: &B,
    passes: Vec<B::Pass>,
    turns: u64,
    nodes: u32,
    gate: &G,
) -> Crew<B::Pass>
where
    B::Pass: Send,
    requires some_passes { 1 ≤ length passes.items }
    requires few_passes { length passes.items ≤ MOST_WORKERS }
    requires few_turns { turns ≤ MOST_TURNS }
    requires some_nodes { 1 ≤ nodes }
    requires few_nodes { nodes ≤ NODES }
    ensures changes { map B.changes result.passes.items ≡ map B.changes passes.items }
    ensures cuts { map B.cuts result.passes.items ≡ added (map B.cuts passes.items) (map (λ rs. vec_len rs) result.receipts.items) }
    ensures applied { result.applied ≡ sum_by (λ rs. vec_len rs) result.receipts.items }
    ensures few { result.applied ≤ length passes.items * turns }
    ensures leaves { Leaves B.gave B.found_none B.refused passes.items result.passes.items result.receipts.items result.end }
{
    let room = match room_for(alloc, passes.len()) {
        Ok(room) => room,
        Err(refusal) => {
            return Crew {
                passes,
                receipts: Vec::new(alloc),
                applied: 0,
                end: Err(refusal),
            };
        }
    };
    let Room {
        hints,
        mut workers,
        passes: mut back,
        mut receipts,
    } = room;
    seat_all(alloc, passes, hints, &mut workers);
    let work = Work {
        alloc,
        bench,
        gate,
        turns,
        nodes,
    };
    run_all(rt, &work, &mut workers);
    let applied = applied_by(&workers);
    let end = first_refusal(&workers);
    take_apart(workers, &mut back, &mut receipts);
    Crew {
        passes: back,
        receipts,
        applied,
        end,
    }
}

// Runs each worker, in as many threads as `thread_count` says.
fn run_all<R: Threads + Wait + Sync, B: Bench + Sync, G: Gate + Sync>(
    rt: &R,
    work: &Work<B, G>,
    workers: &mut Vec<Worker<B::Pass>>,
)
where
    B::Pass: Send,
    requires some { 1 ≤ length workers.old.items }
    requires few { length workers.old.items ≤ MOST_WORKERS }
    ensures { AllZip (HasRun B.changes B.cuts B.gave B.found_none B.refused work.now.turns) workers.old.items workers.new.items }
{
    run_each(rt, work, workers.as_mut_slice());
}

fn run_each<R: Threads + Wait + Sync, B: Bench + Sync, G: Gate + Sync>(
    rt: &R,
    work: &Work<B, G>,
    workers: &mut [Worker<B::Pass>],
)
where
    B::Pass: Send,
    requires some { 1 ≤ length workers.old }
    requires few { length workers.old ≤ MOST_WORKERS }
    ensures count { length workers.new ≡ length workers.old }
    ensures each { (k : ℕ) (d : _) → k < length workers.old → HasRun B.changes B.cuts B.gave B.found_none B.refused work.now.turns (slice_index_or workers.old k d) (slice_index_or workers.new k d) }
{
    let threads = thread_count(rt, workers.len());
    thread::for_each_mut(
        rt,
        workers,
        threads,
        &|i, worker|
            requires { i < 4294967296 }
            ensures { HasRun B.changes B.cuts B.gave B.found_none B.refused work.entry.now.turns worker.entry.now worker.exit.now }
        { run(rt, work, i as u32, worker) },
    );
}

// In how many threads at most this many workers run. If the number of processors isn't known, each worker has a thread.
fn thread_count<R: Threads>(rt: &R, workers: usize) -> usize
    requires some { 1 ≤ workers }
    requires few { workers ≤ MOST_WORKERS }
    ensures { 1 ≤ result }
{
    match thread::available_parallelism(rt) {
        Ok(processors) if processors.get() < workers => processors.get() * SHARING,
        _ => workers,
    }
}
