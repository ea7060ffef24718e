//! What a crew allocates before its workers begin, and how the passes go to the workers and come back.
ghost use Rattle.std.specs.Prelude.{◌≡◌, ◌≤◌, [], All, IfErr, IfOk, length, map, sum_by, vec_capacity, vec_len};
ghost use Rattle.poly_crew.specs.Worked.{first_of};
ghost use Rattle.poly_crew.specs.declared.crewing.TheConstants.{MOST_TURNS, MOST_WORKERS};
ghost use Rattle.poly_grid.specs.declared.refusal.Refusal.TheVariants.{Memory};

use crate::hints::{Hints, hints_of};
use crate::worker::Worker;
use crossbeam_utils::CachePadded;
use poly_desk::Receipt;
use poly_grid::Refusal;
use std::alloc::Global;

/// The workers' hints, and empty lists with room for all workers, passes and lists of receipts.
#[derive(Drop)]
pub(crate) struct Room<P: Drop> {
    /// The hints of each worker.
    pub(crate) hints: Vec<Hints>,
    /// Room for the workers.
    pub(crate) workers: Vec<Worker<P>>,
    /// Room for the passes that the workers give back.
    pub(crate) passes: Vec<P>,
    /// Room for the workers' lists of receipts.
    pub(crate) receipts: Vec<Vec<Receipt>>,
}

/// Makes room for this many workers. Fails only when out of memory.
pub(crate) fn room_for<P: Drop>(alloc: Global, count: usize) -> Result<Room<P>, Refusal>
    ensures hints { IfOk result (λ r. length r.hints.items ≡ count) }
    ensures workers { IfOk result (λ r. (r.workers.items ≡ []) × (count ≤ vec_capacity r.workers)) }
    ensures passes { IfOk result (λ r. (r.passes.items ≡ []) × (count ≤ vec_capacity r.passes)) }
    ensures receipts { IfOk result (λ r. (r.receipts.items ≡ []) × (count ≤ vec_capacity r.receipts)) }
    ensures why { IfErr result (λ e. e ≡ Refusal.Memory) }
{
    Ok(Room {
        hints: hints_of(alloc, count)?,
        workers: Vec::with_capacity(alloc, count)?,
        passes: Vec::with_capacity(alloc, count)?,
        receipts: Vec::with_capacity(alloc, count)?,
    })
}

/// For each pass, puts a worker without receipts into `workers`.
pub(crate) fn seat_all<P: Drop>(
    alloc: Global,
    passes: Vec<P>,
    mut hints: Vec<Hints>,
    workers: &mut Vec<Worker<P>>,
)
    requires hints { length hints.items ≡ length passes.items }
    requires empty { workers.old.items ≡ [] }
    requires room { length passes.items ≤ vec_capacity workers.old }
    ensures passes { map (λ w. w.pass) workers.new.items ≡ passes.items }
    ensures receipts { All (λ w. vec_len w.receipts ≡ 0) workers.new.items }
{
    for pass in passes {
        let Some(hints) = hints.pop() else {
            unreachable!()
        };
        workers.push_reserved(Worker {
            pass,
            hints,
            receipts: Vec::new(alloc),
            applied: CachePadded::new(0),
            end: Ok(()),
        });
    }
}

/// Returns how many reports of the workers were applied.
pub(crate) fn applied_by<P: Drop>(workers: &[Worker<P>]) -> u64
    requires few { length workers.now ≤ MOST_WORKERS }
    requires small { All (λ w. vec_len w.receipts ≤ MOST_TURNS) workers.now }
    ensures { result ≡ sum_by (λ w. vec_len w.receipts) workers.now }
{
    let mut applied = 0;
    for worker in workers {
        applied += *worker.applied;
    }
    applied
}

/// Succeeds if each worker ended because no task was left to take. Otherwise fails with the `end` of the first worker that
/// ended in another way.
pub(crate) fn first_refusal<P: Drop>(workers: &[Worker<P>]) -> Result<(), Refusal>
    ensures { result ≡ first_of (map (λ w. w.end) workers.now) }
{
    for worker in workers {
        worker.end?;
    }
    Ok(())
}

/// Moves the passes and the receipts of the workers into the two lists.
pub(crate) fn take_apart<P: Drop>(
    workers: Vec<Worker<P>>,
    passes: &mut Vec<P>,
    receipts: &mut Vec<Vec<Receipt>>,
)
    requires passes { (passes.old.items ≡ []) × (length workers.items ≤ vec_capacity passes.old) }
    requires receipts { (receipts.old.items ≡ []) × (length workers.items ≤ vec_capacity receipts.old) }
    ensures passes { passes.new.items ≡ map (λ w. w.pass) workers.items }
    ensures receipts { receipts.new.items ≡ map (λ w. w.receipts) workers.items }
{
    for worker in workers {
        let Worker {
            pass,
            receipts: list,
            ..
        } = worker;
        passes.push_reserved(pass);
        receipts.push_reserved(list);
    }
}
