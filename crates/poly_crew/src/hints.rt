//! The hints of one worker: its own lane, and a thief of each other worker's lane.
ghost use Rattle.std.specs.Prelude.{◌≡◌, ◌<◌, IfErr, IfOk, length};
ghost use Rattle.poly_grid.specs.declared.refusal.Refusal.TheVariants.{Memory};

use crate::lane::Lane;
use crate::thief::Thief;
use poly_book::{Applied, Which};
use poly_grid::Refusal;
use std::alloc::Global;
use std::thread;

/// How many hints a worker holds on its lane for thieves, as long as it has as many that it doesn't need at once.
const OFFERED: usize = 4;

/// How often a worker goes round the other lanes before it takes any task.
const ROUNDS: usize = 3;

/// The tasks with the numbers from `next` on, below `end`.
#[derive(Clone, Copy)]
struct Opened {
    next: u64,
    end: u64,
}

/// What a worker knows of tasks to take: those that its own reports opened, its lane, and a thief of each other worker's lane.
///
/// A worker takes its newest tasks first, so the number of pending tasks stays small. It offers its oldest ones on its lane,
/// which as a rule are the largest, so others seldom need to steal.
#[derive(Drop)]
pub(crate) struct Hints {
    /// The worker's own lane.
    lane: Lane,
    /// A thief of each other worker's lane, from that of the next worker on.
    thieves: Vec<Thief>,
    /// What the worker's reports opened and what it has neither taken nor offered, the newest last.
    own: Vec<Opened>,
}

impl Hints {
    /// The task that the worker tries next: the newest that its own reports opened; if there is none, the oldest hint of its
    /// lane; if the lane has none, a hint that the worker steals; if it steals none, any task.
    pub(crate) fn next(&mut self) -> Which {
        self.offer();
        if let Some(task) = self.newest() {
            return Which::Task(task);
        }
        if let Some(task) = self.lane.pop() {
            return Which::Task(task);
        }
        match steal(&mut self.thieves) {
            Some(task) => Which::Task(task),
            None => Which::Any,
        }
    }

    /// Notes the tasks that a report opened. If there is no memory for that, nothing is noted; `Which::Any` still finds the
    /// tasks.
    pub(crate) fn push_opened(&mut self, applied: Applied) {
        if applied.opened == 0 {
            return;
        }
        let _ = self.own.push(Opened {
            next: applied.first,
            end: applied.first.saturating_add(applied.opened),
        });
    }

    // Pushes the oldest of the worker's own tasks on its lane until the lane has enough or one task is left.
    fn offer(&mut self) {
        if self.thieves.is_empty() {
            return;
        }
        for _ in self.lane.left()..OFFERED {
            let Some(task) = self.oldest() else {
                return;
            };
            let _ = self.lane.push(task);
        }
    }

    // Takes the oldest of the worker's own tasks out, unless it is the only one.
    fn oldest(&mut self) -> Option<u32> {
        let only = self.own.len() == 1;
        let first = self.own.first_mut()?;
        if only && first.end.saturating_sub(first.next) <= 1 {
            return None;
        }
        let task = first.next;
        first.next = task.saturating_add(1);
        if first.next >= first.end {
            let _ = self.own.remove(0);
        }
        u32::try_from(task).ok()
    }

    // Takes one of the newest of the worker's own tasks out.
    fn newest(&mut self) -> Option<u32> {
        let last = self.own.last_mut()?;
        let task = last.next;
        last.next = task.saturating_add(1);
        if last.next >= last.end {
            let _ = self.own.pop();
        }
        u32::try_from(task).ok()
    }
}

// Steals a hint. A thief that meets another worker at the same hint comes back without one, so there are several rounds. After
// each that finds nothing, the thread yields its processor: if there are more workers than processors, another worker then gets
// to offer tasks. Without a hint the worker would search a task that another one is searching.
fn steal(thieves: &mut [Thief]) -> Option<u32> {
    for _ in 0..ROUNDS {
        if let Some(task) = steal_once(thieves) {
            return Some(task);
        }
        thread::yield_now();
    }
    None
}

// Steals a hint from the first lane that has one for this worker.
fn steal_once(thieves: &mut [Thief]) -> Option<u32> {
    for thief in thieves.iter_mut() {
        if let Some(task) = thief.steal() {
            return Some(task);
        }
    }
    None
}

/// Returns the hints of `count` workers: for each an empty lane, and a thief of every other lane. Fails only when out of
/// memory.
pub(crate) fn hints_of(alloc: Global, count: usize) -> Result<Vec<Hints>, Refusal>
    ensures count { IfOk result (λ v. length v.items ≡ count) }
    ensures why { IfErr result (λ e. e ≡ Refusal.Memory) }
{
    let mut all = lanes(alloc, count)?;
    for distance in 1..count {
        lend_thieves(&mut all, distance)?;
    }
    Ok(all)
}

// Returns `count` empty lanes without thieves.
fn lanes(alloc: Global, count: usize) -> Result<Vec<Hints>, Refusal>
    ensures count { IfOk result (λ v. length v.items ≡ count) }
    ensures why { IfErr result (λ e. e ≡ Refusal.Memory) }
{
    let mut all = Vec::with_capacity(alloc, count)?;
    for made in 0..count {
        all.push(Hints {
            lane: Lane::new(alloc)?,
            thieves: Vec::with_capacity(alloc, count)?,
            own: Vec::new(alloc),
        })?;
    }
    Ok(all)
}

// Gives each worker a thief of the lane of the worker that comes this many places after it. After the last worker comes the
// first.
fn lend_thieves(all: &mut [Hints], distance: usize) -> Result<(), Refusal>
    requires { distance < length all.old }
    ensures count { length all.new ≡ length all.old }
    ensures why { IfErr result (λ e. e ≡ Refusal.Memory) }
{
    let count = all.len();
    for worker in 0..count {
        let owner = (worker + distance) % count;
        let thief = all[owner].lane.thief()?;
        all[worker].thieves.push(thief)?;
    }
    Ok(())
}
