//! Settling: taking tasks, exploring them and handing the results in until nothing is pending.
ghost use Rattle.std.specs.Prelude.{◌≡◌, ◌≤◌, ◌<◌, IfErr, IfOk, OnErr, OnOk, length, ℕ};
ghost use Rattle.poly_tiling.specs.Listings.{HasOverTilings};
ghost use Rattle.poly_report.specs.Trees.{Plan};
ghost use Rattle.poly_book.specs.Keeps.{Keeps, state_of};
ghost use Rattle.poly_book.specs.Reports.{AreFoundLeaves};
ghost use Rattle.poly_book.specs.Settled.{AreHopefulFrom, AreReported, AreReportedBefore, IsNotSettled, IsNotTurned, IsSettled, IsTurn};
ghost use Rattle.poly_tasks.specs.Tasks.{AreHopeful};
ghost use Rattle.poly_tiling.specs.declared.lister.TheConstants.{MAX_TILINGS};
ghost use Rattle.poly_report.specs.declared.size.TheConstants.{NODES};

use crate::apply::catch_up;
use crate::book::Book;
use crate::hand_in::apply_leaves;
use crate::parts::Parts;
use poly_atom::Atom;
use poly_grid::Refusal;
use poly_report::{Leaves, Room};
use poly_tasks::read_all;

impl Book {
    /// Takes tasks, searches each over at most `nodes` nodes that aren't Rest, and applies what is found like a report, until
    /// nothing is pending. Returns how many reports were applied. The design and the steps stay. `nodes` is from 1 to 4,096.
    ///
    /// Refused with `Unfinished` if `turns` reports were applied and a task is still pending. May be refused earlier as
    /// `hand_in` is for a report that holds: with `Spent`, `CatalogueFull` or `Memory`. Reports that were applied before a
    /// refusal stay applied.
    pub fn settle(&mut self, turns: u64, nodes: u32) -> Result<u64, Refusal>
        requires some { 1 ≤ nodes }
        requires few { nodes ≤ NODES }
        ensures ok { IfOk result (λ n. IsSettled self.old self.new n) }
        ensures reports { IfOk result (λ n. (n ≤ turns) × AreReported nodes n self.old self.new) }
        ensures applied { IfErr result (λ e. AreReportedBefore e turns nodes self.old self.new) }
        ensures why { IfErr result (λ e. IsNotSettled turns self.old self.new e) }
        ensures full { IfErr result (λ e. e ≡ Refusal.CatalogueFull → HasOverTilings MAX_TILINGS self.old.design) }
    {
        settle_all(&mut self.parts, turns, nodes)
    }
}

// Does what `Book::settle` does, and then notes the tasks that are still pending, so that a change after a long search takes less
// time.
fn settle_all(parts: &mut Parts, turns: u64, nodes: u32) -> Result<u64, Refusal>
    requires some { 1 ≤ nodes }
    requires few { nodes ≤ NODES }
    requires keeps { Keeps parts.old }
    ensures keeps { Keeps parts.new }
    ensures ok { IfOk result (λ n. IsSettled (state_of parts.old) (state_of parts.new) n) }
    ensures reports { IfOk result (λ n. (n ≤ turns) × AreReported nodes n (state_of parts.old) (state_of parts.new)) }
    ensures applied { IfErr result (λ e. AreReportedBefore e turns nodes (state_of parts.old) (state_of parts.new)) }
    ensures why { IfErr result (λ e. IsNotSettled turns (state_of parts.old) (state_of parts.new) e) }
{
    let mut atoms = Vec::new(parts.alloc);
    let mut room = Room::new(parts.alloc);
    let settled = settle_turns(parts, turns, nodes, &mut atoms, &mut room);
    drop(room);
    note_for_change(parts);
    settled
}

// Does turns until nothing is pending, and returns how many. The buffer and the room are used again for each task.
fn settle_turns(
    parts: &mut Parts,
    turns: u64,
    nodes: u32,
    buffer: &mut Vec<Atom>,
    room: &mut Room,
) -> Result<u64, Refusal>
    requires some { 1 ≤ nodes }
    requires few { nodes ≤ NODES }
    requires keeps { Keeps parts.old }
    ensures keeps { Keeps parts.new }
    ensures ok { IfOk result (λ n. IsSettled (state_of parts.old) (state_of parts.new) n) }
    ensures reports { IfOk result (λ n. (n ≤ turns) × AreReported nodes n (state_of parts.old) (state_of parts.new)) }
    ensures applied { IfErr result (λ e. AreReportedBefore e turns nodes (state_of parts.old) (state_of parts.new)) }
    ensures why { IfErr result (λ e. IsNotSettled turns (state_of parts.old) (state_of parts.new) e) }
{
    let mut unsure = parts.tasks.len();
    for applied in 0..turns {
        match settle_one(parts, nodes, &mut unsure, buffer, room) {
            Ok(true) => {}
            Ok(false) => return Ok(applied),
            Err(refusal) => return Err(refusal),
        }
    }
    if parts.tasks.is_empty() {
        return Ok(turns);
    }
    Err(Refusal::Unfinished)
}

// Notes the pending tasks as the next change needs them. If memory runs out, that change notes them.
fn note_for_change(parts: &mut Parts)
    requires { Keeps parts.old }
    ensures keeps { Keeps parts.new }
    ensures same { state_of parts.new ≡ state_of parts.old }
{
    let _ = catch_up(parts);
}

// Does one turn, and returns whether there was a task. The leaves that are found are those of a tree that holds. A report needs
// no more of its tree, so none is made. Only the first `unsure` tasks may be hopeless. So no rest of a later task is hopeless, and
// this isn't checked. The task's atoms are read into the buffer, in place of what it had.
fn settle_one(
    parts: &mut Parts,
    nodes: u32,
    unsure: &mut usize,
    buffer: &mut Vec<Atom>,
    room: &mut Room,
) -> Result<bool, Refusal>
    requires some { 1 ≤ nodes }
    requires few { nodes ≤ NODES }
    requires keeps { Keeps parts.old }
    requires sure { AreHopefulFrom unsure.old (state_of parts.old) }
    ensures keeps { Keeps parts.new }
    ensures sure { OnOk result (AreHopefulFrom unsure.new (state_of parts.new)) }
    ensures ok { IfOk result (λ more. IsTurn nodes (state_of parts.old) (state_of parts.new) more) }
    ensures err { OnErr result (state_of parts.new ≡ state_of parts.old) }
    ensures why { IfErr result (λ e. IsNotTurned (state_of parts.old) e) }
{
    if parts.tasks.is_empty() {
        return Ok(false);
    }
    let at = parts.tasks.len() - 1;
    let sure = *unsure <= at;
    let leaves = explored_leaves(parts, at, nodes, buffer, room)?;
    let edition = parts.log.len() as u64;
    match apply_leaves(parts, at, edition, leaves, sure) {
        Ok(_) => {
            *unsure = (*unsure).min(at);
            Ok(true)
        }
        Err(refusal) => Err(refusal),
    }
}

// The leaves of a tree that fits and holds for the task at the index. If the task isn't hopeless, no rest is. The task's atoms
// are read into the buffer.
fn explored_leaves(
    parts: &mut Parts,
    at: usize,
    nodes: u32,
    buffer: &mut Vec<Atom>,
    room: &mut Room,
) -> Result<Leaves, Refusal>
    requires some { 1 ≤ nodes }
    requires few { nodes ≤ NODES }
    requires keeps { Keeps parts.old }
    requires index { at < length parts.old.tasks.items }
    ensures stays { parts.new ≡ parts.old }
    ensures leaves { IfOk result (λ l. (k : ℕ) × (tree : Plan) × AreFoundLeaves nodes parts.old k at tree l.tilings.items l.rests) }
    ensures sure { IfOk result (λ l. (n : ℕ) → n ≤ at → AreHopefulFrom n (state_of parts.old) → AreHopeful parts.old.scene l.rests) }
    ensures why { IfErr result (λ e. e ≡ Refusal.Memory) }
{
    read_all(&parts.log, &parts.tasks[at], buffer)?;
    let leaves = parts.scene.leaves(parts.alloc, buffer, nodes, room)?;
    Ok(leaves)
}
