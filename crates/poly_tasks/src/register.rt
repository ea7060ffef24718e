//! Which tasks are noted in the maps. Most tasks end before the next change, so a task is noted only when a change comes, or when a
//! search stops before it is through.
ghost use Rattle.std.specs.Prelude.{◌≡◌, ◌≤◌, IfErr, OnOk, false, length, nat_lt, true};
ghost use Rattle.std.specs.List.Sorted.{IsNonDecreasingBy, IsPartitionPoint};
ghost use Rattle.poly_tasks.specs.Mapped.{AreNoted, AreNotedBelow, KeepsPending};
ghost use Rattle.poly_tasks.specs.Meaning.{AreTasks};

use crate::maps::Maps;
use crate::task::Pending;
use poly_atom::GuardLog;
use poly_grid::Refusal;
use std::alloc::Global;

/// The maps, and how far they are filled.
#[derive(Drop)]
pub struct Register {
    /// The maps in which tasks are noted.
    pub maps: Maps,
    /// The pending tasks whose numbers are less than this are noted.
    pub below: u64,
    /// How many tasks were noted since the spans of ended tasks were last dropped.
    pub added: u64,
}

impl Register {
    /// A register without tasks.
    pub fn new(alloc: Global) -> Register
        ensures { result.below ≡ 0 }
    {
        Register {
            maps: Maps::new(alloc),
            below: 0,
            added: 0,
        }
    }

    /// Notes the pending tasks that aren't noted. Their numbers rise, and the next new task gets the number `next`. Fails only
    /// when out of memory.
    pub fn catch_up(
        &mut self,
        log: &GuardLog,
        pending: &[Pending],
        next: u64,
    ) -> Result<(), Refusal>
        requires tasks { AreTasks log.now pending.now }
        requires rise { IsNonDecreasingBy (λ p. p.number) pending.now }
        requires noted { AreNotedBelow self.old.below self.old.maps log.now pending.now }
        requires below { self.old.below ≤ next }
        ensures below { self.new.below ≤ next }
        ensures kept { AreNotedBelow self.new.below self.new.maps log.now pending.now }
        ensures noted { OnOk result (AreNoted self.new.maps log.now pending.now) }
        ensures why { IfErr result (λ e. e ≡ Refusal.Memory) }
    {
        self.tidy(pending);
        let start = first_from(pending, self.below);
        self.maps.note_all(log, &pending[start..])?;
        self.added = self.added.saturating_add((pending.len() - start) as u64);
        self.below = next;
        Ok(())
    }

    // Drops the spans without a pending task if far more tasks were noted since the last time than are pending now.
    fn tidy(&mut self, pending: &[Pending])
        requires { IsNonDecreasingBy (λ p. p.number) pending.now }
        ensures kept { KeepsPending pending.now self.old.maps self.new.maps }
        ensures below { self.new.below ≡ self.old.below }
    {
        if self.added.saturating_sub(64) / 2 > pending.len() as u64 {
            self.maps.tidy(pending);
            self.added = 0;
        }
    }
}

// The index of the first task whose number is at least `below`, or the length if there is none. The numbers rise.
fn first_from(pending: &[Pending], below: u64) -> usize
    requires { IsNonDecreasingBy (λ p. p.number) pending.now }
    ensures low { result ≤ length pending.now }
    ensures parts { IsPartitionPoint (λ p. nat_lt p.number below ≡ true) (λ p. nat_lt p.number below ≡ false) pending.now result }
{
    pending.partition_point(|task| (task.number as u64) < below)
}
