//! Flags for steps and endings. The flags that a change or a report may need are made before it, so that settling up takes no
//! memory.
ghost use Rattle.std.specs.Prelude.{◌≡◌, ◌≤◌, IfErr, IfOk, OnOk, All, false, length, vec_len};
ghost use Rattle.poly_grid.specs.declared.refusal.Refusal.TheVariants.{Memory};

use poly_grid::Refusal;
use std::alloc::Global;

/// A flag for each step and each ending, and perhaps some more.
#[derive(Drop)]
pub(crate) struct Marks {
    /// A flag for each step, the oldest first.
    pub steps: Vec<bool>,
    /// A flag for each ending, the oldest first.
    pub endings: Vec<bool>,
}

impl Marks {
    /// Makes at least this many flags. Fails only when out of memory.
    pub fn new(alloc: Global, steps: usize, endings: usize) -> Result<Marks, Refusal>
        ensures steps { IfOk result (λ m. steps ≤ vec_len m.steps) }
        ensures endings { IfOk result (λ m. endings ≤ vec_len m.endings) }
        ensures why { IfErr result (λ e. e ≡ Refusal.Memory) }
    {
        let mut marks = Marks {
            steps: Vec::new(alloc),
            endings: Vec::new(alloc),
        };
        marks.reach(steps, endings)?;
        Ok(marks)
    }

    /// Adds flags until there are at least this many; removes none. Fails only when out of memory.
    pub fn reach(&mut self, steps: usize, endings: usize) -> Result<(), Refusal>
        ensures steps { OnOk result (steps ≤ vec_len self.new.steps) }
        ensures endings { OnOk result (endings ≤ vec_len self.new.endings) }
        ensures steps_stay { vec_len self.old.steps ≤ vec_len self.new.steps }
        ensures endings_stay { vec_len self.old.endings ≤ vec_len self.new.endings }
        ensures why { IfErr result (λ e. e ≡ Refusal.Memory) }
    {
        lengthen(&mut self.steps, steps)?;
        lengthen(&mut self.endings, endings)
    }

    /// Takes all flags down.
    pub fn clear(&mut self)
        ensures steps { vec_len self.new.steps ≡ vec_len self.old.steps }
        ensures endings { vec_len self.new.endings ≡ vec_len self.old.endings }
        ensures steps_down { All (λ flag. flag ≡ false) self.new.steps.items }
        ensures endings_down { All (λ flag. flag ≡ false) self.new.endings.items }
    {
        take_down(&mut self.steps);
        take_down(&mut self.endings);
    }
}

// Adds flags until there are at least `count`; removes none.
fn lengthen(flags: &mut Vec<bool>, count: usize) -> Result<(), Refusal>
    ensures ok { OnOk result (count ≤ vec_len flags.new) }
    ensures stays { vec_len flags.old ≤ vec_len flags.new }
    ensures why { IfErr result (λ e. e ≡ Refusal.Memory) }
{
    if flags.len() < count {
        flags.resize(count, false)?;
    }
    Ok(())
}

fn take_down(flags: &mut [bool])
    ensures length { length flags.new ≡ length flags.old }
    ensures down { All (λ flag. flag ≡ false) flags.new }
{
    flags.fill(false);
}
