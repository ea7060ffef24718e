//! What a session runs on: a design that is edited, and all its tilings.
//!
//! A session doesn't know how an engine searches or what the engine keeps between two questions. It knows only the engine's
//! state, in terms of the definitions.
ghost use Rattle.std.specs.Prelude.{◌≡◌, ◌⊎◌, ◌+◌, ◌≤◌, List, None, length, IfOk, IfErr, OnOk, OnErr};
ghost use Rattle.poly_grid.specs.declared.refusal.Refusal.{Refusal as Cause};
ghost use Rattle.poly_design.specs.declared.placement.Placement.{Placement as Placed};
ghost use Rattle.poly_tiling.specs.Listings.{IsListOfTilings};
ghost use Rattle.poly_crew.specs.declared.crewing.TheConstants.{MOST_TURNS};
ghost use Rattle.poly_cli.specs.States.{State, AreNumbers, EditRefused, Edits, IsNotAnswered, IsRefusedFor, RedoRefused, Redoes, UndoRefused, Undoes, answered, opened};

use poly_book::{Numbers, Quiet};
use poly_design::{Design, Edit};
use poly_grid::Refusal;

/// A design that is edited, and all its tilings.
pub trait Engine {
    /// The design with its edition, its steps to undo and redo, whether a question about all tilings was answered since the
    /// last change, and the refusal with which the engine failed, if it did. How these are kept is up to the engine.
    ghost state: { Self → State };

    /// Holds before and after each call.
    ghost ready: { Self → Type 0 } = { λ _. Unit {0} };

    /// The refusals with which the engine may fail at a question about all tilings. It may stay failed: then it answers that
    /// question and each later call but `numbers` with the same refusal, `begin` included, and nothing changes any more.
    ghost failures: { Cause → Type 0 } = { λ _. ⊥ };

    /// Begins anew with the design, at edition 0 and without steps. Fails with `Memory`, or as the engine failed before, and
    /// then leaves the engine as it was.
    fn begin(&mut self, design: Design) -> Result<(), Refusal>
        requires ready { ready self.old }
        ensures ready { ready self.new }
        ensures ok { OnOk result (((state self.old).failed ≡ None) × (state self.new ≡ opened design)) }
        ensures err { OnErr result (state self.new ≡ state self.old) }
        ensures why { IfErr result (λ e. IsRefusedFor (λ cause. cause ≡ Refusal.Memory) (state self.old).failed e) };

    /// Makes the edit, and returns the edition after it.
    ///
    /// Fails as `Design::check` does; then with `TooWide` if the change or its inverse has over 20,000 guards, or with
    /// `Spent` if a counter is used up. `Memory` may come in place of any answer. A refused edit leaves the engine as it
    /// was.
    fn edit(&mut self, edit: Edit) -> Result<u64, Refusal>
        requires ready { ready self.old }
        ensures ready { ready self.new }
        ensures ok { OnOk result (((state self.old).failed ≡ None) × Edits (state self.old) edit (state self.new)) }
        ensures next { IfOk result (λ n. n ≡ (state self.old).edition + 1) }
        ensures err { OnErr result (state self.new ≡ state self.old) }
        ensures why { IfErr result (λ e. IsRefusedFor (λ cause. EditRefused (state self.old) edit cause ⊎ (cause ≡ Refusal.Memory)) (state self.old).failed e) };

    /// Undoes the last change that can be undone, and returns the edition after that.
    ///
    /// Fails with `NothingToUndo` if no change can be undone; otherwise with `Spent` if a counter is used up, and with
    /// `CatalogueFull` only if the design after the undo has over 1,000,000 tilings. `Memory` may come in place of any
    /// answer. A refused undo leaves the engine as it was.
    fn undo(&mut self) -> Result<u64, Refusal>
        requires ready { ready self.old }
        ensures ready { ready self.new }
        ensures ok { OnOk result (((state self.old).failed ≡ None) × Undoes (state self.old) (state self.new)) }
        ensures next { IfOk result (λ n. n ≡ (state self.old).edition + 1) }
        ensures err { OnErr result (state self.new ≡ state self.old) }
        ensures why { IfErr result (λ e. IsRefusedFor (λ cause. UndoRefused (state self.old) cause ⊎ (cause ≡ Refusal.Memory)) (state self.old).failed e) };

    /// Redoes the change that was undone last, and returns the edition after that.
    ///
    /// Fails with `NothingToRedo` if no change can be redone; otherwise with `Spent` if a counter is used up, and with
    /// `CatalogueFull` only if the design after the redo has over 1,000,000 tilings. `Memory` may come in place of any
    /// answer. A refused redo leaves the engine as it was.
    fn redo(&mut self) -> Result<u64, Refusal>
        requires ready { ready self.old }
        ensures ready { ready self.new }
        ensures ok { OnOk result (((state self.old).failed ≡ None) × Redoes (state self.old) (state self.new)) }
        ensures next { IfOk result (λ n. n ≡ (state self.old).edition + 1) }
        ensures err { OnErr result (state self.new ≡ state self.old) }
        ensures why { IfErr result (λ e. IsRefusedFor (λ cause. RedoRefused (state self.old) cause ⊎ (cause ≡ Refusal.Memory)) (state self.old).failed e) };

    /// Returns all tilings of the design, each once, in the order of tilings.
    ///
    /// May fail with `Memory`. If no question about all tilings was answered since the last change, it may also fail with
    /// `Unfinished` if the turns are used up, with `Spent` if a counter is used up, with `CatalogueFull` only if there are over
    /// 1,000,000 tilings, or with one of the engine's `failures`.
    fn settle(&mut self) -> Result<Quiet, Refusal>
        requires ready { ready self.old }
        ensures ready { ready self.new }
        ensures ok { OnOk result (((state self.old).failed ≡ None) × (state self.new ≡ answered (state self.old))) }
        ensures design { IfOk result (λ quiet. quiet.design ≡ (state self.old).design) }
        ensures edition { IfOk result (λ quiet. quiet.edition ≡ (state self.old).edition) }
        ensures err { IfErr result (λ e. IsNotAnswered failures (state self.old) e (state self.new)) };

    /// Returns the number of all tilings of the design. Fails as `settle` does.
    fn count(&mut self) -> Result<u64, Refusal>
        requires ready { ready self.old }
        ensures ready { ready self.new }
        ensures ok { OnOk result (((state self.old).failed ≡ None) × (state self.new ≡ answered (state self.old))) }
        ensures count { IfOk result (λ n. (all : List (List Placed)) × IsListOfTilings (state self.old).design all × (n ≡ length all)) }
        ensures err { IfErr result (λ e. IsNotAnswered failures (state self.old) e (state self.new)) }
    {
        let quiet = self.settle()?;
        Ok(quiet.tilings().len() as u64)
    }

    /// Returns the edition, and how many tilings are listed and how many tasks are pending at the moment. Settles nothing and
    /// takes no memory.
    fn numbers(&self) -> Numbers
        requires ready { ready self.now }
        ensures { AreNumbers (state self.now) result };
}

/// An engine whose limit on turns can be changed, so that a search can be done in parts.
pub trait Limited: Engine {
    /// Sets the most turns that each later question may take, at most 1,000,000,000; with workers, the most for each of them.
    fn set_turns(&mut self, turns: u64)
        requires ready { Self.ready self.old }
        requires few { turns ≤ MOST_TURNS }
        ensures ready { Self.ready self.new }
        ensures same { Self.state self.new ≡ Self.state self.old };
}
