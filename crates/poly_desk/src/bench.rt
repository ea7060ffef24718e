//! A desk as a worker sees it.
ghost use Rattle.std.specs.Prelude.{◌≡◌, ◌+◌, [], ℕ, IfErr, IfOk, IfSome, None, OnErr, OnOk};
ghost use Rattle.std.specs.Arc.{arc_value};
ghost use Rattle.poly_tiling.specs.Puzzle.{View as ViewOf};
ghost use Rattle.poly_grid.specs.declared.refusal.Refusal.{Refusal as Cause};
ghost use Rattle.poly_desk.specs.Books.{HasBook, IsOfDesk};
ghost use Rattle.poly_desk.specs.Floors.{IsViewAt};
ghost use Rattle.poly_desk.specs.Seen.{IsCut, MayRefuse};
ghost use Rattle.poly_desk.specs.declared.receipt.Receipt.{Receipt as Given};

use crate::desk::Desk;
use crate::opening::Opening;
use crate::pass::Pass;
use crate::receipt::Receipt;
use poly_book::{Applied, Found, Job, Which};
use poly_grid::Refusal;
use poly_report::Report;
use std::sync::Wait;
use std::sync::ledger::Ledger;

/// Where a worker takes tasks and hands reports in. A [`Desk`] is a bench; tests have others.
pub trait Bench {
    /// The right to use the bench.
    type Pass: Drop;

    /// How many changes a pass has made.
    ghost changes: { Self.Pass → ℕ };

    /// How many cuts a pass has made.
    ghost cuts: { Self.Pass → ℕ };

    /// Whether the design may have this view at this edition. The bench promises this of each job's view and requires it of
    /// each search's view.
    ghost is_view_at: { ℕ → ViewOf → Type 0 };

    /// What the bench promises of a pass right after it answered, with this pass, that no task is pending.
    ghost found_none: { Self.Pass → Type 0 } = { λ _. Unit {0} };

    /// What the bench promises of a pass right after it refused a call with this pass.
    ghost refused: { Self.Pass → Cause → Type 0 } = { λ _ _. Unit {0} };

    /// What the bench promises of each receipt that it gave to a pass. It keeps the promise.
    ghost gave: { Self.Pass → Given → Type 0 } = { λ _ _. Unit {0} };

    /// Returns any pending task, or the one with the given number. Returns `None` only if there is no such task.
    fn take<R: Wait>(
        &self,
        rt: &R,
        pass: &mut Self::Pass,
        which: Which,
    ) -> Result<Option<Job>, Refusal>
        ensures changes { changes pass.new ≡ changes pass.old }
        ensures cuts { cuts pass.new ≡ cuts pass.old }
        ensures none { IfOk result (λ o. o ≡ None → which ≡ Which.Any → found_none pass.new) }
        ensures why { IfErr result (λ e. refused pass.new e) }
        ensures gave { (r : Given) → gave pass.old r → gave pass.new r }
        ensures view { IfOk result (λ o. IfSome o (λ j. is_view_at j.edition (arc_value j.view))) };

    /// Hands the report in, and returns what the report changed, with the receipt of its cut. The pass then has one more cut.
    /// If the report is refused, the pass has as many cuts as before.
    fn hand_in<R: Wait>(
        &self,
        rt: &R,
        pass: &mut Self::Pass,
        report: Report,
    ) -> Result<(Applied, Receipt), Refusal>
        ensures changes { changes pass.new ≡ changes pass.old }
        ensures cut { OnOk result (cuts pass.new ≡ cuts pass.old + 1) }
        ensures no_cut { OnErr result (cuts pass.new ≡ cuts pass.old) }
        ensures receipt { IfOk result (λ r. r.1 ≡ Receipt.Cut r.0.place report.task) }
        ensures given { IfOk result (λ r. gave pass.new r.1) }
        ensures why { IfErr result (λ e. refused pass.new e) }
        ensures gave { (r : Given) → gave pass.old r → gave pass.new r };

    /// `hand_in` for a report that a search made. The bench may trust the search.
    fn hand_in_found<R: Wait>(
        &self,
        rt: &R,
        pass: &mut Self::Pass,
        found: Found,
    ) -> Result<(Applied, Receipt), Refusal>
        requires searched { is_view_at found.report.edition (arc_value found.view) }
        ensures changes { changes pass.new ≡ changes pass.old }
        ensures cut { OnOk result (cuts pass.new ≡ cuts pass.old + 1) }
        ensures no_cut { OnErr result (cuts pass.new ≡ cuts pass.old) }
        ensures receipt { IfOk result (λ r. r.1 ≡ Receipt.Cut r.0.place found.report.task) }
        ensures given { IfOk result (λ r. gave pass.new r.1) }
        ensures why { IfErr result (λ e. refused pass.new e) }
        ensures gave { (r : Given) → gave pass.old r → gave pass.new r };
}

impl<C: Ledger, K: Ledger, O: Opening> Bench for Desk<C, K, O> {
    type Pass = Pass<C, K, O>;

    ghost changes = { λ p. p.changes };

    ghost cuts = { λ p. p.cuts };

    ghost is_view_at = { λ edition view. IsViewAt O.steps O.view edition view };

    ghost refused = { λ p e. MayRefuse O.design O.steps O.cuts p e };

    ghost found_none = { λ p. HasBook O.design O.steps O.cuts p (λ b. b.pending ≡ []) };

    ghost gave = { λ _ r. IsCut r × IsOfDesk O.design O.steps O.cuts r };

    #[tactic(auto, using(crate::proofs::Passes::none_pending, crate::proofs::Passes::may_refuse_take))]
    fn take<R: Wait>(
        &self,
        rt: &R,
        pass: &mut Pass<C, K, O>,
        which: Which,
    ) -> Result<Option<Job>, Refusal> {
        self.take(rt, pass, which)
    }

    #[tactic(auto, using(crate::proofs::Passes::may_refuse_report))]
    fn hand_in<R: Wait>(
        &self,
        rt: &R,
        pass: &mut Pass<C, K, O>,
        report: Report,
    ) -> Result<(Applied, Receipt), Refusal> {
        self.hand_in(rt, pass, report)
    }

    #[tactic(auto, using(crate::proofs::Passes::may_refuse_report))]
    fn hand_in_found<R: Wait>(
        &self,
        rt: &R,
        pass: &mut Pass<C, K, O>,
        found: Found,
    ) -> Result<(Applied, Receipt), Refusal> {
        self.hand_in_found(rt, pass, found)
    }
}
