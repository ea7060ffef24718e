//! The view that a worker explored last. Its cover matrix serves all tasks of that design.
ghost use Rattle.std.specs.Prelude.{◌≡◌, ◌≤◌, IfErr, IfOk, IfSome};
ghost use Rattle.std.specs.Arc.{arc_value};
ghost use Rattle.poly_report.specs.declared.size.TheConstants.{NODES};

use poly_book::{Found, Job};
use poly_desk::Bench;
use poly_grid::Refusal;
use poly_report::Matrix;
use poly_tiling::View;
use std::alloc::Global;
use std::marker::Model;
use std::sync::Arc;

/// The view of the design at one edition, and its cover matrix.
#[derive(Drop)]
pub(crate) struct LastView {
    /// The edition of the design.
    edition: u64,
    /// The design at that edition, by numbers.
    view: Arc<View>,
    /// The cover matrix of the view.
    matrix: Matrix,
}

impl Model for LastView {
    ghost use Rattle.std.specs.Arc.{arc_value};
    ghost use Rattle.poly_frame.specs.Matrices.{IsWhole};
    ghost use Rattle.poly_crew.specs.Seen.{Seen};

    ghost Value = { Seen };

    ghost view = { λ s. record { edition = s.edition; view = arc_value s.view } };

    ghost invariant = { λ s. IsWhole (arc_value s.view) s.matrix };
}

impl LastView {
    // The view of the job's design. Fails only when out of memory.
    fn of(alloc: Global, job: &Job) -> Result<LastView, Refusal>
        ensures edition { IfOk result (λ s. s.edition ≡ job.now.edition) }
        ensures view { IfOk result (λ s. s.view ≡ arc_value job.now.view) }
        ensures why { IfErr result (λ e. e ≡ Refusal.Memory) }
    {
        let view = Arc::try_clone(&job.view)?;
        let matrix = Matrix::new(alloc, &view)?;
        Ok(LastView {
            edition: job.edition,
            view,
            matrix,
        })
    }

    // Searches the job in this view. Fails only when out of memory.
    fn explore(&self, alloc: Global, job: Job, nodes: u32) -> Result<Found, Refusal>
        requires some { 1 ≤ nodes }
        requires few { nodes ≤ NODES }
        ensures edition { IfOk result (λ f. f.report.edition ≡ job.edition) }
        ensures view { IfOk result (λ f. arc_value f.view ≡ self.now.view) }
        ensures why { IfErr result (λ e. e ≡ Refusal.Memory) }
    {
        let view = Arc::try_clone(&self.view)?;
        let found = Found::explore(alloc, view, &self.matrix, job, nodes)?;
        Ok(found)
    }
}

/// Searches the job with at most `nodes` nodes that aren't Rest. Uses the kept view if it has the job's edition, or else the
/// job's own, which is then kept. Fails only when out of memory.
///
/// A kept view with the job's edition can be used: the bench promised of its view, too, that the design may have it at that
/// edition, and requires no more of the view of a search.
pub(crate) fn explore_job<B: Bench>(
    alloc: Global,
    kept: &mut Option<LastView>,
    job: Job,
    nodes: u32,
) -> Result<Found, Refusal>
    requires kept { IfSome kept.old (λ s. B.is_view_at s.edition s.view) }
    requires job { B.is_view_at job.edition (arc_value job.view) }
    requires some { 1 ≤ nodes }
    requires few { nodes ≤ NODES }
    ensures kept { IfSome kept.new (λ s. B.is_view_at s.edition s.view) }
    ensures searched { IfOk result (λ f. B.is_view_at f.report.edition (arc_value f.view)) }
    ensures why { IfErr result (λ e. e ≡ Refusal.Memory) }
{
    let last = view_for::<B>(alloc, kept.take(), &job)?;
    let found = last.explore(alloc, job, nodes);
    *kept = Some(last);
    found
}

// The kept view if it has the job's edition, or else the job's own. Fails only when out of memory.
fn view_for<B: Bench>(alloc: Global, kept: Option<LastView>, job: &Job) -> Result<LastView, Refusal>
    requires kept { IfSome kept (λ s. B.is_view_at s.edition s.view) }
    requires job { B.is_view_at job.now.edition (arc_value job.now.view) }
    ensures edition { IfOk result (λ s. s.edition ≡ job.now.edition) }
    ensures view { IfOk result (λ s. B.is_view_at s.edition s.view) }
    ensures why { IfErr result (λ e. e ≡ Refusal.Memory) }
{
    if let Some(last) = kept {
        if last.edition == job.edition {
            return Ok(last);
        }
    }
    LastView::of(alloc, job)
}
