//! The laws of a book. The contracts of `run` and `still_holds` state what holds of runs of events. Each other law is the
//! contract of a function that does nothing: `limits_of_books` states the limits, and the others state laws of the
//! definitions.
ghost use Rattle.std.specs.Prelude.{◌≡◌, IfErr, IfOk};
ghost use Rattle.poly_report.specs.Shapes.{plan_of};
ghost use Rattle.poly_book.specs.Happenings.{AllHappen, Happens, HoldsNow, KeepsHolding};
ghost use Rattle.poly_book.specs.Laws.{ListedStay, OpeningsAreWhole, QuietRedo, QuietShelvesAreKept, QuietUndo, ReportsKeepHolding, RunsKeepWhole, StepsKeepWhole};
ghost use Rattle.poly_book.specs.Whole.{Whole};

use crate::book::Book;
use crate::prepare::{MAX_CHANGES, MAX_GUARDS, MAX_SHELF};
use crate::step::{Applied, Done};
use poly_design::Edit;
use poly_grid::Refusal;
use poly_report::Report;
use std::alloc::Global;

/// A book makes at most 100,000 changes. A change and its inverse have at most 20,000 guards each, and a shelf is kept if
/// its frozen tasks times the guards of the inverse are at most 4,096.
pub fn limits_of_books()
    ensures changes { MAX_CHANGES ≡ 100000 }
    ensures guards { MAX_GUARDS ≡ 20000 }
    ensures shelf { MAX_SHELF ≡ 4096 }
{}

/// An event of a run.
#[derive(Drop)]
pub enum Event {
    /// An edit.
    Edit(Edit),
    /// An undo.
    Undo,
    /// A redo.
    Redo,
    /// A report.
    HandIn(Report),
}

/// The answer to an event.
#[derive(Drop)]
pub enum Reply {
    /// A change was made.
    Done(Done),
    /// A report was applied.
    Applied(Applied),
    /// The event was refused, and changed nothing.
    Refused(Refusal),
}

/// A book after a run, with a reply for each event.
#[derive(Drop)]
pub struct Ran {
    /// The book after it.
    pub book: Book,
    /// The replies, in the order of the events.
    pub replies: Vec<Reply>,
}

/// A book on which no event was run, since there was no memory for the replies.
#[derive(Drop)]
pub struct NotRun {
    /// The book as it was.
    pub book: Book,
    /// `Memory`.
    pub why: Refusal,
}

// One event. A refused one changes nothing.
fn act(book: &mut Book, event: Event) -> Reply
    ensures { Happens event book.old book.new result }
{
    match event {
        Event::Edit(edit) => match book.edit(edit) {
            Ok(done) => Reply::Done(done),
            Err(refusal) => Reply::Refused(refusal),
        },
        Event::Undo => match book.undo() {
            Ok(done) => Reply::Done(done),
            Err(refusal) => Reply::Refused(refusal),
        },
        Event::Redo => match book.redo() {
            Ok(done) => Reply::Done(done),
            Err(refusal) => Reply::Refused(refusal),
        },
        Event::HandIn(report) => match book.hand_in(report) {
            Ok(applied) => Reply::Applied(applied),
            Err(refusal) => Reply::Refused(refusal),
        },
    }
}

/// Runs the events one after the other. Whatever they are, each has its reply, and a refused event changes nothing. `Whole`
/// holds of the book after them, so each tiling of its design is listed once or belongs to exactly one pending task. Fails
/// only when out of memory for the replies, before the first event.
pub fn run(alloc: Global, book: Book, events: Vec<Event>) -> Result<Ran, NotRun>
    ensures happen { IfOk result (λ r. AllHappen events.items book r.replies.items r.book) }
    ensures whole { IfOk result (λ r. Whole r.book) }
    ensures stays { IfErr result (λ n. n.book ≡ book) }
    ensures why { IfErr result (λ n. n.why ≡ Refusal.Memory) }
{
    let mut book = book;
    let mut replies = match Vec::with_capacity(alloc, events.len()) {
        Ok(replies) => replies,
        Err(_) => {
            return Err(NotRun {
                book,
                why: Refusal::Memory,
            });
        }
    };
    for event in events {
        let reply = act(&mut book, event);
        replies.push_reserved(reply);
    }
    book.whole();
    Ok(Ran { book, replies })
}

/// Runs the events. The report's task must be pending before them, and the report's tree must hold for the task. After them
/// the tree holds for the task if the task is still pending. Fails as `run` does.
pub fn still_holds(
    alloc: Global,
    book: Book,
    report: &Report,
    events: Vec<Event>,
) -> Result<Ran, NotRun>
    requires { HoldsNow book report.now.task (plan_of report.now.tree) }
    ensures happen { IfOk result (λ r. AllHappen events.items book r.replies.items r.book) }
    ensures holds { IfOk result (λ r. KeepsHolding r.book report.now.task (plan_of report.now.tree)) }
    ensures stays { IfErr result (λ n. n.book ≡ book) }
    ensures why { IfErr result (λ n. n.why ≡ Refusal.Memory) }
{
    book.whole();
    run(alloc, book, events)
}

/// `Whole` holds of the opening state of a design, with a well-named view that shows the design.
pub fn openings_are_whole()
    ensures { OpeningsAreWhole }
{}

/// If `Whole` holds of a state, it holds of the state after an event that can happen there.
pub fn steps_keep_whole()
    ensures { StepsKeepWhole }
{}

/// If `Whole` holds of a state, it holds of the state after a run.
pub fn runs_keep_whole()
    ensures { RunsKeepWhole }
{}

/// Whatever happens, a listed tiling that is still a tiling stays listed.
pub fn listed_stay()
    ensures { ListedStay }
{}

/// A tree that holds for its pending task holds as long as the task is pending.
pub fn reports_keep_holding()
    ensures { ReportsKeepHolding }
{}

/// Undoing a change that found nothing pending leaves nothing pending, if a shelf was kept for each undo and redo since.
pub fn quiet_undo()
    ensures { QuietUndo }
{}

/// Redoing a change whose undo found nothing pending leaves nothing pending, if a shelf was kept for each undo and redo since.
pub fn quiet_redo()
    ensures { QuietRedo }
{}

/// If a change finds nothing pending, a shelf is kept for its undo or redo.
pub fn quiet_shelves_are_kept()
    ensures { QuietShelvesAreKept }
{}
