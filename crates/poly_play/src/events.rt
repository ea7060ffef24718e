//! Events for the laws: a script gathers them, and then runs them all by `laws::run` or by `laws::still_holds`.
ghost use Rattle.std.specs.Prelude.{IfOk};
ghost use Rattle.poly_report.specs.Shapes.{plan_of};
ghost use Rattle.poly_book.specs.Happenings.{HoldsNow};

use crate::changes::{edit_of, say_done};
use crate::kept::{Kept, Planned};
use crate::reply::Reply;
use crate::reports::{copied, say_applied};
use crate::slots::Slots;
use poly_book::laws::{Event, NotRun, Ran, Reply as Answer, run, still_holds};
use poly_book::{Book, Which};
use poly_design::{Edit, Name};
use poly_grid::{Grid, Refusal};
use poly_report::{Report, fits, holds};
use std::alloc::Global;

/// `event LINE` gathers the event of the line: an edit, `undo`, `redo` or `hand_in REPORT`.
pub fn add_event(
    alloc: Global,
    grid: Grid,
    events: &mut Vec<Planned>,
    reply: &mut Reply,
    line: &str,
) -> Result<(), Refusal> {
    let planned = planned_by(alloc, grid, line)?;
    push(events, planned, None)?;
    reply.line("events ", events.len() as u64);
    Ok(())
}

// The edit stands in the signature because the prover refuses to push a value whose type holds a type that the function
// doesn't name.
fn push(events: &mut Vec<Planned>, planned: Planned, _edit: Option<Edit>) -> Result<(), Refusal> {
    events.push(planned)?;
    Ok(())
}

fn planned_by(alloc: Global, grid: Grid, line: &str) -> Result<Planned, Refusal> {
    match line {
        "undo" => Ok(Planned::Undo),
        "redo" => Ok(Planned::Redo),
        _ => match line.strip_prefix("hand_in ") {
            Some(slot) => Ok(Planned::HandIn(Name::new(slot.as_bytes())?)),
            None => Ok(Planned::Edit(edit_of(alloc, grid, line)?)),
        },
    }
}

fn gathered(alloc: Global, kept: &Kept) -> Result<Vec<Event>, Refusal> {
    let mut events = Vec::new(alloc);
    for planned in &kept.events {
        add(alloc, &mut events, &kept.reports, *planned)?;
    }
    Ok(events)
}

fn add(
    alloc: Global,
    events: &mut Vec<Event>,
    reports: &Slots<Report>,
    planned: Planned,
) -> Result<(), Refusal> {
    let event = event_of(alloc, reports, planned)?;
    events.push(event)?;
    Ok(())
}

fn event_of(alloc: Global, reports: &Slots<Report>, planned: Planned) -> Result<Event, Refusal> {
    match planned {
        Planned::Edit(edit) => Ok(Event::Edit(edit)),
        Planned::Undo => Ok(Event::Undo),
        Planned::Redo => Ok(Event::Redo),
        Planned::HandIn(slot) => Ok(Event::HandIn(copied(alloc, reports, slot)?)),
    }
}

/// `run` runs the events that were gathered.
pub fn run_events(
    alloc: Global,
    place: &mut Option<Book>,
    kept: &mut Kept,
    reply: &mut Reply,
) -> Result<(), Refusal> {
    let events = gathered(alloc, kept)?;
    run_all(alloc, place, reply, events)?;
    kept.events.clear();
    Ok(())
}

fn run_all(
    alloc: Global,
    place: &mut Option<Book>,
    reply: &mut Reply,
    events: Vec<Event>,
) -> Result<(), Refusal> {
    match place.take() {
        Some(book) => put_back(place, reply, run(alloc, book, events)),
        None => Err(Refusal::BadCommand),
    }
}

/// `still_holds REPORT` runs the events that were gathered by the law that a tree that holds still holds afterwards. Fails
/// with `Gone`, `TooLarge` or `DoesNotHold`, and runs nothing, if the report couldn't be handed in before them.
pub fn run_held(
    alloc: Global,
    place: &mut Option<Book>,
    kept: &mut Kept,
    reply: &mut Reply,
    slot: &str,
) -> Result<(), Refusal> {
    let events = gathered(alloc, kept)?;
    let report = kept.reports.get(Name::new(slot.as_bytes())?)?;
    run_all_held(alloc, place, reply, report, events)?;
    kept.events.clear();
    Ok(())
}

fn run_all_held(
    alloc: Global,
    place: &mut Option<Book>,
    reply: &mut Reply,
    report: &Report,
    events: Vec<Event>,
) -> Result<(), Refusal> {
    match place.take() {
        Some(book) => put_back(place, reply, run_if_held(alloc, book, report, events)),
        None => Err(Refusal::BadCommand),
    }
}

fn run_if_held(
    alloc: Global,
    book: Book,
    report: &Report,
    events: Vec<Event>,
) -> Result<Ran, NotRun> {
    match holds_now(alloc, &book, report) {
        Ok(()) => still_holds(alloc, book, report, events),
        Err(why) => Err(NotRun { book, why }),
    }
}

// Fails unless the report's task is pending, and its tree fits and holds for the task.
fn holds_now(alloc: Global, book: &Book, report: &Report) -> Result<(), Refusal>
    ensures { IfOk result (λ _. HoldsNow book.now report.now.task (plan_of report.now.tree)) }
{
    let Some(job) = book.take(Which::Task(report.task))? else {
        return Err(Refusal::Gone);
    };
    if !fits(&report.tree) {
        return Err(Refusal::TooLarge);
    }
    let yes = holds(alloc, &job.view, &job.atoms, &report.tree)?;
    if !yes {
        return Err(Refusal::DoesNotHold);
    }
    Ok(())
}

fn put_back(
    place: &mut Option<Book>,
    reply: &mut Reply,
    ran: Result<Ran, NotRun>,
) -> Result<(), Refusal> {
    match ran {
        Ok(ran) => {
            put_ran(place, reply, ran);
            Ok(())
        }
        Err(not_run) => Err(put_not_run(place, not_run)),
    }
}

fn put_ran(place: &mut Option<Book>, reply: &mut Reply, ran: Ran) {
    let Ran { book, replies } = ran;
    *place = Some(book);
    for answer in &replies {
        say_answer(reply, answer);
    }
}

fn put_not_run(place: &mut Option<Book>, not_run: NotRun) -> Refusal {
    let NotRun { book, why } = not_run;
    *place = Some(book);
    why
}

fn say_answer(reply: &mut Reply, answer: &Answer) {
    match answer {
        Answer::Done(done) => say_done(reply, done),
        Answer::Applied(applied) => say_applied(reply, applied),
        Answer::Refused(refusal) => reply.refusal(*refusal),
    }
}
