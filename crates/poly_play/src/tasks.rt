//! Tasks, and what a worker makes of them.

use crate::kept::Kept;
use crate::reply::Reply;
use crate::reports::keep_report;
use crate::slots::Slots;
use crate::words::{Words, name, node_count, short_number};
use poly_book::{Book, Job, Which};
use poly_design::Name;
use poly_grid::Refusal;
use poly_report::Report;
use poly_search::explore;
use std::alloc::Global;

/// `take JOB [TASK]`
pub fn take(
    book: &Book,
    jobs: &mut Slots<Job>,
    reply: &mut Reply,
    words: &mut Words<'_>,
) -> Result<(), Refusal> {
    let slot = name(words)?;
    let which = match short_number(words) {
        Ok(task) => Which::Task(task),
        Err(_) => Which::Any,
    };
    match book.take(which)? {
        Some(job) => keep_job(jobs, reply, slot, job),
        None => reply.text("task -\n"),
    }
    Ok(())
}

fn keep_job(jobs: &mut Slots<Job>, reply: &mut Reply, slot: Name, job: Job) {
    say_job(reply, &job);
    jobs.put(slot, job);
}

fn say_job(reply: &mut Reply, job: &Job) {
    reply.field("task ", u64::from(job.task));
    reply.field(" edition ", job.edition);
    reply.text(":");
    reply.atoms(&job.view, job.atoms.as_slice());
    reply.end();
}

/// `pending`
pub fn pending(book: &Book, reply: &mut Reply) -> Result<(), Refusal> {
    let mut from = 0;
    for _ in 0..u32::MAX {
        match book.next(from) {
            Some(task) => {
                say_task(book, reply, task)?;
                from = task.saturating_add(1);
            }
            None => break,
        }
    }
    Ok(())
}

fn say_task(book: &Book, reply: &mut Reply, task: u32) -> Result<(), Refusal> {
    match &book.take(Which::Task(task))? {
        Some(job) => say_job(reply, job),
        None => reply.text("task -\n"),
    }
    Ok(())
}

/// `explore JOB REPORT NODES`
pub fn explore_job(
    alloc: Global,
    kept: &mut Kept,
    reply: &mut Reply,
    words: &mut Words<'_>,
) -> Result<(), Refusal> {
    let job = name(words)?;
    let slot = name(words)?;
    let nodes = node_count(words)?;
    let job = kept.jobs.get(job)?;
    let tree = explore(alloc, &job.view, job.atoms.as_slice(), nodes.count)?;
    let report = Report {
        task: job.task,
        edition: job.edition,
        tree,
    };
    keep_report(&mut kept.reports, reply, slot, report);
    Ok(())
}
