//! Reports that a script writes, shows and hands in.

use crate::reply::Reply;
use crate::slots::Slots;
use crate::trees::{copy_of, put_tree, read_tree};
use crate::words::{Words, name, number, short_number};
use poly_book::{Applied, Book};
use poly_design::Name;
use poly_grid::Refusal;
use poly_report::Report;
use poly_tiling::View;
use std::alloc::Global;

/// Keeps the report, and says what it is on.
pub fn keep_report(reports: &mut Slots<Report>, reply: &mut Reply, slot: Name, report: Report) {
    reply.field("report on ", u64::from(report.task));
    reply.line(" edition ", report.edition);
    reports.put(slot, report);
}

/// `report REPORT TASK EDITION TREE`
pub fn write_report(
    alloc: Global,
    view: &View,
    reports: &mut Slots<Report>,
    reply: &mut Reply,
    words: &mut Words<'_>,
) -> Result<(), Refusal> {
    let slot = name(words)?;
    let task = short_number(words)?;
    let edition = number(words)?;
    let tree = read_tree(alloc, view, words)?;
    let report = Report {
        task,
        edition,
        tree,
    };
    keep_report(reports, reply, slot, report);
    Ok(())
}

/// `show REPORT`
pub fn show(
    alloc: Global,
    view: &View,
    reports: &Slots<Report>,
    reply: &mut Reply,
    words: &mut Words<'_>,
) -> Result<(), Refusal> {
    let report = reports.get(name(words)?)?;
    reply.text("tree");
    put_tree(alloc, reply, view, &report.tree)?;
    reply.end();
    Ok(())
}

/// `hand_in REPORT`
pub fn hand_in(
    alloc: Global,
    book: &mut Book,
    reports: &Slots<Report>,
    reply: &mut Reply,
    words: &mut Words<'_>,
) -> Result<(), Refusal> {
    let report = copied(alloc, reports, name(words)?)?;
    say_applied(reply, &book.hand_in(report)?);
    Ok(())
}

/// A copy of the report that is kept under the name.
pub fn copied(alloc: Global, reports: &Slots<Report>, slot: Name) -> Result<Report, Refusal> {
    let report = reports.get(slot)?;
    let tree = copy_of(alloc, &report.tree)?;
    Ok(Report {
        task: report.task,
        edition: report.edition,
        tree,
    })
}

/// Says what a report changed.
pub fn say_applied(reply: &mut Reply, applied: &Applied) {
    reply.field("applied ", applied.place);
    reply.field(" listed ", applied.listed);
    reply.field(" opened ", applied.opened);
    reply.field(" first ", applied.first);
    reply.text(if applied.late { " late\n" } else { "\n" });
}
