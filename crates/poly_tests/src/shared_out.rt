//! Compares a book with all tilings of its design, as the plain lister finds them.

use poly_atom::Atom;
use poly_book::{Book, Job, Quiet, Which};
use poly_grid::Refusal;
use poly_tiling::{Tiling, View, list_tilings};
use std::alloc::Global;

fn meets(view: &View, numbers: &[u32], atom: &Atom) -> bool {
    match atom {
        Atom::Has(p) => numbers.contains(p),
        Atom::Lacks(p) => !numbers.contains(p),
        Atom::AtLeast(item, n) => view.count(numbers, item) >= *n as usize,
        Atom::AtMost(item, n) => view.count(numbers, item) <= *n as usize,
    }
}

fn meets_all(view: &View, numbers: &[u32], atoms: &[Atom]) -> bool {
    for atom in atoms {
        if !meets(view, numbers, atom) {
            return false;
        }
    }
    true
}

// The pending tasks, in the order of their numbers.
fn pending(alloc: Global, book: &Book) -> Result<Vec<Job>, Refusal> {
    let mut jobs = Vec::new(alloc);
    let mut from = 0;
    for _ in 0..book.numbers().pending {
        let Some(number) = book.next(from) else {
            break;
        };
        if let Some(job) = book.take(Which::Task(number))? {
            jobs.push(job)?;
        }
        from = number.saturating_add(1);
    }
    Ok(jobs)
}

// Whether the tiling is listed once and meets the atoms of no task, or is not listed and meets those of exactly one.
fn is_in_one_place(view: &View, listed: &[Tiling], jobs: &[Job], numbers: &[u32]) -> bool {
    let mut places = 0u64;
    for tiling in listed {
        if tiling.numbers() == numbers {
            places = places.saturating_add(1);
        }
    }
    for job in jobs {
        if meets_all(view, numbers, &job.atoms) {
            places = places.saturating_add(1);
        }
    }
    places == 1
}

// Whether `is_in_one_place` is true for each of the tilings.
fn are_in_one_place(view: &View, listed: &[Tiling], jobs: &[Job], tilings: &[Tiling]) -> bool {
    for tiling in tilings {
        if !is_in_one_place(view, listed, jobs, tiling.numbers()) {
            return false;
        }
    }
    true
}

fn are_tilings(view: &View, listed: &[Tiling]) -> bool {
    for tiling in listed {
        if !view.is_tiling(tiling.numbers()) {
            return false;
        }
    }
    true
}

/// Whether each tiling of the design is listed once and meets the atoms of no pending task, or is not listed and meets those
/// of exactly one; and whether nothing else is listed.
pub(crate) fn is_shared_out(alloc: Global, book: &Book) -> Result<bool, Refusal> {
    let jobs = pending(alloc, book)?;
    let tilings = list_tilings(alloc, book.view())?;
    let listed = book.catalogue().all();
    Ok(
        jobs.len() as u64 == book.numbers().pending
            && are_tilings(book.view(), listed)
            && are_in_one_place(book.view(), listed, &jobs, &tilings),
    )
}

/// All tilings of the book, once it is settled.
pub(crate) fn settled(book: &mut Book) -> Result<Quiet, Refusal> {
    let _ = book.settle(100_000, 8)?;
    book.quiet()
}

fn count_tilings(alloc: Global, view: &View) -> Result<usize, Refusal> {
    let all = list_tilings(alloc, view)?;
    Ok(all.len())
}

// Whether there are as many tilings as the plain lister finds, and the book vouches for them.
fn has_all(alloc: Global, book: &Book, quiet: &Quiet) -> Result<bool, Refusal> {
    let count = count_tilings(alloc, book.view())?;
    let vouched = book.vouch(quiet)?;
    Ok(vouched && quiet.tilings().len() == count)
}

/// Settles the book. Returns whether it then has as many tilings as the plain lister finds, and vouches for them.
pub(crate) fn has_all_settled(alloc: Global, book: &mut Book) -> Result<bool, Refusal> {
    let quiet = settled(book)?;
    has_all(alloc, book, &quiet)
}
