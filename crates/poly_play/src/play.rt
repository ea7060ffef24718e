//! A script's book, what the script keeps, and the verbs of its lines.

use crate::kept::Kept;
use crate::reply::Reply;
use crate::words::Words;
use crate::{changes, events, families, guards, questions, quiets, reports, tasks, views};
use poly_book::Book;
use poly_grid::Refusal;
use poly_text::puzzle_of;
use std::alloc::Global;

/// Plays the lines of a script.
#[derive(Drop)]
pub struct Play {
    alloc: Global,
    /// Whether a line is played again if it runs out of memory.
    again: bool,
    /// The answer to the last line.
    pub reply: Reply,
    /// The book, if one was begun.
    book: Option<Book>,
    kept: Kept,
}

impl Play {
    /// A player without a book.
    pub fn new(alloc: Global, again: bool) -> Play {
        Play {
            alloc,
            again,
            reply: Reply::new(alloc),
            book: None,
            kept: Kept::new(alloc),
        }
    }

    /// Plays the line and puts its answer into `reply`. A line that can't be read is refused as a session's is, with
    /// `BadCommand` for instance.
    pub fn run(&mut self, line: &str) {
        let mut played = self.play(line);
        if self.again && played.err() == Some(Refusal::Memory) {
            self.reply.clear();
            played = self.play(line);
        }
        if let Err(refusal) = played {
            self.reply.clear();
            self.reply.refusal(refusal);
        }
    }

    fn play(&mut self, line: &str) -> Result<(), Refusal> {
        if line.starts_with('{') {
            return self.begin(line);
        }
        match line.split_once(' ') {
            Some(("still_holds", slot)) => self.run_held(slot),
            _ if line == "run" => self.run_events(),
            _ => self.play_here(line),
        }
    }

    fn run_held(&mut self, slot: &str) -> Result<(), Refusal> {
        events::run_held(
            self.alloc,
            &mut self.book,
            &mut self.kept,
            &mut self.reply,
            slot,
        )
    }

    fn run_events(&mut self) -> Result<(), Refusal> {
        events::run_events(self.alloc, &mut self.book, &mut self.kept, &mut self.reply)
    }

    fn play_here(&mut self, line: &str) -> Result<(), Refusal> {
        match &mut self.book {
            Some(book) => play_verb(self.alloc, book, &mut self.kept, &mut self.reply, line),
            None => Err(Refusal::BadCommand),
        }
    }

    fn begin(&mut self, line: &str) -> Result<(), Refusal> {
        let book = begun(self.alloc, line)?;
        self.keep(book);
        Ok(())
    }

    fn keep(&mut self, book: Book) {
        self.book = Some(book);
        self.reply.text("ok 0\n");
    }
}

fn begun(alloc: Global, line: &str) -> Result<Book, Refusal> {
    let design = puzzle_of(alloc, line.as_bytes())?;
    Book::begin(alloc, design)
}

fn play_verb(
    alloc: Global,
    book: &mut Book,
    kept: &mut Kept,
    reply: &mut Reply,
    line: &str,
) -> Result<(), Refusal> {
    let mut words = line.split_whitespace();
    let verb = words.next().unwrap_or("");
    match verb {
        "undo" => changes::undo(book, reply),
        "redo" => changes::redo(book, reply),
        "settle" => changes::settle(book, reply, &mut words),
        "hand_in" => reports::hand_in(alloc, book, &kept.reports, reply, &mut words),
        "event" => {
            let grid = book.design().grid();
            events::add_event(alloc, grid, &mut kept.events, reply, after_verb(line))
        }
        "browse" => questions::browse_listed(alloc, book, reply, line),
        "guards" => guards::say_guards(alloc, book.design(), reply, after_verb(line)),
        _ => play_kept(alloc, book, kept, reply, line, verb, &mut words),
    }
}

fn after_verb(line: &str) -> &str {
    match line.split_once(' ') {
        Some((_, rest)) => rest,
        None => "",
    }
}

// Plays a verb that keeps something, or uses what is kept.
fn play_kept(
    alloc: Global,
    book: &mut Book,
    kept: &mut Kept,
    reply: &mut Reply,
    line: &str,
    verb: &str,
    words: &mut Words<'_>,
) -> Result<(), Refusal> {
    match verb {
        "take" => tasks::take(book, &mut kept.jobs, reply, words),
        "explore" => tasks::explore_job(alloc, kept, reply, words),
        "report" => reports::write_report(alloc, book.view(), &mut kept.reports, reply, words),
        "quiet" => quiets::quiet(book, &mut kept.quiets, reply, words),
        "vouch" => quiets::vouch(book, &kept.quiets, reply, words),
        "list" => quiets::list(&kept.quiets, reply, words),
        "classes" => quiets::count_classes(alloc, &kept.quiets, reply, words),
        "show" => reports::show(alloc, book.view(), &kept.reports, reply, words),
        "holds" => families::does_hold(alloc, book.view(), &kept.reports, reply, words),
        "leaves" => families::say_leaves(alloc, book.view(), &kept.reports, reply, words),
        "cut" => families::cut(alloc, book.view(), &kept.reports, reply, words),
        _ => play_read(alloc, book, reply, line, verb, words),
    }
}

// Plays a verb that only reads the book.
fn play_read(
    alloc: Global,
    book: &mut Book,
    reply: &mut Reply,
    line: &str,
    verb: &str,
    words: &mut Words<'_>,
) -> Result<(), Refusal> {
    match verb {
        "" => {}
        "numbers" => changes::numbers(book, reply),
        "listed" => quiets::listed(book, reply),
        "next" => changes::next(book, reply, words)?,
        "pending" => tasks::pending(book, reply)?,
        "places" => views::places(book.design(), reply, words)?,
        "count_places" => views::count_places(book.design(), reply)?,
        "pinned" => views::pinned(book.design(), reply, words)?,
        _ => return play_view(alloc, book, reply, line, verb, words),
    }
    Ok(())
}

// Plays a verb on the book's view. Any other line is an edit.
fn play_view(
    alloc: Global,
    book: &mut Book,
    reply: &mut Reply,
    line: &str,
    verb: &str,
    words: &mut Words<'_>,
) -> Result<(), Refusal> {
    let view = book.view();
    match verb {
        "live" => views::live(view, reply),
        "pins" => views::pins(view, reply),
        "bounds" => views::bounds(view, reply, words)?,
        "covers" => views::covers(alloc, view, reply, words)?,
        "conflict" => views::conflicts(alloc, view, reply, words)?,
        "is_tiling" => views::is_tiling(alloc, view, reply, words)?,
        "hopeless" => families::is_hopeless(alloc, view, reply, words)?,
        "search" => families::search(alloc, view, reply, words)?,
        "search_list" => families::search_list(alloc, view, reply, words)?,
        "lister" => families::lister(alloc, view, reply)?,
        "lister_list" => families::lister_list(alloc, view, reply)?,
        _ => return changes::edit(alloc, book, reply, line),
    }
    Ok(())
}
