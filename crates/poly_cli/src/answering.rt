//! Answers to the lines after the puzzle line.
//!
//! Putting all tilings in order takes about as long as answering a question about them, so a session keeps the tilings
//! from one such question to the next. Before an edit, an undo or a redo it drops them, so their memory is free while the
//! engine works.
ghost use Rattle.std.specs.Prelude.{◌≡◌, ◌⊎◌, ◌≤◌, ℕ, List, None, IfErr, IfOk, option_map, vec_capacity};
ghost use Rattle.poly_text.specs.Replies.{refusal_text, step_text};
ghost use Rattle.poly_cli.specs.Current.{IsCurrent};
ghost use Rattle.poly_cli.specs.Questions.{AnswersStatus};
ghost use Rattle.poly_cli.specs.Runs.{Writes};
ghost use Rattle.poly_cli.specs.Slow.{IsRefusal, Responds, Slow};
ghost use Rattle.poly_cli.specs.declared.answering.TheConstants.{MOST_PLACED};

use crate::engine::Engine;
use crate::questions::Survey;
use crate::writing::{Fault, write_whole};
use poly_book::Quiet;
use poly_design::{MAX_CELLS, Placement};
use poly_grid::{Grid, Refusal};
use poly_text::{Command, ReplyLine, asked, refusal_line};
use std::alloc::Global;
use std::io::Write;

// The most placements of a tiling: each covers at least one cell of the design, and no two cover the same cell.
const MOST_PLACED: usize = MAX_CELLS;

/// Answers lines with an engine. It allocates the memory for a reply line and for the placements of a tiling once, so no reply
/// runs out of memory halfway.
#[derive(Drop)]
pub struct Answerer {
    /// Allocates commands and answers.
    pub(crate) alloc: Global,
    /// The reply line that is written next.
    pub(crate) reply: ReplyLine,
    /// Room for the placements of one tiling.
    pub(crate) placements: Vec<Placement>,
    /// All tilings of the design, if the engine returned them for a `list`, `browse` or `classes` after the last edit, undo or
    /// redo, accepted or refused.
    pub(crate) kept: Option<Quiet>,
    ghost room: { MOST_PLACED ≤ vec_capacity placements },
}

impl Answerer {
    /// Returns an answerer that keeps no tilings yet. Fails only with `Memory`.
    pub fn new(alloc: Global) -> Result<Answerer, Refusal>
        ensures fresh { IfOk result (λ a. a.kept ≡ None) }
        ensures why { IfErr result (λ e. e ≡ Refusal.Memory) }
    {
        Ok(Answerer {
            alloc,
            reply: ReplyLine::new(alloc)?,
            placements: Vec::with_capacity(alloc, MOST_PLACED)?,
            kept: None,
        })
    }

    /// Answers a line of a session; `None` is a line that is too long. `grid` is the grid of the session's design. Writes the
    /// whole answer and flushes it. Fails only with `Write`, if the writer fails.
    ///
    /// If tilings are kept, they must be those of the present design. This also holds after the call.
    pub fn respond<E: Engine, W: Write>(
        &mut self,
        grid: Grid,
        engine: &mut E,
        line: Option<&[u8]>,
        writer: &mut W,
    ) -> Result<(), Fault>
        requires ready { E.ready engine.old }
        requires kept { IsCurrent self.old.kept (E.state engine.old) }
        requires grid { grid ≡ (E.state engine.old).design.grid }
        ensures ready { E.ready engine.new }
        ensures kept { IsCurrent self.new.kept (E.state engine.new) }
        ensures says { (out : List ℕ) × Slow E.failures (E.state engine.old) (option_map (λ l. l.now) line.entry) out (E.state engine.new) × Writes result (W.contents writer.old) (W.contents writer.new) out }
    {
        let Some(text) = line else {
            return refuse(Refusal::LineTooLong, writer);
        };
        match asked(self.alloc, grid, text) {
            Ok(None) => Ok(()),
            Ok(Some(command)) => self.answer(engine, command, writer),
            Err(refusal) => refuse(refusal, writer),
        }
    }

    fn answer<E: Engine, W: Write>(
        &mut self,
        engine: &mut E,
        command: Command,
        writer: &mut W,
    ) -> Result<(), Fault>
        requires ready { E.ready engine.old }
        requires kept { IsCurrent self.old.kept (E.state engine.old) }
        ensures ready { E.ready engine.new }
        ensures kept { IsCurrent self.new.kept (E.state engine.new) }
        ensures says { (out : List ℕ) × (Responds E.failures command (E.state engine.old) out (E.state engine.new) ⊎ IsRefusal Refusal.Memory (E.state engine.old) out (E.state engine.new))
            × Writes result (W.contents writer.old) (W.contents writer.new) out }
    {
        match command {
            Command::Edit(edit) => {
                self.kept = None;
                let stepped = engine.edit(edit);
                self.step(stepped, writer)
            }
            Command::Undo => {
                self.kept = None;
                let stepped = engine.undo();
                self.step(stepped, writer)
            }
            Command::Redo => {
                self.kept = None;
                let stepped = engine.redo();
                self.step(stepped, writer)
            }
            Command::Status => self.status(engine, writer),
            Command::Count => self.count(engine, writer),
            Command::ListAll => self.survey(engine, Survey::List, writer),
            Command::Browse(question) => self.survey(engine, Survey::Browse(question), writer),
            Command::Classes => self.survey(engine, Survey::Classes, writer),
        }
    }

    // Writes the edition after a step, or its refusal.
    fn step<W: Write>(&mut self, stepped: Result<u64, Refusal>, writer: &mut W) -> Result<(), Fault>
        ensures says { Writes result (W.contents writer.old) (W.contents writer.new) (step_text stepped) }
        ensures kept { self.new.kept ≡ self.old.kept }
    {
        match stepped {
            Ok(edition) => {
                self.reply.ok(edition);
                write_whole(writer, self.reply.as_bytes())
            }
            Err(refusal) => refuse(refusal, writer),
        }
    }

    fn status<E: Engine, W: Write>(&mut self, engine: &E, writer: &mut W) -> Result<(), Fault>
        requires ready { E.ready engine.now }
        ensures says { (out : List ℕ) × AnswersStatus (E.state engine.now) out (E.state engine.now) × Writes result (W.contents writer.old) (W.contents writer.new) out }
        ensures kept { self.new.kept ≡ self.old.kept }
    {
        let numbers = engine.numbers();
        self.reply
            .status(numbers.edition, numbers.listed, numbers.pending);
        write_whole(writer, self.reply.as_bytes())
    }
}

/// Writes the refusal. Never allocates.
pub(crate) fn refuse<W: Write>(refusal: Refusal, writer: &mut W) -> Result<(), Fault>
    ensures { Writes result (W.contents writer.old) (W.contents writer.new) (refusal_text refusal) }
{
    write_whole(writer, refusal_line(refusal).as_bytes())
}
