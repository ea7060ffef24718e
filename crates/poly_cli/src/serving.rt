//! Answers the lines of a reader one after another.
ghost use Rattle.std.specs.Prelude.{◌≡◌, ◌++◌, ℕ, List};
ghost use Rattle.std.specs.Io.KnownBytes.{Consumes};
ghost use Rattle.poly_cli.specs.Buffered.{ahead, IsReady};
ghost use Rattle.poly_cli.specs.Current.{IsCurrent};
ghost use Rattle.poly_cli.specs.Runs.{Serves, limits_from};
ghost use Rattle.poly_cli.specs.Slow.{Slow};

use crate::answering::Answerer;
use crate::engine::Engine;
use crate::lines::{Event, Lines};
use crate::writing::Fault;
use poly_grid::Grid;
use std::io::{Read, Write};

/// Answers the remaining lines of a session, at most `most` of them. `grid` is the grid of the session's design. Fails with
/// `Read` if the reader fails, if the input goes over its limit of bytes, or if more than `most` lines remain. Fails with
/// `Write` if the writer fails.
pub fn serve<R: Read, W: Write, E: Engine>(
    most: u64,
    grid: Grid,
    lines: &mut Lines,
    reader: &mut R,
    writer: &mut W,
    engine: &mut E,
    answerer: &mut Answerer,
) -> Result<(), Fault>
    requires buffer { IsReady lines.old }
    requires ready { E.ready engine.old }
    requires kept { IsCurrent answerer.old.kept (E.state engine.old) }
    requires grid { grid ≡ (E.state engine.old).design.grid }
    ensures ready { E.ready engine.new }
    ensures run { (taken : List ℕ) × Consumes (R.remaining reader.old) (R.remaining reader.new) taken
        × Serves (limits_from most lines.old) (Slow E.failures) (E.state engine.old) (ahead lines.old ++ taken) result
        (R.remaining reader.new) (W.contents writer.old) (W.contents writer.new) }
{
    for answered in 0..most {
        match lines.next_line(reader) {
            Event::Line => answerer.respond(grid, engine, lines.ended(), writer)?,
            Event::End => {
                if lines.is_empty() {
                    return Ok(());
                }
                return answerer.respond(grid, engine, lines.unended(), writer);
            }
            Event::Fault => return Err(Fault::Read),
        }
    }
    match lines.next_line(reader) {
        Event::End => {
            if lines.is_empty() {
                return Ok(());
            }
            Err(Fault::Read)
        }
        Event::Line => Err(Fault::Read),
        Event::Fault => Err(Fault::Read),
    }
}
