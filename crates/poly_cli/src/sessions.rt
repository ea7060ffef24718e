//! A whole session: the puzzle line, the lines after it, and the replies to them.
ghost use Rattle.std.specs.Prelude.{◌≡◌, ◌<◌, ◌++◌, [], ℕ, List, None, IfOk, option_map};
ghost use Rattle.std.specs.Io.KnownBytes.{Consumes};
ghost use Rattle.poly_cli.specs.Buffered.{ahead, IsReady};
ghost use Rattle.poly_cli.specs.Runs.{Writes, limits_from};
ghost use Rattle.poly_cli.specs.Sessions.{Opens, SessionSays, opening_text, session_limits};

use crate::answering::Answerer;
use crate::engine::Engine;
use crate::lines::{Event, INPUT_LIMIT, LINE_LIMIT, Lines};
use crate::serving::serve;
use crate::writing::{Fault, write_whole};
use poly_grid::{Grid, Refusal};
use poly_text::{puzzle_of, refusal_line};
use std::alloc::Global;
use std::io::{Read, Write};

/// The most lines of an input. A further line is a read fault.
pub const LINE_COUNT: u64 = 1_000_000;

/// How a session ended if it had no fault.
#[derive(Debug, Drop, Clone, Copy, PartialEq, Eq)]
pub enum End {
    /// The input ended.
    Done,
    /// The puzzle line was refused, or memory ran out before a byte was read. Nothing after it was answered.
    Refused,
}

/// Runs a whole session: the first line gives the design with which the engine begins, and each later line is answered with
/// the engine. Each answer is written whole and flushed before the next line is read.
///
/// Returns `Done` at the end of the input, and `Refused` if the puzzle line is refused or memory runs out before a byte is
/// read. An engine that has failed before refuses every puzzle line that gives a design. Fails with `Read` if a read fails or
/// the input goes over `INPUT_LIMIT` or `LINE_COUNT`, and with `Write` if a write or a flush fails; lines read whole before a
/// read fault are answered.
pub fn session<R: Read, W: Write, E: Engine>(
    alloc: Global,
    reader: &mut R,
    writer: &mut W,
    engine: &mut E,
) -> Result<End, Fault>
    requires { E.ready engine.old }
    ensures ready { E.ready engine.new }
    ensures run { (taken : List ℕ) × Consumes (R.remaining reader.old) (R.remaining reader.new) taken
        × SessionSays E.failures (E.state engine.old).failed session_limits taken result (R.remaining reader.new) (W.contents writer.old) (W.contents writer.new) }
{
    match buffers(alloc) {
        Ok((mut lines, mut answerer)) => {
            run(
                alloc,
                LINE_COUNT,
                &mut lines,
                reader,
                writer,
                engine,
                &mut answerer,
            )
        }
        Err(_) => {
            write_whole(writer, refusal_line(Refusal::Memory).as_bytes())?;
            Ok(End::Refused)
        }
    }
}

// Allocates all memory for reading and writing. Fails only with `Memory`.
fn buffers(alloc: Global) -> Result<(Lines, Answerer), Refusal>
    ensures ready { IfOk result (λ b. IsReady b.0) }
    ensures limits { IfOk result (λ b. (b.0.limit ≡ LINE_LIMIT) × (b.0.left ≡ INPUT_LIMIT)) }
    ensures fresh { IfOk result (λ b. ahead b.0 ≡ []) }
    ensures none { IfOk result (λ b. b.1.kept ≡ None) }
{
    let lines = Lines::new(alloc, LINE_LIMIT, INPUT_LIMIT)?;
    let answerer = Answerer::new(alloc)?;
    Ok((lines, answerer))
}

// Opens a session with the first line and answers the lines after it: at most `most` lines, the first included.
fn run<R: Read, W: Write, E: Engine>(
    alloc: Global,
    most: u64,
    lines: &mut Lines,
    reader: &mut R,
    writer: &mut W,
    engine: &mut E,
    answerer: &mut Answerer,
) -> Result<End, Fault>
    requires some { 0 < most }
    requires buffer { IsReady lines.old }
    requires fresh { ahead lines.old ≡ [] }
    requires none { answerer.old.kept ≡ None }
    requires ready { E.ready engine.old }
    ensures ready { E.ready engine.new }
    ensures run { (taken : List ℕ) × Consumes (R.remaining reader.old) (R.remaining reader.new) taken
        × SessionSays E.failures (E.state engine.old).failed (limits_from most lines.old) taken result
        (R.remaining reader.new) (W.contents writer.old) (W.contents writer.new) }
{
    match lines.next_line(reader) {
        Event::Line => {
            let opened = open(alloc, lines.ended(), engine);
            answer_opening(opened, writer)?;
            match opened {
                Ok(grid) => {
                    serve(most - 1, grid, lines, reader, writer, engine, answerer)?;
                    Ok(End::Done)
                }
                Err(_) => Ok(End::Refused),
            }
        }
        Event::End => {
            let opened = open(alloc, lines.unended(), engine);
            answer_opening(opened, writer)?;
            match opened {
                Ok(_) => Ok(End::Done),
                Err(_) => Ok(End::Refused),
            }
        }
        Event::Fault => Err(Fault::Read),
    }
}

// Lets the engine begin with the design that the puzzle line gives, and returns the design's grid. `None` is a line that is
// too long.
fn open<E: Engine>(alloc: Global, line: Option<&[u8]>, engine: &mut E) -> Result<Grid, Refusal>
    requires { E.ready engine.old }
    ensures ready { E.ready engine.new }
    ensures opens { Opens (E.state engine.old).failed (option_map (λ l. l.now) line.entry) result (E.state engine.new) }
{
    let Some(text) = line else {
        return Err(Refusal::LineTooLong);
    };
    let design = puzzle_of(alloc, text)?;
    let grid = design.grid();
    engine.begin(design)?;
    Ok(grid)
}

fn answer_opening<W: Write>(opened: Result<Grid, Refusal>, writer: &mut W) -> Result<(), Fault>
    ensures { Writes result (W.contents writer.old) (W.contents writer.new) (opening_text opened) }
{
    match opened {
        Ok(_) => write_whole(writer, b"ok 0\n"),
        Err(refusal) => write_whole(writer, refusal_line(refusal).as_bytes()),
    }
}
