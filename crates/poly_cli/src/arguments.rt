//! The arguments of the program.

ghost use Rattle.std.specs.Prelude.{◌≤◌, IfOk, IfSome};

use clap::{Arg, ArgAction, Command, Error, value_parser};
use poly_crew::{MOST_TURNS, MOST_WORKERS};
use std::alloc::Global;

const ABOUT: &str =
    "Finds every tiling of a polyomino or polyhex puzzle, and keeps them while the puzzle changes.

Standard input has the puzzle line and then one command per line; standard output has the replies.";

const EXAMPLE: &str = "Example: two dominoes on a board of two by two
  {\"format\":1,\"grid\":\"square\",\"board\":[\"##\",\"##\"],\"pieces\":[{\"name\":\"A\",\"cells\":[[0,0],[1,0]]},{\"name\":\"B\",\"cells\":[[0,0],[1,0]]}]}
  count

Commands (a CELL is x,y):
  add NAME required|optional on|off CELL..   adds a piece; on: it may be turned over
  drop NAME                                  drops a piece
  need NAME required|optional                the piece is used exactly once, or at most once
  copies NAME LEAST MOST                     the piece is used LEAST to MOST times, 0 to 16
  mirror NAME on|off                         whether the piece may be turned over
  cell CELL required|optional|blocked        the cell must be covered, may be, or isn't part of the board
  pin NAME CELL..                            the piece lies on these cells
  unpin NAME                                 the piece may lie anywhere again
  forbid NAME CELL..                         the piece never lies on these cells
  allow NAME CELL..                          the piece may lie on these cells again
  undo                                       undoes the last change
  redo                                       redoes the change that was undone last
  count                                      the number of tilings
  list                                       each tiling, and their number
  browse +NAME=CELL/CELL.. -NAME=.. @CELL @NAME   how many tilings have, lack and cover these, and what they share
  classes                                    the number of tilings up to symmetry
  status                                     the edition, and what is listed and pending

Exit status: 0 the input ended, or help or the version was asked for; 1 the puzzle line was refused;
2 the arguments were refused; 3 a read or a write failed.

The guide is docs/GUIDE.md of the repository; docs/FORMATS.md has each line in full.";

const VERSION: &str = "1.13.10";

const NAME: &str = "polybench";

const TURNS: &str = "turns";

const WORKERS: &str = "workers";

const VERBOSE: &str = "verbose";

/// The most turns that settling may take each time, if the arguments don't say.
pub const DEFAULT_TURNS: u64 = 1_000_000;

/// What the arguments say.
#[derive(Debug, Clone, Copy, PartialEq, Eq)]
pub struct Options {
    /// The most turns that settling may take each time, from 1 to `MOST_TURNS`; with workers, the most for each of them.
    pub turns: u64,
    /// How many workers share a search, from 1 to `MOST_WORKERS`; `None` if one thread searches, without a crew.
    pub workers: Option<u8>,
    /// Whether standard error explains refusals and reports how far a search is.
    pub verbose: bool,
}

/// Reads the words of the command line, the program's own name first: `--turns N`, with N from 1 to
/// `MOST_TURNS`, `--workers N`, with N from 1 to `MOST_WORKERS`, `--verbose`, `--help` and `--version`. Whatever the first
/// word is, help and errors call the program `polybench`.
///
/// The error holds the text of the help, of the version or of a mistake, or says that memory ran out. `Error::print` writes
/// help and version to standard output and the rest to standard error; `Error::exit_code` is 0 for help and version and 2
/// for the rest.
pub fn read_arguments(alloc: Global, words: &[&str]) -> Result<Options, Error>
    ensures turns { IfOk result (λ o. (1 ≤ o.turns) × (o.turns ≤ MOST_TURNS)) }
    ensures workers { IfOk result (λ o. IfSome o.workers (λ n. (1 ≤ n) × (n ≤ MOST_WORKERS))) }
{
    let matches = command(alloc)?.try_get_matches_from(words)?;
    let turns = matches.get_one::<u64>(TURNS).unwrap_or(DEFAULT_TURNS);
    // The parsers have refused every number out of range, but their contracts don't guarantee it. `clamp` does.
    Ok(Options {
        turns: turns.clamp(1, MOST_TURNS),
        workers: match matches.get_one::<u8>(WORKERS) {
            Some(workers) => Some(workers.clamp(1, MOST_WORKERS as u8)),
            None => None,
        },
        verbose: matches.get_flag(VERBOSE),
    })
}

// The options of the command line.
fn command<'a>(alloc: Global) -> Result<Command<'a>, Error> {
    let turns = Arg::new(alloc, TURNS)
        .long(TURNS)
        .help("The most turns of a search, or of each worker: 1 to 1000000000, by default 1000000")
        .action(ArgAction::Set)
        .value_parser(value_parser!(u64).range(1..=MOST_TURNS as i64));
    let workers = Arg::new(alloc, WORKERS)
        .long(WORKERS)
        .help("How many workers share a search: 1 to 16; by default one thread searches")
        .action(ArgAction::Set)
        .value_parser(value_parser!(u8).range(1..=MOST_WORKERS as i64));
    let verbose = Arg::new(alloc, VERBOSE)
        .short('v')
        .long(VERBOSE)
        .help("Explains each refused line, and reports how far a long search is, on standard error")
        .action(ArgAction::SetTrue);
    // Without `bin_name`, help and errors would have the name of the file by which the program was started.
    let command = Command::new(alloc, NAME)
        .bin_name(NAME)?
        .version(VERSION)
        .about(ABOUT)
        .after_help(EXAMPLE)
        .arg(turns)?
        .arg(workers)?
        .arg(verbose)?;
    Ok(command)
}
