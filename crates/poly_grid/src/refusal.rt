//! Why a call was refused: one type for all crates, so that a refusal keeps its number and its name on the
//! way from the layer that refuses to the line that is printed.

ghost use Rattle.std.specs.Prelude.{◌≡◌};
ghost use Rattle.poly_grid.specs.Refusal.{code_of, name_of};
ghost use Rattle.poly_grid.specs.declared.refusal.Refusal.TheVariants.{Memory};

use std::alloc::{AllocError, AllocFailed};
use thiserror::Error;

/// Why a call was refused. A refusal is displayed as the text in the `error` attribute of its variant. It tells whoever typed the
/// refused line what it means and what to do. docs/GUIDE.md has the same text for each refusal that a session answers.
#[derive(Clone, Copy, Debug, PartialEq, Eq, Error)]
pub enum Refusal {
    /// The puzzle line is not valid JSON, or is nested more than 127 deep.
    #[error("The puzzle line isn't valid JSON. Check brackets, commas and quotes; it must be one line.")]
    BadJson,
    /// The puzzle line is not an object; or a key of the line or of a piece is missing though it is required, is
    /// unknown, or has a value of the wrong kind; or a piece's `need`, `least` or `most` is not valid.
    #[error("A key is missing, unknown, or has a value of the wrong kind. Format 1 has `need`; format 2 has `least` and `most` instead.")]
    BadField,
    /// The format of the puzzle line is neither 1 nor 2.
    #[error("`format` must be 1 or 2.")]
    BadFormat,
    /// The grid of the puzzle line is neither `square` nor `hex`.
    #[error("`grid` must be `\"square\"` or `\"hex\"`.")]
    BadGrid,
    /// The board has over 64 rows, a row of over 64 characters, or a character other than `#`, `+` and `.`.
    #[error("A row has a character other than `#`, `+` and `.`, or there are over 64 rows or columns.")]
    BadBoard,
    /// The name is not 1 to 16 characters of `A-Z a-z 0-9 _`.
    #[error("A name must have 1 to 16 characters of `A-Z a-z 0-9 _`.")]
    BadName,
    /// There is no cell, there are over 16 cells, a cell is repeated, the cells of a piece are not connected, or a
    /// shape belongs to the other grid.
    #[error("A piece must have 1 to 16 different cells that are connected on the grid.")]
    BadShape,
    /// A piece of that name exists already.
    #[error("Another piece has that name. Choose another name, or `drop` the piece first.")]
    NameTaken,
    /// No piece has that name.
    #[error("No piece has that name. Names are case-sensitive.")]
    NoSuchPiece,
    /// A column or a row is outside 0 to 63.
    #[error("Coordinates go from 0 to 63.")]
    BadCell,
    /// There would be over 256 unblocked cells.
    #[error("A board has at most 256 cells that aren't blocked. Block some first.")]
    TooManyCells,
    /// There would be over 64 pieces.
    #[error("A design has at most 64 pieces. For equal pieces use `copies`.")]
    TooManyPieces,
    /// There would be over 20,000 placements.
    #[error("A design has at most 20,000 placements. Forbid some, block cells, or turn `mirror` off.")]
    TooManyPlacements,
    /// The piece on these cells is not a placement of the design.
    #[error("The piece can't lie there: a cell is blocked, the cells have another shape or are a mirror image that isn't allowed, or the placement is forbidden.")]
    NotAPlacement,
    /// The edit would change nothing.
    #[error("The edit would change nothing.")]
    NoChange,
    /// No step can be undone.
    #[error("No change is left to undo. The last 256 changes can be undone.")]
    NothingToUndo,
    /// No step can be redone.
    #[error("No change is left to redo. A new edit discards what could be redone.")]
    NothingToRedo,
    /// There would be over 1,000,000 listed tilings.
    #[error("There are over 1,000,000 tilings. Pin a piece or require a cell.")]
    CatalogueFull,
    /// The line is not a command; or a word of it is malformed in a part that isn't a name; or the first number of
    /// `copies` is above the second, or the second is over 16.
    #[error("The line isn't a command. Check the first word, the number of words, the keywords, the form of cells (`3,1`), and that the numbers of `copies` are at most 16, the smaller one first.")]
    BadCommand,
    /// The line has over 65,536 bytes.
    #[error("A line has at most 65,536 bytes.")]
    LineTooLong,
    /// The search turns that the caller allowed are used up, and work is left. A search turn searches one task; it isn't a
    /// turn of a grid.
    #[error("The search used up its turns. Ask again to continue, or start the program with a larger `--turns N`.")]
    Unfinished,
    /// An allocation failed.
    #[error("The session has used the memory that it may use, or the system has no more. What was known before is still known. Give it more (`POLYBENCH_MEMORY=8G ./polybench`), or ask for less: pin a piece, or require a cell.")]
    Memory,
    /// No task with that number is pending.
    #[error("No task with that number is pending.")]
    Gone,
    /// The report's tree does not hold for its task.
    #[error("The report's tree doesn't hold for its task.")]
    DoesNotHold,
    /// The report's tree has over 4,096 nodes or is over 512 levels deep.
    #[error("The report's tree has over 4,096 nodes or is over 512 levels deep.")]
    TooLarge,
    /// A counter, such as the number of the next task, has reached its last value.
    #[error("A counter is used up, such as the 100,000 changes of a session. Start a new session.")]
    Spent,
    /// The passes or receipts of a desk don't agree with its book.
    #[error("Only with `--workers`: what the workers did can't be settled up. This is a fault of the program; begin a new session without `--workers`.")]
    Unsettled {
        /// What the caller had seen, or handed in.
        seen: u64,
        /// What was found instead.
        found: u64,
    },
    /// The change or its inverse has over 20,000 guards.
    #[error("The edit changes too much at once. Make the change in smaller steps.")]
    TooWide,
    /// Tasks are pending, so some tilings may not be listed yet.
    #[error("{pending} tasks are pending, so some tilings may not be listed yet.")]
    Busy {
        /// How many tasks are pending, at least one.
        pending: u64,
    },
}

impl Refusal {
    /// The number of the refusal, 1 to 29, in the order of the variants.
    pub fn code(self) -> u8
        ensures { result ≡ code_of self }
    {
        match self {
            Refusal::BadJson => 1,
            Refusal::BadField => 2,
            Refusal::BadFormat => 3,
            Refusal::BadGrid => 4,
            Refusal::BadBoard => 5,
            Refusal::BadName => 6,
            Refusal::BadShape => 7,
            Refusal::NameTaken => 8,
            Refusal::NoSuchPiece => 9,
            Refusal::BadCell => 10,
            Refusal::TooManyCells => 11,
            Refusal::TooManyPieces => 12,
            Refusal::TooManyPlacements => 13,
            Refusal::NotAPlacement => 14,
            Refusal::NoChange => 15,
            Refusal::NothingToUndo => 16,
            Refusal::NothingToRedo => 17,
            Refusal::CatalogueFull => 18,
            Refusal::BadCommand => 19,
            Refusal::LineTooLong => 20,
            Refusal::Unfinished => 21,
            Refusal::Memory => 22,
            Refusal::Gone => 23,
            Refusal::DoesNotHold => 24,
            Refusal::TooLarge => 25,
            Refusal::Spent => 26,
            Refusal::Unsettled { .. } => 27,
            Refusal::TooWide => 28,
            Refusal::Busy { .. } => 29,
        }
    }

    /// The name of the refusal, which is the name of its variant.
    pub fn name(self) -> &'static str
        ensures { result.now ≡ name_of self }
    {
        match self {
            Refusal::BadJson => "BadJson",
            Refusal::BadField => "BadField",
            Refusal::BadFormat => "BadFormat",
            Refusal::BadGrid => "BadGrid",
            Refusal::BadBoard => "BadBoard",
            Refusal::BadName => "BadName",
            Refusal::BadShape => "BadShape",
            Refusal::NameTaken => "NameTaken",
            Refusal::NoSuchPiece => "NoSuchPiece",
            Refusal::BadCell => "BadCell",
            Refusal::TooManyCells => "TooManyCells",
            Refusal::TooManyPieces => "TooManyPieces",
            Refusal::TooManyPlacements => "TooManyPlacements",
            Refusal::NotAPlacement => "NotAPlacement",
            Refusal::NoChange => "NoChange",
            Refusal::NothingToUndo => "NothingToUndo",
            Refusal::NothingToRedo => "NothingToRedo",
            Refusal::CatalogueFull => "CatalogueFull",
            Refusal::BadCommand => "BadCommand",
            Refusal::LineTooLong => "LineTooLong",
            Refusal::Unfinished => "Unfinished",
            Refusal::Memory => "Memory",
            Refusal::Gone => "Gone",
            Refusal::DoesNotHold => "DoesNotHold",
            Refusal::TooLarge => "TooLarge",
            Refusal::Spent => "Spent",
            Refusal::Unsettled { .. } => "Unsettled",
            Refusal::TooWide => "TooWide",
            Refusal::Busy { .. } => "Busy",
        }
    }
}

/// `?` turns a failed allocation into `Refusal::Memory`.
impl From<AllocError> for Refusal {
    ghost from_gives = { λ _ e. e ≡ Memory };

    fn from(_e: AllocError) -> Refusal {
        Refusal::Memory
    }
}

/// `?` turns a failed allocation into `Refusal::Memory`, and drops what was to be added.
impl<T: Drop> From<AllocFailed<T>> for Refusal {
    ghost from_gives = { λ _ e. e ≡ Memory };

    fn from(_e: AllocFailed<T>) -> Refusal {
        Refusal::Memory
    }
}
