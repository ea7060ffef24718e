//! Explains refusals while replies are written, by the texts that poly_grid gives them.
ghost use Rattle.std.specs.Prelude.{◌≡◌, IfSome};
ghost use Rattle.poly_text.specs.Replies.{refusal_text};

use poly_grid::Refusal;
use poly_text::refusal_line;
use std::io;
use std::io::Write;

/// The refusals that a session answers.
const ANSWERED: [Refusal; 25] = [
    Refusal::BadJson,
    Refusal::BadField,
    Refusal::BadFormat,
    Refusal::BadGrid,
    Refusal::BadBoard,
    Refusal::BadName,
    Refusal::BadShape,
    Refusal::NameTaken,
    Refusal::NoSuchPiece,
    Refusal::BadCell,
    Refusal::TooManyCells,
    Refusal::TooManyPieces,
    Refusal::TooManyPlacements,
    Refusal::NotAPlacement,
    Refusal::NoChange,
    Refusal::NothingToUndo,
    Refusal::NothingToRedo,
    Refusal::CatalogueFull,
    Refusal::BadCommand,
    Refusal::LineTooLong,
    Refusal::Unfinished,
    Refusal::Memory,
    Refusal::Spent,
    Refusal::Unsettled { seen: 0, found: 0 },
    Refusal::TooWide,
];

/// A writer that passes all bytes on to the writer of the replies. If it was given a refusal in one piece, as a session gives
/// it, it writes to another writer what the refusal means, once the refusal is written and flushed. It goes on if that other
/// writer fails.
#[derive(Drop)]
pub struct Explained<W, T> {
    /// Takes the replies.
    pub replies: W,
    /// Takes the explanations.
    pub errors: T,
    /// The refusal that isn't flushed yet.
    refusal: Option<Refusal>,
}

impl<W: Write, T: Write> Explained<W, T> {
    /// Returns a writer that passes all bytes on to `replies`, and explains refusals to `errors`.
    pub fn new(replies: W, errors: T) -> Explained<W, T>
        ensures { result.replies ≡ replies }
    {
        Explained {
            replies,
            errors,
            refusal: None,
        }
    }
}

impl<W: Write, T: Write> Write for Explained<W, T> {
    ghost contents = { λ e. W.contents e.replies };

    fn write(&mut self, buf: &[u8]) -> io::Result<usize> {
        match self.replies.write(buf) {
            Ok(count) => {
                if let Some(refusal) = refusal_of(buf) {
                    self.refusal = Some(refusal);
                }
                Ok(count)
            }
            Err(error) => Err(error),
        }
    }

    fn flush(&mut self) -> io::Result<()> {
        match self.replies.flush() {
            Ok(()) => {
                if let Some(refusal) = self.refusal.take() {
                    explain(&mut self.errors, refusal);
                }
                Ok(())
            }
            Err(error) => Err(error),
        }
    }
}

/// Writes what the refusal means. Ignores a failure of the writer.
pub fn explain<T: Write>(errors: &mut T, refusal: Refusal) {
    let _ = writeln!(errors, "polybench: {refusal}");
}

// The refusal whose line this is, if it is the line of a refusal.
fn refusal_of(line: &[u8]) -> Option<Refusal>
    ensures { IfSome result (λ r. line.now ≡ refusal_text r) }
{
    if !line.starts_with(b"no ") {
        return None;
    }
    for refusal in ANSWERED {
        if line == refusal_line(refusal).as_bytes() {
            return Some(refusal);
        }
    }
    None
}
