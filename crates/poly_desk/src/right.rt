//! Whether a receipt is right: whether the book has, at the receipt's place, what the receipt says.
ghost use Rattle.std.specs.Prelude.{◌≡◌, ◌↔◌, IsTrue};
ghost use Rattle.poly_book.specs.declared.step.Ending.{Ending};
ghost use Rattle.poly_desk.specs.Receipts.{IsAt, IsRightReceipt, entries, place_of};

use crate::receipt::Receipt;
use poly_book::{Book, Ending, Kind, Step};

impl Receipt {
    /// The receipt's place, counted from 1: that of its step among the steps of the book, or of its ending among the endings.
    pub fn place(&self) -> u64
        ensures { result ≡ place_of self.now }
    {
        match self {
            Receipt::Changed { place, .. } => *place,
            Receipt::Cut { place, .. } => *place,
        }
    }

    /// For a change, how many steps the book has; for a cut, how many endings.
    pub(crate) fn entries(&self, book: &Book) -> u64
        ensures { result ≡ entries book.now self.now }
    {
        let numbers = book.numbers();
        match self {
            Receipt::Changed { .. } => numbers.edition,
            Receipt::Cut { .. } => numbers.endings,
        }
    }

    /// Whether the book has, at the receipt's place, what the receipt says.
    pub(crate) fn is_right(&self, book: &Book) -> bool
        ensures { IsTrue result ↔ IsRightReceipt book.now self.now }
    {
        match self {
            Receipt::Changed { place, step } => is_step_at(book.steps(), *place, step),
            Receipt::Cut { place, task } => is_cut_at(book.endings(), *place, *task),
        }
    }
}

fn is_step_at(steps: &[Step], place: u64, step: &Step) -> bool
    ensures { IsTrue result ↔ IsAt steps.now place step.now }
{
    if place == 0 || place > steps.len() as u64 {
        return false;
    }
    is_same_step(&steps[(place - 1) as usize], step)
}

fn is_cut_at(endings: &[Ending], place: u64, task: u32) -> bool
    ensures { IsTrue result ↔ IsAt endings.now place (Ending.Cut task) }
{
    if place == 0 || place > endings.len() as u64 {
        return false;
    }
    is_cut(endings[(place - 1) as usize], task)
}

fn is_same_step(one: &Step, other: &Step) -> bool
    ensures { IsTrue result ↔ (one.now ≡ other.now) }
{
    is_same_kind(one.kind, other.kind)
        && one.change.is_same(&other.change)
        && one.pending == other.pending
        && one.shelved == other.shelved
}

fn is_same_kind(one: Kind, other: Kind) -> bool
    ensures { IsTrue result ↔ (one ≡ other) }
{
    one == other
}

fn is_cut(ending: Ending, of: u32) -> bool
    ensures { IsTrue result ↔ (ending ≡ Ending.Cut of) }
{
    match ending {
        Ending::Cut { task } => task == of,
        Ending::Hopeless { .. } => false,
    }
}
