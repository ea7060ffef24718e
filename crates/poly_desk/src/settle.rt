//! Settling up a desk.
ghost use Rattle.std.specs.Prelude.{◌≡◌, IfErr, IfOk, OnOk, sum_by};
ghost use Rattle.poly_desk.specs.Floors.{Counts};
ghost use Rattle.poly_desk.specs.Receipts.{AreReceipts, all_of};
ghost use Rattle.poly_desk.specs.Settling.{IsMismatchOf, IsNotSettled};

use crate::desk::{Desk, NotSettled};
use crate::floor::Floor;
use crate::opening::Opening;
use crate::pass::Pass;
use crate::receipt::Receipt;
use crate::shares::check_shares;
use crate::tick::check_receipts;
use poly_book::Book;
use poly_grid::Refusal;
use std::sync::Mutex;
use std::sync::ledger::Ledger;

impl<C: Ledger, K: Ledger, O: Opening> Desk<C, K, O> {
    /// Returns the book if the passes made all changes and cuts since the desk began, each receipt is right, and no two
    /// receipts of one kind have the same place. Never allocates or waits.
    ///
    /// Fails only with `Unsettled`, and then hands everything back. The refusal names the first cause that applies:
    ///
    /// 1. the sum of the passes' changes (`seen`) isn't the total (`found`);
    /// 2. the sum of the passes' cuts (`seen`) isn't the total (`found`);
    /// 3. a receipt isn't right (`found` is how many steps or endings the book has), or an earlier receipt has the same kind
    ///    and the same place (`found` is 2); `seen` is the receipt's place.
    ///
    /// Sums saturate at 2^64 - 1.
    pub fn settle_up(
        self,
        passes: Vec<Pass<C, K, O>>,
        receipts: Vec<Vec<Receipt>>,
    ) -> Result<Book, NotSettled<C, K, O>>
        ensures ok { IfOk result (λ b. Counts O.design O.steps O.cuts b (sum_by (λ p. p.changes) passes.items) (sum_by (λ p. p.cuts) passes.items)) }
        ensures right { IfOk result (λ b. AreReceipts b (all_of receipts.items)) }
        ensures passes { IfErr result (λ n. n.passes.items ≡ passes.items) }
        ensures receipts { IfErr result (λ n. n.receipts.items ≡ receipts.items) }
        ensures why { IfErr result (λ n. IsNotSettled O.design O.steps O.cuts (sum_by (λ p. p.changes) passes.items) (sum_by (λ p. p.cuts) passes.items) (all_of receipts.items) n.why) }
    {
        let Desk { floor } = self;
        let mut floor = floor.into_inner();
        match floor.check_all(&passes, &receipts) {
            Ok(()) => Ok(floor.into_book()),
            Err(why) => {
                // The contract of this call guarantees what holds of every book.
                floor.book.whole();
                Err(NotSettled {
                    desk: Desk {
                        floor: Mutex::new(floor),
                    },
                    passes,
                    receipts,
                    why,
                })
            }
        }
    }
}

impl<C: Ledger, K: Ledger, O: Opening> Floor<C, K, O> {
    /// Succeeds if the passes made all changes and cuts of this floor's book, each receipt is right for it, and no two
    /// receipts of one kind have the same place. If not, the refusal names what doesn't fit this book.
    fn check_all(
        &mut self,
        passes: &[Pass<C, K, O>],
        receipts: &[Vec<Receipt>],
    ) -> Result<(), Refusal>
        ensures stays { self.new ≡ self.old }
        ensures ok { OnOk result (Counts O.design O.steps O.cuts self.new.book (sum_by (λ p. p.changes) passes.now) (sum_by (λ p. p.cuts) passes.now)) }
        ensures right { OnOk result (AreReceipts self.new.book (all_of receipts.now)) }
        ensures why { IfErr result (λ e. IsMismatchOf self.old.book O.design O.steps O.cuts (sum_by (λ p. p.changes) passes.now) (sum_by (λ p. p.cuts) passes.now) (all_of receipts.now) e) }
    {
        check_shares(passes, self.totals.changes, self.totals.cuts)?;
        self.marks.clear();
        check_receipts(&self.book, &mut self.marks, receipts)
    }

    fn into_book(self) -> Book
        ensures { result ≡ self.book }
    {
        let Floor { book, .. } = self;
        book
    }
}
