//! The totals of changes and cuts, and the shares of them that passes have. The ledgers keep each total equal to the sum
//! of all shares.
ghost use Rattle.std.specs.Prelude.{◌≡◌, ◌≤◌, ◌<◌, ◌+◌};
ghost use Rattle.poly_desk.specs.declared.ledgers.TheConstants.{PARTS};

use std::sync::ledger::{Blank, Book, Ledger, Share};

/// The most passes that a desk can make. A pass that is dropped still counts.
pub const MOST_PASSES: u64 = 10_000;

/// The number of parts of each ledger of a desk: one for each pass that the desk can make, and one that no pass ever has.
pub const PARTS: u64 = MOST_PASSES + 1;

/// How many changes and cuts all passes have made.
#[derive(Drop)]
pub(crate) struct Totals<C: Ledger, K: Ledger> {
    /// The changes of all passes.
    pub changes: u64,
    /// The cuts of all passes.
    pub cuts: u64,
    /// The ledger of changes.
    book_of_changes: Book<C>,
    /// The ledger of cuts.
    book_of_cuts: Book<K>,
    ghost changes_are: { book_of_changes.total ≡ changes },
    ghost cuts_are: { book_of_cuts.total ≡ cuts },
    ghost few_changes: { changes ≤ 4294967297 },
    ghost few_cuts: { cuts ≤ 4294967297 },
}

/// How many changes and cuts one pass has made.
#[derive(Drop)]
pub(crate) struct Shares<C: Ledger, K: Ledger> {
    /// The changes of the pass.
    pub changes: u64,
    /// The cuts of the pass.
    pub cuts: u64,
    /// The pass's share of the ledger of changes.
    share_of_changes: Share<C>,
    /// The pass's share of the ledger of cuts.
    share_of_cuts: Share<K>,
    ghost changes_are: { share_of_changes.amount ≡ changes },
    ghost cuts_are: { share_of_cuts.amount ≡ cuts },
    ghost changes_backed: { 0 < share_of_changes.parts },
    ghost cuts_backed: { 0 < share_of_cuts.parts },
}

/// The parts of both ledgers that no pass has.
#[derive(Drop)]
pub(crate) struct Spare<C: Ledger, K: Ledger> {
    /// How many passes were made.
    pub passes: u64,
    /// The share of the ledger of changes that is left. It has no changes.
    spare_changes: Share<C>,
    /// The share of the ledger of cuts that is left. It has no cuts.
    spare_cuts: Share<K>,
    ghost changes_left: { spare_changes.parts + passes ≡ PARTS },
    ghost cuts_left: { spare_cuts.parts + passes ≡ PARTS },
    ghost no_changes: { spare_changes.amount ≡ 0 },
    ghost no_cuts: { spare_cuts.amount ≡ 0 },
}

/// Opens both ledgers. Returns the totals, which are 0, and all parts of both ledgers, since there is no pass yet.
pub(crate) fn open<C: Ledger, K: Ledger>(changes: Blank, cuts: Blank) -> (Totals<C, K>, Spare<C, K>)
    requires changes { (changes.name ≡ C.name) × (changes.parts ≡ C.parts) × (changes.parts ≡ PARTS) }
    requires cuts { (cuts.name ≡ K.name) × (cuts.parts ≡ K.parts) × (cuts.parts ≡ PARTS) }
    ensures changes { result.0.changes ≡ 0 }
    ensures cuts { result.0.cuts ≡ 0 }
    ensures passes { result.1.passes ≡ 0 }
{
    let (book_of_changes, spare_changes) = changes.open::<C>();
    let (book_of_cuts, spare_cuts) = cuts.open::<K>();
    let totals = Totals {
        changes: 0,
        cuts: 0,
        book_of_changes,
        book_of_cuts,
    };
    let spare = Spare {
        passes: 0,
        spare_changes,
        spare_cuts,
    };
    (totals, spare)
}

impl<C: Ledger, K: Ledger> Spare<C, K> {
    /// Splits off the shares of a further pass, with no changes and no cuts yet.
    pub fn split_off(&mut self) -> Shares<C, K>
        requires { self.old.passes < MOST_PASSES }
        ensures passes { self.new.passes ≡ self.old.passes + 1 }
        ensures changes { result.changes ≡ 0 }
        ensures cuts { result.cuts ≡ 0 }
    {
        self.passes += 1;
        let share_of_changes = self.spare_changes.split_off(1, 0);
        let share_of_cuts = self.spare_cuts.split_off(1, 0);
        Shares {
            changes: 0,
            cuts: 0,
            share_of_changes,
            share_of_cuts,
        }
    }
}

impl<C: Ledger, K: Ledger> Totals<C, K> {
    /// Counts one more change as made by the pass with these shares.
    pub fn add_change(&mut self, shares: &mut Shares<C, K>)
        requires few { self.old.changes ≤ 4294967296 }
        ensures total { self.new.changes ≡ self.old.changes + 1 }
        ensures cuts { self.new.cuts ≡ self.old.cuts }
        ensures share { shares.new.changes ≡ shares.old.changes + 1 }
        ensures share_of_cuts { shares.new.cuts ≡ shares.old.cuts }
    {
        self.book_of_changes.audit(&mut shares.share_of_changes);
        self.book_of_changes.add(&mut shares.share_of_changes, 1);
        self.changes += 1;
        shares.changes += 1;
    }

    /// Counts one more cut as made by the pass with these shares.
    pub fn add_cut(&mut self, shares: &mut Shares<C, K>)
        requires few { self.old.cuts ≤ 4294967296 }
        ensures total { self.new.cuts ≡ self.old.cuts + 1 }
        ensures changes { self.new.changes ≡ self.old.changes }
        ensures share { shares.new.cuts ≡ shares.old.cuts + 1 }
        ensures share_of_changes { shares.new.changes ≡ shares.old.changes }
    {
        self.book_of_cuts.audit(&mut shares.share_of_cuts);
        self.book_of_cuts.add(&mut shares.share_of_cuts, 1);
        self.cuts += 1;
        shares.cuts += 1;
    }
}
