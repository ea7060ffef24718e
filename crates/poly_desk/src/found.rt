//! The event `hand_in_found`: a report that a search made is applied.
ghost use Rattle.std.specs.Prelude.{◌≡◌, IfErr, IfOk, OnErr, OnOk, length};
ghost use Rattle.std.specs.Arc.{arc_value};
ghost use Rattle.poly_report.specs.Shapes.{plan_of};
ghost use Rattle.poly_book.specs.Refused.{IsNotApplied};
ghost use Rattle.poly_book.specs.Reports.{IsApplied};
ghost use Rattle.poly_desk.specs.Calls.{HasNoted, IsRefused};
ghost use Rattle.poly_desk.specs.Floors.{IsViewAt};

use crate::call::{make_room, note_cut, note_numbers};
use crate::floor::Floor;
use crate::opening::Opening;
use crate::pass::Pass;
use crate::receipt::Receipt;
use poly_book::{Applied, Book, Found, Remains};
use poly_grid::Refusal;
use std::sync::ledger::Ledger;

impl<C: Ledger, K: Ledger, O: Opening> Floor<C, K, O> {
    /// Like `hand_in`, for a report that a search made. A search of the opening edition, at which the desk began, must have
    /// used the opening view. If the search and the book are both at that edition, and the task still has the atoms that were
    /// searched, the report's tree is applied without a check. Otherwise the tree is checked. Returns what is left of the
    /// report, too. Fails as `hand_in` does.
    pub fn hand_in_found(
        &mut self,
        pass: &mut Pass<C, K, O>,
        found: Found,
    ) -> Result<(Applied, Receipt, Remains), Refusal>
        requires searched { IsViewAt O.steps O.view found.report.edition (arc_value found.view) }
        ensures noted { OnOk result (HasNoted self.old.book self.new.book pass.old pass.new 0 1) }
        ensures ok { IfOk result (λ r. IsApplied found.report.task found.report.edition (plan_of found.report.tree) self.old.book self.new.book r.0) }
        ensures receipt { IfOk result (λ r. r.1 ≡ Receipt.Cut r.0.place found.report.task) }
        ensures report { IfOk result (λ r. r.2.report ≡ found.report) }
        ensures atoms { IfOk result (λ r. r.2.atoms.items ≡ found.atoms.items) }
        ensures left { IfOk result (λ r. arc_value r.2.view ≡ arc_value found.view) }
        ensures passes { self.new.passes ≡ self.old.passes }
        ensures stays { OnErr result (self.new ≡ self.old) }
        ensures why { IfErr result (λ e. IsRefused self.old.book pass.old pass.new e (IsNotApplied found.report.task (plan_of found.report.tree) self.old.book e)) }
    {
        note_numbers(&self.book, pass)?;
        make_room(&self.book, &mut self.marks)?;
        let task = found.report.task;
        let (applied, remains) = apply_found::<O>(&mut self.book, self.opened, found)?;
        note_cut(&self.book, &mut self.poster, &mut self.totals, pass);
        let receipt = Receipt::Cut {
            place: applied.place,
            task,
        };
        Ok((applied, receipt, remains))
    }
}

// Applies what was found. If the book and the search are both at the opening edition, their views are equal, as the book's
// `hand_in_found` requires. Otherwise the tree is checked.
fn apply_found<O: Opening>(
    book: &mut Book,
    opened: u64,
    found: Found,
) -> Result<(Applied, Remains), Refusal>
    requires opened { opened ≡ length O.steps }
    requires view { IsViewAt O.steps O.view (length book.old.steps) book.old.view }
    requires searched { IsViewAt O.steps O.view found.report.edition (arc_value found.view) }
    ensures ok { IfOk result (λ r. IsApplied found.report.task found.report.edition (plan_of found.report.tree) book.old book.new r.0) }
    ensures report { IfOk result (λ r. r.1.report ≡ found.report) }
    ensures atoms { IfOk result (λ r. r.1.atoms.items ≡ found.atoms.items) }
    ensures left { IfOk result (λ r. arc_value r.1.view ≡ arc_value found.view) }
    ensures err { OnErr result (book.new ≡ book.old) }
    ensures why { IfErr result (λ e. IsNotApplied found.report.task (plan_of found.report.tree) book.old e) }
{
    let edition = book.numbers().edition;
    if edition == opened && found.report.edition == opened {
        return book.hand_in_found(found);
    }
    book.hand_in_checked(found)
}
