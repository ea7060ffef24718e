//! Answers questions about all tilings of the design, or writes why a question is refused. No part of an answer is written
//! before the engine has settled and all memory is allocated.
ghost use Rattle.std.specs.Prelude.{◌≡◌, ◌⊎◌, ◌≤◌, ℕ, List, None, IfErr, IfOk, OnErr, OnOk, map};
ghost use Rattle.poly_design.specs.declared.design.TheConstants.{MAX_CELLS};
ghost use Rattle.poly_tiling.specs.Listings.{IsListOfTilings};
ghost use Rattle.poly_tiling.specs.TilingOrder.{placed};
ghost use Rattle.poly_browse.specs.Browsing.{IsAnswer};
ghost use Rattle.poly_grid.specs.declared.refusal.Refusal.TheVariants.{Memory};
ghost use Rattle.poly_text.specs.Replies.{covered, refusal_text};
ghost use Rattle.poly_cli.specs.Current.{IsCurrent};
ghost use Rattle.poly_cli.specs.Questions.{BrowseSays, ClassesSay, SurveySays, asked_of, command_of, list_text};
ghost use Rattle.poly_cli.specs.Runs.{Writes};
ghost use Rattle.poly_cli.specs.Slow.{Responds};
ghost use Rattle.poly_cli.specs.States.{IsNotAnswered, answered};

use crate::answering::{Answerer, refuse};
use crate::engine::Engine;
use crate::writing::{Fault, write_whole};
use poly_book::Quiet;
use poly_browse::laws::answers_go_by_sets;
use poly_browse::{Answer, Query, browse, classes_of};
use poly_grid::Refusal;
use poly_text::{Command, Question};
use poly_tiling::{listings_show, numbers_show};
use std::alloc::Global;
use std::io::Write;

/// A question that is answered from all tilings of the design.
#[derive(Drop)]
pub(crate) enum Survey {
    /// Which tilings there are.
    List,
    /// Which placements all matching tilings have, how many different placements of these tilings cover each item, and how
    /// many tilings match.
    Browse(Question),
    /// How many tilings there are up to the symmetries of the design.
    Classes,
}

impl Answerer {
    /// Writes how many tilings there are, or why that is refused.
    pub(crate) fn count<E: Engine, W: Write>(
        &mut self,
        engine: &mut E,
        writer: &mut W,
    ) -> Result<(), Fault>
        requires ready { E.ready engine.old }
        requires kept { IsCurrent self.old.kept (E.state engine.old) }
        ensures ready { E.ready engine.new }
        ensures kept { IsCurrent self.new.kept (E.state engine.new) }
        ensures says { (out : List ℕ) × Responds E.failures Command.Count (E.state engine.old) out (E.state engine.new) × Writes result (W.contents writer.old) (W.contents writer.new) out }
    {
        match engine.count() {
            Ok(count) => {
                self.reply.tilings(count);
                write_whole(writer, self.reply.as_bytes())
            }
            Err(refusal) => refuse(refusal, writer),
        }
    }

    /// Writes the answer to a question about all tilings, or why it is refused.
    pub(crate) fn survey<E: Engine, W: Write>(
        &mut self,
        engine: &mut E,
        survey: Survey,
        writer: &mut W,
    ) -> Result<(), Fault>
        requires ready { E.ready engine.old }
        requires kept { IsCurrent self.old.kept (E.state engine.old) }
        ensures ready { E.ready engine.new }
        ensures kept { IsCurrent self.new.kept (E.state engine.new) }
        ensures says { (out : List ℕ) × Responds E.failures (command_of survey) (E.state engine.old) out (E.state engine.new) × Writes result (W.contents writer.old) (W.contents writer.new) out }
    {
        match self.all_tilings(engine) {
            Ok(quiet) => {
                let written = self.say(&quiet, survey, writer);
                self.kept = Some(quiet);
                written
            }
            Err(refusal) => refuse(refusal, writer),
        }
    }

    // Returns the tilings that are kept, or else asks the engine for them. Fails as `Engine::settle` does.
    fn all_tilings<E: Engine>(&mut self, engine: &mut E) -> Result<Quiet, Refusal>
        requires ready { E.ready engine.old }
        requires kept { IsCurrent self.old.kept (E.state engine.old) }
        ensures ready { E.ready engine.new }
        ensures none { self.new.kept ≡ None }
        ensures ok { OnOk result (((E.state engine.old).failed ≡ None) × (E.state engine.new ≡ answered (E.state engine.old))) }
        ensures design { IfOk result (λ quiet. quiet.design ≡ (E.state engine.old).design) }
        ensures err { IfErr result (λ e. IsNotAnswered E.failures (E.state engine.old) e (E.state engine.new)) }
    {
        match self.kept.take() {
            Some(quiet) => Ok(quiet),
            None => engine.settle(),
        }
    }

    // Writes what these tilings say to the question.
    fn say<W: Write>(&mut self, quiet: &Quiet, survey: Survey, writer: &mut W) -> Result<(), Fault>
        ensures says { (out : List ℕ) × (SurveySays survey quiet.now.design (map (placed quiet.now.view) quiet.now.tilings) out ⊎ (out ≡ refusal_text Memory)) × Writes result (W.contents writer.old) (W.contents writer.new) out }
        ensures all { IsListOfTilings quiet.now.design (map (placed quiet.now.view) quiet.now.tilings) }
    {
        match survey {
            Survey::List => self.list_all(quiet, writer),
            Survey::Browse(question) => self.browse_all(quiet, question, writer),
            Survey::Classes => self.count_classes(quiet, writer),
        }
    }

    fn list_all<W: Write>(&mut self, quiet: &Quiet, writer: &mut W) -> Result<(), Fault>
        ensures says { Writes result (W.contents writer.old) (W.contents writer.new) (list_text (map (placed quiet.now.view) quiet.now.tilings)) }
        ensures all { IsListOfTilings quiet.now.design (map (placed quiet.now.view) quiet.now.tilings) }
    {
        // The contracts of these calls guarantee that the tilings are those of the design, and that each fits a reply line.
        let _design = quiet.design();
        listings_show();
        numbers_show();
        self.print(quiet.view(), quiet.tilings(), writer)
    }

    fn browse_all<W: Write>(
        &mut self,
        quiet: &Quiet,
        question: Question,
        writer: &mut W,
    ) -> Result<(), Fault>
        ensures says { (out : List ℕ) × (BrowseSays question quiet.now.design (map (placed quiet.now.view) quiet.now.tilings) out ⊎ (out ≡ refusal_text Memory)) × Writes result (W.contents writer.old) (W.contents writer.new) out }
        ensures all { IsListOfTilings quiet.now.design (map (placed quiet.now.view) quiet.now.tilings) }
    {
        // The contract of this call guarantees that the tilings are those of the design.
        let _tilings = quiet.tilings();
        match answer_of(self.alloc, quiet, question) {
            Ok(answer) => self.print_answer(&answer, writer),
            Err(refusal) => refuse(refusal, writer),
        }
    }

    fn count_classes<W: Write>(&mut self, quiet: &Quiet, writer: &mut W) -> Result<(), Fault>
        ensures says { (out : List ℕ) × (ClassesSay quiet.now.design (map (placed quiet.now.view) quiet.now.tilings) out ⊎ (out ≡ refusal_text Memory)) × Writes result (W.contents writer.old) (W.contents writer.new) out }
        ensures all { IsListOfTilings quiet.now.design (map (placed quiet.now.view) quiet.now.tilings) }
    {
        match classes_of(self.alloc, quiet.design(), quiet.view(), quiet.tilings()) {
            Ok(count) => {
                self.reply.classes(count);
                write_whole(writer, self.reply.as_bytes())
            }
            Err(refusal) => refuse(refusal, writer),
        }
    }
}

// The answer to the question: the placements that all matching tilings have, how many different placements of these tilings
// cover each item, and how many tilings match. Fails only with `Memory`.
fn answer_of(alloc: Global, quiet: &Quiet, question: Question) -> Result<Answer, Refusal>
    ensures ok { IfOk result (λ a. IsAnswer quiet.now.design (map (placed quiet.now.view) quiet.now.tilings) (asked_of question) a.count a.forced.items a.options.items) }
    ensures short { IfOk result (λ a. covered a.forced.items ≤ MAX_CELLS) }
    ensures why { IfErr result (λ e. e ≡ Refusal.Memory) }
{
    // The contracts of these calls guarantee that an answer doesn't depend on the order of placements, and that no tiling
    // covers over 256 cells.
    answers_go_by_sets();
    listings_show();
    numbers_show();
    let query = Query {
        has: question.has,
        lacks: question.lacks,
        covers: question.covers,
    };
    browse(alloc, quiet.design(), quiet.tilings(), quiet.view(), &query)
}
