//! Prints tilings and answers line by line, without allocating.
ghost use Rattle.std.specs.Prelude.{◌≡◌, ◌≤◌, map};
ghost use Rattle.std.specs.List.{All, flat_map};
ghost use Rattle.poly_design.specs.declared.design.TheConstants.{MAX_CELLS};
ghost use Rattle.poly_tiling.specs.Shows.{names};
ghost use Rattle.poly_tiling.specs.TilingOrder.{placed};
ghost use Rattle.poly_text.specs.Replies.{covered, item_text, tiling_text};
ghost use Rattle.poly_cli.specs.Listings.{IsPrintable};
ghost use Rattle.poly_cli.specs.Questions.{answer_text, list_text};
ghost use Rattle.poly_cli.specs.Runs.{Writes};

use crate::answering::Answerer;
use crate::writing::{Fault, write_bytes, write_whole};
use poly_browse::Answer;
use poly_tiling::{Item, Tiling, View};
use std::io::Write;

impl Answerer {
    /// Writes a line for each tiling, and how many there are. Requires tilings of the view that each fit a reply line. Never
    /// allocates.
    pub(crate) fn print<W: Write>(
        &mut self,
        view: &View,
        tilings: &[Tiling],
        writer: &mut W,
    ) -> Result<(), Fault>
        requires { All (IsPrintable view.now) tilings.now }
        ensures { Writes result (W.contents writer.old) (W.contents writer.new) (list_text (map (placed view.now) tilings.now)) }
    {
        for i in 0..tilings.len() {
            self.make_line(view, &tilings[i]);
            write_bytes(writer, self.reply.as_bytes())?;
        }
        self.reply.tilings(tilings.len() as u64);
        write_whole(writer, self.reply.as_bytes())
    }

    // Sets the reply line to the `tiling` line for the tiling.
    fn make_line(&mut self, view: &View, tiling: &Tiling)
        requires { IsPrintable view.now tiling.now }
        ensures { self.new.reply ≡ tiling_text (placed view.now tiling.now) }
    {
        self.collect(view, tiling.numbers());
        self.placements.sort_unstable();
        self.reply.tiling(&self.placements);
    }

    // Collects the placements that the numbers name.
    fn collect(&mut self, view: &View, numbers: &[u32])
        requires { covered (names view.now numbers.now) ≤ MAX_CELLS }
        ensures { self.new.placements.items ≡ names view.now numbers.now }
    {
        self.placements.clear();
        for number in numbers {
            if let Some(placement) = view.placement(*number) {
                // The contract of this call guarantees that no set of cells is empty, which bounds the number of placements.
                let _cells = placement.cells.as_slice();
                self.placements.push_reserved(placement);
            }
        }
    }

    /// Writes the forced placements, a line for each item, and how many tilings match. Requires forced placements with at
    /// most 256 cells in all. Never allocates.
    pub(crate) fn print_answer<W: Write>(
        &mut self,
        answer: &Answer,
        writer: &mut W,
    ) -> Result<(), Fault>
        requires { covered answer.now.forced.items ≤ MAX_CELLS }
        ensures { Writes result (W.contents writer.old) (W.contents writer.new) (answer_text answer.now.forced.items answer.now.options.items answer.now.count) }
    {
        self.reply.forced(&answer.forced);
        write_bytes(writer, self.reply.as_bytes())?;
        self.print_options(&answer.options, writer)?;
        self.reply.matches(answer.count);
        write_whole(writer, self.reply.as_bytes())
    }

    fn print_options<W: Write>(
        &mut self,
        options: &[(Item, u64)],
        writer: &mut W,
    ) -> Result<(), Fault>
        ensures { Writes result (W.contents writer.old) (W.contents writer.new) (flat_map (λ o. item_text o.0 o.1) options.now) }
    {
        for i in 0..options.len() {
            let (item, count) = options[i];
            self.reply.item(&item, count);
            write_bytes(writer, self.reply.as_bytes())?;
        }
        Ok(())
    }
}
