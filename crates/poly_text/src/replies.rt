//! The text of replies, one line at a time: in memory that is allocated once, except for the fixed lines of refusals.
ghost use Rattle.std.specs.Prelude.{◌≡◌, ◌+◌, ◌*◌, ◌≤◌, ◌^◌, ◌<◌, ◌++◌, ◌∷◌, [], length, IfOk, IfErr, codes, decimal, sum_by};
ghost use Rattle.std.specs.List.{flat_map, join_by};
ghost use Rattle.poly_text.specs.Replies.{refusal_text, ok_text, tilings_text, cell_text, cells_text, placement_text, placements_text, tiling_text, forced_text, item_name, item_text, matches_text, classes_text, status_text, covered};
ghost use Rattle.poly_design.specs.declared.design.TheConstants.{MAX_CELLS};

use itoa::Buffer;
use poly_design::{Name, Placement};
use poly_grid::{Cell, Refusal};
use poly_tiling::Item;
use std::alloc::Global;
use std::marker::Model;

/// Returns the line `no <code> <name>` of the refusal, with its line feed. Never allocates.
pub fn refusal_line(refusal: Refusal) -> &'static str
    ensures { result.now ≡ refusal_text refusal }
{
    match refusal {
        Refusal::BadJson => "no 1 BadJson\n",
        Refusal::BadField => "no 2 BadField\n",
        Refusal::BadFormat => "no 3 BadFormat\n",
        Refusal::BadGrid => "no 4 BadGrid\n",
        Refusal::BadBoard => "no 5 BadBoard\n",
        Refusal::BadName => "no 6 BadName\n",
        Refusal::BadShape => "no 7 BadShape\n",
        Refusal::NameTaken => "no 8 NameTaken\n",
        Refusal::NoSuchPiece => "no 9 NoSuchPiece\n",
        Refusal::BadCell => "no 10 BadCell\n",
        Refusal::TooManyCells => "no 11 TooManyCells\n",
        Refusal::TooManyPieces => "no 12 TooManyPieces\n",
        Refusal::TooManyPlacements => "no 13 TooManyPlacements\n",
        Refusal::NotAPlacement => "no 14 NotAPlacement\n",
        Refusal::NoChange => "no 15 NoChange\n",
        Refusal::NothingToUndo => "no 16 NothingToUndo\n",
        Refusal::NothingToRedo => "no 17 NothingToRedo\n",
        Refusal::CatalogueFull => "no 18 CatalogueFull\n",
        Refusal::BadCommand => "no 19 BadCommand\n",
        Refusal::LineTooLong => "no 20 LineTooLong\n",
        Refusal::Unfinished => "no 21 Unfinished\n",
        Refusal::Memory => "no 22 Memory\n",
        Refusal::Gone => "no 23 Gone\n",
        Refusal::DoesNotHold => "no 24 DoesNotHold\n",
        Refusal::TooLarge => "no 25 TooLarge\n",
        Refusal::Spent => "no 26 Spent\n",
        Refusal::Unsettled { .. } => "no 27 Unsettled\n",
        Refusal::TooWide => "no 28 TooWide\n",
        Refusal::Busy { .. } => "no 29 Busy\n",
    }
}

// The bytes that a reply line has room for. The longest lines are `tiling` and `forced` lines: their placements have at most
// 256 cells in all, and a placement takes at most 24 bytes for each of its cells.
const REPLY_LIMIT: usize = 8192;

/// A reply line, in memory that is allocated once.
#[derive(Drop)]
pub struct ReplyLine {
    /// The bytes of the line.
    text: Vec<u8>,
}

impl Model for ReplyLine {
    ghost use Rattle.std.specs.Prelude.{◌≤◌, List, ℕ, vec_capacity};
    ghost use Rattle.poly_text.specs.declared.replies.TheConstants.{REPLY_LIMIT};

    ghost Value = { List ℕ };

    ghost view = { λ r. r.text.items };

    ghost invariant = { λ r. REPLY_LIMIT ≤ vec_capacity r.text };
}

impl ReplyLine {
    /// Returns an empty line with room for any reply. Fails only with `Memory`.
    pub fn new(alloc: Global) -> Result<ReplyLine, Refusal>
        ensures ok { IfOk result (λ r. r ≡ []) }
        ensures why { IfErr result (λ e. e ≡ Refusal.Memory) }
    {
        Ok(ReplyLine {
            text: Vec::with_capacity(alloc, REPLY_LIMIT)?,
        })
    }

    /// The bytes of the line, with its line feed.
    pub fn as_bytes(&self) -> &[u8]
        ensures { result.now ≡ self.now }
    {
        self.text.as_slice()
    }

    /// Makes this the line `ok <edition>`.
    #[tactic(auto, using(crate::proofs::Digits::number_short))]
    pub fn ok(&mut self, edition: u64)
        ensures { self.new ≡ ok_text edition }
    {
        self.clear();
        self.put(b"ok ");
        self.put_number(edition);
        self.put(b"\n");
    }

    /// Makes this the line `tilings <count>`.
    #[tactic(auto, using(crate::proofs::Digits::number_short))]
    pub fn tilings(&mut self, count: u64)
        ensures { self.new ≡ tilings_text count }
    {
        self.clear();
        self.put(b"tilings ");
        self.put_number(count);
        self.put(b"\n");
    }

    /// Makes this the `tiling` line of the placements in their order, or `tiling -` if there are none. Requires placements
    /// that have at most 256 cells in all.
    pub fn tiling(&mut self, placements: &[Placement])
        requires { covered placements.now ≤ MAX_CELLS }
        ensures { self.new ≡ tiling_text placements.now }
    {
        self.clear();
        self.put(b"tiling");
        self.put_placements(placements);
        self.put(b"\n");
    }

    /// Makes this the `forced` line of the placements in their order, or `forced -` if there are none. Requires placements
    /// that have at most 256 cells in all.
    pub fn forced(&mut self, placements: &[Placement])
        requires { covered placements.now ≤ MAX_CELLS }
        ensures { self.new ≡ forced_text placements.now }
    {
        self.clear();
        self.put(b"forced");
        self.put_placements(placements);
        self.put(b"\n");
    }

    /// Makes this the line `item <item> <count>`. A cell is written as its column and its row, a piece as its name.
    #[tactic(auto, using(crate::proofs::Digits::number_short))]
    pub fn item(&mut self, item: &Item, count: u64)
        ensures { self.new ≡ item_text item.now count }
    {
        self.clear();
        self.put(b"item ");
        self.put_item(item);
        self.put(b" ");
        self.put_number(count);
        self.put(b"\n");
    }

    /// Makes this the line `matches <count>`.
    #[tactic(auto, using(crate::proofs::Digits::number_short))]
    pub fn matches(&mut self, count: u64)
        ensures { self.new ≡ matches_text count }
    {
        self.clear();
        self.put(b"matches ");
        self.put_number(count);
        self.put(b"\n");
    }

    /// Makes this the line `classes <count>`.
    #[tactic(auto, using(crate::proofs::Digits::number_short))]
    pub fn classes(&mut self, count: u64)
        ensures { self.new ≡ classes_text count }
    {
        self.clear();
        self.put(b"classes ");
        self.put_number(count);
        self.put(b"\n");
    }

    /// Makes this the line `status edition <edition> listed <listed> pending <pending>`.
    #[tactic(auto, using(crate::proofs::Digits::number_short))]
    pub fn status(&mut self, edition: u64, listed: u64, pending: u64)
        ensures { self.new ≡ status_text edition listed pending }
    {
        self.clear();
        self.put(b"status edition ");
        self.put_number(edition);
        self.put(b" listed ");
        self.put_number(listed);
        self.put(b" pending ");
        self.put_number(pending);
        self.put(b"\n");
    }

    fn clear(&mut self)
        ensures { self.new ≡ [] }
    {
        self.text.clear();
    }

    // Appends the bytes.
    fn put(&mut self, bytes: &[u8])
        requires { length self.old + length bytes.now ≤ REPLY_LIMIT }
        ensures { self.new ≡ self.old ++ bytes.now }
    {
        for byte in bytes {
            self.text.push_reserved(*byte);
        }
    }

    // Appends each placement after a space, or a space and a dash if there are none.
    #[tactic(auto, using(crate::proofs::Digits::covered_at))]
    fn put_placements(&mut self, placements: &[Placement])
        requires { length self.old + 2 + 24 * covered placements.now ≤ REPLY_LIMIT }
        ensures text { self.new ≡ self.old ++ placements_text placements.now }
        ensures short { length self.new ≤ length self.old + 2 + 24 * covered placements.now }
    {
        if placements.is_empty() {
            self.put(b" -");
            return;
        }
        for placement in placements {
            // The contract of this call guarantees that no set of cells is empty, which bounds the number of placements.
            let cells = placement.cells.as_slice();
            self.put(b" ");
            self.put_placement(&placement.name, cells);
        }
    }

    // Appends the name, an equals sign and the cells.
    fn put_placement(&mut self, name: &Name, cells: &[Cell])
        requires { length self.old + 17 + 6 * length cells.now ≤ REPLY_LIMIT }
        ensures text { self.new ≡ self.old ++ (name.now ++ 61 ∷ cells_text cells.now) }
        ensures short { length self.new ≤ length self.old + 17 + 6 * length cells.now }
    {
        self.put(name.as_bytes());
        self.put(b"=");
        self.put_cells(cells);
    }

    // Appends a cell, or the name of a piece.
    fn put_item(&mut self, item: &Item)
        requires { length self.old + 16 ≤ REPLY_LIMIT }
        ensures text { self.new ≡ self.old ++ item_name item.now }
        ensures short { length self.new ≤ length self.old + 16 }
    {
        match item {
            Item::Cell(cell) => self.put_cell(*cell),
            Item::Piece(name) => self.put(name.as_bytes()),
        }
    }

    // Appends the cells with slashes between them.
    fn put_cells(&mut self, cells: &[Cell])
        requires { length self.old + 6 * length cells.now ≤ REPLY_LIMIT }
        ensures text { self.new ≡ self.old ++ cells_text cells.now }
        ensures short { length self.new ≤ length self.old + 6 * length cells.now }
    {
        for i in 0..cells.len() {
            if i > 0 {
                self.put(b"/");
            }
            self.put_cell(cells[i]);
        }
    }

    // Appends the column, a comma and the row.
    #[tactic(auto, using(crate::proofs::Digits::coordinate_short))]
    fn put_cell(&mut self, cell: Cell)
        requires { length self.old + 5 ≤ REPLY_LIMIT }
        ensures text { self.new ≡ self.old ++ cell_text cell }
        ensures short { length self.new ≤ length self.old + 5 }
    {
        self.put_number(u64::from(cell.x()));
        self.put(b",");
        self.put_number(u64::from(cell.y()));
    }

    // Appends the number in decimal digits.
    fn put_number(&mut self, number: u64)
        requires { length self.old + length (decimal number) ≤ REPLY_LIMIT }
        ensures { self.new ≡ self.old ++ decimal number }
    {
        let mut digits = Buffer::new();
        self.put(digits.format(number).as_bytes());
    }
}
