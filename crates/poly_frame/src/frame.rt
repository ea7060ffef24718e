//! A node of a search, kept as bits: rows of words with a bit for each column of a matrix. A step copies the last row and
//! removes from the copy what the step closes. It doesn't search for the placements to close, and it allocates nothing. These
//! bits replace the linked lists of Knuth's dancing links (The Art of Computer Programming, volume 4B, section 7.2.2.1).
ghost use Rattle.std.specs.Prelude.{IfErr, IfOk, IfSome, MatchOption, [], drop, false, length, not, true, vec_capacity, ℕ, ◌&&◌, ◌++◌, ◌+◌, ◌-◌, ◌<◌, ◌∷◌, ◌≡◌, ◌≤◌};
ghost use Rattle.std.specs.List.{list_all};
ghost use Rattle.poly_tiling.specs.Lists.{distinct, mem, tally};
ghost use Rattle.poly_tiling.specs.Names.{WellNamed};
ghost use Rattle.poly_tiling.specs.Puzzle.{has_item};
ghost use Rattle.poly_atom.specs.Atoms.{in_family};
ghost use Rattle.poly_atom.specs.Hopeless.{base};
ghost use Rattle.poly_frame.specs.Alive.{AliveShows};
ghost use Rattle.poly_frame.specs.Open.{arms_fit, dead, least_with_base, ruled_out};
ghost use Rattle.poly_frame.specs.FrameConsistent.{is_consistent};
ghost use Rattle.poly_frame.specs.Frames.{IsKept};
ghost use Rattle.poly_frame.specs.FrameConsistent.{ConsistentShows};
ghost use Rattle.poly_frame.specs.FrameSteps.{HasRoom, StepsKeep};
ghost use Rattle.poly_frame.specs.FrameTable.{HasOpen};
ghost use Rattle.poly_frame.specs.Matrices.{IsMatrix, IsWhole, matrix_of};
ghost use Rattle.poly_frame.specs.Walk.{backtrack_to, is_due, is_open, is_option, step_back, with_step};

mod ahead;
mod alive;
mod allowed;
mod consistent;
mod items;
mod layers;
mod levels;
mod lists;
mod matrix;
mod members;
mod node;
mod notes;
mod occupied;
mod opened;
mod queries;
mod right;
mod room;
mod scarce;
mod starved;
mod steps;
mod table;
mod wanted;

use crate::frame::ahead::{Attempt, Guesses};
use crate::frame::alive::{alive_of, is_dead};
use crate::frame::layers::{Layer, exchange, narrow_layer, widen};
use crate::frame::levels::{Levels, Spare, levels_of};
use crate::frame::lists::Lists;
use crate::frame::matrix::Columns;
pub use crate::frame::matrix::Matrix;
use crate::frame::node::Stand;
pub use crate::frame::room::Room;
use crate::frame::room::prepare;
use crate::frame::starved::is_starved;
use crate::frame::steps::Steps;
use crate::plain;
use poly_atom::Atom;
use poly_grid::Refusal;
use poly_tiling::{Item, View};
use std::alloc::Global;
use std::marker::Model;

/// The most steps that a frame can have at one time.
pub const STEPS: usize = 4096;

/// A node of a search. Taking and undoing steps never allocates.
#[derive(Drop)]
pub struct Frame<'a> {
    /// Where the frame stands.
    stand: Stand<'a>,
    /// The given atoms, then one atom for each step that was not undone.
    trail: Vec<Atom>,
    /// The base of the atoms on the trail, ascending.
    members: Vec<u32>,
    /// How many members the base had before each step.
    sizes: Vec<usize>,
    /// At how many levels, counted from the given atoms on, the base is known to be consistent: each member is a placement of
    /// the design that is not ruled out.
    consistent: usize,
    /// The list that `options` answers with.
    options: Vec<u32>,
    /// What each step changes.
    steps: Steps,
    /// What is guessed of the due items.
    guesses: Guesses,
    /// The wider matrices that it read before, the widest first, with what it kept of them.
    under: Vec<Layer<'a>>,
    /// Layers that were dropped. A new layer takes the memory of one of these.
    spare: Vec<Layer<'a>>,
}

impl<'a> Model for Frame<'a> {
    ghost use Rattle.poly_frame.specs.Walk.{Walk};
    ghost use Rattle.poly_frame.specs.Frames.{IsFrame};
    ghost use Rattle.poly_frame.specs.Matrices.{matrix_of};

    ghost Value = { Walk };

    ghost view = { λ f. record { scene = f.stand.view.now; atoms = f.trail.items; given = f.stand.given } };

    ghost invariant = { λ f. IsFrame f.stand.view.now f.trail f.stand.given f.members f.sizes f.consistent f.options (matrix_of f.stand.columns) f.stand.table f.steps f.stand.base f.under.items f.stand.alive.items };
}

impl<'a> Frame<'a> {
    ghost use Rattle.std.specs.Borrow.{sem};
    ghost use Rattle.poly_frame.specs.Lending.{StaysSame};

    /// A frame of the view with these atoms and no step. It makes the view's matrix for itself. Fails only when out of memory.
    pub fn new(alloc: Global, view: &'a View, atoms: &[Atom]) -> Result<Frame<'a>, Refusal>
        ensures made { IfOk result (λ f. f ≡ record { scene = view.now; atoms = atoms.now; given = length atoms.now }) }
        ensures why { IfErr result (λ e. e ≡ Refusal.Memory) }
        ensures well { WellNamed view.now }
        ensures once { distinct view.now.live ≡ true }
    {
        let whole = Matrix::new(alloc, view)?;
        let Ok(alive) = alive_of(alloc, view, atoms) else {
            drop(whole);
            return Err(Refusal::Memory);
        };
        let room = Room::new(alloc);
        Frame::begin(alloc, view, Columns::Own(whole), None, atoms, alive, room)
    }

    /// A frame of the view with these atoms and no step. Requires that `whole` is the view's matrix, from [`Matrix::new`].
    /// If at least about three quarters of the matrix's placements are open at the atoms, the frame reads that matrix;
    /// otherwise it makes a smaller one. Fails only when out of memory.
    pub fn over(
        alloc: Global,
        view: &'a View,
        whole: &'a Matrix,
        atoms: &[Atom],
    ) -> Result<Frame<'a>, Refusal>
        requires { IsWhole view.now whole.now }
        ensures made { IfOk result (λ f. f ≡ record { scene = view.now; atoms = atoms.now; given = length atoms.now }) }
        ensures why { IfErr result (λ e. e ≡ Refusal.Memory) }
        ensures well { WellNamed view.now }
        ensures once { distinct view.now.live ≡ true }
    {
        let alive = alive_of(alloc, view, atoms)?;
        let room = Room::new(alloc);
        Frame::begin(alloc, view, Columns::Lent(whole), None, atoms, alive, room)
    }

    /// Does what [`Frame::over`] does, but begins with `part`, which takes less time the fewer columns `part` has. Requires that
    /// `whole` is the view's matrix, and that `part` is a matrix of the view with a column for each placement that is open at
    /// the atoms. [`Frame::into_parts`] returns such a matrix. The frame uses the memory of `room`. Fails only when out of memory.
    pub fn within(
        alloc: Global,
        view: &'a View,
        whole: &Matrix,
        part: &'a Matrix,
        atoms: &[Atom],
        room: Room,
    ) -> Result<Frame<'a>, Refusal>
        requires whole { IsWhole view.now whole.now }
        requires part { IsMatrix view.now part.now }
        requires all { HasOpen view.now atoms.now part.now }
        ensures made { IfOk result (λ f. f ≡ record { scene = view.now; atoms = atoms.now; given = length atoms.now }) }
        ensures why { IfErr result (λ e. e ≡ Refusal.Memory) }
        ensures well { WellNamed view.now }
        ensures once { distinct view.now.live ≡ true }
    {
        let alive = Vec::new(alloc);
        Frame::begin(
            alloc,
            view,
            Columns::Lent(part),
            Some(whole),
            atoms,
            alive,
            room,
        )
    }

    /// The matrix that the frame made for itself and reads at this node, `None` if it reads a matrix that was lent to it; and
    /// the room for another frame. The matrix has a column for each placement that is open at the frame's atoms. So it also
    /// serves frames whose atoms go on from these.
    pub fn into_parts(self, alloc: Global) -> (Option<Matrix>, Room)
        ensures part { IfSome result.0 (λ m. IsMatrix self.entry.scene m) }
        ensures all { IfSome result.0 (λ m. HasOpen self.entry.scene self.entry.atoms m) }
    {
        let Frame {
            stand,
            trail,
            members,
            sizes,
            options,
            steps,
            ..
        } = self;
        let Steps {
            live,
            raised,
            marks,
            ..
        } = steps;
        let room = Room {
            lists: Lists {
                trail,
                members,
                sizes,
                options,
            },
            spare: Spare {
                live,
                raised,
                marks,
                matrix: Matrix::none(alloc),
            },
        };
        let Stand { columns, .. } = stand;
        (columns.into_own(), room)
    }

    /// Reads a smaller matrix from here on, until this node is left, if that seems to pay. Call this only where the search is
    /// about to take placements. It changes nothing but the time that the frame takes. Fails only when out of memory.
    pub fn focus(&mut self, alloc: Global) -> Result<(), Refusal>
        ensures same { self.new ≡ self.old }
        ensures why { IfErr result (λ e. e ≡ Refusal.Memory) }
    {
        if self.stand.base >= self.trail.len()
            || !queries::pays(self.stand.columns.matrix(), &self.steps)
        {
            return Ok(());
        }
        self.under.reserve(1)?;
        self.spare.reserve(self.under.len() + 1)?;
        let spare = self.spare.pop().unwrap_or(Layer::none(alloc));
        let node = self.stand.node(&self.trail);
        let narrow = narrow_layer(alloc, &node, &self.steps, &self.members, spare)?;
        let wide = exchange(&mut self.stand, &mut self.steps, narrow);
        self.under.push_reserved(wide);
        Ok(())
    }

    // A frame at the atoms, from a matrix with a column for each placement that is open there. `whole` is the matrix that has
    // columns for the members of the base, too, or `None` if that is `part`. `alive` has a bit for each number that is not dead at
    // the atoms, or is empty.
    #[tactic(auto, using(poly_tiling::proofs::Orders::live_once))]
    fn begin(
        alloc: Global,
        view: &'a View,
        part: Columns<'a>,
        whole: Option<&Matrix>,
        atoms: &[Atom],
        alive: Vec<u64>,
        room: Room,
    ) -> Result<Frame<'a>, Refusal>
        requires part { IsMatrix view.now (matrix_of part) }
        requires whole { IfSome whole (λ m. IsMatrix view.now m.now) }
        requires all { HasOpen view.now atoms.now (matrix_of part) }
        requires alive { AliveShows view.now atoms.now (length atoms.now) alive.items }
        ensures made { IfOk result (λ f. f ≡ record { scene = view.now; atoms = atoms.now; given = length atoms.now }) }
        ensures why { IfErr result (λ e. e ≡ Refusal.Memory) }
        ensures well { WellNamed view.now }
        ensures once { distinct view.now.live ≡ true }
    {
        let mut room = room;
        let Ok(counted) = prepare(alloc, view, part.matrix(), whole, atoms, &mut room) else {
            drop(part);
            drop(room);
            return Err(Refusal::Memory);
        };
        let Room { lists, spare } = room;
        let levels = levels_of(alloc, view, part, atoms, counted, spare)?;
        Ok(Frame::of(alloc, view, atoms, alive, lists, levels))
    }

    // The frame at the atoms that has these lists and levels.
    fn of(
        alloc: Global,
        view: &'a View,
        atoms: &[Atom],
        alive: Vec<u64>,
        lists: Lists,
        levels: Levels<'a>,
    ) -> Frame<'a>
        requires kept { IsKept view.now lists.trail (length atoms.now) lists.members lists.options }
        requires trail { lists.trail.items ≡ atoms.now }
        requires sizes { lists.sizes.items ≡ [] }
        requires changes { STEPS ≤ vec_capacity lists.sizes }
        requires consistent { ConsistentShows view.now atoms.now (length atoms.now) levels.consistent }
        requires steps { StepsKeep view.now atoms.now (length atoms.now) (matrix_of levels.columns) levels.table levels.steps }
        requires room { HasRoom (matrix_of levels.columns) levels.steps }
        requires alive { AliveShows view.now atoms.now (length atoms.now) alive.items }
        ensures { result ≡ record { scene = view.now; atoms = atoms.now; given = length atoms.now } }
    {
        let Lists {
            trail,
            members,
            sizes,
            options,
        } = lists;
        let Levels {
            consistent,
            columns,
            table,
            steps,
        } = levels;
        let stand = Stand {
            view,
            given: atoms.len(),
            base: atoms.len(),
            columns,
            table,
            alive,
        };
        Frame {
            stand,
            trail,
            members,
            sizes,
            consistent,
            options,
            steps,
            guesses: Guesses {
                scarcest: None,
                starved: usize::MAX,
            },
            under: Vec::new(alloc),
            spare: Vec::new(alloc),
        }
    }

    /// How many atoms are on the trail.
    pub fn level(&self) -> usize
        ensures { result ≡ length self.now.atoms }
    {
        self.trail.len()
    }

    /// The atoms on the trail: the given ones and the steps that were not undone.
    pub fn atoms(&self) -> &[Atom]
        ensures { result.now ≡ self.now.atoms }
    {
        self.trail.as_slice()
    }

    /// The atoms of the steps that were not undone.
    pub fn path(&self) -> &[Atom]
        ensures { result.now ≡ drop self.now.given self.now.atoms }
    {
        &self.trail[self.stand.given..]
    }

    /// Takes the placement: adds the atom `Has(placement)`. Requires that the frame has fewer than [`STEPS`] steps.
    pub fn pick(&mut self, placement: u32)
        requires { length self.old.atoms < self.old.given + STEPS }
        ensures { self.new ≡ with_step self.old (Atom.Has placement) }
    {
        let opened = self.stands_open(placement);
        let node = self.stand.node(&self.trail);
        steps::pick(&node, &self.members, &mut self.steps, placement, opened);
        self.consistent = consistent::taken(
            &node,
            &self.members,
            self.consistent,
            placement,
            opened,
        );
        members::pick(&node, &mut self.members, &mut self.sizes, placement);
        self.guesses.scarcest = None;
        self.trail.push_reserved(Atom::Has(placement));
    }

    /// Leaves the placement out: adds the atom `Lacks(placement)`. Requires that the frame has fewer than [`STEPS`] steps.
    pub fn leave(&mut self, placement: u32)
        requires { length self.old.atoms < self.old.given + STEPS }
        ensures { self.new ≡ with_step self.old (Atom.Lacks placement) }
    {
        let opened = self.stands_open(placement);
        let node = self.stand.node(&self.trail);
        steps::leave(&node, &mut self.steps, placement);
        members::leave(&node, &self.members, &mut self.sizes, placement);
        self.consistent = consistent::left(
            &node,
            &self.members,
            self.consistent,
            placement,
            opened,
        );
        self.guesses.scarcest = None;
        self.trail.push_reserved(Atom::Lacks(placement));
    }

    /// Undoes the last step. Requires that there is one.
    pub fn back(&mut self)
        requires { self.old.given < length self.old.atoms }
        ensures { self.new ≡ step_back self.old }
    {
        let level = self.trail.len() - 1;
        widen(
            &mut self.stand,
            &self.trail,
            &mut self.steps,
            &mut self.under,
            &mut self.spare,
        );
        let node = self.stand.node(&self.trail);
        steps::back(&node, &mut self.steps);
        members::back(&node, &mut self.members, &mut self.sizes);
        self.consistent = consistent::back(&node, self.consistent);
        self.guesses.scarcest = None;
        self.trail.truncate(level);
    }

    /// Undoes the steps after a level. Does nothing if the frame is not beyond that level. Requires that the level is at least
    /// the number of given atoms.
    pub fn backtrack_to(&mut self, level: usize)
        requires { self.old.given ≤ level }
        ensures { self.new ≡ backtrack_to self.old level }
    {
        while self.level() > level {
            self.back();
        }
    }

    /// The open placements of the design that have the item, each once, in any order. The list borrows the frame,
    /// which stays as it was.
    pub fn options(&mut self, item: Item) -> &[u32]
        ensures* same { sem 𝓛 (StaysSame self.entry) }
        ensures once { distinct result.now ≡ true }
        ensures members { (p : ℕ) → mem result.now p ≡ (mem self.old.scene.live p && is_option self.old item p) }
    {
        let node = self.stand.node(&self.trail);
        queries::list_options(&node, &self.steps, item, &mut self.options);
        &self.options
    }

    /// Some open placement of the design; `None` if there is none.
    pub fn first_open(&self) -> Option<u32>
        ensures { MatchOption result (list_all (λ p. not (is_open self.now p)) self.now.scene.live ≡ true) (λ p. (mem self.now.scene.live p ≡ true) × (is_open self.now p ≡ true)) }
    {
        let node = self.stand.node(&self.trail);
        queries::first_open(&node, &self.steps)
    }

    /// Whether no placement of the design is open.
    pub fn none_open(&self) -> bool
        ensures { result ≡ list_all (λ p. not (is_open self.now p)) self.now.scene.live }
    {
        match self.first_open() {
            None => true,
            Some(_) => false,
        }
    }

    /// An item that the base covers less often than the design and the atoms ask for; `None` if there is no such item. Of
    /// these items, one that the view does not have comes first, since it has no option. Then comes one that has fewer options
    /// than it still needs, and then one with the fewest options beyond those that it still needs.
    pub fn next_due(&self) -> Option<Item>
        ensures { MatchOption result ((i : Item) → is_due self.now i ≡ false) (λ i. is_due self.now i ≡ true) }
    {
        let node = self.stand.node(&self.trail);
        queries::next_due(&node, &self.steps, &self.members, self.guesses)
    }

    /// Whether the placement is dead: it isn't a placement of the design now, or an atom leaves it out.
    pub fn dead(&self, placement: u32) -> bool
        ensures { result ≡ dead self.now.scene self.now.atoms placement }
    {
        if self.stands_open(placement) {
            return false;
        }
        let node = self.stand.node(&self.trail);
        is_dead(&node, placement)
    }

    /// Whether the placement has the item.
    pub fn covers(&self, placement: u32, item: Item) -> bool
        ensures { result ≡ has_item self.now.scene placement item }
    {
        self.stand.view.covers(placement, item)
    }

    /// Whether the placement is one of the design and is not ruled out. Such a placement is open or in the base.
    #[tactic(auto, using(crate::proofs::FrameArms::open_right))]
    pub fn allows(&self, placement: u32) -> bool
        ensures { result ≡ (mem self.now.scene.live placement && not (ruled_out self.now.scene self.now.atoms placement)) }
    {
        if self.stands_open(placement) {
            return true;
        }
        let node = self.stand.node(&self.trail);
        right::is_right_member(&node, &self.steps, &self.members, placement, self.is_sure())
    }

    /// How many placements of the design have the item and are not ruled out.
    #[tactic(auto, using(poly_tiling::proofs::Orders::live_once))]
    pub fn count_allowed(&self, item: Item) -> usize
        ensures once { distinct self.now.scene.live ≡ true }
        ensures value { result ≡ tally (λ p. has_item self.now.scene p item && not (ruled_out self.now.scene self.now.atoms p)) self.now.scene.live }
    {
        let node = self.stand.node(&self.trail);
        allowed::count(&node, &self.steps, &self.members, &item, self.is_sure())
    }

    /// Each tiling that meets the atoms has at least this many members with the item: as many as the design and the atoms ask
    /// for, or as many as the base has, whichever is more.
    pub fn least(&self, item: Item) -> usize
        ensures { result ≡ least_with_base self.now.scene self.now.atoms item }
    {
        let node = self.stand.node(&self.trail);
        allowed::least(&node, &self.steps, &self.members, &item)
    }

    /// Whether too few placements that have the item are left once the placement is taken. If so, no tiling that meets the
    /// atoms has the placement. The frame stays as it was. Requires that the frame has fewer than [`STEPS`] steps.
    pub fn starves(&mut self, placement: u32, item: Item) -> bool
        requires { length self.old.atoms < self.old.given + STEPS }
        ensures same { self.new ≡ self.old }
        ensures value { result ≡ arms_fit self.old.scene (self.old.atoms ++ Atom.Has placement ∷ []) item [] }
    {
        let node = self.stand.node(&self.trail);
        if is_starved(&node, &self.steps, placement, &item) {
            return true;
        }
        self.pick(placement);
        let few = self.count_allowed(item) < self.least(item);
        self.back();
        few
    }

    /// Takes the placement and returns `None`, unless a quick look finds an item of which too few placements would be left, so
    /// that no tiling that meets the atoms has the placement: then it returns this item, and the frame stays as it was. Requires
    /// that the frame has fewer than [`STEPS`] steps.
    #[tactic(auto, using(crate::proofs::Layers::pile_more, crate::proofs::Layers::pile_low))]
    pub fn pick_unless_starved(&mut self, placement: u32) -> Option<Item>
        requires { length self.old.atoms < self.old.given + STEPS }
        ensures { MatchOption result (self.new ≡ with_step self.old (Atom.Has placement)) (λ i. (self.new ≡ self.old) × (arms_fit self.old.scene (self.old.atoms ++ Atom.Has placement ∷ []) i [] ≡ true)) }
    {
        let node = self.stand.node(&self.trail);
        match ahead::try_pick(&node, &mut self.steps, placement, &mut self.guesses) {
            Attempt::Starved(item) => return Some(item),
            Attempt::Unknown => self.pick(placement),
            Attempt::Taken => {
                self.consistent = consistent::taken(
                    &node,
                    &self.members,
                    self.consistent,
                    placement,
                    true,
                );
                members::pick(&node, &mut self.members, &mut self.sizes, placement);
                self.trail.push_reserved(Atom::Has(placement));
            }
        }
        None
    }

    /// The base, ascending, if it is a tiling that meets the atoms, otherwise `None`. If no placement is open, no other tiling
    /// meets the atoms.
    pub fn found(&self) -> Option<&[u32]>
        ensures { MatchOption result (in_family self.now.scene self.now.atoms (base self.now.scene self.now.atoms) ≡ false) (λ t. (t.now ≡ base self.now.scene self.now.atoms) × (in_family self.now.scene self.now.atoms (base self.now.scene self.now.atoms) ≡ true)) }
    {
        let node = self.stand.node(&self.trail);
        match queries::judge(&node, &self.steps, self.consistent) {
            Some(true) => Some(&self.members),
            Some(false) => None,
            None => {
                // the rows don't decide
                if !plain::is_member(self.stand.view, &self.trail, &self.members) {
                    return None;
                }
                Some(&self.members)
            }
        }
    }

    // Whether the base is known to be consistent.
    fn is_sure(&self) -> bool
        ensures { result ≡ true → is_consistent self.now.scene self.now.atoms ≡ true }
    {
        self.consistent > self.trail.len() - self.stand.given
    }

    // Whether the placement is a placement of the design that is open.
    fn stands_open(&self, placement: u32) -> bool
        ensures open { result ≡ true → (mem self.now.scene.live placement ≡ true) × (is_open self.now placement ≡ true) }
        ensures closed { result ≡ false → mem self.now.scene.live placement ≡ true → is_open self.now placement ≡ false }
    {
        let node = self.stand.node(&self.trail);
        queries::stands_open(&node, &self.steps, placement)
    }
}
