//! Atoms, guards, stairs and hopeless lists: the terms in which search tasks are described.
//!
//! - [`Atom`]: a condition on a set of placements. The family of a list of atoms is the set of tilings that meet
//!   all of them.
//! - [`guards`]: the atoms that a tiling of the design after a change meets exactly if it is a tiling of the design before
//!   the change too. [`both_guards`] returns [`BothGuards`]: these, and the guards of the inverse change. [`guard_counts`]
//!   counts both.
//! - [`Stair`] names a stair of a change: the guards before a guard, followed by the negation of this guard. A set that
//!   breaks a guard of the change meets exactly one of its stairs. [`staircase`] returns all stairs of a list of atoms.
//! - [`GuardLog`]: the guards of all changes.
//! - [`hopeless`]: whether the atoms and the view show, without a search, that no tiling meets all of the atoms.
//! - The other functions are laws: each does nothing, and its contract states what holds of the definitions.
#![tactic(auto)]

mod atom;
mod both;
mod change;
mod hopelessness;
mod laws;
mod log;
mod order;
mod stair;

pub use atom::Atom;
pub use both::{BothGuards, both_guards, guard_counts};
pub use change::guards;
pub use hopelessness::hopeless;
pub use laws::{
    answers_may_grow, bases_are_sets, families_may_grow, guards_may_grow, guards_tell,
    hopeless_is_empty, hopeless_may_grow, hopeless_stays, leaving_keeps_hope, negation_is_opposite,
    negation_is_undone, newly_hopeless_is_touched, same_has_no_guards, stairs_share_out,
    stairs_were_hopeless, taken_back_is_undone, taking_keeps_hope, width_is_one, widths_show,
};
pub use log::GuardLog;
pub use stair::{Stair, staircase};
