//! Lists of atoms that share their beginnings.
//!
//! - [`AtomLists`]: lists that are added one after the other. What a list has in common with the one before it at its beginning
//!   is stored once.
//! - [`SharedLists`]: lists that are finished. `try_clone` shares them. They can begin in other shared lists, as the rests of a
//!   report do in the lists of the task that it cuts up. `SharedLists::after` makes a list of one of them and the atoms that
//!   follow it. `SharedLists::read_others` reads a list without its `Lacks`, and takes no time for them.
//! - [`AtomLists::share_over`] finishes lists.
//!
//! A contract sees either of them as the list of its lists.
#![tactic(auto)]

mod atom_lists;
mod growing;
mod nodes;
mod others;
mod shared_lists;
mod walk;

pub use atom_lists::AtomLists;
pub use shared_lists::SharedLists;
