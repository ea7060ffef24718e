//! Tests that need only public calls, and that no script of the player can be (docs/PLAYER.md): of plain functions and of parts
//! that a book doesn't show, such as frames and tables; enumerations; threads and whole days at a desk; boards, crews and lanes;
//! sessions over readers and writers of their own; the program's options; and runs with each allocation refused.
//!
//! They share some test kits: `designs` (designs from puzzle lines), `books`, `desks`, `gates`, and `shared_out`, which compares
//! a book with the plain lister. The crate exports nothing.
#![tactic(auto)]

#[cfg(test)]
mod answers;
#[cfg(test)]
mod boards;
#[cfg(test)]
mod books;
#[cfg(test)]
mod crews;
#[cfg(test)]
mod deep_tree;
#[cfg(test)]
mod designs;
#[cfg(test)]
mod desk_crews;
#[cfg(test)]
mod desk_day;
#[cfg(test)]
mod desk_limits;
#[cfg(test)]
mod desk_memory;
#[cfg(test)]
mod desk_threads;
#[cfg(test)]
mod desks;
#[cfg(test)]
mod exchange;
#[cfg(test)]
mod frame;
#[cfg(test)]
mod gates;
#[cfg(test)]
mod grids;
#[cfg(test)]
mod lanes;
#[cfg(test)]
mod memory;
#[cfg(test)]
mod numbers;
#[cfg(test)]
mod options;
#[cfg(test)]
mod parts;
#[cfg(test)]
mod refusals;
#[cfg(test)]
mod sessions;
#[cfg(test)]
mod shapes;
#[cfg(test)]
mod shared_out;
