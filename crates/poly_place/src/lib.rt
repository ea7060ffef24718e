//! Numbers for placements, kept while a design changes.
//!
//! - [`Table`]: a design by numbers. It makes the plan of a change and applies it.
//! - [`Plan`]: a prepared change: the view of the design after it, and its [`Delta`].
//! - [`Delta`]: the differences between the design before a change and the design after it.
//! - [`Interner`]: gives numbers to placements.
#![tactic(auto)]

mod delta;
mod index;
mod interner;
mod numbered;
mod parts;
mod plan;
mod plan_change;
mod table;
mod update;

pub use delta::Delta;
pub use interner::Interner;
pub use plan::Plan;
pub use table::Table;
