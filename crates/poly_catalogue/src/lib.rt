//! The catalogue: the listed tilings of a design, kept up to date when the design is edited.
//!
//! An edit takes away the tilings that have a placement which the edit removes, and those that break a new pin or a
//! bound. An index leads from each placement to the tilings that have it. So if an edit adds no pin, raises no least and
//! lowers no most, `keep_only` checks no other tilings than those that it removes. If it does, the index leads to the tilings
//! that have the pin, or a placement with the item, and these placements are counted for each tiling; `keep_only` then reads
//! the counts. Of the tilings that stay it reads only those that move to the place of a removed one. For each placement of a
//! tiling, it is also noted where the index has the tiling, so removing a tiling neither searches the index nor allocates.
//!
//! - [`Catalogue`]: the listed tilings. `new` lists none. `list_all` adds some, `leaving` copies those that a change takes
//!   away, `keep_only` removes these, and `exchange` removes some and adds others in one call. `len`, `is_empty`, `get` and
//!   `all` read the list, and `covering` marks the tilings that cover an item.
//! - [`plans_lead`]: a law. The differences of a table's plan lead from the view of the table to the plan's view, as
//!   `leaving`, `keep_only` and `exchange` require.
#![tactic(auto)]

mod add;
mod catalogue;
mod counts;
mod covering;
mod entries;
mod flags;
mod keep;
mod laws;
mod leaving;
mod listing;
mod marks;
mod positions;
mod row;
mod rows;
mod staying;

pub use catalogue::Catalogue;
pub use laws::plans_lead;
