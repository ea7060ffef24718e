//! Plans: what a change would do to a table.
ghost use Rattle.std.specs.Prelude.{◌≡◌, IfOk, IfErr};
ghost use Rattle.std.specs.Arc.{arc_value};
ghost use Rattle.poly_tiling.specs.Names.{WellNamed};
ghost use Rattle.poly_place.specs.Index.{IsIndex};

use crate::delta::Delta;
use crate::index::Index;
use crate::numbered::Numbered;
use poly_tiling::View;
use std::sync::Arc;

/// What a change of the design does to a table, prepared so that applying it takes no memory.
#[derive(Drop)]
pub struct Plan {
    /// The differences between the design before and the design after.
    pub delta: Delta,
    /// The view of the design after.
    pub view: Arc<View>,
    /// The design after, by numbers.
    pub(crate) numbered: Numbered,
    /// The index of the design after.
    pub(crate) index: Index,
    ghost well: { WellNamed (arc_value view) },
    ghost shown: { arc_value view ≡ record { placements = (arc_value view).placements; live = numbered.live.items; bounds = numbered.bounds.items; pins = numbered.pins.items } },
    ghost indexed: { IsIndex (arc_value view) index.rows.items },
}
