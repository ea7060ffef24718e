//! Guards that make all later stairs of their change hopeless.
//!
//! The stairs of one change share their first guards. So if one of these guards alone is hopeless, as a `Lacks` of a pin is, each
//! stair after it is hopeless too, and needn't be read. A guard is named by the stair that negates it.
ghost use Rattle.std.specs.Prelude.{IsTrue, List, MatchOption, true, ◌++◌, ◌≡◌, ⊤};
ghost use Rattle.poly_atom.specs.declared.atom.Atom.{Atom as AtomOf};
ghost use Rattle.poly_atom.specs.Hopeless.{hopeless};
ghost use Rattle.poly_atom.specs.Logs.{IsStairOf, stair_of};
ghost use Rattle.poly_tasks.specs.Judged.{IsSpoiler};
ghost use Rattle.poly_tasks.specs.Meaning.{IsOwn, own_of};

use crate::task::Own;
use poly_atom::{GuardLog, Stair, hopeless};
use poly_tiling::View;

/// Whether the own atoms end with a stair that comes after the named guard of the same change. Then they are hopeless.
pub(crate) fn is_spoilt(view: &View, log: &GuardLog, own: &Own, spoiler: Option<Stair>) -> bool
    requires own { IsOwn log.now own.now }
    requires spoiler { MatchOption spoiler ⊤ (λ s. IsSpoiler view.now log.now s) }
    ensures { IsTrue result → (hopeless view.now (own_of log.now own.now) ≡ true) }
{
    let _ = view;
    let _ = log;
    let Some(guard) = spoiler else {
        return false;
    };
    match last_stair(own) {
        None => false,
        Some(stair) => {
            if guard.edition != stair.edition || guard.index >= stair.index {
                return false;
            }
            true
        }
    }
}

/// Names a guard that is hopeless alone and comes before the stair that the own atoms end with. `None` if there is none.
pub(crate) fn spoiler_of(view: &View, log: &GuardLog, own: &Own) -> Option<Stair>
    requires { IsOwn log.now own.now }
    ensures { MatchOption result ⊤ (λ s. IsSpoiler view.now log.now s) }
{
    match last_stair(own) {
        None => None,
        Some(stair) => first_spoiler(view, log, stair),
    }
}

// Names the first guard before the stair that is hopeless alone.
fn first_spoiler(view: &View, log: &GuardLog, stair: Stair) -> Option<Stair>
    requires { IsStairOf log.now stair }
    ensures { MatchOption result ⊤ (λ s. IsSpoiler view.now log.now s) }
{
    let guards = log.guards_of(stair.edition);
    for index in 0..stair.index {
        let guard = [guards[index]];
        if hopeless(view, &guard) {
            return Some(Stair {
                edition: stair.edition,
                index,
            });
        }
    }
    None
}

/// The stair that the own atoms are or end with.
pub(crate) fn last_stair(own: &Own) -> Option<Stair>
    ensures { MatchOption result ⊤ (λ s. (log : List (List AtomOf)) → IsOwn log own.now → IsStairOf log s × ((base : List AtomOf) × (own_of log own.now ≡ base ++ stair_of log s))) }
{
    match own {
        Own::Listed(_, _) => None,
        Own::Stair(stair) => Some(*stair),
        Own::Crossed(_, stair) => Some(*stair),
    }
}
