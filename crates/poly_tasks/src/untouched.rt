//! Stairs that a change doesn't touch.
//!
//! The stairs of one change share their first guards. So it is enough to look once for the first of these guards that a later
//! change touches. A stair up to there isn't touched if its last atom isn't, and then its task goes on and needn't be read.
ghost use Rattle.std.specs.Prelude.{IsTrue, false, length, ◌<◌, ◌≡◌};
ghost use Rattle.std.specs.List.{list_any};
ghost use Rattle.poly_tasks.specs.Meaning.{IsOwn, own_of};
ghost use Rattle.poly_tasks.specs.Touching.{AreUntouched, touches};

use crate::task::Own;
use crate::touch::Touch;
use poly_atom::GuardLog;

/// The first guards of an edition, none of which the change touches.
#[derive(Clone, Copy)]
pub(crate) struct Untouched {
    /// The edition before the change that laid the guards.
    pub edition: u64,
    /// How many guards these are.
    pub count: usize,
}

impl Untouched {
    /// No guards.
    pub(crate) fn none() -> Untouched
        ensures { result.count ≡ 0 }
    {
        Untouched {
            edition: u64::MAX,
            count: 0,
        }
    }
}

/// Whether the own atoms are a stair, and none of them is touched. `known` has the first guards of an edition, or is overwritten
/// with those of the stair's edition.
pub(crate) fn is_untouched(
    touch: &Touch<'_>,
    log: &GuardLog,
    own: &Own,
    known: &mut Untouched,
) -> bool
    requires own { IsOwn log.now own.now }
    requires known { AreUntouched touch.now log.now known.old }
    ensures known { AreUntouched touch.now log.now known.new }
    ensures untouched { IsTrue result → (list_any (λ a. touches touch.now a) (own_of log.now own.now) ≡ false) }
{
    let Own::Stair(stair) = own else {
        return false;
    };
    let first = first_of_edition(touch, log, stair.edition, *known);
    *known = first;
    if stair.index > first.count {
        return false;
    }
    let last = log.guards_of(stair.edition)[stair.index].negated();
    !touch.touches(&last)
}

// The first guards of the edition, none of which is touched. These are the known ones if they are of this edition.
fn first_of_edition(touch: &Touch<'_>, log: &GuardLog, edition: u64, known: Untouched) -> Untouched
    requires edition { edition < length log.now }
    requires known { AreUntouched touch.now log.now known }
    ensures untouched { AreUntouched touch.now log.now result }
    ensures edition { result.edition ≡ edition }
{
    if known.edition == edition {
        return known;
    }
    first_untouched(touch, log, edition)
}

// The first guards of the edition up to one that is touched.
fn first_untouched(touch: &Touch<'_>, log: &GuardLog, edition: u64) -> Untouched
    requires { edition < length log.now }
    ensures untouched { AreUntouched touch.now log.now result }
    ensures edition { result.edition ≡ edition }
{
    let guards = log.guards_of(edition);
    for count in 0..guards.len() {
        if touch.touches(&guards[count]) {
            return Untouched { edition, count };
        }
    }
    Untouched {
        edition,
        count: guards.len(),
    }
}
