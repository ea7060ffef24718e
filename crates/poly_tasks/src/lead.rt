//! The `Lacks` that the guards of a change begin with.
//!
//! A change that adds thousands of placements has a `Lacks` for each of them, and these guards come before its others. To read the
//! other atoms of many stairs of one change, these guards are looked through once.
ghost use Rattle.std.specs.Prelude.{List, ◌≡◌};
ghost use Rattle.poly_atom.specs.declared.atom.Atom.{Atom as AtomOf};
ghost use Rattle.poly_tasks.specs.Judged.{IsLead};

use crate::judge::lead_of;
use poly_atom::GuardLog;

/// How many guards of an edition, from the first on, are a `Lacks`.
#[derive(Clone, Copy)]
pub(crate) struct Lead {
    /// The edition before the change that laid the guards.
    pub edition: u64,
    /// How many guards these are.
    pub count: usize,
}

impl Lead {
    /// That of no edition.
    pub(crate) fn none() -> Lead
        ensures { (log : List (List AtomOf)) → IsLead log result }
    {
        Lead {
            edition: u64::MAX,
            count: 0,
        }
    }

    /// That of the edition. Reads no guard if it is known already.
    pub(crate) fn at(self, log: &GuardLog, edition: u64) -> Lead
        requires { IsLead log.now self }
        ensures lead { IsLead log.now result }
        ensures edition { result.edition ≡ edition }
    {
        if self.edition == edition {
            return self;
        }
        Lead {
            edition,
            count: lead_of(log.guards_of(edition)),
        }
    }
}
