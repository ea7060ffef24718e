//! Lanes and their thieves: in one thread, and with three thieves in threads of their own.
ghost use Rattle.std.specs.Prelude.{◌≡◌};

use poly_crew::laws::pushed_is_taken_and_left;
use poly_crew::{Lane, Thief};
use poly_grid::Refusal;
use std::alloc::Global;
use std::thread;

const HINTS: u32 = 10_000;

const TRIES: u32 = 1_000_000;

// Tries to steal a hint, up to `tries` times.
fn steal_in(thief: &mut Thief, tries: u32) -> Option<u32>
    ensures { thief.new.deque ≡ thief.old.deque }
{
    for _ in 0..tries {
        if let Some(hint) = thief.steal() {
            return Some(hint);
        }
    }
    None
}

#[derive(Drop)]
enum End {
    Own(Lane),
    Other(Thief),
}

// One end of a lane, and how often each hint was taken there.
#[derive(Drop)]
struct Party {
    end: End,
    times: Vec<u8>,
}

impl Party {
    fn new(alloc: Global, end: End) -> Result<Party, Refusal> {
        let times = Vec::from_elem(alloc, 0, HINTS as usize)?;
        Ok(Party { end, times })
    }

    fn note(&mut self, taken: Option<u32>) {
        if let Some(hint) = taken
            && let Some(times) = self.times.get_mut(hint as usize)
        {
            *times = times.saturating_add(1);
        }
    }

    // The owner pushes a hint in each turn until all are pushed, and pops after every third push. A thief tries to steal
    // in each turn.
    fn work(&mut self) {
        for turn in 0..TRIES {
            let taken = match &mut self.end {
                End::Own(lane) => own_turn(lane, turn),
                End::Other(thief) => thief.steal(),
            };
            self.note(taken);
        }
    }

    // The owner pops what is left.
    fn empty(&mut self) {
        for _ in 0..HINTS {
            let taken = match &mut self.end {
                End::Own(lane) => lane.pop(),
                End::Other(_) => None,
            };
            self.note(taken);
        }
    }
}

fn own_turn(lane: &mut Lane, turn: u32) -> Option<u32> {
    if turn < HINTS {
        let _ = lane.push(turn);
        if turn % 3 == 0 {
            return lane.pop();
        }
    }
    None
}

// A lane's own end and three thieves.
fn parties(alloc: Global) -> Result<Vec<Party>, Refusal> {
    let mut lane = Lane::new(alloc)?;
    let mut parties = Vec::with_capacity(alloc, 4)?;
    for _ in 0..3u8 {
        parties.push(Party::new(alloc, End::Other(lane.thief()?))?)?;
    }
    parties.push(Party::new(alloc, End::Own(lane))?)?;
    Ok(parties)
}

fn times_taken(parties: &[Party], hint: usize) -> u64 {
    let mut times = 0u64;
    for party in parties {
        times = times.saturating_add(u64::from(*party.times.get(hint).unwrap_or(&0)));
    }
    times
}

#[test]
fn the_lane(rt: HostRuntime) {
    let mut lane = Lane::new(rt.alloc()).expect(&rt, "a lane");
    let mut thief = lane.thief().expect(&rt, "a thief");
    lane.push(1).expect(&rt, "memory");
    lane.push(2).expect(&rt, "memory");
    lane.push(3).expect(&rt, "memory");
    assert_eq!(rt; steal_in(&mut thief, 1000), Some(1));
    assert_eq!(rt;
        (lane.pop(), lane.pop(), lane.pop()),
        (Some(2), Some(3), None)
    );
    lane.take_back(thief);
    assert_eq!(rt; lane.left(), 0);
}

#[test]
fn a_hint_that_nobody_took_is_left(rt: HostRuntime) {
    let mut lane = Lane::new(rt.alloc()).expect(&rt, "a lane");
    lane.push(7).expect(&rt, "memory");
    let thief = lane.thief().expect(&rt, "a thief");
    assert_eq!(rt; pushed_is_taken_and_left(&mut lane, thief), 1);
}

#[test]
fn each_hint_is_taken_once_or_left(rt: HostRuntime) {
    let mut parties = parties(rt.alloc()).expect(&rt, "a lane");
    thread::for_each_mut(&rt, parties.as_mut_slice(), 4, &|_, party| party.work());
    for party in parties.iter_mut() {
        party.empty();
    }
    for hint in 0..HINTS as usize {
        assert_eq!(rt; times_taken(&parties, hint), 1);
    }
}
