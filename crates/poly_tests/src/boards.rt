//! Boards, read by the thread that posts and by another one.
ghost use Rattle.std.specs.Prelude.{◌≡◌, ◌≤◌};
ghost use Rattle.poly_board.specs.Posts.{last_of};

use poly_board::laws::last_post_is_seen;
use poly_board::{Board, Look, Posted, Poster};
use std::thread;

const POSTS: u32 = 10_000;

fn posted(edition: u32, endings: u32) -> Posted
    ensures { (result.edition ≡ edition) × (result.endings ≡ endings) }
{
    Posted { edition, endings }
}

fn falls(before: Posted, after: Posted) -> bool {
    after.edition < before.edition || after.endings < before.endings
}

// A poster with the number that it posted last, both as the edition and as the endings. In the same way a desk keeps its
// book, which has the numbers, next to its poster.
#[derive(Drop)]
struct Counter {
    last: u32,
    poster: Poster,
    ghost posted: { last_of poster.posts ≡ record { edition = last; endings = last } },
}

impl Counter {
    fn post(&mut self, number: u32)
        requires { self.old.last ≤ number }
        ensures { self.new.last ≡ number }
    {
        self.poster.post(posted(number, number));
        self.last = number;
    }
}

// Two looks at one board, both read by the same thread.
#[derive(Drop)]
struct Reader {
    first: Look,
    second: Look,
    last: Posted,
}

impl Reader {
    // Whether a number fell from one read to the next, or the two numbers of the last read were not posted together.
    fn is_wrong(&mut self) -> bool {
        let one = self.first.look();
        let two = self.second.look();
        let wrong = falls(self.last, one) || falls(one, two) || two.edition != two.endings;
        self.last = two;
        wrong
    }
}

#[test]
fn the_board(rt: HostRuntime) {
    let alloc = rt.alloc();
    let (mut poster, mut look) = Board::new(alloc, posted(0, 0)).expect(&rt, "a board");
    let mut early = look.split(alloc).expect(&rt, "a look");
    assert_eq!(rt; look.look(), posted(0, 0));
    poster.post(posted(1, 0));
    assert_eq!(rt; look.look(), posted(1, 0));
    let mut late = look.split(alloc).expect(&rt, "a look");
    assert_eq!(rt; (early.look(), late.look()), (posted(1, 0), posted(1, 0)));
}

#[test]
fn any_numbers_open_a_board(rt: HostRuntime) {
    let most = u32::MAX;
    for (edition, endings) in [(0, most), (most, 0), (most, most), (7, most)] {
        let opening = posted(edition, endings);
        let (mut poster, mut look) = Board::new(rt.alloc(), opening).expect(&rt, "a board");
        assert_eq!(rt; look.look(), opening);
        assert_eq!(rt; last_post_is_seen(&mut poster, &mut look, opening), opening);
    }
}

#[test]
fn looks_never_see_a_number_fall(rt: HostRuntime) {
    let alloc = rt.alloc();
    let (poster, mut look) = Board::new(alloc, posted(0, 0)).expect(&rt, "a board");
    let first = look.split(alloc).expect(&rt, "a look");
    let second = look.split(alloc).expect(&rt, "a look");
    let mut counter = Counter { last: 0, poster };
    let mut reader = Reader {
        first,
        second,
        last: posted(0, 0),
    };
    let (_counter, wrong) = thread::join(
        &rt,
        move || {
            for _ in 0..POSTS {
                let last = counter.last;
                if last < POSTS {
                    counter.post(last + 1);
                }
            }
            counter
        },
        move || {
            let mut wrong = false;
            for _ in 0..POSTS {
                wrong = reader.is_wrong() || wrong;
            }
            wrong
        },
    );
    assert!(rt; !wrong);
    assert_eq!(rt; look.look(), posted(POSTS, POSTS));
}
