//! The scarcest of the items that are noted as due. This runs at each node of a search, so it reads plain words. In short rows all
//! words are counted, by code for each width that has no loop over the words, and the scarcest item is kept without a branch. In
//! longer rows a count stops once it reaches the fewest options so far. Only for wide rows it is worth looking for empty words.
//! Nothing is proved here but that no index is out of range: the caller tests whether the item that is found is due.
ghost use Rattle.std.specs.Prelude.{length, ◌*◌, ◌+◌, ◌<◌, ◌≡◌, ◌≤◌, ◌^◌};

use crate::frame::occupied::{NARROW, Occupied, common, count_all, count_common, occupied_words};

// The most words of notes that are read: a note for each of 8,192 items. A design has at most 320.
const NOTED: usize = 128;

// The lowest bit of a rank that tells how many options there are to spare. The bits below it tell the index of an item.
const SPARE: u32 = 16;

// A rank tells of at most this many options to spare, which is more than any row has. It stands for `usize::MAX` as well.
const MOST_SPARE: u64 = 0xffff_ffff;

/// The rows of a matrix.
#[derive(Clone, Copy)]
pub(crate) struct Rows<'a> {
    /// A row for each item, one after another.
    pub(crate) words: &'a [u64],
    /// How many items there are.
    pub(crate) items: usize,
    /// Which words of each row have bits set; empty if the rows are narrow.
    pub(crate) occupied: &'a [Occupied],
}

/// What the items still need.
#[derive(Clone, Copy)]
pub(crate) struct Needs<'a> {
    /// How many members of the base have each item.
    pub(crate) have: &'a [u64],
    /// How many members with each item are asked for.
    pub(crate) leasts: &'a [u8],
    /// Whether at most one member with each item is asked for.
    pub(crate) single: bool,
}

/// The index of an item, and how many options it has to spare: those beyond what it still needs, plus one; 0 if there are too
/// few. If no item was found, `spare` is `usize::MAX`.
#[derive(Clone, Copy)]
pub(crate) struct Scarce {
    pub(crate) index: usize,
    pub(crate) spare: usize,
}

// How many members with the item at `b` are asked for besides the next one.
fn further(needs: &Needs<'_>, b: usize) -> usize {
    if b >= needs.have.len() || b >= needs.leasts.len() {
        return 0;
    }
    let asked = u64::from(needs.leasts[b]).saturating_sub(needs.have[b]);
    (asked as usize).saturating_sub(1)
}

// The row at `b`.
fn row_at<'a>(words: &'a [u64], width: usize, items: usize, b: usize) -> &'a [u64]
    requires words { width * items ≤ length words.now }
    requires inside { b < items }
    ensures { length result.now ≡ width }
{
    &words[width * b..width * b + width]
}

/// The item with the fewest options to spare among those whose bit is set in `due`. `live` is the row of the open columns.
/// Looks at the item at `guess` before the others, and stops at an item that has too few options.
pub(crate) fn scarcest(
    live: &[u64],
    rows: &Rows<'_>,
    needs: &Needs<'_>,
    due: &[u64],
    guess: usize,
) -> Scarce
    requires { length rows.now.words.now ≡ length live.now * rows.now.items }
{
    if needs.single {
        if let Some(rank) = least_rank(live, rows, due, guess) {
            return scarce_of(rank);
        }
    }
    let occupied = if live.len() <= NARROW {
        None
    } else {
        Some(occupied_words(live))
    };
    let mut best = Scarce {
        index: 0,
        spare: usize::MAX,
    };
    let noted = due.len().min(NOTED);
    let k = guess / 64;
    if k < noted {
        let guessed = due[k] & (1u64 << (guess % 64));
        best = scarcest_of_word(live, &occupied, rows, needs, 64 * k, guessed, best);
        // so that an item before it that has as many options comes first
        if best.spare > 0 {
            best.spare = best.spare.saturating_add(1);
        }
    }
    for k in 0..noted {
        best = scarcest_of_word(live, &occupied, rows, needs, 64 * k, due[k], best);
    }
    best
}

// The rank of the scarcest item whose bit is set in `due`, if each item is asked for at most once. `None` if the rows aren't
// narrow. A narrow row has up to 24 words, and each width has code of its own.
fn least_rank(live: &[u64], rows: &Rows<'_>, due: &[u64], guess: usize) -> Option<u64>
    requires { length rows.now.words.now ≡ length live.now * rows.now.items }
{
    match live.len() {
        1 => Some(least_rank_in::<1>(live, rows, due, guess)),
        2 => Some(least_rank_in::<2>(live, rows, due, guess)),
        3 => Some(least_rank_in::<3>(live, rows, due, guess)),
        4 => Some(least_rank_in::<4>(live, rows, due, guess)),
        5 => Some(least_rank_in::<5>(live, rows, due, guess)),
        6 => Some(least_rank_in::<6>(live, rows, due, guess)),
        7 => Some(least_rank_in::<7>(live, rows, due, guess)),
        8 => Some(least_rank_in::<8>(live, rows, due, guess)),
        9 => Some(least_rank_in::<9>(live, rows, due, guess)),
        10 => Some(least_rank_in::<10>(live, rows, due, guess)),
        11 => Some(least_rank_in::<11>(live, rows, due, guess)),
        12 => Some(least_rank_in::<12>(live, rows, due, guess)),
        13 => Some(least_rank_in::<13>(live, rows, due, guess)),
        14 => Some(least_rank_in::<14>(live, rows, due, guess)),
        15 => Some(least_rank_in::<15>(live, rows, due, guess)),
        16 => Some(least_rank_in::<16>(live, rows, due, guess)),
        17 => Some(least_rank_in::<17>(live, rows, due, guess)),
        18 => Some(least_rank_in::<18>(live, rows, due, guess)),
        19 => Some(least_rank_in::<19>(live, rows, due, guess)),
        20 => Some(least_rank_in::<20>(live, rows, due, guess)),
        21 => Some(least_rank_in::<21>(live, rows, due, guess)),
        22 => Some(least_rank_in::<22>(live, rows, due, guess)),
        23 => Some(least_rank_in::<23>(live, rows, due, guess)),
        24 => Some(least_rank_in::<24>(live, rows, due, guess)),
        _ => None,
    }
}

// Does what `least_rank` does, for rows of `WIDTH` words.
fn least_rank_in<const WIDTH: usize>(
    live: &[u64],
    rows: &Rows<'_>,
    due: &[u64],
    guess: usize,
) -> u64
    requires live { length live.now ≡ WIDTH }
    requires words { length rows.now.words.now ≡ WIDTH * rows.now.items }
{
    let mut rank = guessed_rank::<WIDTH>(live, rows, due, guess);
    for k in 0..due.len().min(NOTED) {
        if rank >> SPARE == 0 {
            return rank;
        }
        rank = least_rank_of_word::<WIDTH>(live, rows, 64 * k, due[k], rank);
    }
    rank
}

// The rank of the item at `guess`, if its bit is set in `due`. One more is given as its spare options, so that an item before it
// that has as many comes first.
fn guessed_rank<const WIDTH: usize>(live: &[u64], rows: &Rows<'_>, due: &[u64], guess: usize) -> u64
    requires live { length live.now ≡ WIDTH }
    requires words { length rows.now.words.now ≡ WIDTH * rows.now.items }
{
    let k = guess / 64;
    if guess >= rows.items || k >= due.len() || (due[k] >> (guess % 64)) & 1 == 0 {
        return rank_of(usize::MAX, 0);
    }
    let spare = count_all::<WIDTH>(live, row_at(rows.words, WIDTH, rows.items, guess));
    if spare == 0 {
        rank_of(0, guess)
    } else {
        rank_of(spare.saturating_add(1), guess)
    }
}

// The lowest of `rank` and the ranks of the items whose bits are set in the word, or that of an item that has no options. Bit 0
// is that of the item at `first`.
fn least_rank_of_word<const WIDTH: usize>(
    live: &[u64],
    rows: &Rows<'_>,
    first: usize,
    word: u64,
    rank: u64,
) -> u64
    requires live { length live.now ≡ WIDTH }
    requires words { length rows.now.words.now ≡ WIDTH * rows.now.items }
    requires small { first < 64 * NOTED }
{
    let mut rank = rank;
    let mut left = word;
    while left != 0 {
        let b = first + left.trailing_zeros() as usize;
        left &= left - 1;
        if b < rows.items {
            let spare = count_all::<WIDTH>(live, row_at(rows.words, WIDTH, rows.items, b));
            rank = rank.min(rank_of(spare, b));
            if spare == 0 {
                return rank;
            }
        }
    }
    rank
}

// A number for each item, which is lower the fewer options the item has to spare, and of two with equally many the lower for the
// item that comes first.
fn rank_of(spare: usize, index: usize) -> u64 {
    ((spare as u64).min(MOST_SPARE) << SPARE) | ((index as u64) & 0xffff)
}

// The item of a rank.
fn scarce_of(rank: u64) -> Scarce {
    let spare = rank >> SPARE;
    Scarce {
        index: (rank & 0xffff) as usize,
        spare: if spare < MOST_SPARE {
            spare as usize
        } else {
            usize::MAX
        },
    }
}

// The scarcest of `best` and the items whose bits are set in the word. Bit 0 is that of the item at `first`. `occupied` are the
// occupied words of `live`; if there are none, all words are read.
fn scarcest_of_word(
    live: &[u64],
    occupied: &Option<Occupied>,
    rows: &Rows<'_>,
    needs: &Needs<'_>,
    first: usize,
    word: u64,
    best: Scarce,
) -> Scarce
    requires words { length rows.now.words.now ≡ length live.now * rows.now.items }
    requires small { first < 64 * NOTED }
{
    let mut best = best;
    let mut left = word;
    for _turn in 0..64u32 {
        if left == 0 || best.spare == 0 {
            return best;
        }
        let b = first + left.trailing_zeros() as usize;
        left &= left - 1;
        if b < rows.items {
            let further = further(needs, b);
            let most = best.spare.saturating_add(further);
            let spare = options_at(live, occupied, rows, b, most).saturating_sub(further);
            if spare < best.spare {
                best = Scarce { index: b, spare };
            }
        }
    }
    best
}

// How many open columns the row at `b` has. A count that reaches `most` may stop there.
fn options_at(
    live: &[u64],
    occupied: &Option<Occupied>,
    rows: &Rows<'_>,
    b: usize,
    most: usize,
) -> usize
    requires words { length rows.now.words.now ≡ length live.now * rows.now.items }
    requires inside { b < rows.now.items }
{
    let row = row_at(rows.words, live.len(), rows.items, b);
    match (occupied, rows.occupied.get(b)) {
        (Some(some), Some(filled)) => common(live, some, row, filled, most),
        _ => count_common(live, row, most),
    }
}
