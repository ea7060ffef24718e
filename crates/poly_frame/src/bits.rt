//! Rows of bits: sets of small numbers, kept one after another in a list of words. The set that begins at word `at` has
//! the number `j` if bit `64 * at + j` of the list is set.
ghost use Rattle.std.specs.Prelude.{MatchOption, false, length, not, slice_index, vec_capacity, vec_len, ℕ, ◌&&◌, ◌^◌, ◌*◌, ◌+◌, ◌-◌, ◌/◌, ◌<◌, ◌==◌, ◌||◌, ◌≡◌, ◌≤◌};
ghost use Rattle.std.specs.Int.{bit_at};
ghost use Rattle.poly_frame.specs.Bits.{FirstIn, IsLess, IsLessSix, NoneIn, has_bit, in_both};

/// Whether the row that begins at word `at` has the number.
#[tactic(auto, using(crate::proofs::Words::has_at))]
pub(crate) fn has(words: &[u64], at: usize, j: usize) -> bool
    requires { at + j / 64 < length words.now }
    ensures { result ≡ has_bit words.now (64 * at + j) }
{
    (words[at + j / 64] >> (j % 64)) & 1 == 1
}

/// Puts a number into the row that begins at word `at`.
#[tactic(auto, using(crate::proofs::Words::put_bit))]
pub(crate) fn put_in(words: &mut Vec<u64>, at: usize, j: usize)
    requires { at + j / 64 < length words.old.items }
    ensures len { length words.new.items ≡ length words.old.items }
    ensures capacity { vec_capacity words.new ≡ vec_capacity words.old }
    ensures bits { (x : ℕ) → has_bit words.new.items x ≡ (has_bit words.old.items x || (64 * at + j == x)) }
{
    let k = at + j / 64;
    let word = words[k];
    words[k] = word | (1 << (j % 64));
}

/// Does what `put_in` does, in a slice: a loop that writes to a slice needn't read again where it is.
#[tactic(auto, using(crate::proofs::Words::put_bit))]
pub(crate) fn put_in_words(words: &mut [u64], at: usize, j: usize)
    requires { at + j / 64 < length words.old }
    ensures len { length words.new ≡ length words.old }
    ensures bits { (x : ℕ) → has_bit words.new x ≡ (has_bit words.old x || (64 * at + j == x)) }
{
    let k = at + j / 64;
    let word = words[k];
    words[k] = word | (1 << (j % 64));
}

/// Removes a number from the row that begins at word `at`.
#[tactic(auto, using(crate::proofs::Words::clear_bit))]
pub(crate) fn take_out(words: &mut Vec<u64>, at: usize, j: usize)
    requires { at + j / 64 < length words.old.items }
    ensures len { length words.new.items ≡ length words.old.items }
    ensures capacity { vec_capacity words.new ≡ vec_capacity words.old }
    ensures bits { (x : ℕ) → has_bit words.new.items x ≡ (has_bit words.old.items x && not (64 * at + j == x)) }
{
    let k = at + j / 64;
    let word = words[k];
    words[k] = word & !(1 << (j % 64));
}

/// The bits that the first word has and the second doesn't.
pub(crate) fn less(word: u64, row: u64) -> u64
    ensures { (t : ℕ) → t < 64 → (bit_at result t == 1) ≡ ((bit_at word t == 1) && not (bit_at row t == 1)) }
{
    word & !row
}

/// Removes from the row of `words` at word `at` all numbers that the row of `rows` at word `from` has.
pub(crate) fn take_out_row(words: &mut Vec<u64>, at: usize, rows: &[u64], from: usize, width: usize)
    requires words { at + width ≤ length words.old.items }
    requires rows { from + width ≤ length rows.now }
    ensures len { length words.new.items ≡ length words.old.items }
    ensures capacity { vec_capacity words.new ≡ vec_capacity words.old }
    ensures row { (j : ℕ) → j < 64 * width → has_bit words.new.items (64 * at + j) ≡ (has_bit words.old.items (64 * at + j) && not (has_bit rows.now (64 * from + j))) }
    ensures before { (x : ℕ) → x < 64 * at → has_bit words.new.items x ≡ has_bit words.old.items x }
{
    take_out_words(&mut words[at..at + width], &rows[from..from + width]);
}

/// Removes from a row all numbers that another row has. A loop over slices: the compiler then takes several words at once.
pub(crate) fn take_out_words(words: &mut [u64], row: &[u64])
    requires { length words.old ≡ length row.now }
    ensures len { length words.new ≡ length words.old }
    ensures bits { (j : ℕ) → j < 64 * length words.old → has_bit words.new j ≡ (has_bit words.old j && not (has_bit row.now j)) }
{
    for k in 0..words.len() {
        words[k] = less(words[k], row[k]);
    }
}

// The bits that the word has and none of the words at `k` has.
fn less_three(word: u64, first: &[u64], second: &[u64], third: &[u64], k: usize) -> u64
    requires first { k < length first.now }
    requires second { k < length second.now }
    requires third { k < length third.now }
    ensures { IsLess result word (slice_index first.now k) (slice_index second.now k) (slice_index third.now k) }
{
    less(less(less(word, first[k]), second[k]), third[k])
}

/// Removes from a row all numbers that one of three other rows has: one pass over the row does what else takes three.
pub(crate) fn take_out_three(words: &mut [u64], first: &[u64], second: &[u64], third: &[u64])
    requires first { length first.now ≡ length words.old }
    requires second { length second.now ≡ length words.old }
    requires third { length third.now ≡ length words.old }
    ensures len { length words.new ≡ length words.old }
    ensures bits { (j : ℕ) → j < 64 * length words.old → has_bit words.new j ≡ (has_bit words.old j && not (has_bit first.now j || (has_bit second.now j || has_bit third.now j))) }
{
    let fours = words.len() / 4;
    take_out_fours(words, fours, first, second, third);
    take_out_rest(words, 4 * fours, first, second, third);
}

// Does what `take_out_three` does, in the first `4 * fours` words. It reads four words of each row before it writes one: the
// compiler needn't know then that the rows are apart to take several words at once.
fn take_out_fours(words: &mut [u64], fours: usize, first: &[u64], second: &[u64], third: &[u64])
    requires words { 4 * fours ≤ length words.old }
    requires first { length first.now ≡ length words.old }
    requires second { length second.now ≡ length words.old }
    requires third { length third.now ≡ length words.old }
    ensures len { length words.new ≡ length words.old }
    ensures done { (k : ℕ) → k < 4 * fours → IsLess (slice_index words.new k) (slice_index words.old k) (slice_index first.now k) (slice_index second.now k) (slice_index third.now k) }
    ensures rest { (k : ℕ) → 4 * fours ≤ k → slice_index words.new k ≡ slice_index words.old k }
{
    for c in 0..fours {
        let k = 4 * c;
        let one = less_three(words[k], first, second, third, k);
        let two = less_three(words[k + 1], first, second, third, k + 1);
        let three = less_three(words[k + 2], first, second, third, k + 2);
        let four = less_three(words[k + 3], first, second, third, k + 3);
        words[k] = one;
        words[k + 1] = two;
        words[k + 2] = three;
        words[k + 3] = four;
    }
}

// Does what `take_out_three` does, in the words from `from` on.
fn take_out_rest(words: &mut [u64], from: usize, first: &[u64], second: &[u64], third: &[u64])
    requires words { from ≤ length words.old }
    requires first { length first.now ≡ length words.old }
    requires second { length second.now ≡ length words.old }
    requires third { length third.now ≡ length words.old }
    ensures len { length words.new ≡ length words.old }
    ensures done { (k : ℕ) → from ≤ k → k < length words.old → IsLess (slice_index words.new k) (slice_index words.old k) (slice_index first.now k) (slice_index second.now k) (slice_index third.now k) }
    ensures before { (k : ℕ) → k < from → slice_index words.new k ≡ slice_index words.old k }
{
    for k in from..words.len() {
        words[k] = less_three(words[k], first, second, third, k);
    }
}

// The bits that the word has and none of the words at `k` has.
fn less_six(
    word: u64,
    first: &[u64],
    second: &[u64],
    third: &[u64],
    fourth: &[u64],
    fifth: &[u64],
    sixth: &[u64],
    k: usize,
) -> u64
    requires first { k < length first.now }
    requires second { k < length second.now }
    requires third { k < length third.now }
    requires fourth { k < length fourth.now }
    requires fifth { k < length fifth.now }
    requires sixth { k < length sixth.now }
    ensures { IsLessSix result word (slice_index first.now k) (slice_index second.now k) (slice_index third.now k) (slice_index fourth.now k) (slice_index fifth.now k) (slice_index sixth.now k) }
{
    let word = less_three(word, first, second, third, k);
    less_three(word, fourth, fifth, sixth, k)
}

/// Makes `words` the row without all numbers that one of six other rows has, in one pass.
pub(crate) fn without_six(
    row: &[u64],
    first: &[u64],
    second: &[u64],
    third: &[u64],
    fourth: &[u64],
    fifth: &[u64],
    sixth: &[u64],
    words: &mut [u64],
)
    requires row { length row.now ≡ length words.old }
    requires first { length first.now ≡ length words.old }
    requires second { length second.now ≡ length words.old }
    requires third { length third.now ≡ length words.old }
    requires fourth { length fourth.now ≡ length words.old }
    requires fifth { length fifth.now ≡ length words.old }
    requires sixth { length sixth.now ≡ length words.old }
    ensures len { length words.new ≡ length words.old }
    ensures bits { (j : ℕ) → j < 64 * length words.old → has_bit words.new j ≡ (has_bit row.now j && not (has_bit first.now j || (has_bit second.now j || (has_bit third.now j || (has_bit fourth.now j || (has_bit fifth.now j || has_bit sixth.now j)))))) }
{
    let fours = words.len() / 4;
    without_six_fours(
        row, first, second, third, fourth, fifth, sixth, words, fours,
    );
    without_six_rest(
        row,
        first,
        second,
        third,
        fourth,
        fifth,
        sixth,
        words,
        4 * fours,
    );
}

// Does what `without_six` does, in the first `4 * fours` words. It reads four words of each row before it writes one, as
// `take_out_fours` does.
fn without_six_fours(
    row: &[u64],
    first: &[u64],
    second: &[u64],
    third: &[u64],
    fourth: &[u64],
    fifth: &[u64],
    sixth: &[u64],
    words: &mut [u64],
    fours: usize,
)
    requires words { 4 * fours ≤ length words.old }
    requires row { length row.now ≡ length words.old }
    requires first { length first.now ≡ length words.old }
    requires second { length second.now ≡ length words.old }
    requires third { length third.now ≡ length words.old }
    requires fourth { length fourth.now ≡ length words.old }
    requires fifth { length fifth.now ≡ length words.old }
    requires sixth { length sixth.now ≡ length words.old }
    ensures len { length words.new ≡ length words.old }
    ensures done { (k : ℕ) → k < 4 * fours → IsLessSix (slice_index words.new k) (slice_index row.now k) (slice_index first.now k) (slice_index second.now k) (slice_index third.now k) (slice_index fourth.now k) (slice_index fifth.now k) (slice_index sixth.now k) }
{
    for c in 0..fours {
        let k = 4 * c;
        let one = less_six(row[k], first, second, third, fourth, fifth, sixth, k);
        let two = less_six(
            row[k + 1],
            first,
            second,
            third,
            fourth,
            fifth,
            sixth,
            k + 1,
        );
        let three = less_six(
            row[k + 2],
            first,
            second,
            third,
            fourth,
            fifth,
            sixth,
            k + 2,
        );
        let four = less_six(
            row[k + 3],
            first,
            second,
            third,
            fourth,
            fifth,
            sixth,
            k + 3,
        );
        words[k] = one;
        words[k + 1] = two;
        words[k + 2] = three;
        words[k + 3] = four;
    }
}

// Does what `without_six` does, in the words from `from` on.
fn without_six_rest(
    row: &[u64],
    first: &[u64],
    second: &[u64],
    third: &[u64],
    fourth: &[u64],
    fifth: &[u64],
    sixth: &[u64],
    words: &mut [u64],
    from: usize,
)
    requires words { from ≤ length words.old }
    requires row { length row.now ≡ length words.old }
    requires first { length first.now ≡ length words.old }
    requires second { length second.now ≡ length words.old }
    requires third { length third.now ≡ length words.old }
    requires fourth { length fourth.now ≡ length words.old }
    requires fifth { length fifth.now ≡ length words.old }
    requires sixth { length sixth.now ≡ length words.old }
    ensures len { length words.new ≡ length words.old }
    ensures done { (k : ℕ) → from ≤ k → k < length words.old → IsLessSix (slice_index words.new k) (slice_index row.now k) (slice_index first.now k) (slice_index second.now k) (slice_index third.now k) (slice_index fourth.now k) (slice_index fifth.now k) (slice_index sixth.now k) }
    ensures before { (k : ℕ) → k < from → slice_index words.new k ≡ slice_index words.old k }
{
    for k in from..words.len() {
        words[k] = less_six(row[k], first, second, third, fourth, fifth, sixth, k);
    }
}

/// Appends a copy of the last `width` words.
pub(crate) fn copy_last(words: &mut Vec<u64>, width: usize)
    requires some { width ≤ vec_len words.old }
    requires room { vec_len words.old + width ≤ vec_capacity words.old }
    ensures len { vec_len words.new ≡ vec_len words.old + width }
    ensures capacity { vec_capacity words.old ≤ vec_capacity words.new }
    ensures before { (x : ℕ) → x < 64 * vec_len words.old → has_bit words.new.items x ≡ has_bit words.old.items x }
    ensures row { (j : ℕ) → j < 64 * width → has_bit words.new.items (64 * vec_len words.old + j) ≡ has_bit words.old.items (64 * (vec_len words.old - width) + j) }
{
    let at = words.len();
    // there is room, so this can't fail
    let _ = words.resize(at + width, 0);
    let (before, row) = words.split_at_mut(at);
    row.copy_from_slice(&before[at - width..]);
}

/// The bits that both words have.
pub(crate) fn both(word: u64, row: u64) -> u64
    ensures { (t : ℕ) → (bit_at result t == 1) ≡ ((bit_at word t == 1) && (bit_at row t == 1)) }
{
    word & row
}

/// The first bit from `low` on that is set in a word; `None` if no bit is set there.
pub(crate) fn next_bit(word: u64, low: usize) -> Option<usize>
    requires { low < 64 }
    ensures { MatchOption result (NoneIn (λ t. bit_at word t == 1) low 64) (λ t. FirstIn (λ t. bit_at word t == 1) low 64 t) }
{
    let rest = word >> low;
    if rest == 0 {
        return None;
    }
    Some(low + rest.trailing_zeros() as usize)
}

/// The word without bit `t`.
pub(crate) fn without(word: u64, t: usize) -> u64
    requires { t < 64 }
    ensures bits { (u : ℕ) → u < 64 → (bit_at result u == 1) ≡ ((bit_at word u == 1) && not (t == u)) }
    ensures less { bit_at word t ≡ 1 → result < word }
{
    word & !(1 << t)
}

/// The first number from `low` on that is both in the row of `words` at word `at` and in the row of `rows` at word `from`;
/// `None` if there is no such number.
pub(crate) fn next_both(
    words: &[u64],
    at: usize,
    rows: &[u64],
    from: usize,
    width: usize,
    low: usize,
) -> Option<usize>
    requires words { at + width ≤ length words.now }
    requires rows { from + width ≤ length rows.now }
    requires narrow { width < 2 ^ 58 }
    ensures { MatchOption result (NoneIn (in_both words.now at rows.now from) low (64 * width)) (λ j. FirstIn (in_both words.now at rows.now from) low (64 * width) j) }
{
    let mut past = low % 64;
    for k in low / 64..width {
        if let Some(t) = next_bit(both(words[at + k], rows[from + k]), past) {
            return Some(64 * k + t);
        }
        past = 0;
    }
    None
}
