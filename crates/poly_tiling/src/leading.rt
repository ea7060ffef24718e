//! The leading numbers of a row as the digits of one number, so that most rows are compared by one comparison.
ghost use Rattle.std.specs.Prelude.{◌*◌, ◌+◌, ◌<◌, ◌≡◌, ◌^◌};
ghost use Rattle.poly_tiling.specs.Leading.{AreDigits, digit_at, leading};

/// The largest count up to 64 for which the base to the power of the count is below 2^64. Numbers of so many digits of this
/// base always fit into 64 bits.
pub(crate) fn digit_count(base: u64) -> usize
    ensures { base ^ result < 2 ^ 64 }
{
    let mut power: u64 = 1;
    for count in 0..64 {
        match power.checked_mul(base) {
            Some(next) => power = next,
            None => return count,
        }
    }
    64
}

/// The first `count` numbers of the row, as digits of this base. The digit of a number is one more than the number, and
/// the digits past the end of the row are 0. So two rows compare as their results do, if the results differ.
pub(crate) fn leading(row: &[u32], base: u64, count: usize) -> u64
    requires positive { 0 < base }
    requires digits { AreDigits base row.now }
    requires fits { base ^ count < 2 ^ 64 }
    ensures { result ≡ leading base row.now count }
{
    let mut number: u64 = 0;
    for index in 0..count {
        number = with_digit(number, base, digit_at(row, index));
    }
    number
}

fn with_digit(number: u64, base: u64, digit: u64) -> u64
    requires fits { number * base + digit < 2 ^ 64 }
    ensures { result ≡ number * base + digit }
{
    number * base + digit
}

fn digit_at(row: &[u32], index: usize) -> u64
    ensures { result ≡ digit_at row.now index }
{
    match row.get(index) {
        Some(number) => *number as u64 + 1,
        None => 0,
    }
}
