//! Numbers in decimal, put into cells at a place.
ghost use Rattle.std.specs.Prelude.{◌≡◌, ◌+◌, ◌*◌, ◌<◌, ◌≤◌, [], ◌∷◌, ◌++◌, List, ℕ, length, map, take};
ghost use Rattle.loom_tree.specs.Decimal.{decimal, signed_decimal};
ghost use Rattle.loom_trace.specs.Text.{spaced};

use crate::bytes::put_byte;
use itoa::write_digits;

// How many digits a number below 10,000 has.
#[inline(always)]
#[tactic(auto, using(crate::proofs::Decimal::short_lengths))]
fn short_count(n: u64) -> usize
    requires { n < 10000 }
    ensures count { result ≡ length (decimal n) }
    ensures most { result ≤ 4 }
{
    if n < 100 {
        if n < 10 { 1 } else { 2 }
    } else if n < 1_000 {
        3
    } else {
        4
    }
}

// How many digits a number has.
#[tactic(auto, using(crate::proofs::Decimal::shifted_lengths))]
fn digit_count(n: u64) -> usize
    ensures { result ≡ length (decimal n) }
{
    if n < 10_000 {
        short_count(n)
    } else if n < 100_000_000 {
        4 + short_count(n / 10_000)
    } else if n < 1_000_000_000_000 {
        8 + short_count(n / 100_000_000)
    } else if n < 10_000_000_000_000_000 {
        12 + short_count(n / 1_000_000_000_000)
    } else {
        16 + short_count(n / 10_000_000_000_000_000)
    }
}

// Puts the digits by the library's call.
fn put_long(n: u64, cells: &mut [u8], at: usize) -> usize
    requires { at + length (decimal n) ≤ length cells.old }
    ensures text { take result cells.new ≡ take at cells.old ++ decimal n }
    ensures place { result ≡ at + length (decimal n) }
    ensures len { length cells.new ≡ length cells.old }
{
    let end = at + digit_count(n);
    write_digits(n, cells, end);
    end
}

// Puts the digits of a number: one digit at once.
#[inline(always)]
#[tactic(auto, using(crate::proofs::Decimal::decimal_digit, crate::proofs::Decimal::one_digit))]
fn put_digits(n: u64, cells: &mut [u8], at: usize) -> usize
    requires { at + length (decimal n) ≤ length cells.old }
    ensures text { take result cells.new ≡ take at cells.old ++ decimal n }
    ensures place { result ≡ at + length (decimal n) }
    ensures len { length cells.new ≡ length cells.old }
{
    if n < 10 {
        return put_byte(b'0' + n as u8, cells, at);
    }
    put_long(n, cells, at)
}

// A number of a fixed size.
pub(crate) trait Number: Copy {
    // Its digits, with a sign where it is below 0.
    ghost text: { Self → List ℕ };

    // How many bytes they are at most.
    ghost most: { ℕ };

    // Puts the number, and gives the place behind it.
    fn put(self, cells: &mut [u8], at: usize) -> usize
        requires { at + most ≤ length cells.old }
        ensures text { take result cells.new ≡ take at cells.old ++ text self }
        ensures short { result ≤ at + most }
        ensures len { length cells.new ≡ length cells.old };
}

impl Number for u8 {
    ghost text = { decimal };

    ghost most = { 3 };

    #[inline(always)]
    #[tactic(auto, using(crate::proofs::Decimal::length_u8))]
    fn put(self, cells: &mut [u8], at: usize) -> usize {
        put_digits(self as u64, cells, at)
    }
}

impl Number for u16 {
    ghost text = { decimal };

    ghost most = { 5 };

    #[inline(always)]
    #[tactic(auto, using(crate::proofs::Decimal::length_u16))]
    fn put(self, cells: &mut [u8], at: usize) -> usize {
        put_digits(self as u64, cells, at)
    }
}

impl Number for u32 {
    ghost text = { decimal };

    ghost most = { 10 };

    #[inline(always)]
    #[tactic(auto, using(crate::proofs::Decimal::length_u32))]
    fn put(self, cells: &mut [u8], at: usize) -> usize {
        put_digits(self as u64, cells, at)
    }
}

impl Number for i64 {
    ghost text = { signed_decimal };

    ghost most = { 20 };

    #[inline(always)]
    #[tactic(auto, using(crate::proofs::Decimal::length_size))]
    fn put(self, cells: &mut [u8], at: usize) -> usize {
        let size = self.unsigned_abs();
        if self >= 0 {
            return put_digits(size, cells, at);
        }
        let digits = put_byte(b'-', cells, at);
        put_digits(size, cells, digits)
    }
}

// Puts a number behind a space.
#[inline(always)]
pub(crate) fn put_field<N: Number>(number: N, cells: &mut [u8], at: usize) -> usize
    requires { at + (N.most + 1) ≤ length cells.old }
    ensures text { take result cells.new ≡ take at cells.old ++ spaced (N.text number ∷ []) }
    ensures short { result ≤ at + (N.most + 1) }
    ensures len { length cells.new ≡ length cells.old }
{
    let digits = put_byte(b' ', cells, at);
    number.put(cells, digits)
}

// Puts numbers, each behind a space.
pub(crate) fn put_numbers<N: Number>(numbers: &[N], cells: &mut [u8], at: usize) -> usize
    requires { at + (N.most + 1) * length numbers.now ≤ length cells.old }
    ensures text { take result cells.new ≡ take at cells.old ++ spaced (map N.text numbers.now) }
    ensures short { result ≤ at + (N.most + 1) * length numbers.now }
    ensures len { length cells.new ≡ length cells.old }
{
    let mut end = at;
    for n in numbers {
        end = put_field(*n, cells, end);
    }
    end
}
