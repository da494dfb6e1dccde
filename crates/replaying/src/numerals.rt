// Numerals: decimal numbers and pairs of hexadecimal digits.
ghost use Rattle.std.specs.Prelude.{◌≡◌, ◌+◌, ◌≤◌, ◌<◌, length, IfOk, IfSome, OnSome};
ghost use Rattle.replaying.specs.Numerals.{value_within, decimal_at, hex_of, pair_at};

use crate::scanning;
use crate::scanning::Sort;

// Why there is no number: no digit, or a value above the bound, which it names.
#[derive(Clone, Copy, Debug, PartialEq, Eq)]
pub(crate) enum NumberFault {
    Missing,
    TooLarge(u32),
}

// The value of decimal digits where it is at most `most`.
fn value(digits: &[u8], most: u32) -> Option<u32>
    ensures answer { result ≡ value_within digits.now most }
    ensures bound { IfSome result (λ v. v ≤ most) }
{
    let mut value = 0u64;
    for &digit in digits {
        value = value * 10 + u64::from(digit.saturating_sub(b'0'));
        if value > u64::from(most) {
            return None;
        }
    }
    Some(value as u32)
}

// The number at a position and the position behind it.
pub(crate) fn decimal_at(s: &[u8], at: usize, most: u32) -> Result<(u32, usize), NumberFault>
    requires { at ≤ length s.now }
    ensures answer { result ≡ decimal_at s.now at most }
    ensures bound { IfOk result (λ d. d.0 ≤ most) }
    ensures within { IfOk result (λ d. (at < d.1) × (d.1 ≤ length s.now)) }
{
    let end = scanning::run_end(s, at, Sort::Digit);
    if end == at {
        return Err(NumberFault::Missing);
    }
    match value(&s[at..end], most) {
        Some(value) => Ok((value, end)),
        None => Err(NumberFault::TooLarge(most)),
    }
}

// The value of a hexadecimal digit in either case.
fn hex_digit(b: u8) -> Option<u32>
    ensures value { result ≡ hex_of b }
    ensures bound { IfSome result (λ d. d < 16) }
{
    char::from(b).to_digit(16)
}

// The byte that the two hexadecimal digits at `at` are.
#[tactic(auto, unfolding(crate::specs::Numerals::pair_at, crate::specs::Numerals::pair_of))]
pub(crate) fn pair_at(s: &[u8], at: usize) -> Option<u8>
    requires { at ≤ length s.now }
    ensures value { result ≡ pair_at s.now at }
    ensures within { OnSome result (at + 2 ≤ length s.now) }
{
    if s.len() - at < 2 {
        return None;
    }
    let high = hex_digit(s[at])?;
    let low = hex_digit(s[at + 1])?;
    Some((high * 16 + low) as u8)
}
