// A number of 128 bits divided by a u64, in digits of 32 bits.
#![tactic(auto)]

ghost use Rattle.std.specs.Prelude.{◌≡◌, ◌+◌, ◌*◌, ◌/◌, ◌^◌, ◌<◌, ◌≤◌};
ghost use Rattle.wide.specs.Value.{value};
ghost use Rattle.divide.specs.Division.{divided, divided_wide};
ghost use Rattle.wide.specs.Steps.{Divides, Less};

use wide::U128;

// A quotient, of a u64 or of up to 128 bits, and the remainder.
#[derive(Clone, Copy, Debug, PartialEq, Eq)]
pub struct Divided<Q> {
    pub quotient: Q,
    pub remainder: u64,
}

// A divisor is a number above 0 by what each function asks: a type of its own for it would be made and opened at each call, and is no plainer.

// A u64 by a u64, in one machine division: what the quotient does not take is the remainder.
pub fn div_rem_short(n: u64, d: u64) -> Divided<u64>
    requires { 0 < d }
    ensures { result ≡ divided n d }
{
    let quotient = n / d;
    Divided {
        quotient,
        remainder: n - quotient * d,
    }
}

// 1 where a is below b, and 0 elsewhere: a number, so that no branch hangs on it.
fn less(a: u64, b: u64) -> u64
    ensures { Less a b result }
{
    u64::from(a < b)
}

// One digit of a quotient, and what is left. The estimate by the divisor's upper half is right, or too high by one or two.
// What it leaves wraps where it is too high; with d added once it is below d, unless d must be added again.
fn digit(high: u64, low: u64, d: u64) -> Divided<u64>
    requires { (2 ^ 63 ≤ d) × (high < d) × (low < 2 ^ 32) }
    ensures { Divides (high * 2 ^ 32 + low) d result.quotient result.remainder }
{
    let upper = d >> 32;
    let lower = d % 0x1_0000_0000;
    let by_upper = div_rem_short(high, upper);
    let estimate = by_upper.quotient;
    let rest = by_upper.remainder * 0x1_0000_0000 + low;
    let taken = estimate * lower;
    let one = less(rest, taken);
    let left = rest.wrapping_sub(taken);
    let once = left.wrapping_add(one * d);
    let two = 1 - less(once, d);
    Divided {
        quotient: estimate - one - two,
        remainder: once.wrapping_add(two * d),
    }
}

// The shift that brings the top set bit of d to bit 63.
fn norm_shift(d: u64) -> u32
    requires { 0 < d }
    ensures { (2 ^ 63 ≤ d * 2 ^ result) × (d * 2 ^ result < 2 ^ 64) × (result < 64) }
{
    d.leading_zeros()
}

// The quotient and the remainder, where the quotient fits a u64: one machine division, or two digits.
pub fn div_rem(n: U128, d: u64) -> Divided<u64>
    requires { n.high < d }
    ensures { result ≡ divided (value n) d }
{
    let high = n.high;
    let low = n.low;
    if high == 0 {
        return div_rem_short(low, d);
    }
    let shift = norm_shift(d);
    let divisor = d << shift;
    let upper = (high << shift) + ((low >> 1) >> (63 - shift));
    let lower = low << shift;
    let first = digit(upper, lower >> 32, divisor);
    let second = digit(first.remainder, lower % 0x1_0000_0000, divisor);
    Divided {
        quotient: first.quotient * 0x1_0000_0000 + second.quotient,
        remainder: second.remainder >> shift,
    }
}

// Whatever the quotient's size: where the high half is not below d it is divided first, and what it leaves takes its place before the low half.
// It calls itself (at most once) and so is never inlined: a caller's own short case stays short.
fn long_division(high: u64, low: u64, d: u64) -> Divided<U128>
    requires { 0 < d }
    ensures { result ≡ divided_wide (high * 2 ^ 64 + low) d }
{
    if high < d {
        let parts = div_rem(U128 { high, low }, d);
        return Divided {
            quotient: U128 {
                high: 0,
                low: parts.quotient,
            },
            remainder: parts.remainder,
        };
    }
    let upper = div_rem_short(high, d);
    let lower = long_division(upper.remainder, low, d);
    Divided {
        quotient: U128 {
            high: upper.quotient,
            low: lower.quotient.low,
        },
        remainder: lower.remainder,
    }
}

// The quotient and the remainder, whatever the quotient's size.
pub fn div_rem_wide(n: U128, d: u64) -> Divided<U128>
    requires { 0 < d }
    ensures { result ≡ divided_wide (value n) d }
{
    long_division(n.high, n.low, d)
}

// The first 32 bits after the point of a / b, which is below 1.
fn fraction_x32(a: u64, b: u64) -> u64
    requires { a < b }
    ensures { result ≡ a * 2 ^ 32 / b }
{
    let shift = norm_shift(b);
    digit(a << shift, 0, b << shift).quotient
}

// The ring's price, a * 2^32 / b rounded down: up to 96 bits.
pub fn price_x32(a: u64, b: u64) -> U128
    requires { 0 < b }
    ensures { value result ≡ a * 2 ^ 32 / b }
{
    if a < 0x1_0000_0000 {
        return U128 {
            high: 0,
            low: a * 0x1_0000_0000 / b,
        };
    }
    let parts = div_rem_short(a, b);
    let whole = parts.quotient;
    let fraction = fraction_x32(parts.remainder, b);
    U128 {
        high: whole >> 32,
        low: (whole << 32) + fraction,
    }
}
