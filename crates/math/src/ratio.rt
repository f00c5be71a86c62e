// a * b / d on u64, with no loss: rounded down, rounded up, with the remainder, and by a divisor of 65 bits. The three numbers are plain parameters
// throughout: a struct of them would be made for one call each.
ghost use Rattle.std.specs.Prelude.{◌≡◌, ◌+◌, ◌*◌, ◌/◌, ◌<◌};
ghost use Rattle.wide.specs.Value.{value};
ghost use Rattle.math.specs.Ratio.{parts_of, floor_of, ceil_of};

use divide::{Divided, div_rem};
use wide::{U128, widening_mul};

// Why there is no quotient of 64 bits: it is past a u64, or the divisor is 0.
#[derive(Clone, Copy, Debug, PartialEq, Eq)]
pub enum NoQuotient {
    Past,
    NoDivisor,
}

// a * b / d, rounded down, with the remainder.
#[tactic(auto, using(crate::proofs::Rounding::halves_past), unfolding(crate::specs::Ratio::parts_of))]
fn mul_div(a: u64, b: u64, d: u64) -> Result<Divided<u64>, NoQuotient>
    ensures { result ≡ parts_of (a * b) d }
{
    if d == 0 {
        return Err(NoQuotient::NoDivisor);
    }
    let n = widening_mul(a, b);
    if n.high < d {
        Ok(div_rem(n, d))
    } else {
        Err(NoQuotient::Past)
    }
}

// a * b / d, rounded down: the creator's part of a fee.
#[tactic(auto, unfolding(crate::specs::Ratio::parts_of, crate::specs::Ratio::floor_of, crate::specs::Ratio::fit))]
pub fn mul_div_floor(a: u64, b: u64, d: u64) -> Result<u64, NoQuotient>
    ensures { result ≡ floor_of (a * b) d }
{
    Ok(mul_div(a, b, d)?.quotient)
}

// a * b / d, rounded up: input by output.
#[tactic(auto, using(crate::proofs::Rounding::floor_le_ceil, crate::proofs::Rounding::ceil_exact, crate::proofs::Rounding::ceil_more), unfolding(crate::specs::Ratio::parts_of, crate::specs::Ratio::ceil_of, crate::specs::Ratio::fit))]
pub fn mul_div_ceil(a: u64, b: u64, d: u64) -> Result<u64, NoQuotient>
    ensures { result ≡ ceil_of (a * b) d }
{
    let parts = mul_div(a, b, d)?;
    if parts.remainder == 0 {
        return Ok(parts.quotient);
    }
    parts.quotient.checked_add(1).ok_or(NoQuotient::Past)
}

// n / (x + y), where that fits a u64. A sum of 65 bits is halved with n: the quotient of the halves is right or one too high.
pub fn div_by_sum(n: U128, x: u64, y: u64) -> u64
    requires { n.high < x + y }
    ensures { result ≡ value n / (x + y) }
{
    if x <= u64::MAX - y {
        return div_rem(n, x + y).quotient;
    }
    let over = x - (u64::MAX - y) - 1;
    let half = U128 {
        high: n.high >> 1,
        low: (n.high << 63) + (n.low >> 1),
    };
    let parts = div_rem(half, (over >> 1) + 0x8000_0000_0000_0000);
    let quotient = parts.quotient;
    let remainder = parts.remainder;
    if over % 2 == 0 {
        return quotient;
    }
    if quotient <= remainder {
        return quotient;
    }
    if quotient - remainder <= remainder + n.low % 2 {
        quotient
    } else {
        quotient - 1
    }
}

// a * b / (x + y), rounded down: divisors reach 65 bits, since net plus input can pass 2^64. Such a sum is above any high half, so its quotient fits.
#[tactic(auto, unfolding(crate::specs::Ratio::floor_of, crate::specs::Ratio::fit))]
pub fn mul_div_sum(a: u64, b: u64, x: u64, y: u64) -> Result<u64, NoQuotient>
    ensures { result ≡ floor_of (a * b) (x + y) }
{
    if x <= u64::MAX - y {
        mul_div_floor(a, b, x + y)
    } else {
        Ok(div_by_sum(widening_mul(a, b), x, y))
    }
}
