// The arithmetic one function at a time, for the benchmark: each beside what u128 does.
#![tactic(auto)]

ghost use Rattle.std.specs.Prelude.{◌≡◌, ◌+◌, ◌*◌, ◌/◌, ◌%◌, ◌^◌};
ghost use Rattle.math.specs.Ratio.{floor_of, ceil_of};
ghost use Rattle.root.specs.Root.{root};
ghost use Rattle.leaves.specs.Leaves.{or_zero, price_low};

use divide::price_x32;
use math::ratio::{NoQuotient, mul_div_ceil, mul_div_floor, mul_div_sum};
use root::isqrt;
use wide::{U128, widening_mul, wrapping_add};

#[tactic(auto, unfolding(crate::specs::Leaves::or_zero))]
fn or_zero(quotient: Result<u64, NoQuotient>) -> u64
    ensures { result ≡ or_zero quotient }
{
    quotient.unwrap_or(0)
}

// The high half of a product.
#[unsafe(no_mangle)]
pub extern "C" fn leaf_mul_high(a: u64, b: u64) -> u64
    ensures { result ≡ a * b / 2 ^ 64 }
{
    widening_mul(a, b).high
}

// a * b / d, rounded down.
#[unsafe(no_mangle)]
pub extern "C" fn leaf_mul_div_floor(a: u64, b: u64, d: u64) -> u64
    ensures { result ≡ or_zero (floor_of (a * b) d) }
{
    or_zero(mul_div_floor(a, b, d))
}

// a * b / d, rounded up.
#[unsafe(no_mangle)]
pub extern "C" fn leaf_mul_div_ceil(a: u64, b: u64, d: u64) -> u64
    ensures { result ≡ or_zero (ceil_of (a * b) d) }
{
    or_zero(mul_div_ceil(a, b, d))
}

// a * b / (x + y), rounded down: the curve.
#[unsafe(no_mangle)]
pub extern "C" fn leaf_mul_div_sum(a: u64, b: u64, x: u64, y: u64) -> u64
    ensures { result ≡ or_zero (floor_of (a * b) (x + y)) }
{
    or_zero(mul_div_sum(a, b, x, y))
}

// The low half of a price.
#[unsafe(no_mangle)]
#[tactic(auto, unfolding(crate::specs::Leaves::price_low))]
pub extern "C" fn leaf_price_low(a: u64, b: u64) -> u64
    ensures { result ≡ price_low a b }
{
    if b == 0 {
        return 0;
    }
    price_x32(a, b).low
}

// The high half of a sum modulo 2^128.
#[unsafe(no_mangle)]
pub extern "C" fn leaf_sum_high(a_high: u64, a_low: u64, b_high: u64, b_low: u64) -> u64
    ensures { result ≡ (a_high * 2 ^ 64 + a_low + (b_high * 2 ^ 64 + b_low)) / 2 ^ 64 % 2 ^ 64 }
{
    let sum = wrapping_add(
        U128 {
            high: a_high,
            low: a_low,
        },
        U128 {
            high: b_high,
            low: b_low,
        },
    );
    sum.high
}

// The whole root of 128 bits.
#[unsafe(no_mangle)]
pub extern "C" fn leaf_isqrt(high: u64, low: u64) -> u64
    ensures { result ≡ root (high * 2 ^ 64 + low) }
{
    isqrt(U128 { high, low })
}
