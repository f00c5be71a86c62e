// What `u128` does for the Rust, on a number of 128 bits as two u64 halves: products and sums. Quotients are crate `divide`.
#![tactic(auto)]

ghost use Rattle.std.specs.Prelude.{◌≡◌, ◌+◌, ◌*◌, ◌==◌};
ghost use Rattle.wide.specs.Value.{value, u128_of, product_of};

#[derive(Clone, Copy, Debug, PartialEq, Eq)]
pub struct U128 {
    pub high: u64,
    pub low: u64,
}

// Whether the number is 0.
pub fn is_zero(n: U128) -> bool
    ensures { result ≡ (value n == 0) }
{
    (n.high == 0) & (n.low == 0)
}

// The whole product, by its four products of 32-bit halves. The low half is summed apart from the high one: in this form the compiler
// makes one machine multiplication of all of it.
pub fn widening_mul(a: u64, b: u64) -> U128
    ensures { value result ≡ a * b }
{
    let a1 = a >> 32;
    let a0 = a % 0x1_0000_0000;
    let b1 = b >> 32;
    let b0 = b % 0x1_0000_0000;
    let p00 = a0 * b0;
    let p01 = a0 * b1;
    let p10 = a1 * b0;
    let p11 = a1 * b1;
    let middle = p10 + (p00 >> 32);
    let lower = p01 + middle % 0x1_0000_0000;
    let cross = p01.wrapping_add(p10);
    U128 {
        high: p11 + (middle >> 32) + (lower >> 32),
        low: (cross << 32).wrapping_add(p00),
    }
}

// The sum modulo 2^128: cumulative prices wrap on purpose across both halves. A quotient that is rounded up never does.
pub fn wrapping_add(a: U128, b: U128) -> U128
    ensures { result ≡ u128_of (value a + value b) }
{
    let low = a.low.wrapping_add(b.low);
    let carry = u64::from(low < a.low);
    let high = a.high.wrapping_add(b.high);
    U128 {
        high: high.wrapping_add(carry),
        low,
    }
}

// n * k, where that has 128 bits: the ring's price times seconds may pass 2^128 - 1.
pub fn checked_mul(n: U128, k: u64) -> Option<U128>
    ensures { result ≡ product_of (value n * k) }
{
    let lower = widening_mul(n.low, k);
    let upper = widening_mul(n.high, k);
    if upper.high != 0 {
        return None;
    }
    let high = upper.low.checked_add(lower.high)?;
    Some(U128 {
        high,
        low: lower.low,
    })
}
