// The fees, `curve/fees.rs` of the original: shares of an amount at a rate in millionths.
#![tactic(auto)]

ghost use Rattle.std.specs.Prelude.{true, ◌≡◌};
ghost use Rattle.fees.specs.Parts.{FeesOfParts};
ghost use Rattle.fees.specs.Fees.{split, ceil_fee, floor_fee, trading_fee, protocol_fee, fund_fee, creator_fee, creator_fee_shared_amount, split_creator_fee, calculate_pre_fee_amount};

use answer::{Answer, from_quotient};
use math::ratio::{div_by_sum, mul_div_ceil, mul_div_floor};
use refusal::Refusal;
use share::{scale_ceil, share_ceil, share_floor};
use wide::widening_mul;

// Rates are in millionths.
pub const FEE_RATE_DENOMINATOR_VALUE: u64 = 1_000_000;

// Two rates whose halves add up to less than this have a sum of at most 2^32, by which `share` reckons in 64 bits.
const NARROW: u64 = 0x8000_0000;

// amount × rate / 1,000,000, rounded up. A rate of at most the whole takes no 128-bit division.
#[tactic(auto, using(math::proofs::Rounding::share_ceil_le), unfolding(crate::specs::Fees::ceil_fee, crate::specs::Fees::fee_up, math::specs::Ratio::ceil_of, math::specs::Ratio::fit, refusal::specs::Tests::outcome))]
fn ceil_div(amount: u64, rate: u64) -> Answer
    ensures { result ≡ ceil_fee amount rate }
{
    if rate <= FEE_RATE_DENOMINATOR_VALUE {
        return Ok(share_ceil(amount, rate, FEE_RATE_DENOMINATOR_VALUE));
    }
    let fee = mul_div_ceil(amount, rate, FEE_RATE_DENOMINATOR_VALUE);
    from_quotient(fee, Refusal::ZERO_TRADING_TOKENS, Refusal::MATH_OVERFLOW)
}

// amount × rate / 1,000,000, rounded down, likewise. Both functions that it calls are others than above: one over closures would be no plainer.
#[tactic(auto, using(math::proofs::Rounding::share_floor_le), unfolding(crate::specs::Fees::floor_fee, crate::specs::Fees::fee_down, math::specs::Ratio::floor_of, math::specs::Ratio::fit, refusal::specs::Tests::outcome))]
fn floor_div(amount: u64, rate: u64) -> Answer
    ensures { result ≡ floor_fee amount rate }
{
    if rate <= FEE_RATE_DENOMINATOR_VALUE {
        return Ok(share_floor(amount, rate, FEE_RATE_DENOMINATOR_VALUE));
    }
    let fee = mul_div_floor(amount, rate, FEE_RATE_DENOMINATOR_VALUE);
    from_quotient(fee, Refusal::ZERO_TRADING_TOKENS, Refusal::MATH_OVERFLOW)
}

// Each of the five fees has a function under the original's name, as the papers do.
pub fn trading_fee(amount: u64, trade_fee_rate: u64) -> Answer
    ensures { result ≡ trading_fee amount trade_fee_rate }
{
    ceil_div(amount, trade_fee_rate)
}

pub fn protocol_fee(amount: u64, protocol_fee_rate: u64) -> Answer
    ensures { result ≡ protocol_fee amount protocol_fee_rate }
{
    floor_div(amount, protocol_fee_rate)
}

pub fn fund_fee(amount: u64, fund_fee_rate: u64) -> Answer
    ensures { result ≡ fund_fee amount fund_fee_rate }
{
    floor_div(amount, fund_fee_rate)
}

pub fn creator_fee(amount: u64, creator_fee_rate: u64) -> Answer
    ensures { result ≡ creator_fee amount creator_fee_rate }
{
    ceil_div(amount, creator_fee_rate)
}

// The share of the creator fee that goes to the protocol.
pub fn creator_fee_shared_amount(amount: u64, share_rate: u64) -> Answer
    ensures { result ≡ creator_fee_shared_amount amount share_rate }
{
    floor_div(amount, share_rate)
}

// The creator's part of a fee that was taken at both rates together: 0 at a creator rate of 0, so also where both rates are 0 (document 02
// (a)). It is at most the fee, so it fits at any rates. Narrow ones take no 128-bit division.
#[inline(always)]
#[tactic(auto, unfolding(crate::specs::Fees::split))]
pub fn creator_part(total_fee: u64, trade_fee_rate: u64, creator_fee_rate: u64) -> u64
    ensures { result ≡ split total_fee trade_fee_rate creator_fee_rate }
{
    if creator_fee_rate == 0 {
        return 0;
    }
    if trade_fee_rate / 2 + creator_fee_rate / 2 < NARROW {
        let whole = trade_fee_rate + creator_fee_rate;
        return share_floor(total_fee, creator_fee_rate, whole);
    }
    let product = widening_mul(total_fee, creator_fee_rate);
    div_by_sum(product, trade_fee_rate, creator_fee_rate)
}

// That part; 8 where the rates' sum is past u64.
#[tactic(auto, using(crate::proofs::Shares::split_le), unfolding(crate::specs::Fees::split_creator_fee, refusal::specs::Tests::outcome))]
pub fn split_creator_fee(total_fee: u64, trade_fee_rate: u64, creator_fee_rate: u64) -> Answer
    ensures { result ≡ split_creator_fee total_fee trade_fee_rate creator_fee_rate }
{
    trade_fee_rate
        .checked_add(creator_fee_rate)
        .ok_or(Refusal::MATH_OVERFLOW)?;
    Ok(creator_part(total_fee, trade_fee_rate, creator_fee_rate))
}

// The least amount that leaves `post_fee_amount` after a fee at the rate.
#[tactic(auto, unfolding(crate::specs::Fees::calculate_pre_fee_amount, crate::specs::Fees::pre_fee, math::specs::Ratio::ceil_of, math::specs::Ratio::fit, refusal::specs::Tests::outcome))]
pub fn calculate_pre_fee_amount(post_fee_amount: u64, trade_fee_rate: u64) -> Answer
    ensures { result ≡ calculate_pre_fee_amount post_fee_amount trade_fee_rate }
{
    if trade_fee_rate == 0 {
        return Ok(post_fee_amount);
    }
    if trade_fee_rate >= FEE_RATE_DENOMINATOR_VALUE {
        return Err(Refusal::ZERO_TRADING_TOKENS);
    }
    let left = FEE_RATE_DENOMINATOR_VALUE - trade_fee_rate;
    let quotient = scale_ceil(post_fee_amount, FEE_RATE_DENOMINATOR_VALUE, left);
    from_quotient(
        quotient,
        Refusal::ZERO_TRADING_TOKENS,
        Refusal::MATH_OVERFLOW,
    )
}

// Its contract: of an amount in two parts, the fees, rounded up, are together no less than the fee of the whole, and what is left of the parts is
// together no more than what is left of the whole (specs/Parts.antt).
pub fn fees_of_parts() -> bool
    ensures { (result ≡ true) × FeesOfParts }
{
    true
}
