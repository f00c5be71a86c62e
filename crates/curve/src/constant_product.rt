// The constant product curve: x × y does not fall. x is the net of the token that goes in, y of the one that comes out.
ghost use Rattle.std.specs.Prelude.{true, ◌≡◌, ◌+◌, ◌*◌, ◌<◌, IsOkAnd};
ghost use Rattle.wide.specs.Value.{value, u128_of};
ghost use Rattle.curve.specs.ConstantProduct.{swap_base_input_without_fees, swap_base_output_without_fees, lp_divided, lp_part, lp_tokens_to_trading_tokens};
ghost use Rattle.curve.specs.InTurn.{InputsInTurn};
ghost use Rattle.curve.specs.Stages.{rounded};

use answer::{Answer, from_quotient};
use divide::{Divided, div_rem_short, div_rem_wide};
use math::ratio::{mul_div_ceil, mul_div_sum};
use refusal::Refusal;
use wide::{U128, is_zero, widening_mul, wrapping_add};

// LP tokens are a count of their own, never summed with token 0 or token 1.
#[derive(Clone, Copy, Debug, PartialEq, Eq)]
pub struct LpTokens(pub u64);

#[derive(Clone, Copy, Debug, PartialEq, Eq)]
pub struct TradingTokens(pub u64);

// To round an LP amount's tokens down, or up where they are not 0.
#[derive(Clone, Copy, Debug, PartialEq, Eq)]
pub enum RoundDirection {
    Floor,
    Ceiling,
}

// An LP amount as trading tokens.
#[derive(Clone, Copy, Debug, PartialEq, Eq)]
pub struct TradingTokenResult {
    pub amount0: TradingTokens,
    pub amount1: TradingTokens,
}

// What an input gives: d × y / (x + d), rounded down. The divisor may have 65 bits.
#[tactic(auto, unfolding(crate::specs::ConstantProduct::swap_base_input_without_fees, crate::specs::ConstantProduct::swap_out, math::specs::Ratio::floor_of, math::specs::Ratio::fit, refusal::specs::Tests::outcome))]
pub fn swap_base_input_without_fees(
    input_amount: u64,
    input_vault_amount: u64,
    output_vault_amount: u64,
) -> Answer
    ensures { result ≡ swap_base_input_without_fees input_amount input_vault_amount output_vault_amount }
{
    let output = mul_div_sum(
        input_amount,
        output_vault_amount,
        input_vault_amount,
        input_amount,
    );
    from_quotient(output, Refusal::PANIC, Refusal::PANIC)
}

// What an output asks: x × o / (y − o), rounded up.
#[tactic(auto, unfolding(crate::specs::ConstantProduct::swap_base_output_without_fees, crate::specs::ConstantProduct::swap_in, math::specs::Ratio::ceil_of, math::specs::Ratio::fit, refusal::specs::Tests::outcome))]
pub fn swap_base_output_without_fees(
    output_amount: u64,
    input_vault_amount: u64,
    output_vault_amount: u64,
) -> Answer
    ensures { result ≡ swap_base_output_without_fees output_amount input_vault_amount output_vault_amount }
{
    if output_amount >= output_vault_amount {
        return Err(Refusal::PANIC);
    }
    let rest = output_vault_amount - output_amount;
    let input = mul_div_ceil(input_vault_amount, output_amount, rest);
    from_quotient(input, Refusal::PANIC, Refusal::PANIC)
}

// lp × net by the supply, quotient and remainder, in one long division. Supply 0 is none. A product of 64 bits takes one machine division.
#[tactic(auto, using(crate::proofs::LpTokens::promised_none, crate::proofs::LpTokens::promised), unfolding(crate::specs::ConstantProduct::lp_divided, refusal::specs::Tests::outcome))]
pub fn lp_tokens_div_rem(
    lp: LpTokens,
    net: TradingTokens,
    supply: LpTokens,
) -> Result<Divided<U128>, Refusal>
    ensures { (result ≡ lp_divided lp.0 net.0 supply.0) × (0 < supply.0 → IsOkAnd result (λ r. (value r.quotient * supply.0 + r.remainder ≡ lp.0 * net.0) × (r.remainder < supply.0))) }
{
    let whole = supply.0;
    let product = widening_mul(lp.0, net.0);
    if whole == 0 {
        return Err(Refusal::ZERO_TRADING_TOKENS);
    }
    if product.high == 0 {
        let parts = div_rem_short(product.low, whole);
        return Ok(Divided {
            quotient: U128 {
                high: 0,
                low: parts.quotient,
            },
            remainder: parts.remainder,
        });
    }
    Ok(div_rem_wide(product, whole))
}

// A quotient rounded down, or up: then it is one more where there is a remainder and the quotient is not 0. Modulo 2^128, which no quotient of a
// product of two u64 reaches.
#[tactic(auto, using(crate::proofs::LpTokens::kept_down, crate::proofs::LpTokens::kept_zero, crate::proofs::LpTokens::raised))]
pub fn round_quotient(quotient: U128, remainder: u64, direction: RoundDirection) -> U128
    ensures { result ≡ u128_of (rounded direction (value quotient) remainder) }
{
    match direction {
        RoundDirection::Floor => quotient,
        RoundDirection::Ceiling => {
            if is_zero(quotient) {
                return quotient;
            }
            let more = u64::from(remainder != 0);
            wrapping_add(quotient, U128 { high: 0, low: more })
        }
    }
}

// One token's part: lp × net / supply, rounded.
#[tactic(auto, using(crate::proofs::LpTokens::part_none, crate::proofs::LpTokens::part_past, crate::proofs::LpTokens::part_fits))]
pub fn lp_tokens_to_one_token(
    lp: LpTokens,
    supply: LpTokens,
    net: TradingTokens,
    direction: RoundDirection,
) -> Answer
    ensures { result ≡ lp_part direction lp.0 supply.0 net.0 }
{
    let parts = lp_tokens_div_rem(lp, net, supply)?;
    let amount = round_quotient(parts.quotient, parts.remainder, direction);
    if amount.high != 0 {
        return Err(Refusal::PANIC);
    }
    Ok(amount.low)
}

// Both tokens' parts. Each is divided before either is tested: the two divisions don't wait for each other.
#[tactic(auto, unfolding(crate::specs::ConstantProduct::lp_tokens_to_trading_tokens, crate::specs::ConstantProduct::lp_part, refusal::specs::Tests::outcome))]
pub fn lp_tokens_to_trading_tokens(
    lp: LpTokens,
    supply: LpTokens,
    net_0: TradingTokens,
    net_1: TradingTokens,
    direction: RoundDirection,
) -> Result<TradingTokenResult, Refusal>
    ensures { result ≡ lp_tokens_to_trading_tokens direction lp.0 supply.0 net_0.0 net_1.0 }
{
    let amount_0 = lp_tokens_to_one_token(lp, supply, net_0, direction);
    let amount_1 = lp_tokens_to_one_token(lp, supply, net_1, direction);
    let (amount_0, amount_1) = (amount_0?, amount_1?);
    Ok(TradingTokenResult {
        amount0: TradingTokens(amount_0),
        amount1: TradingTokens(amount_1),
    })
}

// Its contract is that two inputs in turn give together no more than both at once, on any nets (specs/InTurn.antt).
#[tactic(auto, using(crate::proofs::InTurn::inputs_in_turn))]
pub fn inputs_in_turn() -> bool
    ensures { (result ≡ true) × InputsInTurn }
{
    true
}
