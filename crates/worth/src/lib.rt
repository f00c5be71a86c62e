// An LP amount's worth in both tokens, for deposits and withdrawals (document 01, 'Deposit' and 'Withdrawal').
#![tactic(auto)]

ghost use Rattle.std.specs.Prelude.{◌≡◌};
ghost use Rattle.worth.specs.Worth.{token_amounts, rounding as roundingOf, worth_of};

use accounting::Books;
use curve::constant_product::{
    LpTokens, RoundDirection, TradingTokenResult, TradingTokens, lp_tokens_div_rem, round_quotient,
};
use refusal::Refusal;
use wide::is_zero;

// The nets, and each token's part of them.
#[derive(Clone, Copy, Debug, PartialEq, Eq)]
pub struct Worth {
    pub net0: TradingTokens,
    pub net1: TradingTokens,
    pub amount0: TradingTokens,
    pub amount1: TradingTokens,
}

// Both tokens' parts of an LP amount: none or an amount 0, 4; an amount past u64, 11. An amount is 0 exactly where its quotient is. A supply of
// 0 is refused by the first division; past it both tokens are divided before the first test, and each pair of tests is one branch.
#[tactic(auto, using(crate::proofs::Parts::undivided0, crate::proofs::Parts::undivided1, crate::proofs::Parts::none, crate::proofs::Parts::past))]
pub fn token_amounts(
    lp: LpTokens,
    supply: LpTokens,
    net0: TradingTokens,
    net1: TradingTokens,
    direction: RoundDirection,
) -> Result<TradingTokenResult, Refusal>
    ensures { result ≡ token_amounts direction lp.0 supply.0 net0.0 net1.0 }
{
    let parts0 = lp_tokens_div_rem(lp, net0, supply)?;
    let parts1 = lp_tokens_div_rem(lp, net1, supply)?;
    if is_zero(parts0.quotient) | is_zero(parts1.quotient) {
        return Err(Refusal::ZERO_TRADING_TOKENS);
    }
    let amount0 = round_quotient(parts0.quotient, parts0.remainder, direction);
    let amount1 = round_quotient(parts1.quotient, parts1.remainder, direction);
    if (amount0.high != 0) | (amount1.high != 0) {
        return Err(Refusal::PANIC);
    }
    Ok(TradingTokenResult {
        amount0: TradingTokens(amount0.low),
        amount1: TradingTokens(amount1.low),
    })
}

// Up for what is paid in, down for what is paid out: a flag, as the definition `worth_of` takes it.
fn rounding(is_deposit: bool) -> RoundDirection
    ensures { result ≡ roundingOf is_deposit }
{
    if is_deposit {
        RoundDirection::Ceiling
    } else {
        RoundDirection::Floor
    }
}

// Counters' sums 8, vaults 7; none or an amount 0, 4; an amount past u64, 11; else the worth.
#[tactic(auto, using(crate::proofs::Answers::no_nets, crate::proofs::Answers::no_amounts, crate::proofs::Answers::some_amounts))]
pub fn worth_of(is_deposit: bool, books: Books, lp: LpTokens) -> Result<Worth, Refusal>
    ensures { result ≡ worth_of is_deposit books lp.0 }
{
    let nets = books.vault_amount_without_fee()?;
    let net0 = TradingTokens(nets.net0);
    let net1 = TradingTokens(nets.net1);
    let direction = rounding(is_deposit);
    let amounts = token_amounts(lp, LpTokens(books.supply), net0, net1, direction)?;
    Ok(Worth {
        net0,
        net1,
        amount0: amounts.amount0,
        amount1: amounts.amount1,
    })
}
