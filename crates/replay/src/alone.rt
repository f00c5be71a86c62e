// The functions alone: kinds 10 to 34, which are numbers of this file, each named by its function.
ghost use Rattle.std.specs.Prelude.{◌≤◌};

use crate::row::{ROW_NUMBERS, nth, pool_at, same};
use accounting::{FeeCounters, SwapFees, creator_token};
use answer::Answer;
use charge::{Charge, get_transfer_fee, get_transfer_inverse_fee};
use curve::constant_product::{
    LpTokens, RoundDirection, TradingTokens, lp_tokens_div_rem, lp_tokens_to_trading_tokens,
    swap_base_input_without_fees, swap_base_output_without_fees,
};
use fees::{
    calculate_pre_fee_amount, creator_fee, creator_fee_shared_amount, fund_fee, protocol_fee,
    split_creator_fee, trading_fee,
};
use prices::token_prices_x32;
use rates::is_creator_fee_on_input;
use refusal::Refusal;
use words::stand_at;

// What a fee, a charge or the curve answers; a kind that there is not, nothing.
fn answer_to(kind: u64, a: u64, b: u64, c: u64) -> Option<Answer> {
    let charge = Charge {
        points: b,
        maximum: c,
    };
    let answer = match kind {
        10 => trading_fee(a, b),
        11 => protocol_fee(a, b),
        12 => fund_fee(a, b),
        13 => creator_fee(a, b),
        14 => creator_fee_shared_amount(a, b),
        15 => split_creator_fee(a, b, c),
        16 => calculate_pre_fee_amount(a, b),
        18 => Ok(get_transfer_fee(charge, a)),
        19 => get_transfer_inverse_fee(charge, a),
        20 => swap_base_input_without_fees(a, b, c),
        21 => swap_base_output_without_fees(a, b, c),
        _ => return None,
    };
    Some(answer)
}

// A refused function gives its number and zeros.
fn refused_with(row: &[u64; ROW_NUMBERS], at: usize, refusal: Refusal) -> bool
    requires { at ≤ 83 }
{
    same(row, at, [refusal.number(), 0, 0, 0, 0])
}

// Number and amount.
pub(crate) fn amount(row: &[u64; ROW_NUMBERS]) -> bool {
    match answer_to(nth(row, 0), nth(row, 2), nth(row, 3), nth(row, 4)) {
        Some(Ok(amount)) => same(row, 5, [0, amount, 0, 0, 0]),
        Some(Err(refusal)) => refused_with(row, 5, refusal),
        // No row has this answer.
        None => same(row, 5, [99, 0, 0, 0, 0]),
    }
}

// As the row says; worth's rounding goes by what is asked.
fn rounding(up: bool) -> RoundDirection {
    if up {
        RoundDirection::Ceiling
    } else {
        RoundDirection::Floor
    }
}

pub(crate) fn lp_tokens(row: &[u64; ROW_NUMBERS]) -> bool {
    let lp = LpTokens(nth(row, 2));
    let supply = LpTokens(nth(row, 3));
    let net0 = TradingTokens(nth(row, 4));
    let net1 = TradingTokens(nth(row, 5));
    let direction = rounding(nth(row, 6) == 1);
    match lp_tokens_to_trading_tokens(lp, supply, net0, net1, direction) {
        Ok(tokens) => same(row, 7, [0, tokens.amount0.0, tokens.amount1.0, 0, 0]),
        Err(refusal) => refused_with(row, 7, refusal),
    }
}

// Number, the quotient's halves and the remainder.
pub(crate) fn lp_division(row: &[u64; ROW_NUMBERS]) -> bool {
    let lp = LpTokens(nth(row, 2));
    let net = TradingTokens(nth(row, 3));
    let supply = LpTokens(nth(row, 4));
    match lp_tokens_div_rem(lp, net, supply) {
        Ok(parts) => {
            let quotient = parts.quotient;
            same(row, 5, [0, quotient.high, quotient.low, parts.remainder, 0])
        }
        Err(refusal) => refused_with(row, 5, refusal),
    }
}

// The nets of a pool of which the other numbers are 0.
pub(crate) fn nets(row: &[u64; ROW_NUMBERS]) -> bool {
    match pool_at(row, 2).nets() {
        Ok(nets) => same(row, 29, [0, nets.net0, nets.net1, 0, 0]),
        Err(refusal) => refused_with(row, 29, refusal),
    }
}

pub(crate) fn prices(row: &[u64; ROW_NUMBERS]) -> bool {
    match token_prices_x32(pool_at(row, 2)) {
        Ok(prices) => {
            let price0 = prices.price0;
            let price1 = prices.price1;
            same(
                row,
                29,
                [0, price0.high, price0.low, price1.high, price1.low],
            )
        }
        Err(refusal) => refused_with(row, 29, refusal),
    }
}

fn counters_agree(number: u64, after: FeeCounters, row: &[u64; ROW_NUMBERS]) -> bool {
    let found = [
        number,
        after.protocol0,
        after.protocol1,
        after.fund0,
        after.fund1,
        after.creator0,
        after.creator1,
    ];
    stand_at(&found, row, 13)
}

// A refused booking gives back the counters that were lent.
pub(crate) fn booking(row: &[u64; ROW_NUMBERS]) -> bool {
    let lent = FeeCounters {
        protocol0: nth(row, 2),
        protocol1: nth(row, 3),
        fund0: nth(row, 4),
        fund1: nth(row, 5),
        creator0: nth(row, 6),
        creator1: nth(row, 7),
    };
    let zero_in = nth(row, 9) == 0;
    let zero_fee = creator_token(is_creator_fee_on_input(nth(row, 8), zero_in), zero_in);
    let fees = SwapFees {
        protocol: nth(row, 10),
        fund: nth(row, 11),
        creator: nth(row, 12),
    };
    match lent.book(zero_in, zero_fee, fees) {
        Ok(after) => counters_agree(0, after, row),
        Err(refusal) => counters_agree(refusal.number(), lent, row),
    }
}

pub(crate) fn fee_side(row: &[u64; ROW_NUMBERS]) -> bool {
    let on_input = is_creator_fee_on_input(nth(row, 2), nth(row, 3) == 0);
    same(row, 4, [0, u64::from(on_input), 0, 0, 0])
}
