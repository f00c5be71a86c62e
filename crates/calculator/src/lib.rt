// The swaps with fees (document 01, 'constant_product.rs, then calculator.rs', with document 02 (a)).
// `net_in` is the net of the token that goes in, `net_out` of the other; `creator_rate` is the rate that counts, 0 unless the pool enables it.
#![tactic(auto)]

ghost use Rattle.std.specs.Prelude.{true, false, ◌≡◌, ◌<◌};
ghost use Rattle.fees.specs.Fees.{million};
ghost use Rattle.calculator.specs.Calculator.{charged, input_answer, output_answer};
ghost use Rattle.calculator.specs.Stages.{Limited, charged_split, curve_answer, before_fee, input_stage, output_stage};

use curve::constant_product::swap_base_output_without_fees;
use fees::{FEE_RATE_DENOMINATOR_VALUE, creator_part};
use math::ratio::div_by_sum;
use rates::Rates;
use refusal::Refusal;
use share::{scale_ceil, share_ceil, share_floor};
use wide::widening_mul;

// What a swap moves and charges. `creator` is of the creator fee's token, the other fees are of the input.
#[derive(Clone, Copy)]
pub struct SwapResult {
    pub input: u64,
    pub output: u64,
    pub trade: u64,
    pub protocol: u64,
    pub fund: u64,
    pub creator: u64,
}

// A swap's rates, which are within the limits, and the nets it is made between. It has four ways, by fee side and by direction: their steps differ in kind
// and in order, so that one with two flags would be no plainer.
// Its steps are inlined, so that no swap has to stand in memory for one.
#[derive(Clone, Copy)]
struct Swap {
    rates: Rates,
    creator_rate: u64,
    net_in: u64,
    net_out: u64,
    ghost within: { Limited rates creator_rate },
}

// The amount before a fee at a rate below the whole, which is not tested here again as by `calculate_pre_fee_amount` of `fees`; past u64, 11.
#[tactic(auto, unfolding(fees::specs::Fees::pre_fee, math::specs::Ratio::ceil_of, math::specs::Ratio::fit))]
fn pre_fee(amount: u64, rate: u64) -> Result<u64, Refusal>
    requires { rate < million }
    ensures { result ≡ before_fee amount rate }
{
    if rate == 0 {
        return Ok(amount);
    }
    let left = FEE_RATE_DENOMINATOR_VALUE - rate;
    scale_ceil(amount, FEE_RATE_DENOMINATOR_VALUE, left).map_err(|_| Refusal::PANIC)
}

impl Swap {
    // Protocol and fund fee are shares of the trade fee.
    #[inline(always)]
    #[tactic(auto, unfolding(crate::specs::Calculator::charged, fees::specs::Fees::fee_down))]
    fn charge(self, input: u64, output: u64, trade: u64, creator: u64) -> SwapResult
        ensures { result ≡ charged self.rates input output trade creator }
    {
        let protocol = share_floor(trade, self.rates.protocol, FEE_RATE_DENOMINATOR_VALUE);
        let fund = share_floor(trade, self.rates.fund, FEE_RATE_DENOMINATOR_VALUE);
        SwapResult {
            input,
            output,
            trade,
            protocol,
            fund,
            creator,
        }
    }

    // Fee on input: the creator's part of the total fee by the split, the rest is trade fee.
    #[inline(always)]
    #[tactic(auto, using(fees::proofs::Shares::split_le), unfolding(crate::specs::Stages::charged_split))]
    fn charge_split(self, input: u64, output: u64, total: u64) -> SwapResult
        ensures { result ≡ charged_split self.rates self.creator_rate input output total }
    {
        let creator = creator_part(total, self.rates.trade, self.creator_rate);
        self.charge(input, output, total - creator, creator)
    }

    // What the curve gives for an input after fees; a net of 0, 11. It is never past the net, so the one long division has a quotient of 64 bits.
    #[inline(always)]
    #[tactic(auto, unfolding(curve::specs::ConstantProduct::swap_out))]
    fn swap_out(self, input: u64) -> Result<u64, Refusal>
        ensures { result ≡ curve_answer self.net_in self.net_out input }
    {
        if self.net_in == 0 {
            return Err(Refusal::PANIC);
        }
        let product = widening_mul(input, self.net_out);
        Ok(div_by_sum(product, self.net_in, input))
    }

    // Fee on input: total fee at trade plus creator rate.
    #[inline(always)]
    #[tactic(auto, using(math::proofs::Rounding::share_ceil_le), unfolding(crate::specs::Stages::input_stage, crate::specs::Calculator::swap_base_input, crate::specs::Stages::charged_split, fees::specs::Fees::fee_up))]
    fn input_with_fee_on_input(self, amount: u64) -> Result<SwapResult, Refusal>
        ensures { result ≡ input_stage true self.rates self.creator_rate self.net_in self.net_out amount }
    {
        let total_rate = self.rates.trade + self.creator_rate;
        let total = share_ceil(amount, total_rate, FEE_RATE_DENOMINATOR_VALUE);
        let output = self.swap_out(amount - total)?;
        Ok(self.charge_split(amount, output, total))
    }

    // Fee on output: trade fee on input, creator fee on the curve's output.
    #[inline(always)]
    #[tactic(auto, using(math::proofs::Rounding::share_ceil_le), unfolding(crate::specs::Stages::input_stage, crate::specs::Calculator::swap_base_input, fees::specs::Fees::fee_up))]
    fn input_with_fee_on_output(self, amount: u64) -> Result<SwapResult, Refusal>
        ensures { result ≡ input_stage false self.rates self.creator_rate self.net_in self.net_out amount }
    {
        let trade = share_ceil(amount, self.rates.trade, FEE_RATE_DENOMINATOR_VALUE);
        let curve = self.swap_out(amount - trade)?;
        let creator = share_ceil(curve, self.creator_rate, FEE_RATE_DENOMINATOR_VALUE);
        Ok(self.charge(amount, curve - creator, trade, creator))
    }

    // Fee on input: the curve gives the output itself, and what it asks is the input after both fees.
    #[inline(always)]
    #[tactic(auto, using(crate::proofs::Swaps::pre_fee_ge), unfolding(crate::specs::Stages::output_stage, crate::specs::Calculator::quote_tests, crate::specs::Calculator::swap_base_output, crate::specs::Calculator::with_fees, crate::specs::Calculator::charged, crate::specs::Calculator::curve_output, crate::specs::Calculator::curve_input, curve::specs::ConstantProduct::swap_base_output_without_fees, curve::specs::ConstantProduct::swap_in, refusal::specs::Tests::outcome, crate::specs::Stages::charged_split))]
    fn output_with_fee_on_input(self, amount: u64) -> Result<SwapResult, Refusal>
        ensures { result ≡ output_stage true self.rates self.creator_rate self.net_in self.net_out amount }
    {
        let asked = swap_base_output_without_fees(amount, self.net_in, self.net_out)?;
        let input = pre_fee(asked, self.rates.trade + self.creator_rate)?;
        Ok(self.charge_split(input, amount, input - asked))
    }

    // Fee on output: the curve gives the output with its creator fee, and what it asks is the input after the trade fee.
    #[inline(always)]
    #[tactic(auto, using(crate::proofs::Swaps::pre_fee_ge), unfolding(crate::specs::Stages::output_stage, crate::specs::Calculator::quote_tests, crate::specs::Calculator::swap_base_output, crate::specs::Calculator::with_fees, crate::specs::Calculator::charged, crate::specs::Calculator::curve_output, crate::specs::Calculator::curve_input, curve::specs::ConstantProduct::swap_base_output_without_fees, curve::specs::ConstantProduct::swap_in, refusal::specs::Tests::outcome))]
    fn output_with_fee_on_output(self, amount: u64) -> Result<SwapResult, Refusal>
        ensures { result ≡ output_stage false self.rates self.creator_rate self.net_in self.net_out amount }
    {
        let curve = pre_fee(amount, self.creator_rate)?;
        let asked = swap_base_output_without_fees(curve, self.net_in, self.net_out)?;
        let input = pre_fee(asked, self.rates.trade)?;
        Ok(self.charge(input, amount, input - asked, curve - amount))
    }
}

// Swap by input: what an amount gives after fees. Its parameters, here and below, are those of the definition `input_answer`. Both swaps keep the
// original's names, and differ in what they call.
#[inline(always)]
#[tactic(auto, unfolding(crate::specs::Calculator::input_answer, rates::specs::Rates::rate_limits, refusal::specs::Tests::tested))]
pub fn swap_base_input(
    fee_on_input: bool,
    rates: Rates,
    creator_rate: u64,
    net_in: u64,
    net_out: u64,
    amount: u64,
) -> Result<SwapResult, Refusal>
    ensures { result ≡ input_answer fee_on_input rates creator_rate net_in net_out amount }
{
    rates.check_limits(creator_rate)?;
    let swap = Swap {
        rates,
        creator_rate,
        net_in,
        net_out,
    };
    if fee_on_input {
        swap.input_with_fee_on_input(amount)
    } else {
        swap.input_with_fee_on_output(amount)
    }
}

// Swap by output: what an amount asks with fees.
#[inline(always)]
#[tactic(auto, unfolding(crate::specs::Calculator::output_answer, rates::specs::Rates::rate_limits, refusal::specs::Tests::tested))]
pub fn swap_base_output(
    fee_on_input: bool,
    rates: Rates,
    creator_rate: u64,
    net_in: u64,
    net_out: u64,
    amount: u64,
) -> Result<SwapResult, Refusal>
    ensures { result ≡ output_answer fee_on_input rates creator_rate net_in net_out amount }
{
    rates.check_limits(creator_rate)?;
    let swap = Swap {
        rates,
        creator_rate,
        net_in,
        net_out,
    };
    if fee_on_input {
        swap.output_with_fee_on_input(amount)
    } else {
        swap.output_with_fee_on_output(amount)
    }
}
