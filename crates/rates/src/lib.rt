// A pool's terms: its rates with their limits, its tokens' charges, its fee model and its open time (document 01, 'The calls' and
// 'constant_product.rs, then calculator.rs', with document 02 (c)).
#![tactic(auto)]

ghost use Rattle.std.specs.Prelude.{◌≡◌, ◌+◌, ltb};
ghost use Rattle.refusal.specs.Tests.{tested};
ghost use Rattle.rates.specs.Rates.{rate_limits, rate_tests, creator_rate, on_input};

use charge::Charges;
use fees::FEE_RATE_DENOMINATOR_VALUE;
use refusal::{Refusal, either, refuse_if};

// A pool's rates, in millionths.
#[derive(Clone, Copy, Default)]
pub struct Rates {
    pub trade: u64,
    pub protocol: u64,
    pub fund: u64,
    pub creator: u64,
    pub share: u64,
}

// What an opening sets for good. The flag stands last, so that all other fields are copied as whole numbers.
#[derive(Clone, Copy, Default)]
pub struct Terms {
    pub rates: Rates,
    pub charges: Charges,
    pub fee_model: u64,
    pub open_time: u64,
    pub enabled: bool,
}

// The highest that trade and creator rate may sum to.
const HIGHEST_FEE_RATE: u64 = 999_999;

// Fee model 0 means input always, 1 input if token 0 goes in, 2 input if token 1 goes in. A record may hold any number.
#[tactic(auto, unfolding(crate::specs::Rates::on_input))]
pub fn is_creator_fee_on_input(fee_model: u64, zero_in: bool) -> bool
    ensures { result ≡ on_input fee_model zero_in }
{
    match fee_model {
        0 => true,
        1 => zero_in,
        2 => !zero_in,
        _ => false,
    }
}

// Whether a sum passes a limit, tested by a difference, so that it doesn't wrap.
fn sum_above(a: u64, b: u64, limit: u64) -> bool
    ensures { result ≡ ltb limit (a + b) }
{
    a > limit || b > limit - a
}

impl Rates {
    // The limits on trade + creator and protocol + fund, for a creator rate that may not be the pool's own, 3.
    #[tactic(auto, unfolding(crate::specs::Rates::rate_limits, refusal::specs::Tests::tested))]
    pub fn check_limits(self, creator_rate: u64) -> Result<(), Refusal>
        ensures { result ≡ tested (rate_limits self creator_rate) }
    {
        refuse_if(&[
            (
                sum_above(self.trade, creator_rate, HIGHEST_FEE_RATE),
                Refusal::INVALID_INPUT,
            ),
            (
                sum_above(self.protocol, self.fund, FEE_RATE_DENOMINATOR_VALUE),
                Refusal::INVALID_INPUT,
            ),
        ])
    }

    // The rates of an opening: these limits, and share above 1,000,000, 3.
    #[tactic(auto, using(refusal::proofs::Stages::stages_joined), unfolding(crate::specs::Rates::rate_tests, refusal::specs::Tests::tested))]
    pub fn check(self) -> Result<(), Refusal>
        ensures { result ≡ tested (rate_tests self) }
    {
        either(
            self.check_limits(self.creator),
            refuse_if(&[(
                self.share > FEE_RATE_DENOMINATOR_VALUE,
                Refusal::INVALID_INPUT,
            )]),
        )
    }
}

impl Terms {
    // The creator rate counts as 0 unless the pool enables it.
    pub fn adjust_creator_fee_rate(self) -> u64
        ensures { result ≡ creator_rate self }
    {
        if self.enabled { self.rates.creator } else { 0 }
    }
}
