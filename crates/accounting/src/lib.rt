// What a pool has booked: the vaults, the LP supply, and the six fee counters, which it owes out of its vaults (the sums of the original's
// states/pool.rs).
#![tactic(auto)]

ghost use Rattle.std.specs.Prelude.{◌≡◌, ◌+◌, ◌-◌, ◌≤◌};
ghost use Rattle.accounting.specs.Counters.{of_token, nets_answer};
ghost use Rattle.accounting.specs.Booking.{creator_token, booking_answer};
ghost use Rattle.accounting.specs.Stages.{counters_answer, net_answer, added};

use refusal::Refusal;

// So many LP tokens are locked at the start; the supply counts them. After `lock_lp_amount` of the original's instruction `initialize`.
pub const LOCK_LP_AMOUNT: u64 = 100;

#[derive(Clone, Copy, Default)]
pub struct FeeCounters {
    pub protocol0: u64,
    pub protocol1: u64,
    pub fund0: u64,
    pub fund1: u64,
    pub creator0: u64,
    pub creator1: u64,
}

// What is booked. A vault is the whole balance of its token.
#[derive(Clone, Copy, Default)]
pub struct Books {
    pub vault0: u64,
    pub vault1: u64,
    pub fees: FeeCounters,
    pub supply: u64,
}

// A swap's fees that are booked.
#[derive(Clone, Copy)]
pub struct SwapFees {
    pub protocol: u64,
    pub fund: u64,
    pub creator: u64,
}

// What is a token's own of its vault, of both tokens.
#[derive(Clone, Copy)]
pub struct Nets {
    pub net0: u64,
    pub net1: u64,
}

// A token's counters together; past u64, 8.
fn counters_of(protocol: u64, fund: u64, creator: u64) -> Result<u64, Refusal>
    ensures { result ≡ counters_answer (protocol + fund + creator) }
{
    protocol
        .checked_add(fund)
        .and_then(|sum| sum.checked_add(creator))
        .ok_or(Refusal::MATH_OVERFLOW)
}

// A token's net: its vault less its counters; those above it, 7.
fn net_of(vault: u64, counters: u64) -> Result<u64, Refusal>
    ensures { result ≡ net_answer vault counters }
{
    vault
        .checked_sub(counters)
        .ok_or(Refusal::INSUFFICIENT_VAULT)
}

impl Books {
    // Both nets, or 8 or 7.
    #[tactic(auto, unfolding(crate::specs::Counters::nets_answer, crate::specs::Counters::counter_tests, refusal::specs::Tests::outcome))]
    pub fn vault_amount_without_fee(self) -> Result<Nets, Refusal>
        ensures { result ≡ nets_answer self }
    {
        let fees = self.fees;
        let counters0 = counters_of(fees.protocol0, fees.fund0, fees.creator0)?;
        let counters1 = counters_of(fees.protocol1, fees.fund1, fees.creator1)?;
        let net0 = net_of(self.vault0, counters0)?;
        let net1 = net_of(self.vault1, counters1)?;
        Ok(Nets { net0, net1 })
    }
}

// Of two values, token 0's and token 1's, that of a token.
pub fn of_token<T: Copy>(zero: bool, of0: T, of1: T) -> T
    ensures { result ≡ of_token zero of0 of1 }
{
    if zero { of0 } else { of1 }
}

// The creator fee's token: the input's, or the output's where the fee is on output. true is token 0.
pub fn creator_token(fee_on_input: bool, zero_in: bool) -> bool
    ensures { result ≡ creator_token fee_on_input zero_in }
{
    if fee_on_input { zero_in } else { !zero_in }
}

// A counter with a fee added; past u64, 11.
fn add_fee(counter: u64, fee: u64) -> Result<u64, Refusal>
    ensures { result ≡ added counter fee }
{
    counter.checked_add(fee).ok_or(Refusal::PANIC)
}

impl FeeCounters {
    // A swap's protocol and fund fee go to the counters of its input token, its creator fee to that of the fee's token.
    #[tactic(auto, unfolding(crate::specs::Booking::booking_answer, crate::specs::Booking::booking_tests, crate::specs::Booking::past_tests, crate::specs::Booking::booked, refusal::specs::Tests::outcome))]
    pub fn book(self, zero_in: bool, zero_fee: bool, fees: SwapFees) -> Result<FeeCounters, Refusal>
        ensures { result ≡ booking_answer zero_in zero_fee fees.protocol fees.fund fees.creator self }
    {
        let protocol = of_token(zero_in, self.protocol0, self.protocol1);
        let fund = of_token(zero_in, self.fund0, self.fund1);
        let creator = of_token(zero_fee, self.creator0, self.creator1);
        let next_protocol = add_fee(protocol, fees.protocol)?;
        let next_fund = add_fee(fund, fees.fund)?;
        let next_creator = add_fee(creator, fees.creator)?;
        Ok(FeeCounters {
            protocol0: of_token(zero_in, next_protocol, self.protocol0),
            protocol1: of_token(zero_in, self.protocol1, next_protocol),
            fund0: of_token(zero_in, next_fund, self.fund0),
            fund1: of_token(zero_in, self.fund1, next_fund),
            creator0: of_token(zero_fee, next_creator, self.creator0),
            creator1: of_token(zero_fee, self.creator1, next_creator),
        })
    }
}
