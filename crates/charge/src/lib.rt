// The charge that a token carries on each transfer (document 02 (c), with the names of the original's utils/token.rs): what it takes of an
// amount that is sent, and the least that is sent so that an amount arrives.
#![tactic(auto)]

ghost use Rattle.std.specs.Prelude.{true, ◌&&◌, ◌≡◌, eqb};
ghost use Rattle.accounting.specs.Counters.{of_token};
ghost use Rattle.charge.specs.Charge.{charge_on, inverse_fee, charged_on};
ghost use Rattle.charge.specs.Transfers.{transferred, both_transferred};
ghost use Rattle.charge.specs.Least.{LeastSent};
ghost use Rattle.charge.specs.Stages.{ChargedByPoints, sent_by_points};

use accounting::of_token;
use answer::Answer;
use math::ratio::NoQuotient;
use refusal::{Refusal, past_sum};
use share::{scale_ceil, share_ceil};

// Points are per 10,000.
const MAX_FEE_BASIS_POINTS: u64 = 10_000;

// A token's charge: points per 10,000 of what is sent, and the most that is charged.
#[derive(Clone, Copy, Default)]
pub struct Charge {
    pub points: u64,
    pub maximum: u64,
}

// Both tokens'.
#[derive(Clone, Copy, Default)]
pub struct Charges {
    pub token0: Charge,
    pub token1: Charge,
}

// What the transfers of a call were charged, each token's; 0 where none is meant.
#[derive(Clone, Copy, Default)]
pub struct Charged {
    pub charge0: u64,
    pub charge1: u64,
}

// A transfer seen from one end: the amount at the other, and the charge. From which end is a flag, which the definition `transferred` takes.
#[derive(Clone, Copy)]
pub struct End {
    pub amount: u64,
    pub charge: u64,
}

// One of each token, with the charges together, as a receipt shows them.
#[derive(Clone, Copy)]
pub struct Ends {
    pub amount0: u64,
    pub amount1: u64,
    pub charged: Charged,
}

// What the points alone take of an amount that is sent. From 10,000 points on they take all of it.
fn charged_by_points(points: u64, pre_fee_amount: u64) -> u64
    ensures { ChargedByPoints points pre_fee_amount result }
{
    if points < MAX_FEE_BASIS_POINTS {
        share_ceil(pre_fee_amount, points, MAX_FEE_BASIS_POINTS)
    } else {
        pre_fee_amount
    }
}

// The charge on an amount that is sent.
#[tactic(auto, using(crate::proofs::Rest::capped_charge))]
pub fn get_transfer_fee(charge: Charge, pre_fee_amount: u64) -> u64
    ensures { result ≡ charge_on charge pre_fee_amount }
{
    charged_by_points(charge.points, pre_fee_amount).min(charge.maximum)
}

// What is sent by the points alone: the amount is what they leave of it. From 10,000 points on they leave nothing.
#[tactic(auto, unfolding(crate::specs::Stages::sent_by_points))]
fn sent_by_points(points: u64, post_fee_amount: u64) -> Result<u64, NoQuotient>
    ensures { result ≡ sent_by_points points post_fee_amount }
{
    if points < MAX_FEE_BASIS_POINTS {
        return scale_ceil(
            post_fee_amount,
            MAX_FEE_BASIS_POINTS,
            MAX_FEE_BASIS_POINTS - points,
        );
    }
    if post_fee_amount == 0 {
        Ok(0)
    } else {
        Err(NoQuotient::Past)
    }
}

// The charge on the least amount that is sent so that another arrives; 14 where that amount is past u64, both by the points and with the
// maximum. No quotient of more than 64 bits is needed to know it. It isn't inlined, so that a pool without charges makes one test and no call, and
// lays nothing out in memory.
#[tactic(auto, using(crate::proofs::Rest::scaled), unfolding(crate::specs::Charge::inverse_fee, crate::specs::Charge::least_sent, crate::specs::Charge::charge_for, crate::specs::Stages::sent_by_points, math::specs::Ratio::ceil_of, math::specs::Ratio::fit, refusal::specs::Tests::outcome))]
#[inline(never)]
pub fn get_transfer_inverse_fee(charge: Charge, post_fee_amount: u64) -> Answer
    ensures { result ≡ inverse_fee charge post_fee_amount }
{
    match sent_by_points(charge.points, post_fee_amount) {
        Ok(sent) => Ok((sent - post_fee_amount).min(charge.maximum)),
        Err(_) if past_sum(post_fee_amount, charge.maximum) => {
            Err(Refusal::TRANSFER_FEE_CALCULATE_NOT_MATCH)
        }
        Err(_) => Ok(charge.maximum),
    }
}

// Forward: an amount is sent, and the other end is what arrives. Back: an amount is to arrive, and the other end is the least sent for it.
#[tactic(auto, using(crate::proofs::Rest::charge_is_for, crate::proofs::Rest::charge_le), unfolding(crate::specs::Transfers::transferred, crate::specs::Charge::rest_of, crate::specs::Charge::inverse_fee, crate::specs::Charge::least_sent, refusal::specs::Tests::outcome))]
#[inline(always)]
pub fn transfer(forward: bool, charge: Charge, amount: u64) -> Result<End, Refusal>
    ensures { result ≡ transferred forward charge amount }
{
    if forward {
        let fee = get_transfer_fee(charge, amount);
        return Ok(End {
            amount: amount - fee,
            charge: fee,
        });
    }
    let fee = get_transfer_inverse_fee(charge, amount)?;
    Ok(End {
        amount: amount + fee,
        charge: fee,
    })
}

// The charge of one token, and that of the other.
pub fn charged_for(zero: bool, charge: u64, other: u64) -> Charged
    ensures { result ≡ record { charge0 = of_token zero charge other; charge1 = of_token zero other charge } }
{
    Charged {
        charge0: of_token(zero, charge, other),
        charge1: of_token(zero, other, charge),
    }
}

impl Charges {
    // Whether both points are 0: then nothing is charged, whatever the maximums.
    fn are_none(self) -> bool
        ensures { result ≡ (eqb self.token0.points 0 && eqb self.token1.points 0) }
    {
        (self.token0.points == 0) & (self.token1.points == 0)
    }

    // One token's transfer.
    #[tactic(auto, using(crate::proofs::FarEnds::free_one))]
    #[inline(always)]
    pub fn transfer_one(self, zero: bool, forward: bool, amount: u64) -> Result<End, Refusal>
        ensures { result ≡ transferred forward (of_token zero self.token0 self.token1) amount }
    {
        if self.are_none() {
            return Ok(End { amount, charge: 0 });
        }
        transfer(forward, of_token(zero, self.token0, self.token1), amount)
    }

    // A transfer of each token; back, 14 where either can't be sent. Inlined, so that a pool without charges lays nothing out.
    #[tactic(auto, using(crate::proofs::FarEnds::free_both, crate::proofs::FarEnds::first_refuses))]
    #[inline(always)]
    pub fn transfer_both(self, forward: bool, amount0: u64, amount1: u64) -> Result<Ends, Refusal>
        ensures { result ≡ both_transferred forward self amount0 amount1 }
    {
        if self.are_none() {
            return Ok(Ends {
                amount0,
                amount1,
                charged: Charged::default(),
            });
        }
        let end0 = transfer(forward, self.token0, amount0)?;
        let end1 = transfer(forward, self.token1, amount1)?;
        Ok(Ends {
            amount0: end0.amount,
            amount1: end1.amount,
            charged: Charged {
                charge0: end0.charge,
                charge1: end1.charge,
            },
        })
    }

    // The charges alone on an amount of each token that is sent.
    #[tactic(auto, using(crate::proofs::FarEnds::free_charged))]
    pub fn charges_on(self, amount0: u64, amount1: u64) -> Charged
        ensures { result ≡ charged_on self amount0 amount1 }
    {
        if self.are_none() {
            return Charged::default();
        }
        Charged {
            charge0: get_transfer_fee(self.token0, amount0),
            charge1: get_transfer_fee(self.token1, amount1),
        }
    }
}

// Its contract is that what is sent for an amount is the least whose rest it is, at any points and maximum (specs/Least.antt).
pub fn least_sent() -> bool
    ensures { (result ≡ true) × LeastSent }
{
    true
}
