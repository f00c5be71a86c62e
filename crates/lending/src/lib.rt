// The six fee counters, lent by reference to the booking of a swap (document 01, 'Language forms by place').
#![tactic(auto)]

ghost use Rattle.std.specs.Prelude.{◌≡◌};
ghost use Rattle.refusal.specs.Tests.{tested};
ghost use Rattle.accounting.specs.Booking.{booking_tests, booking_answer};
ghost use Rattle.lending.specs.Lent.{left_counters};

use accounting::{FeeCounters, SwapFees};
use refusal::Refusal;

// Books a swap's fees in the lent counters; a counter past u64, 11, leaves them as they were.
#[tactic(auto, unfolding(crate::specs::Lent::left_counters, accounting::specs::Booking::booking_answer, accounting::specs::Booking::booking_tests, accounting::specs::Booking::past_tests, refusal::specs::Tests::outcome, refusal::specs::Tests::tested))]
pub fn book_fees(
    counters: &mut FeeCounters,
    zero_in: bool,
    zero_fee: bool,
    fees: SwapFees,
) -> Result<(), Refusal>
    ensures { (result ≡ tested (booking_tests zero_in zero_fee fees.protocol fees.fund fees.creator counters.old))
        × (counters.new ≡ left_counters zero_in zero_fee fees.protocol fees.fund fees.creator counters.old) }
{
    *counters = counters.book(zero_in, zero_fee, fees)?;
    Ok(())
}

// The same for counters by value, which lends its own copy: answers as `FeeCounters::book` does.
#[tactic(auto, unfolding(crate::specs::Lent::left_counters, accounting::specs::Booking::booking_answer, accounting::specs::Booking::booking_tests, accounting::specs::Booking::past_tests, refusal::specs::Tests::outcome, refusal::specs::Tests::tested))]
pub fn booked(
    counters: FeeCounters,
    zero_in: bool,
    zero_fee: bool,
    fees: SwapFees,
) -> Result<FeeCounters, Refusal>
    ensures { result ≡ booking_answer zero_in zero_fee fees.protocol fees.fund fees.creator counters }
{
    let mut lent = counters;
    book_fees(&mut lent, zero_in, zero_fee, fees)?;
    Ok(lent)
}
