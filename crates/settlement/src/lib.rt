// Settlement, decided over the books: the creators are paid out of the vaults, and the protocol gets its share (the original's
// creator_fee_share.rs and settle_creator_fee).
#![tactic(auto)]

ghost use Rattle.std.specs.Prelude.{◌≡◌};
ghost use Rattle.fees.specs.Fees.{fee_down};
ghost use Rattle.settlement.specs.Settlement.{settlement_receipt, settlement_after};
ghost use Rattle.settlement.specs.Stages.{settled_at};

use accounting::{Books, FeeCounters};
use charge::{Charged, Charges};
use fees::FEE_RATE_DENOMINATOR_VALUE;
use receipt::{BooksAfter, Kind, Paid, Receipt, Shared, refuse_books};
use refusal::Refusal;
use share::share_floor;

// A settlement's receipt: the creators' amounts as paid out, the shared parts and the charges apart.
#[tactic(auto, unfolding(crate::specs::Settlement::settlement_receipt))]
fn settlement_receipt(out0: u64, out1: u64, shared0: u64, shared1: u64, charged: Charged) -> Receipt
    ensures { result ≡ settlement_receipt out0 out1 shared0 shared1 charged }
{
    Receipt {
        kind: Kind::SettleCreatorFee as u64,
        paid: Paid {
            out0,
            out1,
            ..Paid::default()
        },
        shared: Shared { shared0, shared1 },
        charged,
        ..Receipt::default()
    }
}

// Share, 3; protocol counter 8; a vault too small for what leaves it, 7; else each creator counter less its shared part is paid.
#[tactic(auto, unfolding(crate::specs::Stages::settled_at, crate::specs::Settlement::settlement_tests, crate::specs::Settlement::settled_counters, fees::specs::Fees::fee_down, refusal::specs::Tests::outcome))]
fn settle(charges: Charges, books: Books, share: u64) -> Result<BooksAfter, Refusal>
    ensures { result ≡ settled_at (fee_down books.fees.creator0 share) (fee_down books.fees.creator1 share) charges books share }
{
    if share > FEE_RATE_DENOMINATOR_VALUE {
        return Err(Refusal::INVALID_INPUT);
    }
    let fees = books.fees;
    let shared0 = share_floor(fees.creator0, share, FEE_RATE_DENOMINATOR_VALUE);
    let shared1 = share_floor(fees.creator1, share, FEE_RATE_DENOMINATOR_VALUE);
    let past = Refusal::MATH_OVERFLOW;
    let protocol0 = fees.protocol0.checked_add(shared0).ok_or(past)?;
    let protocol1 = fees.protocol1.checked_add(shared1).ok_or(past)?;
    let out0 = fees.creator0 - shared0;
    let out1 = fees.creator1 - shared1;
    let too_small = Refusal::INSUFFICIENT_VAULT;
    let vault0 = books.vault0.checked_sub(out0).ok_or(too_small)?;
    let vault1 = books.vault1.checked_sub(out1).ok_or(too_small)?;
    let charged = charges.charges_on(out0, out1);
    Ok(BooksAfter {
        books: Books {
            vault0,
            vault1,
            fees: FeeCounters {
                protocol0,
                protocol1,
                fund0: fees.fund0,
                fund1: fees.fund1,
                creator0: 0,
                creator1: 0,
            },
            supply: books.supply,
        },
        receipt: settlement_receipt(out0, out1, shared0, shared1, charged),
    })
}

// A refusal leaves the books as they were.
#[tactic(auto, unfolding(crate::specs::Stages::settled_at, crate::specs::Settlement::settlement_after, crate::specs::Settlement::settlement_at, crate::specs::Settlement::settlement_tests, refusal::specs::Tests::outcome))]
pub fn decide(charges: Charges, books: Books, share: u64) -> BooksAfter
    ensures { result ≡ settlement_after charges books share }
{
    settle(charges, books, share).unwrap_or_else(|refusal| refuse_books(books, refusal.number()))
}
