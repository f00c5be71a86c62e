// The call that a row asks for, by its kind (document 01, 'The day sheet').
ghost use Rattle.std.specs.Prelude.{◌≡◌};
ghost use Rattle.memory.specs.Memory.{memory, called_on};
ghost use Rattle.sheet.specs.Stages.{readable, call_of};

use memory::lent::{change_on, set_status_on, settle_on, swap_on};
use oracle::RING_WORDS;
use receipt::Kind;
use rows::row::Row;
use words::{POOL_WORDS, RECEIPT_WORDS};

// Whether the row asks for a call: its kind has one, and its spare numbers are 0.
#[tactic(auto, unfolding(crate::specs::Stages::readable, receipt::specs::Kind::kind_at))]
pub(crate) fn is_readable(row: Row) -> bool
    ensures { result ≡ readable row }
{
    match Kind::try_from(row.kind) {
        Ok(Kind::SwapBaseInput | Kind::SwapBaseOutput | Kind::Withdraw) => row.e == 0,
        Ok(Kind::Deposit) => row.d == 0 && row.e == 0,
        Ok(Kind::SettleCreatorFee) => {
            row.a == 0 && row.b == 0 && row.c == 0 && row.d == 0 && row.e == 0
        }
        Ok(Kind::SetStatus) => row.c == 0 && row.d == 0 && row.e == 0,
        Ok(Kind::Opening) | Err(_) => false,
    }
}

// The call of a readable row, over plain memory. A settlement is at the pool's share rate.
#[tactic(auto, unfolding(crate::specs::Stages::call_of, receipt::specs::Kind::kind_at))]
pub(crate) fn call_for(
    pool: &mut [u64; POOL_WORDS],
    ring: &mut [u64; RING_WORDS],
    receipt: &mut [u64; RECEIPT_WORDS],
    share: u64,
    row: Row,
) -> u64
    ensures { memory result pool.new ring.new receipt.new ≡ called_on pool.old ring.old receipt.old (call_of share row) }
{
    match Kind::try_from(row.kind) {
        Ok(Kind::SwapBaseInput) => {
            swap_on(pool, ring, receipt, true, row.a, row.b, row.c, row.d)
        }
        Ok(Kind::SwapBaseOutput) => {
            swap_on(pool, ring, receipt, false, row.a, row.b, row.c, row.d)
        }
        Ok(Kind::Deposit) => change_on(pool, ring, receipt, true, row.a, 0, row.b, row.c),
        Ok(Kind::Withdraw) => change_on(pool, ring, receipt, false, row.a, row.b, row.c, row.d),
        Ok(Kind::SettleCreatorFee) => settle_on(pool, ring, receipt, share),
        _ => set_status_on(pool, ring, receipt, row.a, row.b),
    }
}
