// What a row of the day sheet does (document 01, 'The day sheet') over lent memory: the pool's record, the ring's entries and the receipt
// that the row's answer shows. The rates for the next opening go by value.
ghost use Rattle.std.specs.Prelude.{◌≡◌, Some};
ghost use Rattle.memory.specs.Steps.{IsRecord};
ghost use Rattle.sheet.specs.Sheet.{opening_with, perform, swap_input, swap_output, first_amount, second_amount};
ghost use Rattle.sheet.specs.Lent.{sheet_in, row_memory, turn_words, performed_on};
ghost use Rattle.sheet.specs.Stages.{taken};

use crate::call::{call_for, is_readable};
use charge::Charges;
use memory::lent::open_on;
use memory::record::{check_record, refuse};
use opening::Opening;
use oracle::{Grid, RING_WORDS};
use rates::Rates;
use receipt::{Kind, Receipt};
use refusal::Refusal;
use rows::row::Row;
use words::{POOL_WORDS, RECEIPT_WORDS, share_of};

// The kind of a row that is no call: rates for the next opening. So it is none of `Kind`, and a row's kind is matched as a number.
const RATES: u64 = 0;

// The kind of a row that opens.
const OPENING: u64 = Kind::Opening as u64;

// The day sheet opens with this spacing and this length.
const DAY_SPACING: u64 = 15;

const DAY_LENGTH: u64 = 100;

// The two amounts of an answer.
#[derive(Clone, Copy)]
pub struct Amounts {
    pub first: u64,
    pub second: u64,
}

// Kind 0: rates for the next opening, with opening's limits.
fn rates_of(row: Row) -> Rates
    ensures { result ≡ record { trade = row.a; protocol = row.b; fund = row.c; creator = row.d; share = row.e } }
{
    Rates {
        trade: row.a,
        protocol: row.b,
        fund: row.c,
        creator: row.d,
        share: row.e,
    }
}

// Kind 1: an opening with the rates that are held.
fn opening_of(row: Row, rates: Rates) -> Opening
    ensures { result ≡ opening_with row.a row.b row.c row.d row.e rates }
{
    Opening {
        amount0: row.a,
        amount1: row.b,
        model: row.c,
        enabled: row.d,
        open_time: row.e,
        rates,
        charges: Charges::default(),
        grid: Grid {
            spacing: DAY_SPACING,
            length: DAY_LENGTH,
        },
    }
}

// A row that can be read, by its kind: rates, tested as in opening; an opening, which replaces pool and ring where it is accepted; or a call.
// Any other kind is unreadable. Where the row is refused, nothing is written.
fn perform_row(
    rates: Rates,
    pool: &mut [u64; POOL_WORDS],
    ring: &mut [u64; RING_WORDS],
    receipt: &mut [u64; RECEIPT_WORDS],
    row: Row,
) -> Result<Rates, Refusal>
    requires { IsRecord pool.old }
    ensures { taken rates result pool.new ring.new receipt.new ≡ turn_words (perform (sheet_in rates pool.old ring.old) (Some row)) }
{
    match row.kind {
        RATES => {
            let next = rates_of(row);
            next.check()?;
            refuse(receipt, 0);
            Ok(next)
        }
        OPENING => {
            open_on(pool, ring, receipt, opening_of(row, rates));
            Ok(rates)
        }
        _ => {
            if !is_readable(row) {
                return Err(Refusal::UNREADABLE_ROW);
            }
            let share = share_of(pool);
            call_for(pool, ring, receipt, share, row);
            Ok(rates)
        }
    }
}

// A record that is no pool is refused, whatever the row; then a row that can't be read.
fn try_to_perform(
    rates: Rates,
    pool: &mut [u64; POOL_WORDS],
    ring: &mut [u64; RING_WORDS],
    receipt: &mut [u64; RECEIPT_WORDS],
    row: Option<Row>,
) -> Result<Rates, Refusal>
    ensures { taken rates result pool.new ring.new receipt.new ≡ performed_on rates pool.old ring.old row }
{
    check_record(pool)?;
    let Some(row) = row else {
        return Err(Refusal::UNREADABLE_ROW);
    };
    perform_row(rates, pool, ring, receipt, row)
}

// What a row does to the lent memory, and the rates after it. A refused row leaves nothing but its receipt.
pub fn perform(
    rates: Rates,
    pool: &mut [u64; POOL_WORDS],
    ring: &mut [u64; RING_WORDS],
    receipt: &mut [u64; RECEIPT_WORDS],
    row: Option<Row>,
) -> Rates
    ensures { row_memory result pool.new ring.new receipt.new ≡ performed_on rates pool.old ring.old row }
{
    match try_to_perform(rates, pool, ring, receipt, row) {
        Ok(after) => after,
        Err(refusal) => {
            refuse(receipt, refusal.number());
            rates
        }
    }
}

// A swap's input and output.
fn swap_amounts(receipt: Receipt) -> Amounts
    ensures { (result.first ≡ swap_input receipt) × (result.second ≡ swap_output receipt) }
{
    if receipt.trade.direction == 0 {
        return Amounts {
            first: receipt.paid.in0,
            second: receipt.paid.out1,
        };
    }
    Amounts {
        first: receipt.paid.in1,
        second: receipt.paid.out0,
    }
}

// A swap's input and output; tokens 0 and 1 of a deposit, withdrawal or settlement; else 0.
#[tactic(auto, unfolding(receipt::specs::Kind::kind_at))]
pub fn amounts_of(receipt: Receipt) -> Amounts
    ensures { (result.first ≡ first_amount receipt) × (result.second ≡ second_amount receipt) }
{
    match Kind::try_from(receipt.kind) {
        Ok(Kind::SwapBaseInput | Kind::SwapBaseOutput) => swap_amounts(receipt),
        Ok(Kind::Deposit) => Amounts {
            first: receipt.paid.in0,
            second: receipt.paid.in1,
        },
        Ok(Kind::Withdraw | Kind::SettleCreatorFee) => Amounts {
            first: receipt.paid.out0,
            second: receipt.paid.out1,
        },
        _ => Amounts {
            first: 0,
            second: 0,
        },
    }
}
