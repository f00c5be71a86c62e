// The calls: kinds 1 to 7.
ghost use Rattle.std.specs.Prelude.{◌≤◌};

use crate::ring::{ring_agrees, ring_at, same_ring};
use crate::row::{ROW_NUMBERS, nth, opening_in, pool_at};
use calls::{Call, apply};
use curve::constant_product::{LpTokens, TradingTokens};
use oracle::RING_WORDS;
use pool::state::{After, Pool};
use receipt::Kind;
use words::{POOL_WORDS, RECEIPT_WORDS, pool_words, receipt_words, stand_at};

// Receipt and pool, as numbers, from a place on.
pub(crate) fn numbers_agree(
    receipt: &[u64; RECEIPT_WORDS],
    record: &[u64; POOL_WORDS],
    row: &[u64; ROW_NUMBERS],
    at: usize,
) -> bool
    requires { at ≤ 60 }
{
    stand_at(receipt, row, at) & stand_at(record, row, at + RECEIPT_WORDS)
}

// Receipt and pool from a place on.
fn after_agrees(after: After, row: &[u64; ROW_NUMBERS], at: usize) -> bool
    requires { at ≤ 60 }
{
    let pool = after.pool;
    let receipt = after.receipt;
    numbers_agree(&receipt_words(receipt), &pool_words(pool), row, at)
}

// An opening's ring is one number throughout, which the row gives last.
pub(crate) fn opening(row: &[u64; ROW_NUMBERS]) -> bool {
    let opened = Pool::open(opening_in(row));
    let entries = opened.entries;
    let expected = [nth(row, 63); RING_WORDS];
    same_ring(&entries, expected) & after_agrees(opened.after, row, 18)
}

// The row's call, of four arguments; those that it lacks are 0. No `From`: a call is another crate's type, and a row an array.
fn call_of(row: &[u64; ROW_NUMBERS]) -> Call {
    let a = nth(row, 2);
    let b = nth(row, 3);
    let c = nth(row, 4);
    let d = nth(row, 5);
    match Kind::try_from(nth(row, 0)) {
        Ok(Kind::SwapBaseInput) => Call::SwapBaseInput {
            direction: a,
            amount: b,
            minimum: c,
            clock: d,
        },
        Ok(Kind::SwapBaseOutput) => Call::SwapBaseOutput {
            direction: a,
            amount: b,
            maximum: c,
            clock: d,
        },
        Ok(Kind::Deposit) => Call::Deposit {
            lp: LpTokens(a),
            maximum0: TradingTokens(b),
            maximum1: TradingTokens(c),
        },
        Ok(Kind::Withdraw) => Call::Withdraw {
            lp: LpTokens(a),
            owned: LpTokens(b),
            minimum0: TradingTokens(c),
            minimum1: TradingTokens(d),
        },
        Ok(Kind::SettleCreatorFee) => Call::Settle { share: a },
        _ => Call::SetStatus { bit: a, flag: b },
    }
}

// A call on a pool and its ring: receipt, pool and every number of the ring are compared.
pub(crate) fn call(row: &[u64; ROW_NUMBERS]) -> bool {
    let before = ring_at(row, 25, 33);
    let mut entries = before;
    let after = apply(pool_at(row, 6), &mut entries, call_of(row));
    ring_agrees(&entries, before, row, 75, 83) & after_agrees(after, row, 38)
}
