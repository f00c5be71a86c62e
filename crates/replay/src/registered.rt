// Reading a balance, opening, deposit and withdrawal with a register, over plain memory: kinds 40, 41, 44 and 45. A row has two entries and
// says how many of them are lent; the others stay as they are.
ghost use Rattle.std.specs.Prelude.{◌≤◌, length};

use crate::on_pool::numbers_agree;
use crate::ring::{filled, same_ring};
use crate::row::{ROW_NUMBERS, nth, opening_in, record_at};
use oracle::RING_WORDS;
use register_calls::{balance_on, change_by, open_by};
use words::{POOL_WORDS, RECEIPT_WORDS, stand_at};

// How many entries a row has.
const ENTRIES: u64 = 2;

// How many numbers these are.
const LIST_NUMBERS: usize = 4;

// The list from a place on.
fn list_at(row: &[u64; ROW_NUMBERS], at: usize) -> [u64; LIST_NUMBERS]
    requires { at ≤ 84 }
{
    [
        nth(row, at),
        nth(row, at + 1),
        nth(row, at + 2),
        nth(row, at + 3),
    ]
}

// Number and balance; a refused reading leaves the balance 0.
fn balance_in(list: &[u64], lent: usize, holder: u64) -> [u64; 2]
    requires { lent ≤ length list.now }
{
    let mut balance = [0u64];
    let number = balance_on(&list[0..lent], holder, &mut balance);
    [number, balance[0]]
}

// A balance that is read.
fn reading(row: &[u64; ROW_NUMBERS], lent: usize) -> bool
    requires { lent ≤ 4 }
{
    let found = balance_in(&list_at(row, 4), lent, nth(row, 3));
    stand_at(&found, row, 8)
}

// The holder's balance after a call, and the list, from a place on.
fn list_agrees(
    list: &[u64; LIST_NUMBERS],
    lent: usize,
    holder: u64,
    row: &[u64; ROW_NUMBERS],
    at: usize,
) -> bool
    requires { (lent ≤ 4) × (at ≤ 83) }
{
    let after = balance_in(list, lent, holder);
    (after[1] == nth(row, at)) & stand_at(list, row, at + 1)
}

// The memory is zeros before, as a refused opening leaves it.
fn opening(row: &[u64; ROW_NUMBERS], lent: usize) -> bool
    requires { lent ≤ 4 }
{
    let holder = nth(row, 19);
    let mut list = list_at(row, 20);
    let mut record = [0u64; POOL_WORDS];
    let mut ring = [0u64; RING_WORDS];
    let mut receipt = [0u64; RECEIPT_WORDS];
    let number = open_by(
        &mut record,
        &mut ring,
        &mut receipt,
        opening_in(row),
        &mut list[0..lent],
        holder,
    );
    (number == nth(row, 24))
        & numbers_agree(&receipt, &record, row, 24)
        & same_ring(&ring, [nth(row, 69); RING_WORDS])
        & list_agrees(&list, lent, holder, row, 70)
}

// A deposit or a withdrawal, which leaves the ring.
fn change(row: &[u64; ROW_NUMBERS], lent: usize, is_deposit: bool) -> bool
    requires { lent ≤ 4 }
{
    let holder = nth(row, 33);
    let mut list = list_at(row, 34);
    let mut record = record_at(row, 6);
    let mut ring = filled();
    let mut receipt = [0u64; RECEIPT_WORDS];
    let number = change_by(
        &mut record,
        &mut ring,
        &mut receipt,
        &mut list[0..lent],
        is_deposit,
        holder,
        nth(row, 2),
        nth(row, 3),
        nth(row, 4),
    );
    (number == nth(row, 38))
        & numbers_agree(&receipt, &record, row, 38)
        & same_ring(&ring, filled())
        & list_agrees(&list, lent, holder, row, 83)
}

// How many entries a row lends.
fn count_in(row: &[u64; ROW_NUMBERS]) -> u64 {
    let kind = nth(row, 0);
    match kind {
        40 => nth(row, 2),
        41 => nth(row, 18),
        _ => nth(row, 5),
    }
}

// Whether a row's answer is the one that is given. It can't lend more entries than it has.
pub(crate) fn agrees(row: &[u64; ROW_NUMBERS]) -> bool {
    let count = count_in(row);
    if count > ENTRIES {
        return false;
    }
    let lent = count as usize * 2;
    let kind = nth(row, 0);
    match kind {
        40 => reading(row, lent),
        41 => opening(row, lent),
        _ => change(row, lent, kind == 44),
    }
}
