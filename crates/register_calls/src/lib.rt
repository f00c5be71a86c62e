// Opening, deposit and withdrawal with a register (document 02 (g)), over plain memory: its list is lent beside record, ring and receipt, two
// numbers an entry. A call returns 0 and writes what it gives, or it returns its refusal's number and writes nothing but a receipt of it.
// What is lent stays apart and a number is what is returned, as at the C interface.
#![tactic(auto)]

ghost use Rattle.std.specs.Prelude.{◌≡◌, ◌<◌, length, set, Ok};
ghost use Rattle.register.specs.Changes.{with_opener};
ghost use Rattle.seats.specs.Stages.{seat_of};
ghost use Rattle.register.specs.Numbers.{entries_of, numbers_of};
ghost use Rattle.register_calls.specs.Lent.{register_memory, register_called_on, balance_memory, balance_on};
ghost use Rattle.register_calls.specs.Steps.{registered_call, register_opened_for};

use accounting::LOCK_LP_AMOUNT;
use memory::lent::{change_on, open_on};
use memory::record::refuse;
use opening::Opening;
use oracle::RING_WORDS;
use refusal::ACCEPTED;
use register::{Holder, check_register};
use seats::{Change, Seat, seat_of};
use words::{POOL_WORDS, RECEIPT_WORDS, SUPPLY_AT};

// Writes the one entry that changes.
#[tactic(auto, using(crate::proofs::Written::entered_at))]
fn enter(holders: &mut [u64], change: Change)
    requires { change.place < length (entries_of holders.old) }
    ensures { holders.new ≡ numbers_of (set (entries_of holders.old) change.place change.entry) }
{
    let first = change.place + change.place;
    holders[first] = change.entry.number;
    holders[first + 1] = change.entry.balance;
}

// The list is set to zeros, and the opener is entered first: over plain numbers, as C lends them; `holders` has the same over its structs.
#[tactic(auto, using(crate::proofs::Written::opener_first))]
fn enter_opener(holders: &mut [u64], opener: Holder)
    requires { 0 < length (entries_of holders.old) }
    ensures { holders.new ≡ numbers_of (with_opener opener (entries_of holders.old)) }
{
    holders.fill(0);
    holders[0] = opener.number;
    holders[1] = opener.balance;
}

// A new pool by a holder, whatever record and ring held. He gets the supply less the locked 100.
pub fn open_by(
    pool: &mut [u64; POOL_WORDS],
    ring: &mut [u64; RING_WORDS],
    receipt: &mut [u64; RECEIPT_WORDS],
    opening: Opening,
    holders: &mut [u64],
    holder: u64,
) -> u64
    ensures { register_memory result pool.new ring.new receipt.new holders.new ≡ register_opened_for pool.old ring.old receipt.old holders.old opening holder }
{
    if let Err(fault) = check_register(holders, holder) {
        return refuse(receipt, fault.number());
    }
    let number = open_on(pool, ring, receipt, opening);
    if number != ACCEPTED {
        return number;
    }
    let opener = Holder {
        number: holder,
        balance: pool[SUPPLY_AT] - LOCK_LP_AMOUNT,
    };
    enter_opener(holders, opener);
    ACCEPTED
}

// From a holder's seat: the call without a register, and then his entry. Where the entry is refused (a deposit's last tests, or a withdrawal above
// the balance), the call's own tests are made on a copy of the record.
fn change_at(
    pool: &mut [u64; POOL_WORDS],
    ring: &mut [u64; RING_WORDS],
    receipt: &mut [u64; RECEIPT_WORDS],
    holders: &mut [u64],
    seat: Seat,
    is_deposit: bool,
    lp: u64,
    limit0: u64,
    limit1: u64,
) -> u64
    requires { seat_of seat.holder (entries_of holders.old) ≡ Ok seat }
    ensures { register_memory result pool.new ring.new receipt.new holders.new ≡ register_called_on pool.old ring.old receipt.old holders.old (registered_call is_deposit seat.holder lp limit0 limit1) }
{
    let owned = seat.balance;
    match seat.change(is_deposit, lp) {
        Ok(change) => {
            let number = change_on(pool, ring, receipt, is_deposit, lp, owned, limit0, limit1);
            if number != ACCEPTED {
                return number;
            }
            enter(holders, change);
            ACCEPTED
        }
        Err(last) => {
            let mut trial = *pool;
            let tried = change_on(
                &mut trial, ring, receipt, is_deposit, lp, owned, limit0, limit1,
            );
            if tried != ACCEPTED {
                return tried;
            }
            refuse(receipt, last.number())
        }
    }
}

// A deposit with two maximums, or a withdrawal with two minimums, by a holder: the LP that he owns is his balance.
#[tactic(auto, using(crate::proofs::Changed::seat_holder, crate::proofs::Changed::seat_stands))]
pub fn change_by(
    pool: &mut [u64; POOL_WORDS],
    ring: &mut [u64; RING_WORDS],
    receipt: &mut [u64; RECEIPT_WORDS],
    holders: &mut [u64],
    is_deposit: bool,
    holder: u64,
    lp: u64,
    limit0: u64,
    limit1: u64,
) -> u64
    ensures { register_memory result pool.new ring.new receipt.new holders.new ≡ register_called_on pool.old ring.old receipt.old holders.old (registered_call is_deposit holder lp limit0 limit1) }
{
    match seat_of(holders, holder) {
        Ok(seat) => change_at(
            pool, ring, receipt, holders, seat, is_deposit, lp, limit0, limit1,
        ),
        Err(fault) => refuse(receipt, fault.number()),
    }
}

// One holder's balance; 3 where the list is no register, or the holder is 0.
#[tactic(auto, using(crate::proofs::Seated::balance_refused, crate::proofs::Seated::balance_read))]
pub fn balance_on(holders: &[u64], holder: u64, balance: &mut [u64; 1]) -> u64
    ensures { balance_memory result balance.new ≡ balance_on holders.now holder balance.old }
{
    match seat_of(holders, holder) {
        Ok(seat) => {
            *balance = [seat.balance];
            ACCEPTED
        }
        Err(fault) => fault.number(),
    }
}
