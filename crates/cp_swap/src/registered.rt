// Opening, deposit and withdrawal with a register (document 02 (g)), and one holder's balance. The caller lends the register's list beside the
// pool's memory: two numbers an entry, its number and its balance, so as many numbers as twice the entries.
ghost use Rattle.std.specs.Prelude.{◌≡◌};
ghost use Rattle.calls.specs.Registered.{deposit, withdraw};
ghost use Rattle.register_calls.specs.Lent.{register_memory, register_opened_on, register_called_on, balance_memory, balance_on};

use oracle::RING_WORDS;
use register_calls::{balance_on, change_by, open_by};
use words::{OPENING_WORDS, POOL_WORDS, RECEIPT_WORDS, opening_of};

// A new pool by a holder, whatever record and ring held: the list is set to zeros, and he is entered first with the supply less the locked 100.
pub fn cp_swap_open_registered(
    pool: &mut [u64; POOL_WORDS],
    ring: &mut [u64; RING_WORDS],
    receipt: &mut [u64; RECEIPT_WORDS],
    opening: &[u64; OPENING_WORDS],
    holders: &mut [u64],
    holder: u64,
) -> u64
    ensures { register_memory result pool.new ring.new receipt.new holders.new ≡ register_opened_on pool.old ring.old receipt.old holders.old opening.now holder }
{
    let w = *opening;
    open_by(pool, ring, receipt, opening_of(w), holders, holder)
}

// A deposit that is credited to a holder.
pub fn cp_swap_deposit_registered(
    pool: &mut [u64; POOL_WORDS],
    ring: &mut [u64; RING_WORDS],
    receipt: &mut [u64; RECEIPT_WORDS],
    holders: &mut [u64],
    holder: u64,
    lp: u64,
    maximum0: u64,
    maximum1: u64,
) -> u64
    ensures { register_memory result pool.new ring.new receipt.new holders.new ≡ register_called_on pool.old ring.old receipt.old holders.old (deposit holder lp maximum0 maximum1) }
{
    let is_deposit = true;
    change_by(
        pool, ring, receipt, holders, is_deposit, holder, lp, maximum0, maximum1,
    )
}

// A withdrawal of a holder's LP tokens, of which he owns his balance.
pub fn cp_swap_withdraw_registered(
    pool: &mut [u64; POOL_WORDS],
    ring: &mut [u64; RING_WORDS],
    receipt: &mut [u64; RECEIPT_WORDS],
    holders: &mut [u64],
    holder: u64,
    lp: u64,
    minimum0: u64,
    minimum1: u64,
) -> u64
    ensures { register_memory result pool.new ring.new receipt.new holders.new ≡ register_called_on pool.old ring.old receipt.old holders.old (withdraw holder lp minimum0 minimum1) }
{
    let is_deposit = false;
    change_by(
        pool, ring, receipt, holders, is_deposit, holder, lp, minimum0, minimum1,
    )
}

// One holder's balance, 0 where he has none.
pub fn cp_swap_balance(holders: &[u64], holder: u64, balance: &mut [u64; 1]) -> u64
    ensures { balance_memory result balance.new ≡ balance_on holders.now holder balance.old }
{
    balance_on(holders, holder, balance)
}
