// The pool for callers in C and Rust: each call over plain memory. The caller lends the pool's record, its ring's entries and a
// receipt, in the order of `words`. The pieces of memory of one call must be separate, aligned for their numbers and of full length:
// this is taken for granted and not tested.
// A call returns 0 and writes what it gives, or it returns its refusal's number and writes nothing but a receipt of it.
#![tactic(auto)]

pub mod day_sheet;
pub mod registered;

ghost use Rattle.std.specs.Prelude.{◌≡◌};
ghost use Rattle.memory.specs.Memory.{memory, called_on, opened_on, nets_memory, nets_on};

use calls::Call;
use memory::lent::{change_on, nets_on, open_on, set_status_on, settle_on, swap_on};
use oracle::RING_WORDS;
use words::{OPENING_WORDS, POOL_WORDS, RECEIPT_WORDS, opening_of};

// A swap of an amount that goes in, for at least `minimum`. Direction 0 is token 0 for token 1.
pub fn cp_swap_base_input(
    pool: &mut [u64; POOL_WORDS],
    ring: &mut [u64; RING_WORDS],
    receipt: &mut [u64; RECEIPT_WORDS],
    direction: u64,
    amount_in: u64,
    minimum: u64,
    clock: u64,
) -> u64
    ensures { memory result pool.new ring.new receipt.new ≡ called_on pool.old ring.old receipt.old (Call.SwapBaseInput direction amount_in minimum clock) }
{
    let by_input = true;
    swap_on(
        pool, ring, receipt, by_input, direction, amount_in, minimum, clock,
    )
}

// A swap for an amount that comes out, for at most `maximum`.
pub fn cp_swap_base_output(
    pool: &mut [u64; POOL_WORDS],
    ring: &mut [u64; RING_WORDS],
    receipt: &mut [u64; RECEIPT_WORDS],
    direction: u64,
    amount_out: u64,
    maximum: u64,
    clock: u64,
) -> u64
    ensures { memory result pool.new ring.new receipt.new ≡ called_on pool.old ring.old receipt.old (Call.SwapBaseOutput direction amount_out maximum clock) }
{
    let by_input = false;
    swap_on(
        pool, ring, receipt, by_input, direction, amount_out, maximum, clock,
    )
}

// Tokens of both kinds for new LP tokens.
pub fn cp_swap_deposit(
    pool: &mut [u64; POOL_WORDS],
    ring: &mut [u64; RING_WORDS],
    receipt: &mut [u64; RECEIPT_WORDS],
    lp: u64,
    maximum0: u64,
    maximum1: u64,
) -> u64
    ensures { memory result pool.new ring.new receipt.new ≡ called_on pool.old ring.old receipt.old (Call.Deposit (record { 0 = lp }) (record { 0 = maximum0 }) (record { 0 = maximum1 })) }
{
    let is_deposit = true;
    change_on(pool, ring, receipt, is_deposit, lp, 0, maximum0, maximum1)
}

// LP tokens, of those that the caller owns, back for tokens of both kinds.
pub fn cp_swap_withdraw(
    pool: &mut [u64; POOL_WORDS],
    ring: &mut [u64; RING_WORDS],
    receipt: &mut [u64; RECEIPT_WORDS],
    lp: u64,
    owned: u64,
    minimum0: u64,
    minimum1: u64,
) -> u64
    ensures { memory result pool.new ring.new receipt.new ≡ called_on pool.old ring.old receipt.old (Call.Withdraw (record { 0 = lp }) (record { 0 = owned }) (record { 0 = minimum0 }) (record { 0 = minimum1 })) }
{
    let is_deposit = false;
    change_on(
        pool, ring, receipt, is_deposit, lp, owned, minimum0, minimum1,
    )
}

// The creator counters are paid out, the shared part apart.
pub fn cp_swap_settle_creator_fee(
    pool: &mut [u64; POOL_WORDS],
    ring: &mut [u64; RING_WORDS],
    receipt: &mut [u64; RECEIPT_WORDS],
    share: u64,
) -> u64
    ensures { memory result pool.new ring.new receipt.new ≡ called_on pool.old ring.old receipt.old (Call.Settle share) }
{
    settle_on(pool, ring, receipt, share)
}

// One bit of the status is set or cleared.
pub fn cp_swap_set_status(
    pool: &mut [u64; POOL_WORDS],
    ring: &mut [u64; RING_WORDS],
    receipt: &mut [u64; RECEIPT_WORDS],
    bit: u64,
    flag: u64,
) -> u64
    ensures { memory result pool.new ring.new receipt.new ≡ called_on pool.old ring.old receipt.old (Call.SetStatus bit flag) }
{
    set_status_on(pool, ring, receipt, bit, flag)
}

// A new pool, whatever the memory held. The arguments: amount 0, amount 1, model, enabled, open time, and the rates trade, protocol,
// fund, creator, share.
pub fn cp_swap_open(
    pool: &mut [u64; POOL_WORDS],
    ring: &mut [u64; RING_WORDS],
    receipt: &mut [u64; RECEIPT_WORDS],
    opening: &[u64; OPENING_WORDS],
) -> u64
    ensures { memory result pool.new ring.new receipt.new ≡ opened_on pool.old ring.old receipt.old opening.now }
{
    let w = *opening;
    open_on(pool, ring, receipt, opening_of(w))
}

// The two nets of the pool, token 0's first.
pub fn cp_swap_nets(pool: &[u64; POOL_WORDS], nets: &mut [u64; 2]) -> u64
    ensures { nets_memory result nets.new ≡ nets_on pool.now nets.old }
{
    nets_on(pool, nets)
}
