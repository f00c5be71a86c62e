// The static library for callers in C and Rust: an export for each call over plain memory of crate `cp_swap`, under the same name and with
// the same clauses.
#![tactic(auto)]

ghost use Rattle.std.specs.Prelude.{◌≡◌};
ghost use Rattle.calls.specs.Registered.{deposit, withdraw};
ghost use Rattle.memory.specs.Memory.{memory, called_on, opened_on, nets_memory, nets_on};
ghost use Rattle.register_calls.specs.Lent.{register_memory, register_opened_on, register_called_on, balance_memory, balance_on};
ghost use Rattle.cp_swap.specs.DaySheet.{sheet_memory, fed_on, ended_on};

use calls::Call;
use cp_swap::day_sheet::SHEET_WORDS;
use oracle::RING_WORDS;
use rows::row::ROW_BYTES;
use words::{OPENING_WORDS, POOL_WORDS, RECEIPT_WORDS};

// A swap of an amount that goes in, for at least `minimum`. Direction 0 is token 0 for token 1.
#[unsafe(no_mangle)]
pub extern "C" fn cp_swap_base_input(
    pool: &mut [u64; POOL_WORDS],
    ring: &mut [u64; RING_WORDS],
    receipt: &mut [u64; RECEIPT_WORDS],
    direction: u64,
    amount_in: u64,
    minimum: u64,
    clock: u64,
) -> u64
    ensures { memory result pool.new ring.new receipt.new ≡ called_on pool.old ring.old receipt.old (Call.SwapBaseInput direction amount_in minimum clock) }
{
    cp_swap::cp_swap_base_input(pool, ring, receipt, direction, amount_in, minimum, clock)
}

// A swap for an amount that comes out, for at most `maximum`.
#[unsafe(no_mangle)]
pub extern "C" fn cp_swap_base_output(
    pool: &mut [u64; POOL_WORDS],
    ring: &mut [u64; RING_WORDS],
    receipt: &mut [u64; RECEIPT_WORDS],
    direction: u64,
    amount_out: u64,
    maximum: u64,
    clock: u64,
) -> u64
    ensures { memory result pool.new ring.new receipt.new ≡ called_on pool.old ring.old receipt.old (Call.SwapBaseOutput direction amount_out maximum clock) }
{
    cp_swap::cp_swap_base_output(pool, ring, receipt, direction, amount_out, maximum, clock)
}

// Tokens of both kinds for new LP tokens.
#[unsafe(no_mangle)]
pub extern "C" fn cp_swap_deposit(
    pool: &mut [u64; POOL_WORDS],
    ring: &mut [u64; RING_WORDS],
    receipt: &mut [u64; RECEIPT_WORDS],
    lp: u64,
    maximum0: u64,
    maximum1: u64,
) -> u64
    ensures { memory result pool.new ring.new receipt.new ≡ called_on pool.old ring.old receipt.old (Call.Deposit (record { 0 = lp }) (record { 0 = maximum0 }) (record { 0 = maximum1 })) }
{
    cp_swap::cp_swap_deposit(pool, ring, receipt, lp, maximum0, maximum1)
}

// LP tokens, of those that the caller owns, back for tokens of both kinds.
#[unsafe(no_mangle)]
pub extern "C" fn cp_swap_withdraw(
    pool: &mut [u64; POOL_WORDS],
    ring: &mut [u64; RING_WORDS],
    receipt: &mut [u64; RECEIPT_WORDS],
    lp: u64,
    owned: u64,
    minimum0: u64,
    minimum1: u64,
) -> u64
    ensures { memory result pool.new ring.new receipt.new ≡ called_on pool.old ring.old receipt.old (Call.Withdraw (record { 0 = lp }) (record { 0 = owned }) (record { 0 = minimum0 }) (record { 0 = minimum1 })) }
{
    cp_swap::cp_swap_withdraw(pool, ring, receipt, lp, owned, minimum0, minimum1)
}

// The creator counters are paid out, the shared part apart.
#[unsafe(no_mangle)]
pub extern "C" fn cp_swap_settle_creator_fee(
    pool: &mut [u64; POOL_WORDS],
    ring: &mut [u64; RING_WORDS],
    receipt: &mut [u64; RECEIPT_WORDS],
    share: u64,
) -> u64
    ensures { memory result pool.new ring.new receipt.new ≡ called_on pool.old ring.old receipt.old (Call.Settle share) }
{
    cp_swap::cp_swap_settle_creator_fee(pool, ring, receipt, share)
}

// One bit of the status is set or cleared.
#[unsafe(no_mangle)]
pub extern "C" fn cp_swap_set_status(
    pool: &mut [u64; POOL_WORDS],
    ring: &mut [u64; RING_WORDS],
    receipt: &mut [u64; RECEIPT_WORDS],
    bit: u64,
    flag: u64,
) -> u64
    ensures { memory result pool.new ring.new receipt.new ≡ called_on pool.old ring.old receipt.old (Call.SetStatus bit flag) }
{
    cp_swap::cp_swap_set_status(pool, ring, receipt, bit, flag)
}

// A new pool, whatever the memory held. The arguments: amount 0, amount 1, model, enabled, open time, and the rates trade, protocol,
// fund, creator, share.
#[unsafe(no_mangle)]
pub extern "C" fn cp_swap_open(
    pool: &mut [u64; POOL_WORDS],
    ring: &mut [u64; RING_WORDS],
    receipt: &mut [u64; RECEIPT_WORDS],
    opening: &[u64; OPENING_WORDS],
) -> u64
    ensures { memory result pool.new ring.new receipt.new ≡ opened_on pool.old ring.old receipt.old opening.now }
{
    cp_swap::cp_swap_open(pool, ring, receipt, opening)
}

// The two nets of the pool, token 0's first.
#[unsafe(no_mangle)]
pub extern "C" fn cp_swap_nets(pool: &[u64; POOL_WORDS], nets: &mut [u64; 2]) -> u64
    ensures { nets_memory result nets.new ≡ nets_on pool.now nets.old }
{
    cp_swap::cp_swap_nets(pool, nets)
}

// A piece of the input, whatever its length: the answers of the rows that it ends, as long as there is room for another.
#[unsafe(no_mangle)]
pub extern "C" fn cp_swap_day_sheet(
    pool: &mut [u64; POOL_WORDS],
    ring: &mut [u64; RING_WORDS],
    sheet: &mut [u64; SHEET_WORDS],
    held: &mut [u8; ROW_BYTES],
    input: &[u8],
    output: &mut [u8],
    progress: &mut [u64; 2],
) -> u64
    ensures { sheet_memory result pool.new ring.new sheet.new held.new output.new progress.new ≡ fed_on pool.old ring.old sheet.old held.old input.now output.old progress.old }
{
    cp_swap::day_sheet::cp_swap_day_sheet(pool, ring, sheet, held, input, output, progress)
}

// The end of the input: the last row, where one is begun.
#[unsafe(no_mangle)]
pub extern "C" fn cp_swap_day_sheet_end(
    pool: &mut [u64; POOL_WORDS],
    ring: &mut [u64; RING_WORDS],
    sheet: &mut [u64; SHEET_WORDS],
    held: &[u8; ROW_BYTES],
    output: &mut [u8; ROW_BYTES],
    progress: &mut [u64; 2],
) -> u64
    ensures { sheet_memory result pool.new ring.new sheet.new held.now output.new progress.new ≡ ended_on pool.old ring.old sheet.old held.now output.old progress.old }
{
    cp_swap::day_sheet::cp_swap_day_sheet_end(pool, ring, sheet, held, output, progress)
}

// A new pool by a holder, whatever record and ring held: the list is set to zeros, and he is entered first with the supply less the locked 100.
#[unsafe(no_mangle)]
pub extern "C" fn cp_swap_open_registered(
    pool: &mut [u64; POOL_WORDS],
    ring: &mut [u64; RING_WORDS],
    receipt: &mut [u64; RECEIPT_WORDS],
    opening: &[u64; OPENING_WORDS],
    holders: &mut [u64],
    holder: u64,
) -> u64
    ensures { register_memory result pool.new ring.new receipt.new holders.new ≡ register_opened_on pool.old ring.old receipt.old holders.old opening.now holder }
{
    cp_swap::registered::cp_swap_open_registered(pool, ring, receipt, opening, holders, holder)
}

// A deposit that is credited to a holder.
#[unsafe(no_mangle)]
pub extern "C" fn cp_swap_deposit_registered(
    pool: &mut [u64; POOL_WORDS],
    ring: &mut [u64; RING_WORDS],
    receipt: &mut [u64; RECEIPT_WORDS],
    holders: &mut [u64],
    holder: u64,
    lp: u64,
    maximum0: u64,
    maximum1: u64,
) -> u64
    ensures { register_memory result pool.new ring.new receipt.new holders.new ≡ register_called_on pool.old ring.old receipt.old holders.old (deposit holder lp maximum0 maximum1) }
{
    cp_swap::registered::cp_swap_deposit_registered(
        pool, ring, receipt, holders, holder, lp, maximum0, maximum1,
    )
}

// A withdrawal of a holder's LP tokens, of which he owns his balance.
#[unsafe(no_mangle)]
pub extern "C" fn cp_swap_withdraw_registered(
    pool: &mut [u64; POOL_WORDS],
    ring: &mut [u64; RING_WORDS],
    receipt: &mut [u64; RECEIPT_WORDS],
    holders: &mut [u64],
    holder: u64,
    lp: u64,
    minimum0: u64,
    minimum1: u64,
) -> u64
    ensures { register_memory result pool.new ring.new receipt.new holders.new ≡ register_called_on pool.old ring.old receipt.old holders.old (withdraw holder lp minimum0 minimum1) }
{
    cp_swap::registered::cp_swap_withdraw_registered(
        pool, ring, receipt, holders, holder, lp, minimum0, minimum1,
    )
}

// One holder's balance, 0 where he has none.
#[unsafe(no_mangle)]
pub extern "C" fn cp_swap_balance(holders: &[u64], holder: u64, balance: &mut [u64; 1]) -> u64
    ensures { balance_memory result balance.new ≡ balance_on holders.now holder balance.old }
{
    cp_swap::registered::cp_swap_balance(holders, holder, balance)
}
