// Each call, an opening and the nets, over plain memory. The three pieces that are lent stay three parameters, as C gives them: a struct of three
// `&mut` would be put together at each call only to be taken apart, and each contract would find the receipt at `self.exit.1.1.0.now`.
#![tactic(auto, unfolding(crate::specs::Memory::called_on, crate::specs::Memory::record_tests, crate::specs::Memory::stored, crate::specs::Memory::untouched, crate::specs::Memory::nets_on, crate::specs::Memory::stored_nets, crate::specs::Steps::pool_answer, crate::specs::Steps::given_on, refusal::specs::Tests::first, refusal::specs::Tests::outcome, refusal::specs::Tests::tested, calls::specs::Next::next))]

ghost use Rattle.std.specs.Prelude.{◌≡◌};
ghost use Rattle.memory.specs.Memory.{memory, called_on, nets_memory, nets_on};
ghost use Rattle.memory.specs.Steps.{swap_call, change_call, opened_with};

use crate::record::{call_on, check_record, give, pool_in, refuse};
use accounting::Nets;
use calls::Call;
use curve::constant_product::{LpTokens, TradingTokens};
use opening::Opening;
use oracle::{RING_WORDS, store};
use pool::state::Pool;
use refusal::ACCEPTED;
use words::{POOL_WORDS, RECEIPT_WORDS};

// Either swap, which is no `call_on`: it gives more than that writes. The ring's entries are stored last; a refused swap has none to store.
pub fn swap_on(
    pool: &mut [u64; POOL_WORDS],
    ring: &mut [u64; RING_WORDS],
    receipt: &mut [u64; RECEIPT_WORDS],
    by_input: bool,
    direction: u64,
    amount: u64,
    limit: u64,
    clock: u64,
) -> u64
    ensures { memory result pool.new ring.new receipt.new ≡ called_on pool.old ring.old receipt.old (swap_call by_input direction amount limit clock) }
{
    if let Err(refusal) = check_record(pool) {
        return refuse(receipt, refusal.number());
    }
    let decision = pool_in(*pool).decide(ring, by_input, direction, amount, limit, clock);
    let number = give(pool, receipt, decision.after);
    store(ring, decision.update);
    number
}

// A deposit with two maximums, or a withdrawal of LP tokens, of those that the caller owns, with two minimums.
pub fn change_on(
    pool: &mut [u64; POOL_WORDS],
    ring: &mut [u64; RING_WORDS],
    receipt: &mut [u64; RECEIPT_WORDS],
    is_deposit: bool,
    lp: u64,
    owned: u64,
    limit0: u64,
    limit1: u64,
) -> u64
    ensures { memory result pool.new ring.new receipt.new ≡ called_on pool.old ring.old receipt.old (change_call is_deposit lp owned limit0 limit1) }
{
    call_on(pool, receipt, |p| {
        p.change(
            is_deposit,
            LpTokens(lp),
            LpTokens(owned),
            TradingTokens(limit0),
            TradingTokens(limit1),
        )
    })
}

// The creator counters are paid out, the shared part apart.
pub fn settle_on(
    pool: &mut [u64; POOL_WORDS],
    ring: &mut [u64; RING_WORDS],
    receipt: &mut [u64; RECEIPT_WORDS],
    share: u64,
) -> u64
    ensures { memory result pool.new ring.new receipt.new ≡ called_on pool.old ring.old receipt.old (Call.Settle share) }
{
    call_on(pool, receipt, |p| p.settle_creator_fee(share))
}

// One bit of the status is set or cleared.
pub fn set_status_on(
    pool: &mut [u64; POOL_WORDS],
    ring: &mut [u64; RING_WORDS],
    receipt: &mut [u64; RECEIPT_WORDS],
    bit: u64,
    flag: u64,
) -> u64
    ensures { memory result pool.new ring.new receipt.new ≡ called_on pool.old ring.old receipt.old (Call.SetStatus bit flag) }
{
    call_on(pool, receipt, |p| p.set_status(bit, flag))
}

// A new pool, whatever the memory held.
pub fn open_on(
    pool: &mut [u64; POOL_WORDS],
    ring: &mut [u64; RING_WORDS],
    receipt: &mut [u64; RECEIPT_WORDS],
    opening: Opening,
) -> u64
    ensures { memory result pool.new ring.new receipt.new ≡ opened_with pool.old ring.old receipt.old opening }
{
    let opened = Pool::open(opening);
    let entries = opened.entries;
    let number = give(pool, receipt, opened.after);
    if number == ACCEPTED {
        *ring = entries;
    }
    number
}

// The two nets of the pool, token 0's first.
pub fn nets_on(pool: &[u64; POOL_WORDS], nets: &mut [u64; 2]) -> u64
    ensures { nets_memory result nets.new ≡ nets_on pool.now nets.old }
{
    if let Err(refusal) = check_record(pool) {
        return refusal.number();
    }
    match pool_in(*pool).nets() {
        Ok(Nets { net0, net1 }) => {
            *nets = [net0, net1];
            ACCEPTED
        }
        Err(refusal) => refusal.number(),
    }
}
