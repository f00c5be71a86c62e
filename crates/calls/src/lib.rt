// One call of a list, and what it gives at a point; a refused one leaves pool and ring as they were.
#![tactic(auto)]

ghost use Rattle.std.specs.Prelude.{◌≡◌, true};
ghost use Rattle.pool.specs.State.{done};
ghost use Rattle.calls.specs.Next.{state_of, next};
ghost use Rattle.calls.specs.Refused.{RefusalsLeaveAll};

use curve::constant_product::{LpTokens, TradingTokens};
use oracle::RING_WORDS;
use pool::state::{After, Pool};

// The six kinds of calls that a list may have, with their arguments.
#[derive(Clone, Copy)]
pub enum Call {
    SwapBaseInput {
        direction: u64,
        amount: u64,
        minimum: u64,
        clock: u64,
    },
    SwapBaseOutput {
        direction: u64,
        amount: u64,
        maximum: u64,
        clock: u64,
    },
    Deposit {
        lp: LpTokens,
        maximum0: TradingTokens,
        maximum1: TradingTokens,
    },
    Withdraw {
        lp: LpTokens,
        owned: LpTokens,
        minimum0: TradingTokens,
        minimum1: TradingTokens,
    },
    Settle {
        share: u64,
    },
    SetStatus {
        bit: u64,
        flag: u64,
    },
}

// The call's code. Only the swaps are lent the ring's entries. What this ensures is one step of demand 3's runs.
pub fn apply(pool: Pool, entries: &mut [u64; RING_WORDS], call: Call) -> After
    ensures { done result entries.new ≡ next (state_of pool entries.old) call }
{
    match call {
        Call::SwapBaseInput {
            direction,
            amount,
            minimum,
            clock,
        } => pool.swap_base_input(entries, direction, amount, minimum, clock),
        Call::SwapBaseOutput {
            direction,
            amount,
            maximum,
            clock,
        } => pool.swap_base_output(entries, direction, amount, maximum, clock),
        Call::Deposit {
            lp,
            maximum0,
            maximum1,
        } => pool.deposit(lp, maximum0, maximum1),
        Call::Withdraw {
            lp,
            owned,
            minimum0,
            minimum1,
        } => pool.withdraw(lp, owned, minimum0, minimum1),
        Call::Settle { share } => pool.settle_creator_fee(share),
        Call::SetStatus { bit, flag } => pool.set_status(bit, flag),
    }
}

// Its contract is demand 1 of every call and every opening: a refused one leaves pool and ring as they were, and one with a register its list
// too (specs/Refused.antt).
pub fn refusals_leave_all() -> bool
    ensures { (result ≡ true) × RefusalsLeaveAll }
{
    true
}
