// The calls, under the names of the original's instructions. None of them has a branch: the crates `swap`, `liquidity`, `settlement`,
// `status` and `opening` decide, and a refused call's answer repeats the old values.
#![tactic(auto, unfolding(crate::specs::Calls::zero_pool, crate::specs::Calls::zero_entries, crate::specs::Calls::opening, crate::specs::Calls::decision_of, crate::specs::Calls::swap_base_input, crate::specs::Calls::swap_base_output, crate::specs::Calls::deposit, crate::specs::Calls::withdraw, crate::specs::Calls::settlement, crate::specs::Calls::set_status, opening::specs::Opening::refused_opening))]

ghost use Rattle.std.specs.Prelude.{◌≡◌};
ghost use Rattle.pool.specs.State.{done, done_of};
ghost use Rattle.pool.specs.Calls.{zero_pool, opening as opening_of, decision_of, swap_base_input, swap_base_output, change_of, deposit, withdraw, settlement, set_status};

use crate::state::{After, Decision, Opened, Pool};
use curve::constant_product::{LpTokens, TradingTokens};
use liquidity::decide as decide_change;
use opening::{Opening, decide as decide_opening};
use oracle::{RING_WORDS, store};
use settlement::decide as decide_settlement;
use status::decide as decide_status;
use swap::decide as decide_swap;

impl Pool {
    // A pool of zeros, which a refused opening gives.
    pub fn zero() -> Pool
        ensures { result ≡ zero_pool }
    {
        Pool::default()
    }

    // A new pool, and the ring's entries.
    pub fn open(opening: Opening) -> Opened
        ensures { done result.after result.entries ≡ opening_of opening }
    {
        let opened = decide_opening(opening);
        Opened {
            after: After {
                pool: Pool::start(opened.books, opened.terms, opened.grid),
                receipt: opened.receipt,
            },
            entries: [0; RING_WORDS],
        }
    }

    // All of a swap but the writing.
    pub fn decide(
        self,
        entries: &[u64; RING_WORDS],
        by_input: bool,
        direction: u64,
        amount: u64,
        limit: u64,
        clock: u64,
    ) -> Decision
        ensures { result ≡ decision_of by_input self entries.now direction amount limit clock }
    {
        let decided = decide_swap(
            by_input,
            self.terms,
            self.status,
            self.books,
            self.ring,
            entries,
            direction,
            amount,
            limit,
            clock,
        );
        Decision {
            after: After {
                pool: Pool {
                    books: decided.books,
                    ring: decided.ring,
                    ..self
                },
                receipt: decided.receipt,
            },
            update: decided.update,
        }
    }

    // Either swap, decided and then written.
    fn swap(
        self,
        entries: &mut [u64; RING_WORDS],
        by_input: bool,
        direction: u64,
        amount: u64,
        limit: u64,
        clock: u64,
    ) -> After
        ensures { done result entries.new ≡ done_of entries.old (decision_of by_input self entries.old direction amount limit clock) }
    {
        let decision = self.decide(entries, by_input, direction, amount, limit, clock);
        store(entries, decision.update);
        decision.after
    }

    // An exact amount in, at least a minimum out.
    pub fn swap_base_input(
        self,
        entries: &mut [u64; RING_WORDS],
        direction: u64,
        amount: u64,
        minimum: u64,
        clock: u64,
    ) -> After
        ensures { done result entries.new ≡ swap_base_input self entries.old direction amount minimum clock }
    {
        self.swap(entries, true, direction, amount, minimum, clock)
    }

    // At most a maximum in, an exact amount out.
    pub fn swap_base_output(
        self,
        entries: &mut [u64; RING_WORDS],
        direction: u64,
        amount: u64,
        maximum: u64,
        clock: u64,
    ) -> After
        ensures { done result entries.new ≡ swap_base_output self entries.old direction amount maximum clock }
    {
        self.swap(entries, false, direction, amount, maximum, clock)
    }

    // A deposit with two maximums, or a withdrawal with the owner's LP and two minimums.
    pub fn change(
        self,
        is_deposit: bool,
        lp: LpTokens,
        owned: LpTokens,
        limit0: TradingTokens,
        limit1: TradingTokens,
    ) -> After
        ensures { result ≡ change_of is_deposit self lp.0 owned.0 limit0.0 limit1.0 }
    {
        self.booked(decide_change(
            is_deposit,
            self.terms.charges,
            self.status,
            self.books,
            lp,
            owned,
            limit0,
            limit1,
        ))
    }

    // Tokens of both kinds for new LP tokens.
    pub fn deposit(self, lp: LpTokens, maximum0: TradingTokens, maximum1: TradingTokens) -> After
        ensures { result ≡ deposit self lp.0 maximum0.0 maximum1.0 }
    {
        self.change(true, lp, LpTokens(0), maximum0, maximum1)
    }

    // LP tokens for tokens of both kinds.
    pub fn withdraw(
        self,
        lp: LpTokens,
        owned: LpTokens,
        minimum0: TradingTokens,
        minimum1: TradingTokens,
    ) -> After
        ensures { result ≡ withdraw self lp.0 owned.0 minimum0.0 minimum1.0 }
    {
        self.change(false, lp, owned, minimum0, minimum1)
    }

    // The creators are paid out of the vaults.
    pub fn settle_creator_fee(self, share: u64) -> After
        ensures { result ≡ settlement self share }
    {
        self.booked(decide_settlement(self.terms.charges, self.books, share))
    }

    // One bit of the status is set or cleared.
    pub fn set_status(self, bit: u64, flag: u64) -> After
        ensures { result ≡ set_status self bit flag }
    {
        let next = decide_status(self.status, bit, flag);
        After {
            pool: Pool {
                status: next.status,
                ..self
            },
            receipt: next.receipt,
        }
    }
}
