// What a swap moves and charges, before anything is booked: both swaps' tests up to the caller's limit, and the calculator's answer.
// By input: an exact amount in, and at least a limit out. By output: an exact amount out, and at most a limit in.
#![tactic(auto)]

ghost use Rattle.std.specs.Prelude.{◌≡◌};
ghost use Rattle.refusal.specs.Tests.{tested};
ghost use Rattle.accounting.specs.Counters.{of_token};
ghost use Rattle.charge.specs.Transfers.{transferred};
ghost use Rattle.quotes.specs.Quotes.{front_tests, quote_of};
ghost use Rattle.quotes.specs.Stages.{near_token, near_charge, far_charge, nets_at, answer_of, limit_tests};

use accounting::{Books, Nets, of_token};
use calculator::{SwapResult, swap_base_input, swap_base_output};
use charge::{Charged, End, charged_for};
use rates::{Terms, is_creator_fee_on_input};
use refusal::{Refusal, refuse_if};

// What a swap moves at the vaults and charges, the nets before it, and the tokens' charges.
#[derive(Clone, Copy)]
pub struct Quote {
    pub result: SwapResult,
    pub net0: u64,
    pub net1: u64,
    pub charged: Charged,
}

// Which of the two swaps it is, which token goes in (true is token 0), and on which terms.
// Its steps are inlined, so that it stands in registers.
#[derive(Clone, Copy)]
struct Swap {
    by_input: bool,
    zero_in: bool,
    terms: Terms,
}

// Both swaps' front: rate limits 3; bit 2 set or clock before open time, 1; amount 0, 10; direction 5.
// Two lists, not one: the compiler lays a list of four out in memory, and then reads the whole record before the first test.
fn check_front(
    terms: Terms,
    status: u64,
    direction: u64,
    amount: u64,
    clock: u64,
) -> Result<(), Refusal>
    ensures { result ≡ tested (front_tests terms status direction amount clock) }
{
    terms.rates.check_limits(terms.rates.creator)?;
    refuse_if(&[
        (status / 4 % 2 == 1, Refusal::NOT_APPROVED),
        (clock < terms.open_time, Refusal::NOT_APPROVED),
    ])?;
    refuse_if(&[
        (amount == 0, Refusal::REQUIRE_VIOLATED),
        (direction > 1, Refusal::INVALID_VAULT),
    ])
}

// Counters' sums 8, vaults 7; a net of 0, 11; model 9.
fn find_nets(books: Books, model: u64) -> Result<Nets, Refusal>
    ensures { result ≡ nets_at books model }
{
    let nets = books.vault_amount_without_fee()?;
    refuse_if(&[
        (nets.net0 == 0, Refusal::PANIC),
        (nets.net1 == 0, Refusal::PANIC),
        (model > 2, Refusal::INVALID_FEE_MODEL),
    ])?;
    Ok(nets)
}

// By input: what is received 0, 10, or below the limit, 2. By output: what is sent above the limit, 2.
#[tactic(auto, unfolding(refusal::specs::Tests::tested))]
fn check_limit(by_input: bool, amount: u64, limit: u64) -> Result<(), Refusal>
    ensures { result ≡ tested (limit_tests by_input amount limit) }
{
    if by_input {
        return refuse_if(&[
            (amount == 0, Refusal::REQUIRE_VIOLATED),
            (amount < limit, Refusal::EXCEEDED_SLIPPAGE),
        ]);
    }
    refuse_if(&[(amount > limit, Refusal::EXCEEDED_SLIPPAGE)])
}

impl Swap {
    // The token of the amount that the caller names: by input the input's, by output the output's. true is token 0. The creator fee's token is chosen
    // alike, by another flag.
    fn near_token(self) -> bool
        ensures { result ≡ near_token self.by_input self.zero_in }
    {
        if self.by_input {
            self.zero_in
        } else {
            !self.zero_in
        }
    }

    // The named amount at the vault: by input what arrives of it; by output what leaves the vault for it, 14 where no u64 has it as its rest.
    #[inline(always)]
    #[tactic(auto, using(crate::proofs::Sides::near_is))]
    fn move_near(self, amount: u64) -> Result<End, Refusal>
        ensures { result ≡ transferred self.by_input (near_charge self.by_input self.terms self.zero_in) amount }
    {
        let charges = self.terms.charges;
        charges.transfer_one(self.near_token(), self.by_input, amount)
    }

    // What the swap finds at the vault on the solver's side: by input what he receives; by output what he sends, 14 where no u64 leaves it.
    #[inline(always)]
    #[tactic(auto, using(crate::proofs::Sides::far_is))]
    fn move_far(self, s: SwapResult) -> Result<End, Refusal>
        ensures { result ≡ transferred self.by_input (far_charge self.by_input self.terms self.zero_in) (of_token self.by_input s.output s.input) }
    {
        let charges = self.terms.charges;
        let moved = of_token(self.by_input, s.output, s.input);
        charges.transfer_one(!self.near_token(), self.by_input, moved)
    }

    // What the calculator answers on the amount at the vault.
    #[inline(always)]
    fn calculate(self, nets: Nets, amount: u64) -> Result<SwapResult, Refusal>
        ensures { result ≡ answer_of self.by_input self.terms self.zero_in nets.net0 nets.net1 amount }
    {
        let rates = self.terms.rates;
        let fee_on_input = is_creator_fee_on_input(self.terms.fee_model, self.zero_in);
        let creator_rate = self.terms.adjust_creator_fee_rate();
        let net_in = of_token(self.zero_in, nets.net0, nets.net1);
        let net_out = of_token(self.zero_in, nets.net1, nets.net0);
        if self.by_input {
            swap_base_input(fee_on_input, rates, creator_rate, net_in, net_out, amount)
        } else {
            swap_base_output(fee_on_input, rates, creator_rate, net_in, net_out, amount)
        }
    }
}

// The front, on the amount itself; the amount at the vault, 10 where nothing is; the nets; the calculator's answer; the limit, on the solver's side.
// The call's arguments stay apart, as the definitions and document 01 list them, here as in `swap` and `pool`; whether by input is a flag of theirs.
pub fn quote_swap(
    by_input: bool,
    terms: Terms,
    status: u64,
    books: Books,
    direction: u64,
    amount: u64,
    limit: u64,
    clock: u64,
) -> Result<Quote, Refusal>
    ensures { result ≡ quote_of by_input terms status books direction amount limit clock }
{
    check_front(terms, status, direction, amount, clock)?;
    let swap = Swap {
        by_input,
        zero_in: direction == 0,
        terms,
    };
    let near = swap.move_near(amount)?;
    if near.amount == 0 {
        return Err(Refusal::REQUIRE_VIOLATED);
    }
    let nets = find_nets(books, terms.fee_model)?;
    let result = swap.calculate(nets, near.amount)?;
    let far = swap.move_far(result)?;
    check_limit(by_input, far.amount, limit)?;
    Ok(Quote {
        result,
        net0: nets.net0,
        net1: nets.net1,
        charged: charged_for(swap.near_token(), near.charge, far.charge),
    })
}
