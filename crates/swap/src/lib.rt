// Both swaps, decided over a pool's terms, status and books, the ring's head and its newest entry, which is read last. Nothing is written.
// By input: an exact amount in, and at least a limit out. By output: an exact amount out, and at most a limit in.
#![tactic(auto)]

ghost use Rattle.std.specs.Prelude.{◌≡◌, ◌≤◌};
ghost use Rattle.accounting.specs.Counters.{of_token};
ghost use Rattle.oracle.specs.Ring.{seen};
ghost use Rattle.swap.specs.Swap.{refused_swap, swap_receipt, swap_after};
ghost use Rattle.swap.specs.Stages.{paid_in, paid_at, swap_answer};

use accounting::{Books, SwapFees, creator_token, of_token};
use lending::booked;
use oracle::{RING_WORDS, Ring, Update};
use quotes::{Quote, quote_swap};
use rates::{Terms, is_creator_fee_on_input};
use receipt::{Kind, Paid, Receipt, Trade, refusal_receipt};
use refusal::Refusal;

// What a swap comes to: books and head after it, its receipt, and what the ring's entries get. A refused swap's books and head are as they were, and it
// has a receipt too, as a call gives the pool after it (document 01; `After` of pool).
#[derive(Clone, Copy)]
pub struct SwapAfter {
    pub books: Books,
    pub ring: Ring,
    pub receipt: Receipt,
    pub update: Result<Update, Refusal>,
}

// A quoted swap: by input or by output, which token goes in and which its creator fee is of (true is token 0), and what it moves and charges.
#[derive(Clone, Copy)]
struct Swap {
    by_input: bool,
    zero_in: bool,
    zero_fee: bool,
    quote: Quote,
}

// A vault with what is paid in; past u64, 8. A counter's sum refuses by another number.
#[tactic(auto, unfolding(refusal::specs::Tests::outcome))]
fn pay_in(vault: u64, input: u64) -> Result<u64, Refusal>
    ensures { result ≡ paid_in vault input }
{
    vault.checked_add(input).ok_or(Refusal::MATH_OVERFLOW)
}

impl Swap {
    // The receipt of an accepted swap.
    #[tactic(auto, unfolding(crate::specs::Swap::swap_receipt), using(crate::proofs::Laws::kind_is))]
    fn receipt(self, clock: u64) -> Receipt
        ensures { result ≡ swap_receipt self.by_input self.zero_in self.zero_fee self.quote.result self.quote.charged clock }
    {
        let s = self.quote.result;
        Receipt {
            kind: of_token(
                self.by_input,
                Kind::SwapBaseInput as u64,
                Kind::SwapBaseOutput as u64,
            ),
            paid: Paid {
                in0: of_token(self.zero_in, s.input, 0),
                in1: of_token(self.zero_in, 0, s.input),
                out0: of_token(self.zero_in, 0, s.output),
                out1: of_token(self.zero_in, s.output, 0),
                lp: 0,
            },
            trade: Trade {
                direction: u64::from(!self.zero_in),
                clock,
                trade_fee: s.trade,
                protocol_fee: s.protocol,
                fund_fee: s.fund,
                creator_fee: s.creator,
                creator_fee_token: u64::from(!self.zero_fee),
            },
            charged: self.quote.charged,
            ..Receipt::default()
        }
    }

    // The books after it: the fees go to their counters, a counter past u64 is 11; a vault adds what was paid in, past u64 8, and the other loses what
    // was paid out.
    fn pay(self, books: Books) -> Result<Books, Refusal>
        requires { self.quote.result.output ≤ of_token self.zero_in books.vault1 books.vault0 }
        ensures { result ≡ paid_at self.zero_in self.zero_fee self.quote.result books }
    {
        let s = self.quote.result;
        let owed = SwapFees {
            protocol: s.protocol,
            fund: s.fund,
            creator: s.creator,
        };
        let fees = booked(books.fees, self.zero_in, self.zero_fee, owed)?;
        let vault_in = of_token(self.zero_in, books.vault0, books.vault1);
        let vault_out = of_token(self.zero_in, books.vault1, books.vault0);
        let paid_in = pay_in(vault_in, s.input)?;
        let paid_out = vault_out - s.output;
        Ok(Books {
            vault0: of_token(self.zero_in, paid_in, paid_out),
            vault1: of_token(self.zero_in, paid_out, paid_in),
            fees,
            supply: books.supply,
        })
    }
}

#[tactic(auto, unfolding(crate::specs::Swap::refused_swap))]
fn refused_swap(books: Books, ring: Ring, refusal: Refusal) -> SwapAfter
    ensures { result ≡ refused_swap books ring refusal }
{
    SwapAfter {
        books,
        ring,
        receipt: refusal_receipt(refusal.number()),
        update: Err(refusal),
    }
}

// An accepted swap: its quote, its books, and the ring, with the nets before it.
fn accept(
    by_input: bool,
    terms: Terms,
    status: u64,
    books: Books,
    ring: Ring,
    entries: &[u64; RING_WORDS],
    direction: u64,
    amount: u64,
    limit: u64,
    clock: u64,
) -> Result<SwapAfter, Refusal>
    ensures { result ≡ swap_answer by_input terms status books ring (seen ring entries.now) direction amount limit clock }
{
    let quote = quote_swap(
        by_input, terms, status, books, direction, amount, limit, clock,
    )?;
    let zero_in = direction == 0;
    let fee_on_input = is_creator_fee_on_input(terms.fee_model, zero_in);
    let swap = Swap {
        by_input,
        zero_in,
        zero_fee: creator_token(fee_on_input, zero_in),
        quote,
    };
    let paid = swap.pay(books)?;
    let update = ring.observe(ring.seen(entries), clock, quote.net0, quote.net1)?;
    Ok(SwapAfter {
        books: paid,
        ring: update.after(),
        receipt: swap.receipt(clock),
        update: Ok(update),
    })
}

// All of a swap but the writing.
pub fn decide(
    by_input: bool,
    terms: Terms,
    status: u64,
    books: Books,
    ring: Ring,
    entries: &[u64; RING_WORDS],
    direction: u64,
    amount: u64,
    limit: u64,
    clock: u64,
) -> SwapAfter
    ensures { result ≡ swap_after by_input terms status books ring (seen ring entries.now) direction amount limit clock }
{
    match accept(
        by_input, terms, status, books, ring, entries, direction, amount, limit, clock,
    ) {
        Ok(after) => after,
        Err(refusal) => refused_swap(books, ring, refusal),
    }
}
