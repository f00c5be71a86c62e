// The pool's record with its ring's head, and its receipt, as plain numbers, in a fixed order: what document 02 adds stands behind what was
// there. The conversions are functions and no `From`: their types are other crates' and the arrays std's, which the orphan rule refuses.
#![tactic(auto)]

ghost use Rattle.std.specs.Prelude.{◌≡◌, ◌+◌, ◌-◌, drop};
ghost use Rattle.words.specs.Words.{pool_words, receipt_words, rates_of, opening_of, pool_of, receipt_of, holdings_of, share_of, begins_with};

use accounting::{Books, FeeCounters};
use charge::{Charge, Charged, Charges};
use opening::Opening;
use oracle::{Grid, Ring};
use pool::state::Pool;
use rates::{Rates, Terms};
use receipt::{Paid, Receipt, Shared, Trade};

// How many numbers a pool's record has.
pub const POOL_WORDS: usize = 27;

// How many numbers a receipt has.
pub const RECEIPT_WORDS: usize = 18;

// How many arguments an opening has.
pub const OPENING_WORDS: usize = 16;

// The place of the supply in the record.
pub const SUPPLY_AT: usize = 8;

// The place that says whether creator fees are enabled.
pub const ENABLED_AT: usize = 12;

// The place of the share rate.
const SHARE_AT: usize = 17;

// The place that says whether the ring is used.
pub const USED_AT: usize = 18;

// The nets, 0 where the counters are above the vault, and the supply.
#[derive(Clone, Copy)]
pub struct Holdings {
    pub net0: u64,
    pub net1: u64,
    pub supply: u64,
}

// The pool as plain numbers.
pub fn pool_words(p: Pool) -> [u64; POOL_WORDS]
    ensures { result ≡ pool_words p }
{
    let books = p.books;
    let terms = p.terms;
    [
        books.vault0,
        books.vault1,
        books.fees.protocol0,
        books.fees.protocol1,
        books.fees.fund0,
        books.fees.fund1,
        books.fees.creator0,
        books.fees.creator1,
        books.supply,
        p.status,
        terms.open_time,
        terms.fee_model,
        u64::from(terms.enabled),
        terms.rates.trade,
        terms.rates.protocol,
        terms.rates.fund,
        terms.rates.creator,
        terms.rates.share,
        u64::from(p.ring.used),
        p.ring.index,
        p.ring.mark,
        terms.charges.token0.points,
        terms.charges.token0.maximum,
        terms.charges.token1.points,
        terms.charges.token1.maximum,
        p.ring.grid.spacing,
        p.ring.grid.length,
    ]
}

// The receipt as plain numbers.
pub fn receipt_words(r: Receipt) -> [u64; RECEIPT_WORDS]
    ensures { result ≡ receipt_words r }
{
    [
        r.number,
        r.kind,
        r.trade.direction,
        r.trade.clock,
        r.paid.in0,
        r.paid.in1,
        r.paid.out0,
        r.paid.out1,
        r.paid.lp,
        r.trade.trade_fee,
        r.trade.protocol_fee,
        r.trade.fund_fee,
        r.trade.creator_fee,
        r.trade.creator_fee_token,
        r.shared.shared0,
        r.shared.shared1,
        r.charged.charge0,
        r.charged.charge1,
    ]
}

// Five numbers as the rates of an opening.
pub fn rates_of(w: [u64; 5]) -> Rates
    ensures { result ≡ rates_of w }
{
    Rates {
        trade: w[0],
        protocol: w[1],
        fund: w[2],
        creator: w[3],
        share: w[4],
    }
}

// Points and maximum of token 0, then of token 1.
fn charges_of(points0: u64, maximum0: u64, points1: u64, maximum1: u64) -> Charges
    ensures { result ≡ record { token0 = record { points = points0; maximum = maximum0 }; token1 = record { points = points1; maximum = maximum1 } } }
{
    Charges {
        token0: Charge {
            points: points0,
            maximum: maximum0,
        },
        token1: Charge {
            points: points1,
            maximum: maximum1,
        },
    }
}

// Sixteen numbers as the arguments of an opening: behind those of document 01 the charges, then the ring's spacing and length.
pub fn opening_of(w: [u64; OPENING_WORDS]) -> Opening
    ensures { result ≡ opening_of w }
{
    let charges = charges_of(w[10], w[11], w[12], w[13]);
    Opening {
        amount0: w[0],
        amount1: w[1],
        model: w[2],
        enabled: w[3],
        open_time: w[4],
        rates: Rates {
            trade: w[5],
            protocol: w[6],
            fund: w[7],
            creator: w[8],
            share: w[9],
        },
        charges,
        grid: Grid {
            spacing: w[14],
            length: w[15],
        },
    }
}

// The pool of such numbers. A flag is set where its number is 1.
pub fn pool_of(w: [u64; POOL_WORDS]) -> Pool
    ensures { result ≡ pool_of w }
{
    let charges = charges_of(w[21], w[22], w[23], w[24]);
    Pool {
        books: Books {
            vault0: w[0],
            vault1: w[1],
            fees: FeeCounters {
                protocol0: w[2],
                protocol1: w[3],
                fund0: w[4],
                fund1: w[5],
                creator0: w[6],
                creator1: w[7],
            },
            supply: w[8],
        },
        terms: Terms {
            rates: Rates {
                trade: w[13],
                protocol: w[14],
                fund: w[15],
                creator: w[16],
                share: w[SHARE_AT],
            },
            charges,
            fee_model: w[11],
            open_time: w[10],
            enabled: w[ENABLED_AT] == 1,
        },
        status: w[9],
        ring: Ring {
            used: w[USED_AT] == 1,
            index: w[19],
            mark: w[20],
            grid: Grid {
                spacing: w[25],
                length: w[26],
            },
        },
    }
}

// The receipt of such numbers.
pub fn receipt_of(w: [u64; RECEIPT_WORDS]) -> Receipt
    ensures { result ≡ receipt_of w }
{
    Receipt {
        number: w[0],
        kind: w[1],
        paid: Paid {
            in0: w[4],
            in1: w[5],
            out0: w[6],
            out1: w[7],
            lp: w[8],
        },
        trade: Trade {
            direction: w[2],
            clock: w[3],
            trade_fee: w[9],
            protocol_fee: w[10],
            fund_fee: w[11],
            creator_fee: w[12],
            creator_fee_token: w[13],
        },
        shared: Shared {
            shared0: w[14],
            shared1: w[15],
        },
        charged: Charged {
            charge0: w[16],
            charge1: w[17],
        },
    }
}

// A vault less its three counters; 0 where they are above it. Each is taken off by itself, so that no sum wraps.
fn net_or_zero(vault: u64, protocol: u64, fund: u64, creator: u64) -> u64
    ensures { result ≡ vault - (protocol + fund + creator) }
{
    vault
        .saturating_sub(protocol)
        .saturating_sub(fund)
        .saturating_sub(creator)
}

// What a row of the day sheet shows of a pool: the nets and the supply.
pub fn holdings_of(w: &[u64; POOL_WORDS]) -> Holdings
    ensures { result ≡ holdings_of (pool_of w.now) }
{
    let p = pool_of(*w);
    let books = p.books;
    let fees = books.fees;
    let net0 = net_or_zero(books.vault0, fees.protocol0, fees.fund0, fees.creator0);
    let net1 = net_or_zero(books.vault1, fees.protocol1, fees.fund1, fees.creator1);
    Holdings {
        net0,
        net1,
        supply: books.supply,
    }
}

// The rate at which a row of the day sheet settles.
pub fn share_of(w: &[u64; POOL_WORDS]) -> u64
    ensures { result ≡ share_of (pool_of w.now) }
{
    w[SHARE_AT]
}

// Whether these numbers stand in a row from a place on.
pub fn stand_at(found: &[u64], row: &[u64], at: usize) -> bool
    ensures { result ≡ begins_with (drop at row.now) found.now }
{
    match row.get(at..) {
        Some(rest) => rest.starts_with(found),
        None => found.is_empty(),
    }
}
