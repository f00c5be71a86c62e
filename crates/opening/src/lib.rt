// Opening: the books, the terms and the ring's grid of a new pool, from two amounts.
#![tactic(auto)]

ghost use Rattle.std.specs.Prelude.{◌≡◌};
ghost use Rattle.opening.specs.Opening.{out_of_range, books_with, opened_terms, refused_opening, opening_after};
ghost use Rattle.opening.specs.Stages.{opened};

use accounting::Books;
use charge::{Charged, Charges};
use oracle::{Grid, OBSERVATION_NUM};
use rates::{Rates, Terms};
use receipt::{Kind, Receipt, amounts_receipt, refusal_receipt};
use refusal::{Refusal, refuse_if};
use root::isqrt;
use wide::widening_mul;

// A supply below this is refused, so that with 100 locked the opener gets at least 1.
const LEAST_SUPPLY: u64 = 101;

// Points above this are refused.
const HIGHEST_POINTS: u64 = 9_999;

// The ring's spacing is 1 to so many seconds.
const LONGEST_SPACING: u64 = 3_600;

// Its length is from so many entries to 100.
const LEAST_LENGTH: u64 = 2;

// The arguments of an opening. `enabled` is 0 or 1.
#[derive(Clone, Copy)]
pub struct Opening {
    pub amount0: u64,
    pub amount1: u64,
    pub model: u64,
    pub enabled: u64,
    pub open_time: u64,
    pub rates: Rates,
    pub charges: Charges,
    pub grid: Grid,
}

// What a pool begins with, and the receipt, also of a refused opening (document 01; `After` of pool).
#[derive(Clone, Copy, Default)]
pub struct OpeningAfter {
    pub books: Books,
    pub terms: Terms,
    pub grid: Grid,
    pub receipt: Receipt,
}

// Below the least or above the most.
fn out_of_range(least: u64, most: u64, n: u64) -> bool
    ensures { result ≡ out_of_range least most n }
{
    !(least..=most).contains(&n)
}

// Counters start at 0.
fn books_with(vault0: u64, vault1: u64, supply: u64) -> Books
    ensures { result ≡ books_with vault0 vault1 supply }
{
    Books {
        vault0,
        vault1,
        supply,
        ..Books::default()
    }
}

// A refused opening gives its number with zeros.
#[tactic(auto, unfolding(crate::specs::Opening::refused_opening))]
pub fn refuse_opening(number: u64) -> OpeningAfter
    ensures { result ≡ refused_opening number }
{
    OpeningAfter {
        receipt: refusal_receipt(number),
        ..OpeningAfter::default()
    }
}

// What an accepted opening sets for good.
fn opened_terms(opening: Opening) -> Terms
    ensures { result ≡ opened_terms opening }
{
    Terms {
        rates: opening.rates,
        charges: opening.charges,
        fee_model: opening.model,
        open_time: opening.open_time,
        enabled: opening.enabled == 1,
    }
}

// An amount 0, 6; model 9; enabled not 0 or 1, the rates, points above 9,999, spacing or length out of range, 3; supply
// below 101, 13; else what the pool begins with.
fn open(opening: Opening) -> Result<OpeningAfter, Refusal>
    ensures { result ≡ opened opening }
{
    let amount0 = opening.amount0;
    let amount1 = opening.amount1;
    refuse_if(&[
        (amount0 == 0, Refusal::EMPTY_SUPPLY),
        (amount1 == 0, Refusal::EMPTY_SUPPLY),
        (opening.model > 2, Refusal::INVALID_FEE_MODEL),
        (opening.enabled > 1, Refusal::INVALID_INPUT),
    ])?;
    opening.rates.check()?;
    let points0 = opening.charges.token0.points > HIGHEST_POINTS;
    let points1 = opening.charges.token1.points > HIGHEST_POINTS;
    refuse_if(&[
        (points0, Refusal::INVALID_INPUT),
        (points1, Refusal::INVALID_INPUT),
    ])?;
    let grid = opening.grid;
    let spacing = out_of_range(1, LONGEST_SPACING, grid.spacing);
    let length = out_of_range(LEAST_LENGTH, OBSERVATION_NUM, grid.length);
    refuse_if(&[
        (spacing, Refusal::INVALID_INPUT),
        (length, Refusal::INVALID_INPUT),
    ])?;
    let supply = isqrt(widening_mul(amount0, amount1));
    if supply < LEAST_SUPPLY {
        return Err(Refusal::INIT_LP_AMOUNT_TOO_LESS);
    }
    let kind = Kind::Opening as u64;
    let charged = Charged::default();
    Ok(OpeningAfter {
        books: books_with(amount0, amount1, supply),
        terms: opened_terms(opening),
        grid,
        receipt: amounts_receipt(kind, amount0, amount1, 0, 0, supply, charged),
    })
}

// A refusal becomes zeros with its number.
#[tactic(auto, using(crate::proofs::Decision::accepted, crate::proofs::Decision::refused))]
pub fn decide(opening: Opening) -> OpeningAfter
    ensures { result ≡ opening_after opening }
{
    match open(opening) {
        Ok(after) => after,
        Err(refusal) => refuse_opening(refusal.number()),
    }
}
