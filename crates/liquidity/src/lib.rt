// Deposits and withdrawals, decided over the tokens' charges, the status and the books: an LP amount's worth in both tokens is paid in, or paid
// out.
#![tactic(auto)]

ghost use Rattle.std.specs.Prelude.{◌≡◌, ◌≤◌, min};
ghost use Rattle.refusal.specs.Tests.{tested};
ghost use Rattle.liquidity.specs.Liquidity.{change_after};
ghost use Rattle.liquidity.specs.Stages.{front_tests, booked_deposit, deposit_rest, withdraw_rest, changed};

use accounting::{Books, LOCK_LP_AMOUNT};
use charge::{Charged, Charges};
use curve::constant_product::{LpTokens, TradingTokens};
use receipt::{BooksAfter, Kind, amounts_receipt, refuse_books};
use refusal::{Refusal, refuse_if};
use worth::worth_of;

// An amount of each token, of whichever kind: what reaches a vault, leaves it, or is a limit.
#[derive(Clone, Copy)]
struct Pair {
    token0: TradingTokens,
    token1: TradingTokens,
}

// Deposit: bit 0 set, 1; lp 0, 10. Withdrawal: bit 1, 1; lp 0 or above the owner's, 10.
#[tactic(auto, unfolding(refusal::specs::Tests::tested))]
fn check_front(is_deposit: bool, status: u64, lp: LpTokens, owned: LpTokens) -> Result<(), Refusal>
    ensures { result ≡ tested (front_tests is_deposit status lp.0 owned.0) }
{
    if is_deposit {
        return refuse_if(&[
            (status / 1 % 2 == 1, Refusal::NOT_APPROVED),
            (lp.0 == 0, Refusal::REQUIRE_VIOLATED),
        ]);
    }
    refuse_if(&[
        (status / 2 % 2 == 1, Refusal::NOT_APPROVED),
        (lp.0 == 0, Refusal::REQUIRE_VIOLATED),
        (lp.0 > owned.0, Refusal::REQUIRE_VIOLATED),
    ])
}

// The limits are kept. Vault 8; supply past u64, 11; else the booking.
#[tactic(auto, unfolding(refusal::specs::Tests::outcome))]
fn book_deposit(
    books: Books,
    lp: LpTokens,
    amounts: Pair,
    charged: Charged,
) -> Result<BooksAfter, Refusal>
    ensures { result ≡ booked_deposit amounts.token0.0 amounts.token1.0 charged books lp.0 }
{
    let Pair { token0, token1 } = amounts;
    let vault0 = books
        .vault0
        .checked_add(token0.0)
        .ok_or(Refusal::MATH_OVERFLOW)?;
    let vault1 = books
        .vault1
        .checked_add(token1.0)
        .ok_or(Refusal::MATH_OVERFLOW)?;
    let supply = books.supply.checked_add(lp.0).ok_or(Refusal::PANIC)?;
    let kind = Kind::Deposit as u64;
    Ok(BooksAfter {
        books: Books {
            vault0,
            vault1,
            fees: books.fees,
            supply,
        },
        receipt: amounts_receipt(kind, token0.0, token1.0, 0, 0, lp.0, charged),
    })
}

// The amounts that are to reach the vaults are known. No u64 can be sent that leaves one, 14; what is sent above a maximum, 2; then the booking.
#[tactic(auto, using(crate::proofs::Bookings::sent_for), unfolding(refusal::specs::Tests::outcome))]
fn deposit(
    charges: Charges,
    books: Books,
    lp: LpTokens,
    amounts: Pair,
    maximums: Pair,
) -> Result<BooksAfter, Refusal>
    ensures { result ≡ deposit_rest amounts.token0.0 amounts.token1.0 charges books lp.0 maximums.token0.0 maximums.token1.0 }
{
    let sent = charges.transfer_both(false, amounts.token0.0, amounts.token1.0)?;
    refuse_if(&[
        (sent.amount0 > maximums.token0.0, Refusal::EXCEEDED_SLIPPAGE),
        (sent.amount1 > maximums.token1.0, Refusal::EXCEEDED_SLIPPAGE),
    ])?;
    book_deposit(books, lp, amounts, sent.charged)
}

// Amounts are capped at the nets.
fn capped(net: TradingTokens, amount: TradingTokens) -> TradingTokens
    ensures { result.0 ≡ min net.0 amount.0 }
{
    TradingTokens(net.0.min(amount.0))
}

// The amounts that leave the vaults are known, capped at the nets. What is received below a minimum, 2; lp above supply, 11; fewer than 100 LP
// are left, 15; else the booking.
#[tactic(auto, using(charge::proofs::FarEnds::all_forward), unfolding(refusal::specs::Tests::outcome))]
fn withdraw(
    charges: Charges,
    books: Books,
    lp: LpTokens,
    paid: Pair,
    minimums: Pair,
) -> Result<BooksAfter, Refusal>
    requires { (paid.token0.0 ≤ books.vault0) × (paid.token1.0 ≤ books.vault1) }
    ensures { result ≡ withdraw_rest paid.token0.0 paid.token1.0 charges books lp.0 minimums.token0.0 minimums.token1.0 }
{
    let Pair { token0, token1 } = paid;
    let received = charges.transfer_both(true, token0.0, token1.0)?;
    refuse_if(&[
        (
            received.amount0 < minimums.token0.0,
            Refusal::EXCEEDED_SLIPPAGE,
        ),
        (
            received.amount1 < minimums.token1.0,
            Refusal::EXCEEDED_SLIPPAGE,
        ),
    ])?;
    let supply = books.supply.checked_sub(lp.0).ok_or(Refusal::PANIC)?;
    if supply < LOCK_LP_AMOUNT {
        return Err(Refusal::LEFT_LP_AMOUNT_TOO_LESS);
    }
    let kind = Kind::Withdraw as u64;
    Ok(BooksAfter {
        books: Books {
            vault0: books.vault0 - token0.0,
            vault1: books.vault1 - token1.0,
            fees: books.fees,
            supply,
        },
        receipt: amounts_receipt(kind, 0, 0, token0.0, token1.0, lp.0, received.charged),
    })
}

// The tests before the worth, the worth, and the one booking or the other.
#[tactic(auto, using(crate::proofs::Decision::front_refuses, crate::proofs::Decision::worth_refuses, crate::proofs::Decision::past_deposit, crate::proofs::Decision::past_withdrawal, crate::proofs::Decision::nets_within))]
fn change(
    is_deposit: bool,
    charges: Charges,
    status: u64,
    books: Books,
    lp: LpTokens,
    owned: LpTokens,
    limits: Pair,
) -> Result<BooksAfter, Refusal>
    ensures { result ≡ changed is_deposit charges status books lp.0 owned.0 limits.token0.0 limits.token1.0 }
{
    check_front(is_deposit, status, lp, owned)?;
    let worth = worth_of(is_deposit, books, lp)?;
    if is_deposit {
        let amounts = Pair {
            token0: worth.amount0,
            token1: worth.amount1,
        };
        return deposit(charges, books, lp, amounts, limits);
    }
    let paid = Pair {
        token0: capped(worth.net0, worth.amount0),
        token1: capped(worth.net1, worth.amount1),
    };
    withdraw(charges, books, lp, paid, limits)
}

// A deposit with two maximums, or a withdrawal with the owner's LP and two minimums, by a flag of the definition `change_after`. A refusal leaves the
// books as they were.
#[tactic(auto, using(crate::proofs::Decision::accepted, crate::proofs::Decision::refused))]
pub fn decide(
    is_deposit: bool,
    charges: Charges,
    status: u64,
    books: Books,
    lp: LpTokens,
    owned: LpTokens,
    limit0: TradingTokens,
    limit1: TradingTokens,
) -> BooksAfter
    ensures { result ≡ change_after is_deposit charges status books lp.0 owned.0 limit0.0 limit1.0 }
{
    let limits = Pair {
        token0: limit0,
        token1: limit1,
    };
    match change(is_deposit, charges, status, books, lp, owned, limits) {
        Ok(after) => after,
        Err(refusal) => refuse_books(books, refusal.number()),
    }
}
