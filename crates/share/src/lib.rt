// Parts of an amount at a rate, as rate / whole of it (floor_div and ceil_div of the original's curve/fees.rs). The whole has at most 33 bits, so u64 is wide enough throughout.
#![tactic(auto)]

ghost use Rattle.std.specs.Prelude.{◌&&◌, ◌≡◌, ◌+◌, ◌*◌, ◌/◌, ◌^◌, ◌≤◌, ◌<◌, ltb, leb};
ghost use Rattle.divide.specs.Division.{ceil_div};
ghost use Rattle.math.specs.Ratio.{ceil_of};

use math::ratio::NoQuotient;

// Whether amount and whole are so small that their product has 64 bits, with room for rounding up. Most are, and then one division is
// enough.
fn is_short(amount: u64, whole: u64) -> bool
    ensures { result ≡ ltb amount (2 ^ 44) && leb whole (2 ^ 20) }
{
    amount < 0x1000_0000_0000 && whole <= 0x10_0000
}

// What is asked of rate and whole stands at each function below: a struct of the two would be made for one call each, and is no plainer.

// (amount * rate + more) / whole: rounded down where no more is added, and up where one less than the whole is.
// Inlined, so that the 0 of the one and the branch of the other are known.
#[inline(always)]
#[tactic(auto, using(crate::proofs::Shares::shared_is, crate::proofs::Shares::shared_fits))]
fn share(amount: u64, rate: u64, whole: u64, more: u64) -> u64
    requires { (rate ≤ whole) × (more < whole) × (whole ≤ 2 ^ 32) }
    ensures { result ≡ (amount * rate + more) / whole }
{
    if is_short(amount, whole) {
        return (amount * rate + more) / whole;
    }
    amount / whole * rate + (amount % whole * rate + more) / whole
}

// amount * rate / whole, rounded down: protocol, fund and shared part.
pub fn share_floor(amount: u64, rate: u64, whole: u64) -> u64
    requires { (rate ≤ whole) × (0 < whole) × (whole ≤ 2 ^ 32) }
    ensures { result ≡ amount * rate / whole }
{
    share(amount, rate, whole, 0)
}

// amount * rate / whole, rounded up: trading and creator fee.
pub fn share_ceil(amount: u64, rate: u64, whole: u64) -> u64
    requires { (rate ≤ whole) × (0 < whole) × (whole ≤ 2 ^ 32) }
    ensures { result ≡ ceil_div (amount * rate) whole }
{
    share(amount, rate, whole, whole - 1)
}

// amount * whole / part, rounded up: the amount before fees, of which the part stays after them.
#[tactic(auto, unfolding(math::specs::Ratio::ceil_of, math::specs::Ratio::fit))]
pub fn scale_ceil(amount: u64, whole: u64, part: u64) -> Result<u64, NoQuotient>
    requires { (0 < part) × (part ≤ whole) × (whole ≤ 2 ^ 32) }
    ensures { result ≡ ceil_of (amount * whole) part }
{
    if is_short(amount, whole) {
        return Ok((amount * whole + (part - 1)) / part);
    }
    let rest = (amount % part * whole + (part - 1)) / part;
    let scaled = (amount / part).checked_mul(whole).ok_or(NoQuotient::Past)?;
    scaled.checked_add(rest).ok_or(NoQuotient::Past)
}
