// A status change on the status alone: what it leaves of the status, and its receipt.
#![tactic(auto)]

ghost use Rattle.std.specs.Prelude.{◌≡◌, ◌≤◌};
ghost use Rattle.status.specs.Status.{flagged, status_after};
ghost use Rattle.status.specs.Stages.{changed_status};

use charge::Charged;
use receipt::{Kind, Receipt, amounts_receipt, refusal_receipt};
use refusal::{Refusal, refuse_if};

// The status after a change, and the receipt, also of a refused one (document 01; `After` of pool).
#[derive(Clone, Copy)]
pub struct StatusAfter {
    pub status: u64,
    pub receipt: Receipt,
}

// The status with one bit cleared (flag 0) or set (flag 1); the other bits stay. No branch on the bit.
#[tactic(auto, using(crate::proofs::Places::set_fits, crate::proofs::Places::set_is), unfolding(crate::specs::Status::flagged))]
fn with_bit(status: u64, bit: u64, flag: u64) -> u64
    requires { (bit ≤ 2) × (flag ≤ 1) }
    ensures { result ≡ flagged bit flag status }
{
    let place = 1 << bit;
    status - (status >> bit) % 2 * place + flag * place
}

// Bit above 2 or flag above 1, 3; else the status with the bit as the flag says.
#[tactic(auto, unfolding(crate::specs::Status::status_tests, refusal::specs::Tests::outcome, refusal::specs::Tests::tested))]
fn changed(status: u64, bit: u64, flag: u64) -> Result<u64, Refusal>
    ensures { result ≡ changed_status status bit flag }
{
    refuse_if(&[
        (bit > 2, Refusal::INVALID_INPUT),
        (flag > 1, Refusal::INVALID_INPUT),
    ])?;
    Ok(with_bit(status, bit, flag))
}

// Bit above 2 or flag above 1, 3, with the status as it was; flag 0 clears, 1 sets.
#[tactic(auto, unfolding(crate::specs::Status::status_tests, crate::specs::Status::status_after, refusal::specs::Tests::outcome))]
pub fn decide(status: u64, bit: u64, flag: u64) -> StatusAfter
    ensures { result ≡ status_after status bit flag }
{
    match changed(status, bit, flag) {
        Err(refusal) => StatusAfter {
            status,
            receipt: refusal_receipt(refusal.number()),
        },
        Ok(status) => StatusAfter {
            status,
            receipt: amounts_receipt(Kind::SetStatus as u64, 0, 0, 0, 0, 0, Charged::default()),
        },
    }
}
