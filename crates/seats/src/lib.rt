// A holder's seat in a register (document 02 (g)): his balance and the place of his entry, or of the first free one; and what a credit and a debit
// change.
#![tactic(auto)]

ghost use Rattle.std.specs.Prelude.{◌≡◌};
ghost use Rattle.std.specs.List.{position};
ghost use Rattle.register.specs.Numbers.{entries_of, holders_of};
ghost use Rattle.seats.specs.Stages.{pair_of, free_pair, seat_in, seat_of, credit_of, debit_of, change_of};

use refusal::{Refusal, refuse_if};
use register::{Holder, check_register, entries};

// What a list holds for a holder: his balance, with the place of his entry. Where he has none, the place is that of the first free one; in a full
// list it is the one past the last, as an error.
#[derive(Clone, Copy)]
pub struct Seat {
    pub holder: u64,
    pub balance: u64,
    pub place: Result<usize, usize>,
}

// The one entry that changes: its place, and what then stands there.
#[derive(Clone, Copy)]
pub struct Change {
    pub place: usize,
    pub entry: Holder,
}

// The first entry with a balance of this number.
fn own_place(entries: &[[u64; 2]], holder: u64) -> Option<usize>
    ensures { result ≡ position (pair_of holder) entries.now }
{
    entries
        .iter()
        .position(|&[number, balance]| number == holder && balance != 0)
}

// The first entry of balance 0.
fn free_place(entries: &[[u64; 2]]) -> Option<usize>
    ensures { result ≡ position free_pair entries.now }
{
    entries.iter().position(|&[_, balance]| balance == 0)
}

// What a register holds for a holder.
fn seat_in(entries: &[[u64; 2]], holder: u64) -> Seat
    ensures { result ≡ seat_in holder (holders_of entries.now) }
{
    match own_place(entries, holder) {
        Some(place) => {
            let [_, balance] = entries[place];
            Seat {
                holder,
                balance,
                place: Ok(place),
            }
        }
        None => Seat {
            holder,
            balance: 0,
            place: free_place(entries).ok_or(entries.len()),
        },
    }
}

// A list that is no register, or a holder 0, 3; or the holder's seat.
#[tactic(auto, unfolding(crate::specs::Stages::seat_of, register::specs::Changes::register_tests, refusal::specs::Tests::outcome, refusal::specs::Tests::tested))]
pub fn seat_of(numbers: &[u64], holder: u64) -> Result<Seat, Refusal>
    ensures { result ≡ seat_of holder (entries_of numbers.now) }
{
    check_register(numbers, holder)?;
    Ok(seat_in(entries(numbers), holder))
}

impl Seat {
    // Past u64, 8; a new holder and no entry for him, 16; or the entry that changes.
    #[tactic(auto, unfolding(crate::specs::Stages::credit_of, refusal::specs::Tests::outcome))]
    pub fn credit(self, amount: u64) -> Result<Change, Refusal>
        ensures { result ≡ credit_of amount self }
    {
        let balance = self
            .balance
            .checked_add(amount)
            .ok_or(Refusal::MATH_OVERFLOW)?;
        let place = self.place.or(Err(Refusal::REGISTER_FULL))?;
        Ok(Change {
            place,
            entry: Holder {
                number: self.holder,
                balance,
            },
        })
    }

    // An amount of 0, or more than the balance, 10; or the entry that changes, in a full list too.
    #[tactic(auto, unfolding(crate::specs::Stages::debit_of, refusal::specs::Tests::outcome))]
    pub fn debit(self, amount: u64) -> Result<Change, Refusal>
        ensures { result ≡ debit_of amount self }
    {
        refuse_if(&[
            (amount == 0, Refusal::REQUIRE_VIOLATED),
            (amount > self.balance, Refusal::REQUIRE_VIOLATED),
        ])?;
        let (Ok(place) | Err(place)) = self.place;
        Ok(Change {
            place,
            entry: Holder {
                number: self.holder,
                balance: self.balance - amount,
            },
        })
    }

    // A deposit credits, a withdrawal debits: a flag, as the definition `change_of` takes it.
    pub fn change(self, is_deposit: bool, amount: u64) -> Result<Change, Refusal>
        ensures { result ≡ change_of is_deposit amount self }
    {
        if is_deposit {
            self.credit(amount)
        } else {
            self.debit(amount)
        }
    }
}
