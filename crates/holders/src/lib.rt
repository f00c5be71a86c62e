// The register as a lent list of holder entries (document 01, 'Language forms by place'): a slice of small structs, with thin credit and debit
// functions over the core, which is crate `seats` over `register`.
#![tactic(auto)]

ghost use Rattle.std.specs.Prelude.{◌≡◌};
ghost use Rattle.refusal.specs.Tests.{tested};
ghost use Rattle.register.specs.Changes.{with_opener};
ghost use Rattle.register.specs.Numbers.{entries_of};
ghost use Rattle.seats.specs.Stages.{seat_of};
ghost use Rattle.holders.specs.Lent.{credit_answers, credit_leaves, debit_answers, debit_leaves};
ghost use Rattle.holders.specs.Stages.{readable, answers, leaves};

use refusal::Refusal;
use register::{Holder, MOST_HOLDERS};
use seats::{Seat, seat_of};

// The list as the core takes it, two numbers an entry, in a memory that is lent. Of a list of over 256 entries none is read: it answers 3 as an
// empty one does.
fn read<'a>(holders: &[Holder], pairs: &'a mut [[u64; 2]; MOST_HOLDERS]) -> &'a [u64]
    ensures { entries_of result.now ≡ readable holders.now }
{
    let entries = if holders.len() > MOST_HOLDERS {
        &[]
    } else {
        holders
    };
    for (i, entry) in entries.iter().enumerate() {
        pairs[i] = [entry.number, entry.balance];
    }
    pairs[..entries.len()].as_flattened()
}

// What the list holds for a holder.
fn seat_in(holders: &[Holder], holder: u64) -> Result<Seat, Refusal>
    ensures { result ≡ seat_of holder holders.now }
{
    // Of a fixed size, as nothing is allocated.
    let mut pairs = [[0; 2]; MOST_HOLDERS];
    seat_of(read(holders, &mut pairs), holder)
}

// Changes the holder's entry; a refusal leaves the list. Which of the two it does is a flag, as a call with a register brings one to `Seat::change`.
fn change(holders: &mut [Holder], is_credit: bool, holder: u64, amount: u64) -> Result<(), Refusal>
    ensures { (result ≡ tested (answers is_credit holder amount holders.old))
        × (holders.new ≡ leaves is_credit holder amount holders.old) }
{
    let change = seat_in(holders, holder)?.change(is_credit, amount)?;
    holders[change.place] = change.entry;
    Ok(())
}

// Credits the holder's entry.
pub fn credit(holders: &mut [Holder], holder: u64, amount: u64) -> Result<(), Refusal>
    ensures { (result ≡ tested (credit_answers holder amount holders.old))
        × (holders.new ≡ credit_leaves holder amount holders.old) }
{
    change(holders, true, holder, amount)
}

// Debits the holder's entry.
pub fn debit(holders: &mut [Holder], holder: u64, amount: u64) -> Result<(), Refusal>
    ensures { (result ≡ tested (debit_answers holder amount holders.old))
        × (holders.new ≡ debit_leaves holder amount holders.old) }
{
    change(holders, false, holder, amount)
}

// An opening's list: the opener first, and zeros.
pub fn enter_opener(holders: &mut [Holder], opener: Holder)
    ensures { holders.new ≡ with_opener opener holders.old }
{
    holders.fill(Holder {
        number: 0,
        balance: 0,
    });
    if !holders.is_empty() {
        holders[0] = opener;
    }
}
