// The register of holders (document 02 (g)): the list as plain numbers, two an entry, its number and its balance; what a call with it tests
// first.
#![tactic(auto)]

mod marks;

ghost use Rattle.std.specs.Prelude.{◌≡◌, ◌+◌, ◌≤◌, length, slice_index_or};
ghost use Rattle.refusal.specs.Tests.{tested};
ghost use Rattle.register.specs.Holders.{zero_holder};
ghost use Rattle.register.specs.Changes.{register_tests};
ghost use Rattle.register.specs.Numbers.{entries_of, holders_of};

use marks::numbered;
use refusal::{Refusal, refuse_if};

// A register has at most so many entries.
pub const MOST_HOLDERS: usize = 256;

// An entry: a holder's number, from 1, and his LP balance. One of balance 0 is free for anyone.
#[repr(C)]
#[derive(Clone, Copy)]
pub struct Holder {
    pub number: u64,
    pub balance: u64,
}

// The entries that the numbers are, two numbers each. An odd count of numbers is no list of entries.
pub fn entries(numbers: &[u64]) -> &[[u64; 2]]
    ensures { holders_of result.now ≡ entries_of numbers.now }
{
    let (entries, odd) = numbers.as_chunks();
    if odd.is_empty() { entries } else { &[] }
}

// How many entries the numbers are.
#[tactic(auto, using(crate::proofs::Pairs::pairs_counted, crate::proofs::Pairs::pairs_within))]
pub fn count_of(numbers: &[u64]) -> usize
    ensures { (result ≡ length (entries_of numbers.now)) × (result + result ≤ length numbers.now) }
{
    entries(numbers).len()
}

// The entry of a place; zeros where the list has none.
pub fn entry_at(numbers: &[u64], at: usize) -> Holder
    ensures { result ≡ slice_index_or (entries_of numbers.now) at zero_holder }
{
    match entries(numbers).get(at) {
        Some(&[number, balance]) => Holder { number, balance },
        None => Holder {
            number: 0,
            balance: 0,
        },
    }
}

// No or over 256 entries, a number 0 or twice among those with a balance, a holder 0: 3.
#[tactic(auto, unfolding(crate::specs::Changes::register_tests, refusal::specs::Tests::tested))]
pub fn check_register(numbers: &[u64], holder: u64) -> Result<(), Refusal>
    ensures { result ≡ tested (register_tests holder (entries_of numbers.now)) }
{
    let entries = entries(numbers);
    refuse_if(&[
        (entries.is_empty(), Refusal::INVALID_INPUT),
        (entries.len() > MOST_HOLDERS, Refusal::INVALID_INPUT),
    ])?;
    // Only the numbers of a list that is not too long are looked through.
    refuse_if(&[
        (!numbered(entries), Refusal::INVALID_INPUT),
        (holder == 0, Refusal::INVALID_INPUT),
    ])
}
