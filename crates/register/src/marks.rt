// How a number that stands twice is found. Numbers that rise from entry to entry are seen to be apart at once. Else entries of one mark are linked,
// and a number is sought among those of its mark only.
ghost use Rattle.std.specs.Prelude.{◌≡◌, ◌+◌, ◌<◌, ◌≤◌, true, length, drop, slice_index_or};
ghost use Rattle.register.specs.Holders.{zero_holder, is_of, some, numbered as isNumbered};
ghost use Rattle.register.specs.Numbers.{holders_of};
ghost use Rattle.register.specs.Marks.{folded_of, mark_of, Linked};

use crate::MOST_HOLDERS;

// A number has one of so many marks.
const MARKS: usize = 1_024;

// A salt is from 1 to this.
const SALTS: u64 = 2_147_483_646;

// Its square is taken modulo this prime, so it is not 0.
const SQUARES: u64 = 2_147_483_647;

// What stirs a sum to a salt, so that sums near each other give salts far apart, and begins a mark, so that few salts are weak ones.
const STIR: u64 = 1_640_531_527;

// A number has two halves of 32 bits.
const HALF: u64 = 4_294_967_296;

// A prime above every half.
const PRIME: u64 = 4_294_967_311;

// The lowest 31 bits: a number of 33 bits times these has at most 64.
const LOWEST: u64 = 2_147_483_648;

// Of such a product the mark is in the middle, from here on.
const MIDDLE: u64 = 134_217_728;

// The sum of a number's halves.
fn folded(n: u64) -> u64
    ensures { result ≡ folded_of n }
{
    n / HALF + n % HALF
}

// Made of the sum of all balances: numbers that share a mark do not go on sharing it when that has changed.
fn salt_of(entries: &[[u64; 2]]) -> u64
    ensures { result < 2147483648 }
{
    let sum = entries
        .iter()
        .fold(0, |sum: u64, [_, balance]| sum.wrapping_add(*balance));
    folded(sum) * STIR % SALTS + 1
}

// The mark of a number: a constant, its lower half times the salt and its upper half times the salt's square, summed modulo the prime, multiplied
// twice by its own lowest bits, and folded between. So numbers that have something in common share marks as others do, but for a few salts.
#[tactic(auto, unfolding(crate::specs::Marks::mark_of))]
fn mark_of(number: u64, salt: u64) -> usize
    requires { salt < 2147483648 }
    ensures { (result ≡ mark_of salt number) × (result < 1024) }
{
    let square = salt * salt % SQUARES;
    let mixed = (STIR + number % HALF * salt + number / HALF * square) % PRIME;
    let again = folded(mixed * (mixed % LOWEST));
    (again * (again % LOWEST) / MIDDLE) as usize % MARKS
}

// Whether the number of an entry with a balance stands again behind it: by the links, which lead from each to the next of the same mark,
// so that no range counts them. Links and marks are arrays of places: nothing here allocates.
fn stands_behind(entries: &[[u64; 2]], links: &[u16; MOST_HOLDERS], at: usize) -> bool
    requires { Linked links.now (holders_of entries.now) at }
    ensures { result ≡ some (is_of (slice_index_or (holders_of entries.now) at zero_holder).number) (drop (at + 1) (holders_of entries.now)) }
{
    let [own, _] = entries[at];
    let mut i = links[at] as usize;
    while i < entries.len() {
        let [number, _] = entries[i];
        if number == own {
            return true;
        }
        i = links[i] as usize;
    }
    false
}

// No number 0 and no number twice among the entries with a balance: from the last entry back, each is linked to the next of its mark, and sought
// among these.
fn apart(entries: &[[u64; 2]]) -> bool
    requires { length entries.now ≤ 256 }
    ensures { result ≡ isNumbered (holders_of entries.now) }
{
    let salt = salt_of(entries);
    let none = entries.len() as u16;
    let mut nearest = [none; MARKS];
    let mut links = [none; MOST_HOLDERS];
    for i in (0..entries.len()).rev() {
        let [number, balance] = entries[i];
        if balance != 0 {
            if number == 0 {
                return false;
            }
            let mark = mark_of(number, salt);
            links[i] = nearest[mark];
            nearest[mark] = i as u16;
            if stands_behind(entries, &links, i) {
                return false;
            }
        }
    }
    true
}

// Whether the numbers of the entries with a balance rise from entry to entry, from 1 on and below the last u64: then none stands twice. It is
// asked from the last entry back.
fn rising(entries: &[[u64; 2]]) -> bool
    ensures { result ≡ true → isNumbered (holders_of entries.now) ≡ true }
{
    let mut next = u64::MAX;
    for i in (0..entries.len()).rev() {
        let [number, balance] = entries[i];
        if balance != 0 {
            if number >= next {
                return false;
            }
            next = number;
        }
    }
    next != 0
}

// No number 0 and no number twice among the entries with a balance. Numbers that rise are seen at once.
pub(crate) fn numbered(entries: &[[u64; 2]]) -> bool
    requires { length entries.now ≤ 256 }
    ensures { result ≡ isNumbered (holders_of entries.now) }
{
    rising(entries) || apart(entries)
}
