// The numbers of a row. Each function says which places it reads: a type for a place would be made from a literal at each of them.
ghost use Rattle.std.specs.Prelude.{◌<◌, ◌≤◌};

use opening::Opening;
use pool::state::Pool;
use words::{OPENING_WORDS, POOL_WORDS, opening_of, pool_of, stand_at};

// How many numbers the longest row has: that of a call, with four arguments, a pool, an entry, a receipt, a pool and an entry; a register
// stands in the place of the entry.
pub(crate) const ROW_NUMBERS: usize = 88;

// One number of a row.
pub(crate) fn nth(row: &[u64; ROW_NUMBERS], i: usize) -> u64
    requires { i < 88 }
{
    row[i]
}

// Whether five numbers stand in a row from a place on. Behind its last number a row has zeros.
pub(crate) fn same(row: &[u64; ROW_NUMBERS], at: usize, found: [u64; 5]) -> bool
    requires { at ≤ 83 }
{
    stand_at(&found, row, at)
}

// A pool's 27 numbers from a place on, in the order of `words`.
pub(crate) fn record_at(row: &[u64; ROW_NUMBERS], at: usize) -> [u64; POOL_WORDS]
    requires { at ≤ 61 }
{
    let mut numbers = [0; POOL_WORDS];
    numbers.copy_from_slice(&row[at..at + POOL_WORDS]);
    numbers
}

// The pool of such numbers.
pub(crate) fn pool_at(row: &[u64; ROW_NUMBERS], at: usize) -> Pool
    requires { at ≤ 61 }
{
    pool_of(record_at(row, at))
}

// An opening's arguments, with which its row begins.
pub(crate) fn opening_in(row: &[u64; ROW_NUMBERS]) -> Opening {
    let mut numbers = [0; OPENING_WORDS];
    numbers.copy_from_slice(&row[2..2 + OPENING_WORDS]);
    opening_of(numbers)
}
