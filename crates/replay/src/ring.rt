// The ring's entries, of which a row gives the newest, and the ring alone.
ghost use Rattle.std.specs.Prelude.{◌<◌, ◌≤◌};

use crate::row::{ROW_NUMBERS, nth};
use oracle::{Grid, RING_WORDS, Ring};
use words::stand_at;

// Entries with 10,000 + w at each place w.
pub(crate) fn filled() -> [u64; RING_WORDS] {
    let mut out = [0; RING_WORDS];
    for (w, number) in out.iter_mut().enumerate() {
        *number = 10000 + w as u64;
    }
    out
}

// Whether the ring's entries are these.
pub(crate) fn same_ring(entries: &[u64; RING_WORDS], expected: [u64; RING_WORDS]) -> bool {
    stand_at(entries, &expected, 0)
}

// The entries with five numbers of a row as the entry at an index that the row gives, if there is such an index.
fn with_entry(
    entries: [u64; RING_WORDS],
    row: &[u64; ROW_NUMBERS],
    index_at: usize,
    at: usize,
) -> [u64; RING_WORDS]
    requires { (index_at < 88) × (at ≤ 83) }
{
    let mut out = entries;
    let index = nth(row, index_at);
    if index < 100 {
        let first = index as usize * 5;
        out[first..first + 5].copy_from_slice(&row[at..at + 5]);
    }
    out
}

// The ring before a call: its index and its newest entry are in the row.
pub(crate) fn ring_at(row: &[u64; ROW_NUMBERS], index_at: usize, at: usize) -> [u64; RING_WORDS]
    requires { (index_at < 88) × (at ≤ 83) }
{
    with_entry(filled(), row, index_at, at)
}

// Whether the ring after a call is the one before it with the entry that the row gives.
pub(crate) fn ring_agrees(
    entries: &[u64; RING_WORDS],
    before: [u64; RING_WORDS],
    row: &[u64; ROW_NUMBERS],
    index_at: usize,
    at: usize,
) -> bool
    requires { (index_at < 88) × (at ≤ 83) }
{
    same_ring(entries, with_entry(before, row, index_at, at))
}

// What `Ring::update` gives: number, used, index, mark, spacing, length. Where it refuses, the head is as it was.
fn head_agrees(number: u64, ring: Ring, row: &[u64; ROW_NUMBERS]) -> bool {
    let grid = ring.grid;
    let found = [
        number,
        u64::from(ring.used),
        ring.index,
        ring.mark,
        grid.spacing,
        grid.length,
    ];
    stand_at(&found, row, 15)
}

// `Ring::update`: used, index, mark, spacing, length, entry, clock, nets.
pub(crate) fn update(row: &[u64; ROW_NUMBERS]) -> bool {
    let ring = Ring {
        index: nth(row, 3),
        mark: nth(row, 4),
        used: nth(row, 2) == 1,
        grid: Grid {
            spacing: nth(row, 5),
            length: nth(row, 6),
        },
    };
    let before = ring_at(row, 3, 7);
    let mut entries = before;
    let agrees = match ring.update(&mut entries, nth(row, 12), nth(row, 13), nth(row, 14)) {
        Ok(next) => head_agrees(0, next, row),
        Err(refusal) => head_agrees(refusal.number(), ring, row),
    };
    agrees & ring_agrees(&entries, before, row, 17, 21)
}
