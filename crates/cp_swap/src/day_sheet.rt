// A day sheet over plain memory, piece by piece (document 01, 'The day sheet').
// The caller lends the pool's record, the ring's entries, the numbers of the sheet (the rates for the next opening, and how many bytes
// are held of a row that is begun) and those bytes; all zeros to begin with. The progress: bytes taken, bytes written.
ghost use Rattle.std.specs.Prelude.{◌≡◌};
ghost use Rattle.words.specs.Words.{at, rates_of};
ghost use Rattle.cp_swap.specs.DaySheet.{begun_at, sheet_words, sheet_memory, fed_on, ended_on};

use oracle::RING_WORDS;
use rates::Rates;
use refusal::ACCEPTED;
use rows::row::ROW_BYTES;
use stream::feed::{Going, feed, finish};
use words::{POOL_WORDS, rates_of};

// How many numbers a sheet has: the five rates and how many bytes are held.
pub const SHEET_WORDS: usize = 6;

// The rates and the bytes held that the caller's memory says. Functions of this crate read and write it, as `words` does for the pool: `From` would have
// to stand with `Going`.
fn going_of(sheet: [u64; SHEET_WORDS]) -> Going
    ensures { result ≡ record { rates = rates_of sheet; begun = at sheet begun_at } }
{
    let [trade, protocol, fund, creator, share, begun] = sheet;
    Going {
        rates: rates_of([trade, protocol, fund, creator, share]),
        begun: begun as usize,
    }
}

fn sheet_words(rates: Rates, begun: usize) -> [u64; SHEET_WORDS]
    ensures { result ≡ sheet_words rates begun }
{
    [
        rates.trade,
        rates.protocol,
        rates.fund,
        rates.creator,
        rates.share,
        begun as u64,
    ]
}

// A piece of the input, whatever its length: the answers of the rows that it ends, as long as there is room for another.
pub fn cp_swap_day_sheet(
    pool: &mut [u64; POOL_WORDS],
    ring: &mut [u64; RING_WORDS],
    sheet: &mut [u64; SHEET_WORDS],
    held: &mut [u8; ROW_BYTES],
    input: &[u8],
    output: &mut [u8],
    progress: &mut [u64; 2],
) -> u64
    ensures { sheet_memory result pool.new ring.new sheet.new held.new output.new progress.new ≡ fed_on pool.old ring.old sheet.old held.old input.now output.old progress.old }
{
    match feed(going_of(*sheet), pool, ring, held, input, output) {
        Ok(fed) => {
            *sheet = sheet_words(fed.going.rates, fed.going.begun);
            *progress = [fed.taken as u64, fed.written as u64];
            ACCEPTED
        }
        Err(refusal) => refusal.number(),
    }
}

// The end of the input: the last row, where one is begun.
pub fn cp_swap_day_sheet_end(
    pool: &mut [u64; POOL_WORDS],
    ring: &mut [u64; RING_WORDS],
    sheet: &mut [u64; SHEET_WORDS],
    held: &[u8; ROW_BYTES],
    output: &mut [u8; ROW_BYTES],
    progress: &mut [u64; 2],
) -> u64
    ensures { sheet_memory result pool.new ring.new sheet.new held.now output.new progress.new ≡ ended_on pool.old ring.old sheet.old held.now output.old progress.old }
{
    match finish(going_of(*sheet), pool, ring, held, output) {
        Ok(ended) => {
            *sheet = sheet_words(ended.rates, 0);
            *progress = [0, ended.written as u64];
            ACCEPTED
        }
        Err(refusal) => refusal.number(),
    }
}
