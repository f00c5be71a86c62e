// One piece of a day sheet's input (document 01, 'The day sheet'). That the lent record is one is asked of the private functions, past one test: the
// record is memory that C lends, and a type around it would be made at each of them.
ghost use Rattle.std.specs.Prelude.{◌≡◌, List, [], ◌++◌, ℕ, ◌+◌, ◌-◌, ◌≤◌, length, replicate, take, drop, position, ◌==◌};
ghost use Rattle.oracle.specs.Ring.{ring_words};
ghost use Rattle.rows.specs.Row.{newline, row_bytes, read_row};
ghost use Rattle.words.specs.Words.{pool_length};
ghost use Rattle.memory.specs.Steps.{IsRecord};
ghost use Rattle.sheet.specs.Sheet.{empty_sheet, perform};
ghost use Rattle.sheet.specs.Lent.{sheet_in};
ghost use Rattle.stream.specs.Pieces.{kept, holding};
ghost use Rattle.stream.specs.Pieces.{Fed as FedPiece};
ghost use Rattle.stream.specs.Lent.{fed_memory, fed_over, end_memory, ended_over};
ghost use Rattle.stream.specs.Stages.{line_length, Answered, Midway, Through};

use memory::record::check_record;
use oracle::RING_WORDS;
use rates::Rates;
use refusal::Refusal;
use rows::row::{LINE_BYTES, ROW_BYTES, Row, read_row, write_row_at};
use sheet::turn::{amounts_of, perform};
use words::{POOL_WORDS, RECEIPT_WORDS, holdings_of, receipt_of};

// Between two pieces: the rates for the next opening, and how many bytes are held of a row that is begun.
#[derive(Clone, Copy, Default)]
pub struct Going {
    pub rates: Rates,
    pub begun: usize,
}

// After a piece: how many of its bytes were taken, and how many bytes were written.
#[derive(Clone, Copy)]
pub struct Fed {
    pub going: Going,
    pub taken: usize,
    pub written: usize,
}

// After the end of the input: how many bytes were written.
#[derive(Clone, Copy)]
pub struct Ended {
    pub rates: Rates,
    pub written: usize,
}

// After the last whole row of a piece: a row is begun at `from`, and the piece is taken up to `end`.
#[derive(Clone, Copy)]
struct Rest {
    rates: Rates,
    from: usize,
    end: usize,
    written: usize,
}

// The empty sheet, with no row begun: record and ring are zeros.
#[tactic(auto, unfolding(sheet::specs::Sheet::empty_sheet, pool::specs::Calls::zero_pool, pool::specs::Calls::zero_entries))]
pub fn start() -> Going
    ensures { (sheet_in result.rates (replicate pool_length 0) (replicate ring_words 0) ≡ empty_sheet) × (result.begun ≡ 0) }
{
    Going::default()
}

// How many bytes can be passed over at once: those of a row where no newline is among so many, else none. `contains` takes many at a time.
fn pass_row(bytes: &[u8]) -> usize
    ensures { line_length bytes.now ≡ result + line_length (drop result bytes.now) }
{
    if bytes.len() < LINE_BYTES || bytes[..LINE_BYTES].contains(&b'\n') {
        return 0;
    }
    LINE_BYTES
}

fn first_newline(bytes: &[u8]) -> Option<usize>
    ensures { result ≡ position (λ byte. byte == newline) bytes.now }
{
    bytes.iter().position(|byte| *byte == b'\n')
}

// How many bytes stand before the first newline, or all where there is none.
#[tactic(auto, using(crate::proofs::Lines::line_within))]
fn line_length(bytes: &[u8]) -> usize
    ensures is { result ≡ line_length bytes.now }
    ensures within { result ≤ length bytes.now }
{
    let passed = pass_row(bytes);
    let rest = &bytes[passed..];
    passed + first_newline(rest).unwrap_or(rest.len())
}

// Puts bytes behind those that are begun, as far as they go. One by one: a copy of slices would ask whoever links the library for `memmove`.
fn append(held: &mut [u8], begun: usize, part: &[u8]) -> usize
    requires { (length held.old ≡ row_bytes) × (begun ≤ row_bytes) }
    ensures { (result ≡ length (kept (take begun held.old ++ part.now))) × (take result held.new ≡ kept (take begun held.old ++ part.now)) × (length held.new ≡ row_bytes) }
{
    let n = part.len().min(ROW_BYTES - begun);
    for i in 0..n {
        held[begun + i] = part[i];
    }
    begun + n
}

// A row that is begun, with more of its bytes: no more than a row's are kept.
fn carry(held: &mut [u8], begun: usize, part: &[u8]) -> usize
    requires { length held.old ≡ row_bytes }
    ensures long { result ≡ length (kept (take begun held.old ++ part.now)) }
    ensures all { held.new ≡ holding (kept (take begun held.old ++ part.now)) }
    ensures within { result ≤ row_bytes }
{
    let n = append(held, begun.min(ROW_BYTES), part);
    held[n..].fill(0);
    n
}

// Does what a row says, and writes its answer at a place of the output.
fn answer(
    rates: Rates,
    pool: &mut [u64; POOL_WORDS],
    ring: &mut [u64; RING_WORDS],
    row: &[u8],
    output: &mut [u8],
    at: usize,
) -> Rates
    requires { IsRecord pool.old }
    ensures { Answered (perform (sheet_in rates pool.old ring.old) (read_row row.now)) output.old at result pool.new ring.new output.new }
{
    let mut receipt = [0; RECEIPT_WORDS];
    let after = perform(rates, pool, ring, &mut receipt, read_row(row));
    let shown = receipt_of(receipt);
    let amounts = amounts_of(shown);
    let held = holdings_of(pool);
    let answer = Row {
        kind: shown.number,
        a: amounts.first,
        b: amounts.second,
        c: held.net0,
        d: held.net1,
        e: held.supply,
    };
    write_row_at(output, at, answer);
    after
}

// The whole rows of a piece from a place on, as long as there is room for their answers.
// A `while`: of what a loop over `chunks_exact_mut` left in the output nothing is known.
fn whole_rows(
    rates: Rates,
    pool: &mut [u64; POOL_WORDS],
    ring: &mut [u64; RING_WORDS],
    input: &[u8],
    from: usize,
    output: &mut [u8],
    at: usize,
) -> Rest
    requires { IsRecord pool.old × (from ≤ length input.now) × (at ≤ length output.old) }
    ensures through { (whole : FedPiece) (before : List ℕ) → Midway whole before input.now (sheet_in rates pool.old ring.old) [] from at output.old → Through whole before (sheet_in result.rates pool.new ring.new) (kept (take (result.end - result.from) (drop result.from input.now))) result.end result.written output.new }
    ensures from_le_end { (result.from ≤ result.end) × (result.end ≤ length input.now) × IsRecord pool.new }
{
    let mut rates = rates;
    let mut from = from;
    let mut written = at;
    while output.len() - written >= ROW_BYTES {
        let bytes = &input[from..];
        let n = line_length(bytes);
        if n == bytes.len() {
            return Rest {
                rates,
                from,
                end: input.len(),
                written,
            };
        }
        rates = answer(rates, pool, ring, &bytes[..n], output, written);
        from += n + 1;
        written += ROW_BYTES;
    }
    Rest {
        rates,
        from,
        end: from,
        written,
    }
}

// A piece of the input: what its rows do, as long as there is room for another answer, and the row that it has begun. A record that is no
// pool is refused.
pub fn feed(
    going: Going,
    pool: &mut [u64; POOL_WORDS],
    ring: &mut [u64; RING_WORDS],
    held: &mut [u8; ROW_BYTES],
    input: &[u8],
    output: &mut [u8],
) -> Result<Fed, Refusal>
    ensures { fed_memory result pool.new ring.new held.new output.new ≡ fed_over going.rates going.begun pool.old ring.old held.old input.now output.old }
{
    check_record(pool)?;
    let Going { rates, begun } = going;
    if output.len() < ROW_BYTES {
        let begun = carry(held, begun, &input[..0]);
        return Ok(Fed {
            going: Going { rates, begun },
            taken: 0,
            written: 0,
        });
    }
    let n = line_length(input);
    let begun = carry(held, begun, &input[..n]);
    if n == input.len() {
        return Ok(Fed {
            going: Going { rates, begun },
            taken: n,
            written: 0,
        });
    }
    let rates = answer(rates, pool, ring, &held[..begun], output, 0);
    let rest = whole_rows(rates, pool, ring, input, n + 1, output, ROW_BYTES);
    let begun = carry(held, 0, &input[rest.from..rest.end]);
    Ok(Fed {
        going: Going {
            rates: rest.rates,
            begun,
        },
        taken: rest.end,
        written: rest.written,
    })
}

// The end of the input: a row that is begun is the last row. A record that is no pool is refused.
pub fn finish(
    going: Going,
    pool: &mut [u64; POOL_WORDS],
    ring: &mut [u64; RING_WORDS],
    held: &[u8; ROW_BYTES],
    output: &mut [u8; ROW_BYTES],
) -> Result<Ended, Refusal>
    ensures { end_memory result pool.new ring.new output.new ≡ ended_over going.rates going.begun pool.old ring.old held.now output.old }
{
    check_record(pool)?;
    let begun = going.begun.min(ROW_BYTES);
    if begun == 0 {
        return Ok(Ended {
            rates: going.rates,
            written: 0,
        });
    }
    let rates = answer(going.rates, pool, ring, &held[..begun], output, 0);
    Ok(Ended {
        rates,
        written: ROW_BYTES,
    })
}
