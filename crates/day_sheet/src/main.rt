// The day sheet: rows from standard input, their answers to standard output, in constant memory.
#![tactic(auto)]

ghost use Rattle.std.specs.Prelude.{Ok, ◌≡◌, ◌*◌, ◌≤◌, length, take};
ghost use Rattle.rows.specs.Row.{row_bytes};
ghost use Rattle.memory.specs.Steps.{IsRecord};
ghost use Rattle.sheet.specs.Lent.{sheet_in};
ghost use Rattle.stream.specs.Pieces.{feed, left_by};
ghost use Rattle.stream.specs.Lent.{fed_memory, left_words};

use oracle::RING_WORDS;
use rows::row::ROW_BYTES;
use std::io;
use std::io::Read;
use stream::feed::{Fed, Going, feed, finish, start};
use words::POOL_WORDS;

// So many bytes are read at a time.
const BLOCK_BYTES: usize = 8192;

// Room for an answer to each of them, since each may end a row.
const ANSWER_BYTES: usize = BLOCK_BYTES * ROW_BYTES;

// What failed, on standard error; that this may fail too changes nothing.
fn fail(rt: &impl Eprint, what: &str, error: io::Error) {
    let _ = eprintln!(rt; "{what}: {error}");
}

fn write_rows(rt: &(impl Print + Eprint), rows: &[u8]) -> bool {
    match rt.write_all(rows) {
        Ok(()) => true,
        Err(error) => {
            fail(rt, "standard output", error);
            false
        }
    }
}

// Answers all rows that a block ends: there is room for an answer to each of its bytes.
fn answer_block(
    going: Going,
    pool: &mut [u64; POOL_WORDS],
    ring: &mut [u64; RING_WORDS],
    held: &mut [u8; ROW_BYTES],
    block: &[u8],
    output: &mut [u8; ANSWER_BYTES],
) -> Fed
    requires { IsRecord pool.old × (length block.now ≤ 8192) }
    ensures { fed_memory (Ok result) pool.new ring.new held.new output.new ≡ left_words (left_by output.old (feed (row_bytes * length block.now) (sheet_in going.rates pool.old ring.old) (take going.begun held.old) block.now)) }
{
    let Ok(fed) = feed(going, pool, ring, held, block, output) else {
        unreachable!()
    };
    fed
}

// The last row, where bytes follow the last newline.
fn answer_last(
    rt: &(impl Print + Eprint),
    going: Going,
    pool: &mut [u64; POOL_WORDS],
    ring: &mut [u64; RING_WORDS],
    held: &[u8; ROW_BYTES],
)
    requires { IsRecord pool.old }
{
    let mut output = [0u8; ROW_BYTES];
    if let Ok(ended) = finish(going, pool, ring, held, &mut output) {
        write_rows(rt, &output[..ended.written]);
    }
}

// Nothing is written after a failure. The range only bounds the loop.
fn main(rt: HostRuntime) {
    let mut stdin = rt.stdin();
    let mut pool = [0u64; POOL_WORDS];
    let mut ring = [0u64; RING_WORDS];
    let mut held = [0u8; ROW_BYTES];
    let mut input = [0u8; BLOCK_BYTES];
    let mut output = [0u8; ANSWER_BYTES];
    let mut going = start();
    'pieces: for _ in 0..u64::MAX {
        let n = match stdin.read(&mut input) {
            Ok(n) => n,
            Err(error) => {
                fail(&rt, "standard input", error);
                return;
            }
        };
        if n == 0 {
            answer_last(&rt, going, &mut pool, &mut ring, &held);
            return;
        }
        let fed = answer_block(
            going,
            &mut pool,
            &mut ring,
            &mut held,
            &input[..n],
            &mut output,
        );
        going = fed.going;
        if !write_rows(&rt, &output[..fed.written]) {
            return;
        }
    }
}
