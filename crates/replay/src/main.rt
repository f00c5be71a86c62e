// Replays oracle/sample/cases.txt: each row is a call or a function with the answer that it must give. For each kind of row it prints how
// many there are, how many of them have an altered answer, with which nothing may agree, and how many agree.
#![tactic(auto)]

mod alone;
mod count;
mod on_pool;
mod reading;
mod registered;
mod ring;
mod row;

use count::Count;
use reading::Reading;
use row::{ROW_NUMBERS, nth};
use std::io;
use std::io::Read;

// So many bytes are read at a time.
const BLOCK_BYTES: usize = 65536;

// Whether a row's answer is the one that is given. Most kinds are numbers of this file alone, which each function here names.
fn agrees(row: &[u64; ROW_NUMBERS]) -> bool {
    let kind = nth(row, 0);
    match kind {
        1 => on_pool::opening(row),
        2..=7 => on_pool::call(row),
        10..=21 => alone::amount(row),
        22 => alone::lp_tokens(row),
        24 => alone::lp_division(row),
        31 => alone::nets(row),
        32 => alone::prices(row),
        33 => alone::booking(row),
        34 => alone::fee_side(row),
        36 => ring::update(row),
        40 | 41 | 44 | 45 => registered::agrees(row),
        _ => false,
    }
}

// How far the input is read.
#[derive(Clone, Copy)]
pub struct Progress {
    pub reading: Reading,
    pub count: Count,
}

// The bytes of a block in turn; a newline ends a row.
fn block(out: &impl Print, progress: Progress, bytes: &[u8]) -> io::Result<Progress> {
    let mut reading = progress.reading;
    let mut count = progress.count;
    for &byte in bytes {
        reading = reading.feed(byte);
        if byte == b'\n' {
            let row = reading.row;
            count = count.with_row(out, &row, agrees(&row))?;
            reading = Reading::new();
        }
    }
    Ok(Progress { reading, count })
}

// Standard input to its end, which is a block of no bytes. The range only bounds the loop.
fn read_all(input: &mut impl Read, out: &impl Print) -> io::Result<Count> {
    let mut progress = Progress {
        reading: Reading::new(),
        count: Count::new(0),
    };
    let mut buffer = [0u8; BLOCK_BYTES];
    for _ in 0..u64::MAX {
        let n = input.read(&mut buffer)?;
        if n == 0 {
            break;
        }
        progress = block(out, progress, &buffer[..n])?;
    }
    Ok(progress.count)
}

fn main(rt: HostRuntime) -> io::Result<()> {
    let mut stdin = rt.stdin();
    let out = rt.stdout();
    count::heading(&out)?;
    read_all(&mut stdin, &out)?.show(&out)
}
