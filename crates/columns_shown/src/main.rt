// Numbers in columns of rows: for each it prints the part that formatting hands back, then the whole row. Bytes beside the column are as
// they were; of a row too short for it the part is empty and nothing is written.
#![tactic(auto)]

use columns::format_column;
use std::io;

// A number in a column of the caller's row.
fn show(out: &impl Print, row: &mut [u8], at: usize, value: u64) -> io::Result<()> {
    out.write_all(b"part [")?;
    let part = format_column(row, at, value);
    out.write_all(part)?;
    out.write_all(b"] row [")?;
    out.write_all(row)?;
    out.write_all(b"]\n")
}

// Rows of 30 bytes: the first place, one within, the last, and past it.
fn places(out: &impl Print) -> io::Result<()> {
    let mut first = *b"abcdefghijklmnopqrstuvwxyzABCD";
    show(out, &mut first, 0, 0)?;
    let mut within = *b"abcdefghijklmnopqrstuvwxyzABCD";
    show(out, &mut within, 3, u64::MAX)?;
    let mut last = *b"abcdefghijklmnopqrstuvwxyzABCD";
    show(out, &mut last, 10, 10000000000000000000)?;
    let mut past = *b"abcdefghijklmnopqrstuvwxyzABCD";
    show(out, &mut past, 11, 5)?;
    let mut far = *b"abcdefghijklmnopqrstuvwxyzABCD";
    show(out, &mut far, usize::MAX, 5)
}

// A row as long as the column, one shorter, and one of no bytes.
fn lengths(out: &impl Print) -> io::Result<()> {
    let mut whole = *b"abcdefghijklmnopqrst";
    show(out, &mut whole, 0, 1234567890)?;
    let mut shorter = *b"abcdefghijklmnopqrs";
    show(out, &mut shorter, 0, 1234567890)?;
    let mut none = *b"";
    show(out, &mut none, 0, 7)
}

// One number after another in one row.
fn sheet(out: &impl Print) -> io::Result<()> {
    let mut row = *b"........................................";
    show(out, &mut row, 0, 9)?;
    show(out, &mut row, 20, 99)?;
    show(out, &mut row, 10, 18446744073709551609)
}

fn main(rt: HostRuntime) -> io::Result<()> {
    let out = rt.stdout();
    places(&out)?;
    lengths(&out)?;
    sheet(&out)
}
