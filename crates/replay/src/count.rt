// How many rows of one kind there are, how many of them are altered, and how many agree.
use crate::row::{ROW_NUMBERS, nth};
use columns::format_column;
use std::io;

// What a row has for a side where its answer is altered.
const ALTERED: u64 = 3;

#[derive(Clone, Copy)]
pub struct Count {
    pub kind: u64,
    pub rows: u64,
    pub altered: u64,
    pub agree: u64,
}

// A number in 20 bytes: what is printed is the part that formatting hands back.
fn number(out: &impl Print, value: u64) -> io::Result<()> {
    let mut row = [b'.'; 30];
    let part = format_column(&mut row, 5, value);
    out.write_all(part)
}

pub(crate) fn heading(out: &impl Print) -> io::Result<()> {
    out.write_all(
        b"                kind                rows             altered               agree\n",
    )
}

impl Count {
    pub(crate) fn new(kind: u64) -> Count {
        Count {
            kind,
            rows: 0,
            altered: 0,
            agree: 0,
        }
    }

    pub(crate) fn show(self, out: &impl Print) -> io::Result<()> {
        number(out, self.kind)?;
        number(out, self.rows)?;
        number(out, self.altered)?;
        number(out, self.agree)?;
        out.write_all(b"\n")
    }

    // The count that goes on for a kind: the rows of a kind stand together.
    fn of_kind(self, out: &impl Print, kind: u64) -> io::Result<Count> {
        if self.kind == kind {
            return Ok(self);
        }
        if self.rows > 0 {
            self.show(out)?;
        }
        Ok(Count::new(kind))
    }

    pub(crate) fn with_row(
        self,
        out: &impl Print,
        row: &[u64; ROW_NUMBERS],
        agrees: bool,
    ) -> io::Result<Count> {
        let count = self.of_kind(out, nth(row, 0))?;
        let altered = nth(row, 1) == ALTERED;
        Ok(Count {
            kind: count.kind,
            rows: count.rows.wrapping_add(1),
            altered: count.altered.wrapping_add(u64::from(altered)),
            agree: count.agree.wrapping_add(u64::from(agrees)),
        })
    }
}
