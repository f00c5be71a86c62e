// Decimal numbers with one blank between, a newline at the end of a row. A row is a fixed buffer with a count: nothing here allocates.
use crate::row::ROW_NUMBERS;

#[derive(Clone, Copy)]
pub struct Reading {
    pub row: [u64; ROW_NUMBERS],
    pub count: usize,
    pub value: u64,
}

// The number with one digit more; one past u64, which no row has, becomes 0. A column of the day sheet is unreadable then.
fn shifted(value: u64, digit: u8) -> u64 {
    value
        .checked_mul(10)
        .and_then(|tens| tens.checked_add(u64::from(digit)))
        .unwrap_or(0)
}

impl Reading {
    pub(crate) fn new() -> Self {
        Reading {
            row: [0; ROW_NUMBERS],
            count: 0,
            value: 0,
        }
    }

    // A digit goes to the number; anything else ends it.
    pub(crate) fn feed(self, byte: u8) -> Reading {
        let mut out = self;
        if byte.is_ascii_digit() {
            out.value = shifted(self.value, byte - b'0');
            return out;
        }
        let at = self.count;
        if at < ROW_NUMBERS {
            out.row[at] = self.value;
            out.count = at + 1;
        }
        out.value = 0;
        out
    }
}
