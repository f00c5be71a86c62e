// Numbers in columns of the day sheet: decimal, right-justified, blanks before, at least one digit. Digits are read and written here, since the library's
// reading takes a sign and zeros before, and its writing gives a text of its own length.
#![tactic(auto)]

ghost use Rattle.std.specs.Prelude.{◌≡◌, cond, ◌/◌, ◌%◌, eqb, length, position, not, ◌==◌};
ghost use Rattle.columns.specs.Column.{blank, digit_byte, read_digits, in_range, read_column, column, has_room, with_column, formatted, placed};
ghost use Rattle.columns.specs.Stages.{with_digit};

// A number with one digit more: a byte that is a digit, at most 2^64 − 1.
#[tactic(auto, unfolding(crate::specs::Stages::with_digit))]
fn with_digit(value: u64, byte: u8) -> Option<u64>
    ensures { result ≡ with_digit value byte }
{
    if !byte.is_ascii_digit() {
        return None;
    }
    value.checked_mul(10)?.checked_add(u64::from(byte - b'0'))
}

// Digits to the end, at most 2^64 − 1.
#[tactic(auto, using(crate::proofs::ColumnRead::digit_stops, crate::proofs::ColumnRead::digit_taken, crate::proofs::ColumnRead::all_read))]
fn read_digits(bytes: &[u8]) -> Option<u64>
    ensures { result ≡ in_range (read_digits 0 bytes.now) }
{
    let mut value = 0;
    for &byte in bytes {
        value = with_digit(value, byte)?;
    }
    Some(value)
}

// Where the number begins, past the blanks before it.
fn number_start(bytes: &[u8]) -> Option<usize>
    ensures { result ≡ position (λ byte. not (byte == blank)) bytes.now }
{
    bytes.iter().position(|byte| *byte != b' ')
}

// The number of a column, whatever its bytes and however many: no zero before a digit, at most 2^64 − 1.
#[tactic(auto, using(crate::proofs::ColumnRead::no_number, crate::proofs::ColumnRead::zero_before, crate::proofs::ColumnRead::number_from))]
pub fn read_column(bytes: &[u8]) -> Option<u64>
    ensures { result ≡ read_column bytes.now }
{
    let at = number_start(bytes)?;
    if bytes[at] == b'0' && at + 1 < bytes.len() {
        return None;
    }
    read_digits(&bytes[at..])
}

// The last digit, which stands even of 0.
fn last_digit(number: u64) -> u8
    ensures { result ≡ digit_byte (number % 10) }
{
    b'0' + (number % 10) as u8
}

// The last digit of what is left of a number; a blank where nothing is left. From its last two, as the tens are, so that one remainder
// serves both.
fn ones_or_blank(rest: u64) -> u8
    ensures { result ≡ cond (eqb rest 0) blank (digit_byte (rest % 10)) }
{
    let pair = (rest % 100) as u8;
    if rest == 0 { b' ' } else { b'0' + pair % 10 }
}

// The digit before the last; a blank where there is none.
fn tens_or_blank(rest: u64) -> u8
    ensures { result ≡ cond (eqb (rest / 10) 0) blank (digit_byte (rest / 10 % 10)) }
{
    let pair = (rest % 100) as u8;
    if rest < 10 { b' ' } else { b'0' + pair / 10 }
}

// A column from its last digit to its first blank; a number with more digits than bytes loses the highest.
// Two digits a step, so that half as many divisions wait for one another. A `while`: of what a loop over
// `rchunks_exact_mut(2)` left in the part nothing is known.
#[tactic(auto, using(crate::proofs::ColumnWritten::none_written))]
fn write_digits(part: &mut [u8], value: u64)
    ensures { part.new ≡ column (length part.old) value }
{
    if part.len() == 0 {
        return;
    }
    let mut at = part.len() - 1;
    part[at] = last_digit(value);
    let mut rest = value / 10;
    while 1 < at {
        part[at - 1] = ones_or_blank(rest);
        part[at - 2] = tens_or_blank(rest);
        at -= 2;
        rest /= 100;
    }
    if 0 < at {
        part[0] = ones_or_blank(rest);
    }
}

// Fills a column of a row; of a row too short for it nothing is written.
#[tactic(auto, using(crate::proofs::ColumnWritten::too_short, crate::proofs::ColumnWritten::put_back))]
pub fn write_column(row: &mut [u8], at: usize, width: usize, value: u64) -> bool
    ensures { (result ≡ has_room row.old at width) × (row.new ≡ with_column row.old at width value) }
{
    if row.len() < width || row.len() - width < at {
        return false;
    }
    write_digits(&mut row[at..at + width], value);
    true
}

// Fills a column of 20 bytes and hands back that very part of the caller's row; of a row too short for it, an empty part.
#[tactic(auto, using(crate::proofs::ColumnWritten::filled_part, crate::proofs::ColumnWritten::filled_place, crate::proofs::ColumnWritten::no_part, crate::proofs::ColumnWritten::no_place))]
pub fn format_column(row: &mut [u8], at: usize, value: u64) -> &mut [u8]
    ensures { (result.now ≡ formatted row.old at value) × (result.ref_ptr ≡ placed row.old row.entry.ref_ptr at) }
{
    if write_column(row, at, 20, value) {
        return &mut row[at..at + 20];
    }
    &mut row[..0]
}
