// Rows of the day sheet: a number in 2 columns and five in 20 each.
ghost use Rattle.std.specs.Prelude.{◌≡◌, ◌<◌, length};
ghost use Rattle.columns.specs.Column.{has_room};
ghost use Rattle.rows.specs.Row.{line_bytes, row_bytes, column_at, read_row, write_row, with_row};

use columns::{read_column, write_column};

// The bytes of a row before its newline.
pub const LINE_BYTES: usize = 102;
// A row with its newline. Of a row that is begun no more bytes are kept.
pub const ROW_BYTES: usize = LINE_BYTES + 1;

// A row's numbers: the first is its kind, and in an answer the number that refuses or 0.
#[derive(Clone, Copy)]
pub struct Row {
    pub kind: u64,
    pub a: u64,
    pub b: u64,
    pub c: u64,
    pub d: u64,
    pub e: u64,
}

// The number in column i of the five.
fn read_number(bytes: &[u8], i: usize) -> Option<u64>
    requires { (length bytes.now ≡ line_bytes) × (i < 5) }
    ensures { result ≡ column_at bytes.now i }
{
    let at = 2 + 20 * i;
    read_column(&bytes[at..at + 20])
}

// The numbers of a row without its newline, whatever its bytes and however many.
#[tactic(auto, unfolding(crate::specs::Row::read_row))]
pub fn read_row(bytes: &[u8]) -> Option<Row>
    ensures { result ≡ read_row bytes.now }
{
    if bytes.len() != LINE_BYTES {
        return None;
    }
    Some(Row {
        kind: read_column(&bytes[..2])?,
        a: read_number(bytes, 0)?,
        b: read_number(bytes, 1)?,
        c: read_number(bytes, 2)?,
        d: read_number(bytes, 3)?,
        e: read_number(bytes, 4)?,
    })
}

// A row with its newline, which fills the whole of what is lent.
fn fill_row(out: &mut [u8], row: Row)
    requires { length out.old ≡ row_bytes }
    ensures { out.new ≡ write_row row.kind row.a row.b row.c row.d row.e }
{
    write_column(out, 0, 2, row.kind);
    write_column(out, 2, 20, row.a);
    write_column(out, 22, 20, row.b);
    write_column(out, 42, 20, row.c);
    write_column(out, 62, 20, row.d);
    write_column(out, 82, 20, row.e);
    out[LINE_BYTES] = b'\n';
}

// A row with its newline.
pub fn write_row(out: &mut [u8; ROW_BYTES], row: Row)
    ensures { out.new ≡ write_row row.kind row.a row.b row.c row.d row.e }
{
    fill_row(out, row);
}

// A row with its newline at a place of a longer text; in a text too short for it nothing is written. `write_row`
// is lent a row's bytes exactly, and can't fail.
#[tactic(auto, using(crate::proofs::RowWritten::no_room, crate::proofs::RowWritten::has_place, crate::proofs::RowWritten::row_put_back))]
pub fn write_row_at(text: &mut [u8], at: usize, row: Row) -> bool
    ensures { (result ≡ has_room text.old at row_bytes) × (text.new ≡ with_row text.old at (write_row row.kind row.a row.b row.c row.d row.e)) }
{
    if text.len() < ROW_BYTES || text.len() - ROW_BYTES < at {
        return false;
    }
    fill_row(&mut text[at..at + ROW_BYTES], row);
    true
}
