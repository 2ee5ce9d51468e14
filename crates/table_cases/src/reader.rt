// A reader of a section as the table's callers are: a section is a run of numbers, a byte each, and the byte 255 is a fault.
// It reads to the end even when the rows have run out, since a fault further on comes before too few rows.
ghost use Rattle.std.specs.Prelude.{◌≡◌, length};
ghost use Rattle.table_cases.specs.Reads.{item as item_of, answer, left};

use table::builder::TableBuilder;
use table::kind::Numbers;
use table::row::{Row, blank_all};

// Why a section has no table.
#[derive(Clone, Copy, PartialEq, Eq, Debug)]
pub enum Refused {
    Fault { at: usize },
    TooFewRows,
}

fn item(b: u8) -> Row
    ensures { result ≡ item_of b }
{
    Row {
        number: u32::from(b),
        ..Row::BLANK
    }
}

// The table of a section's numbers, in the first rows; all are blank where there is none.
pub fn read(rows: &mut [Row], section: &[u8]) -> Result<usize, Refused>
    ensures is { result ≡ answer (length rows.old) section.now }
    ensures after { rows.new ≡ left (length rows.old) section.now }
{
    let mut builder = TableBuilder::start(Numbers, rows);
    for (at, b) in section.iter().enumerate() {
        if *b == 255 {
            blank_all(rows);
            return Err(Refused::Fault { at });
        }
        builder.add(item(*b));
    }
    builder.finish().ok_or(Refused::TooFewRows)
}
