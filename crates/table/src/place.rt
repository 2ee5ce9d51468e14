// Where a row belongs in a table, and how it is put there.
ghost use Rattle.std.specs.Prelude.{◌≡◌, ◌-◌, ◌<◌, ◌∷◌, length, take};
ghost use Rattle.table.specs.Table.{Rising, placed, Within};

use crate::kind::Kind;
use crate::row::Row;
use std::cmp::Ordering;

// Where `row` belongs among rows that rise: at the row that has its key, or between two others. After the last row is
// tried first: rows that come in order then cost one comparison each.
pub(crate) fn place<K: Kind>(kind: &K, rows: &[Row], row: &Row) -> Result<usize, usize>
    ensures within { Within result (length rows.now) }
    ensures is { Rising K.order (K.key kind.now) rows.now → result ≡ placed K.order (K.key kind.now) rows.now row.now }
{
    match rows.last() {
        Some(last) if kind.compare(last, row).is_lt() => Err(rows.len()),
        _ => place_by_halves(kind, rows, row),
    }
}

// std's `binary_search_by` looks on where a row has the key, and keys that come again are common here.
fn place_by_halves<K: Kind>(kind: &K, rows: &[Row], row: &Row) -> Result<usize, usize>
    ensures within { Within result (length rows.now) }
    ensures is { Rising K.order (K.key kind.now) rows.now → result ≡ placed K.order (K.key kind.now) rows.now row.now }
{
    let mut low = 0;
    let mut high = rows.len();
    while low < high {
        let mid = low + (high - low) / 2;
        match kind.compare(&rows[mid], row) {
            Ordering::Less => low = mid + 1,
            Ordering::Equal => return Ok(mid),
            Ordering::Greater => high = mid,
        }
    }
    Err(low)
}

// Puts `row` first, and the others one place up: the last of them is lost.
pub(crate) fn put_first(rows: &mut [Row], row: Row)
    requires { 0 < length rows.old }
    ensures { rows.new ≡ row ∷ take (length rows.old - 1) rows.old }
{
    rows.copy_within(..rows.len() - 1, 1);
    rows[0] = row;
}
