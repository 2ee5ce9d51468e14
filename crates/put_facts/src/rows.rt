// The tables of a store, as a head has them.
ghost use Rattle.std.specs.Prelude.{◌≡◌, length, take};
ghost use Rattle.std.specs.List.{flat_map};
ghost use Rattle.perf_data.specs.Questions.{answered};
ghost use Rattle.put.specs.Appends.{Appends};
ghost use Rattle.put_facts.specs.Items.{listed_bytes};
ghost use Rattle.put_facts.specs.Writes.{Writes};
ghost use Rattle.table.specs.Rows.{blanks};

use crate::lines::Line;
use put::Writer;
use table::row::{Row, blank_all};
use wire::refusal::Refusal;

// Rows, one after the other.
fn put_rows<L: Line>(line: &L, rows: &[Row], w: &mut Writer<'_>)
    ensures { Appends (flat_map (L.Line.line line.now) rows.now) w.old w.new }
{
    for row in rows {
        line.put_row(row, w);
    }
}

// A table's rows, and what stands before them.
fn put_listed<L: Line>(line: &L, rows: &[Row], w: &mut Writer<'_>)
    ensures { Appends (listed_bytes L.Line.front (L.Line.line line.now) rows.now) w.old w.new }
{
    line.put_front(rows.len(), w);
    put_rows(line, rows, w);
}

// The rows that a table uses, if the feature is there.
fn put_used<L: Line>(
    used: Result<Option<usize>, Refusal>,
    line: &L,
    rows: &[Row],
    w: &mut Writer<'_>,
) -> Result<bool, Refusal>
    ensures { Writes (answered (λ n. listed_bytes L.Line.front (L.Line.line line.now) (take n rows.now)) used) w.old result w.new }
{
    let Some(n) = used? else {
        return Ok(false);
    };
    // `n` is any number here: where it is above the rows, all of them are taken.
    put_listed(line, &rows[..n.min(rows.len())], w);
    Ok(true)
}

// Writes a table, and answers whether the feature is there. The rows that it was made in are blank again behind it.
pub(crate) fn put_table<L: Line>(
    used: Result<Option<usize>, Refusal>,
    line: &L,
    rows: &mut [Row],
    w: &mut Writer<'_>,
) -> Result<bool, Refusal>
    ensures writes { Writes (answered (λ n. listed_bytes L.Line.front (L.Line.line line.now) (take n rows.old)) used) w.old result w.new }
    ensures blank { rows.new ≡ blanks (length rows.old) }
{
    let written = put_used(used, line, rows, w);
    blank_all(rows);
    written
}
