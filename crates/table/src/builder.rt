// A table made in lent rows, item by item, by a reader that goes on when the rows have run out.
ghost use Rattle.std.specs.Prelude.{◌≡◌, ◌≤◌, List, [], ◌∷◌, ◌++◌, length, take};
ghost use Rattle.std.specs.Option.{ForSome};
ghost use Rattle.table.specs.Rows.{blanks};
ghost use Rattle.table.specs.Table.{Rising, Within, placed, tabled};
ghost use Rattle.table.specs.declared.row.Row.{Row as Rows};

use crate::kind::Kind;
use crate::place::{place, put_first};
use crate::row::{Row, blank_all};

// A table that is being made in lent rows, by keys of one kind.
#[derive(Drop)]
pub struct TableBuilder<'r, K> {
    kind: K,
    rows: &'r mut [Row],
    // How many of the rows are used, from the first on; none where they were too few, and all are blank.
    used: Option<usize>,

    // the rows are that many at least
    ghost within: { ForSome used (λ n. n ≤ length rows.now) },
}

impl<'r, K: Kind> TableBuilder<'r, K> {
    ghost use Rattle.table.specs.Fills.{Filled, Holds, IsSameFill, fits, laid};

    // Blanks the rows: no row is given yet.
    pub fn start(kind: K, rows: &'r mut [Row]) -> TableBuilder<'r, K>
        ensures same_rows { result.rows.ghost_name ≡ rows.entry.ghost_name }
        ensures same_kind { result.kind ≡ kind }
        ensures blank { result.rows.now ≡ blanks (length rows.old) }
        ensures holds { Filled K.order K.key [] result }
    {
        blank_all(rows);
        TableBuilder {
            kind,
            rows,
            used: Some(0),
        }
    }

    // Goes on with rows of which some are used. No more are used than there are, whatever the caller says.
    pub(crate) fn resume(kind: K, rows: &'r mut [Row], used: Option<usize>) -> TableBuilder<'r, K>
        ensures same_rows { result.rows.ghost_name ≡ rows.entry.ghost_name }
        ensures same_kind { result.kind ≡ kind }
        ensures holds { (given : List Rows) → Holds (tabled K.order (K.key kind) given) used rows.old → Filled K.order K.key given result }
    {
        let used = used.map(|used| used.min(rows.len()));
        TableBuilder { kind, rows, used }
    }

    // Where `row` belongs among the first rows, which are used.
    fn place(&self, used: usize, row: &Row) -> Result<usize, usize>
        requires { used ≤ length self.now.rows.now }
        ensures within { Within result used }
        ensures is { Rising K.order (K.key self.now.kind) (take used self.now.rows.now) → result ≡ placed K.order (K.key self.now.kind) (take used self.now.rows.now) row.now }
    {
        place(&self.kind, &self.rows[..used], row)
    }

    // Puts one more row into the table of those given before; a row with the same key gives way to it. Where it is one row
    // too many, all are blanked, and no further row is put there.
    pub fn add(&mut self, row: Row)
        ensures same { IsSameFill self.new self.old }
        ensures added { (given : List Rows) → Filled K.order K.key given self.old → Filled K.order K.key (given ++ row ∷ []) self.new }
    {
        let Some(used) = self.used else {
            return;
        };
        match self.place(used, &row) {
            Ok(i) => self.rows[i] = row,
            Err(_) if used == self.rows.len() => {
                blank_all(self.rows);
                self.used = None;
            }
            Err(i) => {
                put_first(&mut self.rows[i..=used], row);
                self.used = Some(used + 1);
            }
        }
    }

    // How many rows the table has, in the first of the rows; or none where they were too few, and all are blank.
    // A slice of those rows in place of the count would keep all rows lent.
    pub fn finish(&self) -> Option<usize>
        ensures is { result ≡ self.now.used }
        ensures holds { (table : List Rows) → Holds table self.now.used self.now.rows.now → (result ≡ fits (length self.now.rows.now) table) × (self.now.rows.now ≡ laid (length self.now.rows.now) table) }
    {
        self.used
    }
}
