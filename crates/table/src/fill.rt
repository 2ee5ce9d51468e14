// The state of a table by itself: a caller keeps the rows, and goes on with them later.
ghost use Rattle.std.specs.Prelude.{◌≡◌, List, [], ◌∷◌, ◌++◌, length};
ghost use Rattle.table.specs.Fills.{Holds, used_of, fits, laid};
ghost use Rattle.table.specs.Rows.{blanks};
ghost use Rattle.table.specs.Table.{tabled};
ghost use Rattle.table.specs.declared.row.Row.{Row as Rows};

use crate::builder::TableBuilder;
use crate::kind::Kind;
use crate::row::{Row, blank_all};

// How many of the rows are used, from the first on; or that they were too few, and all are blank.
#[derive(Clone, Copy, PartialEq, Eq, Debug)]
pub enum Fill {
    Used(usize),
    Over,
}

impl Fill {
    // Blanks the rows: no row is given yet.
    pub fn start(rows: &mut [Row]) -> Fill
        ensures blank { rows.new ≡ blanks (length rows.old) }
        ensures holds { Holds [] (used_of result) rows.new }
    {
        blank_all(rows);
        Fill::Used(0)
    }

    // Puts one more row into the table of those given before; a row with the same key gives way to it. Where it is one row
    // too many, all are blanked, and no further row is put there.
    pub fn add<K: Kind>(self, kind: &K, rows: &mut [Row], row: Row) -> Fill
        ensures { (given : List Rows) → Holds (tabled K.order (K.key kind.now) given) (used_of self) rows.old → Holds (tabled K.order (K.key kind.now) (given ++ row ∷ [])) (used_of result) rows.new }
    {
        let mut builder = TableBuilder::resume(kind, rows, self.finish());
        builder.add(row);
        builder.finish().map_or(Fill::Over, Fill::Used)
    }

    // How many rows the table has, in the first of the rows; or none where they were too few, and all are blank.
    pub fn finish(self) -> Option<usize>
        ensures is { result ≡ used_of self }
        ensures holds { (table : List Rows) (rows : List Rows) → Holds table (used_of self) rows → (result ≡ fits (length rows) table) × (rows ≡ laid (length rows) table) }
    {
        match self {
            Fill::Used(used) => Some(used),
            Fill::Over => None,
        }
    }
}
