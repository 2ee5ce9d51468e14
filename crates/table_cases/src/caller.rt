// A caller that puts every row of a slice into a table, and asks at the end whether they fitted.
ghost use Rattle.std.specs.Prelude.{◌≡◌, length};
ghost use Rattle.table.specs.Table.{tabled};
ghost use Rattle.table.specs.Fills.{fits, laid};

use table::builder::TableBuilder;
use table::kind::Kind;
use table::row::Row;

// A row that was used for something else: a table's rows come in as they are.
pub const DIRTY: Row = Row {
    number: 7,
    key_at: 7,
    key_len: 7,
    value_at: 7,
    value_len: 7,
};

// The table of some rows, in the first of those lent.
pub fn tabulate<K: Kind>(kind: &K, rows: &mut [Row], given: &[Row]) -> Option<usize>
    ensures count { result ≡ fits (length rows.old) (tabled K.order (K.key kind.now) given.now) }
    ensures table { rows.new ≡ laid (length rows.old) (tabled K.order (K.key kind.now) given.now) }
{
    let mut builder = TableBuilder::start(kind, rows);
    for row in given {
        builder.add(*row);
    }
    builder.finish()
}
