// The fact of a feature, whether it is a table or not.
ghost use Rattle.std.specs.Prelude.{length};
ghost use Rattle.facts.specs.Head.{answer};
ghost use Rattle.put_facts.specs.Writes.{in_bytes, Writes};

use facts::carried::Carried;
use image::store::Store;
use put::Writer;
use put_facts::fact::put_fact;
use put_facts::tables::put_table_fact;
use table::row::Row;
use wire::refusal::Refusal;

// Writes the fact of a feature, and answers whether the feature is there. A table may take as many rows as are lent.
pub(crate) fn put_feature<'a, S: Store<'a>>(
    store: &S,
    feature: Carried,
    rows: &mut [Row],
    w: &mut Writer<'_>,
) -> Result<bool, Refusal>
    ensures writes { Writes (in_bytes (answer (length rows.old) (S.endian store.now) (S.map store.now).at feature)) w.old result w.new }
{
    match feature.table() {
        Some(table) => put_table_fact(store, table, rows, w),
        None => put_fact(store, feature, w),
    }
}
