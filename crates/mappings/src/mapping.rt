// A section that is a table, read into lent rows: the same for each feature that maps keys to values.
ghost use Rattle.std.specs.Prelude.{◌≡◌, ℕ, List, map, length, Result as Results};
ghost use Rattle.perf_data.specs.Questions.{question, answered};
ghost use Rattle.table.specs.Rows.{entry_of};
ghost use Rattle.table.specs.declared.row.Row.{Row as Rows};
ghost use Rattle.wire.specs.declared.order.ByteOrder.{ByteOrder as ByteOrders};
ghost use Rattle.wire.specs.declared.refusal.Fault.{Fault as Faults};
ghost use Rattle.mappings.specs.Tables.{Made, with_value, counted, within, laid_out, laid_for, outcome, entries_in, bytes_in};

use image::ask::section_of;
use image::section::Section;
use image::store::Store;
use table::row::{Row, blank_all};
use wire::refusal::Refusal;

// A feature whose section maps keys to values.
pub(crate) trait Mapping {
    ghost FEATURE: { ℕ };

    ghost Key: { Type 0 };

    // The key of a row of the section's table.
    ghost key: { List ℕ → Rows → Key };

    // The table as rows, and what the section means.
    ghost table: { ByteOrders → List ℕ → Results (List Rows) Faults };

    ghost entries: { ByteOrders → List ℕ → Results (List (Key × List ℕ)) Faults };

    // The feature's number.
    const FEATURE: u32;

    // Reads a section into rows, to its end even when the rows have run out: a fault further on comes first. How many of the
    // rows are used, or none where they were too few.
    fn read(section: Section<'_>, rows: &mut [Row]) -> Result<Option<usize>, Refusal>
        ensures made { Made (table section.entry.order section.entry.bytes.now) result rows.new }

        // What the table's rows stand for is what the section means.
        ensures tied { with_value (map (entry_of (key section.entry.bytes.now) section.entry.bytes.now)) (table section.entry.order section.entry.bytes.now) ≡ entries section.entry.order section.entry.bytes.now };
}

// How many rows the table of a section has. After a fault, and where there were too few rows, all are blank.
fn settle<M: Mapping>(section: Section<'_>, rows: &mut [Row]) -> Result<usize, Refusal>
    ensures answer { outcome (λ n. n) result ≡ counted (within M.FEATURE (length rows.old) (M.entries section.entry.order section.entry.bytes.now)) }
    ensures after { rows.new ≡ laid_out (length rows.old) (M.table section.entry.order section.entry.bytes.now) }
    ensures entries { outcome (entries_in (M.key section.entry.bytes.now) section.entry.bytes.now rows.new) result ≡ within M.FEATURE (length rows.old) (M.entries section.entry.order section.entry.bytes.now) }
{
    match M::read(section, rows) {
        Ok(used) => used.ok_or(Refusal::TooFewRows {
            feature: M::FEATURE,
        }),
        Err(refusal) => {
            blank_all(rows);
            Err(refusal)
        }
    }
}

// The table of a store's section in the first rows; the others are blank. All rows are blank where there is no section, after
// a fault, and where the table has more rows.
pub(crate) fn table_of<'a, M: Mapping, S: Store<'a>>(
    store: &S,
    rows: &mut [Row],
) -> Result<Option<usize>, Refusal>
    ensures answer { answered (λ n. n) result ≡ question (λ o s. counted (within M.FEATURE (length rows.old) (M.entries o s))) (S.endian store.now) ((S.map store.now).at M.FEATURE) }
    ensures after { rows.new ≡ laid_for (length rows.old) (question M.table (S.endian store.now) ((S.map store.now).at M.FEATURE)) }
    ensures entries { answered (entries_in (M.key (bytes_in ((S.map store.now).at M.FEATURE))) (bytes_in ((S.map store.now).at M.FEATURE)) rows.new) result ≡ question (λ o s. within M.FEATURE (length rows.old) (M.entries o s)) (S.endian store.now) ((S.map store.now).at M.FEATURE) }
{
    let Some(section) = section_of(store, M::FEATURE) else {
        blank_all(rows);
        return Ok(None);
    };
    Ok(Some(settle::<M>(section, rows)?))
}
