// The fact of a carried feature that is a table.
ghost use Rattle.std.specs.Prelude.{◌≡◌, length};
ghost use Rattle.facts.specs.Facts.{number as number_of};
ghost use Rattle.facts.specs.Head.{answer};
ghost use Rattle.facts.specs.Tables.{feature_of};
ghost use Rattle.mappings.specs.Tables.{bytes_in};
ghost use Rattle.put_facts.specs.Writes.{in_bytes, Writes};
ghost use Rattle.table.specs.Rows.{blanks};

use crate::lines::Names;
use crate::rows::put_table;
use build_ids::builds::Builds;
use build_ids::perf_file::build_ids;
use facts::carried::{Carried, Tabled};
use image::store::Store;
use mappings::meta_info::meta_info;
use mappings::pmu_mappings::pmu_mappings;
use put::Writer;
use table::kind::Texts;
use table::row::Row;
use wire::refusal::Refusal;

// The bytes of a feature's section; none where there is no section.
fn section_bytes<'a, S: Store<'a>>(store: &S, feature: Carried) -> &'a [u8]
    ensures { result.now ≡ bytes_in ((S.map store.now).at (number_of feature)) }
{
    store.section(u32::from(feature)).unwrap_or(&[])
}

// Writes the fact of a carried feature that is a table, as a head has it, and answers whether the feature is there. The
// table is made in the rows, which are blank in the end, refused or not.
pub fn put_table_fact<'a, S: Store<'a>>(
    store: &S,
    table: Tabled,
    rows: &mut [Row],
    w: &mut Writer<'_>,
) -> Result<bool, Refusal>
    ensures writes { Writes (in_bytes (answer (length rows.old) (S.endian store.now) (S.map store.now).at (feature_of table))) w.old result w.new }
    ensures rows { rows.new ≡ blanks (length rows.old) }
{
    match table {
        Tabled::BuildIds => {
            let used = build_ids(store, rows);
            let section = section_bytes(store, Carried::BuildId);
            put_table(used, &Builds { section }, rows, w)
        }
        Tabled::PmuNames => {
            let used = pmu_mappings(store, rows);
            let section = section_bytes(store, Carried::PmuMappings);
            put_table(used, &Names { section }, rows, w)
        }
        Tabled::MetaInfo => {
            let used = meta_info(store, rows);
            let section = section_bytes(store, Carried::SimpleperfMetaInfo);
            put_table(used, &Texts { section }, rows, w)
        }
    }
}
