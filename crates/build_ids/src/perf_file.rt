// The question that the build id section of a store answers.
ghost use Rattle.std.specs.Prelude.{◌≡◌, ◌≤◌, length, IfSome, Ok};
ghost use Rattle.perf_data.specs.Questions.{question, answered};
ghost use Rattle.table.specs.Fills.{fits, laid};
ghost use Rattle.dso_key.specs.Order.{keys};
ghost use Rattle.mappings.specs.Tables.{counted, within, laid_for, bytes_in, AnswersLast};
ghost use Rattle.build_ids.specs.Events.{event_of, records};
ghost use Rattle.build_ids.specs.Laws.{RecordsFollow};
ghost use Rattle.build_ids.specs.Rows.{row_of, row_table, builds_in};
ghost use Rattle.build_ids.specs.Table.{entries_of, build_ids};

use crate::build_id_event::{BuildIdEvent, ID_AT, PATH_AT};
use crate::build_id_events::BuildIdEvents;
use crate::builds::Builds;
use dso_key::cpu_mode::CpuMode;
use dso_key::least::least_mode;
use image::ask::section_of;
use image::section::Section;
use image::store::Store;
use perf_data::features::Feature;
use table::builder::TableBuilder;
use table::row::{Row, blank_all};
use wire::refusal::Refusal;

// The row of a record that stands at an offset, if it has a key. A record by itself may be of any length: it is short because it
// lies in a section.
fn row_of(at: usize, event: BuildIdEvent<'_>) -> Option<Row>
    requires at { «at» ≤ 16777216 }
    requires path { length event.path.now ≤ 16777216 }
    requires id { length event.build_id.now ≤ 16777216 }
    ensures { result ≡ row_of «at» (event_of event.entry) }
{
    let mode = least_mode(event.path, CpuMode::of_misc(event.misc))?;
    Some(Row {
        number: u32::from(mode),
        key_at: (at + PATH_AT) as u32,
        key_len: event.path.len() as u32,
        value_at: (at + ID_AT) as u32,
        value_len: event.build_id.len() as u32,
    })
}

// Reads the records of a section into the table, to the first that is not whole.
fn tabulate(section: Section<'_>, rows: &mut [Row]) -> Option<usize>
    ensures count { result ≡ fits (length rows.old) (row_table section.entry.order section.entry.bytes.now) }
    ensures after { rows.new ≡ laid (length rows.old) (row_table section.entry.order section.entry.bytes.now) }
{
    let builds = Builds {
        section: section.bytes,
    };
    let mut builder = TableBuilder::start(builds, rows);
    for (at, event) in BuildIdEvents::new(section) {
        if let Some(row) = row_of(at, event) {
            builder.add(row);
        }
    }
    builder.finish()
}

// The table of a store's section by its rows.
fn read<'a, S: Store<'a>>(store: &S, rows: &mut [Row]) -> Result<Option<usize>, Refusal>
    ensures is { answered (λ n. n) result ≡ question (λ o s. counted (within 2 (length rows.old) (Ok (row_table o s)))) (S.endian store.now) ((S.map store.now).at 2) }
    ensures after { rows.new ≡ laid_for (length rows.old) (question (λ o s. Ok (row_table o s)) (S.endian store.now) ((S.map store.now).at 2)) }
{
    let Some(section) = section_of(store, Feature::BUILD_ID.0) else {
        blank_all(rows);
        return Ok(None);
    };
    let used = tabulate(section, rows).ok_or(Refusal::TooFewRows {
        feature: Feature::BUILD_ID.0,
    })?;
    Ok(Some(used))
}

// The table of a store's build ids in the first of the rows, by rising keys, and how many it uses: a row stands for a key with
// the path and the id that were last given with it. The other rows are blank; all are where there is no section, and where
// the keys are more than the rows.
pub fn build_ids<'a, S: Store<'a>>(store: &S, rows: &mut [Row]) -> Result<Option<usize>, Refusal>
    ensures is { answered (λ n. n) result ≡ question (λ o s. counted (within 2 (length rows.old) (build_ids o s))) (S.endian store.now) ((S.map store.now).at 2) }
    ensures after { rows.new ≡ laid_for (length rows.old) (question (λ o s. Ok (row_table o s)) (S.endian store.now) ((S.map store.now).at 2)) }
    ensures entries { answered (builds_in (bytes_in ((S.map store.now).at 2)) rows.new) result ≡ question (λ o s. within 2 (length rows.old) (build_ids o s)) (S.endian store.now) ((S.map store.now).at 2) }
    ensures last { AnswersLast keys (question (λ o s. Ok (entries_of (records o s))) (S.endian store.now) ((S.map store.now).at 2)) (answered (builds_in (bytes_in ((S.map store.now).at 2)) rows.new) result) }
    ensures records { IfSome ((S.map store.now).at 2) (λ s. RecordsFollow (S.endian store.now) s 0 (records (S.endian store.now) s)) }
{
    read(store, rows)
}
