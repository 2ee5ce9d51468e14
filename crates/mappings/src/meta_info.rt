// META_INFO of simpleperf, feature 129: what simpleperf notes of a recording, keys with their values.
ghost use Rattle.std.specs.Prelude.{◌≡◌, ◌≤◌, ℕ, List, length};
ghost use Rattle.wire.specs.Faults.{fault_of, section_fault};
ghost use Rattle.table.specs.Order.{texts};
ghost use Rattle.table.specs.Rows.{key_part, entry_of};
ghost use Rattle.perf_data.specs.Questions.{question, answered, mapped};
ghost use Rattle.mappings.specs.Entries.{of_meta};
ghost use Rattle.mappings.specs.MetaInfo.{pieces_from, first_pair, pair_row, meta_rows, meta_pairs, meta_info};
ghost use Rattle.mappings.specs.Tables.{counted, within, laid_for, outcome, entries_in, bytes_in, AnswersLast};

use crate::mapping::{Mapping, table_of};
use image::section::Section;
use image::store::Store;
use perf_data::features::Feature;
use table::builder::TableBuilder;
use table::kind::Texts;
use table::row::Row;
use text::pieces::well_formed;
use text::strings::before_nul;
use wire::order::tail;
use wire::refusal::Refusal;

// A key with its value.
#[derive(Clone, Copy)]
pub struct MetaEntry<'a> {
    pub key: &'a [u8],
    pub value: &'a [u8],
}

// A piece at an offset that is no well-formed text.
fn ill_formed(at: u32) -> Refusal
    ensures { fault_of result ≡ section_fault 10 129 at }
{
    Refusal::IllFormedText {
        feature: MetaInfo::FEATURE,
        at,
    }
}

// The row of the key that begins at an offset and of its value, if it has one; both are checked, the key first.
fn read_pair(section: Section<'_>, at: usize) -> Result<Option<Row>, Refusal>
    ensures { outcome (λ row. row) result ≡ first_pair pair_row (pieces_from section.entry.bytes.now «at») }
{
    if at > section.bytes.len() {
        return Ok(None);
    }
    let key = before_nul(tail(section.bytes, at));
    let value_at = at + key.len() + 1;
    if value_at > section.bytes.len() {
        return Ok(None);
    }
    let value = before_nul(tail(section.bytes, value_at));
    if !well_formed(key) {
        return Err(ill_formed(at as u32));
    }
    if !well_formed(value) {
        return Err(ill_formed(value_at as u32));
    }
    Ok(Some(Row {
        number: 0,
        key_at: at as u32,
        key_len: key.len() as u32,
        value_at: value_at as u32,
        value_len: value.len() as u32,
    }))
}

pub(crate) struct MetaInfo;

impl Mapping for MetaInfo {
    ghost FEATURE = { 129 };

    ghost Key = { List ℕ };

    ghost key = { key_part };

    ghost table = { λ _ s. meta_rows s };

    ghost entries = { meta_info };

    const FEATURE: u32 = Feature::SIMPLEPERF_META_INFO.0;

    #[tactic(auto, using(crate::proofs::MetaTied::info_tied))]
    fn read(section: Section<'_>, rows: &mut [Row]) -> Result<Option<usize>, Refusal> {
        let texts = Texts {
            section: section.bytes,
        };
        let mut builder = TableBuilder::start(texts, rows);
        let mut at = 0;
        while let Some(row) = read_pair(section, at)? {
            builder.add(row);
            at = row.value_at as usize + row.value_len as usize + 1;
        }
        Ok(builder.finish())
    }
}

// The keys with their values by rising keys, in the first rows; the others are blank. Where a key is given again, the later
// value stands. All rows are blank where there is no section, after a fault, and where the keys are more than the rows.
pub fn meta_info<'a, S: Store<'a>>(store: &S, rows: &mut [Row]) -> Result<Option<usize>, Refusal>
    ensures answer { answered (λ n. n) result ≡ question (λ o s. counted (within 129 (length rows.old) (meta_info o s))) (S.endian store.now) ((S.map store.now).at 129) }
    ensures after { rows.new ≡ laid_for (length rows.old) (question (λ _ s. meta_rows s) (S.endian store.now) ((S.map store.now).at 129)) }
    ensures entries { answered (entries_in (key_part (bytes_in ((S.map store.now).at 129))) (bytes_in ((S.map store.now).at 129)) rows.new) result ≡ question (λ o s. within 129 (length rows.old) (meta_info o s)) (S.endian store.now) ((S.map store.now).at 129) }
    ensures last { AnswersLast texts (question (λ _ s. meta_pairs s) (S.endian store.now) ((S.map store.now).at 129)) (answered (entries_in (key_part (bytes_in ((S.map store.now).at 129))) (bytes_in ((S.map store.now).at 129)) rows.new) result) }
{
    table_of::<MetaInfo, S>(store, rows)
}

// The entry that a row stands for; none where the store has no such section. Key and value are parts of the section.
pub fn meta_entry<'a, S: Store<'a>>(store: &S, row: &Row) -> Option<MetaEntry<'a>>
    ensures { mapped of_meta result ≡ mapped (λ s. entry_of (key_part s) s row.now) ((S.map store.now).at 129) }
{
    let section = store.section(MetaInfo::FEATURE)?;
    Some(MetaEntry {
        key: row.key(section),
        value: row.value(section),
    })
}
