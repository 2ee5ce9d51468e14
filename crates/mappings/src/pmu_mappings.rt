// PMU_MAPPINGS, feature 16: the kernel's numbers of performance monitoring units, with their names.
ghost use Rattle.std.specs.Prelude.{◌≡◌, ◌-◌, ◌≤◌, ℕ, length};
ghost use Rattle.wire.specs.Faults.{fault_of};
ghost use Rattle.mappings.specs.PmuMappings.{cut, item_at, item_read, name_row, past_text, key_of, pmu_rows, pmu_items, pmu_names};
ghost use Rattle.mappings.specs.Tables.{counted, within, laid_for, entries_in, bytes_in, AnswersLast};
ghost use Rattle.perf_data.specs.Questions.{question, answered, mapped};
ghost use Rattle.table.specs.Order.{numbers};
ghost use Rattle.table.specs.Rows.{entry_of};
ghost use Rattle.mappings.specs.Entries.{of_pmu};

use crate::mapping::{Mapping, table_of};
use image::section::Section;
use image::store::Store;
use perf_data::features::Feature;
use table::builder::TableBuilder;
use table::kind::Numbers;
use table::row::Row;
use text::strings::{TextFault, read_string};
use wire::order::{ByteOrder, tail};
use wire::refusal::Refusal;

// What an item gives, and what follows it: the row of its name, unless that is ill formed.
#[derive(Clone, Copy)]
struct Item<'a> {
    row: Option<Row>,
    rest: &'a [u8],
}

// A number with its name.
#[derive(Clone, Copy)]
pub struct PmuEntry<'a> {
    pub number: u32,
    pub name: &'a [u8],
}

// A number, or a name, that does not end within the section.
fn cut_short(at: u32) -> Refusal
    ensures { fault_of result ≡ cut at }
{
    Refusal::CutShort {
        feature: PmuMappings::FEATURE,
        at,
    }
}

// What follows a header text, whether it is well formed or not.
fn past_text(order: ByteOrder, s: &[u8]) -> &[u8]
    ensures { result.now ≡ past_text order s.now }
{
    let len = order.u32(s).unwrap_or(0);
    tail(tail(s, 4), len as usize)
}

// The item that the rest of a section begins with.
fn read_item<'a>(section: Section<'a>, rest: &'a [u8]) -> Result<Item<'a>, Refusal>
    requires { length rest.now ≤ length section.bytes.now }
    ensures { item_read result ≡ item_at name_row section.entry.order (length section.entry.bytes.now - length rest.now) rest.now }
{
    let at = section.bytes.len() - rest.len();
    let Some(number) = section.order.u32(rest) else {
        return Err(cut_short(at as u32));
    };
    let text = tail(rest, 4);
    match read_string(section.order, text) {
        Ok((name, rest)) => {
            let row = Row {
                number,
                key_at: 0,
                key_len: 0,
                value_at: (at + 8) as u32,
                value_len: name.len() as u32,
            };
            Ok(Item {
                row: Some(row),
                rest,
            })
        }
        Err(TextFault::ShortLength) => Err(cut_short(at as u32 + 4)),
        Err(TextFault::PastEnd) => Err(cut_short(at as u32 + 8)),
        Err(TextFault::IllFormed) => Ok(Item {
            row: None,
            rest: past_text(section.order, text),
        }),
    }
}

pub(crate) struct PmuMappings;

impl Mapping for PmuMappings {
    ghost FEATURE = { 16 };

    ghost Key = { ℕ };

    ghost key = { λ _. key_of };

    ghost table = { pmu_rows };

    ghost entries = { pmu_names };

    const FEATURE: u32 = Feature::PMU_MAPPINGS.0;

    #[tactic(auto, using(crate::proofs::PmuTied::names_tied))]
    fn read(section: Section<'_>, rows: &mut [Row]) -> Result<Option<usize>, Refusal> {
        let Some(count) = section.order.u32(section.bytes) else {
            return Err(cut_short(0));
        };
        let mut builder = TableBuilder::start(Numbers, rows);
        let mut rest = tail(section.bytes, 4);
        for _ in 0..count {
            let item = read_item(section, rest)?;
            if let Some(row) = item.row {
                builder.add(row);
            }
            rest = item.rest;
        }
        Ok(builder.finish())
    }
}

// The names by rising numbers, in the first rows; the others are blank. Where a number is given again, the later name
// stands. All rows are blank where there is no section, after a fault, and where the names are more than the rows.
pub fn pmu_mappings<'a, S: Store<'a>>(store: &S, rows: &mut [Row]) -> Result<Option<usize>, Refusal>
    ensures answer { answered (λ n. n) result ≡ question (λ o s. counted (within 16 (length rows.old) (pmu_names o s))) (S.endian store.now) ((S.map store.now).at 16) }
    ensures after { rows.new ≡ laid_for (length rows.old) (question pmu_rows (S.endian store.now) ((S.map store.now).at 16)) }
    ensures entries { answered (entries_in key_of (bytes_in ((S.map store.now).at 16)) rows.new) result ≡ question (λ o s. within 16 (length rows.old) (pmu_names o s)) (S.endian store.now) ((S.map store.now).at 16) }
    ensures last { AnswersLast numbers (question pmu_items (S.endian store.now) ((S.map store.now).at 16)) (answered (entries_in key_of (bytes_in ((S.map store.now).at 16)) rows.new) result) }
{
    table_of::<PmuMappings, S>(store, rows)
}

// The entry that a row stands for; none where the store has no such section. The name is a part of the section.
pub fn pmu_entry<'a, S: Store<'a>>(store: &S, row: &Row) -> Option<PmuEntry<'a>>
    ensures { mapped of_pmu result ≡ mapped (λ s. entry_of key_of s row.now) ((S.map store.now).at 16) }
{
    let section = store.section(PmuMappings::FEATURE)?;
    Some(PmuEntry {
        number: row.number,
        name: row.value(section),
    })
}
