// Answers that are rows of a table.
ghost use Rattle.std.specs.Prelude.{◌≡◌, ℕ, List, ◌++◌, OnOk, take, length};
ghost use Rattle.std.specs.String.{string_bytes};
ghost use Rattle.std.specs.List.{flat_map};
ghost use Rattle.table.specs.declared.row.Row.{Row as Place};
ghost use Rattle.section_store.specs.Sections.{features_of};
ghost use Rattle.answers.specs.Rows.{pmu_row_text, meta_row_text, build_row_text, rows_text, pmu_text, meta_text, builds_text};
ghost use Rattle.answers.specs.Answers.{answer_text};
ghost use Rattle.perf_data.specs.Questions.{answered};
ghost use Rattle.mappings.specs.Tables.{bytes_in};

use crate::names::write_key;
use crate::told::Told;
use build_ids::builds::Builds;
use build_ids::perf_file::build_ids;
use dso_key::dso_key::DsoKey;
use hexadecimal::Hex;
use image::store::Store;
use mappings::meta_info::{meta_entry, meta_info};
use mappings::pmu_mappings::{pmu_entry, pmu_mappings};
use perf_data::features::Feature;
use section_store::SectionStore;
use std::alloc::AllocError;
use table::row::Row;
use wire::refusal::Refusal;

// A table, by how its rows are read and how one of them is written.
pub trait Table: Copy {
    // The words of a row's entry.
    ghost row_text: { Self → Place → List ℕ };

    // The answer, where so many rows are lent.
    ghost table_text: { Self → ℕ → List ℕ };

    // How many rows are used, if the table is there.
    fn read(self, rows: &mut [Row]) -> Result<Option<usize>, Refusal>
        ensures { answer_text (λ n. rows_text (row_text self) (take n rows.new)) (answered (λ n. n) result) ≡ table_text self (length rows.old) };

    // Writes the entry of a row.
    fn write_row(self, out: &mut String, row: &Row) -> Result<(), AllocError>
        ensures { OnOk result (string_bytes out.new ≡ string_bytes out.old ++ row_text self row.now) };
}

// The pmu names of a store.
#[derive(Clone, Copy)]
pub struct PmuTable<'a>(pub SectionStore<'a>);

impl Table for PmuTable<'_> {
    ghost row_text = { λ table row. pmu_row_text ((features_of table.0).at 16) row };

    ghost table_text = { λ table n. pmu_text table.0.order ((features_of table.0).at 16) n };

    fn read(self, rows: &mut [Row]) -> Result<Option<usize>, Refusal> {
        pmu_mappings(&self.0, rows)
    }

    fn write_row(self, out: &mut String, row: &Row) -> Result<(), AllocError> {
        let Some(entry) = pmu_entry(&self.0, row) else {
            return Ok(());
        };
        write!(out, " {}:x{}", entry.number, Hex(entry.name))
    }
}

// The meta info of a store.
#[derive(Clone, Copy)]
pub struct MetaTable<'a>(pub SectionStore<'a>);

impl Table for MetaTable<'_> {
    ghost row_text = { λ table row. meta_row_text ((features_of table.0).at 129) row };

    ghost table_text = { λ table n. meta_text table.0.order ((features_of table.0).at 129) n };

    fn read(self, rows: &mut [Row]) -> Result<Option<usize>, Refusal> {
        meta_info(&self.0, rows)
    }

    fn write_row(self, out: &mut String, row: &Row) -> Result<(), AllocError> {
        let Some(entry) = meta_entry(&self.0, row) else {
            return Ok(());
        };
        write!(out, " x{}:x{}", Hex(entry.key), Hex(entry.value))
    }
}

// The build that a row stands for. Every row of a table has a key.
fn write_build(out: &mut String, builds: Builds<'_>, row: &Row) -> Result<(), AllocError>
    ensures { OnOk result (string_bytes out.new ≡ string_bytes out.old ++ build_row_text builds.entry.section.now row.now) }
{
    let key = builds.key(row).unwrap_or(DsoKey::Kernel);
    write!(out, " ")?;
    write_key(out, key, ":")?;
    write!(out, ":x{}:x{}", Hex(builds.path(row)), Hex(builds.id(row)))
}

// The build ids of a store.
#[derive(Clone, Copy)]
pub struct BuildTable<'a>(pub SectionStore<'a>);

impl Table for BuildTable<'_> {
    ghost row_text = { λ table row. build_row_text (bytes_in ((features_of table.0).at 2)) row };

    ghost table_text = { λ table n. builds_text table.0.order ((features_of table.0).at 2) n };

    fn read(self, rows: &mut [Row]) -> Result<Option<usize>, Refusal> {
        build_ids(&self.0, rows)
    }

    fn write_row(self, out: &mut String, row: &Row) -> Result<(), AllocError> {
        let section = self.0.section(Feature::BUILD_ID.0).unwrap_or(&[]);
        write_build(out, Builds { section }, row)
    }
}

fn write_rows<T: Table>(out: &mut String, table: T, rows: &[Row]) -> Result<(), AllocError>
    ensures { OnOk result (string_bytes out.new ≡ string_bytes out.old ++ flat_map (T.row_text table) rows.now) }
{
    for row in rows {
        table.write_row(out, row)?;
    }
    Ok(())
}

// The rows that a table uses.
#[derive(Clone, Copy)]
pub struct TableRows<'r, T> {
    table: T,
    rows: &'r [Row],
}

impl<T: Table> Told for TableRows<'_, T> {
    ghost text = { λ t. rows_text (T.row_text t.table) t.rows.now };

    fn write(self, out: &mut String) -> Result<(), AllocError> {
        write!(out, "rows {}", self.rows.len())?;
        write_rows(out, self.table, self.rows)
    }
}

// Those rows, by what a question for a table answers.
pub(crate) fn used_rows<T: Table>(
    used: Result<Option<usize>, Refusal>,
    table: T,
    rows: &[Row],
) -> Result<Option<TableRows<'_, T>>, Refusal>
    ensures { answer_text (λ t. rows_text (T.row_text t.table) t.rows.now) (answered (λ t. t) result) ≡ answer_text (λ n. rows_text (T.row_text table) (take n rows.now)) (answered (λ n. n) used) }
{
    Ok(used?.map(|used| TableRows {
        table,
        rows: &rows[..used.min(rows.len())],
    }))
}
