// The rows of each table, as a head has them.
ghost use Rattle.std.specs.Prelude.{ℕ, List, []};
ghost use Rattle.facts.specs.Written.{u32, name_bytes, pair_bytes};
ghost use Rattle.mappings.specs.PmuMappings.{key_of};
ghost use Rattle.put.specs.Appends.{Appends};
ghost use Rattle.put_facts.specs.Builds.{row_bytes};
ghost use Rattle.table.specs.Rows.{key_part, entry_of};
ghost use Rattle.table.specs.declared.row.Row.{Row as Rows};

use crate::parts::{put_above, put_ended, put_id, put_len, put_text};
use build_ids::build_id_event::{LENGTH_WRITTEN, PATH_AT};
use build_ids::builds::Builds;
use put::Writer;
use table::kind::Texts;
use table::row::Row;

// What the rows of a table stand for.
pub(crate) trait Line {
    // What stands before so many rows, and what a row is written as.
    ghost front: { ℕ → List ℕ };

    ghost line: { Self → Rows → List ℕ };

    fn put_front(&self, count: usize, w: &mut Writer<'_>)
        ensures { Appends (front count) w.old w.new };

    fn put_row(&self, row: &Row, w: &mut Writer<'_>)
        ensures { Appends (line self.now row.now) w.old w.new };
}

// A PMU's number with its name.
#[derive(Clone, Copy)]
pub(crate) struct Names<'a> {
    pub section: &'a [u8],
}

impl Line for Names<'_> {
    ghost front = { u32 };

    ghost line = { λ s row. name_bytes (entry_of key_of s.section.now row) };

    fn put_front(&self, count: usize, w: &mut Writer<'_>) {
        put_len(count, w);
    }

    fn put_row(&self, row: &Row, w: &mut Writer<'_>) {
        w.put_number(row.number);
        put_text(row.value(self.section), w);
    }
}

// A key with its value.
impl Line for Texts<'_> {
    ghost front = { λ _. [] };

    ghost line = { λ s row. pair_bytes (entry_of (key_part s.section.now) s.section.now row) };

    fn put_front(&self, _count: usize, _w: &mut Writer<'_>) {}

    fn put_row(&self, row: &Row, w: &mut Writer<'_>) {
        put_ended(row.key(self.section), w);
        put_ended(row.value(self.section), w);
    }
}

const BUILD_ID_TYPE: u32 = 67;

const NO_PROCESS: u32 = 0;

impl Line for Builds<'_> {
    ghost front = { λ _. [] };

    ghost line = { λ s row. row_bytes s.section.now row };

    fn put_front(&self, _count: usize, _w: &mut Writer<'_>) {}

    fn put_row(&self, row: &Row, w: &mut Writer<'_>) {
        let path = self.path(row);
        w.put_number(BUILD_ID_TYPE);
        put_above(LENGTH_WRITTEN, row.number as usize, w);
        put_above(PATH_AT as u16, path.len(), w);
        w.put_number(NO_PROCESS);
        put_id(self.id(row), w);
        w.put(path);
    }
}
