// Rows of build ids: they go by the key that their path has in the mode of their number.
ghost use Rattle.std.specs.Prelude.{◌≡◌};
ghost use Rattle.std.specs.Option.{option_map};
ghost use Rattle.table.specs.Rows.{key_part, value_part};
ghost use Rattle.dso_key.specs.Keys.{Key as Keys, key_of};
ghost use Rattle.dso_key.specs.Order.{keys};
ghost use Rattle.build_ids.specs.Rows.{key_of_row, row_key};

use dso_key::cpu_mode::CpuMode;
use dso_key::dso_key::DsoKey;
use std::cmp::Ordering;
use table::kind::Kind;
use table::row::Row;

// The section that the rows are of.
#[derive(Clone, Copy)]
pub struct Builds<'a> {
    pub section: &'a [u8],
}

impl<'a> Builds<'a> {
    // The key of a row; every row of a table has one.
    pub fn key(&self, row: &Row) -> Option<DsoKey<'a>>
        ensures { option_map key_of result ≡ key_of_row self.now.section.now row.now }
    {
        DsoKey::detect(row.key(self.section), CpuMode::from(row.number))
    }

    // The path of a row.
    pub fn path(&self, row: &Row) -> &'a [u8]
        ensures { result.now ≡ key_part self.now.section.now row.now }
    {
        row.key(self.section)
    }

    // The build id of a row.
    pub fn id(&self, row: &Row) -> &'a [u8]
        ensures { result.now ≡ value_part self.now.section.now row.now }
    {
        row.value(self.section)
    }

    fn key_or_kernel(&self, row: &Row) -> DsoKey<'a>
        ensures { key_of result ≡ row_key self.now.section.now row.now }
    {
        self.key(row).unwrap_or(DsoKey::Kernel)
    }
}

impl Kind for Builds<'_> {
    ghost Key = { Keys };

    ghost order = { keys };

    ghost key = { λ kind row. row_key kind.section.now row };

    fn compare(&self, a: &Row, b: &Row) -> Ordering {
        self.key_or_kernel(a).cmp(&self.key_or_kernel(b))
    }
}
