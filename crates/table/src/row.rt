// A row of a table: numbers alone, so that the memory of rows can be lent again for the next recording.
ghost use Rattle.std.specs.Prelude.{◌≡◌, length};
ghost use Rattle.table.specs.Rows.{part as part_of, key_part, value_part, blanks};

// A number, and two parts of a section by their place and length in it. What they are is for the kind of key to say. A
// blank row is all 0.
// Slices in place of the numbers would bind the caller's memory to one section.
#[derive(Clone, Copy, PartialEq, Eq, Debug)]
pub struct Row {
    pub number: u32,
    pub key_at: u32,
    pub key_len: u32,
    pub value_at: u32,
    pub value_len: u32,
}

// `len` bytes of a section from `at` on, or as many as there are.
fn part(section: &[u8], at: u32, len: u32) -> &[u8]
    ensures { result.now ≡ part_of section.now «at» len }
{
    let rest = section.get(at as usize..).unwrap_or(&[]);
    rest.get(..len as usize).unwrap_or(rest)
}

impl Row {
    // The row that stands for nothing.
    pub const BLANK: Row = Row {
        number: 0,
        key_at: 0,
        key_len: 0,
        value_at: 0,
        value_len: 0,
    };

    // The part of the section that is the row's key.
    pub fn key<'a>(&self, section: &'a [u8]) -> &'a [u8]
        ensures { result.now ≡ key_part section.now self.now }
    {
        part(section, self.key_at, self.key_len)
    }

    // The part of the section that is the row's value.
    pub fn value<'a>(&self, section: &'a [u8]) -> &'a [u8]
        ensures { result.now ≡ value_part section.now self.now }
    {
        part(section, self.value_at, self.value_len)
    }
}

// Blanks every row.
pub fn blank_all(rows: &mut [Row])
    ensures { rows.new ≡ blanks (length rows.old) }
{
    rows.fill(Row::BLANK);
}
