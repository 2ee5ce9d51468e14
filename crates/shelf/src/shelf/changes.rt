// The changes at one place of a shelf.
ghost use Rattle.std.specs.Prelude.{◌≡◌, ◌<◌, length};
ghost use Rattle.table.specs.Rows.{blanks};
ghost use Rattle.facts.specs.Head.{head_of, fitted, length_of, outcome};
ghost use Rattle.shelf.specs.Contents.{row_in, put, blank};
ghost use Rattle.shelf.specs.Calls.{recount};
ghost use Rattle.shelf.specs.Keeping.{with_zeros, kept_at, number_if};
ghost use Rattle.shelf.specs.Stands.{StandsAt};

use super::{FREE, Group, Held, Shelf};
use head::head::write_head;
use image::store::Store;
use table::row::Row;
use wire::refusal::Refusal;

// Makes the head of a store in a strip, with 0 behind it, and answers its length.
fn fill_strip<'a, S: Store<'a>>(
    store: &S,
    rows: &mut [Row],
    strip: &mut [u8],
) -> Result<usize, Refusal>
    ensures answer { outcome result ≡ length_of (fitted (length strip.old) (head_of (length rows.old) (S.endian store.now) (S.map store.now).at)) }
    ensures after { strip.new ≡ with_zeros (fitted (length strip.old) (head_of (length rows.old) (S.endian store.now) (S.map store.now).at)) strip.old }
    ensures rows { rows.new ≡ blanks (length rows.old) }
{
    let len = write_head(store, rows, strip)?;
    strip[len..].fill(0);
    Ok(len)
}

impl Shelf {
    // A group that is held has this count.
    pub(crate) fn recount(&mut self, held: Held, count: u32)
        requires { StandsAt self.old held.place held.group }
        ensures { self.new ≡ put self.old held.place (recount (row_in self.old held.place) count) }
    {
        self.groups[held.place].count = count;
    }

    // Frees a place, and writes 0 into its strip.
    pub(crate) fn clear(&mut self, i: usize)
        requires { i < length self.old.rows }
        ensures { self.new ≡ put self.old i (blank self.old.strip) }
    {
        let from = i * self.strip;
        self.bytes[from..from + self.strip].fill(0);
        self.groups[i] = FREE;
    }

    // Makes the head of a store in the strip at a place, for a new group with the next number. Where there is no head that
    // fits, nothing is changed.
    pub(crate) fn keep<'a, S: Store<'a>>(
        &mut self,
        store: &S,
        rows: &mut [Row],
        i: usize,
        number: u32,
    ) -> Result<u32, Refusal>
        requires place { i < length self.old.rows }
        requires number { number ≡ self.old.next }
        ensures answer { outcome result ≡ number_if number (fitted self.old.strip (head_of (length rows.old) (S.endian store.now) (S.map store.now).at)) }
        ensures after { self.new ≡ kept_at self.old i (fitted self.old.strip (head_of (length rows.old) (S.endian store.now) (S.map store.now).at)) }
        ensures rows { rows.new ≡ blanks (length rows.old) }
    {
        let from = i * self.strip;
        let len = fill_strip(store, rows, &mut self.bytes[from..from + self.strip])?;
        self.groups[i] = Group {
            number,
            count: 1,
            len,
        };
        self.next = number.checked_add(1);
        Ok(number)
    }
}
