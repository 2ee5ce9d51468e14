// What a filing does: the head is made, gets a place, and is counted or kept there.
ghost use Rattle.std.specs.Prelude.{◌≡◌, ℕ, List, length, take, Ok};
ghost use Rattle.table.specs.Rows.{blanks};
ghost use Rattle.facts.specs.Head.{head_of, fitted, length_of, outcome};
ghost use Rattle.shelf.specs.Calls.{head_for, file_answer, file_after};

use super::Shelf;
use head::head::write_head;
use image::store::Store;
use table::row::Row;
use wire::refusal::Refusal;

impl Shelf {
    // Makes the head of a store at the front of the work bytes, and answers its length.
    fn make_head<'a, S: Store<'a>>(
        &self,
        store: &S,
        rows: &mut [Row],
        work: &mut [u8],
    ) -> Result<usize, Refusal>
        ensures answer { outcome result ≡ length_of (head_for self.now (length work.old) (head_of (length rows.old) (S.endian store.now) (S.map store.now).at)) }
        ensures made { (h : List ℕ) → head_for self.now (length work.old) (head_of (length rows.old) (S.endian store.now) (S.map store.now).at) ≡ Ok h → take (length h) work.new ≡ h }
        ensures rows { rows.new ≡ blanks (length rows.old) }
    {
        let given = work.len();
        let room = given.min(self.strip);
        let len = write_head(store, rows, &mut work[..room])?;
        if given < self.strip {
            return Err(Refusal::TooLittleRoom);
        }
        Ok(len)
    }

    // Counts one more filing of the group that keeps the store's head, or makes the head once more in a free strip, for a new
    // group; answers the group's number.
    fn settle<'a, S: Store<'a>>(
        &mut self,
        store: &S,
        rows: &mut [Row],
        head: &[u8],
    ) -> Result<u32, Refusal>
        requires made { fitted self.old.strip (head_of (length rows.old) (S.endian store.now) (S.map store.now).at) ≡ Ok head.now }
        requires rows { rows.old ≡ blanks (length rows.old) }
        ensures answer { outcome result ≡ file_answer self.old (Ok head.now) }
        ensures after { self.new ≡ file_after self.old (Ok head.now) }
        ensures rows { rows.new ≡ blanks (length rows.old) }
    {
        if let Some(held) = self.keeping(head) {
            let count = held.group.count.checked_add(1).ok_or(Refusal::CountFull)?;
            self.recount(held, count);
            return Ok(held.group.number);
        }
        let i = self.free_place().ok_or(Refusal::NoFreeStrip)?;
        let number = self.next.ok_or(Refusal::NumbersUsedUp)?;
        self.keep(store, rows, i, number)
    }

    // What `file` does, but for the work bytes.
    pub(crate) fn take_in<'a, S: Store<'a>>(
        &mut self,
        store: &S,
        rows: &mut [Row],
        work: &mut [u8],
    ) -> Result<u32, Refusal>
        ensures answer { outcome result ≡ file_answer self.old (head_for self.old (length work.old) (head_of (length rows.old) (S.endian store.now) (S.map store.now).at)) }
        ensures after { self.new ≡ file_after self.old (head_for self.old (length work.old) (head_of (length rows.old) (S.endian store.now) (S.map store.now).at)) }
        ensures rows { rows.new ≡ blanks (length rows.old) }
    {
        let len = self.make_head(store, rows, work)?;
        self.settle(store, rows, &work[..len])
    }
}
