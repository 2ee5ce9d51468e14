// The calls of a shelf. Each says what it did, and that the law stands after it, whatever happened before.
ghost use Rattle.std.specs.Prelude.{◌≡◌, [], length, replicate};
ghost use Rattle.table.specs.Rows.{blanks};
ghost use Rattle.facts.specs.Head.{head_of, ahead, length_of, outcome};
ghost use Rattle.shelf.specs.Calls.{open_answer, opening, head_for, file_answer, file_after, release_answer, release_after, count_answer, head_shown};
ghost use Rattle.shelf.specs.Histories.{Event, filing};
ghost use Rattle.shelf.specs.Law.{Continues, Goes};

use super::Shelf;
use super::opening::in_bounds;
use image::store::Store;
use table::row::Row;
use wire::refusal::Refusal;

impl Shelf {
    // A shelf over the bytes, which it keeps, with strips of `strip` bytes and numbers from `first` on. All bytes are made 0.
    // Refused with 37 where a value is out of its bounds: then the shelf has no strip, and its bytes are as they were.
    pub fn open(strip: usize, first: u32, bytes: Vec<u8>) -> (Shelf, Result<(), Refusal>)
        ensures answer { outcome result.1 ≡ open_answer strip first bytes.items }
        ensures shelf { result.0 ≡ opening strip first bytes.items }
        ensures law { Goes [] result.0 }
    {
        if in_bounds(strip, first, bytes.len()) {
            (Shelf::empty(strip, first, bytes), Ok(()))
        } else {
            (Shelf::without(bytes), Err(Refusal::BadOpening))
        }
    }

    // Files a store into the group that keeps its head, or into a new one, and answers the group's number. Accepted or
    // refused, all work bytes are 0 and all rows blank at the end; refused, the shelf is as it was.
    pub fn file<'a, S: Store<'a>>(
        &mut self,
        store: &S,
        rows: &mut [Row],
        work: &mut [u8],
    ) -> Result<u32, Refusal>
        ensures answer { outcome result ≡ file_answer self.old (head_for self.old (length work.old) (head_of (length rows.old) (S.endian store.now) (S.map store.now).at)) }
        ensures after { self.new ≡ file_after self.old (head_for self.old (length work.old) (head_of (length rows.old) (S.endian store.now) (S.map store.now).at)) }
        ensures rows { rows.new ≡ blanks (length rows.old) }
        ensures work { work.new ≡ replicate (length work.old) 0 }
        ensures law { Continues self.old (Event.filed (filing (length rows.old) (length work.old) (S.endian store.now) (S.map store.now)) (outcome result)) self.new }
    {
        let number = self.take_in(store, rows, work);
        work.fill(0);
        number
    }

    // Takes back a filing of the group. With the last one its strip is made 0, and is free.
    pub fn release(&mut self, group: u32) -> Result<(), Refusal>
        ensures answer { outcome result ≡ release_answer self.old group }
        ensures after { self.new ≡ release_after self.old group }
        ensures law { Continues self.old (Event.released group (outcome result)) self.new }
    {
        let held = self.place_of(group).ok_or(Refusal::GroupNotHeld)?;
        if held.group.count > 1 {
            self.recount(held, held.group.count - 1);
        } else {
            self.clear(held.place);
        }
        Ok(())
    }

    // How many filings of the group have not been released.
    pub fn count(&self, group: u32) -> Result<u32, Refusal>
        ensures answer { outcome result ≡ count_answer self.now group }
        ensures law { Continues self.now (Event.counted group (outcome result)) self.now }
    {
        let held = self.place_of(group).ok_or(Refusal::GroupNotHeld)?;
        Ok(held.group.count)
    }

    // Writes the group's head to the front of `out`, and answers its length. The other bytes are as they were.
    pub fn show(&self, group: u32, out: &mut [u8]) -> Result<usize, Refusal>
        ensures answer { outcome result ≡ length_of (head_shown self.now group (length out.old)) }
        ensures after { out.new ≡ ahead (head_shown self.now group (length out.old)) out.old }
        ensures law { Continues self.now (Event.shown group out.old (outcome result) out.new) self.now }
    {
        let held = self.place_of(group).ok_or(Refusal::GroupNotHeld)?;
        let head = self.head_at(held);
        if head.len() > out.len() {
            return Err(Refusal::TooLittleRoom);
        }
        out[..head.len()].copy_from_slice(head);
        Ok(head.len())
    }
}
