// The shelf and the memory that is lent for every filing, and what is done with them.
ghost use Rattle.std.specs.Prelude.{◌≡◌, IfOk, Ok, length, min, replicate};
ghost use Rattle.facts.specs.Head.{head_of, outcome};
ghost use Rattle.image.specs.Index.{section_in};
ghost use Rattle.image.specs.Kinds.{index_of};
ghost use Rattle.shelf.specs.Calls.{file_answer, file_after, head_for};
ghost use Rattle.shelf.specs.Sizes.{held as held_of};
ghost use Rattle.desk.specs.Calls.{first_number, if_number, head_given, opened_answer, opened_shelf, filed_answer, filed_after, released_answer, released_after, counted_answer, shown_answer};

use crate::request::{Filing, Lent, MOST_ROWS, Opening};
use image::kinds::Image;
use shelf::shelf::{LONGEST_STRIP, MOST_STRIPS, Shelf};
use std::alloc::{AllocError, Global};
use std::marker::Model;
use table::row::Row;
use wire::refusal::Refusal;

// What an opening has where nothing is said.
pub const USUAL: Opening = Opening {
    strip: LONGEST_STRIP,
    first: 1,
    bytes: MOST_BYTES,
};

// More bytes would hold no more.
const MOST_BYTES: usize = MOST_STRIPS * LONGEST_STRIP;

// What a filing has where nothing is said.
const USUAL_LENT: Lent = Lent {
    rows: 4_096,
    work: MOST_WORK,
};

// As long as the longest head: more would not be used.
const MOST_WORK: usize = LONGEST_STRIP;

// Room for every head that is shown.
pub const MOST_ROOM: usize = LONGEST_STRIP;

// A shelf, with rows and work bytes.
#[derive(Drop)]
pub struct Desk {
    shelf: Shelf,
    rows: Vec<Row>,
    work: Vec<u8>,
}

// Clauses see what its shelf holds.
impl Model for Desk {
    ghost use Rattle.shelf.specs.Contents.{Contents};

    ghost Value = { Contents };

    ghost use Rattle.desk.specs.Contents.{shelf_contents, HasMemory};

    ghost view = { shelf_contents };

    ghost invariant = { HasMemory };
}

// The group of that number. Above the numbers of 32 bits there is none, so none is held.
fn group_of(number: u64) -> Result<u32, Refusal>
    ensures { outcome result ≡ if_number «number» (Ok «number») }
{
    u32::try_from(number).map_err(|_| Refusal::GroupNotHeld)
}

// So many bytes, all 0.
fn zeros(heap: Global, n: usize) -> Result<Vec<u8>, AllocError>
    ensures { IfOk result (λ v. v.items ≡ replicate n 0) }
{
    vec![in heap; 0u8; n]
}

// Files a store, with the first of the rows and work bytes, as many as are lent and there are.
fn file_store(
    shelf: &mut Shelf,
    store: &Image<'_>,
    rows: &mut [Row],
    work: &mut [u8],
    lent: Lent,
) -> Result<u32, Refusal>
    ensures answer { outcome result ≡ file_answer shelf.old (head_for shelf.old (min lent.work (length work.old)) (head_of (min lent.rows (length rows.old)) (index_of store.now).order (section_in (index_of store.now)))) }
    ensures after { shelf.new ≡ file_after shelf.old (head_for shelf.old (min lent.work (length work.old)) (head_of (min lent.rows (length rows.old)) (index_of store.now).order (section_in (index_of store.now)))) }
    ensures rows { length rows.new ≡ length rows.old }
    ensures work { length work.new ≡ length work.old }
{
    let given = lent.rows.min(rows.len());
    let space = lent.work.min(work.len());
    shelf.file(store, &mut rows[..given], &mut work[..space])
}

// The first number of a shelf, which judges it: 0 is out of its bounds, as a number above those of 32 bits is.
fn first_number(number: u64) -> u32
    ensures { result ≡ first_number «number» }
{
    u32::try_from(number).unwrap_or(0)
}

impl Desk {
    // A desk with a new shelf, and what the shelf's opening answers. There is a shelf in every case.
    pub fn open(heap: Global, opening: Opening) -> Result<(Desk, Result<(), Refusal>), AllocError>
        ensures answer { IfOk result (λ r. outcome r.1 ≡ opened_answer opening) }
        ensures shelf { IfOk result (λ r. r.0 ≡ opened_shelf opening) }
    {
        let bytes = zeros(heap, opening.bytes.min(MOST_BYTES))?;
        let rows = vec![in heap; Row::BLANK; MOST_ROWS]?;
        let work = zeros(heap, MOST_WORK)?;
        let first = first_number(opening.first);
        let (shelf, answer) = Shelf::open(opening.strip, first, bytes);
        let desk = Desk { shelf, rows, work };
        Ok((desk, answer))
    }

    // The number of strips of its shelf.
    pub fn strips(&self) -> usize
        ensures { result ≡ length self.now.rows }
    {
        self.shelf.strips()
    }

    // The number of groups that are held.
    pub fn held(&self) -> usize
        ensures { result ≡ held_of self.now.rows }
    {
        self.shelf.held()
    }

    // Files the recording that some bytes are, with as many rows and work bytes as it asks for and there are.
    pub fn file(&mut self, filing: Filing<'_>, image: &[u8]) -> Result<u32, Refusal>
        ensures answer { outcome result ≡ filed_answer self.old filing.entry.lent image.now }
        ensures after { self.new ≡ filed_after self.old filing.entry.lent image.now }
    {
        let store = Image::open(image)?;
        let lent = filing.lent.unwrap_or(USUAL_LENT);
        file_store(
            &mut self.shelf,
            &store,
            &mut self.rows,
            &mut self.work,
            lent,
        )
    }

    // Takes back a filing of the group.
    pub fn release(&mut self, group: u64) -> Result<(), Refusal>
        ensures answer { outcome result ≡ released_answer self.old group }
        ensures after { self.new ≡ released_after self.old group }
    {
        self.shelf.release(group_of(group)?)
    }

    // How many filings of the group have not been released.
    pub fn count(&self, group: u64) -> Result<u32, Refusal>
        ensures { outcome result ≡ counted_answer self.now group }
    {
        self.shelf.count(group_of(group)?)
    }

    // The head of a group, where there is room for it in the buffer.
    pub fn show<'out>(
        &self,
        group: u64,
        room: Option<usize>,
        out: &'out mut [u8],
    ) -> Result<&'out [u8], Refusal>
        ensures { head_given result ≡ shown_answer self.now group room (length out.old) }
    {
        let room = room.unwrap_or(out.len()).min(out.len());
        let len = self.shelf.show(group_of(group)?, &mut out[..room])?;
        Ok(&out[..len])
    }
}
