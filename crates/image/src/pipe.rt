// The pipe image: the mark, the u64 16, and then records of a u32 type, a u16 misc and a u16 size of the whole record.
// A record of type 80 carries a section: a u64 feature number, and the bytes after it. The last record for a number stands.
ghost use Rattle.std.specs.Prelude.{◌≡◌, ◌<◌, ◌≤◌, length, IfSome};
ghost use Rattle.image.specs.Laid.{PipeLaid};
ghost use Rattle.image.specs.Index.{image_meaning};
ghost use Rattle.image.specs.Pipe.{pipe_front, pipe_image};

use crate::mark::marked;
use crate::opened::{Opened, sized};
use crate::run::{Entries, EntryRun, Front};
use wire::order::{ByteOrder, tail};
use wire::refusal::Refusal;

// The bytes of the mark and of the u64 after it, which says how many they are.
pub(crate) const HEADER_SIZE: usize = 16;

// The bytes that every record begins with, and those before the section of one that carries a section.
const RECORD_SIZE: usize = 8;

const SECTION_AT: usize = 16;

// The type of a record that carries a section.
const FEATURE_RECORD: u32 = 80;

// The records of a pipe image.
#[derive(Clone, Copy)]
struct Records {
    order: ByteOrder,
}

impl Entries for Records {
    ghost front = { λ r. pipe_front r.order };

    ghost number = { 5 };

    fn front(&self, before: Option<u64>, s: &[u8]) -> Option<Front> {
        let kind = self.order.u32(s)?;
        let size = usize::from(self.order.u16(tail(s, 6))?);
        if size < RECORD_SIZE || size > s.len() {
            return None;
        }
        if kind != FEATURE_RECORD {
            return Some(Front {
                feature: None,
                skip: SECTION_AT,
                size,
            });
        }
        if size < SECTION_AT {
            return None;
        }
        Some(Front {
            feature: self.order.u64(tail(s, 8)),
            skip: SECTION_AT,
            size,
        })
    }

    fn refusal(at: u32) -> Refusal {
        Refusal::BadRecord { at }
    }
}

// A pipe image, every record of which has been looked at.
#[derive(Clone, Copy)]
pub struct Pipe;

// A pipe image that is open.
pub type PipeImage<'a> = Opened<'a, Pipe>;

impl<'a> Opened<'a, Pipe> {
    // Opens a pipe image, or says where it is none.
    pub fn open(image: &'a [u8]) -> Result<PipeImage<'a>, Refusal>
        ensures means { image_meaning result ≡ pipe_image image.now }
        ensures laid { PipeLaid image.now (image_meaning result) }
    {
        Self::read(image)
    }

    fn read(image: &'a [u8]) -> Result<PipeImage<'a>, Refusal>
        ensures { image_meaning result ≡ pipe_image image.now }
    {
        sized(image, HEADER_SIZE)?;
        let order = marked(image, HEADER_SIZE as u64).ok_or(Refusal::WrongMark)?;
        let run = EntryRun {
            order,
            image,
            from: HEADER_SIZE,
        };
        let index = run.index(&Records { order })?;
        Ok(Opened::new(index))
    }
}
