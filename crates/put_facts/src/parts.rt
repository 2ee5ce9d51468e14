// The parts that facts are written of.
ghost use Rattle.std.specs.Prelude.{◌+◌};
ghost use Rattle.put.specs.Appends.{Appends};
ghost use Rattle.facts.specs.Written.{u16, u32, text_bytes, ended, id_bytes};

use build_ids::build_id_event::LONGEST_ID;
use put::Writer;

// How many numbers there are of a byte, of two, and of four.
const BYTE_NUMBERS: usize = 0x100;

const SHORT_NUMBERS: usize = 0x1_0000;

const WORD_NUMBERS: usize = 0x1_0000_0000;

// A length in four bytes, by its low 32 bits.
pub(crate) fn put_len(len: usize, w: &mut Writer<'_>)
    ensures { Appends (u32 len) w.old w.new }
{
    w.put_number((len % WORD_NUMBERS) as u32);
}

// A base and a number on top of it, in two bytes, by the low 16 bits of their sum.
pub(crate) fn put_above(base: u16, n: usize, w: &mut Writer<'_>)
    ensures { Appends (u16 (base + n)) w.old w.new }
{
    w.put_number(((usize::from(base) + n % SHORT_NUMBERS) % SHORT_NUMBERS) as u16);
}

// A header text: its length and the text.
pub(crate) fn put_text(text: &[u8], w: &mut Writer<'_>)
    ensures { Appends (text_bytes text.now) w.old w.new }
{
    put_len(text.len(), w);
    w.put(text);
}

// A text and the NUL that ends it.
pub(crate) fn put_ended(text: &[u8], w: &mut Writer<'_>)
    ensures { Appends (ended text.now) w.old w.new }
{
    w.put(text);
    w.put(&[0]);
}

// The zeros that stand behind an empty id.
const ZEROS: [u8; LONGEST_ID] = [0; LONGEST_ID];

// An id in its 24 bytes: zeros up to the 20th, the id's length, three zeros.
pub(crate) fn put_id(id: &[u8], w: &mut Writer<'_>)
    ensures { Appends (id_bytes id.now) w.old w.new }
{
    w.put(id);
    w.put(&ZEROS[..LONGEST_ID.saturating_sub(id.len())]);
    w.put(&[(id.len() % BYTE_NUMBERS) as u8, 0, 0, 0]);
}
