// The offsets of the dex files in a file.
ghost use Rattle.std.specs.Prelude.{ℕ};
ghost use Rattle.simpleperf.specs.Tables.{u64_in};

use crate::list::{ItemList, Listed};
use crate::reader::Reader;
use wire::refusal::Refusal;

// A list of dex offsets is a list of these.
#[derive(Clone, Copy)]
pub struct Offsets;

// Dex offsets, one after another.
pub type OffsetList<'a> = ItemList<'a, Offsets>;

impl<'a> Listed<'a> for Offsets {
    type Item = u64;

    ghost Value = { ℕ };

    ghost value = { λ n. n };

    ghost reading = { u64_in };

    fn read(reader: &mut Reader<'a>) -> Result<u64, Refusal> {
        reader.u64()
    }
}
