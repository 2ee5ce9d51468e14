// The numbers and texts that symbol records are made of.
ghost use Rattle.std.specs.Prelude.{◌≡◌, ◌-◌, length};
ghost use Rattle.simpleperf.specs.Got.{got_of, number_got, text_got};
ghost use Rattle.simpleperf.specs.Parse.{number_or};
ghost use Rattle.simpleperf.specs.Reading.{SameRecord};
ghost use Rattle.simpleperf.specs.Tables.{fault_at, u32_in, u64_in, text_in, count_in};

use text::strings::{as_text, before_nul};
use wire::order::{ByteOrder, Number, tail};
use wire::refusal::Refusal;

// Reads from the front of the bytes that are left of a record or a section. What it read is left no more; where it refuses,
// nothing is said of what is left.
#[derive(Clone, Copy)]
pub struct Reader<'a> {
    pub(crate) order: ByteOrder,
    // of the whole record or section: it and the bytes that are left tell the offset
    pub(crate) size: u32,
    pub(crate) rest: &'a [u8],
}

impl<'a> Reader<'a> {
    // The offset of the next byte.
    pub(crate) fn offset(&self) -> u32
        ensures { result ≡ self.now.size - length self.now.rest.now }
    {
        (self.size as usize).saturating_sub(self.rest.len()) as u32
    }

    // The number that is next.
    fn number<N: Number>(&mut self) -> Result<N, Refusal>
        ensures reads { got_of N.value result self.new.rest.now ≡ number_or (fault_at 11 self.old.size self.old.rest.now) self.old.order N.WIDTH self.old.rest.now }
        ensures record { SameRecord self.old self.new }
    {
        let at = self.offset();
        let n = N::read(self.order, self.rest).ok_or(Refusal::SymbolRecordCutShort { at })?;
        self.rest = tail(self.rest, N::WIDTH);
        Ok(n)
    }

    pub(crate) fn u32(&mut self) -> Result<u32, Refusal>
        ensures reads { number_got result self.new.rest.now ≡ u32_in self.old.order self.old.size self.old.rest.now }
        ensures record { SameRecord self.old self.new }
    {
        self.number()
    }

    pub(crate) fn u64(&mut self) -> Result<u64, Refusal>
        ensures reads { number_got result self.new.rest.now ≡ u64_in self.old.order self.old.size self.old.rest.now }
        ensures record { SameRecord self.old self.new }
    {
        self.number()
    }

    // A text that ends before its NUL.
    pub(crate) fn text(&mut self) -> Result<&'a str, Refusal>
        ensures reads { text_got result self.new.rest.now ≡ text_in self.old.size self.old.rest.now }
        ensures record { SameRecord self.old self.new }
    {
        let at = self.offset();
        let bytes = before_nul(self.rest);
        if bytes.len() == self.rest.len() {
            return Err(Refusal::NoNul { at });
        }
        let text = as_text(bytes).ok_or(Refusal::IllFormedSymbolText { at })?;
        self.rest = tail(self.rest, bytes.len() + 1);
        Ok(text)
    }

    // A count of items that follow it, each of a byte at least.
    pub(crate) fn count(&mut self) -> Result<u32, Refusal>
        ensures reads { number_got result self.new.rest.now ≡ count_in self.old.order self.old.size self.old.rest.now }
        ensures record { SameRecord self.old self.new }
    {
        let at = self.offset();
        let count = self.u32()?;
        if count as usize > self.rest.len() {
            return Err(Refusal::CountTooLarge { at });
        }
        Ok(count)
    }
}
