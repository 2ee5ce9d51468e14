// A writer, which a buffer is lent to.
ghost use Rattle.std.specs.Prelude.{◌≡◌, ◌^◌, ◌<◌, length};
ghost use Rattle.wire.specs.Numbers.{bytes_of};
ghost use Rattle.wire.specs.declared.order.ByteOrder.TheVariants.{Little};

use std::convert::AsSlice;
use wire::order::Number;

// A lent buffer, and the place in it from which the next bytes are put. With an empty buffer a writer only counts.
#[derive(Drop)]
pub struct Writer<'b> {
    out: &'b mut [u8],
    at: usize,

    // both by their types
    ghost room: { length out.now < 2 ^ 64 },
    ghost counts: { at < 2 ^ 64 },
}

impl<'b> Writer<'b> {
    ghost use Rattle.put.specs.Appends.{Appends, Goes};

    // At the front of a buffer.
    pub fn new(out: &'b mut [u8]) -> Writer<'b>
        ensures same_reference { result.out.ghost_name ≡ out.entry.ghost_name }
        ensures out { result.out.now ≡ out.old }
        ensures at { result.at ≡ 0 }
    {
        Writer { out, at: 0 }
    }

    // The place after all that was put.
    pub fn at(&self) -> usize
        ensures { result ≡ self.now.at }
    {
        self.at
    }

    // Goes to a place, and writes nothing.
    pub fn go_to(&mut self, at: usize)
        ensures { Goes «at» self.old self.new }
    {
        self.at = at;
    }

    // Writes those of the bytes that fall inside the buffer, and goes to the place after them all.
    pub fn put(&mut self, bytes: &[u8])
        ensures { Appends bytes.now self.old self.new }
    {
        let from = self.at.min(self.out.len());
        let n = bytes.len().min(self.out.len() - from);
        self.out[from..from + n].copy_from_slice(&bytes[..n]);
        self.at = self.at.saturating_add(bytes.len());
    }

    // Writes a number, the lowest byte first.
    pub fn put_number<N: Number>(&mut self, n: N)
        ensures { Appends (bytes_of Little N.WIDTH (N.value n)) self.old self.new }
    {
        self.put(n.bytes().as_slice());
    }
}
