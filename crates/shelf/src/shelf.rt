// The shelf's data. It stands apart from the calls, since what they promise speaks of this struct.
ghost use Rattle.std.specs.Prelude.{◌≡◌};
ghost use Rattle.shelf.specs.Rows.{is_free};

use std::marker::Model;

mod calls;
mod changes;
mod filing;
mod opening;
mod places;
mod sizes;

// A group of recordings with the same head: its number; how many filings have not been released; and the length of the
// head, which is at the front of the strip. A row with the number 0 is no group, and its strip is free.
#[derive(Clone, Copy, PartialEq, Eq, Debug)]
pub struct Group {
    number: u32,
    count: u32,
    len: usize,
}

impl Group {
    fn is_free(&self) -> bool
        ensures { result ≡ is_free self.now }
    {
        self.number == 0
    }
}

const FREE: Group = Group {
    number: 0,
    count: 0,
    len: 0,
};

// A group that is held, and its place on the shelf.
#[derive(Clone, Copy)]
pub(crate) struct Held {
    place: usize,
    group: Group,
}

// The bytes are cut into no more strips than this, however many they are.
pub const MOST_STRIPS: usize = 64;

// The most bytes that a strip can have.
pub const LONGEST_STRIP: usize = 65_536;

// A shelf: its bytes are cut into strips of one length, as many as they have room for, up to the most.
#[derive(Drop)]
pub struct Shelf {
    // 0 after a refused opening
    strip: usize,
    strips: usize,
    // the number that the next new group gets, until they are used up
    next: Option<u32>,
    // a row for each strip, and rows that are not used
    groups: [Group; MOST_STRIPS],
    bytes: Vec<u8>,
}

// Clauses see what the shelf holds.
impl Model for Shelf {
    ghost use Rattle.shelf.specs.Contents.{Contents};

    ghost Value = { Contents };

    ghost use Rattle.shelf.specs.Strips.{contents, Sound};

    ghost view = { contents };

    ghost invariant = { Sound };
}
