// Lists of items, of whatever kind: symbols, dex offsets, files.
ghost use Rattle.std.specs.Prelude.{◌≡◌, ℕ, ◌<◌, min, List, length, IfOk, Result};
ghost use Rattle.std.specs.Iterator.{YieldsFirstBy, at_most};
ghost use Rattle.simpleperf.specs.Got.{got_of, left_of};
ghost use Rattle.simpleperf.specs.Lists.{to_come};
ghost use Rattle.simpleperf.specs.Parse.{Got, items, rest_of};
ghost use Rattle.simpleperf.specs.Reading.{SameRecord};
ghost use Rattle.simpleperf.specs.Tables.{counted};
ghost use Rattle.wire.specs.declared.order.ByteOrder.{ByteOrder as Order};
ghost use Rattle.wire.specs.declared.refusal.Fault.{Fault};

use crate::reader::Reader;
use std::marker::PhantomData;
use wire::refusal::Refusal;

// What a list is of.
pub trait Listed<'a>: Copy {
    type Item: Copy;

    // What an item stands for.
    ghost Value: { Type 0 };

    ghost value: { Self.Item → Value };

    // How one is read, where so many bytes are the whole.
    ghost reading: { Order → ℕ → List ℕ → Result (Got Value) Fault };

    // An item takes a byte at least.
    fn read(reader: &mut Reader<'a>) -> Result<Self::Item, Refusal>
        ensures reads { got_of value result reader.new.rest.now ≡ reading reader.old.order reader.old.size reader.old.rest.now }
        ensures record { SameRecord reader.old reader.new }
        ensures takes { IfOk result (λ _. length reader.new.rest.now < length reader.old.rest.now) };
}

// Items that have all been looked at, given one after the other. They lie in the section.
#[derive(Clone, Copy)]
pub struct ItemList<'a, K> {
    pub(crate) reader: Reader<'a>,
    // no more items come
    pub(crate) left: u32,
    pub(crate) of: PhantomData<K>,
}

impl<'a, K: Listed<'a>> Iterator for ItemList<'a, K> {
    type Item = K::Item;

    ghost next_gives = { YieldsFirstBy K.value (to_come K.reading) };

    ghost remaining = { λ s. at_most (min s.left (length s.reader.rest.now)) };

    fn next(&mut self) -> Option<K::Item> {
        if self.left == 0 {
            return None;
        }
        match K::read(&mut self.reader) {
            Ok(item) => {
                self.left -= 1;
                Some(item)
            }
            Err(_) => {
                self.left = 0;
                None
            }
        }
    }
}

// Looks at so many items.
fn check<'a, K: Listed<'a>>(reader: &mut Reader<'a>, count: u32) -> Result<(), Refusal>
    ensures reads { left_of result reader.new.rest.now ≡ rest_of (items (K.reading reader.old.order reader.old.size) count reader.old.rest.now) }
    ensures record { SameRecord reader.old reader.new }
{
    for _ in 0..count {
        K::read(reader)?;
    }
    Ok(())
}

// A count and that many items, all of them looked at.
pub(crate) fn read_counted<'a, K: Listed<'a>>(
    reader: &mut Reader<'a>,
) -> Result<ItemList<'a, K>, Refusal>
    ensures reads { got_of (to_come K.reading) result reader.new.rest.now ≡ counted K.reading reader.old.order reader.old.size reader.old.rest.now }
    ensures record { SameRecord reader.old reader.new }
{
    let left = reader.count()?;
    let list = ItemList {
        reader: *reader,
        left,
        of: PhantomData,
    };
    check::<K>(reader, left)?;
    Ok(list)
}
