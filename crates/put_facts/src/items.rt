// The items that an iterator gives, whatever they are.
ghost use Rattle.std.specs.Iterator.{IsFinite};
ghost use Rattle.put_facts.specs.Items.{PutsItems, PutsCounted};

use crate::told::Told;
use put::Writer;

// What is asked of an iterator here and below is what a `for` over any iterator asks, in the library's own words.

// Writes all items, one after the other, and answers how many there are, by the low 32 bits of that number.
pub(crate) fn put_items<T: Told, I: Iterator<Item = T>>(items: I, w: &mut Writer<'_>) -> u32
    requires can { I.can_next items }
    requires ends { IsFinite (I.remaining items) }
    ensures { PutsItems I.next_gives T.Told.bytes items w.old result w.new }
{
    let mut count = 0u32;
    for item in items {
        item.put(w);
        count = count.wrapping_add(1);
    }
    count
}

// Writes a count and all items. How many there are is known behind the last.
pub(crate) fn put_counted<T: Told, I: Iterator<Item = T>>(items: I, w: &mut Writer<'_>)
    requires can { I.can_next items }
    requires ends { IsFinite (I.remaining items) }
    ensures { PutsCounted I.next_gives T.Told.bytes items w.old w.new }
{
    let start = w.at();
    w.go_to(start.saturating_add(size_of::<u32>()));
    let count = put_items(items, w);
    let end = w.at();
    w.go_to(start);
    w.put_number(count);
    w.go_to(end);
}
