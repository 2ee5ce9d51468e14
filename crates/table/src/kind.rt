// The kinds of keys: which key a row has, and how keys compare.
ghost use Rattle.std.specs.Prelude.{◌≡◌, ℕ, List};
ghost use Rattle.table.specs.Order.{Order, numbers, texts};
ghost use Rattle.table.specs.Rows.{key_part};
ghost use Rattle.table.specs.declared.row.Row.{Row as Rows};

use crate::row::Row;
use std::cmp::Ordering;

// What rows go by.
pub trait Kind {
    // The keys, and their total order.
    ghost Key: { Type 0 };

    ghost order: { Order Key };

    // The key of a row.
    ghost key: { Self → Rows → Key };

    fn compare(&self, a: &Row, b: &Row) -> Ordering
        ensures { result ≡ order.cmp (key self.now a.now) (key self.now b.now) };
}

// Rows that go by their number.
#[derive(Clone, Copy)]
pub struct Numbers;

impl Kind for Numbers {
    ghost Key = { ℕ };

    ghost order = { numbers };

    ghost key = { λ _ row. row.number };

    fn compare(&self, a: &Row, b: &Row) -> Ordering {
        a.number.cmp(&b.number)
    }
}

// Rows that go by their part of a section: byte by byte, a beginning before its extension.
#[derive(Clone, Copy)]
pub struct Texts<'a> {
    pub section: &'a [u8],
}

impl Kind for Texts<'_> {
    ghost Key = { List ℕ };

    ghost order = { texts };

    ghost key = { λ kind row. key_part kind.section.now row };

    fn compare(&self, a: &Row, b: &Row) -> Ordering {
        let x = a.key(self.section);
        let y = b.key(self.section);
        x.cmp(&y)
    }
}

// What is lent has the keys of what it is lent from.
impl<K: Kind> Kind for &K {
    ghost Key = { K.Key };

    ghost order = { K.order };

    ghost key = { λ kind row. K.key kind.now row };

    fn compare(&self, a: &Row, b: &Row) -> Ordering {
        K::compare(self, a, b)
    }
}
