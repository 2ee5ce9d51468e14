// A kind whose keys are an enum: the rows with the number 0 have one key, and the others go by their text.
ghost use Rattle.table_cases.specs.Names.{Name, names, name_of};

use std::cmp::Ordering;
use table::kind::{Kind, Texts};
use table::row::Row;

// The kind, over a section.
#[derive(Clone, Copy)]
pub struct Named<'a> {
    pub section: &'a [u8],
}

impl Kind for Named<'_> {
    ghost Key = { Name };

    ghost order = { names };

    ghost key = { λ kind row. name_of kind.section.now row };

    fn compare(&self, a: &Row, b: &Row) -> Ordering {
        // By hand, since a kind that calls another's `compare` is what is tested here.
        match (a.number, b.number) {
            (0, 0) => Ordering::Equal,
            (0, _) => Ordering::Less,
            (_, 0) => Ordering::Greater,
            _ => {
                let texts = Texts {
                    section: self.section,
                };
                texts.compare(a, b)
            }
        }
    }
}
