// What a table means, and what the orders of its keys are.
ghost use Rattle.table.specs.Theorems.{StaysRising, Sets, Rises, LastStands, Determined, Again, Grows, Carries, BySize, ByFirstDifference, BeginningFirst};
ghost use Rattle.table.specs.Rows.{entry_of};

use crate::kind::Kind;

// What holds of the tables of every kind: an insertion keeps the order, and sets its own key and no other; a table is
// strictly rising, and has at each key the last row that was given with it; it is determined by what it has at each key; a
// table's own rows are that table again; more rows given make no fewer rows; and the keys and values of a table's rows are
// the table of the keys and values given, wherever in a section they lie.
pub fn tables_stand<K: Kind>(kind: &K, section: &[u8])
    ensures stays { StaysRising K.order (K.key kind.now) }
    ensures sets { Sets K.order (K.key kind.now) }
    ensures rises { Rises K.order (K.key kind.now) }
    ensures stands { LastStands K.order (K.key kind.now) }
    ensures determined { Determined K.order (K.key kind.now) }
    ensures again { Again K.order (K.key kind.now) }
    ensures grows { Grows K.order (K.key kind.now) }
    ensures entries { Carries K.order (K.key kind.now) (λ e. e.0) (entry_of (K.key kind.now) section.now) }
{}

// What the orders of numbers and of texts are. Each is total, so that the other cases follow.
pub fn orders_stand()
    ensures size { BySize }
    ensures difference { ByFirstDifference }
    ensures beginning { BeginningFirst }
{}
