// How much there is on a shelf.
ghost use Rattle.std.specs.Prelude.{◌≡◌, ◌≤◌, length, count_by};
ghost use Rattle.shelf.specs.Rows.{is_held};
ghost use Rattle.shelf.specs.Sizes.{held as held_of};

use super::{Group, Shelf};

// How many strips are held for groups.
fn held(groups: &[Group]) -> usize
    ensures { result ≡ count_by is_held groups.now }
{
    groups.iter().filter(|group| !group.is_free()).count()
}

impl Shelf {
    // The number of strips, free or not.
    pub fn strips(&self) -> usize
        ensures strips { result ≡ length self.now.rows }
        ensures few { result ≤ 64 }
    {
        self.strips
    }

    // The number of groups that are held.
    pub fn held(&self) -> usize
        ensures { result ≡ held_of self.now.rows }
    {
        held(&self.groups[..self.strips])
    }
}
