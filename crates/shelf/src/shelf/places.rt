// Where groups stand on a shelf.
ghost use Rattle.std.specs.Prelude.{◌≡◌};
ghost use Rattle.shelf.specs.Rows.{is_free};
ghost use Rattle.shelf.specs.Contents.{row_in};
ghost use Rattle.shelf.specs.Calls.{first_with, has_head, place_of, free_place};
ghost use Rattle.shelf.specs.Stands.{StandsAt, HeldAt, PassesAt, has_number, FindsGroup};

use super::{Group, Held, Shelf};

// The first strip that is free.
fn first_free(groups: &[Group]) -> Option<usize>
    ensures { result ≡ first_with is_free groups.now }
{
    groups.iter().position(|group| group.is_free())
}

impl Shelf {
    // A free place.
    pub(crate) fn free_place(&self) -> Option<usize>
        ensures { result ≡ free_place self.now.rows }
    {
        first_free(&self.groups[..self.strips])
    }

    // The group at a place, if there is one.
    fn held_at(&self, i: usize) -> Option<Held>
        ensures { HeldAt self.now i result }
    {
        let group = *self.groups[..self.strips].get(i)?;
        if group.is_free() {
            return None;
        }
        Some(Held { place: i, group })
    }

    // The group at a place, if it has this number.
    fn numbered_at(&self, i: usize, number: u32) -> Option<Held>
        ensures { PassesAt self.now (has_number number) i result }
    {
        self.held_at(i).filter(|held| held.group.number == number)
    }

    // The group with a number.
    pub(crate) fn place_of(&self, number: u32) -> Option<Held>
        ensures { FindsGroup self.now (place_of self.now number) result }
    {
        (0..self.strips).find_map(|i| self.numbered_at(i, number))
    }

    // The head of a group that is held.
    pub(crate) fn head_at(&self, held: Held) -> &[u8]
        requires { StandsAt self.now held.place held.group }
        ensures { result.now ≡ (row_in self.now held.place).head }
    {
        let from = held.place * self.strip;
        &self.bytes[from..from + held.group.len]
    }

    // The group at a place, if it keeps `head`.
    fn keeping_at(&self, i: usize, head: &[u8]) -> Option<Held>
        ensures { PassesAt self.now (has_head head.now) i result }
    {
        self.held_at(i).filter(|held| self.head_at(*held) == head)
    }

    // The group that keeps `head`.
    pub(crate) fn keeping(&self, head: &[u8]) -> Option<Held>
        ensures { FindsGroup self.now (first_with (has_head head.now) self.now.rows) result }
    {
        (0..self.strips).find_map(|i| self.keeping_at(i, head))
    }
}
