// Opening: there is a shelf in every case.
ghost use Rattle.std.specs.Prelude.{◌≡◌, true, vec_len};
ghost use Rattle.shelf.specs.Calls.{in_bounds, empty as empty_of, without as without_strips};

use super::{FREE, LONGEST_STRIP, MOST_STRIPS, Shelf};

const SHORTEST_STRIP: usize = 5;

// Whether the values handed in are within their bounds.
pub(crate) fn in_bounds(strip: usize, first: u32, room: usize) -> bool
    ensures { result ≡ in_bounds strip first room }
{
    (SHORTEST_STRIP..=LONGEST_STRIP).contains(&strip) && first >= 1 && strip <= room
}

impl Shelf {
    // A shelf of free strips, every byte 0.
    pub(crate) fn empty(strip: usize, first: u32, mut bytes: Vec<u8>) -> Shelf
        requires { in_bounds strip first (vec_len bytes) ≡ true }
        ensures { result ≡ empty_of strip first (vec_len bytes) }
    {
        let strips = (bytes.len() / strip).min(MOST_STRIPS);
        bytes.fill(0);
        Shelf {
            strip,
            strips,
            next: Some(first),
            groups: [FREE; MOST_STRIPS],
            bytes,
        }
    }

    // A shelf with no strip; the bytes are left as they are.
    pub(crate) fn without(bytes: Vec<u8>) -> Shelf
        ensures { result ≡ without_strips bytes.items }
    {
        Shelf {
            strip: 0,
            strips: 0,
            next: Some(1),
            groups: [FREE; MOST_STRIPS],
            bytes,
        }
    }
}
