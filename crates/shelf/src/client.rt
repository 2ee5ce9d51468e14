// What a caller gets from the law: two stores, of whatever kinds, are compared by the numbers of their groups.
ghost use Rattle.std.specs.Prelude.{◌≡◌, length, replicate, IfOk, Decides};
ghost use Rattle.table.specs.Rows.{blanks};
ghost use Rattle.facts.specs.Head.{outcome};
ghost use Rattle.facts.specs.Laws.{Alike};
ghost use Rattle.shelf.specs.Histories.{filing};
ghost use Rattle.shelf.specs.Clients.{compared};

use crate::shelf::Shelf;
use image::store::Store;
use table::row::{Row, blank_all};
use wire::refusal::Refusal;

// Whether all fifteen questions answer alike over two stores, each with the rows handed in; by a shelf over the bytes.
// Accepted or refused, all work bytes are 0 and all rows blank at the end.
pub fn alike<'a, S: Store<'a>, T: Store<'a>>(
    strip: usize,
    bytes: Vec<u8>,
    x: &S,
    y: &T,
    rows: &mut [Row],
    work: &mut [u8],
) -> Result<bool, Refusal>
    ensures answer { outcome result ≡
        compared strip bytes.items
        (filing (length rows.old) (length work.old) (S.Store.endian x.now) (S.Store.map x.now))
        (filing (length rows.old) (length work.old) (T.Store.endian y.now) (T.Store.map y.now)) }
    ensures rows { rows.new ≡ blanks (length rows.old) }
    ensures work { work.new ≡ replicate (length work.old) 0 }
    ensures law { IfOk result (λ b. Decides b (Alike (length rows.old) (S.Store.endian x.now) (S.Store.map x.now).at (length rows.old) (T.Store.endian y.now) (T.Store.map y.now).at)) }
{
    let (mut shelf, opened) = Shelf::open(strip, 1, bytes);
    if let Err(refusal) = opened {
        blank_all(rows);
        work.fill(0);
        return Err(refusal);
    }
    let first = shelf.file(x, rows, work)?;
    let second = shelf.file(y, rows, work)?;
    Ok(first == second)
}
