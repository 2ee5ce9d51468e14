// The head of a recording, from the bytes of its image.
ghost use Rattle.std.specs.Prelude.{◌≡◌, ◌≤◌, length, IfOk};
ghost use Rattle.facts.specs.Head.{fitted, length_of, ahead, outcome};
ghost use Rattle.image.specs.Index.{section_in};
ghost use Rattle.image.specs.Kinds.{index_of};
ghost use Rattle.image.specs.Meaning.{opened};
ghost use Rattle.facts.specs.Images.{head_in, image_within};
ghost use Rattle.facts.specs.Laws.{SpokenImage};
ghost use Rattle.table.specs.Rows.{blanks};

use crate::head::write_head;
use image::kinds::Image;
use table::row::{Row, blank_all};
use wire::refusal::Refusal;

// Opens an image of at most so many bytes, of whatever kind.
fn open_within(image: &[u8], most: usize) -> Result<Image<'_>, Refusal>
    ensures { opened (λ s. (index_of s).order) (λ s. section_in (index_of s)) result ≡ image_within most image.now }
{
    if image.len() > most {
        return Err(Refusal::ImageTooLong);
    }
    Image::open(image)
}

// Writes the head of an image of at most so many bytes to the front of `out`, and answers its length.
pub fn write_image_head(
    image: &[u8],
    most: usize,
    rows: &mut [Row],
    out: &mut [u8],
) -> Result<usize, Refusal>
    ensures answer { outcome result ≡ length_of (fitted (length out.old) (head_in (length rows.old) (image_within most image.now))) }
    ensures after { out.new ≡ ahead (fitted (length out.old) (head_in (length rows.old) (image_within most image.now))) out.old }
    ensures rows { rows.new ≡ blanks (length rows.old) }
    ensures room { IfOk result (λ n. n ≤ length out.old) }
    ensures law { SpokenImage (length rows.old) (image_within most image.now) result out.new }
{
    match open_within(image, most) {
        Ok(store) => write_head(&store, rows, out),
        Err(refusal) => {
            blank_all(rows);
            Err(refusal)
        }
    }
}
