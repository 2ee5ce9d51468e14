// Bytes in lower-case hexadecimal, two digits a byte: how the programs of this repository take and give them in lines.
#![tactic(auto)]

ghost use Rattle.std.specs.Prelude.{◌≡◌, length, IfOk};
ghost use Rattle.hexadecimal.specs.Hex.{digit_of, bytes_of, items};

use std::alloc::{AllocError, Global};
use std::fmt;

// What a digit counts. Capitals are none, which std's `to_digit` takes.
fn digit(c: u8) -> Option<u8>
    ensures { result ≡ digit_of c }
{
    match c {
        b'0'..=b'9' => Some(c - b'0'),
        b'a'..=b'f' => Some(c - b'a' + 10),
        _ => None,
    }
}

// The bytes that some text writes; none where it is not made of pairs of digits.
pub fn decode(heap: Global, text: &[u8]) -> Result<Option<Vec<u8>>, AllocError>
    ensures { IfOk result (λ v. items v ≡ bytes_of text.now) }
{
    let (pairs, odd) = text.as_chunks::<2>();
    if !odd.is_empty() {
        return Ok(None);
    }
    let mut bytes = Vec::new(heap);
    for [high, low] in pairs {
        let Some(high) = digit(*high) else {
            return Ok(None);
        };
        let Some(low) = digit(*low) else {
            return Ok(None);
        };
        bytes.push(16 * high + low)?;
    }
    Ok(Some(bytes))
}

// Bytes that are shown in hexadecimal.
#[derive(Clone, Copy)]
pub struct Hex<'a>(pub &'a [u8]);

impl fmt::Display for Hex<'_> {
    ghost use Rattle.std.specs.Prelude.{Some};
    ghost use Rattle.hexadecimal.specs.Hex.{text_of};

    ghost output = { λ h. Some (text_of h.0.now) };

    fn fmt<W: fmt::Write>(&self, f: &mut fmt::Formatter<W>) -> fmt::Result {
        for &byte in self.0 {
            write!(f, "{byte:02x}")?;
        }
        Ok(())
    }
}
