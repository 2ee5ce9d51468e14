// Header texts: a length of four bytes, and then that many bytes, of which the text is those before the first NUL.
ghost use Rattle.std.specs.Prelude.{◌≡◌, true, false, MatchOption, IfErr};
ghost use Rattle.wire.specs.Faults.{fault_of};
ghost use Rattle.text.specs.HeaderTexts.{ReadsHeaderText};
ghost use Rattle.text.specs.Pieces.{well_formed};
ghost use Rattle.text.specs.Refusals.{refusal_of, header_fault, IsRefused};
ghost use Rattle.text.specs.Strings.{before_nul, header_text, read_of};

use crate::pieces::well_formed;
use memchr::memchr;
use std::str::from_utf8_unchecked;
use wire::order::ByteOrder;
use wire::refusal::Refusal;

// Why a text is refused.
#[derive(Clone, Copy, PartialEq, Eq, Debug)]
pub enum TextFault {
    // the length has fewer than four bytes
    ShortLength,
    // the length counts more bytes than there are
    PastEnd,
    // the text is no well-formed UTF-8
    IllFormed,
}

impl TextFault {
    // The refusal of a text whose length stands at an offset of the feature's section.
    pub fn refusal(self, feature: u32, at: u32) -> Refusal
        ensures is { result ≡ refusal_of self feature at }
        ensures fault { fault_of result ≡ header_fault self feature at }
    {
        let bytes_at = at.saturating_add(4);
        match self {
            TextFault::ShortLength => Refusal::NoTextLength { feature, at },
            TextFault::PastEnd => Refusal::TextOutside {
                feature,
                at: bytes_at,
            },
            TextFault::IllFormed => Refusal::IllFormedText {
                feature,
                at: bytes_at,
            },
        }
    }
}

// The bytes before the first NUL, or all of them.
pub fn before_nul(bytes: &[u8]) -> &[u8]
    ensures { result.now ≡ before_nul bytes.now }
{
    match memchr(0, bytes) {
        Some(nul) => &bytes[..nul],
        None => bytes,
    }
}

// The bytes as a text; none where they are ill formed.
pub fn as_text(bytes: &[u8]) -> Option<&str>
    ensures { MatchOption result (well_formed bytes.now ≡ false) (λ s. (s.now ≡ bytes.now) × (well_formed bytes.now ≡ true)) }
{
    if !well_formed(bytes) {
        return None;
    }
    // Safety: the test says that the bytes are UTF-8 (clause `utf8` of `well_formed`).
    Some(unsafe { from_utf8_unchecked(bytes) })
}

// Reads the text at the front of a section, and answers it with the bytes after the full length. The text is cut at its
// first NUL before it is checked, so what stands after the NUL may be ill formed.
pub fn read_string<'s>(
    order: ByteOrder,
    section: &'s [u8],
) -> Result<(&'s str, &'s [u8]), TextFault>
    ensures is { read_of result ≡ header_text order section.now }
    ensures law { ReadsHeaderText order section.now (read_of result) }
    ensures faults { IfErr result (IsRefused order section.now) }
{
    let [a, b, c, d, rest @ ..] = section else {
        return Err(TextFault::ShortLength);
    };
    let len = order.u32(&[*a, *b, *c, *d]).ok_or(TextFault::ShortLength)?;
    let (field, after) = rest
        .split_at_checked(len as usize)
        .ok_or(TextFault::PastEnd)?;
    let text = as_text(before_nul(field)).ok_or(TextFault::IllFormed)?;
    Ok((text, after))
}
