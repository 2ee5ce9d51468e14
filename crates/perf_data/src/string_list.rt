// Lists of header texts: a u32 count, and that many texts.
ghost use Rattle.std.specs.Prelude.{◌≡◌, length, drop};
ghost use Rattle.perf_data.specs.Lists.{to_come, listed};
ghost use Rattle.perf_data.specs.Texts.{command_line, first_fault, fault_in, texts_in};
ghost use Rattle.std.specs.Iterator.{at_most, YieldsFirstRef};

use crate::features::Feature;
use image::section::Section;
use text::strings::{TextFault, read_string};
use wire::order::{ByteOrder, tail};
use wire::refusal::Refusal;

// Texts that have all been looked at, given one after the other. The texts lie in the section and outlive the list.
#[derive(Clone, Copy)]
pub struct StringList<'a> {
    order: ByteOrder,
    // how many texts are left, in the first bytes of `rest`
    left: u32,
    rest: &'a [u8],
}

// The texts, one after the other.
impl<'a> Iterator for StringList<'a> {
    type Item = &'a str;

    ghost next_gives = { YieldsFirstRef to_come };

    ghost remaining = { λ s. at_most s.left };

    fn next(&mut self) -> Option<&'a str> {
        self.left = self.left.checked_sub(1)?;
        let (text, rest) = read_string(self.order, self.rest).ok()?;
        self.rest = rest;
        Some(text)
    }
}

// Looks at so many texts of a section, from its fifth byte on: the first fault, if there is one.
fn check_texts(section: Section<'_>, count: u32) -> Result<(), Refusal>
    ensures { fault_in result ≡ first_fault (texts_in 11 section.entry.order (length section.entry.bytes.now) count (drop 4 section.entry.bytes.now)) }
{
    let mut rest = tail(section.bytes, 4);
    for _ in 0..count {
        let at = section.bytes.len() - rest.len();
        let refused = |fault: TextFault| fault.refusal(Feature::CMDLINE.0, at as u32);
        let (_, after) = read_string(section.order, rest).map_err(refused)?;
        rest = after;
    }
    Ok(())
}

// The list that a section is, all of it looked at.
pub(crate) fn read_string_list(section: Section<'_>) -> Result<StringList<'_>, Refusal>
    ensures { listed result ≡ command_line section.entry.order section.entry.bytes.now }
{
    let count = section
        .order
        .u32(section.bytes)
        .ok_or(Refusal::NoListCount)?;
    check_texts(section, count)?;
    Ok(StringList {
        order: section.order,
        left: count,
        rest: tail(section.bytes, 4),
    })
}
