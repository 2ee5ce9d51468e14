// Answers that are texts.
ghost use Rattle.std.specs.Prelude.{◌≡◌, ◌++◌, OnOk};
ghost use Rattle.std.specs.String.{string_bytes};
ghost use Rattle.text.specs.Pieces.{shown};
ghost use Rattle.perf_data.specs.Lists.{to_come};
ghost use Rattle.answers.specs.Texts.{text_text, texts_text};

use crate::told::{Told, write_hex};
use hexadecimal::Hex;
use perf_data::string_list::StringList;
use std::alloc::AllocError;
use text::shown::Shown;

impl Told for &str {
    ghost text = { λ t. text_text t.now };

    fn write(self, out: &mut String) -> Result<(), AllocError> {
        write!(out, "text x{}", Hex(self.as_bytes()))
    }
}

impl Told for StringList<'_> {
    ghost text = { λ list. texts_text (to_come list) };

    fn write(self, out: &mut String) -> Result<(), AllocError> {
        write!(out, "texts {}", self.count())?;
        for text in self {
            write!(out, " x{}", Hex(text.as_bytes()))?;
        }
        Ok(())
    }
}

// Any bytes, as they are shown.
pub(crate) fn write_shown(out: &mut String, bytes: &[u8]) -> Result<(), AllocError>
    ensures { OnOk result (string_bytes out.new ≡ string_bytes out.old ++ text_text (shown bytes.now)) }
{
    write!(out, "text x")?;
    write_hex(out, Shown::new(bytes))
}
