// The names of keys.
ghost use Rattle.std.specs.Prelude.{◌≡◌, ◌++◌, OnOk};
ghost use Rattle.std.specs.String.{string_bytes};
ghost use Rattle.dso_key.specs.Keys.{key_of};
ghost use Rattle.answers.specs.Texts.{named_text, key_text};

use crate::told::{Told, write_hex};
use dso_key::dso_key::DsoKey;
use std::alloc::AllocError;

// A key's kind, and the bytes of its name in hexadecimal.
pub(crate) fn write_key(out: &mut String, key: DsoKey<'_>, between: &str) -> Result<(), AllocError>
    ensures { OnOk result (string_bytes out.new ≡ string_bytes out.old ++ named_text between.now (key_of key.entry)) }
{
    write!(out, "{}{between}x", key.kind())?;
    write_hex(out, key.name())
}

impl Told for DsoKey<'_> {
    ghost text = { λ key. key_text (key_of key) };

    fn write(self, out: &mut String) -> Result<(), AllocError> {
        write!(out, "key ")?;
        write_key(out, self, " ")
    }
}
