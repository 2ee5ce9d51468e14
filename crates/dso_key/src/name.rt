// The names of keys, byte by byte: nothing is copied.
ghost use Rattle.std.specs.Prelude.{◌≡◌, ◌++◌};
ghost use Rattle.text.specs.Pieces.{shown};
ghost use Rattle.dso_key.specs.Keys.{key_of, written};
ghost use Rattle.dso_key.specs.Names.{name_of, to_come};
ghost use Rattle.std.specs.Iterator.{YieldsFirst, item_count};

use crate::dso_key::{DsoKey, ModuleName};
use crate::path::file_name;
use text::shown::Shown;

// Bytes that stand as they are, then the shown form of a text, and then bytes that stand as they are.
// In place of std's `Chain`, whose flags of ended sides would be in each clause on what is to come.
#[derive(Drop)]
pub struct Name<'a> {
    front: &'a [u8],
    shown: Shown<'a>,
    back: &'a [u8],
}

impl<'a> Iterator for Name<'a> {
    type Item = u8;

    ghost next_gives = { YieldsFirst to_come };

    ghost remaining = { item_count to_come };

    fn next(&mut self) -> Option<u8> {
        if let [b, more @ ..] = self.front {
            self.front = more;
            return Some(*b);
        }
        if let Some(b) = self.shown.next() {
            return Some(b);
        }
        match self.back {
            [b, more @ ..] => {
                self.back = more;
                Some(*b)
            }
            [] => None,
        }
    }
}

impl<'a> ModuleName<'a> {
    // The name, byte by byte.
    pub fn bytes(self) -> Name<'a>
        ensures { to_come result ≡ written self.entry }
    {
        match self {
            ModuleName::Written(path) => shown_between(b"", path, b""),
            ModuleName::Stem(name) => shown_between(b"[", name, b"]"),
        }
    }
}

fn shown_between<'a>(front: &'a [u8], text: &'a [u8], back: &'a [u8]) -> Name<'a>
    ensures { to_come result ≡ front.now ++ (shown text.now ++ back.now) }
{
    Name {
        front,
        shown: Shown::new(text),
        back,
    }
}

pub(crate) fn fixed(name: &[u8]) -> Name<'_>
    ensures { to_come result ≡ name.now }
{
    shown_between(name, b"", b"")
}

impl<'a> DsoKey<'a> {
    // The name that the key goes by, byte by byte.
    pub fn name(self) -> Name<'a>
        ensures { to_come result ≡ name_of (key_of self.entry) }
    {
        match self {
            DsoKey::Kernel => fixed(b"[kernel.kallsyms]"),
            DsoKey::GuestKernel => fixed(b"[guest.kernel.kallsyms]"),
            DsoKey::Vdso32 => fixed(b"[vdso32]"),
            DsoKey::VdsoX32 => fixed(b"[vdsox32]"),
            DsoKey::Vdso64 => fixed(b"[vdso]"),
            DsoKey::Vsyscall => fixed(b"[vsyscall]"),
            DsoKey::KernelModule(name) => name.bytes(),
            DsoKey::User(path) => shown_between(b"", file_name(path), b""),
        }
    }
}
