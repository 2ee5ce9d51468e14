// Lines of standard input, one after the other, and the requests that they are.
ghost use Rattle.std.specs.Prelude.{◌≡◌, IfOk};
ghost use Rattle.std.specs.Io.Iter.{split_byte};
ghost use Rattle.desk.specs.Requests.{Reads, IsRequestLine};

use crate::request::{BadLine, Request};
use std::alloc::Global;
use std::io;
use std::io::{BufRead, BufReader, Split, Stdin};
use std::str::from_utf8;

// The lines, without their ends. Their text is looked at by `request_of` alone. What standard input holds, no clause can say.
pub fn lines(rt: &HostRuntime) -> io::Result<Split<BufReader<Stdin>, Global>>
    ensures { IfOk result (λ s. split_byte s ≡ 10) }
{
    Ok(BufReader::new(rt.alloc(), rt.stdin())?.split(rt.alloc(), b'\n'))
}

// A line that is not text is no request.
pub fn request_of(line: &[u8]) -> Result<Request<'_>, BadLine>
    ensures { Reads (IsRequestLine line.now) result }
{
    let text = from_utf8(line).map_err(|_| BadLine)?;
    Request::try_from(text)
}
