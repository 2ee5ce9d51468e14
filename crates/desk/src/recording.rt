// The recording that a request is about, read from a file or from the request's own digits.
ghost use Rattle.std.specs.Prelude.{◌≡◌, IfOk};
ghost use Rattle.desk.specs.Answers.{digits_of, IsWritten, IsRecordingOf};

use crate::request::Request;
use hexadecimal::decode;
use image::section::LONGEST;
use std::alloc::AllocError;
use std::io::Read;
use std::{fs, io};

// A recording, as far as there is one.
#[derive(Drop)]
pub enum Recording {
    // the bytes of an image
    Image(Vec<u8>),
    // of a file that cannot be read
    Unread,
    // digits that write no bytes, or no filing at all
    Missing,
}

// The bytes of a file; of one that is longer than an image, one byte more than an image has.
fn read_image(rt: &HostRuntime, path: &str) -> io::Result<Vec<u8>> {
    let mut image = Vec::new(rt.alloc());
    fs::open(rt, path)?
        .take(LONGEST as u64 + 1)
        .read_to_end(&mut image)?;
    Ok(image)
}

// The recording that a source names.
fn read(rt: &HostRuntime, source: &str) -> Result<Recording, AllocError>
    ensures { IfOk result (λ r. IsWritten (digits_of source.now) r) }
{
    Ok(match source.as_bytes() {
        [b'x', digits @ ..] => match decode(rt.alloc(), digits)? {
            Some(image) => Recording::Image(image),
            None => Recording::Missing,
        },
        _ => match read_image(rt, source) {
            Ok(image) => Recording::Image(image),
            Err(_) => Recording::Unread,
        },
    })
}

// The recording that a request is about.
pub fn recording_of(rt: &HostRuntime, request: Request<'_>) -> Result<Recording, AllocError>
    ensures { IfOk result (λ r. IsRecordingOf request.entry r) }
{
    match request {
        Request::File(filing) => read(rt, filing.source),
        _ => Ok(Recording::Missing),
    }
}
