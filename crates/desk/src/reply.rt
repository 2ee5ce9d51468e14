// What is answered to a request.
ghost use Rattle.std.specs.Prelude.{◌≡◌, length};
ghost use Rattle.facts.specs.Head.{outcome};
ghost use Rattle.desk.specs.Answers.{LineAnswer, answer_of, or_refused, answer_to, shelf_after, is_to_request};

use crate::desk::Desk;
use crate::recording::Recording;
use crate::request::{BadLine, Request};
use hexadecimal::Hex;
use std::fmt;
use wire::refusal::Refusal;

// An answer, by what it says.
#[derive(Clone, Copy)]
pub enum Reply<'out, 'line> {
    // the number of strips
    Opened(usize),
    Filed(u32),
    Released(u64),
    Counted(u32),
    // a head
    Shown(&'out [u8]),
    Refused(Refusal),
    // a path
    Unread(&'line str),
    NoRequest(BadLine),
}

impl fmt::Display for Reply<'_, '_> {
    ghost use Rattle.std.specs.Prelude.{Some};
    ghost use Rattle.desk.specs.Replies.{reply_text};

    ghost output = { λ r. Some (reply_text r) };

    fn fmt<W: fmt::Write>(&self, f: &mut fmt::Formatter<W>) -> fmt::Result {
        match *self {
            Reply::Opened(strips) => write!(f, "opened {strips}"),
            Reply::Filed(group) => write!(f, "group {group}"),
            Reply::Released(group) => write!(f, "released {group}"),
            Reply::Counted(filings) => write!(f, "count {filings}"),
            Reply::Shown(head) => {
                let head = Hex(head);
                write!(f, "head x{head}")
            }
            Reply::Refused(refusal) => write!(f, "{refusal}"),
            Reply::Unread(path) => write!(f, "cannot read {path}"),
            Reply::NoRequest(bad) => write!(f, "{bad}"),
        }
    }
}

impl Reply<'_, '_> {
    // Whether it is to a request. A line that was none did not touch the shelf.
    pub fn is_to_request(&self) -> bool
        ensures { result ≡ is_to_request (answer_of self.now) }
    {
        !matches!(*self, Reply::NoRequest(_))
    }
}

// The answer to an opening.
pub fn opening_reply<'out, 'line>(desk: &Desk, opened: Result<(), Refusal>) -> Reply<'out, 'line>
    ensures { answer_of result ≡ or_refused (λ _. LineAnswer.opened (length desk.now.rows)) (outcome opened) }
{
    match opened {
        Ok(()) => Reply::Opened(desk.strips()),
        Err(refusal) => Reply::Refused(refusal),
    }
}

// What `answer_to` answers, but for the refusals of the desk's calls.
fn answered<'out, 'line>(
    desk: &mut Desk,
    request: Request<'line>,
    recording: &Recording,
    out: &'out mut [u8],
) -> Result<Reply<'out, 'line>, Refusal>
    ensures answer { or_refused answer_of (outcome result) ≡ answer_to desk.old request.entry recording.now (length out.old) }
    ensures after { desk.new ≡ shelf_after desk.old request.entry recording.now }
{
    Ok(match request {
        Request::Open(_) => Reply::NoRequest(BadLine),
        Request::File(filing) => match recording {
            Recording::Image(image) => Reply::Filed(desk.file(filing, image)?),
            Recording::Unread => Reply::Unread(filing.source),
            Recording::Missing => Reply::NoRequest(BadLine),
        },
        Request::Release(group) => {
            desk.release(group)?;
            Reply::Released(group)
        }
        Request::Count(group) => Reply::Counted(desk.count(group)?),
        Request::Show(group, room) => Reply::Shown(desk.show(group, room, out)?),
    })
}

// Answers a request about a recording; a head that is shown is written to `out`.
pub fn answer_to<'out, 'line>(
    desk: &mut Desk,
    request: Request<'line>,
    recording: &Recording,
    out: &'out mut [u8],
) -> Reply<'out, 'line>
    ensures answer { answer_of result ≡ answer_to desk.old request.entry recording.now (length out.old) }
    ensures after { desk.new ≡ shelf_after desk.old request.entry recording.now }
{
    match answered(desk, request, recording, out) {
        Ok(reply) => reply,
        Err(refusal) => Reply::Refused(refusal),
    }
}
