// Lines answered.
ghost use Rattle.std.specs.Prelude.{◌≡◌, IfOk, length};
ghost use Rattle.desk.specs.Answers.{answer_of, AnswersRequest};

use crate::desk::Desk;
use crate::recording::recording_of;
use crate::reply::{Reply, answer_to};
use crate::request::{BadLine, Request};
use std::alloc::AllocError;

// The reply to a line: to the request that it is, or that it is none. A head that is shown is written to `out`.
pub fn reply_to<'out, 'line>(
    rt: &HostRuntime,
    desk: &mut Desk,
    request: Result<Request<'line>, BadLine>,
    out: &'out mut [u8],
) -> Result<Reply<'out, 'line>, AllocError>
    ensures { IfOk result (λ r. AnswersRequest desk.old request.entry (length out.old) (answer_of r) desk.new) }
{
    Ok(match request {
        Ok(request) => {
            let recording = recording_of(rt, request)?;
            answer_to(desk, request, &recording, out)
        }
        Err(bad) => Reply::NoRequest(bad),
    })
}
