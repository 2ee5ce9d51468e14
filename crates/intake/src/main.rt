// Keeps a shelf and answers a request a line, each at once: it stands behind a pipe all year. docs/SHELF.md has the lines.
#![tactic(auto)]

use desk::answer::reply_to;
use desk::desk::{Desk, MOST_ROOM, USUAL};
use desk::lines::{lines, request_of};
use desk::reply::opening_reply;
use desk::request::{BadLine, Request};
use std::io;

// Answers a line. Whether it was a request.
fn answer(
    rt: &HostRuntime,
    desk: &mut Desk,
    request: Result<Request<'_>, BadLine>,
    shown: &mut [u8],
) -> anyhow::Result<bool> {
    let reply = reply_to(rt, desk, request, shown)?;
    println!(rt; "{reply}")?;
    Ok(reply.is_to_request())
}

// The first line may open the shelf. Where it does not, the shelf is opened as usual, and the line is answered like any other.
fn first(
    rt: &HostRuntime,
    request: Result<Request<'_>, BadLine>,
    shown: &mut [u8],
) -> anyhow::Result<(Desk, bool)> {
    if let Ok(Request::Open(opening)) = request {
        let (desk, opened) = Desk::open(rt.alloc(), opening)?;
        println!(rt; "{}", opening_reply(&desk, opened))?;
        return Ok((desk, true));
    }
    let (mut desk, _) = Desk::open(rt.alloc(), USUAL)?;
    let taken = answer(rt, &mut desk, request, shown)?;
    Ok((desk, taken))
}

fn print_end(rt: &HostRuntime, requests: u64, held: usize) -> io::Result<()> {
    eprintln!(rt; "{requests} requests, {held} groups held")
}

fn serve(rt: &HostRuntime) -> anyhow::Result<()> {
    let mut lines = lines(rt)?;
    let Some(line) = lines.next() else {
        return Ok(print_end(rt, 0, 0)?);
    };
    let mut shown = vec![in rt.alloc(); 0u8; MOST_ROOM]?;
    let (mut desk, taken) = first(rt, request_of(&line?), &mut shown)?;
    let mut requests = u64::from(taken);
    for line in lines {
        if answer(rt, &mut desk, request_of(&line?), &mut shown)? {
            requests = requests.saturating_add(1);
        }
    }
    Ok(print_end(rt, requests, desk.held())?)
}

fn main(rt: HostRuntime) -> anyhow::Result<()> {
    serve(&rt)
}
