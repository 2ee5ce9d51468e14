// Requests as those of intake, over one shelf after another: here every `open` makes a new one.
#![tactic(auto)]

use desk::answer::reply_to;
use desk::desk::{Desk, MOST_ROOM, USUAL};
use desk::lines::{lines, request_of};
use desk::reply::opening_reply;
use desk::request::Request;

fn serve(rt: &HostRuntime) -> anyhow::Result<()> {
    let (mut desk, _) = Desk::open(rt.alloc(), USUAL)?;
    let mut shown = vec![in rt.alloc(); 0u8; MOST_ROOM]?;
    for line in lines(rt)? {
        let line = line?;
        let request = request_of(&line);
        if let Ok(Request::Open(opening)) = request {
            let (new, opened) = Desk::open(rt.alloc(), opening)?;
            desk = new;
            println!(rt; "{}", opening_reply(&desk, opened))?;
        } else {
            println!(rt; "{}", reply_to(rt, &mut desk, request, &mut shown)?)?;
        }
    }
    Ok(())
}

fn main(rt: HostRuntime) -> anyhow::Result<()> {
    serve(&rt)
}
