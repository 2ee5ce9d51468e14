// Answers one question a line about a feature section. A line is QUESTION ORDER ROWS SECTION, as docs/ASK.md has it.
#![tactic(auto)]

use answers::{all_rows, answer_owned};
use std::io::{BufRead, BufReader};

fn main(rt: HostRuntime) -> anyhow::Result<()> {
    let mut rows = all_rows(rt.alloc())?;
    for line in BufReader::new(rt.alloc(), rt.stdin())?.lines(rt.alloc()) {
        let text = answer_owned(rt.alloc(), line?, &mut rows)?;
        println!(rt; "{text}")?;
    }
    Ok(())
}
