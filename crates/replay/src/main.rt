// Asks this library the questions that the Rust crate was asked, and counts the answers that are equal to the Rust's. A
// line of its input is a question, a tab and the Rust's answer (compare/README.md).
#![tactic(auto)]

mod tally;
mod verdict;

use answers::{all_rows, answer};
use anyhow::{Context, anyhow};
use std::io::{BufRead, BufReader};
use table::row::Row;
use tally::Tally;
use verdict::{Case, Verdict};

fn replay_line(rt: &HostRuntime, line: &str, rows: &mut [Row]) -> anyhow::Result<Verdict> {
    let (question, theirs) = line
        .split_once('\t')
        .context("a line without an answer of the Rust")?;
    let text = answer(rt.alloc(), question, rows)?;
    let ours = text.as_str();
    let case = Case {
        question,
        ours,
        theirs,
    };
    let found = case.judge();
    if found == Verdict::Other {
        println!(rt; "{question}\n    ours:   {ours}\n    theirs: {theirs}")?;
    }
    Ok(found)
}

fn replay(rt: &HostRuntime) -> anyhow::Result<()> {
    let mut rows = all_rows(rt.alloc())?;
    let mut tally = Tally::default();
    for line in BufReader::new(rt.alloc(), rt.stdin())?.lines(rt.alloc()) {
        tally = tally.with(replay_line(rt, line?.as_str(), &mut rows)?);
    }
    rt.print(tally)?;
    if tally.others > 0 {
        return Err(anyhow!("answers differ from the Rust's"));
    }
    Ok(())
}

fn main(rt: HostRuntime) -> anyhow::Result<()> {
    replay(&rt)
}
