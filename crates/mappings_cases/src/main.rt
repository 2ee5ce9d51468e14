// Reads the sections that standard input lists, one a line: a question (pmu or meta; with `no-` in front it is asked of a
// store that lacks the section), the byte order, how many rows there are, and an x with the section's bytes in hexadecimal.
// Answers each with a line: absent, the refusal, or the rows that are used and what they stand for. The rows come in dirty,
// and those past the answer have to be blank.
#![tactic(auto)]

mod question;

use crate::question::Question;
use anyhow::{Context, anyhow};
use hexadecimal::decode;
use section_store::SectionStore;
use std::io::{BufRead, BufReader};
use table::row::Row;
use table_cases::caller::DIRTY;
use wire::order::ByteOrder;

fn print_answer(
    rt: &HostRuntime,
    question: Question,
    store: &SectionStore<'_>,
    rows: &mut [Row],
) -> anyhow::Result<()> {
    let answer = question.table.read(store, rows);
    match answer {
        Ok(Some(used)) => print!(rt; "rows {used}")?,
        Ok(None) => print!(rt; "absent")?,
        Err(refusal) => print!(rt; "{refusal}")?,
    }
    let used = answer.ok().flatten().unwrap_or(0);
    for row in rows.iter().take(used) {
        let entry = question
            .table
            .entry(store, row)
            .context("a row stands for nothing")?;
        print!(rt; " {entry}")?;
    }
    println!(rt)?;
    if rows.iter().skip(used).any(|row| *row != Row::BLANK) {
        return Err(anyhow!("a row past the answer is not blank"));
    }
    Ok(())
}

fn print_line(rt: &HostRuntime, line: &str) -> anyhow::Result<()> {
    let (front, text) = line.split_once(" x").context(
        "a line is a question, an order, a number of rows, x and hexadecimal",
    )?;
    let (word, rest) = front.split_once(' ').context("a line has no order")?;
    let (order, count) = rest
        .split_once(' ')
        .context("a line has no number of rows")?;
    let order = order.parse::<ByteOrder>()?;
    let mut rows = vec![in rt.alloc(); DIRTY; count.parse::<u16>()? as usize]?;
    let bytes = decode(rt.alloc(), text.as_bytes())?.context("a line has no whole hexadecimal")?;
    let question = word.parse::<Question>()?;
    let store = SectionStore::new(order, question.asked_of.0, &bytes);
    print_answer(rt, question, &store, &mut rows)
}

fn main(rt: HostRuntime) -> anyhow::Result<()> {
    for line in BufReader::new(rt.alloc(), rt.stdin())?.lines(rt.alloc()) {
        print_line(&rt, line?.as_str())?;
    }
    Ok(())
}
