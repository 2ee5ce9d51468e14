// What a section says, behind its length; or where it is refused.
use crate::words::InWords;
use std::{fmt, io};
use wire::refusal::{Refusal, WithoutLayer};

// What an answer says, if anything; else the section's line is ended: with the refusal, if it is one.
pub fn said<T: Copy>(
    rt: &HostRuntime,
    answer: Result<Option<T>, Refusal>,
) -> io::Result<Option<T>> {
    match answer {
        Ok(Some(fact)) => return Ok(Some(fact)),
        Ok(None) => println!(rt; "")?,
        Err(refusal) => {
            let refused = WithoutLayer(refusal);
            println!(rt; ": {refused}")?;
        }
    }
    Ok(None)
}

// The answer to a question, if the section says anything.
pub fn print_answer<T: Copy>(rt: &HostRuntime, answer: Result<Option<T>, Refusal>) -> io::Result<()>
where
    InWords<T>: fmt::Display,
{
    let Some(fact) = said(rt, answer)? else {
        return Ok(());
    };
    let words = InWords(fact);
    println!(rt; ": {words}")
}
