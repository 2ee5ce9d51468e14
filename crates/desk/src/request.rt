// A request, taken from a line.
ghost use Rattle.std.specs.Prelude.{◌≡◌, ◌≢◌, ◌⊎◌, [], IfOk, IfErr, MatchOption, MatchResult, Ok, Err, slice_index};
ghost use Rattle.std.specs.Str.Parse.{without_leading_plus};
ghost use Rattle.desk.specs.Requests.{first_of, others_of};

use std::fmt;
use std::num::ParseIntError;
use std::str::FromStr;

// What a line asks for. Numbers are decimal. What a shelf has to judge, as a group that is none, is passed on to it.
#[derive(Clone, Copy)]
pub enum Request<'a> {
    Open(Opening),
    File(Filing<'a>),
    Release(u64),
    Count(u64),
    // with the room for the head, where it is said
    Show(u64, Option<usize>),
}

// The strip length, the first group's number, and how many bytes a shelf gets.
#[derive(Clone, Copy)]
pub struct Opening {
    pub strip: usize,
    pub first: u64,
    pub bytes: usize,
}

// A recording, by its path or by its bytes, and the memory to file it with where it is said.
#[derive(Clone, Copy)]
pub struct Filing<'a> {
    pub source: &'a str,
    pub lent: Option<Lent>,
}

// How many rows and work bytes a filing is lent.
#[derive(Clone, Copy)]
pub struct Lent {
    pub rows: usize,
    pub work: usize,
}

// A line that is no request.
#[derive(Clone, Copy, Debug)]
pub struct BadLine;

impl fmt::Display for BadLine {
    ghost use Rattle.std.specs.Prelude.{Some};
    ghost use Rattle.desk.specs.Replies.{bad_line};

    ghost output = { λ _. Some bad_line };

    ghost styled_output = { λ _ _. Some bad_line };

    fn fmt<W: fmt::Write>(&self, f: &mut fmt::Formatter<W>) -> fmt::Result {
        f.write_str("bad line")
    }
}

// No filing has more rows: they are made once.
pub const MOST_ROWS: usize = 65_536;

// A number of decimal digits alone.
fn number<N: FromStr<Err = ParseIntError>>(word: &str) -> Result<N, BadLine>
    ensures value { IfOk result (λ n. N.from_str_gives word.now (Ok n)) }
    ensures digits { IfOk result (λ _. without_leading_plus word.now ≡ word.now) }
    ensures none { IfErr result (λ _. (slice_index word.now 0 ≡ 43) ⊎ ((e : ParseIntError) × N.from_str_gives word.now (Err e))) }
{
    if word.starts_with('+') {
        return Err(BadLine);
    }
    word.parse::<N>().map_err(|_| BadLine)
}

// Two words, with a space between them.
fn pair(words: &str) -> Result<(&str, &str), BadLine>
    ensures { MatchResult result (λ p. (p.0.now ≡ first_of words.now) × (p.1.now ≡ others_of words.now)) (λ _. others_of words.now ≡ []) }
{
    words.split_once(' ').ok_or(BadLine)
}

// The first word of some, and the others where a space follows it.
fn first_word(words: &str) -> (&str, Option<&str>)
    ensures first { result.0.now ≡ first_of words.now }
    ensures others { MatchOption result.1 (first_of words.now ≡ words.now) (λ w. (w.now ≡ others_of words.now) × (first_of words.now ≢ words.now)) }
{
    match words.split_once(' ') {
        Some((word, others)) => (word, Some(others)),
        None => (words, None),
    }
}

impl FromStr for Opening {
    ghost use Rattle.desk.specs.Requests.{Reads, IsOpening};

    type Err = BadLine;

    ghost from_str_gives = { λ words r. Reads (IsOpening words) r };

    fn from_str(words: &str) -> Result<Opening, BadLine> {
        let (strip, words) = pair(words)?;
        let (first, bytes) = pair(words)?;
        Ok(Opening {
            strip: number(strip)?,
            first: number(first)?,
            bytes: number(bytes)?,
        })
    }
}

impl FromStr for Lent {
    ghost use Rattle.desk.specs.Requests.{Reads, IsLent};

    type Err = BadLine;

    ghost from_str_gives = { λ words r. Reads (IsLent words) r };

    fn from_str(words: &str) -> Result<Lent, BadLine> {
        let (rows, work) = pair(words)?;
        let rows = number(rows)?;
        if rows > MOST_ROWS {
            return Err(BadLine);
        }
        let work = number(work)?;
        Ok(Lent { rows, work })
    }
}

impl<'a> TryFrom<&'a str> for Filing<'a> {
    ghost use Rattle.desk.specs.Requests.{Reads, IsFiling};

    type Error = BadLine;

    ghost try_from_gives = { λ words r. Reads (IsFiling words.now) r };

    fn try_from(words: &'a str) -> Result<Filing<'a>, BadLine> {
        let (source, lent) = first_word(words);
        if source.is_empty() {
            return Err(BadLine);
        }
        let lent = lent.map(|words| words.parse::<Lent>()).transpose()?;
        Ok(Filing { source, lent })
    }
}

impl<'a> TryFrom<&'a str> for Request<'a> {
    ghost use Rattle.desk.specs.Requests.{Reads, IsRequest};

    type Error = BadLine;

    ghost try_from_gives = { λ line r. Reads (IsRequest line.now) r };

    fn try_from(line: &'a str) -> Result<Request<'a>, BadLine> {
        let (name, words) = pair(line)?;
        match name {
            "open" => Ok(Request::Open(words.parse()?)),
            "file" => Ok(Request::File(Filing::try_from(words)?)),
            "release" => Ok(Request::Release(number(words)?)),
            "count" => Ok(Request::Count(number(words)?)),
            "show" => {
                let (group, room) = first_word(words);
                Ok(Request::Show(number(group)?, room.map(number::<usize>).transpose()?))
            }
            _ => Err(BadLine),
        }
    }
}
