// How an answer of ours stands to the Rust's, by the rules of compare/compare.py.
ghost use Rattle.std.specs.Prelude.{◌≡◌, true, IfSome, codes};
ghost use Rattle.std.specs.Str.{bytes_eq};
ghost use Rattle.replay.specs.Alike.{alike, is_equal, is_memory, is_rows, refuses_rows};

use answers::question::Question;
use std::fmt;

// Whether an answer is equal, or which known difference it shows.
#[derive(Clone, Copy, PartialEq, Eq, Debug)]
pub enum Verdict {
    Equal,
    // The Rust's maps grow, so it goes on where the rows that ours is lent ran out.
    TooFewRows,
    // The Rust asks for memory by a count before it looks whether the section can hold as much.
    TooMuchMemory,
    Other,
}

// What so many answers of the verdict are.
impl fmt::Display for Verdict {
    fn fmt<W: fmt::Write>(&self, f: &mut fmt::Formatter<W>) -> fmt::Result {
        f.write_str(match self {
            Verdict::Equal => "equal",
            Verdict::TooFewRows => "not comparable: too few rows",
            Verdict::TooMuchMemory => "known difference: too much memory",
            Verdict::Other => "other differences",
        })
    }
}

// A word of a text as a number.
fn number_at(text: &str, place: usize) -> Option<u32> {
    text.split(' ').nth(place)?.parse::<u32>().ok()
}

// A question with our answer and the Rust's.
#[derive(Clone, Copy)]
pub struct Case<'a> {
    pub question: &'a str,
    pub ours: &'a str,
    pub theirs: &'a str,
}

impl Case<'_> {
    // The Rust's errors have no place, so its refusal is equal to any of ours.
    fn is_equal(self) -> bool
        ensures { result ≡ alike self.entry.ours.now self.entry.theirs.now }
    {
        if self.theirs == "refused" {
            return self.ours.starts_with("refused ");
        }
        self.ours == self.theirs
    }

    fn asked(self) -> Option<Question> {
        let (word, _) = self.question.split_once(' ')?;
        word.parse::<Question>().ok()
    }

    // A table's refusal for want of rows; no other question has one.
    fn rows_refusal(self) -> Option<&'static str>
        ensures { IfSome result (λ t. refuses_rows t.now ≡ true) }
    {
        match self.asked()? {
            Question::PmuMappings => Some("refused 31 4 16 0"),
            Question::MetaInfo => Some("refused 31 4 129 0"),
            Question::BuildIds => Some("refused 31 4 2 0"),
            _ => None,
        }
    }

    // Whether an answer of the Rust has more rows than its question lends.
    fn has_more_rows(self) -> bool {
        self.theirs.starts_with("rows ")
            && number_at(self.question, 2)
                .zip(number_at(self.theirs, 1))
                .is_some_and(|(lent, taken)| taken > lent)
    }

    fn is_too_few_rows(self) -> bool
        ensures { result ≡ true → refuses_rows self.entry.ours.now ≡ true }
    {
        match self.rows_refusal() {
            Some(refusal) => self.ours == refusal && self.has_more_rows(),
            None => false,
        }
    }

    // The refusals that stand where the Rust asks for too much memory: no section holds so much.
    fn refuses_count(self) -> bool {
        match self.asked() {
            Some(Question::PmuMappings) => self.ours.starts_with("refused 11 2 16 "),
            Some(Question::Cmdline) => {
                self.ours.starts_with("refused 7 2 11 ")
                    || self.ours.starts_with("refused 9 2 11 ")
                    || self.ours.starts_with("refused 10 2 11 ")
            }
            _ => false,
        }
    }

    fn is_too_much_memory(self) -> bool
        ensures { result ≡ true → bytes_eq self.entry.theirs.now (codes "rust: too much memory") ≡ true }
    {
        self.theirs == "rust: too much memory" && self.refuses_count()
    }

    // The verdict on an answer.
    pub fn judge(self) -> Verdict
        ensures equal { is_equal result ≡ alike self.entry.ours.now self.entry.theirs.now }
        ensures rows { is_rows result ≡ true → refuses_rows self.entry.ours.now ≡ true }
        ensures memory { is_memory result ≡ true → bytes_eq self.entry.theirs.now (codes "rust: too much memory") ≡ true }
    {
        if self.is_equal() {
            return Verdict::Equal;
        }
        if self.is_too_few_rows() {
            return Verdict::TooFewRows;
        }
        if self.is_too_much_memory() {
            return Verdict::TooMuchMemory;
        }
        Verdict::Other
    }
}
