// How many answers there were of each verdict.
ghost use Rattle.std.specs.Prelude.{◌≡◌};
ghost use Rattle.replay.specs.Counted.{counted, more};

use crate::verdict::Verdict;
use std::fmt;

// The answers of each verdict, counted.
#[derive(Clone, Copy, Default)]
pub struct Tally {
    pub equal: u64,
    pub too_few_rows: u64,
    pub too_much_memory: u64,
    pub others: u64,
}

// A count, and one more where an answer counts for it.
fn more(counts: bool, count: u64) -> u64
    ensures { result ≡ more counts count }
{
    count.saturating_add(u64::from(counts))
}

impl Tally {
    // One answer more.
    pub fn with(self, verdict: Verdict) -> Tally
        ensures { result ≡ counted self verdict }
    {
        Tally {
            equal: more(verdict == Verdict::Equal, self.equal),
            too_few_rows: more(verdict == Verdict::TooFewRows, self.too_few_rows),
            too_much_memory: more(verdict == Verdict::TooMuchMemory, self.too_much_memory),
            others: more(verdict == Verdict::Other, self.others),
        }
    }
}

impl fmt::Display for Tally {
    fn fmt<W: fmt::Write>(&self, f: &mut fmt::Formatter<W>) -> fmt::Result {
        for (count, verdict) in [
            (self.equal, Verdict::Equal),
            (self.too_few_rows, Verdict::TooFewRows),
            (self.too_much_memory, Verdict::TooMuchMemory),
            (self.others, Verdict::Other),
        ] {
            writeln!(f, "{count} {verdict}")?;
        }
        Ok(())
    }
}
