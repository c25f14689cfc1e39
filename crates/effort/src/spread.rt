// The middle and the largest of some numbers.
ghost use Rattle.std.specs.Prelude.{◌≡◌, [], MatchOption};
ghost use Rattle.effort.specs.Spreads.{SpreadOf};

use std::fmt;

// The median and the largest of some numbers.
#[derive(Clone, Copy)]
pub struct Spread {
    pub median: u64,
    pub largest: u64,
}

impl Spread {
    // The median and the largest of some numbers, if there are any. Of two in the middle the median is the lower.
    pub fn of(mut numbers: Vec<u64>) -> Option<Spread>
        ensures { MatchOption result (numbers.items ≡ []) (SpreadOf numbers.items) }
    {
        numbers.sort_unstable();
        let largest = *numbers.last()?;
        let median = numbers[(numbers.len() - 1) / 2];
        Some(Spread { median, largest })
    }
}

impl fmt::Display for Spread {
    fn fmt<W: fmt::Write>(&self, f: &mut fmt::Formatter<W>) -> fmt::Result {
        write!(f, "{} at the median, {} at most", self.median, self.largest)
    }
}
