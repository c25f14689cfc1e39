// Shapes of random lists.
ghost use Rattle.std.specs.Prelude.{◌≡◌, ◌<◌, ◌≤◌, true};
ghost use Rattle.passes.specs.Checks.{in_range};
ghost use Rattle.effort.specs.Shapes.{count_of, TurnOf, SpanOf, BeginOf, LengthOf, WorthOf, MarksOf, PassOf};

use passes::Pass;
use rand::{Rng, RngExt};
use std::fmt;

const MINUTE: u32 = 60;

const HOUR: u32 = 3600;

// The marks of two dishes.
const PAIRS: [u8; 6] = [3, 5, 6, 9, 10, 12];

// What the lists of a shape have in common. All but the ordinary ones have 48 passes, and marks, worths and turning like these but for what their names
// say; those from `AllMarks` on have the times of dense ones.
#[derive(Clone, Copy)]
pub enum Shape {
    // 40 passes of 5 to 15 minutes, each worth 1 to 100, that begin within 8 to 12 hours. All dishes, which take one or two minutes to turn, may
    // follow all but every fourth pass, which has random marks.
    Ordinary,
    // Such passes within 1 to 3 hours.
    Dense,
    // Passes of more than 10 minutes and up to 15 that begin within 10 minutes, so that any two overlap.
    Overlapping,
    // Within 1 to 4 hours every fourth pass lasts 30 to 90 minutes, and the others last 2 to 5.
    LongAndShort,
    // Each pass begins about a minute after the one before it, and lasts 21 minutes, so that it overlaps the next twenty.
    Staggered,
    AllMarks,
    HalfMarks,
    PairMarks,
    // A pass has the mark of one dish, and every third pass has all.
    FewMarks,
    EqualWorths,
    // 1 to 5.
    SmallWorths,
    // 1 to 1,000,000.
    LargeWorths,
    WorthsByLength,
    NoTurning,
    // 2,000 to 20,000 seconds.
    HugeTurning,
}

impl fmt::Display for Shape {
    fn fmt<W: fmt::Write>(&self, f: &mut fmt::Formatter<W>) -> fmt::Result {
        f.write_str(match self {
            Shape::Ordinary => "ordinary",
            Shape::Dense => "dense",
            Shape::Overlapping => "overlapping",
            Shape::LongAndShort => "long and short",
            Shape::Staggered => "staggered",
            Shape::AllMarks => "all marks",
            Shape::HalfMarks => "half of the marks",
            Shape::PairMarks => "marks of pairs",
            Shape::FewMarks => "few marks",
            Shape::EqualWorths => "equal worths",
            Shape::SmallWorths => "small worths",
            Shape::LargeWorths => "large worths",
            Shape::WorthsByLength => "worths by length",
            Shape::NoTurning => "no turning",
            Shape::HugeTurning => "huge turning",
        })
    }
}

impl Shape {
    // How many passes a list has.
    pub fn count(self) -> u32
        ensures few { result ≤ 48 }
        ensures shape { result ≡ count_of self }
    {
        match self {
            Shape::Ordinary => 40,
            _ => 48,
        }
    }

    // How long its dishes take to turn.
    pub fn turn<R: Rng>(self, rng: &mut R) -> u64
        ensures small { result ≤ 100000 }
        ensures shape { TurnOf self result }
    {
        match self {
            Shape::NoTurning => 0,
            Shape::HugeTurning => rng.random_range(2_000..=20_000),
            _ => rng.random_range(60..=120),
        }
    }

    // The last second in which a pass may begin.
    pub fn span<R: Rng>(self, rng: &mut R) -> u32
        ensures early { result ≤ 43200 }
        ensures shape { SpanOf self result }
    {
        match self {
            Shape::Ordinary => rng.random_range(8 * HOUR..=12 * HOUR),
            Shape::Overlapping => 10 * MINUTE,
            Shape::LongAndShort => rng.random_range(HOUR..=4 * HOUR),
            Shape::Staggered => 48 * MINUTE,
            _ => rng.random_range(HOUR..=3 * HOUR),
        }
    }

    // A second in which a pass begins, of those up to the last, for a place in the list.
    pub fn begin<R: Rng>(self, rng: &mut R, last: u32, place: u32) -> u32
        requires few { place < 48 }
        requires shape { SpanOf self last }
        ensures within { result ≤ last }
        ensures shape { BeginOf self place result }
    {
        match self {
            Shape::Staggered => MINUTE * place + rng.random_range(0..=10),
            _ => rng.random_range(0..=last),
        }
    }

    // The pass at a place, which begins in that second. How long it lasts is drawn from the first numbers, and all else from the others.
    #[tactic(auto, using(std::proofs::lemmas::Bool::Decides::nat_tests), unfolding(passes::specs::Checks::in_range))]
    pub fn pass<R: Rng>(self, times: &mut R, others: &mut R, place: u32, from: u32) -> Pass
        requires early { from ≤ 43200 }
        ensures range { in_range result ≡ true }
        ensures begin { result.from ≡ from }
        ensures shape { PassOf self place result }
    {
        let length = self.length(times, place);
        Pass {
            from,
            to: from + length,
            worth: self.worth(others, length),
            marks: self.marks(others, place),
        }
    }

    // How long the pass at a place lasts.
    fn length<R: Rng>(self, rng: &mut R, place: u32) -> u32
        ensures some { 0 < result }
        ensures short { result ≤ 5400 }
        ensures shape { LengthOf self place result }
    {
        match self {
            Shape::Overlapping => rng.random_range(10 * MINUTE + 1..=15 * MINUTE),
            Shape::LongAndShort if place % 4 == 0 => rng.random_range(30 * MINUTE..=90 * MINUTE),
            Shape::LongAndShort => rng.random_range(2 * MINUTE..=5 * MINUTE),
            Shape::Staggered => 21 * MINUTE,
            _ => rng.random_range(5 * MINUTE..=15 * MINUTE),
        }
    }

    // What a pass is worth that lasts so long.
    fn worth<R: Rng>(self, rng: &mut R, length: u32) -> u32
        requires short { length ≤ 5400 }
        ensures small { result ≤ 1000000 }
        ensures shape { WorthOf self length result }
    {
        match self {
            Shape::EqualWorths => 50,
            Shape::SmallWorths => rng.random_range(1..=5),
            Shape::LargeWorths => rng.random_range(1..=1_000_000),
            Shape::WorthsByLength => length,
            _ => rng.random_range(1..=100),
        }
    }

    // The marks of the pass at a place.
    fn marks<R: Rng>(self, rng: &mut R, place: u32) -> u8
        ensures small { result ≤ 15 }
        ensures shape { MarksOf self place result }
    {
        match self {
            Shape::AllMarks => 15,
            Shape::HalfMarks => rng.random_range(0..=15),
            Shape::PairMarks => PAIRS[rng.random_range(0..6)],
            Shape::FewMarks if place % 3 == 0 => 15,
            Shape::FewMarks => 1 << rng.random_range(0..4u32),
            _ if place % 4 == 3 => rng.random_range(0..=15),
            _ => 15,
        }
    }
}
