// Kinds of random directions.
ghost use Rattle.std.specs.Prelude.{◌≡◌, ◌<◌, ◌≤◌};
ghost use Rattle.trials.specs.Headings.{kind_of, StepOf, DirectionOf};

use crate::kinds::Kind;
use rand::{Rng, RngExt};
use std::fmt;

// Directions next to the first one, and next to the one half around from it.
const NEAR: [u32; 5] = [0, 31, 32, 33, 63];

// What the cases with directions of a kind have in common.
#[derive(Clone, Copy)]
pub enum Way {
    // A step takes 1 to 5 seconds, and passes are seconds apart, as in all kinds but the next.
    ShortSteps,
    // A step takes 100 to 1000 seconds, and passes are hours apart.
    LongSteps,
    // All directions are next to the first one, or next to the one half around from it.
    HalfAround,
    // All directions are the same.
    AllTheSame,
}

impl fmt::Display for Way {
    fn fmt<W: fmt::Write>(&self, f: &mut fmt::Formatter<W>) -> fmt::Result {
        f.write_str(match self {
            Way::ShortSteps => "short steps",
            Way::LongSteps => "long steps",
            Way::HalfAround => "half the circle apart",
            Way::AllTheSame => "all directions the same",
        })
    }
}

impl Way {
    // Of which kind the passes are.
    pub fn kind(self) -> Kind
        ensures { result ≡ kind_of self }
    {
        match self {
            Way::LongSteps => Kind::HoursApart,
            _ => Kind::SecondsApart,
        }
    }

    // How many seconds a step takes.
    pub fn step<R: Rng>(self, rng: &mut R) -> u64
        ensures small { result ≤ 1000 }
        ensures way { StepOf self result }
    {
        match self {
            Way::LongSteps => rng.random_range(100..=1000),
            _ => rng.random_range(1..=5),
        }
    }

    // A direction for a case, of which one direction was drawn beforehand.
    pub fn direction<R: Rng>(self, rng: &mut R, drawn: u32) -> u32
        requires around { drawn < 64 }
        ensures around { result < 64 }
        ensures way { DirectionOf self drawn result }
    {
        match self {
            Way::HalfAround => NEAR[rng.random_range(0..5)],
            Way::AllTheSame => drawn,
            _ => rng.random_range(0..64),
        }
    }
}
