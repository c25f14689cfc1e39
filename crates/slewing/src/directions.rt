ghost use Rattle.std.specs.Prelude.{◌≡◌, ◌≤◌};
ghost use Rattle.slewing.specs.Directions.{steps};

use passes::Pass;

// How many directions there are around, numbered from 0.
pub const DIRECTIONS: u8 = 64;

// The most steps between two directions, which is half of the way round.
pub(crate) const MOST_STEPS: u8 = DIRECTIONS / 2;

// The directions at which a pass begins and ends.
#[derive(Clone, Copy, Debug, PartialEq)]
pub struct Sweep {
    pub begin: u8,
    pub end: u8,
}

// A pass, with the directions at which it begins and ends.
#[derive(Clone, Copy)]
pub struct Leg {
    pub pass: Pass,
    pub sweep: Sweep,
}

// The steps between two directions, the shorter way round.
pub fn steps(from: u8, to: u8) -> u8
    ensures steps { result ≡ steps from to }
    ensures few { result ≤ 32 }
{
    let one_way = from.abs_diff(to);
    one_way.min(DIRECTIONS.saturating_sub(one_way))
}
