ghost use Rattle.std.specs.Prelude.{◌≡◌, Some};
ghost use Rattle.passes.specs.Busy.{holds};
ghost use Rattle.passes.specs.Follow.{may, one_after};
ghost use Rattle.passes.specs.Numbers.{ReadAsPass};
ghost use Rattle.passes.specs.Texts.{out_of_range_text};

use std::error::Error;
use std::fmt;

// The last second in which a pass may end.
pub const MAX_SECOND: u32 = 1_000_000;

// How much a pass may be worth.
pub const MAX_WORTH: u32 = 1_000_000;

// The marks of all dishes that a station may have.
pub const MAX_MARKS: u32 = 15;

// A satellite's pass over the station: from the second `from` up to but not with the second `to`.
#[derive(Clone, Copy)]
pub struct Pass {
    pub from: u32,
    pub to: u32,
    pub worth: u32,
    // Dish d may follow it if bit d is set.
    pub marks: u8,
}

// Dishes, and how many seconds each needs to turn from one pass to another.
#[derive(Clone, Copy)]
pub struct Station {
    pub dishes: u8,
    pub turn: u32,
}

// Four numbers that are out of range for a pass.
#[derive(Clone, Copy, Debug, PartialEq)]
pub struct OutOfRange;

impl fmt::Display for OutOfRange {
    ghost output = { λ _. Some out_of_range_text };

    fn fmt<W: fmt::Write>(&self, f: &mut fmt::Formatter<W>) -> fmt::Result {
        f.write_str("numbers out of range for a pass")
    }
}

impl Error for OutOfRange {}

// A pass comes as four numbers: from, to, worth, marks.
impl TryFrom<[u32; 4]> for Pass {
    type Error = OutOfRange;

    ghost try_from_gives = { ReadAsPass };

    #[tactic(auto, using(std::proofs::lemmas::Bool::Decides::nat_tests), unfolding(crate::specs::Checks::in_range))]
    fn try_from(numbers: [u32; 4]) -> Result<Pass, OutOfRange> {
        let [from, to, worth, marks] = numbers;
        if from >= to || to > MAX_SECOND || worth > MAX_WORTH || marks > MAX_MARKS {
            return Err(OutOfRange);
        }
        Ok(Pass {
            from,
            to,
            worth,
            marks: marks as u8,
        })
    }
}

impl Pass {
    // Whether the marks have this dish.
    pub fn may_be_followed_by(self, dish: u8) -> bool
        ensures { result ≡ may self dish }
    {
        let marks = self.marks as u32;
        dish < 8 && (marks >> dish) & 1 == 1
    }

    // Whether one dish that takes `turn` seconds to turn can follow both.
    pub fn one_after(self, other: Pass, turn: u32) -> bool
        ensures { result ≡ one_after turn self other }
    {
        let turn = turn as u64;
        self.to as u64 + turn <= other.from as u64 || other.to as u64 + turn <= self.from as u64
    }

    // Whether it holds a dish in this second: from its begin up to its end, and for the `turn` seconds of turning after it.
    pub fn holds_dish_at(self, second: u32, turn: u32) -> bool
        ensures { result ≡ holds turn self second }
    {
        self.from <= second && (second as u64) < self.to as u64 + turn as u64
    }
}
