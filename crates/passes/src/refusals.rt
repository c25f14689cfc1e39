ghost use Rattle.std.specs.Prelude.{◌≡◌, Some};
ghost use Rattle.passes.specs.Refusals.{number_of, place_of};
ghost use Rattle.passes.specs.Texts.{refusal_text};

use std::error::Error;
use std::fmt;

// Why an input is turned away.
#[derive(Clone, Copy, Debug, PartialEq)]
pub enum Refusal {
    // The station has no dish, or more than 4.
    BadDishes,
    // The dishes take more than 100,000 seconds to turn.
    BadTurning,
    // The first pass at fault.
    BadPass(usize),
    // The length of a room, or of a plan, that isn't a number for each pass.
    BadRoom(usize),
}

impl Refusal {
    // The number by which users know it. Kept: a number, since the planning entry answers it where there is no `Result`, as for a caller in C.
    pub fn number(self) -> u64
        ensures { result ≡ number_of self }
    {
        match self {
            Refusal::BadDishes | Refusal::BadTurning => 1,
            Refusal::BadPass(_) => 2,
            Refusal::BadRoom(_) => 3,
        }
    }

    // Where the fault is, counted from 0. Kept: no `From`, since number and place are both whole numbers.
    pub fn place(self) -> usize
        ensures { result ≡ place_of self }
    {
        match self {
            Refusal::BadDishes => 0,
            Refusal::BadTurning => 1,
            Refusal::BadPass(pass) => pass,
            Refusal::BadRoom(length) => length,
        }
    }
}

impl fmt::Display for Refusal {
    ghost output = { λ r. Some (refusal_text r) };

    fn fmt<W: fmt::Write>(&self, f: &mut fmt::Formatter<W>) -> fmt::Result {
        write!(f, "number {} at {}", self.number(), self.place())
    }
}

impl Error for Refusal {}
