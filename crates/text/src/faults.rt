ghost use Rattle.std.specs.Prelude.{◌≡◌};
ghost use Rattle.text.specs.declared.faults.ReadError.TheVariants.{Memory};
ghost use Rattle.text.specs.Refusals.{number_of, place_of, line_of};

use slewing::SlewRefusal;
use std::alloc::{AllocError, AllocFailed};

// Why a line of a text can't be read.
#[derive(Clone, Copy, Debug, PartialEq)]
pub enum LineFault {
    // It is longer than 1,000 bytes.
    TooLong,
    // Its first word is none of those with which a line begins.
    UnknownWord,
    // It begins as a station does, and isn't one.
    NotStation,
    // It begins as a pass does, and isn't one.
    NotPass,
    // A name has other bytes than those that are for names, or too many.
    BadName,
    // A number has other bytes than digits, or is too large.
    BadNumber,
    // The number of a dish is 32 or above, so that it has no mark.
    BadDish,
    // A dish is named twice.
    DishTwice,
    // The station stands already.
    SecondStation,
    // A pass comes before the station, or the text ends without one.
    NoStation,
    // The station has a step, and a pass has no directions.
    NoDirections,
    // A pass has directions, and the station has no step.
    NoStep,
}

// A line that can't be read, counted from 0, and why.
#[derive(Clone, Copy, Debug, PartialEq)]
pub struct BadLine {
    pub line: usize,
    pub fault: LineFault,
}

// What is asked of a list whose lines can be read.
#[derive(Clone, Copy, Debug, PartialEq)]
pub enum ListRule {
    // The station has 1 to 4 dishes.
    Dishes,
    // They take at most 100,000 seconds to turn.
    Turning,
    // There are at most 48 passes.
    Count,
    // A pass ends after it begins.
    Span,
    // It ends by second 1,000,000.
    End,
    // It is worth at most 1,000,000.
    Worth,
    // Its dishes are among 0 to 3.
    Marks,
    // It begins no sooner than the one before it.
    Order,
    // Dishes take at most 1,000,000 seconds for a step.
    Step,
    // The directions of a pass are 0 to 63.
    Directions,
}

// Why a text is turned away.
#[derive(Clone, Copy, Debug, PartialEq)]
pub enum TurnedAway {
    // The first line that can't be read.
    Unreadable(BadLine),
    // All lines can be read, and this applies to what they say; the line is that of the station or of the pass at fault, and the rule is the one that
    // it breaks.
    Refused {
        refusal: SlewRefusal,
        line: usize,
        rule: ListRule,
    },
}

impl TurnedAway {
    // The number by which users know it.
    pub fn number(self) -> u64
        ensures { result ≡ number_of self }
    {
        match self {
            TurnedAway::Unreadable(_) => 4,
            TurnedAway::Refused { refusal, .. } => refusal.number(),
        }
    }

    // Where the fault is, counted from 0.
    pub fn place(self) -> usize
        ensures { result ≡ place_of self }
    {
        match self {
            TurnedAway::Unreadable(bad) => bad.line,
            TurnedAway::Refused { refusal, .. } => refusal.place(),
        }
    }

    // The line of the text that is at fault, counted from 0.
    pub fn line(self) -> usize
        ensures { result ≡ line_of self }
    {
        match self {
            TurnedAway::Unreadable(bad) => bad.line,
            TurnedAway::Refused { line, .. } => line,
        }
    }
}

// Why a text isn't read: it is turned away, or memory ran out.
#[derive(Clone, Copy, Debug, PartialEq)]
pub enum ReadError {
    Memory,
    TurnedAway(TurnedAway),
}

impl From<AllocError> for ReadError {
    ghost from_gives = { λ _ e. e ≡ Memory };

    fn from(_e: AllocError) -> ReadError {
        ReadError::Memory
    }
}

impl<T: Drop> From<AllocFailed<T>> for ReadError {
    ghost from_gives = { λ _ e. e ≡ Memory };

    fn from(_e: AllocFailed<T>) -> ReadError {
        ReadError::Memory
    }
}

// A line can't be read.
pub(crate) fn unreadable(line: usize, fault: LineFault) -> ReadError
    ensures { result ≡ ReadError.TurnedAway (TurnedAway.Unreadable (record { line = line; fault = fault })) }
{
    ReadError::TurnedAway(TurnedAway::Unreadable(BadLine { line, fault }))
}
