// What is said of a text that is turned away.
ghost use Rattle.std.specs.Prelude.{◌≡◌, Some, string_bytes, IfOk};
ghost use Rattle.text.specs.Messages.{line_rule, list_rule, rule_of, turned_away_text, error_text, line_at, shown_byte, shown, refusal_line};

use crate::faults::{LineFault, ListRule, ReadError, TurnedAway};
use crate::words::is_blank;
use std::alloc::{AllocError, Global};
use std::error::Error;
use std::fmt;

// How many bytes of a line are shown.
const MAX_SHOWN: usize = 120;

impl LineFault {
    // What would be right.
    #[tactic(auto, unfolding(crate::specs::Messages::line_rule))]
    fn rule(self) -> &'static str
        ensures { result.now ≡ line_rule self }
    {
        match self {
            LineFault::TooLong => "a line has at most 1000 bytes",
            LineFault::UnknownWord => "a line begins with dishes, pass or #",
            LineFault::NotStation => {
                "a station is written as: dishes 2 turn 3, or with a step: dishes 2 turn 3 step 4"
            }
            LineFault::NotPass => {
                "a pass is written as: pass hermes 0 10 worth 5 dishes 0 1, or with directions behind: directions 12 40"
            }
            LineFault::BadName => "a name is 1 to 32 letters, digits, - _ or .",
            LineFault::BadNumber => "a number is digits and below 4294967296",
            LineFault::BadDish => "a dish is a number below 32",
            LineFault::DishTwice => "a dish is named twice",
            LineFault::SecondStation => "a list has one station, and this is a second",
            LineFault::NoStation => "the station comes first, as: dishes 2 turn 3",
            LineFault::NoDirections => {
                "the station has a step, so a pass has directions, as: pass hermes 0 10 worth 5 dishes 0 1 directions 12 40"
            }
            LineFault::NoStep => {
                "a pass has directions only where the station has a step, as: dishes 2 turn 3 step 4"
            }
        }
    }
}

impl fmt::Display for LineFault {
    ghost output = { λ f. Some (line_rule f) };

    fn fmt<W: fmt::Write>(&self, f: &mut fmt::Formatter<W>) -> fmt::Result {
        f.write_str(self.rule())
    }
}

impl Error for LineFault {}

impl ListRule {
    // What would be right.
    #[tactic(auto, unfolding(crate::specs::Messages::list_rule))]
    fn text(self) -> &'static str
        ensures { result.now ≡ list_rule self }
    {
        match self {
            ListRule::Dishes => "a station has 1 to 4 dishes",
            ListRule::Turning => "dishes take at most 100000 seconds to turn",
            ListRule::Count => "a list has at most 48 passes",
            ListRule::Span => "a pass ends after it begins",
            ListRule::End => "a pass ends by second 1000000",
            ListRule::Worth => "a pass is worth at most 1000000",
            ListRule::Marks => "dishes are 0 to 3",
            ListRule::Order => "a pass begins no sooner than the one before it",
            ListRule::Step => "dishes take at most 1000000 seconds for a step",
            ListRule::Directions => "directions are 0 to 63",
        }
    }
}

impl fmt::Display for ListRule {
    ghost output = { λ r. Some (list_rule r) };

    fn fmt<W: fmt::Write>(&self, f: &mut fmt::Formatter<W>) -> fmt::Result {
        f.write_str(self.text())
    }
}

impl TurnedAway {
    // What would be right.
    fn rule(self) -> &'static str
        ensures { result.now ≡ rule_of self }
    {
        match self {
            TurnedAway::Unreadable(bad) => bad.fault.rule(),
            TurnedAway::Refused { rule, .. } => rule.text(),
        }
    }
}

impl fmt::Display for TurnedAway {
    ghost output = { λ t. Some (turned_away_text t) };

    #[tactic(auto, unfolding(crate::specs::Messages::turned_away_text))]
    fn fmt<W: fmt::Write>(&self, f: &mut fmt::Formatter<W>) -> fmt::Result {
        // Kept: wider than a line's number, so that one more is never too large.
        let line = self.line() as u128 + 1;
        write!(
            f,
            "number {} at {}: {}, in line {line}",
            self.number(),
            self.place(),
            self.rule()
        )
    }
}

impl Error for TurnedAway {}

impl fmt::Display for ReadError {
    ghost output = { λ e. Some (error_text e) };

    fn fmt<W: fmt::Write>(&self, f: &mut fmt::Formatter<W>) -> fmt::Result {
        match self {
            ReadError::Memory => f.write_str("memory ran out"),
            ReadError::TurnedAway(why) => write!(f, "{why}"),
        }
    }
}

impl Error for ReadError {}

// Says in one line why a text is turned away: the number, the place, what would be right, and the line at fault with its text.
pub fn refusal_line(alloc: Global, text: &[u8], why: TurnedAway) -> Result<String, AllocError>
    ensures { IfOk result (λ l. string_bytes l ≡ refusal_line text.now why) }
{
    let line = shown(alloc, line_at(text, why.line()))?;
    format!(in alloc; "turned away, {why}: {line}\n")
}

// Line i of a text, or no bytes past its end.
fn line_at(text: &[u8], i: usize) -> &[u8]
    ensures { result.now ≡ line_at text.now i }
{
    text.split(|byte| *byte == b'\n').nth(i).unwrap_or(&[])
}

// The front of a line, so that it prints.
fn shown(alloc: Global, line: &[u8]) -> Result<String, AllocError>
    ensures { IfOk result (λ t. string_bytes t ≡ shown line.now) }
{
    line.iter()
        .take(MAX_SHOWN)
        .map(|byte| shown_byte(*byte))
        .collect(alloc)
}

// A blank as a space, the byte itself if it prints, and else a question mark.
#[tactic(auto, using(std::proofs::lemmas::Bool::Decides::nat_tests), unfolding(crate::specs::Messages::shown_byte))]
fn shown_byte(byte: u8) -> char
    ensures { result ≡ shown_byte byte }
{
    if is_blank(byte) {
        ' '
    } else if matches!(byte, b' '..=b'~') {
        byte as char
    } else {
        '?'
    }
}
