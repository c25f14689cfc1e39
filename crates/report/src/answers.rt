ghost use Rattle.std.specs.Prelude.{IfOk, string_bytes};
ghost use Rattle.report.specs.Answers.{ShowsBest, Answers};

use drawing::{svg, timeline};
use reasons::explain;
use std::alloc::{AllocError, Global};
use text::{NamedNight, ReadError, refusal_line};

// How a plan is shown.
#[derive(Clone, Copy, Debug, PartialEq)]
pub enum View {
    // In words: its worth, and the passes of each dish.
    Plan,
    // As a picture made of text.
    Timeline,
    // As a drawing for a browser.
    Svg,
    // In words, with a line for each pass that says why it is followed or let go.
    Why,
}

impl View {
    // A best plan for a night, as it is shown.
    fn show(self, alloc: Global, night: NamedNight) -> Result<String, AllocError>
        ensures { IfOk result (λ text. ShowsBest self night (string_bytes text)) }
    {
        match self {
            View::Plan => night.plan(alloc)?.text(alloc),
            View::Timeline => timeline(alloc, &night.plan(alloc)?),
            View::Svg => svg(alloc, &night.plan(alloc)?),
            View::Why => explain(alloc, night)?.text(alloc),
        }
    }
}

// What is answered to the text of a list.
#[derive(Drop)]
pub enum Answer {
    // A best plan for the list, as it is shown.
    Planned(String),
    // One line that says why the list is turned away.
    TurnedAway(String),
}

// Reads a list, plans it and shows the plan, or says why it is turned away.
pub fn respond(alloc: Global, view: View, text: &[u8]) -> Result<Answer, AllocError>
    ensures { IfOk result (Answers view text.now) }
{
    match NamedNight::read(alloc, text) {
        Ok(night) => Ok(Answer::Planned(view.show(alloc, night)?)),
        Err(ReadError::TurnedAway(why)) => {
            Ok(Answer::TurnedAway(refusal_line(alloc, text, why)?))
        }
        Err(ReadError::Memory) => Err(AllocError),
    }
}
