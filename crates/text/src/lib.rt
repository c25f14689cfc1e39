// Lists of passes as text: reading and writing them, and printing plans.
#![tactic(auto)]

mod blame;
mod draft;
mod draft_reading;
mod faults;
mod labels;
mod laws;
mod line;
mod line_reading;
mod messages;
mod names;
mod nights;
mod plan_text;
mod planned;
mod reading;
mod words;
mod writing;

pub use faults::{BadLine, LineFault, ListRule, ReadError, TurnedAway};
pub use laws::{
    all_or_none_stands, first_at_fault_stands, refused_for_what_it_says_stands, round_trip_stands,
    unreadable_first_stands,
};
pub use messages::refusal_line;
pub use nights::NamedNight;
pub use planned::Planned;

#[cfg(test)]
mod tests;
