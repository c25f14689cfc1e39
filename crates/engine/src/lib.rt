// The best run of any sequence of decisions. Nights use `gain_most_by`, which finds, of the runs that a rule accepts, one that gains the most; below it is
// `search`, which goes by any order of final states.
#![tactic(auto)]

mod decisions;
mod gains;
mod laws;
mod problem;
mod ruled;
mod rules;
mod running;
mod searching;
mod seen;
mod summed;
#[cfg(test)]
mod tests;

pub use decisions::Decisions;
pub use gains::Gains;
pub use laws::{best_is_accepted_stands, ruled_runs_stand, together_stands};
pub use problem::Problem;
pub use ruled::{Ruled, gain_most_by};
pub use rules::{Anything, Both, Rule, Together};
pub use running::is_run;
pub use searching::{Searched, search};
pub use seen::Seen;
pub use summed::{Gained, Summed, Tally, gain_most};
