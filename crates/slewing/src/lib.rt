// Best plans where dishes take time for each step between the directions at which passes end and begin.
#![tactic(auto)]

mod answering;
mod directions;
mod following;
mod laws;
mod reading;
mod refusals;
mod slewings;

pub use answering::{SLEWING_PLACES, plan_directed, plan_slewing, try_plan_slewing};
pub use directions::{DIRECTIONS, Leg, Sweep, steps};
pub use following::{Last, LastPasses, Slews};
pub use laws::{
    any_two_differs_stands, good_without_stands, more_seconds_stands, rule_means_stands,
    same_directions_stand, test_is_rule_stands,
};
pub use reading::MAX_STEP;
pub use refusals::SlewRefusal;
pub use slewings::Slewing;

#[cfg(test)]
mod tests;
