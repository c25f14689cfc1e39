// What each pass of a night would have to be worth for a best plan to follow it.
#![tactic(auto)]

mod answering;
mod asking;
mod inquiries;
mod laws;
mod needed;
mod pass_rules;
#[cfg(test)]
mod tests;

pub use answering::{try_why, why};
pub use inquiries::Inquiry;
pub use laws::{
    as_well_stands, below_never_stands, difference_stands, leaves_as_well_stands, lowered_stands,
    never_exactly_stands, no_dish_stands, only_one_stands, pass_rule_stands, told_alike_stands,
};
pub use needed::{NEVER, Needed};
pub use pass_rules::PassRule;
