// What the search for a night's best plan may leave out.
#![tactic(auto)]

mod auction;
mod laws;
mod prepared;
mod prices;
mod rounding;
mod tables;
#[cfg(test)]
mod tests;
mod units;

pub use auction::{Bids, ROUNDS, bids_for};
pub use laws::prices_bound_stands;
pub use prices::Priced;
pub use rounding::{NextPasses, WIDE_DISHES, WIDE_PASSES, WideNight};
