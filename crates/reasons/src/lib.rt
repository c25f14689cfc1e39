// Why passes are followed or let go: what is true of each, and the words for it.
#![tactic(auto)]

mod asking;
mod explained;
mod explaining;
mod reason;
mod wording;

pub use explained::Explained;
pub use explaining::explain;
pub use reason::Reason;

#[cfg(test)]
mod tests;
