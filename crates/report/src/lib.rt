// What the program answers: from the text of a list to the text that is shown.
#![tactic(auto)]

mod answers;
mod requests;

pub use answers::{Answer, View, respond};
pub use requests::{HELP, Request};

#[cfg(test)]
mod tests;
