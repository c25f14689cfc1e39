// A planned night as a picture: a timeline in text, and a drawing for a browser.
#![tactic(auto)]

mod areas;
mod bars;
mod drawings;
mod elements;
mod lanes;
mod levels;
mod padding;
mod picture;
mod places;
mod rows;
mod scale;
mod shown;
mod timelines;
mod turning;

pub use drawings::svg;
pub use timelines::timeline;

#[cfg(test)]
mod tests;
