// How texts are answered.
ghost use Rattle.std.specs.Prelude.{◌≡◌, [], ◌∷◌, length, map, count_by, IfOk};
ghost use Rattle.damage.specs.Outcomes.{OutcomeOf, is_good, is_wrong, has_number};

use std::alloc::{AllocError, Global};
use std::fmt;
use text::{NamedNight, Planned, ReadError};

// How a text is answered.
#[derive(Clone, Copy, Debug, PartialEq)]
pub enum Outcome {
    // With a plan that the judge finds good, and worth what is said.
    Good { worth: u64 },
    // With another plan. It is proved that this doesn't come up, and the program sees whether the compilers keep to that.
    Wrong,
    // With a refusal, by its number and its place.
    TurnedAway { number: u64, place: usize },
}

impl fmt::Display for Outcome {
    fn fmt<W: fmt::Write>(&self, f: &mut fmt::Formatter<W>) -> fmt::Result {
        match self {
            Outcome::Good { worth } => write!(f, "worth {worth}"),
            Outcome::Wrong => f.write_str("planned wrongly"),
            Outcome::TurnedAway { number, place } => {
                write!(f, "turned away, number {number} at {place}")
            }
        }
    }
}

// Reads a text and plans what it says.
pub fn outcome_of(alloc: Global, text: &[u8]) -> Result<Outcome, AllocError>
    ensures { IfOk result (OutcomeOf text.now) }
{
    match NamedNight::read(alloc, text) {
        Ok(night) => Ok(judged(&night.plan(alloc)?)),
        Err(ReadError::TurnedAway(why)) => Ok(Outcome::TurnedAway {
            number: why.number(),
            place: why.place(),
        }),
        Err(ReadError::Memory) => Err(AllocError),
    }
}

// What the judge says of a plan.
fn judged(planned: &Planned) -> Outcome
    ensures { result ≡ Outcome.Good planned.now.worth }
{
    match planned.night().night().judge(planned.plan()) {
        Ok(Ok(worth)) if worth == planned.worth() => Outcome::Good { worth },
        _ => Outcome::Wrong,
    }
}

// How many texts there were, and how they were answered.
#[derive(Clone, Copy)]
pub struct Score {
    texts: usize,
    good: usize,
    wrong: usize,
    // With each number from 1 to 5.
    numbers: [usize; 5],
}

impl Score {
    // What is to be said of these.
    pub fn of(outcomes: &[Outcome]) -> Score
        ensures texts { result.texts ≡ length outcomes.now }
        ensures good { result.good ≡ count_by is_good outcomes.now }
        ensures wrong { result.wrong ≡ count_by is_wrong outcomes.now }
        ensures numbers { result.numbers ≡ map (λ n. count_by (has_number n) outcomes.now) (1 ∷ (2 ∷ (3 ∷ (4 ∷ (5 ∷ []))))) }
    {
        Score {
            texts: outcomes.len(),
            good: well_planned(outcomes),
            wrong: wrongly_planned(outcomes),
            numbers: [
                with_number(outcomes, 1),
                with_number(outcomes, 2),
                with_number(outcomes, 3),
                with_number(outcomes, 4),
                with_number(outcomes, 5),
            ],
        }
    }
}

// How many were planned well.
fn well_planned(outcomes: &[Outcome]) -> usize
    ensures { result ≡ count_by is_good outcomes.now }
{
    outcomes
        .iter()
        .filter(|o| matches!(o, Outcome::Good { .. }))
        .count()
}

// How many were planned otherwise.
fn wrongly_planned(outcomes: &[Outcome]) -> usize
    ensures { result ≡ count_by is_wrong outcomes.now }
{
    outcomes
        .iter()
        .filter(|o| matches!(o, Outcome::Wrong))
        .count()
}

// How many were turned away with this number.
fn with_number(outcomes: &[Outcome], number: u64) -> usize
    ensures { result ≡ count_by (has_number number) outcomes.now }
{
    outcomes
        .iter()
        .filter(|o| matches!(o, Outcome::TurnedAway { number: n, .. } if *n == number))
        .count()
}

impl fmt::Display for Score {
    fn fmt<W: fmt::Write>(&self, f: &mut fmt::Formatter<W>) -> fmt::Result {
        let [one, two, three, four, five] = self.numbers;
        write!(
            f,
            "{} texts, {} planned well, {} wrongly, {one} turned away with number 1, {two} with 2, {three} with 3, {four} with 4, {five} with 5",
            self.texts, self.good, self.wrong
        )
    }
}
