// Random cases: a station, and a list of passes over it.
ghost use Rattle.std.specs.Prelude.{◌≡◌, ◌*◌, ◌<◌, ◌≤◌, None, IfOk, length};
ghost use Rattle.passes.specs.Checks.{max_worth};
ghost use Rattle.passes.specs.Nights.{station_of};
ghost use Rattle.passes.specs.Numbers.{passes_in};
ghost use Rattle.passes.specs.Refusals.{refused};
ghost use Rattle.sensitivity.specs.Needing.{with_worth};
ghost use Rattle.trials.specs.declared.kinds.TheConstants.{TRIED_PASSES};
ghost use Rattle.trials.specs.Kinds.{ListOf};
ghost use Rattle.trials.specs.Needs.{CanBeTried};

use crate::kinds::Kind;
use rand::{Rng, RngExt};
use std::alloc::{AllocError, Global};

// A station, and passes over it as numbers, four to a pass.
#[derive(Debug, Drop)]
pub struct Case {
    pub dishes: u64,
    pub turn: u64,
    pub numbers: Vec<u32>,
}

impl Case {
    // A random case of a kind.
    pub fn random<R: Rng>(alloc: Global, kind: Kind, rng: &mut R) -> Result<Case, AllocError>
        ensures taken { IfOk result (λ case. refused case.dishes case.turn case.numbers.items ≡ None) }
        ensures few { IfOk result (λ case. length case.numbers.items ≤ 4 * TRIED_PASSES) }
        ensures kind { IfOk result (λ case. ListOf kind case.dishes case.turn case.numbers.items) }
    {
        let dishes = rng.random_range(1..=4u32);
        let turn = kind.turn(rng);
        let mut numbers = Vec::new(alloc);
        let mut from = 0;
        for place in 0..kind.count(rng) {
            let pass = kind.pass(rng, dishes, place, from);
            numbers.extend_from_slice(&[pass.from, pass.to, pass.worth, pass.marks as u32])?;
            from = pass.from;
        }
        Ok(Case {
            dishes: dishes as u64,
            turn,
            numbers,
        })
    }

    // The same case with pass `place` worth so much.
    pub fn with_worth(&self, alloc: Global, place: usize, worth: u32) -> Result<Case, AllocError>
        requires tried { CanBeTried self.now.dishes self.now.turn self.now.numbers.items }
        requires within { place < length (passes_in self.now.numbers.items) }
        requires small { worth ≤ max_worth }
        ensures tried { IfOk result (λ case. CanBeTried case.dishes case.turn case.numbers.items) }
        ensures station { IfOk result (λ case. station_of case.dishes case.turn ≡ station_of self.now.dishes self.now.turn) }
        ensures passes { IfOk result (λ case. passes_in case.numbers.items ≡ with_worth (passes_in self.now.numbers.items) place worth) }
    {
        let mut numbers = Vec::from_slice(alloc, self.numbers.as_slice())?;
        numbers[4 * place + 2] = worth;
        Ok(Case {
            dishes: self.dishes,
            turn: self.turn,
            numbers,
        })
    }
}
