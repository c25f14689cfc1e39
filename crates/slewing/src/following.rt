// The rule that a dish is there in time from each pass to the next one that it follows.
ghost use Rattle.std.specs.Prelude.{◌≡◌, true, slice_get};
ghost use Rattle.engine.specs.Rules.{Grants};
ghost use Rattle.passes.specs.Nights.{passes_of};
ghost use Rattle.capacity.specs.Order.{InTime, InTime-prop};
ghost use Rattle.slewing.specs.Directions.{arrives, legs};
ghost use Rattle.slewing.specs.Following.{slew_automaton, can_follow, had_time, no_later, as_good, AllAsGood};
ghost use Rattle.slewing.specs.Slewings.{sweeps_of};

use crate::directions::{Leg, MOST_STEPS, Sweep, steps};
use crate::slewings::Slewing;
use engine::Rule;
use passes::{MAX_DISHES, Night, Pass};

// An odd number with ones and zeros all over, 2^64 by the golden ratio.
const MIXER: u64 = 0x9e37_79b9_7f4a_7c15;

// The second in which a dish's last pass ended, and the direction.
#[derive(Clone, Copy)]
pub struct Last {
    to: u32,
    end: u8,
}

impl Last {
    // Whether it ended at the same direction as another one, and no later.
    fn is_no_later(self, other: Option<Last>) -> bool
        ensures { result ≡ no_later self other }
    {
        match other {
            Some(other) => self.end == other.end && self.to <= other.to,
            None => false,
        }
    }
}

// Of each dish the last pass that it followed, if it has followed one.
#[derive(Clone, Copy)]
pub struct LastPasses {
    of_dish: [Option<Last>; MAX_DISHES],
}

// The rule, for passes in order of begin.
#[derive(Clone, Copy, Drop)]
pub struct Slews<'a> {
    turn: u32,
    step: u32,
    passes: &'a [Pass],
    sweeps: &'a [Sweep],
    ghost in_time: { InTime passes.now } by { InTime-prop passes.now },
}

impl<'a> Slews<'a> {
    // The rule for a night.
    pub fn new(night: &'a Night, slewing: &'a Slewing) -> Slews<'a>
        ensures same_turn { result.turn ≡ night.now.station.turn }
        ensures same_step { result.step ≡ slewing.now.step }
        ensures same_passes { result.passes.now ≡ passes_of night.now }
        ensures same_sweeps { result.sweeps.now ≡ sweeps_of slewing.now }
    {
        Slews {
            turn: night.station().turn,
            step: slewing.step(),
            passes: night.passes(),
            sweeps: slewing.sweeps(),
        }
    }

    // The pass at a place, with its directions, if there is one.
    fn leg(&self, place: usize) -> Option<Leg>
        ensures { result ≡ slice_get (legs self.now.passes.now self.now.sweeps.now) place }
    {
        let pass = *self.passes.get(place)?;
        let sweep = *self.sweeps.get(place)?;
        Some(Leg { pass, sweep })
    }

    // Whether a dish is there when a pass begins, coming from its last pass, if it followed one.
    fn can_follow(&self, last: Option<Last>, leg: Leg) -> bool
        ensures { result ≡ can_follow self.now.turn self.now.step leg last }
    {
        let Some(last) = last else {
            return true;
        };
        let steps = steps(last.end, leg.sweep.begin);
        let needed = self.turn as u64 + self.step as u64 * steps as u64;
        last.to as u64 + needed <= leg.pass.from as u64
    }

    // Whether a dish with the first last pass can follow whatever it can with the second, from a second on.
    fn is_as_good(&self, second: u32, seen: Option<Last>, state: Option<Last>) -> bool
        ensures { result ≡ as_good self.now.turn self.now.step second seen state }
    {
        let Some(seen) = seen else {
            return true;
        };
        self.has_had_time(second, seen) || seen.is_no_later(state)
    }

    // The same for each dish.
    fn are_as_good(&self, second: u32, seen: LastPasses, state: LastPasses) -> bool
        ensures { result ≡ true → AllAsGood self.now.turn self.now.step second seen state }
    {
        seen.of_dish
            .iter()
            .zip(&state.of_dish)
            .all(|(seen, state)| self.is_as_good(second, *seen, *state))
    }

    // Whether a dish with this last pass has had time for any turning by a second.
    fn has_had_time(&self, second: u32, last: Last) -> bool
        ensures { result ≡ had_time self.now.turn self.now.step second last }
    {
        last.to as u64 + self.turn as u64 + self.step as u64 * MOST_STEPS as u64 <= second as u64
    }
}

impl Rule for Slews<'_> {
    type State = LastPasses;

    ghost automaton = { λ r. slew_automaton r.turn r.step (legs r.passes.now r.sweeps.now) };

    fn start(&self) -> LastPasses {
        LastPasses {
            of_dish: [None; MAX_DISHES],
        }
    }

    fn step(&self, stage: usize, choice: u8, mut state: LastPasses) -> Option<LastPasses> {
        let leg = self.leg(stage)?;
        let Some(dish) = choice.checked_sub(1) else {
            return Some(state);
        };
        let last = *state.of_dish.get(dish as usize)?;
        if !self.can_follow(last, leg) {
            return None;
        }
        let followed = Last {
            to: leg.pass.to,
            end: leg.sweep.end,
        };
        state.of_dish[dish as usize] = Some(followed);
        Some(state)
    }

    fn grants(&self, stage: usize, seen: LastPasses, state: LastPasses) -> bool {
        match self.passes.get(stage) {
            Some(pass) => self.are_as_good(pass.from, seen, state),
            None => false,
        }
    }

    // Dishes that have had time for any turning are all alike.
    fn slot(&self, stage: usize, state: LastPasses) -> u64 {
        let Some(pass) = self.passes.get(stage) else {
            return 0;
        };
        let mut mixed = 0u64;
        for last in state.of_dish {
            let number = match last {
                Some(last) if !self.has_had_time(pass.from, last) => {
                    last.to as u64 * 64 + last.end as u64 + 1
                }
                _ => 0,
            };
            mixed = (mixed ^ number).wrapping_mul(MIXER);
        }
        mixed >> 32
    }
}
