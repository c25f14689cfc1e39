// Plans with directions, judged by looking back from each pass to the one before it that has the same dish.
ghost use Rattle.std.specs.Prelude.{◌≡◌, ◌<◌, ℕ, Decides, length, MatchOption};
ghost use Rattle.passes.specs.Rule.{says};
ghost use Rattle.slewing.specs.Directions.{steps};
ghost use Rattle.slewing.specs.Slewed.{slewed};
ghost use Rattle.slewing.specs.Statements.{IsBefore};
ghost use Rattle.trials.specs.Looking.{OnTimeAt, SlewsIn};

use crate::looking_back::LookingBack;

impl LookingBack<'_> {
    // Whether the plan is good.
    pub fn is_good(&self) -> bool
        ensures { let l = self.now in result ≡ slewed l.station l.step l.sweeps.now l.passes.now l.plan.now }
    {
        for place in 0..self.passes.len() {
            if !self.is_sound(place) {
                return false;
            }
        }
        true
    }

    // Whether nothing is wrong with a pass: if it is followed, its dish is there, may follow it, and is in time.
    fn is_sound(&self, place: usize) -> bool
        requires within { place < length self.now.passes.now }
        ensures { let l = self.now in Decides result (SlewsIn l.station l.step l.sweeps.now l.passes.now l.plan.now place) }
    {
        let Some(dish) = self.plan[place].checked_sub(1) else {
            return true;
        };
        dish < self.station.dishes
            && self.passes[place].may_be_followed_by(dish)
            && self.is_on_time(place)
    }

    // Whether the dish of a pass is in time from the pass before it that has that dish.
    fn is_on_time(&self, place: usize) -> bool
        requires within { place < length self.now.passes.now }
        requires followed { 0 < says self.now.plan.now place }
        ensures { let l = self.now in Decides result (OnTimeAt l.station.turn l.step l.sweeps.now l.passes.now l.plan.now place) }
    {
        let Some(before) = self.before(place) else {
            return true;
        };
        let way = way_between(self.sweeps[before].end, self.sweeps[place].begin);
        let needed = self.station.turn as u64 + self.step as u64 * way as u64;
        self.passes[before].to as u64 + needed <= self.passes[place].from as u64
    }

    // The last pass before a pass that has the same dish.
    fn before(&self, place: usize) -> Option<usize>
        requires within { place < length self.now.passes.now }
        requires followed { 0 < says self.now.plan.now place }
        ensures { MatchOption result ((i : ℕ) → IsBefore self.now.plan.now i place → ⊥) (λ i. IsBefore self.now.plan.now i place) }
    {
        for other in (0..place).rev() {
            if self.plan[other] == self.plan[place] {
                return Some(other);
            }
        }
        None
    }
}

// The steps between two directions: as they are numbered, or on past the last of the 64, whichever is less.
fn way_between(from: u8, to: u8) -> u8
    ensures { result ≡ steps from to }
{
    let ahead = from.abs_diff(to);
    ahead.min(64u8.saturating_sub(ahead))
}
