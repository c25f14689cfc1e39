// What a pass has to be worth: by a search with the pass forced, or with it forbidden.
ghost use Rattle.std.specs.Prelude.{◌≡◌, ℕ, ◌<◌, true, false, length, MatchBool};
ghost use Rattle.passes.specs.Nights.{passes_of};
ghost use Rattle.passes.specs.Rule.{nth};
ghost use Rattle.sensitivity.specs.Answers.{CanAsk, TrulyFound};
ghost use Rattle.planner.specs.Ruled.{fits_by, follows};
ghost use Rattle.sensitivity.specs.Needing.{NoneMay};
ghost use Rattle.sensitivity.specs.PassRules.{AskedAnswered, ruled_pass, forces};

use crate::needed::Needed;
use crate::pass_rules::PassRule;
use engine::{Both, Gained, Rule, Together};
use passes::{MAX_PASSES, Night, Pass};
use planner::{SeenState, best_of_station};

// What stands in an array past the last pass.
const NO_PASS: Pass = Pass {
    from: 0,
    to: 0,
    worth: 0,
    marks: 0,
};

// What was found of a pass: what it has to be worth at least, and how many states the search visited for it, of which nothing is promised.
#[derive(Clone, Copy)]
pub(crate) struct Found {
    pub(crate) needed: Needed,
    pub(crate) visited: u64,
}

// A night, a rule on its plans, and a best plan by it, with its worth.
#[derive(Clone, Copy)]
pub(crate) struct RuledPlan<'a, R> {
    pub(crate) night: &'a Night,
    pub(crate) rule: R,
    pub(crate) plan: &'a [u8],
    pub(crate) worth: u64,
}

impl<R: Rule + Copy + Drop> RuledPlan<'_, R> {
    // Leaves in the room a best one of the plans that do with a pass as is asked, where the pass is worth so much, and answers its worth; or answers that
    // there is none, and leaves the room as it was. If the room holds such a plan already, that may be the first one to be beaten.
    // Kept: table and room are lent to be written.
    fn best_at(
        &self,
        asked: PassRule,
        worth: u32,
        seen: &mut [SeenState<Both<R::State, ()>>],
        room: &mut [u8],
    ) -> Gained
        requires within { ruled_pass asked < length (passes_of self.now.night.now) }
        requires one_each { length room.old ≡ length (passes_of self.now.night.now) }
        ensures { let n = self.now.night.now in AskedAnswered (fits_by n.station (R.automaton self.now.rule)) (forces asked) (passes_of n) (ruled_pass asked) worth room.old result.most room.new }
    {
        let mut passes = [NO_PASS; MAX_PASSES];
        let passes = &mut passes[..room.len()];
        passes.copy_from_slice(self.night.passes());
        passes[asked.pass()].worth = worth;
        let rule = Together {
            one: self.rule,
            other: asked,
        };
        best_of_station(self.night.station(), passes, rule, seen, room)
    }

    // What a pass has to be worth at least for a best plan to follow it. In the room is left a best one of the plans that follow it, if any does.
    // Kept: table and room are lent to be written.
    pub(crate) fn needed(
        &self,
        place: usize,
        seen: &mut [SeenState<Both<R::State, ()>>],
        room: &mut [u8],
    ) -> Found
        requires { let p = self.now in CanAsk (fits_by p.night.now.station (R.automaton p.rule)) (passes_of p.night.now) p.plan.now p.worth place room.old }
        ensures { let p = self.now in TrulyFound (fits_by p.night.now.station (R.automaton p.rule)) (passes_of p.night.now) place room.old result.needed room.new }
    {
        if self.plan[place] > 0 {
            return self.needed_if_followed(place, seen, room);
        }
        if self.is_heard(place) {
            return self.needed_if_let_go(place, seen, room);
        }
        Found {
            needed: Needed::Never,
            visited: 0,
        }
    }

    // The same of a pass that the plan follows: the best plan without it is searched for, and the plan itself is left.
    // Kept: as in `needed`.
    fn needed_if_followed(
        &self,
        place: usize,
        seen: &mut [SeenState<Both<R::State, ()>>],
        room: &mut [u8],
    ) -> Found
        requires can_ask { let p = self.now in CanAsk (fits_by p.night.now.station (R.automaton p.rule)) (passes_of p.night.now) p.plan.now p.worth place room.old }
        requires followed { follows self.now.plan.now place ≡ true }
        ensures { let p = self.now in TrulyFound (fits_by p.night.now.station (R.automaton p.rule)) (passes_of p.night.now) place room.old result.needed room.new }
    {
        let own = self.night.passes()[place].worth as u64;
        let others = self.worth.saturating_sub(own);
        room.copy_from_slice(self.plan);
        let mut without = [0; MAX_PASSES];
        let without = &mut without[..room.len()];
        without.copy_from_slice(self.plan);
        without[place] = 0;
        let found = self.best_at(PassRule::Forbidden(place), 0, seen, without);
        let needed = match found.most {
            Some(worth) => Needed::Worth(worth.saturating_sub(others) as u32),
            // no good plan leaves it out
            None => Needed::Worth(0),
        };
        Found {
            needed,
            visited: found.visited,
        }
    }

    // The same of a pass that the plan lets go, and that a dish may follow: the best plan with it is searched for, and left.
    // Kept: as in `needed`.
    fn needed_if_let_go(
        &self,
        place: usize,
        seen: &mut [SeenState<Both<R::State, ()>>],
        room: &mut [u8],
    ) -> Found
        requires can_ask { let p = self.now in CanAsk (fits_by p.night.now.station (R.automaton p.rule)) (passes_of p.night.now) p.plan.now p.worth place room.old }
        requires let_go { follows self.now.plan.now place ≡ false }
        ensures { let p = self.now in TrulyFound (fits_by p.night.now.station (R.automaton p.rule)) (passes_of p.night.now) place room.old result.needed room.new }
    {
        // More than any plan without the pass is worth, so that the search sees at once that it has to follow it, and a multiple of the unit of worth, unless the
        // pass is worth nothing.
        let own = self.night.passes()[place].worth;
        let raised = (self.worth as u32).saturating_add(own.max(1));
        let mut with = [0; MAX_PASSES];
        let with = &mut with[..room.len()];
        let found = self.best_at(PassRule::Forced(place), raised, seen, with);
        let needed = match found.most {
            Some(worth) => {
                room.copy_from_slice(with);
                let others = worth.saturating_sub(raised as u64);
                Needed::Worth(self.worth.saturating_sub(others) as u32)
            }
            None => Needed::Never,
        };
        Found {
            needed,
            visited: found.visited,
        }
    }

    // Whether a dish that is there may follow a pass.
    fn is_heard(&self, place: usize) -> bool
        requires within { place < length (passes_of self.now.night.now) }
        ensures { let n = self.now.night.now in MatchBool result (NoneMay n.station (nth (passes_of n) place) → ⊥) (NoneMay n.station (nth (passes_of n) place)) }
    {
        let pass = self.night.passes()[place];
        // Kept: no list is gone through here, since a dish is a number. Of `any` over the range the proof didn't know what its test says of each.
        for dish in 0..self.night.station().dishes {
            if pass.may_be_followed_by(dish) {
                return true;
            }
        }
        false
    }
}
