ghost use Rattle.std.specs.Prelude.{◌≡◌, ◌<◌, false, length, take, MatchOption, MatchResult};
ghost use Rattle.std.specs.Result.{result_err};
ghost use Rattle.passes.specs.Nights.{passes_of};
ghost use Rattle.passes.specs.Plans.{Plan};
ghost use Rattle.passes.specs.Refusals.{or_else, room_refused};
ghost use Rattle.engine.specs.Rules.{anything};
ghost use Rattle.planner.specs.Ruled.{fits_by, BestBy, PlannedBy};
ghost use Rattle.sensitivity.specs.Answers.{place_refused, LeftBy, TrulyFound};
ghost use Rattle.sensitivity.specs.Needing.{TrueOf, BestOf, BestBy-prop};

use crate::asking::{Found, RuledPlan};
use crate::needed::Needed;
use engine::{Anything, Both, Rule};
use passes::{MAX_PASSES, Night, Refusal};
use planner::{SeenState, best_of_station, plan_taken};

// A night and a rule, with a best one of the good plans that the rule accepts, which can be asked about the night's passes.
// Kept: an array, of which the front is used, since there is no heap.
#[derive(Drop)]
pub struct Inquiry<'a, R: Rule> {
    night: &'a Night,
    rule: R,
    plan: [u8; MAX_PASSES],
    worth: u64,
    ghost best: { BestBy (fits_by night.now.station (R.automaton rule)) (passes_of night.now) (take (length (passes_of night.now)) plan) worth } by { BestBy-prop (fits_by night.now.station (R.automaton rule)) (passes_of night.now) (take (length (passes_of night.now)) plan) worth },
}

// Leaves a best plan of a night, where no rule refuses anything, in a room that has a number for each pass, and answers its worth.
// Kept: the room stands beside the night, to be written.
fn plan_into(night: &Night, room: &mut [u8]) -> u64
    requires one_each { length room.old ≡ length (passes_of night.now) }
    ensures { BestBy (fits_by night.now.station anything) (passes_of night.now) room.new result }
{
    plan_taken(night, room).unwrap()
}

// The same for the good plans that a rule accepts; or answers that there is none.
// Kept: what is lent comes one by one, as to `best_of_station`.
fn plan_by<R: Rule + Drop>(
    night: &Night,
    rule: R,
    seen: &mut [SeenState<R::State>],
    room: &mut [u8],
) -> Option<u64>
    requires one_each { length room.old ≡ length (passes_of night.now) }
    ensures { PlannedBy (fits_by night.now.station (R.automaton rule)) (passes_of night.now) room.old result room.new }
{
    best_of_station(night.station(), night.passes(), rule, seen, room).most
}

impl<'a> Inquiry<'a, Anything> {
    // Plans the night, where no rule refuses anything.
    pub fn new(night: &'a Night) -> Inquiry<'a, Anything>
        ensures { result.night.now ≡ night.now }
    {
        let mut plan = [0; MAX_PASSES];
        let worth = plan_into(night, &mut plan[..night.passes().len()]);
        Inquiry {
            night,
            rule: Anything,
            plan,
            worth,
        }
    }
}

impl<'a, R: Rule + Copy + Drop> Inquiry<'a, R> {
    // Plans the night by a rule; or answers that the rule accepts no good plan. What the table holds means nothing, neither before nor after. The caller
    // lends it, who knows how long a state of the rule is.
    pub fn by(night: &'a Night, rule: R, seen: &mut [SeenState<R::State>]) -> Option<Inquiry<'a, R>>
        ensures { MatchOption result ((ds : Plan) → fits_by night.now.station (R.automaton rule) (passes_of night.now) ds ≡ false) (λ i. (i.night.now ≡ night.now) × (i.rule ≡ rule)) }
    {
        let mut plan = [0; MAX_PASSES];
        let worth = plan_by(night, rule, seen, &mut plan[..night.passes().len()])?;
        Some(Inquiry {
            night,
            rule,
            plan,
            worth,
        })
    }

    // The plan: for each pass 0 if it isn't followed, or one more than the dish that follows it. No good plan that the rule accepts is worth more.
    pub fn plan(&self) -> &[u8]
        ensures plan { result.now ≡ take (length (passes_of self.now.night.now)) self.now.plan }
        ensures best { let n = self.now.night.now in BestBy (fits_by n.station (R.automaton self.now.rule)) (passes_of n) result.now self.now.worth }
    {
        &self.plan[..self.night.passes().len()]
    }

    // What the passes that are followed are worth together.
    pub fn worth(&self) -> u64
        ensures { result ≡ self.now.worth }
    {
        self.worth
    }

    // What pass `place` has to be worth at least for a best plan to follow it. In the room is left a best plan among those that follow it, if any does.
    // All plans meant are good ones that the rule accepts. The table is as in `by`.
    // Kept: table and room are lent to be written.
    pub fn ask(
        &self,
        place: usize,
        seen: &mut [SeenState<Both<R::State, ()>>],
        room: &mut [u8],
    ) -> Result<Needed, Refusal>
        ensures refusal { let n = length (passes_of self.now.night.now) in result_err result ≡ or_else (place_refused n place) (room_refused n (length room.old)) }
        ensures told { let n = self.now.night.now in let good = fits_by n.station (R.automaton self.now.rule) in MatchResult result (λ needed. TrueOf good (BestOf good) (passes_of n) place needed) (λ _. room.new ≡ room.old) }
        ensures left { let n = self.now.night.now in let good = fits_by n.station (R.automaton self.now.rule) in MatchResult result (λ needed. LeftBy good (passes_of n) place room.old needed room.new) (λ _. room.new ≡ room.old) }
    {
        if place >= self.night.passes().len() {
            return Err(Refusal::BadPass(place));
        }
        self.night.check_room(room.len())?;
        Ok(self.find(place, seen, room).needed)
    }

    // The same for a pass that is there, and a room that has a number for each, with how many states were visited.
    // Kept: as in `ask`.
    pub(crate) fn find(
        &self,
        place: usize,
        seen: &mut [SeenState<Both<R::State, ()>>],
        room: &mut [u8],
    ) -> Found
        requires within { place < length (passes_of self.now.night.now) }
        requires one_each { length room.old ≡ length (passes_of self.now.night.now) }
        ensures { let n = self.now.night.now in TrulyFound (fits_by n.station (R.automaton self.now.rule)) (passes_of n) place room.old result.needed room.new }
    {
        let asked = RuledPlan {
            night: self.night,
            rule: self.rule,
            plan: self.plan(),
            worth: self.worth,
        };
        asked.needed(place, seen, room)
    }
}
