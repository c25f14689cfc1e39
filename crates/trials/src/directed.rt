// What comes of trying cases with directions.
ghost use Rattle.std.specs.Prelude.{◌≡◌, None, IfOk, length, count_by};
ghost use Rattle.passes.specs.Nights.{NightOf, passes_of, station_of};
ghost use Rattle.passes.specs.Numbers.{passes_in};
ghost use Rattle.passes.specs.Refusals.{refused};
ghost use Rattle.slewing.specs.Numbers.{sweeps_in};
ghost use Rattle.slewing.specs.Refusals.{slewing_refused};
ghost use Rattle.slewing.specs.Slewed.{slewed};
ghost use Rattle.trials.specs.Numbered.{good_of};
ghost use Rattle.trials.specs.Ways.{TriedWith, worth_less, directed_lets_go, directed_mismatch, is_less};

use crate::all_plans::most_worth;
use crate::directed_cases::DirectedCase;
use crate::judges::Judge;
use crate::trying::{Trial, compare};
use passes::Night;
use planner::{Done, plan};
use slewing::{Slewing, plan_slewing};
use std::alloc::{AllocError, Global};
use std::fmt;

// What came of trying a case with directions.
#[derive(Clone, Copy)]
pub struct DirectedTrial {
    pub trial: Trial,
    // Whether the plan is worth less than what is planned without directions.
    pub is_less: bool,
}

// Plans a case with directions, and compares what comes of it with all plans, and with what is planned without directions.
pub fn try_directed(alloc: Global, case: &DirectedCase) -> Result<DirectedTrial, AllocError>
    requires taken { let c = case.now.case in refused c.dishes c.turn c.numbers.items ≡ None }
    requires directed { slewing_refused (length (passes_in case.now.case.numbers.items)) case.now.step case.now.directions.items ≡ None }
    ensures { let c = case.now.case in IfOk result (TriedWith c.dishes c.turn c.numbers.items case.now.step case.now.directions.items) }
{
    let list = &case.case;
    let night = Night::read(list.dishes, list.turn, list.numbers.as_slice()).unwrap();
    let slewing = Slewing::read(&night, case.step, case.directions.as_slice()).unwrap();
    let count = night.passes().len();
    // no dish has this number, so that a room that isn't written is found out
    let mut room = vec![in alloc; u8::MAX; count]?;
    let mut spare = vec![in alloc; 0; count]?;
    let judge = Judge {
        night,
        slewing: Some(slewing),
    };
    Ok(try_judged(case, &judge, room.as_mut_slice(), spare.as_mut_slice()))
}

// The same, with what plans are judged by. The plan is made in the first room, and all others in the other.
fn try_judged(
    case: &DirectedCase,
    judge: &Judge,
    room: &mut [u8],
    spare: &mut [u8],
) -> DirectedTrial
    requires read { let c = case.now.case in NightOf c.dishes c.turn c.numbers.items judge.now.night }
    requires good { let c = case.now.case in good_of judge.now ≡ slewed (station_of c.dishes c.turn) case.now.step (sweeps_in case.now.directions.items) }
    requires one_each { length room.old ≡ length (passes_of judge.now.night) }
    requires a_place_each { length spare.old ≡ length (passes_of judge.now.night) }
    ensures { let c = case.now.case in TriedWith c.dishes c.turn c.numbers.items case.now.step case.now.directions.items result }
{
    let list = &case.case;
    let numbers = list.numbers.as_slice();
    let directions = case.directions.as_slice();
    let without = plan(list.dishes, list.turn, numbers, spare);
    let done = plan_slewing(list.dishes, list.turn, numbers, case.step, directions, room);
    let most = most_worth(judge, spare);
    DirectedTrial {
        trial: compare(judge, done, room, most),
        is_less: is_worth_less(done, without),
    }
}

// Whether the first answer is of a plan worth less than that of the other.
fn is_worth_less(done: Done, other: Done) -> bool
    ensures { result ≡ worth_less done other }
{
    match (done, other) {
        (Done::Planned(worth), Done::Planned(other)) => worth < other,
        _ => false,
    }
}

// How many cases with directions were tried, and what came of it.
#[derive(Clone, Copy)]
pub struct DirectedScore {
    lists: usize,
    let_go: usize,
    less: usize,
    mismatches: usize,
}

impl DirectedScore {
    // What came of some trials.
    pub fn of(trials: &[DirectedTrial]) -> DirectedScore
        ensures lists { result.lists ≡ length trials.now }
        ensures let_go { result.let_go ≡ count_by directed_lets_go trials.now }
        ensures less { result.less ≡ count_by is_less trials.now }
        ensures mismatches { result.mismatches ≡ count_by directed_mismatch trials.now }
    {
        DirectedScore {
            lists: trials.len(),
            let_go: trials
                .iter()
                .filter(|tried| matches!(tried.trial, Trial::SomeLetGo))
                .count(),
            less: trials.iter().filter(|tried| tried.is_less).count(),
            mismatches: trials
                .iter()
                .filter(|tried| matches!(tried.trial, Trial::Mismatch))
                .count(),
        }
    }
}

impl fmt::Display for DirectedScore {
    fn fmt<W: fmt::Write>(&self, f: &mut fmt::Formatter<W>) -> fmt::Result {
        write!(
            f,
            "{} lists, {} of which let a pass go, {} of which are worth less than without directions, {} mismatches",
            self.lists, self.let_go, self.less, self.mismatches
        )
    }
}
