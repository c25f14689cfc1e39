// What comes of trying cases.
ghost use Rattle.std.specs.Prelude.{◌≡◌, length, count_by, None, IfOk};
ghost use Rattle.passes.specs.Nights.{NightOf, passes_of};
ghost use Rattle.trials.specs.Numbered.{good_of, MostOfAll};
ghost use Rattle.trials.specs.Trials.{TrueTrial, Tried, lets_go, is_mismatch};

use crate::all_plans::most_worth;
use crate::cases::Case;
use crate::judges::Judge;
use passes::Night;
use planner::{Done, plan};
use std::alloc::{AllocError, Global};
use std::fmt;

// What came of trying a case.
#[derive(Clone, Copy, PartialEq)]
pub enum Trial {
    // It has a best plan, which follows every pass.
    AllFollowed,
    // It has a best plan, which lets a pass go.
    SomeLetGo,
    // What was planned isn't a best plan, or isn't worth what was answered; or there was no comparing it.
    Mismatch,
}

// Plans a case, and compares what comes of it with all plans.
pub fn try_case(alloc: Global, case: &Case) -> Result<Trial, AllocError>
    ensures { IfOk result (Tried case.now.dishes case.now.turn case.now.numbers.items) }
{
    let Ok(night) = Night::read(case.dishes, case.turn, case.numbers.as_slice()) else {
        return Ok(Trial::Mismatch);
    };
    let count = night.passes().len();
    // no dish has this number, so that a room that isn't written is found out
    let mut room = vec![in alloc; u8::MAX; count]?;
    let mut spare = vec![in alloc; 0; count]?;
    let judge = Judge {
        night,
        slewing: None,
    };
    Ok(try_night(case, &judge, room.as_mut_slice(), spare.as_mut_slice()))
}

// The same, for the night that was read from the case. The plan is made in the first room, and all plans in the other.
fn try_night(case: &Case, judge: &Judge, room: &mut [u8], spare: &mut [u8]) -> Trial
    requires read { NightOf case.now.dishes case.now.turn case.now.numbers.items judge.now.night }
    requires no_directions { judge.now.slewing ≡ None }
    requires one_each { length room.old ≡ length (passes_of judge.now.night) }
    requires a_place_each { length spare.old ≡ length (passes_of judge.now.night) }
    ensures { Tried case.now.dishes case.now.turn case.now.numbers.items result }
{
    let done = plan(case.dishes, case.turn, case.numbers.as_slice(), room);
    let most = most_worth(judge, spare);
    compare(judge, done, room, most)
}

// Compares what was answered, and left in the room, with what a best plan is worth.
pub fn compare(judge: &Judge, done: Done, room: &[u8], most: Option<u64>) -> Trial
    requires one_each { length room.now ≡ length (passes_of judge.now.night) }
    requires most { MostOfAll (good_of judge.now) judge.now.night.station (passes_of judge.now.night) most }
    ensures { TrueTrial (good_of judge.now) judge.now.night.station (passes_of judge.now.night) done room.now result }
{
    let (Some(most), Done::Planned(said)) = (most, done) else {
        return Trial::Mismatch;
    };
    if said != most || !judge.is_good_for(room, most) {
        Trial::Mismatch
    } else if room.contains(&0) {
        Trial::SomeLetGo
    } else {
        Trial::AllFollowed
    }
}

// How many cases were tried, and what came of it.
#[derive(Clone, Copy)]
pub struct Score {
    lists: usize,
    let_go: usize,
    mismatches: usize,
}

impl Score {
    // What came of some trials.
    pub fn of(trials: &[Trial]) -> Score
        ensures lists { result.lists ≡ length trials.now }
        ensures let_go { result.let_go ≡ count_by lets_go trials.now }
        ensures mismatches { result.mismatches ≡ count_by is_mismatch trials.now }
    {
        Score {
            lists: trials.len(),
            let_go: trials
                .iter()
                .filter(|trial| matches!(trial, Trial::SomeLetGo))
                .count(),
            mismatches: trials
                .iter()
                .filter(|trial| matches!(trial, Trial::Mismatch))
                .count(),
        }
    }
}

impl fmt::Display for Score {
    fn fmt<W: fmt::Write>(&self, f: &mut fmt::Formatter<W>) -> fmt::Result {
        write!(
            f,
            "{} lists, {} of which let a pass go, {} mismatches",
            self.lists, self.let_go, self.mismatches
        )
    }
}
