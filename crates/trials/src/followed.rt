// Whether some best plan follows a pass, by trying all plans.
ghost use Rattle.std.specs.Prelude.{◌≡◌, ◌^◌, ◌<◌, ◌≤◌, Decides, IfOk, length};
ghost use Rattle.passes.specs.Checks.{max_worth};
ghost use Rattle.passes.specs.Nights.{passes_of, station_of};
ghost use Rattle.passes.specs.Numbers.{passes_in};
ghost use Rattle.sensitivity.specs.Needing.{BestOf, SomeBestFollows};
ghost use Rattle.trials.specs.Needs.{CanBeTried, FollowedAt};
ghost use Rattle.trials.specs.Numbered.{good_of, plans_of};

use crate::all_plans::{most_worth, write_plan};
use crate::cases::Case;
use crate::judges::Judge;
use passes::Night;
use std::alloc::{AllocError, Global};

// Whether some best plan of a case would follow pass `place`, were that worth so much.
pub fn is_followed_at(
    alloc: Global,
    case: &Case,
    place: usize,
    worth: u32,
) -> Result<bool, AllocError>
    requires tried { CanBeTried case.now.dishes case.now.turn case.now.numbers.items }
    requires within { place < length (passes_in case.now.numbers.items) }
    requires small { worth ≤ max_worth }
    ensures { IfOk result (λ yes. Decides yes (FollowedAt (station_of case.now.dishes case.now.turn) (passes_in case.now.numbers.items) place worth)) }
{
    let varied = case.with_worth(alloc, place, worth)?;
    let night = Night::read(varied.dishes, varied.turn, varied.numbers.as_slice()).unwrap();
    let mut room = vec![in alloc; 0; night.passes().len()]?;
    let judge = Judge {
        night,
        slewing: None,
    };
    Ok(is_followed(&judge, place, room.as_mut_slice()))
}

// Whether some best plan, by what a judge goes by, follows pass `place`: each plan that names dishes that are there is written into the room and
// judged, until one that follows the pass is worth as much as a best one.
pub fn is_followed(judge: &Judge, place: usize, room: &mut [u8]) -> bool
    requires one_each { length room.old ≡ length (passes_of judge.now.night) }
    requires within { place < length (passes_of judge.now.night) }
    requires few { plans_of judge.now.night.station (passes_of judge.now.night) < 2 ^ 64 }
    ensures { Decides result (SomeBestFollows (BestOf (good_of judge.now)) (passes_of judge.now.night) place) }
{
    let most = most_worth(judge, room).unwrap();
    let base = judge.night.station().dishes as u64 + 1;
    for number in 0..base.pow(room.len() as u32) {
        write_plan(number, base, room);
        if room[place] > 0 && judge.is_good_for(room, most) {
            return true;
        }
    }
    false
}
