// The entry: a best plan where dishes take time for each step between directions.
ghost use Rattle.std.specs.Prelude.{◌≡◌, length, option_map, MatchResult};
ghost use Rattle.std.specs.Result.{result_err};
ghost use Rattle.passes.specs.Nights.{passes_of, station_of};
ghost use Rattle.passes.specs.Numbers.{passes_in};
ghost use Rattle.slewing.specs.Answers.{BestSlewed, SlewingSays};
ghost use Rattle.slewing.specs.Numbers.{sweeps_in};
ghost use Rattle.planner.specs.Ruled.{BestBy};
ghost use Rattle.slewing.specs.Refusals.{refused_slewing};
ghost use Rattle.slewing.specs.Slewings.{sweeps_of, directed_of, good_for, refused_directed};

use crate::following::{LastPasses, Slews};
use crate::refusals::SlewRefusal;
use crate::slewings::Slewing;
use passes::Night;
use planner::{Counted, Done, SeenState, best_of_station, plan_taken};

// How many states the search remembers: more than without directions, since there are more of them.
pub const SLEWING_PLACES: usize = 16_384;

// Leaves a plan that is worth as much as any in the room and answers its worth, where each pass begins and ends at directions, two to a pass, and a
// dish takes `step` seconds for each step from one pass to the next; or answers the number of the first refusal that applies and leaves the room as it
// was. Kept: the form of the entry is as that of `plan`, and what it is lent comes one by one.
pub fn plan_slewing(
    dishes: u64,
    turn: u64,
    passes: &[u32],
    step: u64,
    directions: &[u32],
    room: &mut [u8],
) -> Done
    ensures { SlewingSays (refused_slewing dishes turn passes.now (length room.old) step directions.now) (station_of dishes turn) step (sweeps_in directions.now) (passes_in passes.now) room.old result room.new }
{
    match try_plan_slewing(dishes, turn, passes, step, directions, room) {
        Ok(counted) => Done::Planned(counted.worth),
        Err(refusal) => Done::Refused(refusal.number()),
    }
}

// The same, with the refusal itself, which has its place, and with how many states the search visited, of which nothing is promised. Kept: it is lent what
// `plan_slewing` is.
pub fn try_plan_slewing(
    dishes: u64,
    turn: u64,
    passes: &[u32],
    step: u64,
    directions: &[u32],
    room: &mut [u8],
) -> Result<Counted, SlewRefusal>
    ensures refusal { result_err result ≡ refused_slewing dishes turn passes.now (length room.old) step directions.now }
    ensures planned { MatchResult result (λ c. BestSlewed (station_of dishes turn) step (sweeps_in directions.now) (passes_in passes.now) room.new c.worth) (λ _. room.new ≡ room.old) }
{
    let night = Night::read_for_room(dishes, turn, passes, room.len())?;
    let slewing = Slewing::read(&night, step, directions)?;
    let mut seen = [None; SLEWING_PLACES];
    Ok(best_of_slewing(&night, &slewing, &mut seen, room))
}

// Leaves a best plan of a night that was taken already in the room and answers its worth: with directions, or without. Turned away are a room that isn't a
// number for each pass, and then directions that aren't some for each pass. What is left in the table `seen` means nothing, and neither does what it holds
// before; with directions, the more places it has, the more the search leaves out, and without any it isn't looked at.
// Kept: table and room stand beside the night, to be written.
pub fn plan_directed(
    night: &Night,
    slewing: Option<Slewing>,
    seen: &mut [SeenState<LastPasses>],
    room: &mut [u8],
) -> Result<u64, SlewRefusal>
    ensures refusal { result_err result ≡ refused_directed (length (passes_of night.now)) slewing (length room.old) }
    ensures planned { MatchResult result (λ w. BestBy (good_for night.now.station (option_map directed_of slewing)) (passes_of night.now) room.new w) (λ _. room.new ≡ room.old) }
{
    night.check_room(room.len())?;
    let Some(slewing) = slewing else {
        return Ok(plan_taken(night, room)?);
    };
    let count = night.passes().len();
    if slewing.sweeps().len() != count {
        return Err(SlewRefusal::BadDirections(slewing.sweeps().len().min(count)));
    }
    Ok(best_of_slewing(night, &slewing, seen, room).worth)
}

// Leaves a best plan of a night with directions in a room that has a number for each pass, and answers its worth, and how many states the search visited.
// Kept: table and room stand beside the night, to be written.
fn best_of_slewing(
    night: &Night,
    slewing: &Slewing,
    seen: &mut [SeenState<LastPasses>],
    room: &mut [u8],
) -> Counted
    requires one_each { length room.old ≡ length (passes_of night.now) }
    requires directed { length (sweeps_of slewing.now) ≡ length (passes_of night.now) }
    ensures { BestSlewed night.now.station slewing.now.step (sweeps_of slewing.now) (passes_of night.now) room.new result.worth }
{
    let rule = Slews::new(night, slewing);
    let gained = best_of_station(night.station(), night.passes(), rule, seen, room);
    Counted {
        worth: gained.most.unwrap(),
        visited: gained.visited,
    }
}
