// The entry: a best plan over all plans.
ghost use Rattle.std.specs.Prelude.{◌≡◌, length, MatchResult};
ghost use Rattle.std.specs.Result.{result_err};
ghost use Rattle.passes.specs.Nights.{passes_of, station_of};
ghost use Rattle.passes.specs.Numbers.{passes_in};
ghost use Rattle.passes.specs.Refusals.{room_refused, refused_with_room};
ghost use Rattle.capacity.specs.Alone.{BestPlanWorth};
ghost use Rattle.engine.specs.Rules.{anything};
ghost use Rattle.planner.specs.Answers.{done_of, DoneSays};
ghost use Rattle.planner.specs.Ruled.{good_by, PlannedBy};

use crate::ruled::best_at_prices;
use engine::{Anything, Gained};
use passes::{MAX_DISHES, Night, Refusal};
use pruning::{ROUNDS, WideNight, bids_for};

// How many states the search remembers.
pub const PLACES: usize = 1024;

// What came of planning.
// Kept: a kind and a number, and no `Result`: the form of the entry is fixed, so that C could call it.
#[derive(Clone, Copy, Debug, PartialEq)]
pub enum Done {
    // What the plan is worth.
    Planned(u64),
    // The number of the refusal.
    Refused(u64),
}

// Of a refusal its number is told.
impl From<Result<u64, Refusal>> for Done {
    ghost from_gives = { λ planned done. done ≡ done_of planned };

    fn from(planned: Result<u64, Refusal>) -> Done {
        match planned {
            Ok(worth) => Done::Planned(worth),
            Err(refusal) => Done::Refused(refusal.number()),
        }
    }
}

// Leaves a plan that is worth as much as any in the room and answers its worth, or answers the number of the first refusal that applies and
// leaves the room as it was. Kept: the form of the entry is fixed, and what it is lent comes one by one.
pub fn plan(dishes: u64, turn: u64, passes: &[u32], room: &mut [u8]) -> Done
    ensures { DoneSays (refused_with_room dishes turn passes.now (length room.old)) (station_of dishes turn) (passes_in passes.now) room.old result room.new }
{
    try_plan(dishes, turn, passes, room).into()
}

// The same, with the refusal itself, which has its place. Kept: it is lent what `plan` is.
pub fn try_plan(dishes: u64, turn: u64, passes: &[u32], room: &mut [u8]) -> Result<u64, Refusal>
    ensures refusal { result_err result ≡ refused_with_room dishes turn passes.now (length room.old) }
    ensures planned { MatchResult result (λ w. BestPlanWorth (station_of dishes turn) (passes_in passes.now) room.new w) (λ _. room.new ≡ room.old) }
{
    plan_counted(dishes, turn, passes, room).map(|counted| counted.worth)
}

// What a best plan is worth, and how many states were visited for what was asked: none where the first plan was seen to be a best one. What finding prices
// and that plan took isn't counted.
#[derive(Clone, Copy, Debug, PartialEq)]
pub struct Counted {
    pub worth: u64,
    pub visited: u64,
}

// As `try_plan`, with how many states the search visited. Kept: it is lent what `plan` is.
pub fn plan_counted(
    dishes: u64,
    turn: u64,
    passes: &[u32],
    room: &mut [u8],
) -> Result<Counted, Refusal>
    ensures refusal { result_err result ≡ refused_with_room dishes turn passes.now (length room.old) }
    ensures planned { MatchResult result (λ c. BestPlanWorth (station_of dishes turn) (passes_in passes.now) room.new c.worth) (λ _. room.new ≡ room.old) }
{
    let night = Night::read_for_room(dishes, turn, passes, room.len())?;
    Ok(best_of_night(&night, room))
}

// As `try_plan`, for a night that was taken already: only the room may be refused.
// Kept: the room stands beside the night, to be written.
pub fn plan_taken(night: &Night, room: &mut [u8]) -> Result<u64, Refusal>
    ensures refusal { result_err result ≡ room_refused (length (passes_of night.now)) (length room.old) }
    ensures planned { MatchResult result (λ w. BestPlanWorth night.now.station (passes_of night.now) room.new w) (λ _. room.new ≡ room.old) }
{
    night.check_room(room.len())?;
    Ok(best_of_night(night, room).worth)
}

// As `plan_taken`, for a room that has a number for each pass, with how many states the search visited. No rule refuses anything.
// Kept: the room stands beside the night, since it is the caller's and is lent to be written.
fn best_of_night(night: &Night, room: &mut [u8]) -> Counted
    requires one_each { length room.old ≡ length (passes_of night.now) }
    ensures { BestPlanWorth night.now.station (passes_of night.now) room.new result.worth }
{
    let station = night.station();
    // Kept: an array, of which the front is used, since there is no heap.
    let turns = [station.turn; MAX_DISHES];
    let turns = &turns[..station.dishes as usize];
    let wide = WideNight {
        turns,
        passes: night.passes(),
    };
    let gained = plan_each(wide, room);
    Counted {
        worth: gained.most.unwrap(),
        visited: gained.visited,
    }
}

// Leaves a best plan in the room, for dishes each of which takes its own time to turn. Where nothing is left to search for, no table is made.
// Kept: the room stands beside the night, to be written.
fn plan_each(night: WideNight, room: &mut [u8]) -> Gained
    requires one_each { length room.old ≡ length night.passes.now }
    ensures { PlannedBy (good_by night.entry.turns.now anything) night.entry.passes.now room.old result.most room.new }
{
    let bids = bids_for(night);
    if bids.rounds < ROUNDS {
        return best_at_prices(night, &bids, Anything, &mut [], room);
    }
    let mut seen = [None; PLACES];
    best_at_prices(night, &bids, Anything, &mut seen, room)
}
