// The entry: a best plan, and of each pass what it would have to be worth.
ghost use Rattle.std.specs.Prelude.{◌≡◌, length, MatchResult};
ghost use Rattle.std.specs.Result.{result_err};
ghost use Rattle.passes.specs.Nights.{passes_of, station_of};
ghost use Rattle.passes.specs.Numbers.{passes_in};
ghost use Rattle.capacity.specs.Alone.{BestPlanWorth};
ghost use Rattle.sensitivity.specs.Answers.{WhySays, refused_with_rooms, EachTold};

use crate::inquiries::Inquiry;
use passes::{MAX_PASSES, Night, Refusal};
use planner::{Counted, Done, PLACES};

// Leaves a best plan in the room, and of each pass in the second room the number of what it would have to be worth at least for a best plan to follow
// it; and answers the plan's worth. Or answers the number of the first refusal that applies and leaves both rooms as they were.
// Kept: the form of the entry is fixed, and what it is lent comes one by one.
pub fn why(dishes: u64, turn: u64, passes: &[u32], room: &mut [u8], needed: &mut [u32]) -> Done
    ensures { WhySays (refused_with_rooms dishes turn passes.now (length room.old) (length needed.old)) (station_of dishes turn) (passes_in passes.now) room.old needed.old result room.new needed.new }
{
    try_why(dishes, turn, passes, room, needed)
        .map(|counted| counted.worth)
        .into()
}

// The same, with the refusal itself, which has its place, and with how many states were visited for what passes need, of which nothing is promised. Kept: it is lent
// what `why` is.
pub fn try_why(
    dishes: u64,
    turn: u64,
    passes: &[u32],
    room: &mut [u8],
    needed: &mut [u32],
) -> Result<Counted, Refusal>
    ensures refusal { result_err result ≡ refused_with_rooms dishes turn passes.now (length room.old) (length needed.old) }
    ensures planned { MatchResult result (λ c. BestPlanWorth (station_of dishes turn) (passes_in passes.now) room.new c.worth) (λ _. room.new ≡ room.old) }
    ensures told { MatchResult result (λ _. EachTold (station_of dishes turn) (passes_in passes.now) needed.new) (λ _. needed.new ≡ needed.old) }
{
    let night = Night::read_for_room(dishes, turn, passes, room.len())?;
    night.check_room(needed.len())?;
    Ok(tell_each(&night, room, needed))
}

// Leaves a best plan of a night in the room, and what is said of each pass, as a number, in the second room; and answers the plan's worth, and
// how many states were visited for what passes need.
// Kept: both rooms stand beside the night, to be written.
fn tell_each(night: &Night, room: &mut [u8], needed: &mut [u32]) -> Counted
    requires one_each { length room.old ≡ length (passes_of night.now) }
    requires second_too { length needed.old ≡ length (passes_of night.now) }
    ensures planned { BestPlanWorth night.now.station (passes_of night.now) room.new result.worth }
    ensures told { EachTold night.now.station (passes_of night.now) needed.new }
{
    let inquiry = Inquiry::new(night);
    // Kept: an array, of which the front is used, since there is no heap.
    let mut with = [0; MAX_PASSES];
    let mut seen = [None; PLACES];
    let mut visited = 0u64;
    // Kept: the place is what is asked about.
    for place in 0..needed.len() {
        let found = inquiry.find(place, &mut seen, &mut with[..room.len()]);
        needed[place] = found.needed.number();
        visited = visited.saturating_add(found.visited);
    }
    room.copy_from_slice(inquiry.plan());
    Counted {
        worth: inquiry.worth(),
        visited,
    }
}
