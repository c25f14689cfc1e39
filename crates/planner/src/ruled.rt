// A best plan by a rule.
ghost use Rattle.std.specs.Prelude.{◌≡◌, ◌≤◌, length};
ghost use Rattle.pruning.specs.declared.rounding.TheConstants.{WIDE_DISHES, WIDE_PASSES};
ghost use Rattle.capacity.specs.Order.{InTime};
ghost use Rattle.planner.specs.Ruled.{good_by, fits_by, PlannedBy};

use engine::{Both, Gained, Rule, Ruled, Seen, Summed, Tally, gain_most_by, is_run};
use passes::{Pass, Station};
use pruning::{Bids, NextPasses, Priced, ROUNDS, WIDE_DISHES, WIDE_PASSES, WideNight, bids_for};

// What stands at a place of the table of states seen before, where a rule has states S.
pub type SeenState<S> = Option<Seen<Both<Tally<NextPasses>, S>>>;

// Leaves in the room, of the good plans that a rule accepts, one that is worth as much as any, and answers its worth, and how many states the search
// visited; or answers that there is none, and leaves the room as it was. Each dish takes its own time to turn. If the room holds such a plan already, that may
// be the first one to be beaten. What is left in the table `seen` means nothing, and neither does what it holds before; the more places it has, the more
// the search leaves out.
// Kept: table and room stand beside the night, to be written. And the table is the caller's, who knows how long a state of the rule is.
pub fn best_by<R: Rule + Drop>(
    night: WideNight,
    rule: R,
    seen: &mut [SeenState<R::State>],
    room: &mut [u8],
) -> Gained
    requires one_each { length room.old ≡ length night.passes.now }
    ensures { PlannedBy (good_by night.entry.turns.now (R.automaton rule)) night.entry.passes.now room.old result.most room.new }
{
    best_at_prices(night, &bids_for(night), rule, seen, room)
}

// The same, once prices are found.
// Kept: as in `best_by`.
pub(crate) fn best_at_prices<R: Rule + Drop>(
    night: WideNight,
    bids: &Bids,
    rule: R,
    seen: &mut [SeenState<R::State>],
    room: &mut [u8],
) -> Gained
    requires one_each { length room.old ≡ length night.passes.now }
    ensures { PlannedBy (good_by night.entry.turns.now (R.automaton rule)) night.entry.passes.now room.old result.most room.new }
{
    let problem = Ruled {
        problem: Summed {
            gains: Priced::new(night, &bids.prices),
        },
        rule,
    };
    let mut made = [0; WIDE_PASSES];
    let made = &mut made[..room.len()];
    let mut given = bids.given;
    let plan = &mut given[..room.len()];
    // The auction's plan is the first to be beaten, if the rule accepts it. An auction that ended before its last round had one that is worth as much as
    // any: then nothing is left to search for, and the table isn't made ready for it.
    let is_accepted = is_run(&problem, plan);
    if !is_accepted {
        plan.copy_from_slice(room);
    }
    let places = if is_accepted && bids.rounds < ROUNDS {
        0
    } else {
        seen.len()
    };
    let gained = gain_most_by(&problem, made, &mut seen[..places], plan);
    if gained.most.is_some() {
        room.copy_from_slice(plan);
    }
    gained
}

// The same for a station, whose dishes all take the same time to turn.
// Kept: what is lent comes one by one, as in `best_by`.
pub fn best_of_station<R: Rule + Drop>(
    station: Station,
    passes: &[Pass],
    rule: R,
    seen: &mut [SeenState<R::State>],
    room: &mut [u8],
) -> Gained
    requires few_dishes { station.dishes ≤ WIDE_DISHES }
    requires few_passes { length passes.now ≤ WIDE_PASSES }
    requires in_time { InTime passes.now }
    requires one_each { length room.old ≡ length passes.now }
    ensures { PlannedBy (fits_by station (R.automaton rule)) passes.now room.old result.most room.new }
{
    // Kept: an array, of which the front is used, since there is no heap.
    let turns = [station.turn; WIDE_DISHES];
    let turns = &turns[..station.dishes as usize];
    best_by(WideNight { turns, passes }, rule, seen, room)
}
