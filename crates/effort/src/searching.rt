// A list planned in two ways.
ghost use Rattle.std.specs.Prelude.{IfOk, IfSome, IsSome};
ghost use Rattle.effort.specs.Comparisons.{BestOf};

use crate::cases::{Case, DISHES};
use engine::{Gained, Summed, gain_most};
use passes::{MAX_DISHES, Night};
use planner::{Counted, Scheduling, plan_counted};
use pruning::WideNight;
use std::alloc::{AllocError, Global};

// What the planner answers for a list.
pub fn plan_by_planner(alloc: Global, case: &Case) -> Result<Counted, AllocError>
    ensures { IfOk result (λ counted. BestOf case.now.turn case.now.numbers.items counted.worth) }
{
    let numbers = case.numbers.as_slice();
    let mut room = vec![in alloc; 0; numbers.len() / 4]?;
    Ok(plan_counted(DISHES, case.turn, numbers, room.as_mut_slice()).unwrap())
}

// What the plain search answers for a list. It goes through the seconds from which dishes are free, knows no prices and
// remembers no states, and begins with a room that holds no run.
pub fn plan_by_plain_search(alloc: Global, case: &Case) -> Result<Gained, AllocError>
    ensures some { IfOk result (λ gained. IsSome gained.most) }
    ensures worth { IfOk result (λ gained. IfSome gained.most (BestOf case.now.turn case.now.numbers.items)) }
{
    let night = Night::read(DISHES, case.turn, case.numbers.as_slice()).unwrap();
    let turns = [night.station().turn; MAX_DISHES];
    let wide = WideNight {
        turns: &turns,
        passes: night.passes(),
    };
    let problem = Summed {
        gains: Scheduling::new(wide),
    };
    let mut made = vec![in alloc; 0; night.passes().len()]?;
    let mut room = vec![in alloc; u8::MAX; night.passes().len()]?;
    Ok(gain_most(&problem, made.as_mut_slice(), &mut [], room.as_mut_slice()))
}
