// How many passes hold a dish at once.
ghost use Rattle.std.specs.Prelude.{◌≡◌};
ghost use Rattle.passes.specs.Busy.{busy};
ghost use Rattle.capacity.specs.Peaks.{Busiest};

use passes::Pass;
use std::cmp::Reverse;
use std::iter::once;

// The first second in which most passes hold a dish, and how many do.
#[derive(Clone, Copy, Debug, PartialEq)]
pub struct Peak {
    pub second: u32,
    pub count: usize,
}

// The busiest second of a list of passes, in whatever order they stand. It is enough to look at begins.
pub fn busiest(passes: &[Pass], turn: u32) -> Peak
    ensures { Busiest turn passes.now result.second result.count }
{
    once(0)
        .chain(passes.iter().map(|pass| pass.from))
        .map(|second| Peak {
            second,
            count: busy_at(passes, second, turn),
        })
        .max_by_key(|peak| (peak.count, Reverse(peak.second)))
        .unwrap()
}

// How many passes hold a dish in this second. By a sum, since filtering and counting took more than twice as long on a long list.
fn busy_at(passes: &[Pass], second: u32, turn: u32) -> usize
    ensures { result ≡ busy turn passes.now second }
{
    passes
        .iter()
        .map(|pass| usize::from(pass.holds_dish_at(second, turn)))
        .sum()
}
