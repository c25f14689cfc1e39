// All plans of a list, tried one by one.
ghost use Rattle.std.specs.Prelude.{◌≡◌, ◌<◌, ◌≤◌, length};
ghost use Rattle.passes.specs.Nights.{passes_of};
ghost use Rattle.trials.specs.Numbered.{plan_numbered, good_of, MostOfAll};

use crate::judges::Judge;

// What a best plan is worth by what a judge goes by: each plan that names dishes that are there is written into the room and judged. None where there
// are more than 64 bits count.
pub fn most_worth(judge: &Judge, room: &mut [u8]) -> Option<u64>
    requires one_each { length room.old ≡ length (passes_of judge.now.night) }
    ensures { MostOfAll (good_of judge.now) judge.now.night.station (passes_of judge.now.night) result }
{
    let base = judge.night.station().dishes as u64 + 1;
    let plans = base.checked_pow(room.len() as u32)?;
    let mut most = 0;
    for number in 0..plans {
        write_plan(number, base, room);
        most = most.max(judge.worth_if_good(room));
    }
    Some(most)
}

// Writes the plan that a number stands for: its digits, of which there are `base`, the first pass's first.
pub(crate) fn write_plan(number: u64, base: u64, room: &mut [u8])
    requires some { 0 < base }
    requires few { base ≤ 256 }
    ensures { room.new ≡ plan_numbered base number (length room.old) }
{
    let mut rest = number;
    for named in room.iter_mut() {
        *named = (rest % base) as u8;
        rest /= base;
    }
}
