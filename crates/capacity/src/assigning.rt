// Dishes given to passes that all of them may follow.
ghost use Rattle.std.specs.Prelude.{◌≡◌, ℕ, ◌<◌, ◌≤◌, false, length, Some, MatchBool, MatchOption, MatchResult, OnErr};
ghost use Rattle.passes.specs.Follow.{may};
ghost use Rattle.passes.specs.Nights.{passes_of};
ghost use Rattle.passes.specs.Refusals.{room_refused};
ghost use Rattle.passes.specs.Rule.{says};
ghost use Rattle.capacity.specs.Assignments.{Assigned, Open, AllOpen, FirstClosed, FollowsAll, FirstOverfull, NoneFree, FirstFree, turned_away, unassigned_text};
ghost use Rattle.capacity.specs.Order.{InTime};
ghost use Rattle.capacity.specs.declared.assigning.Unassigned.TheVariants.{TurnedAway};

use passes::{MAX_DISHES, MAX_PASSES, Night, Pass, Refusal, Station};
use std::error::Error;
use std::fmt;

// Why there is no dish for every pass.
#[derive(Clone, Copy, Debug, PartialEq)]
pub enum Unassigned {
    // The room isn't a number for each pass.
    TurnedAway(Refusal),
    // The first pass that not every dish may follow.
    NotOpen(usize),
    // The first second in which more passes hold a dish than there are dishes.
    TooMany(u32),
}

impl fmt::Display for Unassigned {
    ghost output = { λ why. Some (unassigned_text why) };

    fn fmt<W: fmt::Write>(&self, f: &mut fmt::Formatter<W>) -> fmt::Result {
        match self {
            Unassigned::TurnedAway(why) => write!(f, "turned away, {why}"),
            Unassigned::NotOpen(pass) => write!(f, "not every dish may follow pass {pass}"),
            Unassigned::TooMany(second) => write!(f, "too many in second {second}"),
        }
    }
}

impl Error for Unassigned {}

impl From<Refusal> for Unassigned {
    ghost from_gives = { λ refusal why. why ≡ TurnedAway refusal };

    fn from(refusal: Refusal) -> Unassigned {
        Unassigned::TurnedAway(refusal)
    }
}

// Gives a dish to every pass of a night, if every dish may follow every pass: in order of begin, each pass gets a dish that is free. Where
// marks differ, one that is free need not be one that may follow, so such a night is not tried.
// Kept: the room stands beside the night, since it is the caller's and is lent to be written.
pub fn assign_all(night: &Night, room: &mut [u8]) -> Result<(), Unassigned>
    ensures refusal { turned_away result ≡ room_refused (length (passes_of night.now)) (length room.old) }
    ensures assigned { Assigned night.now.station (passes_of night.now) result room.new }
    ensures err { OnErr result (room.new ≡ room.old) }
{
    night.check_room(room.len())?;
    let station = night.station();
    let passes = night.passes();
    if let Some(i) = first_closed(station.dishes, passes) {
        return Err(Unassigned::NotOpen(i));
    }
    // Kept: an array, of which the front is used, since there is no heap.
    let mut numbers = [0; MAX_PASSES];
    let plan = &mut numbers[..passes.len()];
    give_dishes(station, passes, plan).map_err(Unassigned::TooMany)?;
    room.copy_from_slice(plan);
    Ok(())
}

// The first pass that not every dish may follow.
fn first_closed(dishes: u8, passes: &[Pass]) -> Option<usize>
    ensures { MatchOption result (AllOpen dishes passes.now) (FirstClosed dishes passes.now) }
{
    passes.iter().position(|pass| !is_open(*pass, dishes))
}

// Whether every dish may follow the pass.
fn is_open(pass: Pass, dishes: u8) -> bool
    ensures { MatchBool result (Open dishes pass) ((d : ℕ) × (d < dishes) × (may pass d ≡ false)) }
{
    (0..dishes).all(|dish| pass.may_be_followed_by(dish))
}

// Gives a free dish to one pass after the other, or answers the second in which there is none.
// Kept: by index. With `passes.iter().zip(plan.iter_mut())` no invariant can name the plan, nor does the proof know it after the loop.
fn give_dishes(station: Station, passes: &[Pass], plan: &mut [u8]) -> Result<(), u32>
    requires in_time { InTime passes.now }
    requires open { AllOpen station.dishes passes.now }
    requires few_dishes { station.dishes ≤ 4 }
    requires empty { (i : ℕ) → says plan.old i ≡ 0 }
    requires one_each { length plan.old ≡ length passes.now }
    ensures { MatchResult result (λ _. FollowsAll station passes.now plan.new) (FirstOverfull station passes.now) }
{
    // Kept: an array, of which the front is used, since there is no heap.
    let mut free = [0; MAX_DISHES];
    for (i, pass) in passes.iter().enumerate() {
        let there = &free[..station.dishes as usize];
        let dish = first_free(there, pass.from as u64).ok_or(pass.from)?;
        plan[i] = dish as u8 + 1;
        free[dish] = pass.to as u64 + station.turn as u64;
    }
    Ok(())
}

// The first dish that is free in this second, by the seconds from which each is.
fn first_free(free: &[u64], second: u64) -> Option<usize>
    ensures { MatchOption result (NoneFree (length free.now) free.now second) (FirstFree free.now second) }
{
    free.iter().position(|from| *from <= second)
}
