ghost use Rattle.std.specs.Prelude.{◌≡◌, ◌+◌, ◌<◌, ◌^◌, length, drop, option_map};
ghost use Rattle.passes.specs.Rule.{says};
ghost use Rattle.slewing.specs.Slewings.{directed_of, sweeps_of};
ghost use Rattle.drawing.specs.Shown.{view};
ghost use Rattle.drawing.specs.Turning.{sweep_of, to_next, slewing_after, turning_after};

use crate::picture::Picture;
use slewing::{Slewing, steps};

impl Picture<'_> {
    // The seconds that are drawn as turning after a pass.
    #[tactic(auto, using(std::proofs::lemmas::Bool::Decides::nat_tests), unfolding(crate::specs::Turning::turning_after))]
    pub(crate) fn turning_after(&self, place: usize) -> u64
        requires { place < length self.now.passes.now }
        ensures value { result ≡ turning_after (view self.now) place }
        ensures small { result < 2 ^ 39 }
    {
        if self.plan[place] == 0 {
            0
        } else {
            self.station.turn as u64 + self.slewing_after(place)
        }
    }

    // The seconds that its dish takes to the next pass that it follows, besides the station's turning time.
    #[tactic(auto, unfolding(crate::specs::Turning::slewing_after))]
    fn slewing_after(&self, place: usize) -> u64
        requires { place < length self.now.passes.now }
        ensures value { result ≡ slewing_after (option_map directed_of self.now.slewing) self.now.plan.now place }
        ensures small { result < 2 ^ 38 }
    {
        match &self.slewing {
            None => 0,
            Some(slewing) => to_next(slewing, self.plan, place),
        }
    }
}

// The seconds that the dish of a pass takes from where it ends to where the next one begins that the dish follows; 0 if there is none.
fn to_next(slewing: &Slewing, plan: &[u8], place: usize) -> u64
    requires within { place < length plan.now }
    requires each { length (sweeps_of slewing.now) ≡ length plan.now }
    ensures value { result ≡ to_next slewing.now.step (says plan.now place) (sweep_of (sweeps_of slewing.now) place).end (drop (place + 1) (sweeps_of slewing.now)) (drop (place + 1) plan.now) }
    ensures small { result < 2 ^ 38 }
{
    let sweeps = slewing.sweeps();
    let end = sweeps[place].end;
    // Kept: what the plan says of a pass and its directions are found by its place.
    for next in place + 1..plan.len() {
        if plan[next] == plan[place] {
            return slewing.step() as u64 * steps(end, sweeps[next].begin) as u64;
        }
    }
    0
}
