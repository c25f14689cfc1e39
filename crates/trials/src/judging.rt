// Plans judged, one by one, by rules written plainly.
ghost use Rattle.std.specs.Prelude.{◌≡◌, ◌≤◌, ◌==◌, ◌&&◌, cond, length};
ghost use Rattle.passes.specs.Nights.{passes_of};
ghost use Rattle.passes.specs.Plans.{worth_of};
ghost use Rattle.trials.specs.Numbered.{good_of};

use crate::judges::Judge;
use crate::looking_back::LookingBack;
use passes::Pass;

impl Judge {
    // Whether a plan is good.
    #[tactic(auto, using(std::proofs::lemmas::Bool::Decides::nat_tests), unfolding(passes::specs::Refusals::room_refused))]
    pub fn is_good(&self, plan: &[u8]) -> bool
        requires one_each { length plan.now ≡ length (passes_of self.now.night) }
        ensures { result ≡ good_of self.now (passes_of self.now.night) plan.now }
    {
        match &self.slewing {
            Some(slewing) => LookingBack {
                station: self.night.station(),
                step: slewing.step(),
                passes: self.night.passes(),
                sweeps: slewing.sweeps(),
                plan,
            }
            .is_good(),
            None => match self.night.judge(plan) {
                Ok(Ok(_)) => true,
                Ok(Err(_)) | Err(_) => false,
            },
        }
    }

    // What a plan is worth if it is good, and else nothing.
    pub fn worth_if_good(&self, plan: &[u8]) -> u64
        requires one_each { length plan.now ≡ length (passes_of self.now.night) }
        ensures { result ≡ cond (good_of self.now (passes_of self.now.night) plan.now) (worth_of (passes_of self.now.night) plan.now) 0 }
    {
        if self.is_good(plan) {
            worth(self.night.passes(), plan)
        } else {
            0
        }
    }

    // Whether a plan is good and worth so much.
    pub fn is_good_for(&self, plan: &[u8], most: u64) -> bool
        requires one_each { length plan.now ≡ length (passes_of self.now.night) }
        ensures { result ≡ (good_of self.now (passes_of self.now.night) plan.now && worth_of (passes_of self.now.night) plan.now == most) }
    {
        self.is_good(plan) && worth(self.night.passes(), plan) == most
    }
}

// What the passes that a plan follows are worth together.
fn worth(passes: &[Pass], plan: &[u8]) -> u64
    requires few { length passes.now ≤ 48 }
    requires one_each { length plan.now ≡ length passes.now }
    ensures { result ≡ worth_of passes.now plan.now }
{
    let mut worth = 0;
    for (pass, named) in passes.iter().zip(plan) {
        if *named != 0 {
            worth += pass.worth as u64;
        }
    }
    worth
}
