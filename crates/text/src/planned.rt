ghost use Rattle.std.specs.Prelude.{◌≡◌, true, vec_len, IfOk};
ghost use Rattle.passes.specs.Nights.{passes_of};
ghost use Rattle.passes.specs.Plans.{fits, worth_of};
ghost use Rattle.planner.specs.Ruled.{BestBy};
ghost use Rattle.text.specs.Lists.{good_of};

use crate::nights::NamedNight;
use slewing::{SLEWING_PLACES, plan_directed};
use std::alloc::{AllocError, Global};

// A night with a good plan for it, and what the plan is worth.
#[derive(Drop)]
pub struct Planned {
    pub(crate) night: NamedNight,
    pub(crate) plan: Vec<u8>,
    pub(crate) worth: u64,
    ghost one_each: { vec_len plan ≡ vec_len night.names },
    ghost good: { fits night.night.station (passes_of night.night) plan.items ≡ true },
    ghost sum: { worth ≡ worth_of (passes_of night.night) plan.items },
}

impl NamedNight {
    // Plans the night, by its directions if it has any: no good plan is worth more.
    pub fn plan(self, alloc: Global) -> Result<Planned, AllocError>
        ensures same { IfOk result (λ p. p.night ≡ self) }
        ensures best { IfOk result (λ p. BestBy (good_of self) (passes_of self.night) p.plan.items p.worth) }
    {
        let mut plan = vec![in alloc; 0; self.night.passes().len()]?;
        let places = match self.slewing {
            Some(_) => SLEWING_PLACES,
            None => 0,
        };
        let mut seen = vec![in alloc; None; places]?;
        let worth = plan_directed(&self.night, self.slewing, &mut seen, &mut plan).unwrap();
        Ok(Planned {
            night: self,
            plan,
            worth,
        })
    }
}

impl Planned {
    // The night that is planned.
    pub fn night(&self) -> &NamedNight
        ensures { result.now ≡ self.now.night }
    {
        &self.night
    }

    // For each pass 0 if it isn't followed, or one more than the dish that follows it.
    pub fn plan(&self) -> &[u8]
        ensures { result.now ≡ self.now.plan.items }
    {
        &self.plan
    }

    // What the passes that are followed are worth together.
    pub fn worth(&self) -> u64
        ensures { result ≡ self.now.worth }
    {
        self.worth
    }
}
