// What both pictures say of a night: its heading, and what its lanes are called.
ghost use Rattle.std.specs.Prelude.{◌≡◌, ◌++◌, IfOk, OnOk, string_bytes};
ghost use Rattle.drawing.specs.Lanes.{heading, lane_name, step_told};
ghost use Rattle.drawing.specs.Shown.{view};

use crate::picture::Picture;
use std::alloc::{AllocError, Global};
use std::fmt::Write;

// What a lane is called.
pub(crate) fn lane_name(alloc: Global, lane: u8) -> Result<String, AllocError>
    ensures { IfOk result (λ name. string_bytes name ≡ lane_name lane) }
{
    match lane.checked_sub(1) {
        None => String::from_str(alloc, "not followed"),
        Some(dish) => format!(in alloc; "dish {dish}"),
    }
}

impl Picture<'_> {
    // What the plan is worth, the station, with directions the seconds for a step, and how many passes there are.
    pub(crate) fn heading(&self, alloc: Global) -> Result<String, AllocError>
        ensures { IfOk result (λ words. string_bytes words ≡ heading (view self.now)) }
    {
        let (dishes, turn, count) = (self.station.dishes, self.station.turn, self.passes.len());
        let mut out = format!(in alloc; "worth {}, dishes {dishes}, turn {turn}", self.worth)?;
        self.push_step(&mut out)?;
        write!(out, ", passes {count}")?;
        Ok(out)
    }

    // Writes what is told of the seconds for a step, if there are directions.
    #[tactic(auto, unfolding(crate::specs::Lanes::step_told))]
    fn push_step(&self, out: &mut String) -> Result<(), AllocError>
        ensures { OnOk result (string_bytes out.new ≡ string_bytes out.old ++ step_told (view self.now).directed) }
    {
        match &self.slewing {
            None => Ok(()),
            Some(slewing) => write!(out, ", step {}", slewing.step()),
        }
    }
}
