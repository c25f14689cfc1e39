// Plans as text.
ghost use Rattle.std.specs.Prelude.{◌≡◌, ◌++◌, map, string_bytes, IfOk, OnOk};
ghost use Rattle.text.specs.PlanText.{row, plan_text};

use crate::planned::Planned;
use std::alloc::{AllocError, Global};
use std::fmt::Write;

impl Planned {
    // What the plan is worth, and, in the order of the list, which passes each dish follows and which are not followed.
    pub fn text(&self, alloc: Global) -> Result<String, AllocError>
        ensures { IfOk result (λ t. string_bytes t ≡ plan_text self.now) }
    {
        let labels = self.night.labels(alloc)?;
        let mut text = format!(in alloc; "worth {}\n", self.worth)?;
        for dish in 0..self.night.night.station().dishes {
            write!(text, "dish {dish}:")?;
            write_row(&mut text, &labels, &self.plan, dish + 1)?;
            text.push('\n')?;
        }
        text.push_str("not followed:")?;
        write_row(&mut text, &labels, &self.plan, 0)?;
        text.push('\n')?;
        Ok(text)
    }
}

// Writes the labels of the passes of which the plan says this, each behind a space.
// Kept: the text stands beside what is read, to be written.
fn write_row(text: &mut String, labels: &[String], plan: &[u8], what: u8) -> Result<(), AllocError>
    ensures { OnOk result (string_bytes text.new ≡ string_bytes text.old ++ row what (map string_bytes labels.now) plan.now) }
{
    for (label, says) in labels.iter().zip(plan) {
        if *says == what {
            write!(text, " {label}")?;
        }
    }
    Ok(())
}
