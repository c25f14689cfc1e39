// Reasons as text.
ghost use Rattle.std.specs.Prelude.{◌≡◌, ◌++◌, map, string_bytes, IfOk, OnOk};
ghost use Rattle.reasons.specs.Words.{change, words, reasons_text};

use crate::explained::Explained;
use crate::reason::Reason;
use std::alloc::{AllocError, Global};
use std::fmt::Write;

impl Explained {
    // The plan, and in the order of the list a line for each pass that says why it is followed or let go.
    pub fn text(&self, alloc: Global) -> Result<String, AllocError>
        ensures { IfOk result (λ t. string_bytes t ≡ reasons_text self.now.planned self.now.reasons.items) }
    {
        let labels = self.planned.night().labels(alloc)?;
        let mut text = self.planned.text(alloc)?;
        for (label, reason) in labels.iter().zip(&self.reasons) {
            write!(text, "{label}: ")?;
            reason.write(&mut text, self.planned.worth())?;
            text.push('\n')?;
        }
        Ok(text)
    }
}

impl Reason {
    // Writes why a pass is followed or let go, where the plan is worth `total`.
    #[tactic(auto, unfolding(crate::specs::Words::words))]
    fn write(&self, text: &mut String, total: u64) -> Result<(), AllocError>
        ensures { OnOk result (string_bytes text.new ≡ string_bytes text.old ++ words total self.now) }
    {
        match self {
            Reason::Followed { spare: 0 } => write!(
                text,
                "followed; it could not be worth less: a plan without it is worth as much"
            ),
            Reason::Followed { spare } => write!(text, "followed; it could be worth {spare} less"),
            Reason::WorthNothing => write!(
                text,
                "followed; it is worth nothing, so it could not be worth less"
            ),
            Reason::AsWell => write!(
                text,
                "not followed; it could as well have been followed: another plan is worth as much"
            ),
            Reason::Needs {
                worth,
                needed,
                with,
                goes,
                comes,
            } => {
                write!(
                    text,
                    "not followed; it is worth {worth} and would have to be worth {needed}; with it the night is worth {with} instead of {total}"
                )?;
                write_change(text, ", and ", goes, " would go")?;
                write_change(text, " and ", comes, " would come")
            }
            Reason::NoDish => write!(text, "not followed; no dish here can follow it"),
        }
    }
}

// Writes labels between words, if there are any.
fn write_change(
    text: &mut String,
    before: &str,
    labels: &[String],
    after: &str,
) -> Result<(), AllocError>
    ensures { OnOk result (string_bytes text.new ≡ string_bytes text.old ++ change before.now after.now (map string_bytes labels.now)) }
{
    let Some((first, others)) = labels.split_first() else {
        return Ok(());
    };
    write!(text, "{before}{first}")?;
    for (i, label) in others.iter().enumerate() {
        text.push_str(if i + 1 == others.len() { " and " } else { ", " })?;
        text.push_str(label)?;
    }
    text.push_str(after)
}
