// Finding out why passes are followed or let go.
ghost use Rattle.std.specs.Prelude.{◌≡◌, ℕ, Some, IfOk};
ghost use Rattle.passes.specs.Nights.{passes_of};
ghost use Rattle.passes.specs.Plans.{Plan};
ghost use Rattle.planner.specs.Ruled.{BestBy, fits_by};
ghost use Rattle.reasons.specs.TrueReasons.{AllTrue};
ghost use Rattle.sensitivity.specs.Needing.{with_worth};
ghost use Rattle.text.specs.Lists.{good_of};

use crate::asking::Asking;
use crate::explained::Explained;
use crate::reason::Reason;
use engine::{Both, Rule};
use planner::{PLACES, SeenState};
use sensitivity::Inquiry;
use slewing::{SLEWING_PLACES, Slewing, Slews};
use std::alloc::{AllocError, Global};
use text::{NamedNight, Planned};

// Plans a night, and finds out of each pass why the plan follows it or lets it go.
pub fn explain(alloc: Global, night: NamedNight) -> Result<Explained, AllocError>
    ensures same { IfOk result (λ e. e.planned.night ≡ night) }
    ensures best { IfOk result (λ e. BestBy (good_of night) (passes_of night.night) e.planned.plan.items e.planned.worth) }
    ensures reasons { IfOk result (λ e. AllTrue e.planned e.reasons.items) }
{
    let planned = night.plan(alloc)?;
    let reasons = reasons_of(alloc, &planned)?;
    Ok(Explained { planned, reasons })
}

// Why each pass is followed or let go by a best plan, in the order of the list.
fn reasons_of(alloc: Global, planned: &Planned) -> Result<Vec<Reason>, AllocError>
    requires { BestBy (good_of planned.now.night) (passes_of planned.now.night.night) planned.now.plan.items planned.now.worth }
    ensures { IfOk result (λ reasons. AllTrue planned.now reasons.items) }
{
    match planned.night().slewing() {
        Some(slewing) => reasons_by_directions(alloc, planned, &slewing),
        None => {
            let mut seen = vec![in alloc; None; PLACES]?;
            let inquiry = Inquiry::new(planned.night().night());
            reasons_by(alloc, planned, inquiry, &mut seen)
        }
    }
}

// The same for a night with these directions.
fn reasons_by_directions(
    alloc: Global,
    planned: &Planned,
    slewing: &Slewing,
) -> Result<Vec<Reason>, AllocError>
    requires best { BestBy (good_of planned.now.night) (passes_of planned.now.night.night) planned.now.plan.items planned.now.worth }
    requires directed { planned.now.night.slewing ≡ Some slewing.now }
    ensures { IfOk result (λ reasons. AllTrue planned.now reasons.items) }
{
    let night = planned.night().night();
    let mut seen = vec![in alloc; None; SLEWING_PLACES]?;
    let inquiry = Inquiry::by(night, Slews::new(night, slewing), &mut seen).unwrap();
    let mut asked = vec![in alloc; None; SLEWING_PLACES]?;
    reasons_by(alloc, planned, inquiry, &mut asked)
}

// The same by an inquiry whose rule accepts the plans that are good for the night. What the table holds means nothing.
// Kept: the table is lent, since only the caller knows how long a state of the rule is.
fn reasons_by<R: Rule + Copy + Drop>(
    alloc: Global,
    planned: &Planned,
    inquiry: Inquiry<R>,
    seen: &mut [SeenState<Both<R::State, ()>>],
) -> Result<Vec<Reason>, AllocError>
    requires best { BestBy (good_of planned.now.night) (passes_of planned.now.night.night) planned.now.plan.items planned.now.worth }
    requires same { inquiry.night.now ≡ planned.now.night.night }
    requires agrees { (i v : ℕ) (ds : Plan) → fits_by planned.now.night.night.station (R.automaton inquiry.rule) (with_worth (passes_of planned.now.night.night) i v) ds ≡ good_of planned.now.night (with_worth (passes_of planned.now.night.night) i v) ds }
    ensures { IfOk result (λ reasons. AllTrue planned.now reasons.items) }
{
    let labels = planned.night().labels(alloc)?;
    let asking = Asking {
        planned,
        labels: &labels,
        inquiry,
    };
    let mut room = vec![in alloc; 0; planned.plan().len()]?;
    let mut reasons = Vec::new(alloc);
    for place in 0..planned.plan().len() {
        reasons.push(asking.reason(alloc, place, seen, &mut room)?)?;
    }
    Ok(reasons)
}
