// Asking of one pass after the other why it is followed or let go.
ghost use Rattle.std.specs.Prelude.{◌≡◌, ℕ, ◌<◌, length, map, string_bytes, IfOk};
ghost use Rattle.passes.specs.Nights.{passes_of};
ghost use Rattle.passes.specs.Plans.{Plan};
ghost use Rattle.planner.specs.Ruled.{BestBy, fits_by};
ghost use Rattle.sensitivity.specs.Needing.{with_worth};
ghost use Rattle.text.specs.Lists.{good_of};
ghost use Rattle.reasons.specs.Others.{called, labels_at, others_in};
ghost use Rattle.reasons.specs.TrueReasons.{TrueReason};

use crate::reason::Reason;
use engine::{Both, Rule};
use planner::SeenState;
use sensitivity::{Inquiry, Needed};
use std::alloc::{AllocError, Global};
use text::Planned;

// A planned night, what its passes are called, and the inquiry that answers for them, by a rule that accepts the plans that are good for the night, whatever a
// pass is worth.
#[derive(Drop)]
pub(crate) struct Asking<'a, R: Rule> {
    pub(crate) planned: &'a Planned,
    pub(crate) labels: &'a [String],
    pub(crate) inquiry: Inquiry<'a, R>,
    ghost same: { inquiry.night.now ≡ planned.now.night.night },
    ghost labelled: { map string_bytes labels.now ≡ called planned.now },
    ghost agrees: { (i v : ℕ) (ds : Plan) → fits_by planned.now.night.night.station (R.automaton inquiry.rule) (with_worth (passes_of planned.now.night.night) i v) ds ≡ good_of planned.now.night (with_worth (passes_of planned.now.night.night) i v) ds },
    ghost one_each: { length labels.now ≡ length (passes_of planned.now.night.night) },
}

impl<R: Rule + Copy + Drop> Asking<'_, R> {
    // Why the plan, which is a best one, follows the pass at this place or lets it go. Lent are a table, whose content means nothing, and a room for a plan.
    #[tactic(auto, using(crate::proofs::Lengths::plan_long))]
    pub(crate) fn reason(
        &self,
        alloc: Global,
        place: usize,
        seen: &mut [SeenState<Both<R::State, ()>>],
        room: &mut [u8],
    ) -> Result<Reason, AllocError>
        requires best { let p = self.now.planned.now in BestBy (good_of p.night) (passes_of p.night.night) p.plan.items p.worth }
        requires within { place < length (passes_of self.now.planned.now.night.night) }
        requires one_each { length room.old ≡ length (passes_of self.now.planned.now.night.night) }
        ensures { IfOk result (TrueReason self.now.planned.now place) }
    {
        let plan = self.planned.plan();
        let night = self.planned.night().night();
        let needed = self.inquiry.ask(place, seen, room).unwrap();
        let worth = night.passes()[place].worth;
        match needed {
            Needed::Never => Ok(Reason::NoDish),
            Needed::Worth(needed) if plan[place] > 0 => {
                Ok(Reason::followed(worth, worth - needed))
            }
            Needed::Worth(needed) if needed <= worth => Ok(Reason::AsWell),
            Needed::Worth(needed) => Ok(Reason::Needs {
                worth,
                needed,
                with: night.judge(room).unwrap().unwrap(),
                goes: self.others_in(alloc, place, plan, room)?,
                comes: self.others_in(alloc, place, room, plan)?,
            }),
        }
    }

    // The labels of the passes, other than the one at this place, that one plan follows and the other doesn't.
    fn others_in(
        &self,
        alloc: Global,
        place: usize,
        plan: &[u8],
        other: &[u8],
    ) -> Result<Vec<String>, AllocError>
        requires one_each { length plan.now ≡ length (passes_of self.now.planned.now.night.night) }
        requires same_length { length other.now ≡ length (passes_of self.now.planned.now.night.night) }
        ensures { IfOk result (λ names. map string_bytes names.items ≡ labels_at (called self.now.planned.now) (others_in place plan.now other.now)) }
    {
        let mut names = Vec::new(alloc);
        // Kept: by index, since three lists are gone over side by side, and one place is left out.
        for k in 0..plan.len() {
            if k != place && plan[k] > 0 && other[k] == 0 {
                names.push(String::from_str(alloc, &self.labels[k])?)?;
            }
        }
        Ok(names)
    }
}
