ghost use Rattle.std.specs.Prelude.{◌≡◌};

use crate::reason::Reason;
use text::Planned;

// A planned night, and of each pass why the plan follows it or lets it go.
#[derive(Drop)]
pub struct Explained {
    pub(crate) planned: Planned,
    pub(crate) reasons: Vec<Reason>,
}

impl Explained {
    // The night and its plan.
    pub fn planned(&self) -> &Planned
        ensures { result.now ≡ self.now.planned }
    {
        &self.planned
    }

    // Why each pass is followed or let go, in the order of the list.
    pub fn reasons(&self) -> &[Reason]
        ensures { result.now ≡ self.now.reasons.items }
    {
        &self.reasons
    }
}
