ghost use Rattle.std.specs.Prelude.{◌≡◌, ◌<◌, ◌^◌};
ghost use Rattle.drawing.specs.Columns.{scale_of, place_on};

use passes::Pass;

// The seconds that a picture shows.
#[derive(Clone, Copy)]
pub(crate) struct Scale {
    pub(crate) first: u64,
    pub(crate) last: u64,
}

impl Scale {
    // From the first begin to the last end; from 0 to 0 without passes.
    pub(crate) fn of(passes: &[Pass]) -> Scale
        ensures value { result ≡ scale_of passes.now }
        ensures low { (result.first < 2 ^ 32) × (result.last < 2 ^ 32) }
    {
        let first = passes.first().map_or(0, |pass| pass.from);
        let last = passes.iter().fold(0, |last, pass| pass.to.max(last));
        Scale {
            first: first as u64,
            last: last as u64,
        }
    }

    // Where a second stands among `places` from left to right.
    pub(crate) fn place(self, places: u64, second: u64) -> u64
        requires few { places < 2 ^ 16 }
        requires low { second < 2 ^ 40 }
        ensures { result ≡ place_on places self second }
    {
        let seconds = self.last.saturating_sub(self.first).max(1);
        let since = second.saturating_sub(self.first);
        (since * places / seconds).min(places)
    }
}
