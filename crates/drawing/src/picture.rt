ghost use Rattle.std.specs.Prelude.{◌≡◌, true, ◌<◌, ◌≤◌, [], length, map, slice_index_or, string_bytes};
ghost use Rattle.passes.specs.Checks.{max_passes, all_in_range};
ghost use Rattle.slewing.specs.Slewings.{each_directed};

use passes::{Pass, Station};
use slewing::Slewing;

// What a picture shows: a station, passes with a label each and maybe with directions, and a plan of who follows them, with its worth.
#[derive(Drop)]
pub(crate) struct Picture<'a> {
    pub(crate) labels: &'a [String],
    pub(crate) passes: &'a [Pass],
    pub(crate) slewing: Option<Slewing>,
    pub(crate) plan: &'a [u8],
    pub(crate) station: Station,
    pub(crate) worth: u64,
    ghost lasting: { all_in_range passes.now ≡ true },
    ghost few: { length passes.now ≤ max_passes },
    ghost planned: { length plan.now ≡ length passes.now },
    ghost labelled: { length labels.now ≡ length passes.now },
    ghost directed: { each_directed (length passes.now) slewing ≡ true },
}

impl Picture<'_> {
    // The label of a pass.
    pub(crate) fn label(&self, place: usize) -> &str
        requires { place < length self.now.labels.now }
        ensures { result.now ≡ slice_index_or (map string_bytes self.now.labels.now) place [] }
    {
        self.labels[place].as_str()
    }
}
