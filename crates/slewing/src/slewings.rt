ghost use Rattle.std.specs.Prelude.{◌≡◌, ◌≤◌, true, take};
ghost use Rattle.slewing.specs.Refusals.{slewing_ok};

use crate::directions::Sweep;
use passes::MAX_PASSES;

// How long dishes take for a step, and the directions of each pass of a night.
#[derive(Clone, Copy)]
pub struct Slewing {
    pub(crate) step: u32,
    // Kept: an array and how many of it count, since there is no heap.
    pub(crate) count: usize,
    pub(crate) sweeps: [Sweep; MAX_PASSES],
    ghost few: { count ≤ 48 },
    ghost ok: { slewing_ok step (take count sweeps) ≡ true },
}
