ghost use Rattle.std.specs.Prelude.{◌≡◌, ◌≤◌, true, take};
ghost use Rattle.passes.specs.Checks.{checked, max_passes};

use crate::model::{Pass, Station};

// How many passes a list may have.
pub const MAX_PASSES: usize = 48;

// How many dishes a station may have.
pub const MAX_DISHES: usize = 4;

// A station and a list of passes that were taken.
#[derive(Clone, Copy)]
pub struct Night {
    pub(crate) station: Station,
    // Kept: an array and how many of it count, since there is no heap and a night is `Copy`.
    pub(crate) count: usize,
    pub(crate) passes: [Pass; MAX_PASSES],
    ghost few: { count ≤ max_passes },
    ghost ok: { checked station (take count passes) ≡ true },
}
