ghost use Rattle.std.specs.Prelude.{◌≡◌, length};

use passes::{Pass, Station};
use slewing::Sweep;

// A plan that has a number for each pass, and the directions of each pass.
#[derive(Drop)]
pub struct LookingBack<'a> {
    pub station: Station,
    pub step: u32,
    pub passes: &'a [Pass],
    pub sweeps: &'a [Sweep],
    pub plan: &'a [u8],
    pub ghost directed: { length sweeps.now ≡ length passes.now },
    pub ghost one_each: { length plan.now ≡ length passes.now },
}
