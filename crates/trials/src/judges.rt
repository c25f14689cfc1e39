ghost use Rattle.std.specs.Prelude.{◌≡◌, true, length};
ghost use Rattle.passes.specs.Nights.{passes_of};
ghost use Rattle.slewing.specs.Slewings.{each_directed};

use passes::Night;
use slewing::Slewing;

// A night, and the directions of its passes if they have any: by what plans are judged.
#[derive(Clone, Copy)]
pub struct Judge {
    pub night: Night,
    pub slewing: Option<Slewing>,
    pub ghost directed: { each_directed (length (passes_of night)) slewing ≡ true },
}
