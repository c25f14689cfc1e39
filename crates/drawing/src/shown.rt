ghost use Rattle.std.specs.Prelude.{◌≡◌, map, string_bytes};
ghost use Rattle.passes.specs.Nights.{passes_of};
ghost use Rattle.text.specs.Labels.{labels_of};
ghost use Rattle.text.specs.Lists.{names_of};
ghost use Rattle.drawing.specs.Shown.{shown_of, view};

use crate::picture::Picture;
use text::Planned;

// A planned night, where its labels were made.
pub(crate) fn picture_of<'a>(planned: &'a Planned, labels: &'a [String]) -> Picture<'a>
    requires { map string_bytes labels.now ≡ labels_of (names_of planned.now.night) (passes_of planned.now.night.night) }
    ensures { view result ≡ shown_of planned.now }
{
    let named = planned.night();
    let night = named.night();
    Picture {
        labels,
        passes: night.passes(),
        slewing: named.slewing(),
        plan: planned.plan(),
        station: night.station(),
        worth: planned.worth(),
    }
}
