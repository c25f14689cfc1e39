// The elements of an SVG document.
ghost use Rattle.std.specs.Prelude.{◌≡◌, ◌++◌, OnOk, string_bytes};
ghost use Rattle.drawing.specs.Elements.{rect, spot, text, start, style};

use crate::areas::{Area, Spot};
use crate::places::WIDTH;
use std::alloc::AllocError;
use std::fmt::Write;

// The angle of text that goes from left to right.
pub(crate) const FLAT: &str = "0";

// The angle of text that stands upright.
pub(crate) const UPRIGHT: &str = "-90";

// How the classes look: the ground, and what belongs to the time scale.
const GROUND: &str =
    "text{font-family:sans-serif;fill:#333}.mid{text-anchor:middle}.paper{fill:#fff}.lane{fill:#f4f6f8}.tick{fill:#d5dae0}";

// How passes look.
const PASSES: &str =
    ".tail{fill:#9cc3e6;fill-opacity:.4}.bar{fill:#9cc3e6;stroke:#5b8db8}.unfollowed .bar{fill:#dcdcdc;stroke:#a6a6a6}";

// Begins the document, of this height.
#[tactic(auto, unfolding(crate::specs::Elements::start))]
pub(crate) fn push_start(out: &mut String, height: u64) -> Result<(), AllocError>
    ensures { OnOk result (string_bytes out.new ≡ string_bytes out.old ++ start height) }
{
    writeln!(
        out,
        "<svg xmlns='http://www.w3.org/2000/svg' viewBox='0 0 {WIDTH} {height}'>"
    )
}

// Writes colours and the like.
#[tactic(auto, unfolding(crate::specs::Elements::style))]
pub(crate) fn push_style(out: &mut String) -> Result<(), AllocError>
    ensures { OnOk result (string_bytes out.new ≡ string_bytes out.old ++ style) }
{
    writeln!(out, "<style>{GROUND}{PASSES}</style>")
}

// Writes a rectangle.
#[tactic(auto, unfolding(crate::specs::Elements::rect))]
pub(crate) fn push_rect(out: &mut String, class: &str, area: Area) -> Result<(), AllocError>
    ensures { OnOk result (string_bytes out.new ≡ string_bytes out.old ++ rect class.now area) }
{
    let Area {
        x,
        y,
        width,
        height,
    } = area;
    write!(
        out,
        "<rect class='{class}' x='{x}' y='{y}' width='{width}' height='{height}'/>"
    )
}

// Writes where text stands, and how large it is.
#[tactic(auto, unfolding(crate::specs::Elements::spot))]
fn push_spot(out: &mut String, class: &str, at: Spot) -> Result<(), AllocError>
    ensures { OnOk result (string_bytes out.new ≡ string_bytes out.old ++ spot class.now at) }
{
    let Spot { x, y, size } = at;
    write!(
        out,
        "<text class='{class}' font-size='{size}' transform='translate({x} {y})"
    )
}

// Writes text at a spot, turned by an angle.
#[tactic(auto, unfolding(crate::specs::Elements::text))]
pub(crate) fn push_text(
    out: &mut String,
    class: &str,
    angle: &str,
    at: Spot,
    words: &str,
) -> Result<(), AllocError>
    ensures { OnOk result (string_bytes out.new ≡ string_bytes out.old ++ text class.now angle.now at words.now) }
{
    push_spot(out, class, at)?;
    write!(out, " rotate({angle})' dy='.35em'>{words}</text>")
}
