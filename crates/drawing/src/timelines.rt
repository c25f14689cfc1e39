ghost use Rattle.std.specs.Prelude.{◌≡◌, ◌<◌, ◌++◌, IfOk, OnOk, string_bytes, length};
ghost use Rattle.drawing.specs.Lanes.{lanes};
ghost use Rattle.drawing.specs.Timelines.{scale_line, row_line, label_width, key_head, key_numbers, key_line, key, timeline_text, LettersInTheirRows, LinesFit};
ghost use Rattle.std.specs.List.{flat_map};
ghost use Rattle.drawing.specs.Columns.{scale_of};
ghost use Rattle.drawing.specs.Shown.{LanesThere, shown_of, view};

use crate::lanes::lane_name;
use crate::padding::{push_byte, push_left, push_number_left, push_number_right, push_spaces};
use crate::picture::Picture;
use crate::rows::letter;
use crate::scale::Scale;
use crate::shown::picture_of;
use passes::Pass;
use std::alloc::{AllocError, Global};
use std::fmt::Write;
use text::Planned;

// How wide the column of lanes is.
const LANE_WIDTH: usize = 13;

// A planned night as text, at most 80 wide: a row for each dish and one for the passes that aren't followed, and a key.
pub fn timeline(alloc: Global, planned: &Planned) -> Result<String, AllocError>
    ensures text { IfOk result (λ text. string_bytes text ≡ timeline_text (shown_of planned.now)) }
    ensures there { LanesThere (shown_of planned.now) }
    ensures drawn { LettersInTheirRows (shown_of planned.now) }
    ensures fit { LinesFit (shown_of planned.now) }
{
    let labels = planned.night().labels(alloc)?;
    picture_of(planned, &labels).timeline(alloc)
}

// Writes begin, end and worth of a pass.
fn push_key_numbers(alloc: Global, out: &mut String, pass: Pass) -> Result<(), AllocError>
    ensures { OnOk result (string_bytes out.new ≡ string_bytes out.old ++ key_numbers pass) }
{
    push_number_right(alloc, out, 7, pass.from as u64)?;
    push_number_right(alloc, out, 8, pass.to as u64)?;
    push_number_right(alloc, out, 8, pass.worth as u64)
}

impl Picture<'_> {
    // The whole text.
    fn timeline(&self, alloc: Global) -> Result<String, AllocError>
        ensures { IfOk result (λ text. string_bytes text ≡ timeline_text (view self.now)) }
    {
        let mut out = self.heading(alloc)?;
        out.push_str("\n")?;
        self.push_scale(alloc, &mut out)?;
        self.push_rows(alloc, &mut out)?;
        self.push_key(alloc, &mut out)?;
        Ok(out)
    }

    // Writes the scale.
    fn push_scale(&self, alloc: Global, out: &mut String) -> Result<(), AllocError>
        ensures { OnOk result (string_bytes out.new ≡ string_bytes out.old ++ scale_line (scale_of self.now.passes.now)) }
    {
        let scale = Scale::of(self.passes);
        let (first, last) = (scale.first, scale.last);
        push_spaces(out, LANE_WIDTH + 1)?;
        push_number_left(alloc, out, 32, first)?;
        push_number_left(alloc, out, 16, (first + last) / 2)?;
        push_number_right(alloc, out, 16, last)?;
        out.push_str("\n")
    }

    // Writes the row of a lane as a line.
    fn push_row_line(&self, alloc: Global, out: &mut String, lane: u8) -> Result<(), AllocError>
        ensures { OnOk result (string_bytes out.new ≡ string_bytes out.old ++ row_line (view self.now) lane) }
    {
        let name = lane_name(alloc, lane)?;
        push_left(out, LANE_WIDTH, name.as_str())?;
        out.push_str("|")?;
        self.push_row(alloc, out, lane)?;
        out.push_str("|\n")
    }

    // Writes the rows of all lanes.
    fn push_rows(&self, alloc: Global, out: &mut String) -> Result<(), AllocError>
        ensures { OnOk result (string_bytes out.new ≡ string_bytes out.old ++ flat_map (row_line (view self.now)) (lanes (view self.now))) }
    {
        for dish in 0..self.station.dishes {
            self.push_row_line(alloc, out, dish + 1)?;
        }
        self.push_row_line(alloc, out, 0)
    }

    // The length of the longest label, and at least of the word `name`.
    fn label_width(&self) -> usize
        ensures { result ≡ label_width (view self.now).labels }
    {
        let mut width = 4;
        for label in self.labels {
            width = label.len().max(width);
        }
        width
    }

    // Writes the head of the key.
    fn push_key_head(&self, out: &mut String, width: usize) -> Result<(), AllocError>
        ensures { OnOk result (string_bytes out.new ≡ string_bytes out.old ++ key_head width) }
    {
        out.push_str("\n  ")?;
        push_left(out, width, "name")?;
        out.push_str("  begin     end   worth\n")
    }

    // Writes the key: a line for each pass, in the order of the list.
    fn push_key(&self, alloc: Global, out: &mut String) -> Result<(), AllocError>
        ensures { OnOk result (string_bytes out.new ≡ string_bytes out.old ++ key (view self.now)) }
    {
        let width = self.label_width();
        self.push_key_head(out, width)?;
        // Kept: what stands in a line is found by the pass's place.
        for place in 0..self.passes.len() {
            self.push_key_line(alloc, out, width, place)?;
        }
        Ok(())
    }

    // Writes the key's line for a pass.
    fn push_key_line(
        &self,
        alloc: Global,
        out: &mut String,
        width: usize,
        place: usize,
    ) -> Result<(), AllocError>
        requires { place < length self.now.passes.now }
        ensures { OnOk result (string_bytes out.new ≡ string_bytes out.old ++ key_line (view self.now) width place) }
    {
        push_byte(out, letter(place))?;
        out.push_str(" ")?;
        push_left(out, width, self.label(place))?;
        push_key_numbers(alloc, out, self.passes[place])?;
        let name = lane_name(alloc, self.plan[place])?;
        writeln!(out, "  {name}")
    }
}
