ghost use Rattle.std.specs.Prelude.{◌≡◌, ℕ, ◌+◌, ◌<◌, ◌^◌, List, ◌++◌, IfOk, OnOk, string_bytes, length, slice_index};
ghost use Rattle.std.specs.List.{flat_map, range_with_len};
ghost use Rattle.drawing.specs.Drawings.{lane_ground, tick, opening, head, directions_told, tip, caption, look, pass_group, pass_drawn, svg_text};
ghost use Rattle.drawing.specs.Levels.{LevelsFor};
ghost use Rattle.drawing.specs.Shown.{LanesThere, shown_of, view};
ghost use Rattle.drawing.specs.Lanes.{lanes};
ghost use Rattle.drawing.specs.Within.{InTheirLanes};

use crate::areas::{Area, Spot};
use crate::elements::{FLAT, UPRIGHT, push_rect, push_start, push_style, push_text};
use crate::lanes::lane_name;
use crate::levels::Levels;
use crate::picture::Picture;
use crate::places::{BAR_HEIGHT, LANE_GAP, LEFT, TIME_WIDTH, WIDTH, is_upright, size_for};
use crate::shown::picture_of;
use slewing::Sweep;
use std::alloc::{AllocError, Global};
use std::fmt::Write;
use text::Planned;

// Where the heading stands.
const HEADING: Spot = Spot {
    x: SIDE,
    y: 30,
    size: 22,
};

// Where what stands beside the lanes begins.
const SIDE: u64 = 15;

// How far below the top of a lane its name stands.
const NAME_BELOW: u64 = 70;

// How large the name of a lane is.
const NAME_SIZE: u64 = 16;

// How many steps the time scale has; there is a mark before each, and one after the last.
const STEPS: u64 = 8;

// How wide a step is.
const STEP: u64 = TIME_WIDTH / STEPS;

// Where the marks begin from above.
const MARK_TOP: u64 = 80;

// How wide a mark is.
const MARK_WIDTH: u64 = 1;

// Where the seconds of the marks stand.
const SECOND_TOP: u64 = 68;

// How large the seconds of the marks are.
const SECOND_SIZE: u64 = 13;

// With so many letters or more a label can't be read in a bar.
const MANY_LETTERS: u64 = 100;

// A planned night as an SVG document: time from left to right, a lane for each dish, and one for the passes that aren't followed.
pub fn svg(alloc: Global, planned: &Planned) -> Result<String, AllocError>
    ensures there { LanesThere (shown_of planned.now) }
    ensures lane { InTheirLanes (shown_of planned.now) }
    ensures text { IfOk result (λ text. (levels : List ℕ) × (count : ℕ) × LevelsFor (shown_of planned.now) levels count × (string_bytes text ≡ svg_text (shown_of planned.now) levels count)) }
{
    let labels = planned.night().labels(alloc)?;
    picture_of(planned, &labels).svg(alloc)
}

// How passes of a lane look.
fn look(lane: u8) -> &'static str
    ensures { result.now ≡ look lane }
{
    if lane == 0 { "unfollowed" } else { "followed" }
}

impl Picture<'_> {
    // The whole document.
    fn svg(&self, alloc: Global) -> Result<String, AllocError>
        ensures { IfOk result (λ text. (levels : List ℕ) × (count : ℕ) × LevelsFor (view self.now) levels count × (string_bytes text ≡ svg_text (view self.now) levels count)) }
    {
        let Levels { of_passes, count } = self.levels(alloc)?;
        let mut out = String::new(alloc);
        self.push_head(alloc, &mut out, count as u64)?;
        self.push_passes(alloc, &mut out, &of_passes)?;
        out.push_str("</svg>\n")?;
        Ok(out)
    }

    // Writes what stands before the passes.
    fn push_head(&self, alloc: Global, out: &mut String, count: u64) -> Result<(), AllocError>
        requires { count < 2 ^ 8 }
        ensures { OnOk result (string_bytes out.new ≡ string_bytes out.old ++ head (view self.now) count) }
    {
        self.push_opening(alloc, out, count)?;
        self.push_lanes(alloc, out, count)?;
        self.push_ticks(alloc, out, count)
    }

    // Begins the document: how large it is, and what it shows.
    #[tactic(auto, unfolding(crate::specs::Drawings::opening))]
    fn push_opening(&self, alloc: Global, out: &mut String, count: u64) -> Result<(), AllocError>
        requires { count < 2 ^ 8 }
        ensures { OnOk result (string_bytes out.new ≡ string_bytes out.old ++ opening (view self.now) count) }
    {
        let height = self.height_of(count);
        push_start(out, height)?;
        push_style(out)?;
        push_rect(
            out,
            "paper",
            Area {
                x: 0,
                y: 0,
                width: WIDTH,
                height,
            },
        )?;
        let heading = self.heading(alloc)?;
        push_text(out, "side", FLAT, HEADING, heading.as_str())?;
        out.push_str("\n")
    }

    // Writes the grounds of all lanes.
    fn push_lanes(&self, alloc: Global, out: &mut String, count: u64) -> Result<(), AllocError>
        requires { count < 2 ^ 8 }
        ensures { OnOk result (string_bytes out.new ≡ string_bytes out.old ++ flat_map (lane_ground (view self.now) count) (lanes (view self.now))) }
    {
        for dish in 0..self.station.dishes {
            self.push_lane(alloc, out, count, dish + 1)?;
        }
        self.push_lane(alloc, out, count, 0)
    }

    // Writes the ground of a lane.
    #[tactic(auto, unfolding(crate::specs::Drawings::lane_ground))]
    fn push_lane(
        &self,
        alloc: Global,
        out: &mut String,
        count: u64,
        lane: u8,
    ) -> Result<(), AllocError>
        requires { count < 2 ^ 8 }
        ensures { OnOk result (string_bytes out.new ≡ string_bytes out.old ++ lane_ground (view self.now) count lane) }
    {
        let ground = self.ground_area(lane, count);
        push_rect(out, "lane", ground)?;
        let name = lane_name(alloc, lane)?;
        push_text(
            out,
            "side",
            FLAT,
            Spot {
                x: SIDE,
                y: ground.y + NAME_BELOW,
                size: NAME_SIZE,
            },
            name.as_str(),
        )?;
        out.push_str("\n")
    }

    // Writes the time scale.
    fn push_ticks(&self, alloc: Global, out: &mut String, count: u64) -> Result<(), AllocError>
        requires { count < 2 ^ 8 }
        ensures { OnOk result (string_bytes out.new ≡ string_bytes out.old ++ flat_map (tick (view self.now) count) (range_with_len 0 9)) }
    {
        for mark in 0..STEPS + 1 {
            self.push_tick(alloc, out, count, mark)?;
        }
        Ok(())
    }

    // Writes one of its nine marks.
    #[tactic(auto, unfolding(crate::specs::Drawings::tick))]
    fn push_tick(
        &self,
        alloc: Global,
        out: &mut String,
        count: u64,
        mark: u64,
    ) -> Result<(), AllocError>
        requires few { count < 2 ^ 8 }
        requires nine { mark < 9 }
        ensures { OnOk result (string_bytes out.new ≡ string_bytes out.old ++ tick (view self.now) count mark) }
    {
        let scale = self.drawn_scale();
        let second = scale.first + scale.last.saturating_sub(scale.first) * mark / STEPS;
        let x = LEFT + STEP * mark;
        let height = self.height_of(count) - (MARK_TOP + LANE_GAP);
        push_rect(
            out,
            "tick",
            Area {
                x,
                y: MARK_TOP,
                width: MARK_WIDTH,
                height,
            },
        )?;
        let words = second.to_string(alloc)?;
        push_text(
            out,
            "mid",
            FLAT,
            Spot {
                x,
                y: SECOND_TOP,
                size: SECOND_SIZE,
            },
            words.as_str(),
        )?;
        out.push_str("\n")
    }

    // Writes all passes, in the order of the list.
    fn push_passes(
        &self,
        alloc: Global,
        out: &mut String,
        levels: &[usize],
    ) -> Result<(), AllocError>
        requires each { length levels.now ≡ length self.now.passes.now }
        requires few { (i : ℕ) → slice_index levels.now i < 2 ^ 8 }
        ensures { OnOk result (string_bytes out.new ≡ string_bytes out.old ++ flat_map (pass_drawn (view self.now) levels.now) (range_with_len 0 (length self.now.passes.now))) }
    {
        // Kept: a pass, its lane and its level are found by its place.
        for place in 0..self.passes.len() {
            let lane = self.plan[place];
            let row = self.row_of(lane, levels[place] as u64);
            self.push_pass(alloc, out, lane, row, place)?;
        }
        Ok(())
    }

    // Writes a pass of a lane, in a row.
    #[tactic(auto, unfolding(crate::specs::Drawings::pass_group))]
    fn push_pass(
        &self,
        alloc: Global,
        out: &mut String,
        lane: u8,
        row: u64,
        place: usize,
    ) -> Result<(), AllocError>
        requires within { place < length self.now.passes.now }
        requires low { row < 2 ^ 16 }
        ensures { OnOk result (string_bytes out.new ≡ string_bytes out.old ++ pass_group (view self.now) lane row place) }
    {
        let pass = self.passes[place];
        write!(out, "<g class='{}'>", look(lane))?;
        self.push_tip(alloc, out, place)?;
        push_rect(out, "tail", self.tail_area(row, place))?;
        push_rect(out, "bar", self.bar_area(row, pass))?;
        self.push_caption(alloc, out, row, place)?;
        out.push_str("</g>\n")
    }

    // Writes what is told of a pass where it is pointed at.
    #[tactic(auto, unfolding(crate::specs::Drawings::tip))]
    fn push_tip(&self, alloc: Global, out: &mut String, place: usize) -> Result<(), AllocError>
        requires { place < length self.now.passes.now }
        ensures { OnOk result (string_bytes out.new ≡ string_bytes out.old ++ tip (view self.now) place) }
    {
        let pass = &self.passes[place];
        let (from, to, worth) = (pass.from, pass.to, pass.worth);
        let label = self.label(place);
        let name = lane_name(alloc, self.plan[place])?;
        write!(out, "<title>{label}: begin {from}, end {to}, worth {worth}")?;
        self.push_directions(out, place)?;
        write!(out, ", {name}</title>")
    }

    // Writes what is told of the directions of a pass, if it has any.
    #[tactic(auto, unfolding(crate::specs::Drawings::directions_told))]
    fn push_directions(&self, out: &mut String, place: usize) -> Result<(), AllocError>
        requires { place < length self.now.passes.now }
        ensures { OnOk result (string_bytes out.new ≡ string_bytes out.old ++ directions_told (view self.now).directed place) }
    {
        match &self.slewing {
            None => Ok(()),
            Some(slewing) => {
                let Sweep { begin, end } = slewing.sweeps()[place];
                write!(out, ", directions {begin} to {end}")
            }
        }
    }

    // Writes what stands in the bar of a pass.
    #[tactic(auto, unfolding(crate::specs::Drawings::caption))]
    fn push_caption(
        &self,
        alloc: Global,
        out: &mut String,
        row: u64,
        place: usize,
    ) -> Result<(), AllocError>
        requires within { place < length self.now.passes.now }
        requires low { row < 2 ^ 16 }
        ensures { OnOk result (string_bytes out.new ≡ string_bytes out.old ++ caption (view self.now) row place) }
    {
        let area = self.bar_area(row, self.passes[place]);
        let label = self.label(place);
        let letters = (label.len() as u64).min(MANY_LETTERS);
        let spot = Spot {
            x: area.x + area.width / 2,
            y: area.y + BAR_HEIGHT / 2,
            size: size_for(letters, area.width),
        };
        let angle = if is_upright(letters, area.width) {
            UPRIGHT
        } else {
            FLAT
        };
        let words = format!(in alloc; "{label} ({})", self.passes[place].worth)?;
        push_text(out, "mid", angle, spot, words.as_str())
    }
}
