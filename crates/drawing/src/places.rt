ghost use Rattle.std.specs.Prelude.{◌≡◌, ◌+◌, ◌<◌, ◌≤◌, ◌^◌, length};
ghost use Rattle.drawing.specs.Areas.{drawn_scale, x_of, row_of, top_of, height_of, ground_area, bar_area, tail_area, is_upright, size_for};
ghost use Rattle.drawing.specs.Shown.{view};

use crate::areas::Area;
use crate::picture::Picture;
use crate::scale::Scale;
use passes::Pass;

// How wide a drawing is.
pub(crate) const WIDTH: u64 = 1600;

// Where time begins in it.
pub(crate) const LEFT: u64 = 130;

// How wide time is.
pub(crate) const TIME_WIDTH: u64 = 1440;

// Where the first row begins.
const TOP: u64 = 90;

// How high each row is.
const ROW_HEIGHT: u64 = 150;

// What stays empty between two lanes.
pub(crate) const LANE_GAP: u64 = 10;

// Where a bar begins in its row.
const BAR_TOP: u64 = 5;

// How high a bar is.
pub(crate) const BAR_HEIGHT: u64 = 130;

// How wide a bar is at least.
const BAR_LEAST: u64 = 2;

// How many letters the worth, its brackets and the blank before them count as.
const MORE_LETTERS: u64 = 6;

// How much room a letter takes from left to right.
const LETTER_WIDTH: u64 = 10;

// The size of what is written from left to right.
const FLAT_SIZE: u64 = 16;

// The largest size of what stands upright.
const MOST_SIZE: u64 = 13;

// The smallest size of what stands upright.
const LEAST_SIZE: u64 = 6;

// What is divided among the letters of an upright text, for its size.
const UPRIGHT_ROOM: u64 = 210;

// Where a row begins.
pub(crate) fn top_of(row: u64) -> u64
    requires { row < 2 ^ 16 }
    ensures value { result ≡ top_of row }
    ensures small { result < 2 ^ 32 }
{
    TOP + ROW_HEIGHT * row
}

// Whether what is written in a bar stands upright.
pub(crate) fn is_upright(letters: u64, width: u64) -> bool
    requires { letters ≤ 100 }
    ensures { result ≡ is_upright letters width }
{
    width < LETTER_WIDTH * (letters + MORE_LETTERS)
}

// How large it is.
#[tactic(auto, using(std::proofs::lemmas::Bool::Decides::nat_tests))]
pub(crate) fn size_for(letters: u64, width: u64) -> u64
    requires { letters ≤ 100 }
    ensures { result ≡ size_for letters width }
{
    if is_upright(letters, width) {
        (UPRIGHT_ROOM / (letters + MORE_LETTERS))
            .min(width)
            .min(MOST_SIZE)
            .max(LEAST_SIZE)
    } else {
        FLAT_SIZE
    }
}

impl Picture<'_> {
    // From the first begin to when a dish that followed the last pass would have turned.
    pub(crate) fn drawn_scale(&self) -> Scale
        ensures value { result ≡ drawn_scale (view self.now) }
        ensures low { (result.first < 2 ^ 32) × (result.last < 2 ^ 33) }
    {
        let Scale { first, last } = Scale::of(self.passes);
        Scale {
            first,
            last: last + self.station.turn as u64,
        }
    }

    // Where a second stands from left to right.
    fn x_of(&self, second: u64) -> u64
        requires { second < 2 ^ 40 }
        ensures value { result ≡ x_of (view self.now) second }
        ensures small { result ≤ 1570 }
    {
        LEFT + self.drawn_scale().place(TIME_WIDTH, second)
    }

    // The row of a lane, or of one of its levels.
    pub(crate) fn row_of(&self, lane: u8, level: u64) -> u64
        requires { level < 2 ^ 8 }
        ensures value { result ≡ row_of (view self.now) lane level }
        ensures small { result < 2 ^ 16 }
    {
        if lane == 0 {
            self.station.dishes as u64 + level
        } else {
            lane as u64 - 1
        }
    }

    // How high the drawing is, with so many levels.
    pub(crate) fn height_of(&self, count: u64) -> u64
        requires { count < 2 ^ 8 }
        ensures value { result ≡ height_of (view self.now) count }
        ensures tall { 90 ≤ result }
    {
        top_of(self.station.dishes as u64 + count) + LANE_GAP
    }

    // The ground of a lane, with so many rows for the passes that aren't followed.
    pub(crate) fn ground_area(&self, lane: u8, count: u64) -> Area
        requires { count < 2 ^ 8 }
        ensures value { result ≡ ground_area (view self.now) count lane }
        ensures low { result.y < 2 ^ 32 }
    {
        let rows = if lane == 0 { count } else { 1 };
        Area {
            x: LEFT,
            y: top_of(self.row_of(lane, 0)),
            width: TIME_WIDTH,
            height: (ROW_HEIGHT * rows).saturating_sub(LANE_GAP),
        }
    }

    // The bar of a pass in a row.
    pub(crate) fn bar_area(&self, row: u64, pass: Pass) -> Area
        requires { row < 2 ^ 16 }
        ensures value { result ≡ bar_area (view self.now) row pass }
        ensures within { result.x + result.width < 2 ^ 32 }
    {
        let x = self.x_of(pass.from as u64);
        let end = self.x_of(pass.to as u64);
        Area {
            x,
            y: top_of(row) + BAR_TOP,
            width: end.saturating_sub(x).max(BAR_LEAST),
            height: BAR_HEIGHT,
        }
    }

    // What its dish needs to turn after it.
    pub(crate) fn tail_area(&self, row: u64, place: usize) -> Area
        requires low { row < 2 ^ 16 }
        requires within { place < length self.now.passes.now }
        ensures { result ≡ tail_area (view self.now) row place }
    {
        let to = self.passes[place].to as u64;
        let x = self.x_of(to);
        let turned = self.x_of(to + self.turning_after(place));
        Area {
            x,
            y: top_of(row) + BAR_TOP,
            width: turned.saturating_sub(x),
            height: BAR_HEIGHT,
        }
    }
}
