ghost use Rattle.std.specs.Prelude.{◌≡◌, ◌+◌, ◌<◌, ◌≤◌, ◌^◌, ◌++◌, All, IfOk, OnOk, string_bytes, length};
ghost use Rattle.passes.specs.Rule.{nth};
ghost use Rattle.drawing.specs.Columns.{columns, scale_of};
ghost use Rattle.drawing.specs.Rows.{letter, in_lane, bar_from, over, cell, bars_of, row};
ghost use Rattle.drawing.specs.Shown.{view};
ghost use Rattle.drawing.specs.Turning.{turning_after};

use crate::bars::Bar;
use crate::padding::push_byte;
use crate::picture::Picture;
use crate::scale::Scale;
use std::alloc::{AllocError, Global};

// How many columns a row has for time.
pub(crate) const COLUMNS: usize = 64;

impl Bar {
    // What stands in a column when this bar is drawn over what stood there.
    #[tactic(auto, using(std::proofs::lemmas::Bool::Decides::nat_tests), unfolding(crate::specs::Rows::over))]
    fn over(self, column: usize, under: u8) -> u8
        ensures { result ≡ over column under self }
    {
        if column < self.begin {
            under
        } else if column < self.end {
            self.letter
        } else if column < self.turned {
            b'.'
        } else {
            under
        }
    }
}

// The letter of a pass.
#[tactic(auto, using(std::proofs::lemmas::Bool::Decides::nat_tests), unfolding(crate::specs::Rows::letter))]
pub(crate) fn letter(place: usize) -> u8
    requires { place < 48 }
    ensures value { result ≡ letter place }
    ensures ascii { result < 128 }
{
    if place < 26 {
        b'a' + place as u8
    } else {
        b'A' + (place as u8 - 26)
    }
}

// What stands in a column when all bars are drawn, one after the other.
fn cell(bars: &[Bar], column: usize) -> u8
    requires { All (λ bar. bar.letter < 128) bars.now }
    ensures value { result ≡ cell bars.now column }
    ensures ascii { result < 128 }
{
    let mut under = b' ';
    for bar in bars {
        under = bar.over(column, under);
    }
    under
}

impl Picture<'_> {
    // How many passes the plan gives to a lane.
    #[tactic(auto, using(std::proofs::lemmas::Bool::Decides::nat_tests), unfolding(crate::specs::Rows::in_lane))]
    fn in_lane(&self, lane: u8) -> usize
        ensures value { result ≡ in_lane lane self.now.plan.now }
        ensures few { result ≤ length self.now.plan.now }
    {
        self.plan.iter().filter(|number| **number == lane).count()
    }

    // The bar of a pass, from a column.
    #[tactic(auto, using(std::proofs::lemmas::Bool::Decides::nat_tests), unfolding(crate::specs::Rows::bar_from))]
    fn bar_from(&self, place: usize, begin: usize) -> Bar
        requires within { place < length self.now.passes.now }
        requires free { begin < columns }
        ensures value { result ≡ bar_from (turning_after (view self.now) place) (scale_of self.now.passes.now) place begin (nth self.now.passes.now place) }
        ensures ascii { result.letter < 128 }
    {
        let scale = Scale::of(self.passes);
        let to = self.passes[place].to as u64;
        let end = scale.place(COLUMNS as u64, to) as usize;
        let turned = scale.place(COLUMNS as u64, to + self.turning_after(place)) as usize;
        Bar {
            letter: letter(place),
            begin,
            end: end.max(begin + 1),
            turned,
        }
    }

    // The bars of a lane.
    fn bars(&self, alloc: Global, lane: u8) -> Result<Vec<Bar>, AllocError>
        ensures value { IfOk result (λ bars. bars.items ≡ bars_of (view self.now) lane) }
        ensures ascii { IfOk result (λ bars. All (λ bar. bar.letter < 128) bars.items) }
    {
        let scale = Scale::of(self.passes);
        let mut bars = Vec::new(alloc);
        let mut free = 0;
        let mut left = self.in_lane(lane);
        // Kept: a place's number, pass and letter are found by it.
        for place in 0..self.passes.len() {
            if self.plan[place] == lane {
                let column = scale.place(COLUMNS as u64, self.passes[place].from as u64) as usize;
                let begin = column.max(free).min(COLUMNS - left);
                bars.push(self.bar_from(place, begin))?;
                free = begin + 1;
                left -= 1;
            }
        }
        Ok(bars)
    }

    // Writes the row of a lane.
    pub(crate) fn push_row(
        &self,
        alloc: Global,
        out: &mut String,
        lane: u8,
    ) -> Result<(), AllocError>
        ensures { OnOk result (string_bytes out.new ≡ string_bytes out.old ++ row (view self.now) lane) }
    {
        let bars = self.bars(alloc, lane)?;
        for column in 0..COLUMNS {
            push_byte(out, cell(&bars, column))?;
        }
        Ok(())
    }
}
