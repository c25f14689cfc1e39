// What each dish of a night alone can gain from each pass on.
ghost use Rattle.std.specs.Prelude.{◌≡◌, ◌^◌, ◌<◌, length, sum};
ghost use Rattle.capacity.specs.Alone.{RightFrom};
ghost use Rattle.pruning.specs.Prices.{station_of_dish, Tables};

use crate::prepared::Prepared;
use crate::rounding::{WIDE_DISHES, WIDE_PASSES, WideNight};
use capacity::OneDish;
use passes::Station;

// A table has one entry more than there are passes.
pub(crate) const ENTRIES: usize = WIDE_PASSES + 1;

impl WideNight<'_> {
    // One dish alone.
    pub(crate) fn alone(&self, dish: usize) -> OneDish<'_>
        requires there { dish < length self.now.turns.now }
        ensures station { result.station ≡ station_of_dish self.now.turns.now dish }
        ensures same_dish { result.dish ≡ dish }
        ensures same_passes { result.passes.now ≡ self.now.passes.now }
    {
        OneDish {
            station: Station {
                dishes: self.turns.len() as u8,
                turn: self.turns[dish],
            },
            dish: dish as u8,
            passes: self.passes,
        }
    }
}

impl Prepared<'_, '_> {
    // What a dish alone can gain from each pass on.
    pub(crate) fn table_of(&self, dish: usize, gains: &[u64]) -> [u64; ENTRIES]
        requires there { dish < length self.now.night.turns.now }
        requires a_gain_each { length gains.now ≡ length self.now.night.passes.now }
        requires sum_fits { sum gains.now < 2 ^ 64 }
        ensures { let r = self.now.night in RightFrom 0 (station_of_dish r.turns.now dish) dish r.passes.now gains.now result }
    {
        let count = self.night.passes.len();
        let after = self.after;
        let mut table = [0; ENTRIES];
        self.night
            .alone(dish)
            .fill_table(&after[dish][..count], gains, &mut table[..count + 1]);
        table
    }

    // The same of every dish.
    pub(crate) fn tables_of(&self, gains: &[u64]) -> [[u64; ENTRIES]; WIDE_DISHES]
        requires a_gain_each { length gains.now ≡ length self.now.night.passes.now }
        requires sum_fits { sum gains.now < 2 ^ 64 }
        ensures { let r = self.now.night in Tables r.turns.now r.passes.now gains.now result }
    {
        let mut tables = [[0; ENTRIES]; WIDE_DISHES];
        for dish in 0..self.night.turns.len() {
            tables[dish] = self.table_of(dish, gains);
        }
        tables
    }
}
