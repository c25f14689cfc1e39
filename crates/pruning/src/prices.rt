// A night whose passes have prices, by which what is left to gain is bounded.
ghost use Rattle.std.specs.Prelude.{◌≡◌, ◌+◌, ◌*◌, ◌^◌, ◌<◌, ◌≤◌, length, take};
ghost use Rattle.passes.specs.Rule.{nth};
ghost use Rattle.capacity.specs.Order.{InTime};
ghost use Rattle.pruning.specs.declared.rounding.TheConstants.{WIDE_DISHES, WIDE_PASSES};
ghost use Rattle.pruning.specs.declared.prices.TheConstants.{SCALE};
ghost use Rattle.pruning.specs.Rounding.{Small, rounded_night};
ghost use Rattle.pruning.specs.Sums.{AddsUp};
ghost use Rattle.pruning.specs.Units.{WholeIn};
ghost use Rattle.pruning.specs.Lawful.{rounded_moves, rounded_sums};
ghost use Rattle.pruning.specs.Prices.{NoneAbove, Moderate, less_prices, LeftFalls, TablesFall, FallsPay, LeftLow, TablesLow};

use crate::prepared::{Prepared, all_successors};
use crate::rounding::{NextPasses, WIDE_DISHES, WIDE_PASSES, WideNight};
use crate::tables::ENTRIES;
use engine::{Decisions, Gains};
use passes::Pass;

// Prices are whole numbers of so many parts of what passes are worth.
pub const SCALE: u64 = 1024;

// A night, and what its passes and dishes may still gain.
// Kept: tables are as long as the most passes ask, since memory is fixed.
#[derive(Drop)]
pub struct Priced<'a> {
    pub night: WideNight<'a>,
    // The prices of the passes from each on together.
    left: [u64; ENTRIES],
    // What each dish alone can gain from each pass on, once prices are paid.
    tables: [[u64; ENTRIES]; WIDE_DISHES],
    // What every plan is worth is a multiple of this.
    unit: u64,
    ghost some_unit: { 0 < unit },
    ghost whole: { WholeIn unit night.passes.now },
    ghost small: { Small night.passes.now },
    ghost left_low: { LeftLow night.passes.now left },
    ghost tables_low: { TablesLow night.turns.now night.passes.now tables },
    ghost left_falls: { LeftFalls night.passes.now left },
    ghost tables_fall: { TablesFall night.turns.now night.passes.now tables },
    ghost falls_pay: { FallsPay SCALE night.turns.now night.passes.now left tables },
}

// What a pass is worth, in the parts that prices are counted in.
pub(crate) fn full_price(pass: &Pass) -> u64
    ensures scaled { result ≡ SCALE * pass.now.worth }
    ensures moderate { result < 2 ^ 42 }
{
    SCALE * pass.worth as u64
}

// Prices none of which is above what its pass is worth.
// Kept: by index, as the rooms are arrays, of which the front is used.
fn fair_prices(passes: &[Pass], prices: &[u64; WIDE_PASSES]) -> [u64; WIDE_PASSES]
    requires few_passes { length passes.now ≤ WIDE_PASSES }
    ensures small { Small passes.now }
    ensures none_above { NoneAbove SCALE passes.now result }
{
    let mut fair = [0; WIDE_PASSES];
    for (i, pass) in passes.iter().enumerate() {
        fair[i] = prices[i].min(full_price(pass));
    }
    fair
}

// What the prices of the passes from each on come to, from the last to the first.
// Kept: by index, since one entry is written and the one behind it is read.
fn add_up(prices: &[u64]) -> [u64; ENTRIES]
    requires few_prices { length prices.now ≤ WIDE_PASSES }
    requires moderate { Moderate prices.now }
    ensures { AddsUp (λ x. x) prices.now 0 result }
{
    let mut left = [0; ENTRIES];
    for i in (0..prices.len()).rev() {
        left[i] = prices[i] + left[i + 1];
    }
    left
}

// What is gained by following each pass, once its price is paid.
// Kept: by index, as in `fair_prices`.
pub(crate) fn less_prices(passes: &[Pass], prices: &[u64]) -> [u64; WIDE_PASSES]
    requires few_passes { length passes.now ≤ WIDE_PASSES }
    requires one_each { length prices.now ≡ length passes.now }
    requires none_above { NoneAbove SCALE passes.now prices.now }
    ensures less { take (length passes.now) result ≡ less_prices SCALE passes.now prices.now }
    ensures moderate { Moderate (take (length passes.now) result) }
{
    let mut gains = [0; WIDE_PASSES];
    for (i, pass) in passes.iter().enumerate() {
        gains[i] = full_price(pass) - prices[i];
    }
    gains
}

impl<'a> Priced<'a> {
    // The night at these prices; one that is above what its pass is worth counts for no more than that.
    pub fn new(night: WideNight<'a>, prices: &[u64; WIDE_PASSES]) -> Priced<'a>
        ensures same_turns { result.night.turns.now ≡ night.entry.turns.now }
        ensures same_passes { result.night.passes.now ≡ night.entry.passes.now }
    {
        let after = all_successors(night);
        Priced::prepared(Prepared::new(night, &after), prices)
    }

    // The same, for a night that is prepared.
    pub(crate) fn prepared(prepared: Prepared<'a, '_>, prices: &[u64; WIDE_PASSES]) -> Priced<'a>
        ensures same_turns { result.night.turns.now ≡ prepared.entry.night.turns.now }
        ensures same_passes { result.night.passes.now ≡ prepared.entry.night.passes.now }
    {
        let night = prepared.night;
        let count = night.passes.len();
        let fair = fair_prices(night.passes, prices);
        let fair = &fair[..count];
        let gains = less_prices(night.passes, fair);
        Priced {
            night,
            left: add_up(fair),
            tables: prepared.tables_of(&gains[..count]),
            unit: prepared.unit,
        }
    }
}

// Kept: here and below, stage, choice and state come one by one, as in `Decisions`.
impl Decisions for Priced<'_> {
    type State = NextPasses;

    ghost moves = { λ p. (rounded_night p.night.turns.now p.night.passes.now).moves };

    ghost move_laws = { λ p valid. rounded_moves p.night.turns.now p.night.passes.now };

    fn lawful(&self) {}

    fn stages(&self) -> usize {
        self.night.passes.len()
    }

    fn choices(&self, _stage: usize) -> u8 {
        self.night.turns.len() as u8 + 1
    }

    fn start(&self) -> NextPasses {
        self.night.start()
    }

    fn step(&self, stage: usize, choice: u8, state: NextPasses) -> Option<NextPasses> {
        self.night.step(stage, choice, state)
    }
}

impl Gains for Priced<'_> {
    ghost gain = { λ p. (rounded_night p.night.turns.now p.night.passes.now).gain };

    ghost most = { λ p. (rounded_night p.night.turns.now p.night.passes.now).most };

    ghost sum_laws = { λ p valid. rounded_sums p.night.turns.now p.night.passes.now p.small p.night.few_passes };

    fn gain(&self, stage: usize, choice: u8, _state: NextPasses) -> u64 {
        // Kept: which dish follows the pass isn't asked here, so `checked_sub` would be no plainer than a test for 0.
        if choice == 0 {
            0
        } else {
            self.night.passes[stage].worth as u64
        }
    }

    // The prices of the passes that are left, and what each dish alone can gain from its next pass on, once prices are paid: the greatest multiple of the
    // unit that isn't above that.
    fn bound(&self, stage: usize, state: NextPasses) -> u64 {
        let mut bound = self.left[stage];
        for dish in 0..self.night.turns.len() {
            bound += self.tables[dish][state.next_of(dish)];
        }
        bound / SCALE / self.unit * self.unit
    }

    // Each dish's next pass comes no later.
    fn covers(&self, _stage: usize, seen: NextPasses, state: NextPasses) -> bool {
        seen.comes_no_later(state)
    }

    fn slot(&self, stage: usize, state: NextPasses) -> u64 {
        state.mixed_with(stage)
    }
}
