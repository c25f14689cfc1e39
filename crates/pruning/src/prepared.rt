// A night with what is the same at all prices: what each dish can follow after each pass, and the unit of worth.
ghost use Rattle.std.specs.Prelude.{◌≡◌, ◌≤◌, ◌<◌, length, take};
ghost use Rattle.capacity.specs.Order.{Successors as SuccessorsIn};
ghost use Rattle.pruning.specs.declared.rounding.TheConstants.{WIDE_PASSES};
ghost use Rattle.pruning.specs.Following.{AllSuccessors, AllSuccessors-prop};
ghost use Rattle.pruning.specs.Units.{WholeIn};

use crate::rounding::{WIDE_DISHES, WIDE_PASSES, WideNight};
use crate::units::unit_of;
use capacity::OneDish;

// For each dish and pass the first pass that the dish can follow after it, by its place.
// Kept: places for the most dishes and passes, since memory is fixed.
pub(crate) type Successors = [[usize; WIDE_PASSES]; WIDE_DISHES];

// A night, what each of its dishes can follow after each pass, and a number of which what every plan is worth is a multiple.
#[derive(Clone, Copy)]
pub(crate) struct Prepared<'n, 'a> {
    pub(crate) night: WideNight<'n>,
    pub(crate) after: &'a Successors,
    pub(crate) unit: u64,
    pub(crate) ghost successors: { AllSuccessors night.turns.now night.passes.now after.now } by { AllSuccessors-prop night.turns.now night.passes.now after.now },
    pub(crate) ghost some_unit: { 0 < unit },
    pub(crate) ghost whole: { WholeIn unit night.passes.now },
}

impl<'n, 'a> Prepared<'n, 'a> {
    // The night with what its dishes can follow.
    pub(crate) fn new(night: WideNight<'n>, after: &'a Successors) -> Prepared<'n, 'a>
        requires { AllSuccessors night.turns.now night.passes.now after.now }
        ensures same_turns { result.night.turns.now ≡ night.entry.turns.now }
        ensures same_passes { result.night.passes.now ≡ night.entry.passes.now }
    {
        Prepared {
            night,
            after,
            unit: unit_of(night.passes),
        }
    }
}

// For each dish what it can follow after each pass.
pub(crate) fn all_successors(night: WideNight) -> Successors
    ensures { AllSuccessors night.entry.turns.now night.entry.passes.now result }
{
    let mut after = [[0; WIDE_PASSES]; WIDE_DISHES];
    for dish in 0..night.turns.len() {
        after[dish] = successors_of(night.alone(dish));
    }
    after
}

// What a dish can follow after each pass.
fn successors_of(alone: OneDish) -> [usize; WIDE_PASSES]
    requires few_passes { length alone.passes.now ≤ WIDE_PASSES }
    ensures { let one = alone.entry in SuccessorsIn one.station.turn one.passes.now (take (length one.passes.now) result) }
{
    let mut after = [0; WIDE_PASSES];
    alone.find_successors(&mut after[..alone.passes.len()]);
    after
}
