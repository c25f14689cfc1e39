// A night as a sequence of decisions: on each pass, in order of begin, which dish follows it, if any.
ghost use Rattle.std.specs.Prelude.{◌≡◌, ◌≤◌, length};
ghost use Rattle.pruning.specs.declared.rounding.TheConstants.{WIDE_DISHES, WIDE_PASSES};
ghost use Rattle.pruning.specs.Rounding.{Small};
ghost use Rattle.pruning.specs.Sums.{AddsUp};
ghost use Rattle.planner.specs.Nights.{night};
ghost use Rattle.planner.specs.Lawful.{night_moves, night_sums};

use engine::{Decisions, Gains};
use passes::Pass;
use pruning::{WIDE_DISHES, WIDE_PASSES, WideNight};

const ENTRIES: usize = WIDE_PASSES + 1;

// The second from which each dish is free.
// Kept: a place for each of the most dishes, however many there are, since memory is fixed.
#[derive(Clone, Copy)]
pub struct FreeFrom {
    seconds: [u64; WIDE_DISHES],
}

// A night, and what its passes may still gain.
#[derive(Drop)]
pub struct Scheduling<'a> {
    night: WideNight<'a>,
    // What the passes from each on are worth together.
    // Kept: as long as the most passes ask, since memory is fixed.
    left: [u64; ENTRIES],
    ghost small: { Small night.passes.now },
    ghost sums: { AddsUp (λ p. p.worth) night.passes.now 0 left },
}

impl<'a> Scheduling<'a> {
    // The night as decisions.
    pub fn new(night: WideNight<'a>) -> Scheduling<'a>
        ensures same_turns { result.night.turns.now ≡ night.entry.turns.now }
        ensures same_passes { result.night.passes.now ≡ night.entry.passes.now }
    {
        let left = add_up(night.passes);
        Scheduling { night, left }
    }
}

// What the passes from each on are worth together, from the last to the first.
// Kept: by index, since one entry is written and the one behind it is read. With `left.iter_mut().zip(passes).rev()` the proof doesn't know what the
// entry behind all passes ends as.
fn add_up(passes: &[Pass]) -> [u64; ENTRIES]
    requires few_passes { length passes.now ≤ WIDE_PASSES }
    ensures small { Small passes.now }
    ensures sums { AddsUp (λ p. p.worth) passes.now 0 result }
{
    let mut left = [0; ENTRIES];
    for (i, pass) in passes.iter().enumerate().rev() {
        left[i] = pass.worth as u64 + left[i + 1];
    }
    left
}

// Kept: here and below, stage, choice and state come one by one, as in `Decisions`.
impl Decisions for Scheduling<'_> {
    type State = FreeFrom;

    ghost moves = { λ p. (night p.night.turns.now p.night.passes.now).moves };

    ghost move_laws = { λ p valid. night_moves p.night.turns.now p.night.passes.now };

    fn lawful(&self) {}

    fn stages(&self) -> usize {
        self.night.passes.len()
    }

    fn choices(&self, _stage: usize) -> u8 {
        self.night.turns.len() as u8 + 1
    }

    fn start(&self) -> FreeFrom {
        FreeFrom {
            seconds: [0; WIDE_DISHES],
        }
    }

    fn step(&self, stage: usize, choice: u8, mut state: FreeFrom) -> Option<FreeFrom> {
        let Some(dish) = choice.checked_sub(1) else {
            return Some(state);
        };
        let pass = &self.night.passes[stage];
        let turn = *self.night.turns.get(dish as usize)?;
        if !pass.may_be_followed_by(dish) || state.seconds[dish as usize] > pass.from as u64 {
            return None;
        }
        state.seconds[dish as usize] = pass.to as u64 + turn as u64;
        Some(state)
    }
}

impl Gains for Scheduling<'_> {
    ghost gain = { λ p. (night p.night.turns.now p.night.passes.now).gain };

    ghost most = { λ p. (night p.night.turns.now p.night.passes.now).most };

    ghost sum_laws = { λ p valid. night_sums p.night.turns.now p.night.passes.now p.small p.night.few_passes };

    fn gain(&self, stage: usize, choice: u8, _state: FreeFrom) -> u64 {
        // Kept: which dish follows the pass isn't asked here, so `checked_sub` would be no plainer than a test for 0.
        if choice == 0 {
            0
        } else {
            self.night.passes[stage].worth as u64
        }
    }

    fn bound(&self, stage: usize, _state: FreeFrom) -> u64 {
        self.left[stage]
    }
}
