// States of a night, rounded up: of each dish, in place of the second from which it is free, the next pass that it may still follow.
ghost use Rattle.std.specs.Prelude.{◌≡◌, ◌+◌, ◌<◌, ◌≤◌, ◌&&◌, length, nat_lt, nat_le, slice_index, ◌^◌, MatchBool, MatchOption};
ghost use Rattle.passes.specs.Follow.{may};
ghost use Rattle.passes.specs.Rule.{nth};
ghost use Rattle.capacity.specs.Order.{InTime, InTime-prop};
ghost use Rattle.pruning.specs.declared.rounding.TheConstants.{WIDE_DISHES};
ghost use Rattle.pruning.specs.Rounding.{suits, next_pass, allowed, next_then, go_on, NoLater, FitsNight, max_wide_dishes, max_wide_passes, rounded_night};

use passes::Pass;

// The most dishes of a wide night: more than a night that is read has, so that wider problems fit.
pub const WIDE_DISHES: usize = 8;

// The most passes of a wide night, more than of one that is read, too.
pub const WIDE_PASSES: usize = 128;

// An odd number with ones and zeros all over, 2^64 by the golden ratio.
const MIXER: u64 = 0x9e37_79b9_7f4a_7c15;

// The next pass that each dish may still follow, by its place in the list; the number of passes stands for none.
// Kept: a place for each of the most dishes, however many there are, since memory is fixed.
#[derive(Clone, Copy)]
pub struct NextPasses {
    next: [u8; WIDE_DISHES],
}

impl NextPasses {
    // The next pass of a dish.
    pub(crate) fn next_of(self, dish: usize) -> usize
        requires there { dish < WIDE_DISHES }
        ensures { result ≡ slice_index self.next dish }
    {
        self.next[dish] as usize
    }

    // Whether each dish's next pass comes no later than by the other state.
    pub(crate) fn comes_no_later(self, other: NextPasses) -> bool
        ensures { MatchBool result (NoLater self other) (NoLater self other → ⊥) }
    {
        self.next
            .iter()
            .zip(&other.next)
            .all(|(mine, others)| mine <= others)
    }

    // A number in which all next passes and the stage are mixed, the same for the same ones.
    pub(crate) fn mixed_with(self, stage: usize) -> u64
        ensures { result < 2 ^ 32 }
    {
        let mixed = u64::from_le_bytes(self.next).wrapping_mul(MIXER);
        (mixed ^ (mixed >> 32) ^ stage as u64).wrapping_mul(MIXER) >> 32
    }
}

// A night that may be wider than one that is read: passes in order of time, and how long each dish takes to turn.
#[derive(Clone, Copy)]
pub struct WideNight<'a> {
    pub turns: &'a [u32],
    pub passes: &'a [Pass],
    pub ghost few_dishes: { length turns.now ≤ max_wide_dishes },
    pub ghost few_passes: { length passes.now ≤ max_wide_passes },
    pub ghost in_time: { InTime passes.now } by { InTime-prop passes.now },
}

impl<'a> WideNight<'a> {
    // The night of these dishes and passes, unless there are too many of them or the passes aren't in order of time.
    pub fn new(turns: &'a [u32], passes: &'a [Pass]) -> Option<WideNight<'a>>
        ensures { MatchOption result (FitsNight turns.now passes.now → ⊥) (λ r. (r.turns.now ≡ turns.now) × (r.passes.now ≡ passes.now)) }
    {
        if turns.len() > WIDE_DISHES || passes.len() > WIDE_PASSES || !are_in_time(passes) {
            return None;
        }
        Some(WideNight { turns, passes })
    }
}

// Whether each pass ends after it begins, and none begins before one that stands before it.
// Kept: two neighbours at a time, by index.
fn are_in_time(passes: &[Pass]) -> bool
    ensures { MatchBool result (InTime passes.now) (InTime passes.now → ⊥) }
{
    for i in 0..passes.len() {
        let pass = passes[i];
        if pass.from >= pass.to || (i > 0 && pass.from < passes[i - 1].from) {
            return false;
        }
    }
    true
}

impl WideNight<'_> {
    // Whether the dish is there and may follow the pass, which begins in the second or later.
    fn suits(&self, dish: usize, second: u64, pass: &Pass) -> bool
        ensures { result ≡ suits self.now.turns.now dish second pass.now }
    {
        dish < self.turns.len() && pass.may_be_followed_by(dish as u8) && second <= pass.from as u64
    }

    // The first pass from a place in the list on that suits the dish, or the number of passes if none does.
    // Kept: by a loop. With `find` over the places, what its closure asks was not known of the passes before the one that is found.
    fn next_pass(&self, dish: usize, place: usize, second: u64) -> u8
        requires within { place ≤ length self.now.passes.now }
        ensures { result ≡ next_pass self.now.turns.now self.now.passes.now dish place second }
    {
        let count = self.passes.len();
        for next in place..count {
            if self.suits(dish, second, &self.passes[next]) {
                return next as u8;
            }
        }
        count as u8
    }

    // Before all passes, the first that each dish may follow.
    pub(crate) fn start(&self) -> NextPasses
        ensures { let r = self.now in result ≡ (rounded_night r.turns.now r.passes.now).moves.start }
    {
        let mut next = [0; WIDE_DISHES];
        for dish in 0..WIDE_DISHES {
            next[dish] = self.next_pass(dish, 0, 0);
        }
        NextPasses { next }
    }

    // The state to which a decision on a pass leads, unless it isn't allowed.
    pub(crate) fn step(&self, stage: usize, choice: u8, state: NextPasses) -> Option<NextPasses>
        requires within { stage < length self.now.passes.now }
        ensures { let r = self.now in result ≡ go_on r.turns.now r.passes.now stage choice state }
    {
        if !self.is_allowed(stage, choice, state) {
            return None;
        }
        let mut next = [0; WIDE_DISHES];
        for dish in 0..WIDE_DISHES {
            next[dish] = self.next_then(stage, choice, state, dish);
        }
        Some(NextPasses { next })
    }

    // Whether a decision is allowed.
    fn is_allowed(&self, stage: usize, choice: u8, state: NextPasses) -> bool
        ensures { result ≡ allowed self.now.turns.now stage choice state }
    {
        let Some(dish) = choice.checked_sub(1) else {
            return true;
        };
        let dish = dish as usize;
        dish < self.turns.len() && state.next[dish] as usize == stage
    }

    // The next pass of a dish after a decision.
    fn next_then(&self, stage: usize, choice: u8, state: NextPasses, dish: usize) -> u8
        requires within { stage < length self.now.passes.now }
        requires there { dish < WIDE_DISHES }
        requires followed_by_one { choice ≤ length self.now.turns.now }
        ensures { let r = self.now in result ≡ next_then r.turns.now r.passes.now stage choice state dish }
    {
        if choice as usize == dish + 1 {
            let free = self.passes[stage].to as u64 + self.turns[dish] as u64;
            self.next_pass(dish, stage + 1, free)
        } else if state.next[dish] as usize == stage {
            self.next_pass(dish, stage + 1, 0)
        } else {
            state.next[dish]
        }
    }
}
