// The run that gains the most: the search over states with what was gained so far.
ghost use Rattle.std.specs.Prelude.{◌≡◌, ◌-◌, ◌<◌, ◌≤◌, true, length, is_some, None, MatchOption};
ghost use Rattle.engine.specs.Runs.{leads};
ghost use Rattle.engine.specs.Gaining.{gaining, GainAnswered, tally_moves, tally_order};
ghost use Rattle.engine.specs.Lawful.{tally_move_laws, tally_order_laws};

use crate::decisions::Decisions;
use crate::gains::Gains;
use crate::problem::Problem;
use crate::searching::search;
use crate::seen::Seen;

// A state, and what was gained on the way to it.
#[derive(Clone, Copy)]
pub struct Tally<S> {
    pub state: S,
    pub gained: u64,
}

// The same decisions, over states with what was gained so far: who has gained more is ahead.
#[derive(Drop)]
pub struct Summed<G> {
    pub gains: G,
}

impl<G: Gains> Summed<G> {
    // What a choice that is allowed gains, and the bound of where it leads.
    fn promise(&self, stage: usize, choice: u8, state: G::State) -> Option<u64>
        requires within { stage < (G.moves self.now.gains).stages }
        requires offered { choice < (G.moves self.now.gains).choices stage }
        requires fine { (G.moves self.now.gains).fine stage state }
        ensures { MatchOption result ((G.moves self.now.gains).step stage choice state ≡ None) (λ n. (is_some ((G.moves self.now.gains).step stage choice state) ≡ true) × (G.gain self.now.gains stage choice state ≤ n)) }
    {
        self.gains.lawful();
        let next = self.gains.step(stage, choice, state)?;
        let gain = self.gains.gain(stage, choice, state);
        if self.gains.stages() == stage + 1 {
            return Some(gain);
        }
        Some(gain.saturating_add(self.gains.bound(stage + 1, next)))
    }

    // The choice that promises most, the last of several, or 0 if none is allowed.
    fn most_promising(&self, stage: usize, state: G::State) -> u8
        requires within { stage < (G.moves self.now.gains).stages }
        requires fine { (G.moves self.now.gains).fine stage state }
        ensures { result ≤ (G.moves self.now.gains).choices stage - 1 }
    {
        let mut first = 0;
        let mut most = 0;
        // Kept: no list is gone through here, since a choice is a number.
        for choice in 0..self.gains.choices(stage) {
            if let Some(promise) = self.promise(stage, choice, state)
                && promise >= most
            {
                first = choice;
                most = promise;
            }
        }
        first
    }
}

impl<G: Gains> Decisions for Summed<G> {
    type State = Tally<G::State>;

    ghost moves = { λ p. tally_moves (gaining (G.moves p.gains) (G.gain p.gains) (G.most p.gains)) };

    ghost valid = { λ p. G.valid p.gains };

    ghost move_laws = { λ p valid. tally_move_laws (gaining (G.moves p.gains) (G.gain p.gains) (G.most p.gains)) (G.move_laws p.gains valid) (G.sum_laws p.gains valid) };

    fn lawful(&self) {
        self.gains.lawful();
    }

    fn stages(&self) -> usize {
        self.gains.stages()
    }

    fn choices(&self, stage: usize) -> u8 {
        self.gains.choices(stage)
    }

    fn start(&self) -> Tally<G::State> {
        Tally {
            state: self.gains.start(),
            gained: 0,
        }
    }

    fn step(&self, stage: usize, choice: u8, at: Tally<G::State>) -> Option<Tally<G::State>> {
        self.gains.lawful();
        let state = self.gains.step(stage, choice, at.state)?;
        Some(Tally {
            state,
            gained: at.gained + self.gains.gain(stage, choice, at.state),
        })
    }
}

impl<G: Gains> Problem for Summed<G> {
    ghost ahead = { λ p. tally_order };

    ghost order_laws = { λ p valid. tally_order_laws };

    fn is_ahead(&self, state: Tally<G::State>, other: Tally<G::State>) -> bool {
        state.gained > other.gained
    }

    fn is_hopeless(&self, stage: usize, at: Tally<G::State>, best: Tally<G::State>) -> bool {
        at.gained <= best.gained && self.gains.bound(stage, at.state) <= best.gained - at.gained
    }

    fn covers(&self, stage: usize, seen: Tally<G::State>, at: Tally<G::State>) -> bool {
        seen.gained >= at.gained && self.gains.covers(stage, seen.state, at.state)
    }

    // The same place whatever was gained.
    fn slot(&self, stage: usize, at: Tally<G::State>) -> u64 {
        self.gains.slot(stage, at.state)
    }

    // The choice that promises most.
    fn first_choice(&self, stage: usize, at: Tally<G::State>) -> u8 {
        self.most_promising(stage, at.state)
    }
}

// What a search came to: the most that can be gained, if there is a run at all, and how many states it went on from or ended in.
#[derive(Clone, Copy, Debug, PartialEq)]
pub struct Gained {
    pub most: Option<u64>,
    pub visited: u64,
}

// Leaves a run that gains the most in the room and answers how much that is, or answers that there is no run at all and leaves the room as it
// was. If the room holds a run already, that is the first one to be beaten, and nothing at all may be visited. What is left in `made` and in the table
// `seen` means nothing, and neither does what the table holds before.
pub fn gain_most<G: Gains>(
    problem: &Summed<G>,
    made: &mut [u8],
    seen: &mut [Option<Seen<Tally<G::State>>>],
    room: &mut [u8],
) -> Gained
    requires a_place_each { length made.old ≡ (G.moves problem.now.gains).stages }
    requires one_each { length room.old ≡ (G.moves problem.now.gains).stages }
    ensures answered { GainAnswered (gaining (G.moves problem.now.gains) (G.gain problem.now.gains) (G.most problem.now.gains)) room.old result.most room.new }
    ensures counted { leads (G.moves problem.now.gains).step 0 (G.moves problem.now.gains).start room.old ≡ None → 0 < result.visited }
{
    let found = search(problem, made, seen, room);
    Gained {
        most: found.best.map(|end| end.gained),
        visited: found.visited,
    }
}
