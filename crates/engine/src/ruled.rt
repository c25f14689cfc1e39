// Decisions of which a rule refuses some.
ghost use Rattle.std.specs.Prelude.{◌≡◌, length};
ghost use Rattle.engine.specs.Gaining.{gaining};
ghost use Rattle.engine.specs.Rules.{AcceptedAnswered, ruled_moves, ruled_order};
ghost use Rattle.engine.specs.RuledLaws.{ruled_move_laws, ruled_order_laws};

use crate::decisions::Decisions;
use crate::gains::Gains;
use crate::problem::Problem;
use crate::rules::{Both, Rule};
use crate::searching::search;
use crate::seen::Seen;
use crate::summed::{Gained, Summed, Tally};

// A problem of which a rule refuses some choices. Its runs are those that the rule accepts, and what the problem knows of bounds holds for them too.
#[derive(Drop)]
pub struct Ruled<P, R> {
    pub problem: P,
    pub rule: R,
}

// Kept: here and below, stage, choice and state come one by one, as in `Decisions`.
impl<P: Decisions, R: Rule> Decisions for Ruled<P, R> {
    type State = Both<P::State, R::State>;

    ghost moves = { λ p. ruled_moves (P.moves p.problem) (R.automaton p.rule) };

    ghost valid = { λ p. P.valid p.problem };

    ghost move_laws = { λ p valid. ruled_move_laws (P.moves p.problem) (R.automaton p.rule) (P.move_laws p.problem valid) };

    fn lawful(&self) {
        self.problem.lawful();
    }

    fn stages(&self) -> usize {
        self.problem.stages()
    }

    fn choices(&self, stage: usize) -> u8 {
        self.problem.choices(stage)
    }

    fn start(&self) -> Both<P::State, R::State> {
        Both {
            one: self.problem.start(),
            other: self.rule.start(),
        }
    }

    fn step(
        &self,
        stage: usize,
        choice: u8,
        state: Both<P::State, R::State>,
    ) -> Option<Both<P::State, R::State>> {
        let one = self.problem.step(stage, choice, state.one)?;
        let other = self.rule.step(stage, choice, state.other)?;
        Some(Both { one, other })
    }
}

impl<P: Problem, R: Rule> Problem for Ruled<P, R> {
    ghost ahead = { λ p. ruled_order (P.ahead p.problem) };

    ghost order_laws = { λ p valid. ruled_order_laws (P.ahead p.problem) (P.order_laws p.problem valid) };

    fn is_ahead(&self, state: Both<P::State, R::State>, other: Both<P::State, R::State>) -> bool {
        self.problem.is_ahead(state.one, other.one)
    }

    fn is_hopeless(
        &self,
        stage: usize,
        state: Both<P::State, R::State>,
        best: Both<P::State, R::State>,
    ) -> bool {
        self.problem.is_hopeless(stage, state.one, best.one)
    }

    fn covers(
        &self,
        stage: usize,
        seen: Both<P::State, R::State>,
        state: Both<P::State, R::State>,
    ) -> bool {
        self.problem.covers(stage, seen.one, state.one)
            && self.rule.grants(stage, seen.other, state.other)
    }

    fn slot(&self, stage: usize, state: Both<P::State, R::State>) -> u64 {
        self.problem
            .slot(stage, state.one)
            .wrapping_add(self.rule.slot(stage, state.other))
    }

    fn first_choice(&self, stage: usize, state: Both<P::State, R::State>) -> u8 {
        self.problem.first_choice(stage, state.one)
    }
}

// Leaves in the room, of the runs that the rule accepts, one that gains the most, and answers how much that is; or answers that it accepts none and leaves
// the room as it was. If the room holds a run that it accepts, that is the first one to be beaten. How many states are visited isn't promised.
pub fn gain_most_by<G: Gains, R: Rule>(
    problem: &Ruled<Summed<G>, R>,
    made: &mut [u8],
    seen: &mut [Option<Seen<Both<Tally<G::State>, R::State>>>],
    room: &mut [u8],
) -> Gained
    requires a_place_each { length made.old ≡ (G.moves problem.now.problem.gains).stages }
    requires one_each { length room.old ≡ (G.moves problem.now.problem.gains).stages }
    ensures { let p = problem.now in AcceptedAnswered (gaining (G.moves p.problem.gains) (G.gain p.problem.gains) (G.most p.problem.gains)) (R.automaton p.rule) room.old result.most room.new }
{
    let found = search(problem, made, seen, room);
    Gained {
        most: found.best.map(|end| end.one.gained),
        visited: found.visited,
    }
}
