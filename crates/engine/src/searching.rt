// The search: depth first, through all choices of all stages but those that can't lead to a better end.
ghost use Rattle.std.specs.Prelude.{◌≡◌, ◌<◌, ◌⊎◌, true, false, length, take, None};
ghost use Rattle.std.specs.List.{All};
ghost use Rattle.engine.specs.Runs.{leads, Run};
ghost use Rattle.engine.specs.Problems.{in_order, Answered};
ghost use Rattle.engine.specs.Searching.{Unbeaten, Holds, Came, Improved, Known, Fresh, choice_at};

use crate::problem::Problem;
use crate::running::end_of;
use crate::seen::{Seen, forget_all, place, remember};

// A search under way: the best final state so far, the room, which holds a run to it, the table of states from which every way on was tried,
// and how many states were come to and not left out.
#[derive(Drop)]
struct Exploring<'a, P: Problem> {
    problem: &'a P,
    room: &'a mut [u8],
    best: &'a mut Option<P::State>,
    seen: &'a mut [Option<Seen<P::State>>],
    visited: u64,
    ghost one_each: { length room.now ≡ (P.moves problem.now).stages },
}

impl<P: Problem> Exploring<'_, P> {
    // Tries every way on from a state, to which the choices made so far lead, but for those that can't end ahead of the
    // best so far.
    // Kept: `made` beside the struct. As a field that `keep_better` lends to `copy_from_slice` it was tried in four forms, and the goal that it is as
    // it was then stayed open. And stage and state come one by one, as in `Decisions`.
    fn explore(&mut self, stage: usize, state: P::State, made: &mut [u8])
        requires valid { P.valid self.old.problem.now }
        requires came { Came (P.moves self.old.problem.now) stage state made.old }
        requires holds { Holds (in_order (P.moves self.old.problem.now) (P.ahead self.old.problem.now)) self.old.best.now self.old.room.now }
        requires known { Known (in_order (P.moves self.old.problem.now) (P.ahead self.old.problem.now)) self.old.seen.now self.old.best.now }
        ensures same_problem { self.new.problem ≡ self.old.problem }
        ensures same_room { self.new.room.ghost_name ≡ self.old.room.ghost_name }
        ensures same_best { self.new.best.ghost_name ≡ self.old.best.ghost_name }
        ensures same_table { self.new.seen.ghost_name ≡ self.old.seen.ghost_name }
        ensures improved { Improved (in_order (P.moves self.old.problem.now) (P.ahead self.old.problem.now)) self.old.best.now self.old.room.now self.new.best.now self.new.room.now }
        ensures unbeaten { Unbeaten (in_order (P.moves self.old.problem.now) (P.ahead self.old.problem.now)) stage state self.new.best.now }
        ensures known { Known (in_order (P.moves self.old.problem.now) (P.ahead self.old.problem.now)) self.new.seen.now self.new.best.now }
        ensures same_front { take stage made.new ≡ take stage made.old }
        ensures counted { 0 < self.old.visited ⊎ Fresh self.old.best.now self.old.seen.now → 0 < self.new.visited }
    {
        let problem = self.problem;
        if stage == problem.stages() {
            self.visited = self.visited.saturating_add(1);
            return self.keep_better(state, made);
        }
        if self.is_left_out(stage, state) {
            return;
        }
        self.visited = self.visited.saturating_add(1);
        let choices = problem.choices(stage);
        let first = problem
            .first_choice(stage, state)
            .min(choices.saturating_sub(1));
        // Kept: no list is gone through here, since a choice is a number.
        for turn in 0..choices {
            let choice = choice_at(first, turn);
            if let Some(next) = problem.step(stage, choice, state) {
                made[stage] = choice;
                self.explore(stage + 1, next, made);
            }
        }
        remember(self.seen, problem.slot(stage, state), stage, state);
    }

    // Whether it is sure that no way on from a state beats the best so far, by the problem's bound or by the table. It isn't while there is no best and
    // nothing in the table.
    fn is_left_out(&self, stage: usize, state: P::State) -> bool
        requires valid { P.valid self.now.problem.now }
        requires within { stage < (P.moves self.now.problem.now).stages }
        requires fine { (P.moves self.now.problem.now).fine stage state }
        requires holds { Holds (in_order (P.moves self.now.problem.now) (P.ahead self.now.problem.now)) self.now.best.now self.now.room.now }
        requires known { Known (in_order (P.moves self.now.problem.now) (P.ahead self.now.problem.now)) self.now.seen.now self.now.best.now }
        ensures sure { result ≡ true → Unbeaten (in_order (P.moves self.now.problem.now) (P.ahead self.now.problem.now)) stage state self.now.best.now }
        ensures nothing_yet { Fresh self.now.best.now self.now.seen.now → result ≡ false }
    {
        if let Some(best) = *self.best
            && self.problem.is_hopeless(stage, state, best)
        {
            return true;
        }
        self.is_covered(stage, state)
    }

    // Whether what stands at the state's place in the table covers it. Nothing does in an empty table.
    fn is_covered(&self, stage: usize, state: P::State) -> bool
        requires within { stage < (P.moves self.now.problem.now).stages }
        requires fine { (P.moves self.now.problem.now).fine stage state }
        requires known { Known (in_order (P.moves self.now.problem.now) (P.ahead self.now.problem.now)) self.now.seen.now self.now.best.now }
        ensures sure { result ≡ true → Unbeaten (in_order (P.moves self.now.problem.now) (P.ahead self.now.problem.now)) stage state self.now.best.now }
        ensures nothing_yet { All (λ o. o ≡ None) self.now.seen.now → result ≡ false }
    {
        let places = self.seen.len();
        if places == 0 {
            return false;
        }
        let Some(seen) = self.seen[place(self.problem.slot(stage, state), places)] else {
            return false;
        };
        seen.stage == stage && self.problem.covers(stage, seen.state, state)
    }

    // Keeps the run that was made if it ends ahead of the best so far.
    fn keep_better(&mut self, state: P::State, made: &[u8])
        requires valid { P.valid self.old.problem.now }
        requires run { Run (P.moves self.old.problem.now) made.now state }
        requires holds { Holds (in_order (P.moves self.old.problem.now) (P.ahead self.old.problem.now)) self.old.best.now self.old.room.now }
        ensures same_problem { self.new.problem ≡ self.old.problem }
        ensures same_room { self.new.room.ghost_name ≡ self.old.room.ghost_name }
        ensures same_best { self.new.best.ghost_name ≡ self.old.best.ghost_name }
        ensures improved { Improved (in_order (P.moves self.old.problem.now) (P.ahead self.old.problem.now)) self.old.best.now self.old.room.now self.new.best.now self.new.room.now }
        ensures unbeaten { Unbeaten (in_order (P.moves self.old.problem.now) (P.ahead self.old.problem.now)) (P.moves self.old.problem.now).stages state self.new.best.now }
        ensures same_table { self.new.seen.ghost_name ≡ self.old.seen.ghost_name }
        ensures same_seen { self.new.seen.now ≡ self.old.seen.now }
        ensures same_count { self.new.visited ≡ self.old.visited }
    {
        if let Some(best) = *self.best
            && !self.problem.is_ahead(state, best)
        {
            return;
        }
        self.room.copy_from_slice(made);
        *self.best = Some(state);
    }
}

// What a search came to: the best final state, if there is a run at all, and how many states it went on from or ended in.
#[derive(Clone, Copy, Debug, PartialEq)]
pub struct Searched<S> {
    pub best: Option<S>,
    pub visited: u64,
}

// The choice whose turn it is: the one to try first changes places with the choice 0.
fn choice_at(first: u8, turn: u8) -> u8
    ensures { result ≡ choice_at first turn }
{
    if turn == 0 {
        first
    } else if turn == first {
        0
    } else {
        turn
    }
}

// Leaves a best run in the room and answers its final state, or answers that there is no run at all and leaves the room as it was. If the room holds
// a run already, that is the first one to be beaten: the better it is, the more is left out, and nothing at all may be visited. What is left in
// `made`, where the search writes the choices that it tries, and in the table `seen` means nothing, and neither does what the table holds before.
pub fn search<P: Problem>(
    problem: &P,
    made: &mut [u8],
    seen: &mut [Option<Seen<P::State>>],
    room: &mut [u8],
) -> Searched<P::State>
    requires a_place_each { length made.old ≡ (P.moves problem.now).stages }
    requires one_each { length room.old ≡ (P.moves problem.now).stages }
    ensures answered { Answered (in_order (P.moves problem.now) (P.ahead problem.now)) room.old result.best room.new }
    ensures counted { leads (P.moves problem.now).step 0 (P.moves problem.now).start room.old ≡ None → 0 < result.visited }
{
    problem.lawful();
    forget_all(seen);
    let mut best = end_of(problem, room);
    let mut exploring = Exploring {
        problem,
        room,
        best: &mut best,
        seen,
        visited: 0,
    };
    exploring.explore(0, problem.start(), made);
    let visited = exploring.visited;
    Searched { best, visited }
}
