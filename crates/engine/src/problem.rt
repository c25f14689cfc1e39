// What a sequence of decisions is to the search.
ghost use Rattle.std.specs.Prelude.{◌≡◌, ◌<◌, true};
ghost use Rattle.engine.specs.Problems.{Order, OrderLaws, in_order, Final, Hopeless, Covers};

use crate::decisions::Decisions;

// A sequence of decisions, of whose final states some are ahead of others.
pub trait Problem: Decisions {
    // Which of two final states is the better one.
    ghost ahead: { Self → Order Self.State };

    // Whether the first of two final states is the better one.
    fn is_ahead(&self, state: Self::State, other: Self::State) -> bool
        requires fine { Final (in_order (Self.moves self.now) (ahead self.now)) state }
        requires other_fine { Final (in_order (Self.moves self.now) (ahead self.now)) other }
        ensures { result ≡ ahead self.now state other };

    // Whether it is sure that no way on from a state ends ahead of the best final state so far. Whoever can't tell says no.
    // Kept: stage and state come one by one, as in `Decisions`.
    fn is_hopeless(&self, stage: usize, state: Self::State, best: Self::State) -> bool
        requires within { stage < (Self.moves self.now).stages }
        requires fine { (Self.moves self.now).fine stage state }
        requires best_fine { Final (in_order (Self.moves self.now) (ahead self.now)) best }
        ensures { result ≡ true → Hopeless (in_order (Self.moves self.now) (ahead self.now)) stage state best }
    {
        false
    }

    // Whether it is sure that whatever choices lead on from the second state lead on from the first one too, to an end at least as good. Whoever
    // can't tell says no.
    // Kept: stage and states come one by one, as in `Decisions`.
    fn covers(&self, stage: usize, seen: Self::State, state: Self::State) -> bool
        requires within { stage < (Self.moves self.now).stages }
        requires seen_fine { (Self.moves self.now).fine stage seen }
        requires fine { (Self.moves self.now).fine stage state }
        ensures { result ≡ true → Covers (in_order (Self.moves self.now) (ahead self.now)) stage seen state }
    {
        false
    }

    // A place for the state in the table of states seen before. Nothing is promised of it.
    fn slot(&self, stage: usize, state: Self::State) -> u64
        requires within { stage < (Self.moves self.now).stages }
        requires fine { (Self.moves self.now).fine stage state }
    {
        0
    }

    // The choice to try first. Nothing is promised of it.
    fn first_choice(&self, stage: usize, state: Self::State) -> u8
        requires within { stage < (Self.moves self.now).stages }
        requires fine { (Self.moves self.now).fine stage state }
    {
        0
    }

    // What is asked of the order, and each impl proves.
    ghost order_laws: { (x : Self) → Self.valid x → OrderLaws (ahead x) };
}
