// Kinds of random cases.
ghost use Rattle.std.specs.Prelude.{◌≡◌, ◌+◌, ◌<◌, ◌≤◌, true};
ghost use Rattle.passes.specs.Checks.{in_range};
ghost use Rattle.passes.specs.declared.nights.TheConstants.{MAX_DISHES};
ghost use Rattle.trials.specs.declared.kinds.TheConstants.{TRIED_PASSES};
ghost use Rattle.trials.specs.Kinds.{CountOf, TurnOf, TimesOf, MarksOf, PassOf};

use passes::Pass;
use rand::{Rng, RngExt};
use std::fmt;

// So few that all plans of a list can be tried.
const TRIED_PASSES: u32 = 6;

// What the cases of a kind have in common.
#[derive(Clone, Copy)]
pub enum Kind {
    NoPasses,
    // Nothing but that they pass the checks.
    Mixed,
    NoTurning,
    // Dishes take 50,000 seconds to turn or more, and passes last up to 100,000.
    LargeTurning,
    // Passes begin as the ones before them do, or a second later.
    EqualBegins,
    // Passes begin and end at whole tens, so that some begin as others end, and dishes take no time to turn, or a second.
    Touching,
    // Each pass has the mark of one dish, which is there.
    OneDishHears,
    // Every second pass has only marks of dishes that aren't there.
    UnfitMarks,
    // Passes begin up to 30 seconds after the ones before them, and last up to 20.
    SecondsApart,
    // Passes begin up to two hours after the ones before them, and last up to 20 minutes.
    HoursApart,
}

impl fmt::Display for Kind {
    fn fmt<W: fmt::Write>(&self, f: &mut fmt::Formatter<W>) -> fmt::Result {
        f.write_str(match self {
            Kind::NoPasses => "no passes",
            Kind::Mixed => "mixed",
            Kind::NoTurning => "no turning",
            Kind::LargeTurning => "large turning",
            Kind::EqualBegins => "equal begins",
            Kind::Touching => "touching",
            Kind::OneDishHears => "one dish hears",
            Kind::UnfitMarks => "unfit marks",
            Kind::SecondsApart => "seconds apart",
            Kind::HoursApart => "hours apart",
        })
    }
}

impl Kind {
    // How many passes a case has.
    pub fn count<R: Rng>(self, rng: &mut R) -> u32
        ensures few { result ≤ TRIED_PASSES }
        ensures kind { CountOf self result }
    {
        match self {
            Kind::NoPasses => 0,
            _ => rng.random_range(1..=TRIED_PASSES),
        }
    }

    // How long its dishes take to turn.
    pub fn turn<R: Rng>(self, rng: &mut R) -> u64
        ensures small { result ≤ 100000 }
        ensures kind { TurnOf self result }
    {
        match self {
            Kind::NoTurning => 0,
            Kind::Touching => rng.random_range(0..=1),
            Kind::LargeTurning => rng.random_range(50_000..=100_000),
            _ => rng.random_range(0..=10),
        }
    }

    // A pass, for so many dishes, at its place in the list, after one that begins in the second `before`.
    #[tactic(auto, using(std::proofs::lemmas::Bool::Decides::nat_tests), unfolding(passes::specs::Checks::in_range))]
    pub fn pass<R: Rng>(self, rng: &mut R, dishes: u32, place: u32, before: u32) -> Pass
        requires some_dishes { 0 < dishes }
        requires few_dishes { dishes ≤ MAX_DISHES }
        requires early { before ≤ 500000 }
        ensures range { in_range result ≡ true }
        ensures later { before ≤ result.from }
        ensures soon { result.from ≤ before + 100000 }
        ensures kind { PassOf self dishes place before result }
    {
        let (step, length) = self.times(rng);
        let from = before + step;
        Pass {
            from,
            to: from + length,
            worth: rng.random_range(0..=20),
            marks: self.marks(rng, dishes, place),
        }
    }

    // How long after the one before it a pass begins, and how long it lasts.
    fn times<R: Rng>(self, rng: &mut R) -> (u32, u32)
        ensures soon { result.0 ≤ 100000 }
        ensures lasts { 0 < result.1 }
        ensures short { result.1 ≤ 100000 }
        ensures kind { TimesOf self result.0 result.1 }
    {
        match self {
            Kind::LargeTurning => (rng.random_range(0..=100_000), rng.random_range(1..=100_000)),
            Kind::EqualBegins => (rng.random_range(0..=1), rng.random_range(1..=20)),
            Kind::SecondsApart => (rng.random_range(0..=30), rng.random_range(1..=20)),
            Kind::HoursApart => (rng.random_range(0..=7200), rng.random_range(1..=1200)),
            Kind::Touching => (10 * rng.random_range(0..=1), 10 * rng.random_range(1..=2)),
            _ => (rng.random_range(0..=10), rng.random_range(1..=20)),
        }
    }

    // Of which of the dishes it has the marks.
    fn marks<R: Rng>(self, rng: &mut R, dishes: u32, place: u32) -> u8
        requires some_dishes { 0 < dishes }
        requires few_dishes { dishes ≤ MAX_DISHES }
        ensures small { result ≤ 15 }
        ensures kind { MarksOf self dishes place result }
    {
        let marks = rng.random_range(0..=15);
        match self {
            Kind::OneDishHears => 1 << rng.random_range(0..dishes),
            Kind::UnfitMarks if place % 2 == 0 => marks >> dishes << dishes,
            _ => marks,
        }
    }
}
