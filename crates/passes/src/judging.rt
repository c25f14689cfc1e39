ghost use Rattle.std.specs.Prelude.{◌≡◌, ℕ, ◌<◌, ◌≤◌, length, Some, IfOk, MatchOption};
ghost use Rattle.std.specs.Result.{result_err};
ghost use Rattle.passes.specs.Checks.{max_passes};
ghost use Rattle.passes.specs.Nights.{passes_of, station_of};
ghost use Rattle.passes.specs.Numbers.{passes_in};
ghost use Rattle.passes.specs.Plans.{worth_of};
ghost use Rattle.passes.specs.Refusals.{room_refused, refused_with_room};
ghost use Rattle.passes.specs.Rule.{says, Clash, FirstClash, SoundAt};
ghost use Rattle.passes.specs.Texts.{fault_text, flaw_text};
ghost use Rattle.passes.specs.Verdicts.{WrongWith, FirstFlaw, TrueVerdict};

use crate::model::{Pass, Station};
use crate::nights::Night;
use crate::refusals::Refusal;
use std::error::Error;
use std::fmt;

// What is wrong with a pass of a plan.
#[derive(Clone, Copy, Debug, PartialEq)]
pub enum Fault {
    // The station has no such dish.
    NoSuchDish,
    // The dish may not follow the pass.
    MayNotFollow,
    // The dish has no time to turn between the pass and this other one.
    TooNear(usize),
}

impl fmt::Display for Fault {
    ghost output = { λ f. Some (fault_text f) };

    fn fmt<W: fmt::Write>(&self, f: &mut fmt::Formatter<W>) -> fmt::Result {
        match self {
            Fault::NoSuchDish => f.write_str("no such dish"),
            Fault::MayNotFollow => f.write_str("the dish may not follow it"),
            Fault::TooNear(other) => write!(f, "too near to pass {other}"),
        }
    }
}

impl Error for Fault {}

// The first pass for which a plan isn't good, and why.
#[derive(Clone, Copy, Debug, PartialEq)]
pub struct Flaw {
    pub pass: usize,
    pub fault: Fault,
}

impl fmt::Display for Flaw {
    ghost output = { λ f. Some (flaw_text f) };

    fn fmt<W: fmt::Write>(&self, f: &mut fmt::Formatter<W>) -> fmt::Result {
        write!(f, "pass {}: {}", self.pass, self.fault)
    }
}

impl Error for Flaw {}

// What is said of a plan: what it is worth if it is good, or what is wrong with it.
pub type Verdict = Result<u64, Flaw>;

impl Night {
    // Says whether a plan is good and what it is worth, or the first pass for which it isn't, and why.
    pub fn judge(&self, plan: &[u8]) -> Result<Verdict, Refusal>
        ensures refusal { result_err result ≡ room_refused (length (passes_of self.now)) (length plan.now) }
        ensures verdict { IfOk result (TrueVerdict self.now.station (passes_of self.now) plan.now) }
    {
        self.check_room(plan.len())?;
        let judged = Judged {
            station: self.station,
            passes: self.passes(),
            plan,
        };
        Ok(judged.verdict())
    }
}

// Reads a station and its passes and judges a plan for them.
pub fn judge(dishes: u64, turn: u64, numbers: &[u32], plan: &[u8]) -> Result<Verdict, Refusal>
    ensures refusal { result_err result ≡ refused_with_room dishes turn numbers.now (length plan.now) }
    ensures verdict { IfOk result (TrueVerdict (station_of dishes turn) (passes_in numbers.now) plan.now) }
{
    let night = Night::read(dishes, turn, numbers)?;
    night.judge(plan)
}

// A plan that has a number for each pass. Kept: passes and plan are two lists, since the plan is the caller's and is lent.
#[derive(Drop)]
struct Judged<'a> {
    station: Station,
    passes: &'a [Pass],
    plan: &'a [u8],
    ghost few: { length passes.now ≤ max_passes },
    ghost one_each: { length plan.now ≡ length passes.now },
}

impl Judged<'_> {
    // What is said of the plan.
    fn verdict(&self) -> Verdict
        ensures { TrueVerdict self.now.station self.now.passes.now self.now.plan.now result }
    {
        if let Some(flaw) = self.first_flaw() {
            return Err(flaw);
        }
        Ok(self.worth())
    }

    // The first pass with which something is wrong, and what.
    fn first_flaw(&self) -> Option<Flaw>
        ensures { MatchOption result ((i : ℕ) → i < length self.now.passes.now → SoundAt self.now.station self.now.passes.now self.now.plan.now i) (FirstFlaw self.now.station self.now.passes.now self.now.plan.now) }
    {
        (0..self.passes.len()).find_map(|i| self.fault_at(i).map(|fault| Flaw { pass: i, fault }))
    }

    // What is wrong with pass i, if anything.
    fn fault_at(&self, i: usize) -> Option<Fault>
        requires { i < length self.now.passes.now }
        ensures { MatchOption result (SoundAt self.now.station self.now.passes.now self.now.plan.now i) (WrongWith self.now.station self.now.passes.now self.now.plan.now i) }
    {
        let dish = self.plan[i].checked_sub(1)?;
        if dish >= self.station.dishes {
            return Some(Fault::NoSuchDish);
        }
        if !self.passes[i].may_be_followed_by(dish) {
            return Some(Fault::MayNotFollow);
        }
        self.first_clash(i).map(Fault::TooNear)
    }

    // The first other pass that is too near to pass i for the dish that follows both.
    fn first_clash(&self, i: usize) -> Option<usize>
        requires within { i < length self.now.passes.now }
        requires followed { 0 < says self.now.plan.now i }
        ensures { MatchOption result ((j : ℕ) → Clash self.now.station self.now.passes.now self.now.plan.now i j → ⊥) (FirstClash self.now.station self.now.passes.now self.now.plan.now i) }
    {
        let (pass, named) = (self.passes[i], self.plan[i]);
        (0..self.passes.len()).find(|&j| {
            self.plan[j] == named && j != i && !pass.one_after(self.passes[j], self.station.turn)
        })
    }

    // What the passes that the plan follows are worth together.
    fn worth(&self) -> u64
        ensures { result ≡ worth_of self.now.passes.now self.now.plan.now }
    {
        let mut worth = 0;
        for (pass, named) in self.passes.iter().zip(self.plan) {
            // Kept: which dish follows the pass isn't asked here, so `checked_sub` would be no plainer than a test for 0.
            if *named != 0 {
                worth += pass.worth as u64;
            }
        }
        worth
    }
}
