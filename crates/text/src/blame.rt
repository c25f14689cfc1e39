// The line of a text and the rule that a refusal is about.
ghost use Rattle.std.specs.Prelude.{◌≡◌};
ghost use Rattle.text.specs.Blame.{line_of, line_about, rule_of_pass, numbers_at, rule_about};
ghost use Rattle.text.specs.Views.{view_of};

use crate::draft::{Draft, StationLine};
use crate::faults::ListRule;
use crate::line::Numbers;
use passes::{MAX_MARKS, MAX_PASSES, MAX_SECOND, MAX_WORTH, Refusal};
use slewing::SlewRefusal;

// What is said of a pass that isn't there.
const NO_NUMBERS: Numbers = Numbers {
    from: 0,
    to: 0,
    worth: 0,
    marks: 0,
};

impl Draft {
    // The line that a refusal is about: that of the station, or of the pass.
    #[tactic(auto, unfolding(crate::specs::Blame::line_about))]
    pub(crate) fn line_about(&self, station: StationLine, refusal: SlewRefusal) -> usize
        ensures { result ≡ line_about station (view_of self.now).entries refusal }
    {
        match refusal {
            SlewRefusal::Plain(Refusal::BadDishes | Refusal::BadTurning) => station.line,
            SlewRefusal::Plain(Refusal::BadPass(pass)) => self.line_of(pass),
            SlewRefusal::Plain(Refusal::BadRoom(_)) => 0,
            SlewRefusal::BadStep => station.line,
            SlewRefusal::BadDirections(pass) => self.line_of(pass),
        }
    }

    // The line of a pass, or the first where there is no such pass.
    fn line_of(&self, pass: usize) -> usize
        ensures { result ≡ line_of (view_of self.now).entries pass }
    {
        if pass < self.entries.len() {
            self.entries[pass].line
        } else {
            0
        }
    }

    // The rule that a refusal is about.
    #[tactic(auto, using(std::proofs::lemmas::Bool::Decides::nat_tests), unfolding(crate::specs::Blame::rule_about))]
    pub(crate) fn rule_about(&self, refusal: SlewRefusal) -> ListRule
        ensures { result ≡ rule_about (view_of self.now).entries refusal }
    {
        match refusal {
            SlewRefusal::Plain(Refusal::BadDishes) => ListRule::Dishes,
            SlewRefusal::Plain(Refusal::BadTurning) => ListRule::Turning,
            SlewRefusal::Plain(Refusal::BadPass(pass)) if pass < MAX_PASSES => {
                self.numbers_at(pass).rule()
            }
            SlewRefusal::Plain(Refusal::BadPass(_) | Refusal::BadRoom(_)) => ListRule::Count,
            SlewRefusal::BadStep => ListRule::Step,
            SlewRefusal::BadDirections(_) => ListRule::Directions,
        }
    }

    // The numbers of a pass, or none where there is no such pass.
    fn numbers_at(&self, pass: usize) -> Numbers
        ensures { result ≡ numbers_at (view_of self.now).entries pass }
    {
        if pass < self.entries.len() {
            self.entries[pass].numbers
        } else {
            NO_NUMBERS
        }
    }
}

impl Numbers {
    // The rule that a pass at fault breaks: of several the first.
    #[tactic(auto, using(std::proofs::lemmas::Bool::Decides::nat_tests), unfolding(crate::specs::Blame::rule_of_pass))]
    fn rule(self) -> ListRule
        ensures { result ≡ rule_of_pass self }
    {
        if self.to <= self.from {
            ListRule::Span
        } else if self.to > MAX_SECOND {
            ListRule::End
        } else if self.worth > MAX_WORTH {
            ListRule::Worth
        } else if self.marks > MAX_MARKS {
            ListRule::Marks
        } else {
            ListRule::Order
        }
    }
}
