ghost use Rattle.std.specs.Prelude.{◌≡◌};
ghost use Rattle.sensitivity.specs.PassRules.{ruled_pass, refuses, pass_automaton};

use engine::Rule;

// The rule on one pass, by its place: that it is followed, or that it isn't. Where there is no such pass it refuses nothing.
#[derive(Clone, Copy, Drop)]
pub enum PassRule {
    Forced(usize),
    Forbidden(usize),
}

impl PassRule {
    // The pass that it is about.
    pub(crate) fn pass(self) -> usize
        ensures { result ≡ ruled_pass self }
    {
        match self {
            PassRule::Forced(pass) | PassRule::Forbidden(pass) => pass,
        }
    }

    // Whether it refuses that a plan says this of a pass.
    fn refuses(self, pass: usize, says: u8) -> bool
        ensures { result ≡ refuses self pass says }
    {
        match self {
            PassRule::Forced(place) => pass == place && says == 0,
            PassRule::Forbidden(place) => pass == place && says > 0,
        }
    }
}

impl Rule for PassRule {
    type State = ();

    ghost automaton = { pass_automaton };

    fn start(&self) {}

    fn step(&self, stage: usize, choice: u8, _state: ()) -> Option<()> {
        (!self.refuses(stage, choice)).then_some(())
    }

    // It remembers nothing, so any state is as good as another.
    fn grants(&self, _stage: usize, _seen: (), _state: ()) -> bool {
        true
    }
}
