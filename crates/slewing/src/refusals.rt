ghost use Rattle.std.specs.Prelude.{◌≡◌};
ghost use Rattle.slewing.specs.declared.refusals.SlewRefusal.TheVariants.{Plain};
ghost use Rattle.slewing.specs.Refusals.{number_of, place_of};

use passes::Refusal;

// Why an input with directions is turned away.
#[derive(Clone, Copy, Debug, PartialEq)]
pub enum SlewRefusal {
    // It would be turned away without directions too.
    Plain(Refusal),
    // A step takes more than 1,000,000 seconds.
    BadStep,
    // The first pass that doesn't have two directions, 0 to 63, or has some and isn't there.
    BadDirections(usize),
}

impl SlewRefusal {
    // The number by which users know it.
    pub fn number(self) -> u64
        ensures { result ≡ number_of self }
    {
        match self {
            SlewRefusal::Plain(refusal) => refusal.number(),
            SlewRefusal::BadStep | SlewRefusal::BadDirections(_) => 5,
        }
    }

    // Where the fault is, counted from 0.
    pub fn place(self) -> usize
        ensures { result ≡ place_of self }
    {
        match self {
            SlewRefusal::Plain(refusal) => refusal.place(),
            SlewRefusal::BadStep => 0,
            SlewRefusal::BadDirections(pass) => pass,
        }
    }
}

impl From<Refusal> for SlewRefusal {
    ghost from_gives = { λ why refusal. refusal ≡ Plain why };

    fn from(refusal: Refusal) -> SlewRefusal {
        SlewRefusal::Plain(refusal)
    }
}
