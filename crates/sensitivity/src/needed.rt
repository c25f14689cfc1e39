ghost use Rattle.std.specs.Prelude.{◌≡◌};
ghost use Rattle.sensitivity.specs.Answers.{needed_number};

// By this number it is said that no worth would do.
pub const NEVER: u32 = u32::MAX;

// What a pass would have to be worth at least for a best plan to follow it.
#[derive(Clone, Copy, Debug, PartialEq)]
pub enum Needed {
    Worth(u32),
    // No worth would do: no dish that is there may follow it.
    Never,
}

impl Needed {
    // The number by which it is said where there are only numbers, as to a caller in C.
    pub fn number(self) -> u32
        ensures { result ≡ needed_number self }
    {
        match self {
            Needed::Worth(worth) => worth,
            Needed::Never => NEVER,
        }
    }
}
