// What the lines of a text have said so far.
ghost use Rattle.std.specs.Prelude.{◌≡◌, true, string_bytes};
ghost use Rattle.text.specs.Names.{is_name};

use crate::line::{Ends, Numbers};

// The station, and the line that says it, counted from 0.
#[derive(Clone, Copy)]
pub(crate) struct StationLine {
    pub dishes: u32,
    pub turn: u32,
    pub step: Option<u32>,
    pub line: usize,
}

// A pass, and the line that says it, counted from 0.
#[derive(Drop)]
pub(crate) struct Entry {
    pub name: String,
    pub numbers: Numbers,
    pub directions: Option<Ends>,
    pub line: usize,
    ghost named: { is_name (string_bytes name) ≡ true },
}

// What the lines so far say.
#[derive(Drop)]
pub(crate) struct Draft {
    pub station: Option<StationLine>,
    pub entries: Vec<Entry>,
}
