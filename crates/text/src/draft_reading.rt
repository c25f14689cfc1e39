// A list as far as it is read, line by line.
ghost use Rattle.std.specs.Prelude.{◌≡◌, OnErr};
ghost use Rattle.text.specs.Drafts.{at_line, misfit, with_said, with_line, draft_of};
ghost use Rattle.text.specs.Lines.{Said};
ghost use Rattle.text.specs.Results.{GivesIfMemory, LeavesIfMemory};
ghost use Rattle.text.specs.Views.{view_of, said_of};

use crate::draft::{Draft, Entry, StationLine};
use crate::faults::{LineFault, ReadError, unreadable};
use crate::line::{Ends, Line, NamedPass};
use crate::line_reading::line_of;
use crate::words::{lines_of, words_of};
use std::alloc::{AllocError, Global};

// How many bytes a line has at most.
const LONGEST_LINE: usize = 1000;

impl Draft {
    // Reads all lines of a text, or says which is the first that can't be read, and why.
    pub fn read(alloc: Global, text: &[u8]) -> Result<Draft, ReadError>
        ensures { GivesIfMemory view_of result (draft_of text.now) }
    {
        let mut draft = Draft {
            station: None,
            entries: Vec::new(alloc),
        };
        for (at, line) in lines_of(alloc, text)?.iter().enumerate() {
            draft.read_line(alloc, at, line)?;
        }
        Ok(draft)
    }

    // Takes in one more line.
    #[tactic(auto, unfolding(crate::specs::Drafts::with_line, crate::specs::Drafts::at_line))]
    fn read_line(&mut self, alloc: Global, at: usize, line: &[u8]) -> Result<(), ReadError>
        ensures read { LeavesIfMemory result (at_line at (with_line at (view_of self.old) line.now)) (view_of self.new) }
        ensures kept { OnErr result (view_of self.new ≡ view_of self.old) }
    {
        if line.len() > LONGEST_LINE {
            return Err(unreadable(at, LineFault::TooLong));
        }
        let words = words_of(alloc, line)?;
        match line_of(&words) {
            Ok(said) => self.take(alloc, at, said),
            Err(fault) => Err(unreadable(at, fault)),
        }
    }

    // Takes in what one more line says.
    #[tactic(auto, unfolding(crate::specs::Drafts::with_said, crate::specs::Drafts::at_line))]
    fn take(&mut self, alloc: Global, at: usize, said: Line) -> Result<(), ReadError>
        ensures read { LeavesIfMemory result (at_line at (with_said at (view_of self.old) (said_of said.entry))) (view_of self.new) }
        ensures kept { OnErr result (view_of self.new ≡ view_of self.old) }
    {
        match said {
            Line::Nothing => Ok(()),
            Line::Station { dishes, turn, step } => self.take_station(dishes, turn, step, at),
            Line::Pass(pass) => self.take_pass(alloc, pass, at),
        }
    }

    // A station is said once, and before all passes.
    #[tactic(auto, unfolding(crate::specs::Drafts::with_said, crate::specs::Drafts::at_line))]
    fn take_station(
        &mut self,
        dishes: u32,
        turn: u32,
        step: Option<u32>,
        at: usize,
    ) -> Result<(), ReadError>
        ensures read { LeavesIfMemory result (at_line at (with_said at (view_of self.old) (Said.station dishes turn step))) (view_of self.new) }
        ensures kept { OnErr result (view_of self.new ≡ view_of self.old) }
    {
        if self.station.is_some() {
            return Err(unreadable(at, LineFault::SecondStation));
        }
        self.station = Some(StationLine {
            dishes,
            turn,
            step,
            line: at,
        });
        Ok(())
    }

    // A pass comes after the station, and fits it.
    #[tactic(auto, unfolding(crate::specs::Drafts::with_said, crate::specs::Drafts::at_line))]
    fn take_pass(&mut self, alloc: Global, pass: NamedPass, at: usize) -> Result<(), ReadError>
        ensures read { LeavesIfMemory result (at_line at (with_said at (view_of self.old) (Said.pass (record { name = pass.entry.name.now; numbers = pass.entry.numbers; directions = pass.entry.directions })))) (view_of self.new) }
        ensures kept { OnErr result (view_of self.new ≡ view_of self.old) }
    {
        if let Some(fault) = misfit(self.station, pass.directions) {
            return Err(unreadable(at, fault));
        }
        let name = String::from_str(alloc, pass.name)?;
        self.entries.push(Entry {
            name,
            numbers: pass.numbers,
            directions: pass.directions,
            line: at,
        })?;
        Ok(())
    }
}

// What is wrong with a pass with these directions behind this station.
#[tactic(auto, unfolding(crate::specs::Drafts::misfit))]
fn misfit(station: Option<StationLine>, directions: Option<Ends>) -> Option<LineFault>
    ensures { result ≡ misfit station directions }
{
    let Some(station) = station else {
        return Some(LineFault::NoStation);
    };
    match (station.step, directions) {
        (Some(_), None) => Some(LineFault::NoDirections),
        (None, Some(_)) => Some(LineFault::NoStep),
        _ => None,
    }
}
