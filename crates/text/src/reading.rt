// The list that a text stands for.
ghost use Rattle.std.specs.Prelude.{◌≡◌, map, string_bytes, IfOk, MatchResult};
ghost use Rattle.text.specs.Lists.{list_of};
ghost use Rattle.text.specs.Reading.{numbers_of, directions_of, names_in, last_line, taken_with, taken, read_text};
ghost use Rattle.text.specs.Results.{Fails, GivesIfMemory};
ghost use Rattle.text.specs.Blame.{line_about, rule_about};
ghost use Rattle.text.specs.Taking.{PlainNight, DirectionsIn};
ghost use Rattle.text.specs.Views.{view_of};

use crate::draft::{Draft, StationLine};
use crate::faults::{LineFault, ReadError, TurnedAway, unreadable};
use crate::nights::NamedNight;
use passes::Night;
use slewing::{SlewRefusal, Slewing};
use std::alloc::{AllocError, Global};

impl NamedNight {
    // The list that a text stands for; or why it is turned away: the first line that can't be read, or else the first refusal that applies.
    #[tactic(auto, unfolding(crate::specs::Reading::read_text))]
    pub fn read(alloc: Global, text: &[u8]) -> Result<NamedNight, ReadError>
        ensures { GivesIfMemory list_of result (read_text text.now) }
    {
        let draft = Draft::read(alloc, text)?;
        draft.into_night(alloc, last_line(text))
    }
}

// The line in which a text ends.
fn last_line(text: &[u8]) -> usize
    ensures { result ≡ last_line text.now }
{
    text.iter().filter(|byte| **byte == b'\n').count()
}

impl Draft {
    // Takes what was read as a night with names, or turns it away. Without a station the line in which the text ends is at fault.
    #[tactic(auto, unfolding(crate::specs::Reading::taken))]
    fn into_night(self, alloc: Global, last: usize) -> Result<NamedNight, ReadError>
        ensures { GivesIfMemory list_of result (taken last (view_of self)) }
    {
        let Some(station) = self.station else {
            return Err(unreadable(last, LineFault::NoStation));
        };
        self.into_night_with(alloc, station)
    }

    // Takes what was read behind this station as a night with names, or turns it away.
    fn into_night_with(self, alloc: Global, station: StationLine) -> Result<NamedNight, ReadError>
        ensures { GivesIfMemory list_of result (taken_with station (view_of self).entries) }
    {
        let night = self.night(alloc, station)?;
        let slewing = self.slewing(alloc, station, &night)?;
        // Each name was read as one, and there is one for each pass, and directions for each or for none.
        Ok(NamedNight::with_directions(night, slewing, self.into_names(alloc)?).unwrap())
    }

    // The night that this station and the numbers of the passes stand for, if it isn't turned away.
    fn night(&self, alloc: Global, station: StationLine) -> Result<Night, ReadError>
        ensures { MatchResult result (λ n. PlainNight station (view_of self.now).entries n) (λ e. Fails e (taken_with station (view_of self.now).entries)) }
    {
        let numbers = self.numbers(alloc)?;
        match Night::read(station.dishes as u64, station.turn as u64, &numbers) {
            Ok(night) => Ok(night),
            Err(refusal) => Err(self.turned_away(station, SlewRefusal::Plain(refusal))),
        }
    }

    // The directions of the passes of this night, where the station has a step, if they aren't turned away.
    fn slewing(
        &self,
        alloc: Global,
        station: StationLine,
        night: &Night,
    ) -> Result<Option<Slewing>, ReadError>
        requires { PlainNight station (view_of self.now).entries night.now }
        ensures { MatchResult result (λ v. DirectionsIn station (view_of self.now).entries v) (λ e. Fails e (taken_with station (view_of self.now).entries)) }
    {
        let Some(step) = station.step else {
            return Ok(None);
        };
        let directions = self.directions(alloc)?;
        match Slewing::read(night, step as u64, &directions) {
            Ok(slewing) => Ok(Some(slewing)),
            Err(refusal) => Err(self.turned_away(station, refusal)),
        }
    }

    // It is turned away with this refusal.
    fn turned_away(&self, station: StationLine, refusal: SlewRefusal) -> ReadError
        ensures { result ≡ ReadError.TurnedAway (TurnedAway.Refused refusal (line_about station (view_of self.now).entries refusal) (rule_about (view_of self.now).entries refusal)) }
    {
        ReadError::TurnedAway(TurnedAway::Refused {
            refusal,
            line: self.line_about(station, refusal),
            rule: self.rule_about(refusal),
        })
    }

    // The numbers of the passes, four to a pass.
    fn numbers(&self, alloc: Global) -> Result<Vec<u32>, AllocError>
        ensures { IfOk result (λ numbers. numbers.items ≡ numbers_of (view_of self.now).entries) }
    {
        let mut numbers = Vec::new(alloc);
        for entry in &self.entries {
            let pass = entry.numbers;
            numbers.extend_from_slice(&[pass.from, pass.to, pass.worth, pass.marks])?;
        }
        Ok(numbers)
    }

    // The directions of the passes, two numbers to each pass that has some.
    fn directions(&self, alloc: Global) -> Result<Vec<u32>, AllocError>
        ensures { IfOk result (λ numbers. numbers.items ≡ directions_of (view_of self.now).entries) }
    {
        let mut numbers = Vec::new(alloc);
        for entry in &self.entries {
            if let Some(ends) = entry.directions {
                numbers.extend_from_slice(&[ends.begin, ends.end])?;
            }
        }
        Ok(numbers)
    }

    // The names of the passes.
    fn into_names(self, alloc: Global) -> Result<Vec<String>, AllocError>
        ensures { IfOk result (λ names. map string_bytes names.items ≡ names_in (view_of self).entries) }
    {
        self.entries
            .into_iter()
            .map(|entry| entry.name)
            .collect(alloc)
    }
}
