// What comes of asking what passes need.
ghost use Rattle.std.specs.Prelude.{◌≡◌, ◌<◌, length, count_by, Decides, IfOk};
ghost use Rattle.passes.specs.Nights.{station_of};
ghost use Rattle.passes.specs.Numbers.{passes_in};
ghost use Rattle.sensitivity.specs.Answers.{EachTold};
ghost use Rattle.trials.specs.Needs.{CanBeTried, NeedsAsTried, NeverAsTried, TrueAsked, AskedEach, says_never, says_mismatch};

use crate::cases::Case;
use crate::followed::is_followed_at;
use passes::MAX_WORTH;
use sensitivity::{NEVER, try_why};
use std::alloc::{AllocError, Global};
use std::fmt;

// What came of asking what a pass needs, and of trying all plans.
#[derive(Clone, Copy, PartialEq)]
pub enum Asked {
    // It needs the worth that was told.
    Worth,
    // No worth would do, as was told.
    Never,
    // All plans say otherwise than was told.
    Mismatch,
}

// Asks what each pass of a case needs, and compares each answer with all plans.
pub fn ask_each(alloc: Global, case: &Case) -> Result<Vec<Asked>, AllocError>
    requires { CanBeTried case.now.dishes case.now.turn case.now.numbers.items }
    ensures { IfOk result (λ asked. AskedEach case.now.dishes case.now.turn case.now.numbers.items asked.items) }
{
    let count = case.numbers.len() / 4;
    let mut room = vec![in alloc; 0; count]?;
    // no pass needs so much, so that a number that isn't written is found out
    let mut needed = vec![in alloc; NEVER - 1; count]?;
    ask_in(alloc, case, room.as_mut_slice(), needed.as_mut_slice())
}

// The same with two rooms. A best plan is left in the first, and what is told of each pass in the second.
fn ask_in(
    alloc: Global,
    case: &Case,
    room: &mut [u8],
    needed: &mut [u32],
) -> Result<Vec<Asked>, AllocError>
    requires tried { CanBeTried case.now.dishes case.now.turn case.now.numbers.items }
    requires one_each { length room.old ≡ length (passes_in case.now.numbers.items) }
    requires second_too { length needed.old ≡ length (passes_in case.now.numbers.items) }
    ensures { IfOk result (λ asked. AskedEach case.now.dishes case.now.turn case.now.numbers.items asked.items) }
{
    let numbers = case.numbers.as_slice();
    try_why(case.dishes, case.turn, numbers, room, needed).unwrap();
    compare_each(alloc, case, needed)
}

// Compares what is told of each pass with all plans.
fn compare_each(alloc: Global, case: &Case, needed: &[u32]) -> Result<Vec<Asked>, AllocError>
    requires tried { CanBeTried case.now.dishes case.now.turn case.now.numbers.items }
    requires told { EachTold (station_of case.now.dishes case.now.turn) (passes_in case.now.numbers.items) needed.now }
    ensures { IfOk result (λ asked. AskedEach case.now.dishes case.now.turn case.now.numbers.items asked.items) }
{
    let mut asked = Vec::new(alloc);
    for (place, told) in needed.iter().enumerate() {
        asked.push(compare(alloc, case, place, *told)?)?;
    }
    Ok(asked)
}

// Compares what is told of a pass with all plans.
fn compare(alloc: Global, case: &Case, place: usize, told: u32) -> Result<Asked, AllocError>
    requires tried { CanBeTried case.now.dishes case.now.turn case.now.numbers.items }
    requires within { place < length (passes_in case.now.numbers.items) }
    ensures { IfOk result (TrueAsked (station_of case.now.dishes case.now.turn) (passes_in case.now.numbers.items) place told) }
{
    if told == NEVER {
        if never_as_tried(alloc, case, place)? {
            return Ok(Asked::Never);
        }
    } else if needs_as_tried(alloc, case, place, told)? {
        return Ok(Asked::Worth);
    }
    Ok(Asked::Mismatch)
}

// Whether a pass needs so much, as far as it is tried: with this worth, with one more, and with one less.
fn needs_as_tried(alloc: Global, case: &Case, place: usize, worth: u32) -> Result<bool, AllocError>
    requires tried { CanBeTried case.now.dishes case.now.turn case.now.numbers.items }
    requires within { place < length (passes_in case.now.numbers.items) }
    ensures { IfOk result (λ yes. Decides yes (NeedsAsTried (station_of case.now.dishes case.now.turn) (passes_in case.now.numbers.items) place worth)) }
{
    if worth >= MAX_WORTH {
        return Ok(false);
    }
    let with_it = is_followed_at(alloc, case, place, worth)?;
    let with_more = is_followed_at(alloc, case, place, worth + 1)?;
    let with_less = worth > 0 && is_followed_at(alloc, case, place, worth - 1)?;
    Ok(with_it && with_more && !with_less)
}

// Whether no worth would do for a pass, as far as it is tried: with the least worth, and with the greatest.
fn never_as_tried(alloc: Global, case: &Case, place: usize) -> Result<bool, AllocError>
    requires tried { CanBeTried case.now.dishes case.now.turn case.now.numbers.items }
    requires within { place < length (passes_in case.now.numbers.items) }
    ensures { IfOk result (λ yes. Decides yes (NeverAsTried (station_of case.now.dishes case.now.turn) (passes_in case.now.numbers.items) place)) }
{
    let with_nothing = is_followed_at(alloc, case, place, 0)?;
    let with_most = is_followed_at(alloc, case, place, MAX_WORTH)?;
    Ok(!with_nothing && !with_most)
}

// How many lists there were, of how many passes it was asked what they need, and what came of it.
#[derive(Clone, Copy)]
pub struct AskedScore {
    lists: u32,
    passes: usize,
    never: usize,
    mismatches: usize,
}

impl AskedScore {
    // What came of asking about the passes of so many lists.
    pub fn of(lists: u32, asked: &[Asked]) -> AskedScore
        ensures lists { result.lists ≡ lists }
        ensures passes { result.passes ≡ length asked.now }
        ensures never { result.never ≡ count_by says_never asked.now }
        ensures mismatches { result.mismatches ≡ count_by says_mismatch asked.now }
    {
        AskedScore {
            lists,
            passes: asked.len(),
            never: asked
                .iter()
                .filter(|asked| matches!(asked, Asked::Never))
                .count(),
            mismatches: asked
                .iter()
                .filter(|asked| matches!(asked, Asked::Mismatch))
                .count(),
        }
    }
}

impl fmt::Display for AskedScore {
    fn fmt<W: fmt::Write>(&self, f: &mut fmt::Formatter<W>) -> fmt::Result {
        write!(
            f,
            "{} lists, {} passes asked about, {} of them never, {} mismatches",
            self.lists, self.passes, self.never, self.mismatches
        )
    }
}
