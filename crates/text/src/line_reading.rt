// What a line says.
ghost use Rattle.std.specs.Prelude.{◌≡◌, ◌≤◌, map, length, bytes_eq};
ghost use Rattle.text.specs.Lines.{marks_from, step_at, before_directions, marks_at, ends_at, directions_at, station_at, pass_at, said_by};
ghost use Rattle.text.specs.Results.{Gives};
ghost use Rattle.text.specs.Views.{said_of};

use crate::faults::LineFault;
use crate::line::{Ends, Line, NamedPass, Numbers};
use crate::words::{name_of, number_of};

// How many marks of dishes there are: each dish has a bit of 32.
const MARK_BITS: u32 = 32;

// What the words of a line say.
#[tactic(auto, unfolding(crate::specs::Lines::said_by))]
pub(crate) fn line_of<'a>(words: &[&'a [u8]]) -> Result<Line<'a>, LineFault>
    ensures { Gives said_of result (said_by (map (λ w. w.now) words.now)) }
{
    let Some((first, others)) = words.split_first() else {
        return Ok(Line::Nothing);
    };
    if first.starts_with(b"#") {
        Ok(Line::Nothing)
    } else if is(first, "dishes") {
        station_of(others)
    } else if is(first, "pass") {
        pass_of(others)
    } else {
        Err(LineFault::UnknownWord)
    }
}

// The station that these words are, behind `dishes`.
#[tactic(auto, unfolding(crate::specs::Lines::station_at))]
fn station_of<'a>(words: &[&'a [u8]]) -> Result<Line<'a>, LineFault>
    ensures { Gives said_of result (station_at (map (λ w. w.now) words.now)) }
{
    if words.len() < 3 || !is(words[1], "turn") {
        return Err(LineFault::NotStation);
    }
    let step = step_of(&words[3..])?;
    let dishes = number_of(words[0])?;
    let turn = number_of(words[2])?;
    Ok(Line::Station { dishes, turn, step })
}

// The seconds for a step that these words are, behind those for turning.
#[tactic(auto, unfolding(crate::specs::Lines::step_at))]
fn step_of(words: &[&[u8]]) -> Result<Option<u32>, LineFault>
    ensures { result ≡ step_at (map (λ w. w.now) words.now) }
{
    if words.is_empty() {
        return Ok(None);
    }
    if words.len() != 2 || !is(words[0], "step") {
        return Err(LineFault::NotStation);
    }
    Ok(Some(number_of(words[1])?))
}

// The pass that these words are, behind `pass`.
#[tactic(auto, unfolding(crate::specs::Lines::pass_at))]
fn pass_of<'a>(words: &[&'a [u8]]) -> Result<Line<'a>, LineFault>
    ensures { Gives said_of result (pass_at (map (λ w. w.now) words.now)) }
{
    if words.len() < 6 || !is(words[3], "worth") || !is(words[5], "dishes") {
        return Err(LineFault::NotPass);
    }
    let name = name_of(words[0])?;
    let numbers = Numbers {
        from: number_of(words[1])?,
        to: number_of(words[2])?,
        worth: number_of(words[4])?,
        marks: marks_of(&words[6..])?,
    };
    let directions = directions_of(&words[6..])?;
    Ok(Line::Pass(NamedPass {
        name,
        numbers,
        directions,
    }))
}

// The dishes that the words behind `dishes` name, as marks.
fn marks_of(words: &[&[u8]]) -> Result<u32, LineFault>
    ensures { result ≡ marks_at (map (λ w. w.now) words.now) }
{
    marks_from(&words[..before_directions(words)])
}

// The directions that they say.
fn directions_of(words: &[&[u8]]) -> Result<Option<Ends>, LineFault>
    ensures { result ≡ directions_at (map (λ w. w.now) words.now) }
{
    ends_of(&words[before_directions(words)..])
}

// How many words stand in front of `directions`: all, where it isn't among them.
fn before_directions(words: &[&[u8]]) -> usize
    ensures place { result ≡ before_directions (map (λ w. w.now) words.now) }
    ensures within { result ≤ length words.now }
{
    words
        .iter()
        .position(|word| is(word, "directions"))
        .unwrap_or(words.len())
}

// The directions that words are from `directions` on: none where there are no words.
#[tactic(auto, unfolding(crate::specs::Lines::ends_at))]
fn ends_of(words: &[&[u8]]) -> Result<Option<Ends>, LineFault>
    ensures { result ≡ ends_at (map (λ w. w.now) words.now) }
{
    if words.is_empty() {
        return Ok(None);
    }
    if words.len() != 3 {
        return Err(LineFault::NotPass);
    }
    let begin = number_of(words[1])?;
    let end = number_of(words[2])?;
    Ok(Some(Ends { begin, end }))
}

// Whether a word is this one.
fn is(word: &[u8], text: &str) -> bool
    ensures { result ≡ bytes_eq word.now text.now }
{
    word == text.as_bytes()
}

// The dishes that words name, as marks: bit d for dish d.
fn marks_from(words: &[&[u8]]) -> Result<u32, LineFault>
    ensures { result ≡ marks_from 0 (map (λ w. w.now) words.now) }
{
    let mut marks = 0u32;
    for word in words {
        let dish = number_of(word)?;
        if dish >= MARK_BITS {
            return Err(LineFault::BadDish);
        }
        if (marks >> dish) & 1 == 1 {
            return Err(LineFault::DishTwice);
        }
        marks |= 1 << dish;
    }
    Ok(marks)
}
