// Texts that are damaged at random.
ghost use Rattle.std.specs.Prelude.{◌≡◌, ◌≢◌, ◌<◌, ◌≤◌, ◌^◌, ℕ, bit_xor, map, IfOk, vec_len};
ghost use Rattle.damage.specs.Damages.{Flipped, joined, Cut, Doubled, Swapped, DamagedOnce, DamagedTimes};
ghost use Rattle.text.specs.Words.{lines_of};

use rand::{Rng, RngExt};
use std::alloc::{AllocError, Global};

// The text with one to three damages.
pub fn damaged<R: Rng>(alloc: Global, text: &[u8], rng: &mut R) -> Result<Vec<u8>, AllocError>
    ensures { IfOk result (λ t. (n : ℕ) × (1 ≤ n) × (n ≤ 3) × DamagedTimes n text.now t.items) }
{
    let times = rng.random_range(1..=3u32);
    damaged_times(alloc, text, times, rng)
}

// The text with so many damages.
fn damaged_times<R: Rng>(
    alloc: Global,
    text: &[u8],
    times: u32,
    rng: &mut R,
) -> Result<Vec<u8>, AllocError>
    ensures { IfOk result (λ t. DamagedTimes times text.now t.items) }
{
    let mut damaged = Vec::from_slice(alloc, text)?;
    for _ in 0..times {
        damaged = damaged_once(alloc, &damaged, rng)?;
    }
    Ok(damaged)
}

// The text with one damage.
fn damaged_once<R: Rng>(alloc: Global, text: &[u8], rng: &mut R) -> Result<Vec<u8>, AllocError>
    ensures { IfOk result (λ t. DamagedOnce text.now t.items) }
{
    match rng.random_range(0..4u32) {
        0 => cut(alloc, text, rng),
        1 => doubled(alloc, text, rng),
        2 => swapped(alloc, text, rng),
        _ => flipped(alloc, text, rng),
    }
}

// The text with one bit of one byte flipped, if it has a byte.
fn flipped<R: Rng>(alloc: Global, text: &[u8], rng: &mut R) -> Result<Vec<u8>, AllocError>
    ensures { IfOk result (λ t. Flipped text.now t.items) }
{
    let mut text = Vec::from_slice(alloc, text)?;
    if !text.is_empty() {
        let at = rng.random_range(0..text.len());
        let bit = rng.random_range(0..8u32);
        text[at] = with_bit_flipped(text[at], bit);
    }
    Ok(text)
}

// A byte with one of its bits flipped.
#[tactic(auto, using(std::proofs::lemmas::Nat::one_shl))]
fn with_bit_flipped(byte: u8, bit: u32) -> u8
    requires { bit < 8 }
    ensures { result ≡ bit_xor byte (2 ^ bit) }
{
    byte ^ (1 << bit)
}

// The text without one of its lines.
fn cut<R: Rng>(alloc: Global, text: &[u8], rng: &mut R) -> Result<Vec<u8>, AllocError>
    ensures { IfOk result (λ t. Cut text.now t.items) }
{
    let mut lines = lines_of(alloc, text)?;
    let place = rng.random_range(0..lines.len());
    lines.remove(place);
    joined(alloc, &lines)
}

// The text with one of its lines written once more, before a line.
fn doubled<R: Rng>(alloc: Global, text: &[u8], rng: &mut R) -> Result<Vec<u8>, AllocError>
    ensures { IfOk result (λ t. Doubled text.now t.items) }
{
    let mut lines = lines_of(alloc, text)?;
    let place = rng.random_range(0..lines.len());
    let line = lines[rng.random_range(0..lines.len())];
    lines.insert(place, line)?;
    joined(alloc, &lines)
}

// The text with two of its lines in each other's place, if it has two.
fn swapped<R: Rng>(alloc: Global, text: &[u8], rng: &mut R) -> Result<Vec<u8>, AllocError>
    ensures { IfOk result (λ t. Swapped text.now t.items) }
{
    let mut lines = lines_of(alloc, text)?;
    let one = rng.random_range(0..lines.len());
    let other = another_place(one, lines.len(), rng);
    lines.swap(one, other);
    joined(alloc, &lines)
}

// A place other than this one, if there is one among so many.
fn another_place<R: Rng>(place: usize, places: usize, rng: &mut R) -> usize
    requires { place < places }
    ensures within { result < places }
    ensures another { 1 < places → result ≢ place }
{
    let drawn = rng.random_range(0..places);
    if drawn != place {
        drawn
    } else if place + 1 < places {
        place + 1
    } else {
        0
    }
}

// What stands before, between and behind the line feeds.
fn lines_of(alloc: Global, text: &[u8]) -> Result<Vec<&[u8]>, AllocError>
    ensures lines { IfOk result (λ lines. map (λ l. l.now) lines.items ≡ lines_of text.now) }
    ensures some_line { IfOk result (λ lines. 1 ≤ vec_len lines) }
{
    text.split(|byte| *byte == b'\n').collect(alloc)
}

// Lines, with a line feed between them.
fn joined(alloc: Global, lines: &[&[u8]]) -> Result<Vec<u8>, AllocError>
    ensures { IfOk result (λ t. t.items ≡ joined (map (λ l. l.now) lines.now)) }
{
    let mut text = Vec::new(alloc);
    let Some((first, others)) = lines.split_first() else {
        return Ok(text);
    };
    text.extend_from_slice(first)?;
    for line in others {
        text.push(b'\n')?;
        text.extend_from_slice(line)?;
    }
    Ok(text)
}
