// Damages the texts of the examples at random, and sees how each damaged text is answered.
#![tactic(auto)]

ghost use Rattle.std.specs.Prelude.{◌≡◌, IfOk, vec_len};
ghost use Rattle.damage.specs.declared.TheConstants.{TEXTS};

mod damaging;
mod outcomes;

use damaging::damaged;
use outcomes::{Outcome, Score, outcome_of};
use rand::SeedableRng;
use rand::rngs::SmallRng;
use std::{fs, io};

// With this seed each of the numbers 1, 2, 4 and 5 comes up.
const SEED: u64 = 2;

// How many damaged texts are made of each example.
const TEXTS: u32 = 2000;

const EXAMPLES: [&str; 6] = [
    "five.txt",
    "nine-against-two-eights.txt",
    "heard-by-two.txt",
    "busy.txt",
    "turned-away.txt",
    "directions.txt",
];

// The text of an example, from the folder in which the program is run, or from the folder `data` there.
fn read_example(rt: &HostRuntime, name: &str) -> io::Result<Vec<u8>> {
    if let Ok(text) = fs::read(rt, name) {
        return Ok(text);
    }
    fs::read(rt, format!(in rt.alloc(); "data/{name}")?)
}

// Damages a text so many times, each time anew, and says how each of these is answered.
fn damage_often(rt: &HostRuntime, text: &[u8], rng: &mut SmallRng) -> io::Result<Vec<Outcome>>
    ensures { IfOk result (λ outcomes. vec_len outcomes ≡ TEXTS) }
{
    let mut outcomes = Vec::new(rt.alloc());
    for _ in 0..TEXTS {
        let text = damaged(rt.alloc(), text, rng)?;
        outcomes.push(outcome_of(rt.alloc(), &text)?)?;
    }
    Ok(outcomes)
}

fn main(rt: HostRuntime) -> io::Result<()> {
    let mut rng = SmallRng::seed_from_u64(SEED);
    let mut all = Vec::new(rt.alloc());
    for name in EXAMPLES {
        let text = read_example(&rt, name)?;
        let outcome = outcome_of(rt.alloc(), &text)?;
        let outcomes = damage_often(&rt, &text, &mut rng)?;
        println!(rt; "{name}: {outcome}; damaged: {}", Score::of(&outcomes))?;
        all.extend_from_slice(&outcomes)?;
    }
    println!(rt; "all: {}", Score::of(&all))
}
