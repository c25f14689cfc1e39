// Random directions, and planning with them.
ghost use Rattle.std.specs.Prelude.{◌≡◌, ◌*◌, ◌/◌, ◌≤◌, IfOk, length, vec_len};
ghost use Rattle.effort.specs.Crossings.{CrossingsOf, BestWithDirections};

use crate::cases::{Case, DISHES};
use planner::Counted;
use rand::rngs::SmallRng;
use rand::{RngExt, SeedableRng};
use slewing::try_plan_slewing;
use std::alloc::{AllocError, Global};

// Directions for so many passes, two to a pass: each begins anywhere and ends 20 to 43 steps further round, as a satellite crosses the sky.
fn random_crossings(alloc: Global, passes: usize, seed: u64) -> Result<Vec<u32>, AllocError>
    ensures { IfOk result (λ directions. CrossingsOf passes directions.items) }
{
    let mut rng = SmallRng::seed_from_u64(seed);
    let mut directions = Vec::new(alloc);
    for _ in 0..passes {
        let begin = rng.random_range(0..64u32);
        let end = (begin + rng.random_range(20..=43u32)) % 64;
        directions.extend_from_slice(&[begin, end])?;
    }
    Ok(directions)
}

// What the planner answers for a list with directions, where a dish takes so many seconds for a step.
fn plan_with(
    alloc: Global,
    case: &Case,
    step: u64,
    directions: &[u32],
) -> Result<Counted, AllocError>
    requires quick { step ≤ 1000 }
    requires crossings { CrossingsOf (length case.now.numbers.items / 4) directions.now }
    ensures { IfOk result (λ counted. BestWithDirections case.now.turn step directions.now case.now.numbers.items counted.worth) }
{
    let numbers = case.numbers.as_slice();
    let mut room = vec![in alloc; 0; numbers.len() / 4]?;
    let room = room.as_mut_slice();
    Ok(try_plan_slewing(DISHES, case.turn, numbers, step, directions, room).unwrap())
}

// How many states the planner visits for each list, with directions drawn at random.
pub fn visits_with(alloc: Global, cases: &[Case], step: u64) -> Result<Vec<u64>, AllocError>
    requires quick { step ≤ 1000 }
    ensures { IfOk result (λ visits. vec_len visits ≡ length cases.now) }
{
    let mut visits = Vec::new(alloc);
    for (number, case) in cases.iter().enumerate() {
        let directions = random_crossings(alloc, case.numbers.len() / 4, number as u64)?;
        visits.push(plan_with(alloc, case, step, directions.as_slice())?.visited)?;
    }
    Ok(visits)
}
