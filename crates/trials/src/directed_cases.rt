// Random cases with directions.
ghost use Rattle.std.specs.Prelude.{◌≡◌, ◌*◌, ◌≤◌, None, IfOk, length};
ghost use Rattle.passes.specs.Numbers.{passes_in};
ghost use Rattle.passes.specs.Refusals.{refused};
ghost use Rattle.slewing.specs.Refusals.{slewing_refused};
ghost use Rattle.trials.specs.declared.kinds.TheConstants.{TRIED_PASSES};
ghost use Rattle.trials.specs.Headings.{kind_of, HeadingsOf};
ghost use Rattle.trials.specs.Kinds.{ListOf};

use crate::cases::Case;
use crate::ways::Way;
use rand::{Rng, RngExt};
use std::alloc::{AllocError, Global};

// A case, how many seconds a step takes, and directions as numbers, two to a pass.
#[derive(Debug, Drop)]
pub struct DirectedCase {
    pub case: Case,
    pub step: u64,
    pub directions: Vec<u32>,
}

impl DirectedCase {
    // A random case with directions of a kind.
    pub fn random<R: Rng>(alloc: Global, way: Way, rng: &mut R) -> Result<DirectedCase, AllocError>
        ensures taken { IfOk result (λ made. let c = made.case in refused c.dishes c.turn c.numbers.items ≡ None) }
        ensures few { IfOk result (λ made. length made.case.numbers.items ≤ 4 * TRIED_PASSES) }
        ensures kind { IfOk result (λ made. let c = made.case in ListOf (kind_of way) c.dishes c.turn c.numbers.items) }
        ensures directed { IfOk result (λ made. slewing_refused (length (passes_in made.case.numbers.items)) made.step made.directions.items ≡ None) }
        ensures way { IfOk result (λ made. HeadingsOf way made.step made.directions.items) }
    {
        let case = Case::random(alloc, way.kind(), rng)?;
        let step = way.step(rng);
        let drawn = rng.random_range(0..64u32);
        let mut directions = Vec::new(alloc);
        for _ in 0..case.numbers.len() / 2 {
            directions.push(way.direction(rng, drawn))?;
        }
        Ok(DirectedCase {
            case,
            step,
            directions,
        })
    }
}
