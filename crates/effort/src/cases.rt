// Random lists.
ghost use Rattle.std.specs.Prelude.{◌≡◌, ◌*◌, true, IfOk, is_none, take};
ghost use Rattle.passes.specs.Refusals.{refused};
ghost use Rattle.effort.specs.declared.cases.TheConstants.{DISHES};
ghost use Rattle.effort.specs.Shapes.{BeginsOf, ListOf};

use crate::shapes::Shape;
use rand::SeedableRng;
use rand::rngs::SmallRng;
use std::alloc::{AllocError, Global};

// For how many dishes lists are planned.
pub const DISHES: u64 = 4;

// A list of passes as numbers, four to a pass, and how long dishes take to turn: none that is turned away.
#[derive(Drop)]
pub struct Case {
    pub turn: u64,
    pub numbers: Vec<u32>,
    pub ghost taken: { is_none (refused DISHES turn numbers.items) ≡ true },
}

impl Case {
    // The random list of a shape that a seed stands for. Times are drawn apart from all else, so that lists of two shapes which differ only in
    // turning, worths or marks have the same times.
    pub fn random(alloc: Global, shape: Shape, seed: u64) -> Result<Case, AllocError>
        ensures { IfOk result (λ case. ListOf shape case.turn case.numbers.items) }
    {
        let mut times = SmallRng::seed_from_u64(seed);
        let mut others = SmallRng::seed_from_u64(!seed);
        let turn = shape.turn(&mut others);
        let begins = random_begins(alloc, shape, &mut times)?;
        let mut numbers = Vec::new(alloc);
        for (place, from) in begins.iter().enumerate() {
            let pass = shape.pass(&mut times, &mut others, place as u32, *from);
            numbers.extend_from_slice(&[pass.from, pass.to, pass.worth, pass.marks as u32])?;
        }
        Ok(Case { turn, numbers })
    }

    // Its first passes, as many as it has or so many.
    pub fn front(&self, alloc: Global, passes: u8) -> Result<Case, AllocError>
        ensures turn { IfOk result (λ case. case.turn ≡ self.now.turn) }
        ensures numbers { IfOk result (λ case. case.numbers.items ≡ take (4 * passes) self.now.numbers.items) }
    {
        let numbers = first_of(alloc, self.numbers.as_slice(), 4 * passes as usize)?;
        Ok(Case {
            turn: self.turn,
            numbers,
        })
    }
}

// The first numbers, as many as there are or so many.
fn first_of(alloc: Global, numbers: &[u32], count: usize) -> Result<Vec<u32>, AllocError>
    ensures { IfOk result (λ first. first.items ≡ take count numbers.now) }
{
    numbers.iter().copied().take(count).collect(alloc)
}

// The seconds in which the passes of a list begin, in their order.
fn random_begins(alloc: Global, shape: Shape, rng: &mut SmallRng) -> Result<Vec<u32>, AllocError>
    ensures { IfOk result (λ begins. BeginsOf shape begins.items) }
{
    let last = shape.span(rng);
    let mut begins = Vec::new(alloc);
    for place in 0..shape.count() {
        begins.push(shape.begin(rng, last, place))?;
    }
    begins.sort_unstable();
    Ok(begins)
}
