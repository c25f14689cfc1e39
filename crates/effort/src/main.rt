// Counts the states that the search visits for lists of many shapes, with directions for some, and compares it with the plain search on their fronts.
#![tactic(auto)]

ghost use Rattle.std.specs.Prelude.{◌≡◌, ◌<◌, ◌≤◌, IfOk, All, length, vec_len};
ghost use Rattle.effort.specs.declared.TheConstants.{LISTS};
ghost use Rattle.effort.specs.Comparisons.{CaseOf, ComparedIn};

mod cases;
mod comparing;
mod directions;
mod searching;
mod shapes;
mod spread;
mod times;

use cases::Case;
use comparing::{Comparison, Score, compare};
use directions::visits_with;
use searching::plan_by_planner;
use shapes::Shape;
use spread::Spread;
use std::alloc::{AllocError, Global};
use std::{env, io};
use times::print_times;

// The seed of the first list of each shape.
const SEED: u64 = 1;

// How many lists of each shape there are.
const LISTS: u64 = 100;

const SHAPES: [Shape; 15] = [
    Shape::Ordinary,
    Shape::Dense,
    Shape::Overlapping,
    Shape::LongAndShort,
    Shape::Staggered,
    Shape::AllMarks,
    Shape::HalfMarks,
    Shape::PairMarks,
    Shape::FewMarks,
    Shape::EqualWorths,
    Shape::SmallWorths,
    Shape::LargeWorths,
    Shape::WorthsByLength,
    Shape::NoTurning,
    Shape::HugeTurning,
];

// The shapes that are planned with directions too, and how many seconds a step takes. Dense lists at 8 seconds would take several seconds of a run.
const DIRECTED: [(Shape, u64); 3] = [
    (Shape::Ordinary, 2),
    (Shape::Ordinary, 8),
    (Shape::Dense, 2),
];

// The lists of a shape.
fn lists_of(alloc: Global, shape: Shape) -> Result<Vec<Case>, AllocError>
    ensures count { IfOk result (λ cases. vec_len cases ≡ LISTS) }
    ensures shape { IfOk result (λ cases. All (CaseOf shape) cases.items) }
{
    let mut cases = Vec::new(alloc);
    for number in 0..LISTS {
        cases.push(Case::random(alloc, shape, SEED + number)?)?;
    }
    Ok(cases)
}

// How many states the planner visits for each list.
fn visits(alloc: Global, cases: &[Case]) -> Result<Vec<u64>, AllocError>
    ensures { IfOk result (λ visits. vec_len visits ≡ length cases.now) }
{
    let mut visits = Vec::new(alloc);
    for case in cases {
        visits.push(plan_by_planner(alloc, case)?.visited)?;
    }
    Ok(visits)
}

// Compares the planner with the plain search on the front of each list. That each comparison is of one of the lists is promised, and not of which.
fn compare_all(alloc: Global, cases: &[Case]) -> Result<Vec<Comparison>, AllocError>
    ensures count { IfOk result (λ comparisons. vec_len comparisons ≡ length cases.now) }
    ensures compared { IfOk result (λ comparisons. All (ComparedIn cases.now) comparisons.items) }
{
    let mut comparisons = Vec::new(alloc);
    for case in cases {
        comparisons.push(compare(alloc, case)?)?;
    }
    Ok(comparisons)
}

// Prints how many states are visited for the lists of a shape with directions, where a step takes so many seconds.
fn print_directed(rt: &HostRuntime, shape: Shape, step: u64) -> io::Result<()>
    requires { step ≤ 1000 }
{
    let cases = lists_of(rt.alloc(), shape)?;
    let spread = Spread::of(visits_with(rt.alloc(), cases.as_slice(), step)?).unwrap();
    println!(rt; "{shape} with directions, {step} seconds for a step: visited {spread}")
}

fn main(rt: HostRuntime) -> io::Result<()> {
    let with_times = env::args(&rt)?.skip(1).any(|arg| arg.as_str() == "times");
    let mut comparisons = Vec::new(rt.alloc());
    for shape in SHAPES {
        let cases = lists_of(rt.alloc(), shape)?;
        let visits = visits(rt.alloc(), cases.as_slice())?;
        let spread = Spread::of(visits).unwrap();
        println!(rt; "{shape}: visited {spread}")?;
        if with_times {
            print_times(&rt, cases.as_slice())?;
        }
        let compared = compare_all(rt.alloc(), cases.as_slice())?;
        comparisons.extend_from_slice(compared.as_slice())?;
    }
    println!(rt; "{}", Score::of(comparisons.as_slice()))?;
    for (shape, step) in DIRECTED {
        print_directed(&rt, shape, step)?;
    }
    Ok(())
}
