// How long planning takes, beside other ways to plan the same lists.
ghost use Rattle.std.specs.Prelude.{◌≡◌, IfOk, length, vec_len};
ghost use Rattle.std.specs.Float.{binary64};
ghost use Rattle.std.specs.Float.Ieee.{div};
ghost use Rattle.std.specs.Duration.{as_secs_f64};
ghost use Rattle.effort.specs.Ways.{VisitsBy};

use crate::cases::{Case, DISHES};
use crate::searching::{plan_by_plain_search, plan_by_planner};
use crate::spread::Spread;
use capacity::plan_one_dish;
use sensitivity::try_why;
use std::alloc::{AllocError, Global};
use std::io;
use std::time::{Duration, Instant};

// How many passes of a list the plain search is given.
const TIMED: u8 = 12;

// A way to plan a list.
#[derive(Clone, Copy)]
enum Way {
    Planner,
    PlainSearch,
    // For one dish in place of four, from a table.
    OneDish,
    // By the planner, with what each pass has to be worth.
    Why,
}

impl Way {
    // Plans a list, and answers how many states were visited: none where there is a table in place of a search.
    fn visit(self, alloc: Global, case: &Case) -> Result<u64, AllocError>
        ensures { IfOk result (VisitsBy self) }
    {
        match self {
            Way::Planner => Ok(plan_by_planner(alloc, case)?.visited),
            Way::PlainSearch => Ok(plan_by_plain_search(alloc, case)?.visited),
            Way::OneDish => {
                let numbers = case.numbers.as_slice();
                let mut room = vec![in alloc; 0; numbers.len() / 4]?;
                plan_one_dish(case.turn, numbers, room.as_mut_slice()).unwrap();
                Ok(0)
            }
            Way::Why => {
                let numbers = case.numbers.as_slice();
                let mut room = vec![in alloc; 0; numbers.len() / 4]?;
                let mut needed = vec![in alloc; 0; numbers.len() / 4]?;
                let counted = try_why(DISHES, case.turn, numbers, &mut room, &mut needed);
                Ok(counted.unwrap().visited)
            }
        }
    }
}

// What planning lists took: of each the microseconds, and of all the time and the states visited.
#[derive(Drop)]
struct Effort {
    each: Vec<u64>,
    time: Duration,
    visited: u64,
}

impl Effort {
    // What planning some lists in one way takes.
    fn of(rt: &HostRuntime, way: Way, cases: &[Case]) -> io::Result<Effort>
        ensures { IfOk result (λ effort. vec_len effort.each ≡ length cases.now) }
    {
        let mut each = Vec::new(rt.alloc());
        let mut time = Duration::ZERO;
        let mut visited = 0u64;
        for case in cases {
            let start = Instant::now(rt)?;
            let states = way.visit(rt.alloc(), case)?;
            let took = start.elapsed(rt)?;
            each.push(u64::try_from(took.as_micros()).unwrap_or(u64::MAX))?;
            time = time.saturating_add(took);
            visited = visited.saturating_add(states);
        }
        Ok(Effort {
            each,
            time,
            visited,
        })
    }

    // How many times as long it took.
    fn times_as_long(&self, other: &Effort) -> f64
        ensures { result ≡ div binary64 (as_secs_f64 self.now.time) (as_secs_f64 other.now.time) }
    {
        self.time.as_secs_f64() / other.time.as_secs_f64()
    }
}

// Prints how long the planner takes over lists beside one dish, and the plain search over their fronts beside the planner.
pub fn print_times(rt: &HostRuntime, cases: &[Case]) -> io::Result<()> {
    let planner = Effort::of(rt, Way::Planner, cases)?;
    let alone = Effort::of(rt, Way::OneDish, cases)?;
    let long = planner.times_as_long(&alone);
    println!(rt; "  {long:.1} times as long as one dish alone")?;
    let why = Effort::of(rt, Way::Why, cases)?;
    let long = why.times_as_long(&planner);
    if let Some(spread) = Spread::of(planner.each) {
        println!(rt; "  microseconds for a list: {spread}")?;
    }
    println!(rt; "  with what each pass has to be worth: {long:.1} times as long")?;
    if let Some(spread) = Spread::of(why.each) {
        println!(rt; "  microseconds for a list: {spread}")?;
    }
    let fronts = fronts(rt.alloc(), cases)?;
    let planner = Effort::of(rt, Way::Planner, fronts.as_slice())?;
    let plain = Effort::of(rt, Way::PlainSearch, fronts.as_slice())?;
    let long = plain.times_as_long(&planner);
    println!(rt;
        "  the plain search of {TIMED} passes: {long:.2} times as long, {} states for {}",
        plain.visited, planner.visited
    )
}

// The fronts of lists.
fn fronts(alloc: Global, cases: &[Case]) -> Result<Vec<Case>, AllocError>
    ensures { IfOk result (λ fronts. vec_len fronts ≡ length cases.now) }
{
    let mut fronts = Vec::new(alloc);
    for case in cases {
        fronts.push(case.front(alloc, TIMED)?)?;
    }
    Ok(fronts)
}
