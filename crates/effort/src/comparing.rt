// Short lists, planned in two ways.
ghost use Rattle.std.specs.Prelude.{◌≡◌, ◌*◌, IfOk, take, length, count_by};
ghost use Rattle.effort.specs.declared.comparing.TheConstants.{FRONT};
ghost use Rattle.effort.specs.Comparisons.{TrueOf, Compared, differs};

use crate::cases::Case;
use crate::searching::{plan_by_plain_search, plan_by_planner};
use std::alloc::{AllocError, Global};
use std::fmt;

// How many passes a short list has.
const FRONT: u8 = 9;

// What is said of the worth by the planner, and by the plain search.
#[derive(Clone, Copy)]
pub enum Comparison {
    Same,
    Differs,
}

impl Comparison {
    // What may be said of two worths. The plain search may have found no plan.
    fn of(planned: u64, searched: Option<u64>) -> Comparison
        ensures { TrueOf planned searched result }
    {
        if searched == Some(planned) {
            Comparison::Same
        } else {
            Comparison::Differs
        }
    }
}

// Plans the front of a list in both ways.
pub fn compare(alloc: Global, case: &Case) -> Result<Comparison, AllocError>
    ensures { IfOk result (Compared case.now.turn (take (4 * FRONT) case.now.numbers.items)) }
{
    let front = case.front(alloc, FRONT)?;
    let planned = plan_by_planner(alloc, &front)?;
    let searched = plan_by_plain_search(alloc, &front)?;
    Ok(Comparison::of(planned.worth, searched.most))
}

// How many lists were compared, and how many differ.
#[derive(Clone, Copy)]
pub struct Score {
    lists: usize,
    differ: usize,
}

impl Score {
    // What came of some comparisons.
    pub fn of(comparisons: &[Comparison]) -> Score
        ensures lists { result.lists ≡ length comparisons.now }
        ensures differ { result.differ ≡ count_by differs comparisons.now }
    {
        Score {
            lists: comparisons.len(),
            differ: comparisons
                .iter()
                .filter(|comparison| matches!(comparison, Comparison::Differs))
                .count(),
        }
    }
}

impl fmt::Display for Score {
    fn fmt<W: fmt::Write>(&self, f: &mut fmt::Formatter<W>) -> fmt::Result {
        write!(
            f,
            "{} short lists, by the plain search too: {} differ",
            self.lists, self.differ
        )
    }
}
