// Plans random cases, without directions and with them, and asks what passes need; and compares each plan and each answer with all plans.
#![tactic(auto)]

ghost use Rattle.std.specs.Prelude.{◌≡◌, IfOk, All, vec_len};
ghost use Rattle.trials.specs.declared.TheConstants.{CASES, NEEDS, DIRECTED};
ghost use Rattle.trials.specs.Needs.{AskedOfLists};
ghost use Rattle.trials.specs.Trials.{TriedOf};
ghost use Rattle.trials.specs.Ways.{TriedWithOf};

mod all_plans;
mod back_judging;
mod cases;
mod directed;
mod directed_cases;
mod followed;
mod judges;
mod judging;
mod kinds;
mod looking_back;
mod needs;
mod trying;
mod ways;

use cases::Case;
use directed::{DirectedScore, DirectedTrial, try_directed};
use directed_cases::DirectedCase;
use kinds::Kind;
use needs::{Asked, AskedScore, ask_each};
use rand::SeedableRng;
use rand::rngs::SmallRng;
use std::io;
use trying::{Score, Trial, try_case};
use ways::Way;

const SEED: u64 = 1;

// How many cases of each kind are tried.
const CASES: u32 = 1000;

// Of how many more cases of each kind it is asked what their passes need.
const NEEDS: u32 = 100;

// How many cases with directions of each kind are tried.
const DIRECTED: u32 = 500;

const WAYS: [Way; 4] = [
    Way::ShortSteps,
    Way::LongSteps,
    Way::HalfAround,
    Way::AllTheSame,
];

const KINDS: [Kind; 8] = [
    Kind::NoPasses,
    Kind::Mixed,
    Kind::NoTurning,
    Kind::LargeTurning,
    Kind::EqualBegins,
    Kind::Touching,
    Kind::OneDishHears,
    Kind::UnfitMarks,
];

// Tries random cases of a kind, and prints those that are planned otherwise than they should be.
fn try_kind(rt: &HostRuntime, rng: &mut SmallRng, kind: Kind) -> io::Result<Vec<Trial>>
    ensures count { IfOk result (λ trials. vec_len trials ≡ CASES) }
    ensures tried { IfOk result (λ trials. All (TriedOf kind) trials.items) }
{
    let mut trials = Vec::new(rt.alloc());
    for _ in 0..CASES {
        let case = Case::random(rt.alloc(), kind, rng)?;
        let trial = try_case(rt.alloc(), &case)?;
        if trial == Trial::Mismatch {
            println!(rt; "{kind}: mismatch at {case:?}")?;
        }
        trials.push(trial)?;
    }
    Ok(trials)
}

// Tries random cases with directions of a kind, and prints those that are planned otherwise than they should be.
fn try_way(rt: &HostRuntime, rng: &mut SmallRng, way: Way) -> io::Result<Vec<DirectedTrial>>
    ensures count { IfOk result (λ trials. vec_len trials ≡ DIRECTED) }
    ensures tried { IfOk result (λ trials. All (TriedWithOf way) trials.items) }
{
    let mut trials = Vec::new(rt.alloc());
    for _ in 0..DIRECTED {
        let case = DirectedCase::random(rt.alloc(), way, rng)?;
        let tried = try_directed(rt.alloc(), &case)?;
        if tried.trial == Trial::Mismatch {
            println!(rt; "{way}: mismatch at {case:?}")?;
        }
        trials.push(tried)?;
    }
    Ok(trials)
}

// Asks what the passes of random cases of a kind need, and prints those cases of which all plans say otherwise.
fn ask_kind(rt: &HostRuntime, rng: &mut SmallRng, kind: Kind) -> io::Result<Vec<Asked>>
    ensures { IfOk result (λ asked. AskedOfLists kind NEEDS asked.items) }
{
    let mut all = Vec::new(rt.alloc());
    for _ in 0..NEEDS {
        let case = Case::random(rt.alloc(), kind, rng)?;
        let asked = ask_each(rt.alloc(), &case)?;
        if asked.contains(&Asked::Mismatch) {
            println!(rt; "{kind}: mismatch of what passes need at {case:?}")?;
        }
        all.extend_from_slice(asked.as_slice())?;
    }
    Ok(all)
}

// Tries random cases of each kind, and prints what came of each kind and of all.
fn try_kinds(rt: &HostRuntime, rng: &mut SmallRng) -> io::Result<()> {
    let mut all = Vec::new(rt.alloc());
    for kind in KINDS {
        let trials = try_kind(rt, rng, kind)?;
        println!(rt; "{kind}: {}", Score::of(trials.as_slice()))?;
        all.extend_from_slice(trials.as_slice())?;
    }
    println!(rt; "all: {}", Score::of(all.as_slice()))
}

// Tries random cases with directions of each kind, and prints what came of each kind and of all.
fn try_ways(rt: &HostRuntime, rng: &mut SmallRng) -> io::Result<()> {
    let mut all = Vec::new(rt.alloc());
    for way in WAYS {
        let trials = try_way(rt, rng, way)?;
        println!(rt; "{way}: {}", DirectedScore::of(trials.as_slice()))?;
        all.extend_from_slice(trials.as_slice())?;
    }
    println!(rt; "all: {}", DirectedScore::of(all.as_slice()))
}

// Asks what the passes of random cases of each kind need, and prints what came of each kind and of all.
fn ask_kinds(rt: &HostRuntime, rng: &mut SmallRng) -> io::Result<()> {
    let mut all = Vec::new(rt.alloc());
    for kind in KINDS {
        let asked = ask_kind(rt, rng, kind)?;
        println!(rt; "{kind}: {}", AskedScore::of(NEEDS, asked.as_slice()))?;
        all.extend_from_slice(asked.as_slice())?;
    }
    let lists = NEEDS * KINDS.len() as u32;
    println!(rt; "all: {}", AskedScore::of(lists, all.as_slice()))
}

fn main(rt: HostRuntime) -> io::Result<()> {
    let mut rng = SmallRng::seed_from_u64(SEED);
    try_kinds(&rt, &mut rng)?;
    ask_kinds(&rt, &mut rng)?;
    try_ways(&rt, &mut rng)
}
