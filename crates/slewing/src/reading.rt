// Reading the seconds for a step, and directions.
ghost use Rattle.std.specs.Prelude.{◌≡◌, ◌≤◌, true, false, length, IfOk, MatchResult};
ghost use Rattle.std.specs.Result.{result_err};
ghost use Rattle.passes.specs.Nights.{passes_of};
ghost use Rattle.slewing.specs.declared.refusals.SlewRefusal.TheVariants.{BadDirections};
ghost use Rattle.slewing.specs.Numbers.{sound_sweep, sweep_at};
ghost use Rattle.slewing.specs.Refusals.{slewing_refused};
ghost use Rattle.slewing.specs.Slewings.{SlewingOf, sweeps_of};

use crate::directions::{DIRECTIONS, Sweep};
use crate::refusals::SlewRefusal;
use crate::slewings::Slewing;
use passes::{MAX_PASSES, Night};

// How many seconds a dish may take for a step.
pub const MAX_STEP: u64 = 1_000_000;

// What stands in an array past the last pass.
const NO_SWEEP: Sweep = Sweep { begin: 0, end: 0 };

impl Slewing {
    // Takes the seconds for a step and the directions of a night's passes, two to a pass, or turns them away with the first refusal that applies.
    pub fn read(night: &Night, step: u64, directions: &[u32]) -> Result<Slewing, SlewRefusal>
        ensures refusal { result_err result ≡ slewing_refused (length (passes_of night.now)) step directions.now }
        ensures slewing { IfOk result (λ s. SlewingOf (length (passes_of night.now)) step directions.now s) }
    {
        if step > MAX_STEP {
            return Err(SlewRefusal::BadStep);
        }
        let count = night.passes().len();
        let mut sweeps = [NO_SWEEP; MAX_PASSES];
        // Kept: i is the pass's place, by which its numbers are found and the fault is told.
        for i in 0..count.max(directions.len().div_ceil(2)) {
            sweeps[i] = sound_sweep(count, directions, i)?;
        }
        Ok(Slewing {
            step: step as u32,
            count,
            sweeps,
        })
    }

    // How many seconds a dish takes for a step.
    pub fn step(&self) -> u32
        ensures { result ≡ self.now.step }
    {
        self.step
    }

    // The directions of each pass.
    pub fn sweeps(&self) -> &[Sweep]
        ensures { result.now ≡ sweeps_of self.now }
    {
        &self.sweeps[..self.count]
    }
}

// The directions of pass i of `count`, unless they are at fault.
#[tactic(auto, using(std::proofs::lemmas::Bool::Decides::nat_tests), unfolding(crate::specs::Numbers::sound_sweep, crate::specs::Numbers::is_around))]
fn sound_sweep(count: usize, numbers: &[u32], i: usize) -> Result<Sweep, SlewRefusal>
    requires few { count ≤ 48 }
    ensures { MatchResult result (λ v. (sound_sweep count numbers.now i ≡ true) × (v ≡ sweep_at numbers.now i)) (λ e. (e ≡ BadDirections i) × (sound_sweep count numbers.now i ≡ false)) }
{
    let at_fault = Err(SlewRefusal::BadDirections(i));
    if i >= count || numbers.len() < 2 * i + 2 {
        return at_fault;
    }
    let (begin, end) = (numbers[2 * i], numbers[2 * i + 1]);
    if begin >= DIRECTIONS as u32 || end >= DIRECTIONS as u32 {
        return at_fault;
    }
    Ok(Sweep {
        begin: begin as u8,
        end: end as u8,
    })
}
