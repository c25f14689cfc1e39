// The unit in which passes are worth something: every plan is worth a multiple of it.
ghost use Rattle.std.specs.Prelude.{◌≡◌, ℕ, ◌%◌, ◌<◌, ◌⊎◌};
ghost use Rattle.std.specs.Int.{IsGcd};
ghost use Rattle.pruning.specs.Units.{WholeIn, WorthNothing};

use passes::Pass;

// A number of which what each pass is worth is a multiple: the greatest there is, or 1 where no pass is worth anything.
pub(crate) fn unit_of(passes: &[Pass]) -> u64
    ensures positive { 0 < result }
    ensures whole { WholeIn result passes.now }
    ensures greatest { (g : ℕ) → WholeIn g passes.now → (result % g ≡ 0) ⊎ WorthNothing passes.now }
{
    let mut unit = 0;
    for pass in passes {
        unit = greatest_common_divisor(unit, pass.worth as u64);
    }
    unit.max(1)
}

fn greatest_common_divisor(mut a: u64, mut b: u64) -> u64
    ensures { IsGcd a b result }
{
    while b > 0 {
        (a, b) = (b, a % b);
    }
    a
}
