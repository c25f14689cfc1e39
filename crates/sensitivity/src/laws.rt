// Theorems about the definitions, each on the contract of a function.
// Kept: these functions differ in their contracts alone, and what a contract states can't be a parameter.
ghost use Rattle.sensitivity.specs.Statements.{OnlyOne, AsWell, Lowered, NoDish, NeverExactly, LeavesAsWell, Difference, BelowNever, ToldAlike};
ghost use Rattle.sensitivity.specs.PassRules.{PassRuleMeans};

// A pass has one needed worth.
pub fn only_one_stands() -> u8
    ensures { OnlyOne }
{
    0
}

// What a pass needs is at most its worth exactly if some best plan follows it.
pub fn as_well_stands() -> u8
    ensures { AsWell }
{
    0
}

// A pass that some best plan follows can lose the difference between its worth and its needed worth, and no more.
pub fn lowered_stands() -> u8
    ensures { Lowered }
{
    0
}

// No worth would do exactly if no dish that is there may follow the pass.
pub fn no_dish_stands() -> u8
    ensures { NoDish }
{
    0
}

// Never is said exactly if no good plan follows the pass, whatever it is worth.
pub fn never_exactly_stands() -> u8
    ensures { NeverExactly }
{
    0
}

// Where a pass needs just what it is worth, some best plan doesn't follow it.
pub fn leaves_as_well_stands() -> u8
    ensures { LeavesAsWell }
{
    0
}

// What a pass needs is what a best plan without it is worth, less what a best plan among those that follow it earns with the others.
pub fn difference_stands() -> u8
    ensures { Difference }
{
    0
}

// A needed worth of a list that passes the checks is at most 48,000,000.
pub fn below_never_stands() -> u8
    ensures { BelowNever }
{
    0
}

// The rule on one pass accepts, where the pass is there, the plans that do with it as is asked, and no others.
pub fn pass_rule_stands() -> u8
    ensures { PassRuleMeans }
{
    0
}

// What is said of a pass rests on which plans are good, whatever the pass is worth, and on nothing else.
pub fn told_alike_stands() -> u8
    ensures { ToldAlike }
{
    0
}
