// Theorems about the definitions, each on the contract of a function.
// Kept: these functions differ in their contracts alone, and what a contract states can't be a parameter.
ghost use Rattle.passes.specs.Statements.{TestIsRule, OneVerdict, TakenIfChecked, PlaceIsFirst, TouchingPasses};

// The test for good plans is the rule.
pub fn rule_stands() -> u8
    ensures { TestIsRule }
{
    0
}

// The judge's contract leaves it no choice.
pub fn verdict_stands() -> u8
    ensures { OneVerdict }
{
    0
}

// What is taken passes the checks, and what passes them is taken.
pub fn taken_stands() -> u8
    ensures { TakenIfChecked }
{
    0
}

// The place of a fault is the first.
pub fn place_stands() -> u8
    ensures { PlaceIsFirst }
{
    0
}

// Passes that touch: turning counts.
pub fn touching_stands() -> u8
    ensures { TouchingPasses }
{
    0
}
