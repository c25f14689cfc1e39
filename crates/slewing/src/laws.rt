// Theorems about the definitions, each on the contract of a function.
// Kept: these functions differ in their contracts alone, and what a contract states can't be a parameter.
ghost use Rattle.slewing.specs.Statements.{RuleMeans, TestIsRule, GoodWithout, SameDirections, NextIsAny, SameWorth, MoreSeconds, AnyTwoDiffers};

// Of a list in order of time, the plans that are good with directions are those that are good without and that the automaton accepts.
pub fn rule_means_stands() -> u8
    ensures { RuleMeans }
{
    0
}

// The test for good plans says the rule pass by pass.
pub fn test_is_rule_stands() -> u8
    ensures { TestIsRule }
{
    0
}

// Of a list in order of time, a plan that is good with directions is good without.
pub fn good_without_stands() -> u8
    ensures { GoodWithout }
{
    0
}

// With all directions the same, a plan is good exactly if each pass and the next one of its dish leave the station's turning time; of a list in order of
// time that is the rule without directions, and a best plan is worth what it is worth by that.
pub fn same_directions_stand() -> u8
    ensures next { SameDirections }
    ensures any { NextIsAny }
    ensures worth { SameWorth }
{
    0
}

// More seconds for a step never make a best plan worth more.
pub fn more_seconds_stands() -> u8
    ensures { MoreSeconds }
{
    0
}

// To look at any two passes of a dish is another rule.
pub fn any_two_differs_stands() -> u8
    ensures { AnyTwoDiffers }
{
    0
}
