// Theorems about the definitions, each on the contract of a function.
// Kept: these functions differ in their contracts alone, and what a contract states can't be a parameter.
ghost use Rattle.planner.specs.Statements.{EachIsNight, StationIsNight, RoundingUp, HasBest, MoreDishes, OneMore, SideBySide};

// For dishes each of which takes its own time to turn, the good plans are the runs of the night.
pub fn each_is_night_stands() -> u8
    ensures { EachIsNight }
{
    0
}

// For a station and a list that pass the checks too.
pub fn station_is_night_stands() -> u8
    ensures { StationIsNight }
{
    0
}

// The next pass that a dish may still follow says as much of it as the second from which it is free.
pub fn rounding_up_stands() -> u8
    ensures { RoundingUp }
{
    0
}

// Every list of passes has a best plan.
pub fn has_best_stands() -> u8
    ensures { HasBest }
{
    0
}

// More dishes, or less time to turn, never cost worth.
pub fn more_dishes_stands() -> u8
    ensures { MoreDishes }
{
    0
}

// A pass more never costs worth, nor brings more than it is worth.
pub fn one_more_stands() -> u8
    ensures { OneMore }
{
    0
}

// Lists apart in time are planned each for itself.
pub fn side_by_side_stands() -> u8
    ensures { SideBySide }
{
    0
}
