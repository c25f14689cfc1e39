// Theorems about the definitions, each on the contract of a function.
// Kept: these functions differ in their contracts alone, and what a contract states can't be a parameter.
ghost use Rattle.capacity.specs.Statements.{AllCanBeFollowed};

// Passes that all dishes may follow can all be followed exactly if never too many hold a dish at once.
pub fn all_followed_stands() -> u8
    ensures { AllCanBeFollowed }
{
    0
}
