// Theorems about the definitions, each on the contract of a function.
ghost use Rattle.pruning.specs.Statements.{PricesBound};

// Any prices bound what is left to gain.
pub fn prices_bound_stands() -> u8
    ensures { PricesBound }
{
    0
}
