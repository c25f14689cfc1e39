// Theorems about the definitions, as contracts.
ghost use Rattle.text.specs.Statements.{FirstAtFault, UnreadableFirst, RefusedForWhatItSays, RuleIsBroken, NoRoom, AllOrNone, RoundTrip};

// The line for which a text is turned away is the first that can't be read, or the one in which a text without a station ends.
pub fn first_at_fault_stands() -> u8
    ensures { FirstAtFault }
{
    0
}

// A text with a line that can't be read is turned away for the first such line.
pub fn unreadable_first_stands() -> u8
    ensures { UnreadableFirst }
{
    0
}

// A text that is turned away otherwise is refused for what its lines say, for a rule that its pass breaks, and never for a room.
pub fn refused_for_what_it_says_stands() -> u8
    ensures says { RefusedForWhatItSays }
    ensures broken { RuleIsBroken }
    ensures no_room { NoRoom }
{
    0
}

// Of the passes that a list is read from all have directions, or none has.
pub fn all_or_none_stands() -> u8
    ensures { AllOrNone }
{
    0
}

// What is written of a list reads as that list.
pub fn round_trip_stands() -> u8
    ensures { RoundTrip }
{
    0
}
