// The table of states seen before.
ghost use Rattle.std.specs.Prelude.{◌≡◌, ℕ, ◌<◌, Some, None, slice_set};
ghost use Rattle.std.specs.List.{All};

// What stands at a place of the table: a state from which every way on was tried, and its stage.
#[derive(Clone, Copy)]
pub struct Seen<S> {
    pub(crate) stage: usize,
    pub(crate) state: S,
}

// The place of a slot in a table of so many places.
pub(crate) fn place(slot: u64, places: usize) -> usize
    requires { 0 < places }
    ensures { result < places }
{
    (slot % places as u64) as usize
}

// Leaves nothing in the table.
pub(crate) fn forget_all<S: Copy>(table: &mut [Option<Seen<S>>])
    ensures { All (λ o. o ≡ None) table.new }
{
    for entry in table.iter_mut() {
        *entry = None;
    }
}

// Writes a state at its place, over whatever stood there. A table with no places stays as it is.
pub(crate) fn remember<S: Copy>(table: &mut [Option<Seen<S>>], slot: u64, stage: usize, state: S)
    ensures { (k : ℕ) × (table.new ≡ slice_set table.old k (Some (record { stage = stage; state = state }))) }
{
    let places = table.len();
    if 0 < places {
        table[place(slot, places)] = Some(Seen { stage, state });
    }
}
