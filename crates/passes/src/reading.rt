ghost use Rattle.std.specs.Prelude.{◌≡◌, true, false, length, IfOk, MatchResult};
ghost use Rattle.std.specs.Result.{result_err};
ghost use Rattle.passes.specs.declared.refusals.Refusal.TheVariants.{BadPass};
ghost use Rattle.passes.specs.Nights.{NightOf, passes_of, station_of};
ghost use Rattle.passes.specs.Numbers.{sound, pass_at};
ghost use Rattle.passes.specs.Refusals.{station_refused, refused, refused_with_room, room_refused};

use crate::model::{Pass, Station};
use crate::nights::{MAX_DISHES, MAX_PASSES, Night};
use crate::refusals::Refusal;

// How many seconds a dish may take to turn.
const MAX_TURN: u64 = 100_000;

// What stands in a night's room past its last pass.
const NO_PASS: Pass = Pass {
    from: 0,
    to: 0,
    worth: 0,
    marks: 0,
};

impl Night {
    // Takes a station and its passes, or turns them away with the first refusal that applies.
    // Kept: dishes, turning and numbers come one by one here and in what calls this, since what the libraries ask for is the night they become.
    pub fn read(dishes: u64, turn: u64, numbers: &[u32]) -> Result<Night, Refusal>
        ensures refusal { result_err result ≡ refused dishes turn numbers.now }
        ensures night { IfOk result (λ n. NightOf dishes turn numbers.now n) }
    {
        let station = read_station(dishes, turn)?;
        let mut passes = [NO_PASS; MAX_PASSES];
        let count = numbers.len().div_ceil(4);
        // Kept: i is the pass's place, by which its numbers and the pass before it are found and the fault is told.
        for i in 0..count {
            passes[i] = sound_pass(numbers, i)?;
        }
        Ok(Night {
            station,
            count,
            passes,
        })
    }

    // The same, with a room that is to have a number for each pass.
    pub fn read_for_room(
        dishes: u64,
        turn: u64,
        numbers: &[u32],
        room: usize,
    ) -> Result<Night, Refusal>
        ensures refusal { result_err result ≡ refused_with_room dishes turn numbers.now room }
        ensures night { IfOk result (λ n. NightOf dishes turn numbers.now n × (room ≡ length (passes_of n))) }
    {
        let night = Night::read(dishes, turn, numbers)?;
        night.check_room(room)?;
        Ok(night)
    }

    // Its dishes, and how long they take to turn.
    pub fn station(&self) -> Station
        ensures { result ≡ self.now.station }
    {
        self.station
    }

    // Its passes, in order of begin.
    pub fn passes(&self) -> &[Pass]
        ensures { result.now ≡ passes_of self.now }
    {
        &self.passes[0..self.count]
    }

    // Turns a room away that isn't a number for each pass.
    #[tactic(auto, using(std::proofs::lemmas::Bool::Decides::nat_tests), unfolding(crate::specs::Refusals::room_refused))]
    pub fn check_room(&self, room: usize) -> Result<(), Refusal>
        ensures { result_err result ≡ room_refused (length (passes_of self.now)) room }
    {
        if room == self.passes().len() {
            Ok(())
        } else {
            Err(Refusal::BadRoom(room))
        }
    }
}

// Kept: no `TryFrom`, since a pair of numbers would not say which of them is the time to turn.
#[tactic(auto, using(std::proofs::lemmas::Bool::Decides::nat_tests), unfolding(crate::specs::Refusals::station_refused, crate::specs::Checks::dishes_ok, crate::specs::Checks::turning_ok))]
fn read_station(dishes: u64, turn: u64) -> Result<Station, Refusal>
    ensures refusal { result_err result ≡ station_refused dishes turn }
    ensures station { IfOk result (λ s. s ≡ station_of dishes turn) }
{
    if dishes < 1 || dishes > MAX_DISHES as u64 {
        return Err(Refusal::BadDishes);
    }
    if turn > MAX_TURN {
        return Err(Refusal::BadTurning);
    }
    Ok(Station {
        dishes: dishes as u8,
        turn: turn as u32,
    })
}

// Pass i of a list of numbers, unless it is at fault.
#[tactic(auto, using(std::proofs::lemmas::Bool::Decides::nat_tests), unfolding(crate::specs::Numbers::sound, crate::specs::Numbers::in_order))]
fn sound_pass(numbers: &[u32], i: usize) -> Result<Pass, Refusal>
    ensures { MatchResult result (λ p. (sound numbers.now i ≡ true) × (p ≡ pass_at numbers.now i)) (λ e. (e ≡ BadPass i) × (sound numbers.now i ≡ false)) }
{
    let at_fault = Err(Refusal::BadPass(i));
    if i >= MAX_PASSES || numbers.len() < 4 * i + 4 {
        return at_fault;
    }
    let at = 4 * i;
    let four = [
        numbers[at],
        numbers[at + 1],
        numbers[at + 2],
        numbers[at + 3],
    ];
    let Ok(pass) = Pass::try_from(four) else {
        return at_fault;
    };
    // Kept: neighbours are compared by index over the lent numbers, of which this pass is read and the one before it was.
    if i > 0 && pass.from < numbers[4 * (i - 1)] {
        return at_fault;
    }
    Ok(pass)
}
