// One dish alone: a table of the most that it can gain from each pass on, and the plan that follows from it.
ghost use Rattle.std.specs.Prelude.{◌≡◌, ℕ, ◌+◌, ◌^◌, ◌<◌, ◌≤◌, ◌&&◌, nat_lt, List, length, take, sum, MatchResult};
ghost use Rattle.std.specs.Result.{result_err};
ghost use Rattle.passes.specs.Checks.{max_passes};
ghost use Rattle.passes.specs.Follow.{may};
ghost use Rattle.passes.specs.Nights.{passes_of, station_of};
ghost use Rattle.passes.specs.Numbers.{passes_in};
ghost use Rattle.passes.specs.Refusals.{refused_with_room};
ghost use Rattle.passes.specs.Rule.{nth};
ghost use Rattle.capacity.specs.Alone.{BestAlone, RightFrom, worths, BestPlanWorth};
ghost use Rattle.capacity.specs.Order.{InTime, InTime-prop, FirstFrom, Successors};

use passes::{MAX_PASSES, Night, Pass, Refusal, Station};

// A table has one entry more than there are passes.
// Kept: tables and gains are arrays, of which the front is used, since there is no heap.
const MAX_ENTRIES: usize = MAX_PASSES + 1;

// Leaves a best plan for a station with one dish in the room, and says what it is worth.
// Built into its callers: as a call of its own it copies the night and its worths once more, and three passes took 1.6 to 1.8 times as long.
// Kept: what it is lent comes one by one, as in `Night::read`, and the room is to be written.
#[inline(always)]
pub fn plan_one_dish(turn: u64, numbers: &[u32], room: &mut [u8]) -> Result<u64, Refusal>
    ensures refusal { result_err result ≡ refused_with_room 1 turn numbers.now (length room.old) }
    ensures planned { MatchResult result (λ w. BestPlanWorth (station_of 1 turn) (passes_in numbers.now) room.new w) (λ _. room.new ≡ room.old) }
{
    let night = Night::read_for_room(1, turn, numbers, room.len())?;
    let mut table = [0; MAX_ENTRIES];
    Ok(plan_alone(&night, &mut table, room))
}

// Leaves a best plan of a night with one dish in the room, and says what it is worth.
// Kept: the room stands beside the night, since it is the caller's and is lent to be written.
fn plan_alone(night: &Night, table: &mut [u64; MAX_ENTRIES], room: &mut [u8]) -> u64
    requires one_dish { night.now.station.dishes ≡ 1 }
    requires one_each { length room.old ≡ length (passes_of night.now) }
    ensures { BestPlanWorth night.now.station (passes_of night.now) room.new result }
{
    let passes = night.passes();
    let count = passes.len();
    let worths = worths_of(passes);
    let table = &mut table[..count + 1];
    let alone = OneDish {
        station: night.station(),
        dish: 0,
        passes,
    };
    let mut after = [0; MAX_PASSES];
    let after = &mut after[..count];
    alone.find_successors(after);
    alone.fill_table(after, &worths[..count], table);
    alone.follow_table(after, table, room);
    table[0]
}

// What each pass is worth.
// Kept: by index. With `gains.iter_mut().zip(passes)` the proof knows nothing of the gains after the loop, and with `array::from_fn` nothing of
// the passes in the closure.
fn worths_of(passes: &[Pass]) -> [u64; MAX_PASSES]
    requires { length passes.now ≤ max_passes }
    ensures { take (length passes.now) result ≡ worths passes.now }
{
    let mut gains = [0; MAX_PASSES];
    for (i, pass) in passes.iter().enumerate() {
        gains[i] = pass.worth as u64;
    }
    gains
}

// One dish of a station, and passes in order of time.
#[derive(Clone, Copy)]
pub struct OneDish<'a> {
    pub station: Station,
    pub dish: u8,
    pub passes: &'a [Pass],
    pub ghost in_time: { InTime passes.now } by { InTime-prop passes.now },
}

impl OneDish<'_> {
    // Writes for each pass the first that the dish can follow after it, by its place, or the number of passes if there is none. Whoever fills many tables
    // finds these but once.
    // Kept: by index. With `after.iter_mut().zip(self.passes)` the proof knows nothing of what is written after the loop.
    pub fn find_successors(&self, after: &mut [usize])
        requires one_each { length after.old ≡ length self.now.passes.now }
        ensures { let one = self.now in Successors one.station.turn one.passes.now after.new }
    {
        for i in 0..self.passes.len() {
            after[i] = self.next_after(i);
        }
    }

    // Fills a table, from its end, with the most that the dish can gain from each pass on: it leaves the pass out, or follows it and goes on
    // with the first that it can follow after it.
    // Kept: the gains are a list beside the passes, which is no less plain, since pruning looks at one list of passes
    // with many lists of gains; and by index, since one entry of the table is written and two behind it are read.
    pub fn fill_table(&self, after: &[usize], gains: &[u64], table: &mut [u64])
        requires successors { Successors self.now.station.turn self.now.passes.now after.now }
        requires a_gain_each { length gains.now ≡ length self.now.passes.now }
        requires sum_fits { sum gains.now < 2 ^ 64 }
        requires one_more { length table.old ≡ length self.now.passes.now + 1 }
        ensures { let one = self.now in RightFrom 0 one.station one.dish one.passes.now gains.now table.new }
    {
        table[self.passes.len()] = 0;
        for (i, pass) in self.passes.iter().enumerate().rev() {
            let left_out = table[i + 1];
            table[i] = if self.may_follow(*pass) {
                left_out.max(gains[i] + table[after[i]])
            } else {
                left_out
            };
        }
    }

    // Leaves a best plan of the dish alone in the room, for whatever gains the table has the most of: it follows each pass that it can gain by.
    // Kept: by index, since two neighbours of the table are read and the place is compared with that of the next pass; and the room stands beside
    // the passes, to be written.
    pub fn follow_table(&self, after: &[usize], table: &[u64], room: &mut [u8])
        requires successors { Successors self.now.station.turn self.now.passes.now after.now }
        requires one_more { length table.now ≡ length self.now.passes.now + 1 }
        requires one_each { length room.old ≡ length self.now.passes.now }
        requires a_byte { self.now.dish < 255 }
        ensures { let one = self.now in (gs : List ℕ) → length gs ≡ length one.passes.now → RightFrom 0 one.station one.dish one.passes.now gs table.now → BestAlone one.station one.dish one.passes.now gs room.new }
    {
        let mut next = 0;
        for i in 0..self.passes.len() {
            if next <= i && table[i] > table[i + 1] {
                room[i] = self.dish + 1;
                next = after[i];
            } else {
                room[i] = 0;
            }
        }
    }

    // Whether the dish is there and may follow the pass.
    fn may_follow(&self, pass: Pass) -> bool
        ensures { result ≡ (nat_lt self.now.dish self.now.station.dishes && may pass self.now.dish) }
    {
        self.dish < self.station.dishes && pass.may_be_followed_by(self.dish)
    }

    // The first pass that begins late enough after pass i, or the number of passes if none does. It is looked for behind pass i, as no pass
    // up to there begins after pass i ends.
    fn next_after(&self, i: usize) -> usize
        requires within { i < length self.now.passes.now }
        ensures { let one = self.now in FirstFrom one.passes.now ((nth one.passes.now i).to + one.station.turn) result }
    {
        let turned = self.passes[i].to as u64 + self.station.turn as u64;
        let behind = &self.passes[i + 1..];
        i + 1 + behind.partition_point(|later| (later.from as u64) < turned)
    }
}
