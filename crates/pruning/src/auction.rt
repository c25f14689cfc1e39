// Prices at which the bound is low, found by an auction. Nothing rests on how low it is.
ghost use Rattle.std.specs.Prelude.{◌≡◌, ℕ, ◌*◌, ◌^◌, ◌<◌, ◌≤◌, length, slice_index};
ghost use Rattle.pruning.specs.declared.rounding.TheConstants.{WIDE_PASSES};
ghost use Rattle.pruning.specs.declared.prices.TheConstants.{SCALE};
ghost use Rattle.engine.specs.Gaining.{Bound};
ghost use Rattle.pruning.specs.Prices.{NoneAbove};
ghost use Rattle.pruning.specs.Rounding.{rounded_night};

use crate::prepared::{Prepared, all_successors};
use crate::prices::{Priced, full_price, less_prices};
use crate::rounding::{WIDE_PASSES, WideNight};
use engine::{Decisions, Gains};
use passes::Pass;

// The most rounds that an auction has.
pub const ROUNDS: usize = 48;

// A whole step is so many parts; the first step is half of them.
const PARTS: u64 = 1 << 16;

// By how much prices move in the first round.
const FIRST_STEP: u64 = PARTS / 2;

// Once in so many rounds it is looked whether the best plan so far is worth as much as any.
const BETWEEN_BOUNDS: usize = 8;

// An auction of a night's passes, under way.
#[derive(Drop)]
struct Auction<'n, 'a> {
    prepared: Prepared<'n, 'a>,
    // By how much each pass's price falls, in a whole step, for each dish that doesn't ask for it.
    // Kept: a place for each of the most passes, since memory is fixed.
    strides: [u64; WIDE_PASSES],
}

// Where a round stands, or the auction ends: prices, to which dish each pass is given, the first that asked for it, by the numbers of plans, and how
// many rounds there were.
// Kept: places for the most passes, since memory is fixed.
#[derive(Clone, Copy)]
pub struct Bids {
    pub prices: [u64; WIDE_PASSES],
    pub given: [u8; WIDE_PASSES],
    pub rounds: usize,
}

// Holds an auction. At first nothing has a price. In each round, each dish in turn asks for the passes by which it alone gains the most at the prices. Then the
// price of each pass that it asks for rises, and that of each other pass falls, so that a pass for which one dish asks in a round comes back to its price, unless
// that can't fall or rise so far. Steps become shorter and shorter.
pub fn bids_for(night: WideNight) -> Bids
    ensures { NoneAbove SCALE night.entry.passes.now result.prices }
{
    let after = all_successors(night);
    let auction = Auction {
        prepared: Prepared::new(night, &after),
        strides: strides_of(night.passes, night.turns.len()),
    };
    auction.run()
}

impl Auction<'_, '_> {
    // The prices after the last round, and the dishes to which passes were given in the round in which those passes were worth the most. Nothing is
    // promised of these.
    fn run(&self) -> Bids
        ensures { NoneAbove SCALE self.now.prepared.night.passes.now result.prices }
    {
        let mut bids = Bids {
            prices: [0; WIDE_PASSES],
            given: [0; WIDE_PASSES],
            rounds: 0,
        };
        let mut best = [0; WIDE_PASSES];
        let mut step = FIRST_STEP;
        let mut most = 0;
        for number in 0..ROUNDS {
            self.hold_round(number, step, &mut bids);
            bids.rounds = number + 1;
            step = step * 54 / 64;
            let worth = self.worth_of(&bids);
            if worth > most {
                most = worth;
                best = bids.given;
            }
            if number % BETWEEN_BOUNDS == 0 && self.bound(&bids.prices) <= most {
                break;
            }
        }
        Bids {
            given: best,
            ..bids
        }
    }

    // No plan is worth more than this.
    fn bound(&self, prices: &[u64; WIDE_PASSES]) -> u64
        ensures { let r = self.now.prepared.night in Bound (rounded_night r.turns.now r.passes.now) 0 (rounded_night r.turns.now r.passes.now).moves.start result }
    {
        if self.prepared.night.passes.is_empty() {
            return 0;
        }
        let priced = Priced::prepared(self.prepared, prices);
        priced.bound(0, priced.start())
    }

    // A round, in which each dish asks once, and passes are given anew. In each round another dish asks first.
    fn hold_round(&self, number: usize, step: u64, bids: &mut Bids)
        requires before { NoneAbove SCALE self.now.prepared.night.passes.now bids.old.prices }
        ensures { NoneAbove SCALE self.now.prepared.night.passes.now bids.new.prices }
    {
        let count = self.prepared.night.turns.len();
        bids.given = [0; WIDE_PASSES];
        for asking in 0..count {
            let dish = (number % count + asking) % count;
            self.ask(dish, step, bids);
        }
    }

    // Lets a dish ask for passes.
    fn ask(&self, dish: usize, step: u64, bids: &mut Bids)
        requires there { dish < length self.now.prepared.night.turns.now }
        requires before { NoneAbove SCALE self.now.prepared.night.passes.now bids.old.prices }
        ensures { NoneAbove SCALE self.now.prepared.night.passes.now bids.new.prices }
    {
        let passes = self.prepared.night.passes;
        let count = passes.len();
        let gains = less_prices(passes, &bids.prices[..count]);
        let after = self.prepared.after;
        let table = self.prepared.table_of(dish, &gains[..count]);
        let mut asked = [0; WIDE_PASSES];
        let asked = &mut asked[..count];
        self.prepared
            .night
            .alone(dish)
            .follow_table(&after[dish][..count], &table[..count + 1], asked);
        self.grant(asked, step, bids);
    }

    // Gives a dish the passes that it asked for and that no other dish has, and moves all prices.
    // Kept: by index, as the rooms are arrays, of which the front is used.
    fn grant(&self, asked: &[u8], step: u64, bids: &mut Bids)
        requires one_each { length asked.now ≡ length self.now.prepared.night.passes.now }
        requires before { NoneAbove SCALE self.now.prepared.night.passes.now bids.old.prices }
        ensures { NoneAbove SCALE self.now.prepared.night.passes.now bids.new.prices }
    {
        let others = (self.prepared.night.turns.len() as u64).saturating_sub(1);
        for (i, pass) in self.prepared.night.passes.iter().enumerate() {
            let change = self.strides[i].saturating_mul(step) / PARTS;
            if asked[i] > 0 {
                let rise = change.saturating_mul(others);
                bids.prices[i] = bids.prices[i].saturating_add(rise).min(full_price(pass));
                if bids.given[i] == 0 {
                    bids.given[i] = asked[i];
                }
            } else {
                bids.prices[i] = bids.prices[i].saturating_sub(change);
            }
        }
    }

    // What the passes that are given are worth together. Only that it fits is promised, since nothing rests on it.
    fn worth_of(&self, bids: &Bids) -> u64
        ensures { result ≤ WIDE_PASSES * 2 ^ 32 }
    {
        let mut worth = 0;
        for (i, pass) in self.prepared.night.passes.iter().enumerate() {
            if bids.given[i] > 0 {
                worth += pass.worth as u64;
            }
        }
        worth
    }
}

// What a pass is worth, and what passes are worth on average, half of each, for one of so many dishes.
// Kept: by index, as the room is an array, of which the front is used.
fn strides_of(passes: &[Pass], dishes: usize) -> [u64; WIDE_PASSES]
    requires few_passes { length passes.now ≤ WIDE_PASSES }
    ensures { (i : ℕ) → i < length passes.now → slice_index result i < 2 ^ 50 }
{
    let mean = mean_price(passes);
    let mut strides = [0; WIDE_PASSES];
    for (i, pass) in passes.iter().enumerate() {
        strides[i] = (full_price(pass) + mean) / 2 / (dishes as u64).max(1);
    }
    strides
}

// What a pass is worth on average, in the parts that prices are counted in.
fn mean_price(passes: &[Pass]) -> u64
    requires few_passes { length passes.now ≤ WIDE_PASSES }
    ensures { result < 2 ^ 50 }
{
    let mut total = 0;
    for pass in passes {
        total += full_price(pass);
    }
    total / (passes.len() as u64).max(1)
}
