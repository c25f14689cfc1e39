// Small problems: one of which some sizes have no run at all, and one of which most is left out.
ghost use Rattle.std.specs.Prelude.{◌+◌, ◌-◌, ◌*◌, ◌^◌, ◌%◌, ◌<◌, cond, not, ◌&&◌, ◌==◌, Some, None, nat_le, nat_lt};
ghost use Rattle.std.proofs.Common.{arith};
ghost use Rattle.std.proofs.lemmas.Bool.Decides.{nat_tests};

use super::*;

// Numbers below three, each above the one before it. The state is one more than the last, and the lower one is ahead.
#[derive(Drop)]
struct Rising {
    stages: usize,
}

impl Decisions for Rising {
    type State = u8;

    ghost moves = { λ p. record {
      stages = p.stages;
      choices = λ i. 3;
      start = 0;
      step = λ i c s. cond (nat_lt c 3 && nat_le s c) (Some (c + 1)) None;
      fine = λ i s. s < 4;
    } };

    ghost move_laws = { λ p valid. record {
      fine_start = Prim.grind (arith, nat_tests);
      fine_step = λ i c s t l fine h. Prim.grind (arith, nat_tests);
      offered = λ i c s t l fine h. Prim.grind (arith, nat_tests);
    } };

    fn lawful(&self) {}

    fn stages(&self) -> usize {
        self.stages
    }

    fn choices(&self, _stage: usize) -> u8 {
        3
    }

    fn start(&self) -> u8 {
        0
    }

    fn step(&self, _stage: usize, choice: u8, state: u8) -> Option<u8> {
        (choice >= state).then_some(choice + 1)
    }
}

impl Problem for Rising {
    ghost ahead = { λ p s t. nat_lt s t };

    ghost order_laws = { λ p valid. record {
      not_itself = λ s. Prim.grind (arith, nat_tests);
      onward = λ s t u h k. Prim.grind (arith, nat_tests);
    } };

    fn is_ahead(&self, state: u8, other: u8) -> bool {
        state < other
    }
}

// Six stages, worth 3, 2 and 1 by turns, of which some are chosen, no two next to one another. The state is 1 after one that was.
#[derive(Drop)]
struct Apart;

impl Decisions for Apart {
    type State = u8;

    ghost moves = { λ p. record {
      stages = 6;
      choices = λ i. 2;
      start = 0;
      step = λ i c s. cond (nat_lt (c + s) 2) (Some c) None;
      fine = λ i s. s < 2;
    } };

    ghost move_laws = { λ p valid. record {
      fine_start = Prim.grind (arith, nat_tests);
      fine_step = λ i c s t l fine h. Prim.grind (arith, nat_tests);
      offered = λ i c s t l fine h. Prim.grind (arith, nat_tests);
    } };

    fn lawful(&self) {}

    fn stages(&self) -> usize {
        6
    }

    fn choices(&self, _stage: usize) -> u8 {
        2
    }

    fn start(&self) -> u8 {
        0
    }

    fn step(&self, _stage: usize, choice: u8, state: u8) -> Option<u8> {
        (choice + state < 2).then_some(choice)
    }
}

impl Gains for Apart {
    ghost gain = { λ p i c s. cond (nat_lt 0 c) (3 - i % 3) 0 };

    ghost most = { λ p. 3 };

    ghost sum_laws = { λ p valid. record {
      at_most = λ i c s t l fine h. Prim.grind (arith, nat_tests);
      fits = Prim.omega arith;
    } };

    fn gain(&self, stage: usize, choice: u8, _state: u8) -> u64 {
        if choice > 0 { 3 - stage as u64 % 3 } else { 0 }
    }

    fn bound(&self, stage: usize, _state: u8) -> u64 {
        (6 - stage as u64) * 3
    }

    fn covers(&self, _stage: usize, seen: u8, state: u8) -> bool {
        seen == state
    }

    fn slot(&self, stage: usize, state: u8) -> u64 {
        2 * stage as u64 + u64::from(state)
    }
}

// Coins of one worth, of which each is taken or left. All of them together fit 64 bits, since the worth fits 32 bits and their number 8.
#[derive(Clone, Copy, Drop)]
struct Coins {
    worth: u32,
    count: u8,
}

// What all coins together are worth fits 64 bits.
fn all_fit(worth: u32, count: u8)
    ensures { count * worth < 2 ^ 64 }
{}

impl Decisions for Coins {
    type State = ();

    ghost moves = { λ p. record {
      stages = p.count;
      choices = λ i. 2;
      start = tt;
      step = λ i c s. cond (nat_lt c 2) (Some tt) None;
      fine = λ i s. Unit {0};
    } };

    ghost valid = { λ p. p.count * p.worth < 2 ^ 64 };

    fn lawful(&self) {
        all_fit(self.worth, self.count);
    }

    ghost move_laws = { λ p valid. record {
      fine_start = tt;
      fine_step = λ i c s t l fine h. tt;
      offered = λ i c s t l fine h. Prim.grind (arith, nat_tests);
    } };

    fn stages(&self) -> usize {
        self.count as usize
    }

    fn choices(&self, _stage: usize) -> u8 {
        2
    }

    fn start(&self) {}

    fn step(&self, _stage: usize, choice: u8, _state: ()) -> Option<()> {
        (choice < 2).then_some(())
    }
}

impl Gains for Coins {
    ghost gain = { λ p i c s. cond (nat_lt 0 c) p.worth 0 };

    ghost most = { λ p. p.worth };

    ghost sum_laws = { λ p valid. record {
      at_most = λ i c s t l fine h. Prim.grind (arith, nat_tests);
      fits = valid;
    } };

    fn gain(&self, _stage: usize, choice: u8, _state: ()) -> u64 {
        if choice > 0 { self.worth as u64 } else { 0 }
    }

    fn bound(&self, stage: usize, _state: ()) -> u64 {
        self.lawful();
        (self.count as u64 - stage as u64) * self.worth as u64
    }
}

#[test]
fn the_most_of_coins(rt: HostRuntime) {
    for (worth, count, most) in [
        (0, 3, 0),
        (7, 0, 0),
        (7, 3, 21),
        (u32::MAX, 4, 17_179_869_180),
    ] {
        let problem = Summed {
            gains: Coins { worth, count },
        };
        let mut made = [7; 4];
        let mut room = [9; 4];
        let stages = count as usize;
        assert_eq!(rt;
            gain_most(&problem, &mut made[..stages], &mut [], &mut room[..stages]).most,
            Some(most)
        );
    }
}

#[test]
fn the_lowest_rising_numbers(rt: HostRuntime) {
    for (stages, best, left, visited) in [
        (0, Some(0), [9, 9, 9, 9], 1),
        (2, Some(2), [0, 1, 9, 9], 7),
        (3, Some(3), [0, 1, 2, 9], 8),
        // there are only three numbers: no run at all, and the room is as it was
        (4, None, [9, 9, 9, 9], 8),
    ] {
        let mut made = [7; 4];
        let mut room = [9; 4];
        let problem = Rising { stages };
        assert_eq!(rt;
            search(&problem, &mut made[..stages], &mut [], &mut room[..stages]),
            Searched { best, visited }
        );
        assert_eq!(rt; room, left);
        // nothing in the table covers anything, so it changes nothing
        assert_eq!(rt;
            search(
                &problem,
                &mut made[..stages],
                &mut [None; 4],
                &mut room[..stages]
            ),
            Searched { best, visited }
        );
        assert_eq!(rt; room, left);
    }
}

#[test]
fn the_most_without_neighbours(rt: HostRuntime) {
    let problem = Summed { gains: Apart };
    let mut seen = [None; 4];
    // with no table, 53 states are visited without the bound, and 44 without the first choice; the last table holds what the search before it left there
    for (places, run, visited) in [
        (0, [9; 6], 30),
        (4, [9; 6], 17),
        (4, [9; 6], 17),
        // the room holds a run: the worst one, no run since two neighbours are chosen, and the best one
        (4, [0; 6], 17),
        (4, [1, 1, 0, 0, 0, 0], 17),
        (4, [1, 0, 0, 1, 0, 1], 14),
    ] {
        let mut made = [7; 6];
        let mut room = run;
        assert_eq!(rt;
            gain_most(&problem, &mut made, &mut seen[..places], &mut room),
            Gained {
                most: Some(7),
                visited
            }
        );
        assert_eq!(rt; room, [1, 0, 0, 1, 0, 1]);
    }
}

// One choice alone is accepted at a stage, and any at the others.
#[derive(Clone, Copy, Drop)]
struct Only {
    stage: usize,
    choice: u8,
}

impl Rule for Only {
    type State = ();

    ghost automaton = { λ r. record { start = tt; step = λ i c s. cond (i == r.stage && not (c == r.choice)) None (Some tt) } };

    fn start(&self) {}

    fn step(&self, stage: usize, choice: u8, _state: ()) -> Option<()> {
        (stage != self.stage || choice == self.choice).then_some(())
    }

    fn grants(&self, _stage: usize, _seen: (), _state: ()) -> bool {
        true
    }
}

#[test]
fn the_most_by_rules(rt: HostRuntime) {
    let only = |stage, choice| Only { stage, choice };
    for (one, other, most, left) in [
        // without the dearest one in the middle
        (only(3, 0), only(3, 0), Some(6), [1, 0, 1, 0, 1, 0]),
        // and with a cheap one
        (only(3, 0), only(1, 1), Some(4), [0, 1, 0, 0, 1, 0]),
        // two next to one another, and a choice that there isn't: no run at all
        (only(3, 1), only(4, 1), None, [9; 6]),
        (only(0, 2), only(3, 0), None, [9; 6]),
    ] {
        let problem = Ruled {
            problem: Summed { gains: Apart },
            rule: Together { one, other },
        };
        let mut made = [7; 6];
        let mut room = [9; 6];
        let gained = gain_most_by(&problem, &mut made, &mut [None; 4], &mut room);
        assert_eq!(rt; gained.most, most);
        assert_eq!(rt; room, left);
    }
}
