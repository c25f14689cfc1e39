// A best plan for a night.
#![tactic(auto)]

mod laws;
mod planning;
mod ruled;
mod scheduling;

pub use laws::{
    each_is_night_stands, has_best_stands, more_dishes_stands, one_more_stands, rounding_up_stands,
    side_by_side_stands, station_is_night_stands,
};
pub use planning::{Counted, Done, PLACES, plan, plan_counted, plan_taken, try_plan};
pub use ruled::{SeenState, best_by, best_of_station};
pub use scheduling::{FreeFrom, Scheduling};

#[cfg(test)]
mod tests {
    use super::*;
    use engine::{Gained, Summed, gain_most};
    use passes::{Night, Pass, Refusal};
    use pruning::{WIDE_PASSES, WideNight};
    use std::array;
    use std::test::Fail;

    // Five passes that any dish may follow.
    const FIVE: [[u32; 4]; 5] = [
        [0, 10, 5, 15],
        [5, 15, 9, 15],
        [12, 20, 6, 15],
        [16, 25, 4, 15],
        [21, 30, 7, 15],
    ];

    // Three passes, which dishes 0, 0 and 1 may follow.
    const MARKED: [u32; 12] = [0, 10, 5, 1, 5, 15, 9, 1, 12, 20, 6, 2];

    // One long pass, and two that it overlaps.
    const LONG: [[u32; 4]; 3] = [[0, 900, 9, 15], [10, 400, 8, 15], [500, 890, 8, 15]];

    // Two passes that all dishes hear, and while they last one that only dishes 0 and 1 hear.
    const HEARD_BY_TWO: [[u32; 4]; 3] = [[0, 600, 5, 15], [10, 600, 5, 15], [60, 500, 1, 3]];

    // The same with dishes 2 and 3, so that neither the first dish nor the last that hears a pass will do for all.
    const HEARD_BY_OTHERS: [[u32; 4]; 3] = [[0, 600, 5, 15], [10, 600, 5, 15], [60, 500, 1, 12]];

    // What is planned for passes, four numbers each.
    fn planned(
        rt: &HostRuntime,
        dishes: u64,
        turn: u64,
        passes: &[[u32; 4]],
    ) -> Result<Done, Fail> {
        let numbers = passes.as_flattened();
        let mut room = vec![in rt.alloc(); 9; passes.len()]?;
        Ok(plan(dishes, turn, numbers, room.as_mut_slice()))
    }

    #[test]
    fn worths(rt: HostRuntime) -> Result<(), Fail> {
        assert_eq!(rt; planned(&rt, 1, 0, &FIVE)?, Done::Planned(18));
        assert_eq!(rt; planned(&rt, 1, 3, &FIVE)?, Done::Planned(16));
        assert_eq!(rt; planned(&rt, 2, 0, &FIVE)?, Done::Planned(31));
        assert_eq!(rt; planned(&rt, 2, 3, &FIVE)?, Done::Planned(25));
        assert_eq!(rt; planned(&rt, 1, 0, &LONG)?, Done::Planned(16));
        assert_eq!(rt; planned(&rt, 4, 60, &HEARD_BY_TWO)?, Done::Planned(11));
        assert_eq!(rt; planned(&rt, 4, 60, &HEARD_BY_OTHERS)?, Done::Planned(11));
        assert_eq!(rt; planned(&rt, 1, 0, &[])?, Done::Planned(0));
        Ok(())
    }

    #[test]
    fn the_plan_is_left(rt: HostRuntime) {
        let mut room = [9; 3];
        assert_eq!(rt; plan(2, 0, &MARKED, &mut room), Done::Planned(15));
        assert_eq!(rt; room, [0, 1, 2]);
    }

    #[test]
    fn turned_away(rt: HostRuntime) {
        let mut room = [9; 3];
        assert_eq!(rt; plan(0, 0, &MARKED, &mut room), Done::Refused(1));
        assert_eq!(rt; plan(2, 100_001, &MARKED, &mut room), Done::Refused(1));
        assert_eq!(rt; plan(2, 0, &MARKED[0..11], &mut room), Done::Refused(2));
        assert_eq!(rt; plan(2, 0, &MARKED[0..8], &mut room), Done::Refused(3));
        assert_eq!(rt;
            try_plan(2, 100_001, &MARKED, &mut room),
            Err(Refusal::BadTurning)
        );
        assert_eq!(rt;
            try_plan(2, 0, &MARKED[0..11], &mut room),
            Err(Refusal::BadPass(2))
        );
        assert_eq!(rt;
            try_plan(2, 0, &MARKED[0..8], &mut room),
            Err(Refusal::BadRoom(3))
        );
        assert_eq!(rt; room, [9; 3]);
    }

    #[test]
    fn a_room_turned_away(rt: HostRuntime) -> Result<(), Fail> {
        let night = Night::read(2, 0, &MARKED).map_err(|_| "not read")?;
        let mut room = [9; 4];
        assert_eq!(rt; plan_taken(&night, &mut room), Err(Refusal::BadRoom(4)));
        assert_eq!(rt; room, [9; 4]);
        assert_eq!(rt; plan_taken(&night, &mut room[..3]), Ok(15));
        Ok(())
    }

    // Passes that begin so many seconds apart and last so long or up to twice as long, with lengths, worths and marks that look like no pattern.
    fn scattered(apart: u32, length: u32, steps: [u32; 2], marks: [u32; 3]) -> [[u32; 4]; 48] {
        array::from_fn(|i| {
            // Kept: the proof of a closure doesn't know how far `i` goes, so nothing is added or multiplied that could overflow.
            let i = (i % 48) as u32;
            let square = i.wrapping_mul(i);
            let from = i.wrapping_mul(apart);
            let more = (square.wrapping_mul(steps[0]) % 97).wrapping_mul(length) / 97;
            let to = from.wrapping_add(length).wrapping_add(more);
            let mixed = square
                .wrapping_mul(steps[1])
                .wrapping_add(i.wrapping_mul(7));
            [from, to, 1 + mixed % 100, marks[square as usize % 7 % 3]]
        })
    }

    // Lists that are hard to plan. Without one of the cuts many more states are visited.
    #[test]
    fn few_states_are_visited(rt: HostRuntime) -> Result<(), Fail> {
        for (passes, worth, visited) in [
            (scattered(100, 900, [113, 73], [3, 5, 15]), 1075, 812),
            (scattered(60, 300, [37, 61], [15, 7, 14]), 1366, 1198),
            (scattered(200, 900, [89, 61], [15, 7, 14]), 1609, 785),
            (scattered(100, 600, [113, 61], [15, 7, 14]), 1273, 850),
            // here the first plan turns out to be a best one at once
            (scattered(100, 600, [113, 97], [15, 15, 15]), 1134, 0),
        ] {
            let mut room = vec![in rt.alloc(); 9; 48]?;
            assert_eq!(rt;
                plan_counted(4, 90, passes.as_flattened(), room.as_mut_slice()),
                Ok(Counted { worth, visited })
            );
        }
        Ok(())
    }

    // What the plain search gains at most by dishes that take so long to turn, and how many states it visits for it.
    fn gained(turns: &[u32], passes: &[Pass]) -> Option<Gained> {
        let night = WideNight::new(turns, passes)?;
        let count = passes.len();
        let problem = Summed {
            gains: Scheduling::new(night),
        };
        let mut made = [0; WIDE_PASSES];
        let mut room = [9; WIDE_PASSES];
        Some(gain_most(&problem, &mut made[..count], &mut [], &mut room[..count]))
    }

    #[test]
    fn the_plain_search(rt: HostRuntime) {
        let pass = |from, to| Pass {
            from,
            to,
            worth: 1,
            marks: 1,
        };
        let passes = [pass(0, 10), pass(10, 20), pass(20, 30)];
        // a dish that doesn't have to turn follows all, and one that does every other one
        for (turn, most, visited) in [(0, 3, 5), (1, 2, 5)] {
            let most = Some(most);
            assert_eq!(rt; gained(&[turn], &passes), Some(Gained { most, visited }));
        }
    }
}
