// How many passes hold a dish at once, a best plan for one dish alone, and dishes given to passes that all of them may follow.
#![tactic(auto)]

mod alone;
mod assigning;
mod counting;
mod laws;

pub use alone::{OneDish, plan_one_dish};
pub use assigning::{Unassigned, assign_all};
pub use counting::{Peak, busiest};
pub use laws::all_followed_stands;

#[cfg(test)]
mod tests {
    use super::*;
    use passes::{Night, Pass, Refusal};
    use std::test::Fail;

    // Five passes that any dish may follow: from, to, worth, marks.
    const FIVE: [[u32; 4]; 5] = [
        [0, 10, 5, 15],
        [5, 15, 9, 15],
        [12, 20, 6, 15],
        [16, 25, 4, 15],
        [21, 30, 7, 15],
    ];

    // Forty-eight passes of one second, all the same.
    const EQUAL: [[u32; 4]; 48] = [[0, 1, 1, 15]; 48];

    // Three passes, which dishes 0, 0 and 1 may follow.
    const MARKED: [[u32; 4]; 3] = [[0, 10, 5, 1], [5, 15, 9, 1], [12, 20, 6, 2]];

    // Two passes, one of which ends as the other begins.
    const TOUCHING: [[u32; 4]; 2] = [[0, 10, 5, 15], [10, 20, 5, 15]];

    // The busiest second of a list.
    fn peak(turn: u64, passes: &[[u32; 4]]) -> Result<Peak, Refusal> {
        let night = Night::read(1, turn, passes.as_flattened())?;
        Ok(busiest(night.passes(), night.station().turn))
    }

    #[test]
    fn busiest_seconds(rt: HostRuntime) {
        let cases = [
            (peak(0, &FIVE), 5, 2),
            (peak(3, &FIVE), 12, 3),
            // only the turning after the first pass meets the second
            (peak(0, &[[0, 10, 1, 1], [12, 20, 1, 1]]), 0, 1),
            (peak(3, &[[0, 10, 1, 1], [12, 20, 1, 1]]), 12, 2),
            (peak(0, &TOUCHING), 0, 1),
            (peak(1, &TOUCHING), 10, 2),
            (peak(100_000, &[]), 0, 0),
            (peak(0, &[[7, 9, 4, 0]]), 7, 1),
            (peak(0, &EQUAL), 0, 48),
        ];
        for (found, second, count) in cases {
            assert_eq!(rt; found, Ok(Peak { second, count }));
        }
    }

    // A pass that dish 0 may follow.
    fn pass(from: u32, to: u32) -> Pass {
        Pass {
            from,
            to,
            worth: 1,
            marks: 1,
        }
    }

    #[test]
    fn busiest_in_any_order(rt: HostRuntime) {
        let passes = [pass(20, 30), pass(5, 10), pass(22, 24), pass(7, 9)];
        assert_eq!(rt;
            busiest(&passes, 0),
            Peak {
                second: 7,
                count: 2,
            }
        );
    }

    // The plan of one dish, and what it is worth.
    fn planned<const N: usize>(
        turn: u64,
        passes: &[[u32; 4]; N],
    ) -> Result<(u64, [u8; N]), Refusal> {
        let mut room = [9; N];
        let worth = plan_one_dish(turn, passes.as_flattened(), &mut room)?;
        Ok((worth, room))
    }

    #[test]
    fn one_dish(rt: HostRuntime) -> Result<(), Fail> {
        // the dearest first would get 16
        assert_eq!(rt; planned(0, &FIVE), Ok((18, [1, 0, 1, 0, 1])));
        // the first to end first would get 9
        assert_eq!(rt; planned(3, &FIVE), Ok((16, [0, 1, 0, 0, 1])));
        assert_eq!(rt; planned(0, &TOUCHING), Ok((10, [1, 1])));
        assert_eq!(rt; planned(1, &TOUCHING), Ok((5, [0, 1])));
        // marks of dishes that aren't there don't count
        assert_eq!(rt;
            planned(0, &[[0, 10, 5, 15], [10, 20, 5, 14]]),
            Ok((5, [1, 0]))
        );
        assert_eq!(rt; planned(0, &[]), Ok((0, [])));
        assert_eq!(rt; planned(0, &[[7, 9, 4, 1]]), Ok((4, [1])));
        let (worth, room) = planned(0, &EQUAL)?;
        assert_eq!(rt; worth, 1);
        assert_eq!(rt; room[46], 0);
        assert_eq!(rt; room[47], 1);
        Ok(())
    }

    #[test]
    fn turned_away(rt: HostRuntime) -> Result<(), Fail> {
        let mut room = [9; 5];
        assert_eq!(rt;
            plan_one_dish(100_001, FIVE.as_flattened(), &mut room),
            Err(Refusal::BadTurning)
        );
        assert_eq!(rt; plan_one_dish(0, &[7], &mut room), Err(Refusal::BadPass(0)));
        assert_eq!(rt;
            plan_one_dish(0, MARKED.as_flattened(), &mut room),
            Err(Refusal::BadRoom(5))
        );
        let night = Night::read(2, 0, MARKED.as_flattened())?;
        assert_eq!(rt;
            assign_all(&night, &mut room),
            Err(Unassigned::TurnedAway(Refusal::BadRoom(5)))
        );
        assert_eq!(rt; room, [9; 5]);
        Ok(())
    }

    // What comes of giving dishes to all passes, and the room.
    fn assigned<const N: usize>(
        dishes: u64,
        turn: u64,
        passes: &[[u32; 4]; N],
    ) -> Result<(Result<(), Unassigned>, [u8; N]), Refusal> {
        let night = Night::read(dishes, turn, passes.as_flattened())?;
        let mut room = [9; N];
        let all = assign_all(&night, &mut room);
        Ok((all, room))
    }

    #[test]
    fn all_dishes(rt: HostRuntime) {
        assert_eq!(rt; assigned(2, 0, &FIVE), Ok((Ok(()), [1, 2, 1, 2, 1])));
        assert_eq!(rt; assigned(3, 3, &FIVE), Ok((Ok(()), [1, 2, 3, 1, 2])));
        // too many only with the turning
        assert_eq!(rt;
            assigned(2, 3, &FIVE),
            Ok((Err(Unassigned::TooMany(12)), [9; 5]))
        );
        assert_eq!(rt;
            assigned(1, 0, &FIVE),
            Ok((Err(Unassigned::TooMany(5)), [9; 5]))
        );
        // a plan that gives dishes as they come would let the last pass go
        assert_eq!(rt;
            assigned(2, 0, &MARKED),
            Ok((Err(Unassigned::NotOpen(0)), [9; 3]))
        );
        assert_eq!(rt;
            assigned(1, 0, &MARKED),
            Ok((Err(Unassigned::NotOpen(2)), [9; 3]))
        );
        assert_eq!(rt; assigned(1, 0, &[]), Ok((Ok(()), [])));
        assert_eq!(rt; assigned(1, 0, &[[7, 9, 4, 1]]), Ok((Ok(()), [1])));
        assert_eq!(rt;
            assigned(4, 0, &EQUAL),
            Ok((Err(Unassigned::TooMany(0)), [9; 48]))
        );
    }
}
