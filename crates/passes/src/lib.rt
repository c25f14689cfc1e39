// Passes of satellites over a station with dishes: which inputs are turned away and where, and whether a plan of who follows what is
// good, and what it is worth.
#![tactic(auto)]

ghost use Rattle.std.specs.Prelude.{◌<◌, ◌≤◌};

mod judging;
mod laws;
mod model;
mod nights;
mod reading;
mod refusals;

pub use judging::{Fault, Flaw, Verdict, judge};
pub use laws::{place_stands, rule_stands, taken_stands, touching_stands, verdict_stands};
pub use model::{MAX_MARKS, MAX_SECOND, MAX_WORTH, OutOfRange, Pass, Station};
pub use nights::{MAX_DISHES, MAX_PASSES, Night};
pub use refusals::Refusal;

#[cfg(test)]
mod tests {
    use super::*;
    use std::array;
    use std::test::Fail;

    // Five passes that any dish may follow, four numbers each.
    const FIVE: [u32; 20] = [
        0, 10, 5, 15, // pass 0
        5, 15, 9, 15, // pass 1
        12, 20, 6, 15, // pass 2
        16, 25, 4, 15, // pass 3
        21, 30, 7, 15, // pass 4
    ];

    // The first three of them, with marks of dishes 0, 0 and 1.
    const MARKED: [u32; 12] = [
        0, 10, 5, 1, // pass 0
        5, 15, 9, 1, // pass 1
        12, 20, 6, 2, // pass 2
    ];

    const TOUCHING: [u32; 8] = [0, 10, 5, 15, 10, 20, 5, 15];

    // What is said of a good plan.
    fn good(worth: u64) -> Result<Verdict, Refusal> {
        Ok(Ok(worth))
    }

    // What is said of one that isn't.
    fn bad(pass: usize, fault: Fault) -> Result<Verdict, Refusal> {
        Ok(Err(Flaw { pass, fault }))
    }

    #[test]
    fn good_plans(rt: HostRuntime) {
        assert_eq!(rt; judge(1, 0, &FIVE, &[1, 0, 1, 0, 1]), good(18));
        assert_eq!(rt; judge(1, 3, &FIVE, &[0, 1, 0, 0, 1]), good(16));
        assert_eq!(rt; judge(2, 0, &FIVE, &[2, 1, 2, 1, 2]), good(31));
        assert_eq!(rt; judge(2, 3, &FIVE, &[2, 1, 0, 2, 1]), good(25));
        assert_eq!(rt; judge(2, 0, &MARKED, &[0, 1, 2]), good(15));
        assert_eq!(rt; judge(1, 0, &[], &[]), good(0));
    }

    #[test]
    fn bad_plans(rt: HostRuntime) {
        let may_not = Fault::MayNotFollow;
        assert_eq!(rt; judge(2, 0, &MARKED, &[1, 0, 1]), bad(2, may_not));
        // a mark of a dish that isn't there doesn't count
        assert_eq!(rt; judge(1, 0, &MARKED, &[0, 0, 2]), bad(2, Fault::NoSuchDish));
        assert_eq!(rt; judge(1, 0, &MARKED, &[0, 0, 1]), bad(2, may_not));
        assert_eq!(rt;
            judge(4, 0, &FIVE, &[0, 255, 0, 0, 0]),
            bad(1, Fault::NoSuchDish)
        );
        // of several faults the first pass, and of several near ones the first other
        assert_eq!(rt;
            judge(2, 0, &FIVE, &[0, 1, 1, 1, 3]),
            bad(1, Fault::TooNear(2))
        );
        assert_eq!(rt;
            judge(1, 7, &FIVE, &[1, 0, 1, 0, 1]),
            bad(0, Fault::TooNear(2))
        );
    }

    #[test]
    fn touching_passes(rt: HostRuntime) {
        assert_eq!(rt; judge(1, 0, &TOUCHING, &[1, 1]), good(10));
        assert_eq!(rt; judge(1, 1, &TOUCHING, &[1, 1]), bad(0, Fault::TooNear(1)));
        assert_eq!(rt; judge(2, 1, &TOUCHING, &[2, 1]), good(10));
        assert_eq!(rt; judge(1, 1, &TOUCHING, &[0, 1]), good(5));
    }

    #[test]
    fn stations_turned_away(rt: HostRuntime) {
        assert_eq!(rt; judge(0, 0, &FIVE, &[0; 5]), Err(Refusal::BadDishes));
        assert_eq!(rt; judge(5, 0, &FIVE, &[0; 5]), Err(Refusal::BadDishes));
        assert_eq!(rt; judge(4, 100_001, &FIVE, &[0; 5]), Err(Refusal::BadTurning));
        assert_eq!(rt;
            judge(u64::MAX, u64::MAX, &FIVE, &[0; 5]),
            Err(Refusal::BadDishes)
        );
        // before the passes, and these before the room
        assert_eq!(rt; judge(1, 100_001, &[7], &[0; 5]), Err(Refusal::BadTurning));
        assert_eq!(rt; judge(1, 0, &[7], &[0; 5]), Err(Refusal::BadPass(0)));
        assert_eq!(rt; judge(1, 0, &FIVE, &[0; 4]), Err(Refusal::BadRoom(4)));
        assert_eq!(rt; judge(4, 100_000, &FIVE, &[0; 5]), good(0));
    }

    // One pass, then a second one.
    fn second(from: u32, to: u32, worth: u32, marks: u32) -> [u32; 8] {
        [5, 10, 1, 15, from, to, worth, marks]
    }

    #[test]
    fn passes_turned_away(rt: HostRuntime) {
        let at_1 = Err(Refusal::BadPass(1));
        assert_eq!(rt;
            judge(1, 0, &second(5, 1_000_000, 1_000_000, 15), &[0, 1]),
            good(1_000_000)
        );
        assert_eq!(rt;
            judge(1, 0, &second(4, 10, 1, 15), &[0; 2]),
            at_1,
            "before the one before it"
        );
        assert_eq!(rt;
            judge(1, 0, &second(10, 10, 1, 15), &[0; 2]),
            at_1,
            "no end after its begin"
        );
        assert_eq!(rt;
            judge(1, 0, &second(5, 1_000_001, 1, 15), &[0; 2]),
            at_1,
            "ends too late"
        );
        assert_eq!(rt;
            judge(1, 0, &second(5, 10, 1_000_001, 15), &[0; 2]),
            at_1,
            "worth too much"
        );
        assert_eq!(rt;
            judge(1, 0, &second(5, 10, 1, 16), &[0; 2]),
            at_1,
            "marks of a fifth dish"
        );
        assert_eq!(rt;
            judge(1, 0, &[10, 5, 1, 15, 0, 0, 0, 99], &[0; 2]),
            Err(Refusal::BadPass(0)),
            "two at fault"
        );
        assert_eq!(rt; judge(1, 0, &[0, 1, 2, 3, 4, 5, 6], &[0]), at_1, "cut off");
    }

    // Passes each of which ends as the next one begins.
    fn chain<const N: usize>() -> [[u32; 4]; N]
        requires { N ≤ 49 }
    {
        array::from_fn(
            |i| -> [u32; 4]
                requires { i < 49 }
            {
                let from = 10 * i as u32;
                [from, from + 10, 1_000_000, 15]
            },
        )
    }

    #[test]
    fn long_lists(rt: HostRuntime) -> Result<(), Fail> {
        assert_eq!(rt;
            judge(1, 0, chain::<48>().as_flattened(), &[1; 48]),
            good(48_000_000)
        );
        let mut passes = chain::<49>();
        let numbers = passes.as_flattened();
        assert_eq!(rt; judge(1, 0, numbers, &[1; 49]), Err(Refusal::BadPass(48)));
        // a fault further on doesn't matter, and one further in front does
        let cut_off = numbers.get(..193).ok_or("too short")?;
        assert_eq!(rt; judge(1, 0, cut_off, &[1; 49]), Err(Refusal::BadPass(48)));
        passes[7][3] = 16;
        assert_eq!(rt;
            judge(1, 0, passes.as_flattened(), &[1; 49]),
            Err(Refusal::BadPass(7))
        );
        Ok(())
    }

    // How many dishes a night has that is read for a room of this length, how long they take to turn, and how many passes there are.
    fn read_for_room(dishes: u64, turn: u64, room: usize) -> Result<(u8, u32, usize), Refusal> {
        let night = Night::read_for_room(dishes, turn, &FIVE, room)?;
        Ok((
            night.station().dishes,
            night.station().turn,
            night.passes().len(),
        ))
    }

    #[test]
    fn rooms(rt: HostRuntime) {
        assert_eq!(rt; read_for_room(2, 3, 5), Ok((2, 3, 5)));
        assert_eq!(rt; read_for_room(2, 3, 4), Err(Refusal::BadRoom(4)));
        assert_eq!(rt; read_for_room(5, 3, 4), Err(Refusal::BadDishes));
        assert_eq!(rt; read_for_room(2, 100_001, 4), Err(Refusal::BadTurning));
    }

    #[test]
    fn numbers_and_places(rt: HostRuntime) {
        let table = [
            (Refusal::BadDishes, 1, 0),
            (Refusal::BadTurning, 1, 1),
            (Refusal::BadPass(7), 2, 7),
            (Refusal::BadRoom(3), 3, 3),
        ];
        for (refusal, number, place) in table {
            assert_eq!(rt; refusal.number(), number);
            assert_eq!(rt; refusal.place(), place);
        }
    }
}
