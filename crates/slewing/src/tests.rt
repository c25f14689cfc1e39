use super::*;
use passes::{Night, Refusal};
use planner::{Counted, Done};
use std::array;
use std::test::Fail;

// Five passes that any dish may follow, and where they begin and end.
const FIVE: [[u32; 4]; 5] = [
    [0, 10, 5, 15],
    [5, 15, 9, 15],
    [12, 20, 6, 15],
    [16, 25, 4, 15],
    [21, 30, 7, 15],
];

const AROUND: [[u32; 2]; 5] = [[0, 2], [60, 1], [3, 63], [1, 5], [2, 2]];

#[test]
fn shorter_way(rt: HostRuntime) {
    for (from, to, least) in [
        (0, 31, 31),
        (0, 32, 32),
        (0, 33, 31),
        (63, 0, 1),
        (40, 8, 32),
        (40, 7, 31),
        (5, 5, 0),
    ] {
        assert_eq!(rt; steps(from, to), least);
        assert_eq!(rt; steps(to, from), least);
    }
}

// What one dish that doesn't turn otherwise plans for two passes, of which the first ends in second 10.
fn two(from: u32, step: u64, directions: [u32; 4]) -> Done {
    let passes = [0, 10, 5, 1, from, 1_000_000, 5, 1];
    plan_slewing(1, 0, &passes, step, &directions, &mut [9; 2])
}

// The dish is just in time for the second pass, or a second late.
#[test]
fn in_time(rt: HostRuntime) {
    for (from, step, directions, worth) in [
        (134, 4, [0, 0, 31, 31], 10),
        (133, 4, [0, 0, 31, 31], 5),
        (138, 4, [0, 0, 32, 32], 10),
        (137, 4, [0, 0, 32, 32], 5),
        (134, 4, [0, 0, 33, 33], 10),
        (133, 4, [0, 0, 33, 33], 5),
        (14, 4, [0, 63, 0, 0], 10),
        (13, 4, [0, 63, 0, 0], 5),
        // it comes from where the first pass ends, to where the second one begins
        (10, 4, [0, 32, 32, 0], 10),
        (10, 4, [32, 0, 32, 0], 5),
        (10, 0, [0, 0, 32, 32], 10),
        (10, 1_000_000, [1, 7, 7, 1], 10),
        (999_999, 1_000_000, [1, 7, 8, 1], 5),
    ] {
        assert_eq!(rt; two(from, step, directions), Done::Planned(worth));
    }
}

// A dish goes round with the second pass, so that it is where the third one begins, though it couldn't have come there from the first one.
#[test]
fn each_and_next(rt: HostRuntime) {
    let passes = [0, 10, 1, 1, 10, 11, 1, 1, 11, 20, 1, 1];
    let mut room = [9; 3];
    let done = plan_slewing(1, 0, &passes, 4, &[0, 0, 0, 32, 32, 32], &mut room);
    assert_eq!(rt; done, Done::Planned(3));
    assert_eq!(rt; room, [1; 3]);
}

#[test]
fn five(rt: HostRuntime) {
    for (dishes, turn, step, worth) in [
        (2, 3, 0, 25),
        (2, 0, 1, 27),
        (2, 0, 1_000_000, 25),
        (2, 3, 1_000_000, 21),
        (4, 0, 1, 31),
        (1, 0, 4, 16),
        (1, 0, 1_000_000, 13),
    ] {
        let mut room = [9; 5];
        let done = plan_slewing(
            dishes,
            turn,
            FIVE.as_flattened(),
            step,
            AROUND.as_flattened(),
            &mut room,
        );
        assert_eq!(rt; done, Done::Planned(worth));
    }
}

#[test]
fn turned_away(rt: HostRuntime) {
    let numbers = FIVE.as_flattened();
    let mut bad = AROUND;
    bad[1] = [63, 64];
    let bad = bad.as_flattened();
    let good = AROUND.as_flattened();
    let mut room = [9; 5];
    for (turn, step, directions, length, refusal) in [
        (3, 1_000_001, bad, 5, SlewRefusal::BadStep),
        (3, 1_000_000, bad, 5, SlewRefusal::BadDirections(1)),
        (3, 4, &good[..9], 5, SlewRefusal::BadDirections(4)),
        (3, 4, &bad[..0], 5, SlewRefusal::BadDirections(0)),
        (3, 4, bad, 4, SlewRefusal::Plain(Refusal::BadRoom(4))),
        (100_001, 4, bad, 4, SlewRefusal::Plain(Refusal::BadTurning)),
    ] {
        assert_eq!(rt;
            try_plan_slewing(2, turn, numbers, step, directions, &mut room[..length]),
            Err(refusal)
        );
        assert_eq!(rt; room, [9; 5]);
    }
    for (directions, pass) in [([0; 11].as_slice(), 5), (&[64; 10], 0)] {
        let refusal = SlewRefusal::BadDirections(pass);
        assert_eq!(rt;
            try_plan_slewing(2, 3, numbers, 4, directions, &mut room),
            Err(refusal)
        );
        assert_eq!(rt; refusal.place(), pass);
        let done = plan_slewing(2, 3, numbers, 4, directions, &mut room);
        assert_eq!(rt; done, Done::Refused(5));
    }
}

#[test]
fn taken(rt: HostRuntime) -> Result<(), Fail> {
    let night = Night::read(2, 3, FIVE.as_flattened()).map_err(|_| "not read")?;
    let slewing = Slewing::read(&night, 1_000_000, AROUND.as_flattened()).map_err(|_| "not read")?;
    let mut room = [9; 5];
    assert_eq!(rt; plan_directed(&night, None, &mut [], &mut room), Ok(25));
    assert_eq!(rt;
        plan_directed(&night, Some(slewing), &mut [None; 64], &mut room),
        Ok(21)
    );
    let no_room = plan_directed(&night, Some(slewing), &mut [None; 64], &mut room[..4]);
    assert_eq!(rt; no_room, Err(SlewRefusal::Plain(Refusal::BadRoom(4))));
    Ok(())
}

// Directions of another night, which has a pass more, or one less.
#[test]
fn of_another_night(rt: HostRuntime) -> Result<(), Fail> {
    let night = Night::read(2, 3, FIVE.as_flattened()).map_err(|_| "not read")?;
    let shorter = Night::read(2, 3, &FIVE.as_flattened()[..16]).map_err(|_| "not read")?;
    let many = Slewing::read(&night, 1, AROUND.as_flattened()).map_err(|_| "not read")?;
    let few = Slewing::read(&shorter, 1, &AROUND.as_flattened()[..8]).map_err(|_| "not read")?;
    let late = plan_directed(&shorter, Some(many), &mut [], &mut [9; 4]);
    assert_eq!(rt; late, Err(SlewRefusal::BadDirections(4)));
    let early = plan_directed(&night, Some(few), &mut [], &mut [9; 5]);
    assert_eq!(rt; early, Err(SlewRefusal::BadDirections(4)));
    Ok(())
}

// 48 passes, one a minute, with lengths, worths, marks and directions that look like no pattern. How many states are visited is no promise.
#[test]
fn few_states_are_visited(rt: HostRuntime) {
    let passes: [[u32; 4]; 48] = array::from_fn(|i| {
        // Kept: the proof of a closure doesn't know how far `i` goes, so nothing is added or multiplied that could overflow.
        let i = (i % 48) as u32;
        let from = i.wrapping_mul(150);
        let mixed = i.wrapping_mul(i).wrapping_mul(61).wrapping_add(i);
        let to = from.wrapping_add(300).wrapping_add(mixed % 97 * 5);
        [from, to, 1 + mixed % 100, [15, 7, 14][mixed as usize % 3]]
    });
    let sweeps: [[u32; 2]; 48] = array::from_fn(|i| {
        let begin = ((i % 48) as u32).wrapping_mul(37) % 64;
        [begin, (begin + 25) % 64]
    });
    let mut room = [9; 48];
    assert_eq!(rt;
        try_plan_slewing(
            4,
            60,
            passes.as_flattened(),
            2,
            sweeps.as_flattened(),
            &mut room
        ),
        Ok(Counted {
            worth: 2208,
            visited: 3956
        })
    );
}
