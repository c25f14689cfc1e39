use super::*;
use engine::Together;
use passes::{Night, Pass, Refusal};
use planner::{Counted, Done, best_by};
use pruning::WideNight;
use std::array;
use std::test::Fail;

// Five passes that any dish may follow.
const FIVE: [[u32; 4]; 5] = [
    [0, 10, 5, 15],
    [5, 15, 9, 15],
    [12, 20, 6, 15],
    [16, 25, 4, 15],
    [21, 30, 7, 15],
];

// Four passes at once: two worth the same, one that only dishes other than the first may follow, and one that none may.
const TIED: [[u32; 4]; 4] = [[0, 9, 5, 1], [0, 9, 5, 15], [0, 9, 7, 14], [0, 9, 7, 0]];

// A long pass, worth 1, across three that are worth as much as may be.
const ACROSS: [[u32; 4]; 4] = [
    [0, 40, 1, 1],
    [1, 10, 1_000_000, 1],
    [11, 20, 1_000_000, 1],
    [21, 30, 1_000_000, 1],
];

// What passes need, four numbers each.
fn needed(
    rt: &HostRuntime,
    dishes: u64,
    turn: u64,
    passes: &[[u32; 4]],
) -> Result<(Done, Vec<u32>), Fail> {
    let mut room = vec![in rt.alloc(); 9; passes.len()]?;
    let mut needed = vec![in rt.alloc(); 9; passes.len()]?;
    let done = why(dishes, turn, passes.as_flattened(), &mut room, &mut needed);
    Ok((done, needed))
}

#[test]
fn what_passes_need(rt: HostRuntime) -> Result<(), Fail> {
    let (done, numbers) = needed(&rt, 2, 3, &FIVE)?;
    assert_eq!(rt; done, Done::Planned(25));
    assert_eq!(rt; numbers.as_slice(), [2, 2, 9, 1, 0].as_slice());
    let (done, numbers) = needed(&rt, 1, 0, &TIED)?;
    assert_eq!(rt; done, Done::Planned(5));
    assert_eq!(rt; numbers.as_slice(), [5, 5, NEVER, NEVER].as_slice());
    let (done, numbers) = needed(&rt, 1, 0, &ACROSS)?;
    assert_eq!(rt; done, Done::Planned(3_000_000));
    assert_eq!(rt; numbers.as_slice(), [3_000_000, 0, 0, 0].as_slice());
    Ok(())
}

#[test]
fn one_pass(rt: HostRuntime) -> Result<(), Fail> {
    let night = Night::read(2, 3, FIVE.as_flattened()).map_err(|_| "not read")?;
    let inquiry = Inquiry::new(&night);
    assert_eq!(rt; inquiry.worth(), 25);
    let seen = &mut [None; 16];
    let mut room = [9; 5];
    // with the third pass, worth 6, the night is worth 22
    assert_eq!(rt; inquiry.ask(2, seen, &mut room), Ok(Needed::Worth(9)));
    assert_eq!(rt; night.judge(&room), Ok(Ok(22)));
    // of one that is followed the plan itself is left
    assert_eq!(rt; inquiry.ask(1, seen, &mut room), Ok(Needed::Worth(2)));
    assert_eq!(rt; room.as_slice(), inquiry.plan());
    assert_eq!(rt; inquiry.ask(5, seen, &mut room), Err(Refusal::BadPass(5)));
    assert_eq!(rt;
        inquiry.ask(0, seen, &mut room[..4]),
        Err(Refusal::BadRoom(4))
    );
    assert_eq!(rt; room.as_slice(), inquiry.plan());
    Ok(())
}

// What passes need where the last one may not be followed, whatever it is worth.
#[test]
fn by_a_rule(rt: HostRuntime) -> Result<(), Fail> {
    let night = Night::read(2, 3, FIVE.as_flattened()).map_err(|_| "not read")?;
    let inquiry = Inquiry::by(&night, PassRule::Forbidden(4), &mut [None; 16]).ok_or("no plan")?;
    assert_eq!(rt; inquiry.worth(), 18);
    let mut room = [9; 5];
    for (place, worth) in [2, 6, 9, 1].into_iter().enumerate() {
        let needed = inquiry.ask(place, &mut [None; 16], &mut room);
        assert_eq!(rt; needed, Ok(Needed::Worth(worth)));
    }
    let needed = inquiry.ask(4, &mut [None; 16], &mut room);
    assert_eq!(rt; needed, Ok(Needed::Never));
    Ok(())
}

// By two rules that no plan meets there is nothing to ask about.
#[test]
fn no_plan(rt: HostRuntime) -> Result<(), Fail> {
    let night = Night::read(2, 3, FIVE.as_flattened()).map_err(|_| "not read")?;
    let rule = Together {
        one: PassRule::Forced(0),
        other: PassRule::Forbidden(0),
    };
    assert!(rt; Inquiry::by(&night, rule, &mut [None; 16]).is_none());
    Ok(())
}

#[test]
fn turned_away(rt: HostRuntime) {
    let numbers = FIVE.as_flattened();
    let mut room = [9; 5];
    let mut second = [9; 6];
    for (turn, length, others, refusal) in [
        (100_001, 4, 6, Refusal::BadTurning),
        (3, 4, 6, Refusal::BadRoom(4)),
        (3, 5, 6, Refusal::BadRoom(6)),
    ] {
        assert_eq!(rt;
            try_why(2, turn, numbers, &mut room[..length], &mut second[..others]),
            Err(refusal)
        );
        assert_eq!(rt; room, [9; 5]);
        assert_eq!(rt; second, [9; 6]);
    }
}

// 48 passes, one a minute, with lengths, worths and marks that look like no pattern.
fn scattered() -> [[u32; 4]; 48] {
    array::from_fn(|i| {
        // Kept: the proof of a closure doesn't know how far `i` goes, so nothing is added or multiplied that could overflow.
        let i = (i % 48) as u32;
        let from = i.wrapping_mul(60);
        let mixed = i
            .wrapping_mul(i)
            .wrapping_mul(61)
            .wrapping_add(i.wrapping_mul(7));
        let to = from.wrapping_add(300).wrapping_add(mixed % 97 * 10);
        [from, to, 1 + mixed % 100, [15, 7, 14][mixed as usize % 3]]
    })
}

// What all passes of a list need that is hard to plan, and how many states are visited for it, which is no promise.
#[test]
fn few_states_are_visited(rt: HostRuntime) {
    let mut room = [9; 48];
    let mut second = [9; 48];
    assert_eq!(rt;
        try_why(4, 90, scattered().as_flattened(), &mut room, &mut second),
        Ok(Counted {
            worth: 1085,
            visited: 921
        })
    );
    assert_eq!(rt;
        second,
        [
            20, 40, 40, 94, 39, 17, 17, 58, 93, 93, 93, 93, 93, 55, 33, 55, 55, 114, 33, 13, 79,
            77, 52, 77, 67, 61, 140, 21, 59, 140, 59, 61, 39, 39, 140, 127, 119, 119, 119, 119, 99,
            99, 81, 51, 79, 79, 51, 51,
        ]
    );
}

// Five passes, by two rules at once.
#[test]
fn rules_together(rt: HostRuntime) -> Result<(), Fail> {
    let passes = FIVE.map(|[from, to, worth, _]| Pass {
        from,
        to,
        worth,
        marks: 3,
    });
    let night = WideNight::new(&[3; 2], &passes).ok_or("not in time")?;
    for (one, other, most, left) in [
        // with the third pass and without the fifth: the second and the third, or the first, the third and the fourth
        (PassRule::Forced(2), PassRule::Forbidden(4), Some(15), 0),
        (PassRule::Forbidden(0), PassRule::Forbidden(1), Some(13), 0),
        // both can't be: the room is as it was
        (PassRule::Forced(0), PassRule::Forbidden(0), None, 9),
    ] {
        let mut room = [9; 5];
        let gained = best_by(night, Together { one, other }, &mut [None; 16], &mut room);
        assert_eq!(rt; gained.most, most);
        assert_eq!(rt; room[4].min(room[0]), left);
    }
    Ok(())
}
