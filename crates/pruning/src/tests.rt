// Wider nights than a station's, planned at prices.
ghost use Rattle.std.specs.Prelude.{◌≤◌};

use super::*;
use engine::{Gained, Summed, gain_most};
use passes::Pass;
use std::array;
use std::test::Fail;

// Eight passes at a time, of ten seconds each and ten seconds apart, which all eight dishes may follow.
fn by_eights<const N: usize>() -> [Pass; N]
    requires { N ≤ 128 }
{
    array::from_fn(|i| {
        let from = 20 * (i as u32 / 8);
        Pass {
            from,
            to: from + 10,
            worth: u32::MAX,
            marks: 255,
        }
    })
}

// What is gained at most by dishes that take so long to turn, and how many states are visited for it.
fn gained(turns: &[u32], passes: &[Pass]) -> Option<Gained> {
    let night = WideNight::new(turns, passes)?;
    Some(gained_by(night, bids_for(night)))
}

// The same, at given prices and with a given plan as the first to be beaten.
fn gained_by(night: WideNight, mut bids: Bids) -> Gained {
    let count = night.passes.len();
    let problem = Summed {
        gains: Priced::new(night, &bids.prices),
    };
    let mut made = [0; WIDE_PASSES];
    gain_most(
        &problem,
        &mut made[..count],
        &mut [None; 256],
        &mut bids.given[..count],
    )
}

#[test]
fn eight_dishes(rt: HostRuntime) {
    let passes = by_eights::<128>();
    for (turns, followed, visited) in [
        // all have turned when the next eight begin
        ([0, 10, 2, 3, 4, 5, 6, 7], 128, 0),
        // all but the last, which follows every other one
        ([0, 10, 2, 3, 4, 5, 6, 11], 120, 0),
        ([11; 8], 64, 0),
    ] {
        let most = Some(followed * u32::MAX as u64);
        assert_eq!(rt; gained(&turns, &passes), Some(Gained { most, visited }));
    }
}

// The first eight of those passes, and a ninth that only the last dish may follow: it has turned by then, or it hasn't.
#[test]
fn a_dish_with_its_own_turning(rt: HostRuntime) {
    let mut passes = by_eights::<9>();
    passes[8].marks = 128;
    for (turn, followed) in [(10, 9), (11, 8)] {
        let turns = [0, 10, 2, 3, 4, 5, 6, turn];
        let most = gained(&turns, &passes).and_then(|found| found.most);
        assert_eq!(rt; most, Some(followed * u32::MAX as u64));
    }
}

// The auction gives no pass to a dish then, which is the best run there is. Without passes the start is an end.
#[test]
fn nothing_to_gain(rt: HostRuntime) {
    let most = Some(0);
    assert_eq!(rt;
        gained(&[], &by_eights::<9>()),
        Some(Gained { most, visited: 0 })
    );
    assert_eq!(rt; gained(&[5; 8], &[]), Some(Gained { most, visited: 1 }));
}

// A price that is above what its pass is worth counts for no more than that.
#[test]
fn prices_above_worth(rt: HostRuntime) -> Result<(), Fail> {
    let passes = by_eights::<9>();
    let turns = [11; 8];
    let night = WideNight::new(&turns, &passes).ok_or("no night")?;
    let bids = Bids {
        prices: [u64::MAX; WIDE_PASSES],
        given: [0; WIDE_PASSES],
        rounds: 0,
    };
    assert_eq!(rt; gained_by(night, bids).most, Some(8 * u32::MAX as u64));
    Ok(())
}

// An auction ends once its plan is seen to be worth as much as any, or after the last round.
#[test]
fn rounds(rt: HostRuntime) -> Result<(), Fail> {
    let passes = by_eights::<128>();
    // all passes can be followed; all but every other one of a dish; every other eight
    for (turns, rounds) in [([0; 8], 25), ([0, 0, 0, 0, 0, 0, 0, 11], 25), ([11; 8], 17)] {
        let night = WideNight::new(&turns, &passes).ok_or("no night")?;
        assert_eq!(rt; bids_for(night).rounds, rounds);
    }
    Ok(())
}

#[test]
fn no_night(rt: HostRuntime) {
    let mut passes = by_eights::<9>();
    assert!(rt; gained(&[0; 9], &passes).is_none());
    passes[8].from = 0;
    assert!(rt; gained(&[0; 8], &passes).is_some());
    passes[0].from = 1;
    assert!(rt; gained(&[0; 8], &passes).is_none());
}
