use crate::{svg, timeline};
use passes::Night;
use std::alloc::Global;
use std::array;
use std::test::Fail;
use text::{NamedNight, Planned};

// Five passes that any dish may follow.
const FIVE: [(&str, [u32; 4]); 5] = [
    ("hermes", [0, 10, 5, 15]),
    ("second", [5, 15, 9, 15]),
    ("third", [12, 20, 6, 15]),
    ("fourth", [16, 25, 4, 15]),
    ("fifth", [21, 30, 7, 15]),
];

// A night with names, planned.
fn planned(
    alloc: Global,
    dishes: u64,
    turn: u64,
    list: &[(&str, [u32; 4])],
) -> Result<Planned, Fail> {
    let mut names = Vec::new(alloc);
    let mut numbers = Vec::new(alloc);
    for (name, pass) in list {
        names.push(String::from_str(alloc, name)?)?;
        numbers.extend_from_slice(pass)?;
    }
    let night = Night::read(dishes, turn, &numbers)
        .ok()
        .ok_or("the passes are taken")?;
    let named = NamedNight::new(night, names).ok_or("the names are taken")?;
    Ok(named.plan(alloc)?)
}

const FIVE_DRAWN: &str = "worth 25, dishes 2, turn 3, passes 5
              0                               15                            30
dish 0       |          bbbbbbbbbbbbbbbbbbbbbb......      eeeeeeeeeeeeeeeeeeee|
dish 1       |aaaaaaaaaaaaaaaaaaaaa......       ddddddddddddddddddd......     |
not followed |                         ccccccccccccccccc                      |

  name    begin     end   worth
a hermes      0      10       5  dish 1
b second      5      15       9  dish 0
c third      12      20       6  not followed
d fourth     16      25       4  dish 1
e fifth      21      30       7  dish 0
";

// 33 seconds on 1440: from 5 to 15 in the first row, and the dish turns up to 18.
const SECOND_GROUP: &str =
    "<g class='followed'><title>second: begin 5, end 15, worth 9, dish 0</title><rect class='tail' x='784' y='95' width='131' height='130'/><rect class='bar' x='348' y='95' width='436' height='130'/><text class='mid' font-size='16' transform='translate(566 160) rotate(0)' dy='.35em'>second (9)</text></g>";

// From 12 to 20 in the third row, and nothing turns.
const THIRD_GROUP: &str =
    "<g class='unfollowed'><title>third: begin 12, end 20, worth 6, not followed</title><rect class='tail' x='1002' y='395' width='0' height='130'/><rect class='bar' x='653' y='395' width='349' height='130'/><text class='mid' font-size='16' transform='translate(827 460) rotate(0)' dy='.35em'>third (6)</text></g>";

#[test]
fn five(rt: HostRuntime) -> Result<(), Fail> {
    let alloc = rt.alloc();
    let night = planned(alloc, 2, 3, &FIVE)?;
    assert_eq!(rt; timeline(alloc, &night)?.as_str(), FIVE_DRAWN);
    let drawing = svg(alloc, &night)?;
    let groups = drawing
        .as_str()
        .lines()
        .filter(|line| line.starts_with("<g class='"));
    assert_eq!(rt; groups.count(), 5);
    assert!(rt; drawing.as_str().lines().any(|line| line == SECOND_GROUP));
    assert!(rt; drawing.as_str().lines().any(|line| line == THIRD_GROUP));
    Ok(())
}

// Each of three seconds of a long night is drawn 2 wide, so the last stands on the third level.
const SHORT_GROUP: &str =
    "<g class='unfollowed'><title>c: begin 12, end 13, worth 1, not followed</title><rect class='tail' x='130' y='545' width='0' height='130'/><rect class='bar' x='130' y='545' width='2' height='130'/><text class='mid' font-size='6' transform='translate(131 610) rotate(-90)' dy='.35em'>c (1)</text></g>";

#[test]
fn short_passes(rt: HostRuntime) -> Result<(), Fail> {
    let alloc = rt.alloc();
    let list = [
        ("night", [0, 1_000_000, 9, 15]),
        ("a", [10, 11, 1, 15]),
        ("b", [11, 12, 1, 15]),
        ("c", [12, 13, 1, 15]),
    ];
    let night = planned(alloc, 1, 0, &list)?;
    let drawing = svg(alloc, &night)?;
    assert!(rt; drawing.as_str().lines().any(|line| line == SHORT_GROUP));
    Ok(())
}

const NONE_DRAWN: &str = "worth 0, dishes 1, turn 3, passes 0
              0                               0                              0
dish 0       |                                                                |
not followed |                                                                |

  name  begin     end   worth
";

#[test]
fn no_pass(rt: HostRuntime) -> Result<(), Fail> {
    let alloc = rt.alloc();
    let night = planned(alloc, 1, 3, &[])?;
    assert_eq!(rt; timeline(alloc, &night)?.as_str(), NONE_DRAWN);
    let drawing = svg(alloc, &night)?;
    assert!(rt;
        !drawing
            .as_str()
            .lines()
            .any(|line| line.starts_with("<g class='"))
    );
    Ok(())
}

// As many passes as a list may have, all at once, of which one dish follows the one that is worth most.
#[test]
fn as_many_as_there_may_be(rt: HostRuntime) -> Result<(), Fail> {
    let alloc = rt.alloc();
    let list = array::from_fn(|i| ("a", [0, 10, if i == 47 { 2 } else { 1 }, 15]));
    let list: [(&str, [u32; 4]); 48] = list;
    let night = planned(alloc, 1, 0, &list)?;
    let drawn = timeline(alloc, &night)?;
    let mut lines = drawn.as_str().lines().skip(2);
    let dish = "dish 0       |VVVVVVVVVVVVVVVVVVVVVVVVVVVVVVVVVVVVVVVVVVVVVVVVVVVVVVVVVVVVVVVV|";
    assert_eq!(rt; lines.next(), Some(dish));
    let others = "not followed |abcdefghijklmnopqrstuvwxyzABCDEFGHIJKLMNOPQRSTUUUUUUUUUUUUUUUUUU|";
    assert_eq!(rt; lines.next(), Some(others));
    Ok(())
}

// One dish follows the first and the last pass: it turns for 4 seconds, and 16 more for 8 steps, so that it is there just in time.
const DIRECTED: &str = "dishes 1 turn 4 step 2
pass a 0 20 worth 5 dishes 0 directions 16 12
pass b 30 40 worth 3 dishes 0 directions 60 60
pass c 40 64 worth 9 dishes 0 directions 20 8
";

const DIRECTED_DRAWN: &str = "worth 14, dishes 1, turn 4, step 2, passes 3
              0                               32                            64
dish 0       |aaaaaaaaaaaaaaaaaaaa....................cccccccccccccccccccccccc|
not followed |                              bbbbbbbbbb                        |

  name  begin     end   worth
a a         0      20       5  dish 0
b b        30      40       3  not followed
c c        40      64       9  dish 0
";

// 68 seconds on 1440: from 0 to 20, and the dish turns up to 40.
const DIRECTED_GROUP: &str =
    "<g class='followed'><title>a: begin 0, end 20, worth 5, directions 16 to 12, dish 0</title><rect class='tail' x='553' y='95' width='424' height='130'/><rect class='bar' x='130' y='95' width='423' height='130'/><text class='mid' font-size='16' transform='translate(341 160) rotate(0)' dy='.35em'>a (5)</text></g>";

// How the line with a drawing's heading ends.
const DIRECTED_HEADING: &str = ">worth 14, dishes 1, turn 4, step 2, passes 3</text>";

// The list with directions, planned.
fn directed(alloc: Global) -> Result<Planned, Fail> {
    let named = NamedNight::read(alloc, DIRECTED.as_bytes())
        .ok()
        .ok_or("the list is taken")?;
    Ok(named.plan(alloc)?)
}

#[test]
fn directed_timeline(rt: HostRuntime) -> Result<(), Fail> {
    let night = directed(rt.alloc())?;
    let drawn = timeline(rt.alloc(), &night)?;
    assert_eq!(rt; drawn.as_str(), DIRECTED_DRAWN);
    Ok(())
}

#[test]
fn directed_drawing(rt: HostRuntime) -> Result<(), Fail> {
    let night = directed(rt.alloc())?;
    let drawing = svg(rt.alloc(), &night)?;
    assert!(rt;
        drawing
            .as_str()
            .lines()
            .any(|line| line.ends_with(DIRECTED_HEADING))
    );
    assert!(rt; drawing.as_str().lines().any(|line| line == DIRECTED_GROUP));
    Ok(())
}
