use super::*;
use std::test::Fail;
use text::NamedNight;

// Five passes that both dishes hear.
const FIVE: &str = "dishes 2 turn 3
pass hermes 0 10 worth 5 dishes 0 1
pass second 5 15 worth 9 dishes 0 1
pass third 12 20 worth 6 dishes 0 1
pass fourth 16 25 worth 4 dishes 0 1
pass fifth 21 30 worth 7 dishes 0 1
";

// One dish: a pass across two others, one that goes with it, two at once that are worth the same, and one that the dish doesn't hear.
const ACROSS: &str = "dishes 1 turn 0
pass early 0 4 worth 1 dishes 0
pass a 0 10 worth 10 dishes 0
pass across 5 15 worth 6 dishes 0
pass c 12 20 worth 3 dishes 0
pass this 30 40 worth 5 dishes 0
pass that 30 40 worth 5 dishes 0
pass unheard 50 60 worth 4 dishes 1
";

// A list, explained.
fn explained(rt: &HostRuntime, list: &str) -> Result<String, Fail> {
    let night = NamedNight::read(rt.alloc(), list.as_bytes()).map_err(|_| "not read")?;
    Ok(explain(rt.alloc(), night)?.text(rt.alloc())?)
}

#[test]
fn all_reasons(rt: HostRuntime) -> Result<(), Fail> {
    let text = explained(&rt, ACROSS)?;
    assert_eq!(rt;
        text.as_str(),
        "worth 18
dish 0: a c that
not followed: early across this unheard
early: not followed; it is worth 1 and would have to be worth 7; with it the night is worth 12 instead of 18, and a and c would go and across would come
a: followed; it could be worth 6 less
across: not followed; it is worth 6 and would have to be worth 12; with it the night is worth 12 instead of 18, and a and c would go and early would come
c: followed; it could be worth 3 less
this: not followed; it could as well have been followed: another plan is worth as much
that: followed; it could not be worth less: a plan without it is worth as much
unheard: not followed; no dish here can follow it
"
    );
    Ok(())
}

#[test]
fn five_passes(rt: HostRuntime) -> Result<(), Fail> {
    let text = explained(&rt, FIVE)?;
    assert_eq!(rt;
        text.as_str(),
        "worth 25
dish 0: second fifth
dish 1: hermes fourth
not followed: third
hermes: followed; it could be worth 3 less
second: followed; it could be worth 7 less
third: not followed; it is worth 6 and would have to be worth 9; with it the night is worth 22 instead of 25, and hermes and fourth would go
fourth: followed; it could be worth 3 less
fifth: followed; it could be worth 7 less
"
    );
    Ok(())
}

// One dish, which couldn't come from the first pass to the third, but goes round with the second; and one pass that is too far.
const ROUND: &str = "dishes 1 turn 0 step 4
pass first 0 10 worth 5 dishes 0 directions 0 0
pass round 10 11 worth 0 dishes 0 directions 0 32
pass third 11 20 worth 6 dishes 0 directions 32 32
pass far 30 40 worth 7 dishes 0 directions 40 40
";

#[test]
fn by_directions(rt: HostRuntime) -> Result<(), Fail> {
    let text = explained(&rt, ROUND)?;
    assert_eq!(rt;
        text.as_str(),
        "worth 11
dish 0: first round third
not followed: far
first: followed; it could be worth 4 less
round: followed; it is worth nothing, so it could not be worth less
third: followed; it could be worth 4 less
far: not followed; it is worth 7 and would have to be worth 11; with it the night is worth 7 instead of 11, and first, round and third would go
"
    );
    Ok(())
}
