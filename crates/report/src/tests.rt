use super::*;
use std::alloc::{AllocError, Global};
use std::test::Fail;

// Five passes that both dishes hear.
const FIVE: &str = "dishes 2 turn 3
pass hermes 0 10 worth 5 dishes 0 1
pass second 5 15 worth 9 dishes 0 1
pass third 12 20 worth 6 dishes 0 1
pass fourth 16 25 worth 4 dishes 0 1
pass fifth 21 30 worth 7 dishes 0 1
";

#[test]
fn answers(rt: HostRuntime) -> Result<(), Fail> {
    let Answer::Planned(plan) = respond(rt.alloc(), View::Plan, FIVE.as_bytes())? else {
        return Err(Fail::from("the list was turned away"));
    };
    assert_eq!(rt;
        plan.as_str(),
        "worth 25\ndish 0: second fifth\ndish 1: hermes fourth\nnot followed: third\n"
    );
    let one = "dishes 1 turn 0\npass a 0 9 worth 2 dishes 0\n";
    let Answer::Planned(why) = respond(rt.alloc(), View::Why, one.as_bytes())? else {
        return Err(Fail::from("the list was turned away"));
    };
    assert_eq!(rt;
        why.as_str(),
        "worth 2\ndish 0: a\nnot followed:\na: followed; it could be worth 2 less\n"
    );
    // the second pass begins half the circle away from where the first one ends
    let turned = "dishes 1 turn 0 step 1
pass a 0 9 worth 2 dishes 0 directions 0 0
pass b 40 50 worth 3 dishes 0 directions 32 0
";
    let Answer::Planned(plan) = respond(rt.alloc(), View::Plan, turned.as_bytes())? else {
        return Err(Fail::from("the list was turned away"));
    };
    assert_eq!(rt; plan.as_str(), "worth 3\ndish 0: b\nnot followed: a\n");
    let Answer::TurnedAway(line) = respond(rt.alloc(), View::Svg, b"")? else {
        return Err(Fail::from("a text without a list was taken"));
    };
    assert_eq!(rt;
        line.as_str(),
        "turned away, number 4 at 0: the station comes first, as: dishes 2 turn 3, in line 1: \n"
    );
    Ok(())
}

// Copies of arguments.
fn owned(alloc: Global, args: &[&str]) -> Result<Vec<String>, AllocError> {
    args.iter()
        .map(|arg| String::from_str(alloc, arg))
        .try_collect(alloc)
}

#[test]
fn requests(rt: HostRuntime) -> Result<(), Fail> {
    let plan = |view, path| Request::Plan { view, path };
    let cases: [(&[&str], Request); 11] = [
        (&[], plan(View::Plan, None)),
        (&["--help"], Request::Help),
        (&["--version"], Request::Version),
        (&["night.txt"], plan(View::Plan, Some("night.txt"))),
        (&["--timeline"], plan(View::Timeline, None)),
        (&["--svg", "night.txt"], plan(View::Svg, Some("night.txt"))),
        (&["--why", "night.txt"], plan(View::Why, Some("night.txt"))),
        (&["--svg", "--timeline"], Request::Unknown),
        (&["--picture"], Request::Unknown),
        (&["night.txt", "--svg"], Request::Unknown),
        (&["--svg", "a", "b"], Request::Unknown),
    ];
    for (args, request) in cases {
        let args = owned(rt.alloc(), args)?;
        assert_eq!(rt; Request::of(&args), request);
    }
    Ok(())
}
