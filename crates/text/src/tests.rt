use super::*;
use passes::Night;
use slewing::Sweep;
use std::alloc::{AllocError, Global};
use std::test::Fail;

const FIVE: [u32; 20] = [
    0, 10, 5, 15, 5, 15, 9, 15, 12, 20, 6, 15, 16, 25, 4, 15, 21, 30, 7, 15,
];

const NAMES: [&str; 5] = ["hermes", "second", "third", "fourth", "fifth"];

// Copies of names.
fn owned(alloc: Global, names: &[&str]) -> Result<Vec<String>, AllocError> {
    names
        .iter()
        .map(|name| String::from_str(alloc, name))
        .try_collect(alloc)
}

// A night with two dishes that take three seconds to turn.
fn named(alloc: Global, numbers: &[u32], names: &[&str]) -> Result<NamedNight, Fail> {
    let night = Night::read(2, 3, numbers)
        .ok()
        .ok_or("the passes are taken")?;
    Ok(NamedNight::new(night, owned(alloc, names)?).ok_or("the names are taken")?)
}

// A best plan for it, as text.
fn planned(alloc: Global, numbers: &[u32], names: &[&str]) -> Result<String, Fail> {
    Ok(named(alloc, numbers, names)?.plan(alloc)?.text(alloc)?)
}

#[test]
fn plans(rt: HostRuntime) -> Result<(), Fail> {
    assert_eq!(rt;
        planned(rt.alloc(), &FIVE, &NAMES)?.as_str(),
        "worth 25\ndish 0: second fifth\ndish 1: hermes fourth\nnot followed: third\n"
    );
    // the other dish has no pass, and none is left
    assert_eq!(rt;
        planned(rt.alloc(), &[0, 10, 5, 1], &["hermes"])?.as_str(),
        "worth 5\ndish 0: hermes\ndish 1:\nnot followed:\n"
    );
    // both passes have one name
    assert_eq!(rt;
        planned(
            rt.alloc(),
            &[0, 10, 5, 1, 300, 310, 5, 2],
            &["hermes", "hermes"]
        )?
        .as_str(),
        "worth 10\ndish 0: hermes@0\ndish 1: hermes@300\nnot followed:\n"
    );
    Ok(())
}

#[test]
fn lists(rt: HostRuntime) -> Result<(), Fail> {
    assert_eq!(rt;
        named(rt.alloc(), &FIVE, &NAMES)?
            .write(rt.alloc())?
            .as_str(),
        "dishes 2 turn 3\npass hermes 0 10 worth 5 dishes 0 1 2 3\npass second 5 15 worth 9 dishes 0 1 2 3\npass third 12 20 worth 6 dishes 0 1 2 3\npass fourth 16 25 worth 4 dishes 0 1 2 3\npass fifth 21 30 worth 7 dishes 0 1 2 3\n"
    );
    assert_eq!(rt;
        named(rt.alloc(), &[0, 10, 5, 3, 5, 15, 9, 0], &["hermes", "b"])?
            .write(rt.alloc())?
            .as_str(),
        "dishes 2 turn 3\npass hermes 0 10 worth 5 dishes 0 1\npass b 5 15 worth 9 dishes\n"
    );
    Ok(())
}

// Whether two passes may have these names.
fn are_taken(alloc: Global, names: &[&str]) -> Result<bool, Fail> {
    let night = Night::read(2, 3, &FIVE[..8])
        .ok()
        .ok_or("the passes are taken")?;
    Ok(NamedNight::new(night, owned(alloc, names)?).is_some())
}

// What a text reads as, written again; or why it is turned away.
fn outcome(alloc: Global, text: &[u8]) -> Result<Result<String, String>, Fail> {
    match NamedNight::read(alloc, text) {
        Ok(night) => Ok(Ok(night.write(alloc)?)),
        Err(error) => Ok(Err(format!(in alloc; "{error}")?)),
    }
}

#[test]
fn texts_that_are_taken(rt: HostRuntime) -> Result<(), Fail> {
    for (text, again) in [
        // no line feed at the end
        (
            "dishes 2 turn 3\npass hermes 0 10 worth 5 dishes 0 1",
            "dishes 2 turn 3\npass hermes 0 10 worth 5 dishes 0 1\n",
        ),
        // comments, blank lines, line ends as on Windows, tabs, and dishes in another order
        (
            "# a night\r\n\r\n dishes 02\tturn 3\r\n  # the first\npass hermes 0 10 worth 5 dishes 1 0 \n\n",
            "dishes 2 turn 3\npass hermes 0 10 worth 5 dishes 0 1\n",
        ),
        // no pass, and a pass that no dish may follow
        ("dishes 4 turn 100000", "dishes 4 turn 100000\n"),
        (
            "dishes 1 turn 0\npass x 0 1 worth 0 dishes\n",
            "dishes 1 turn 0\npass x 0 1 worth 0 dishes\n",
        ),
    ] {
        let Ok(read) = outcome(rt.alloc(), text.as_bytes())? else {
            return Err(Fail::from("a text was turned away"));
        };
        assert_eq!(rt; read.as_str(), again);
    }
    Ok(())
}

// Texts that are turned away, and why.
const TURNED_AWAY: [(&[u8], &str); 28] = [
    // no station, or a second one, or a pass before it
    (
        b"",
        "number 4 at 0: the station comes first, as: dishes 2 turn 3, in line 1",
    ),
    (
        b"# nothing\n",
        "number 4 at 1: the station comes first, as: dishes 2 turn 3, in line 2",
    ),
    (
        b"# nothing",
        "number 4 at 0: the station comes first, as: dishes 2 turn 3, in line 1",
    ),
    (
        b"pass hermes 0 10 worth 5 dishes 0\ndishes 2 turn 3\n",
        "number 4 at 0: the station comes first, as: dishes 2 turn 3, in line 1",
    ),
    (
        b"dishes 2 turn 3\n\ndishes 2 turn 3\n",
        "number 4 at 2: a list has one station, and this is a second, in line 3",
    ),
    // words; a byte order mark is one that is not known
    (
        b"dish 2 turn 3\n",
        "number 4 at 0: a line begins with dishes, pass or #, in line 1",
    ),
    (
        b"\xef\xbb\xbfdishes 2 turn 3\n",
        "number 4 at 0: a line begins with dishes, pass or #, in line 1",
    ),
    (
        b"dishes 2 turn\n",
        "number 4 at 0: a station is written as: dishes 2 turn 3, or with a step: dishes 2 turn 3 step 4, in line 1",
    ),
    (
        b"dishes 2 turn 3 4\n",
        "number 4 at 0: a station is written as: dishes 2 turn 3, or with a step: dishes 2 turn 3 step 4, in line 1",
    ),
    (
        b"dishes 2 turn 3\npass hermes 0 10 worth 5\n",
        "number 4 at 1: a pass is written as: pass hermes 0 10 worth 5 dishes 0 1, or with directions behind: directions 12 40, in line 2",
    ),
    (
        b"dishes 2 turn 3\npass hermes 0 10 dishes 0 worth 5\n",
        "number 4 at 1: a pass is written as: pass hermes 0 10 worth 5 dishes 0 1, or with directions behind: directions 12 40, in line 2",
    ),
    // numbers
    (
        b"dishes +2 turn 3\n",
        "number 4 at 0: a number is digits and below 4294967296, in line 1",
    ),
    (
        b"dishes 2 turn 4294967296\n",
        "number 4 at 0: a number is digits and below 4294967296, in line 1",
    ),
    (
        b"dishes 2 turn 3\npass hermes 0 1\xff worth 5 dishes 0\n",
        "number 4 at 1: a number is digits and below 4294967296, in line 2",
    ),
    // names and dishes
    (
        b"dishes 2 turn 3\npass h\xc3\xa9 0 10 worth 5 dishes 0\n",
        "number 4 at 1: a name is 1 to 32 letters, digits, - _ or ., in line 2",
    ),
    (
        b"dishes 2 turn 3\npass hermes 0 10 worth 5 dishes 0 1 0\n",
        "number 4 at 1: a dish is named twice, in line 2",
    ),
    (
        b"dishes 2 turn 3\npass hermes 0 10 worth 5 dishes 32\n",
        "number 4 at 1: a dish is a number below 32, in line 2",
    ),
    // lines that can be read, of lists that are turned away
    (
        b"\ndishes 5 turn 3\n",
        "number 1 at 0: a station has 1 to 4 dishes, in line 2",
    ),
    (
        b"dishes 0 turn 3\n",
        "number 1 at 0: a station has 1 to 4 dishes, in line 1",
    ),
    (
        b"dishes 2 turn 100001\n",
        "number 1 at 1: dishes take at most 100000 seconds to turn, in line 1",
    ),
    (
        b"dishes 2 turn 3\n# two\npass a 0 10 worth 5 dishes 0\npass b 20 20 worth 5 dishes 0\n",
        "number 2 at 1: a pass ends after it begins, in line 4",
    ),
    (
        b"dishes 2 turn 3\npass a 0 1000001 worth 5 dishes 0\n",
        "number 2 at 0: a pass ends by second 1000000, in line 2",
    ),
    (
        b"dishes 2 turn 3\npass a 0 10 worth 1000001 dishes 0\n",
        "number 2 at 0: a pass is worth at most 1000000, in line 2",
    ),
    (
        b"dishes 2 turn 3\npass a 0 10 worth 5 dishes 4\n",
        "number 2 at 0: dishes are 0 to 3, in line 2",
    ),
    (
        b"dishes 2 turn 3\npass a 9 10 worth 5 dishes 0\npass b 8 20 worth 5 dishes 0\n",
        "number 2 at 1: a pass begins no sooner than the one before it, in line 3",
    ),
    // of several faults of a pass the first, and the station before the passes
    (
        b"dishes 2 turn 3\npass a 9 8 worth 1000001 dishes 9\n",
        "number 2 at 0: a pass ends after it begins, in line 2",
    ),
    (
        b"dishes 9 turn 3\npass a 9 8 worth 5 dishes 0\n",
        "number 1 at 0: a station has 1 to 4 dishes, in line 1",
    ),
    // a line that can't be read comes before all that is wrong with a list
    (
        b"dishes 9 turn 3\npass a 9 8 worth 5 dishes 0\npass\n",
        "number 4 at 2: a pass is written as: pass hermes 0 10 worth 5 dishes 0 1, or with directions behind: directions 12 40, in line 3",
    ),
];

#[test]
fn texts_that_are_turned_away(rt: HostRuntime) -> Result<(), Fail> {
    for (text, why) in TURNED_AWAY {
        let Err(said) = outcome(rt.alloc(), text)? else {
            return Err(Fail::from("a text was taken"));
        };
        assert_eq!(rt; said.as_str(), why);
    }
    Ok(())
}

// Texts with directions, and what they are written as again, or why they are turned away.
const DIRECTED: [(&str, &str); 13] = [
    (
        "dishes 2 turn 3 step 1000000\npass a 0 10 worth 5 dishes 1 0 directions 12 40\npass b 20 30 worth 5 dishes directions 63 00",
        "dishes 2 turn 3 step 1000000\npass a 0 10 worth 5 dishes 0 1 directions 12 40\npass b 20 30 worth 5 dishes directions 63 0\n",
    ),
    ("dishes 2 turn 3 step 0", "dishes 2 turn 3 step 0\n"),
    // only some passes have directions
    (
        "dishes 2 turn 3 step 4\npass a 0 10 worth 5 dishes 0 directions 12 40\npass b 20 30 worth 5 dishes 0\n",
        "number 4 at 2: the station has a step, so a pass has directions, as: pass hermes 0 10 worth 5 dishes 0 1 directions 12 40, in line 3",
    ),
    (
        "dishes 2 turn 3\npass a 0 10 worth 5 dishes 0\npass b 20 30 worth 5 dishes 0 directions 12 40\n",
        "number 4 at 2: a pass has directions only where the station has a step, as: dishes 2 turn 3 step 4, in line 3",
    ),
    // words
    (
        "dishes 2 turn 3 step\n",
        "number 4 at 0: a station is written as: dishes 2 turn 3, or with a step: dishes 2 turn 3 step 4, in line 1",
    ),
    (
        "dishes 2 step 4 turn 3\n",
        "number 4 at 0: a station is written as: dishes 2 turn 3, or with a step: dishes 2 turn 3 step 4, in line 1",
    ),
    (
        "dishes 2 turn 3 step 4\npass a 0 10 worth 5 dishes 0 directions 12\n",
        "number 4 at 1: a pass is written as: pass hermes 0 10 worth 5 dishes 0 1, or with directions behind: directions 12 40, in line 2",
    ),
    (
        "dishes 2 turn 3 step 4\npass a 0 10 worth 5 directions 12 40 dishes 0\n",
        "number 4 at 1: a pass is written as: pass hermes 0 10 worth 5 dishes 0 1, or with directions behind: directions 12 40, in line 2",
    ),
    (
        "dishes 2 turn 3 step 4\npass a 0 10 worth 5 dishes 0 directions 12 4x\n",
        "number 4 at 1: a number is digits and below 4294967296, in line 2",
    ),
    // lines that can be read, of lists that are turned away: first for what has nothing to do with directions, then for the step
    (
        "dishes 2 turn 3 step 1000001\npass a 9 8 worth 5 dishes 0 directions 64 0\n",
        "number 2 at 0: a pass ends after it begins, in line 2",
    ),
    (
        "# a step\ndishes 2 turn 3 step 1000001\npass a 0 10 worth 5 dishes 0 directions 64 0\n",
        "number 5 at 0: dishes take at most 1000000 seconds for a step, in line 2",
    ),
    (
        "dishes 2 turn 3 step 4\npass a 0 10 worth 5 dishes 0 directions 0 63\n\npass b 20 30 worth 5 dishes 0 directions 64 0\n",
        "number 5 at 1: directions are 0 to 63, in line 4",
    ),
    (
        "dishes 2 turn 3 step 4\npass a 0 10 worth 5 dishes 0 directions 0 64\n",
        "number 5 at 0: directions are 0 to 63, in line 2",
    ),
];

#[test]
fn directions(rt: HostRuntime) -> Result<(), Fail> {
    for (text, said) in DIRECTED {
        let (Ok(told) | Err(told)) = outcome(rt.alloc(), text.as_bytes())?;
        assert_eq!(rt; told.as_str(), said);
    }
    let Ok(night) = NamedNight::read(rt.alloc(), DIRECTED[0].0.as_bytes()) else {
        return Err(Fail::from("a text was turned away"));
    };
    let Some(slewing) = night.slewing() else {
        return Err(Fail::from("the list has directions"));
    };
    assert_eq!(rt; slewing.step(), 1_000_000);
    assert_eq!(rt; slewing.sweeps().get(1), Some(&Sweep { begin: 63, end: 0 }));
    Ok(())
}

// A list of so many passes, all with the longest name there is, and then a line.
fn long_list(alloc: Global, passes: usize, last: &str) -> Result<String, Fail> {
    let mut text = String::from_str(alloc, "dishes 4 turn 0\n")?;
    for _ in 0..passes {
        text.push_str("pass a-b_c.d0123456789012345678901234 0 1 worth 1 dishes 0 1 2 3\n")?;
    }
    text.push_str(last)?;
    Ok(text)
}

#[test]
fn longest_texts(rt: HostRuntime) -> Result<(), Fail> {
    let most = long_list(rt.alloc(), 48, "")?;
    assert_eq!(rt;
        outcome(rt.alloc(), most.as_bytes())?.ok().as_ref(),
        Some(&most)
    );
    let one_more = long_list(rt.alloc(), 49, "")?;
    assert_eq!(rt;
        outcome(rt.alloc(), one_more.as_bytes())?.err(),
        Some(String::from_str(
            rt.alloc(),
            "number 2 at 48: a list has at most 48 passes, in line 50"
        )?)
    );
    // a comment of 1,000 bytes, and one of 1,001
    let mut comment = String::from_str(rt.alloc(), "#")?;
    for _ in 0..999 {
        comment.push('x')?;
    }
    let fits = long_list(rt.alloc(), 1, comment.as_str())?;
    assert!(rt; outcome(rt.alloc(), fits.as_bytes())?.is_ok());
    comment.push('x')?;
    let too_long = long_list(rt.alloc(), 1, comment.as_str())?;
    assert_eq!(rt;
        outcome(rt.alloc(), too_long.as_bytes())?.err(),
        Some(String::from_str(
            rt.alloc(),
            "number 4 at 2: a line has at most 1000 bytes, in line 3"
        )?)
    );
    Ok(())
}

#[test]
fn names(rt: HostRuntime) -> Result<(), Fail> {
    let longest = "a-b_c.d0123456789012345678901234";
    let longer = "a-b_c.d01234567890123456789012345";
    assert!(rt; are_taken(rt.alloc(), &["hermes", longest])?);
    assert!(rt; !are_taken(rt.alloc(), &["hermes", longer])?);
    assert!(rt; !are_taken(rt.alloc(), &["", "second"])?);
    assert!(rt; !are_taken(rt.alloc(), &["hermes@0", "second"])?);
    assert!(rt; !are_taken(rt.alloc(), &["hermes"])?);
    Ok(())
}

#[test]
fn refusal_lines(rt: HostRuntime) -> Result<(), Fail> {
    let text = b"dishes 2 turn 3\r\npass\thermes 0 1\x07 worth 5 dishes 0\r\n";
    let Err(ReadError::TurnedAway(why)) = NamedNight::read(rt.alloc(), text) else {
        return Err(Fail::from("a text was taken"));
    };
    assert_eq!(rt;
        refusal_line(rt.alloc(), text, why)?.as_str(),
        "turned away, number 4 at 1: a number is digits and below 4294967296, in line 2: pass hermes 0 1? worth 5 dishes 0 \n"
    );
    Ok(())
}
