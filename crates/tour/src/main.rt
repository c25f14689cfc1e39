// Judges the example plans, plans the example lists, and says of some which second is busiest and whether all passes can be followed.
#![tactic(auto)]

use capacity::{Peak, assign_all, busiest, plan_one_dish};
use passes::{Night, Refusal, judge};
use planner::try_plan;
use std::{fmt, io};

// Five passes that any dish may follow: from, to, worth, marks.
const FIVE: [[u32; 4]; 5] = [
    [0, 10, 5, 15],
    [5, 15, 9, 15],
    [12, 20, 6, 15],
    [16, 25, 4, 15],
    [21, 30, 7, 15],
];

// The first three of them, with marks of dishes 0, 0 and 1.
const MARKED: [[u32; 4]; 3] = [[0, 10, 5, 1], [5, 15, 9, 1], [12, 20, 6, 2]];

// One long pass, and two that it overlaps, which together are worth more.
const LONG: [[u32; 4]; 3] = [[0, 900, 9, 15], [10, 400, 8, 15], [500, 890, 8, 15]];

// Two passes that all dishes hear, and while they last one that only dishes 0 and 1 hear.
const HEARD_BY_TWO: [[u32; 4]; 3] = [[0, 600, 5, 15], [10, 600, 5, 15], [60, 500, 1, 3]];

// A station, and passes over it as four numbers each.
#[derive(Clone, Copy)]
struct Case<'a> {
    dishes: u64,
    turn: u64,
    passes: &'a [[u32; 4]],
}

impl fmt::Display for Case<'_> {
    fn fmt<W: fmt::Write>(&self, f: &mut fmt::Formatter<W>) -> fmt::Result {
        write!(f, "dishes {} turn {}", self.dishes, self.turn)
    }
}

impl<'a> Case<'a> {
    // The station with so many dishes, each of which takes so long to turn, and these passes.
    fn new(dishes: u64, turn: u64, passes: &'a [[u32; 4]]) -> Case<'a> {
        Case {
            dishes,
            turn,
            passes,
        }
    }

    // Prints a plan and what is said of it, on one line.
    fn report(&self, rt: &HostRuntime, plan: &[u8]) -> io::Result<()> {
        let numbers = self.passes.as_flattened();
        print!(rt; "{self} {}", Plan(plan))?;
        // Kept: a match, since all outcomes are printed.
        match judge(self.dishes, self.turn, numbers, plan) {
            Ok(Ok(worth)) => println!(rt; ": good, worth {worth}"),
            Ok(Err(flaw)) => println!(rt; ": not good, {flaw}"),
            Err(refusal) => println!(rt; ": turned away, {refusal}"),
        }
    }

    // Prints a best plan, and what it is worth.
    fn report_best(&self, rt: &HostRuntime) -> io::Result<()> {
        let mut room = vec![in rt.alloc(); 0; self.passes.len()]?;
        let numbers = self.passes.as_flattened();
        let planned = try_plan(self.dishes, self.turn, numbers, room.as_mut_slice());
        self.report_planned(rt, planned, room.as_slice())
    }

    // Prints a best plan as if the station had one dish, made from the table of what one dish can gain, and what it is worth.
    fn report_one_dish(&self, rt: &HostRuntime) -> io::Result<()> {
        let alone = Case { dishes: 1, ..*self };
        let mut room = vec![in rt.alloc(); 0; self.passes.len()]?;
        let planned = plan_one_dish(self.turn, self.passes.as_flattened(), room.as_mut_slice());
        print!(rt; "one dish alone, ")?;
        alone.report_planned(rt, planned, room.as_slice())
    }

    // Prints what came of planning: what the plan in the room is worth, or why there is none.
    fn report_planned(
        &self,
        rt: &HostRuntime,
        planned: Result<u64, Refusal>,
        room: &[u8],
    ) -> io::Result<()> {
        // Kept: a match, since both outcomes are printed.
        match planned {
            Ok(worth) => println!(rt; "{self}: worth {worth} by {}", Plan(room)),
            Err(refusal) => println!(rt; "{self}: turned away, {refusal}"),
        }
    }

    // Prints the busiest second, and a plan that follows all the passes or why there is none.
    fn report_capacity(&self, rt: &HostRuntime) -> io::Result<()> {
        let numbers = self.passes.as_flattened();
        let mut room = vec![in rt.alloc(); 0; self.passes.len()]?;
        // Kept: a match, since both outcomes are printed.
        match Night::read(self.dishes, self.turn, numbers) {
            Ok(night) => {
                print!(rt; "{self}: ")?;
                report_night(rt, &night, room.as_mut_slice())
            }
            Err(refusal) => println!(rt; "{self}: turned away, {refusal}"),
        }
    }
}

// Prints the rest of that line, for a night that was read and a room for its plan. Kept: the room stands beside the night, to be written.
fn report_night(rt: &HostRuntime, night: &Night, room: &mut [u8]) -> io::Result<()> {
    let Peak { second, count } = busiest(night.passes(), night.station().turn);
    print!(rt; "busiest second {second} with {count} passes, ")?;
    // Kept: a match, since both outcomes are printed.
    match assign_all(night, room) {
        Ok(()) => println!(rt; "all followed by {}", Plan(room)),
        Err(why) => println!(rt; "{why}"),
    }
}

// A plan, as it is printed.
#[derive(Clone, Copy)]
struct Plan<'a>(&'a [u8]);

impl fmt::Display for Plan<'_> {
    fn fmt<W: fmt::Write>(&self, f: &mut fmt::Formatter<W>) -> fmt::Result {
        write!(f, "plan")?;
        for named in self.0 {
            write!(f, " {named}")?;
        }
        Ok(())
    }
}

fn main(rt: HostRuntime) -> io::Result<()> {
    Case::new(1, 0, &FIVE).report(&rt, &[1, 0, 1, 0, 1])?;
    Case::new(1, 3, &FIVE).report(&rt, &[0, 1, 0, 0, 1])?;
    Case::new(2, 0, &FIVE).report(&rt, &[2, 1, 2, 1, 2])?;
    Case::new(2, 3, &FIVE).report(&rt, &[2, 1, 0, 2, 1])?;
    Case::new(2, 0, &MARKED).report(&rt, &[0, 1, 2])?;
    Case::new(2, 0, &MARKED).report(&rt, &[1, 0, 1])?;
    Case::new(1, 3, &FIVE).report(&rt, &[1, 0, 1, 0, 1])?;
    Case::new(1, 0, &MARKED).report(&rt, &[0, 1, 2])?;
    Case::new(5, 0, &FIVE).report(&rt, &[1, 0, 1, 0, 1])?;
    Case::new(1, 0, &FIVE).report(&rt, &[1, 0, 1])?;
    Case::new(1, 0, &FIVE).report_best(&rt)?;
    Case::new(1, 3, &FIVE).report_best(&rt)?;
    Case::new(2, 0, &FIVE).report_best(&rt)?;
    Case::new(2, 3, &FIVE).report_best(&rt)?;
    Case::new(2, 0, &MARKED).report_best(&rt)?;
    Case::new(1, 0, &LONG).report_best(&rt)?;
    Case::new(4, 60, &HEARD_BY_TWO).report_best(&rt)?;
    Case::new(2, 100_001, &FIVE).report_best(&rt)?;
    Case::new(1, 0, &FIVE).report_one_dish(&rt)?;
    Case::new(1, 3, &FIVE).report_one_dish(&rt)?;
    Case::new(2, 0, &FIVE).report_capacity(&rt)?;
    Case::new(2, 3, &FIVE).report_capacity(&rt)?;
    Case::new(2, 0, &MARKED).report_capacity(&rt)
}
