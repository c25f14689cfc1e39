// Lists as text.
ghost use Rattle.std.specs.Prelude.{◌≡◌, ◌<◌, ◌++◌, None, get_or, option_map, string_bytes, vec_len, IfOk, OnOk, Ok};
ghost use Rattle.passes.specs.Nights.{passes_of};
ghost use Rattle.slewing.specs.Slewings.{directed_of};
ghost use Rattle.text.specs.Lists.{list_of};
ghost use Rattle.text.specs.Reading.{read_text};
ghost use Rattle.text.specs.Writing.{behind, line, step_words, station_words, dish_words, direction_words, pass_words, step_of, sweeps_each, written};

use crate::nights::NamedNight;
use passes::{MAX_DISHES, Pass, Station};
use slewing::Sweep;
use std::alloc::{AllocError, Global};
use std::fmt::Write;

impl NamedNight {
    // The station and its passes as a text, which reads as this list.
    pub fn write(&self, alloc: Global) -> Result<String, AllocError>
        ensures written { IfOk result (λ t. string_bytes t ≡ written (list_of self.now)) }
        ensures again { IfOk result (λ t. read_text (string_bytes t) ≡ Ok (list_of self.now)) }
    {
        let mut text = String::new(alloc);
        write_station(&mut text, self.night.station(), self.step())?;
        for (pass, name) in self.names.iter().enumerate() {
            write_pass(&mut text, name, self.night.passes()[pass], self.sweep(pass))?;
        }
        Ok(text)
    }

    // How many seconds dishes take for a step, if the list has directions.
    fn step(&self) -> Option<u32>
        ensures { result ≡ step_of (option_map directed_of self.now.slewing) }
    {
        match &self.slewing {
            Some(slewing) => Some(slewing.step()),
            None => None,
        }
    }

    // The directions of a pass, if the list has any.
    fn sweep(&self, pass: usize) -> Option<Sweep>
        requires { pass < vec_len self.now.names }
        ensures { result ≡ get_or (sweeps_each (option_map directed_of self.now.slewing) (passes_of self.now.night)) pass None }
    {
        match &self.slewing {
            Some(slewing) => Some(slewing.sweeps()[pass]),
            None => None,
        }
    }
}

// Writes the line of a station.
fn write_station(text: &mut String, station: Station, step: Option<u32>) -> Result<(), AllocError>
    ensures { OnOk result (string_bytes text.new ≡ string_bytes text.old ++ line (station_words station step)) }
{
    write!(text, "dishes {} turn {}", station.dishes, station.turn)?;
    write_step(text, step)?;
    text.push('\n')
}

// Writes the seconds for a step, if there are any.
fn write_step(text: &mut String, step: Option<u32>) -> Result<(), AllocError>
    ensures { OnOk result (string_bytes text.new ≡ string_bytes text.old ++ behind (step_words step)) }
{
    match step {
        Some(step) => write!(text, " step {step}"),
        None => Ok(()),
    }
}

// Writes the line of a pass.
fn write_pass(
    text: &mut String,
    name: &str,
    pass: Pass,
    sweep: Option<Sweep>,
) -> Result<(), AllocError>
    ensures { OnOk result (string_bytes text.new ≡ string_bytes text.old ++ line (pass_words name.now pass sweep)) }
{
    write!(
        text,
        "pass {name} {} {} worth {} dishes",
        pass.from, pass.to, pass.worth
    )?;
    write_dishes(text, pass)?;
    write_directions(text, sweep)?;
    text.push('\n')
}

// Writes the dishes that may follow a pass.
fn write_dishes(text: &mut String, pass: Pass) -> Result<(), AllocError>
    ensures { OnOk result (string_bytes text.new ≡ string_bytes text.old ++ behind (dish_words pass)) }
{
    for dish in 0..MAX_DISHES as u8 {
        if pass.may_be_followed_by(dish) {
            write!(text, " {dish}")?;
        }
    }
    Ok(())
}

// Writes the directions of a pass, if it has any.
fn write_directions(text: &mut String, sweep: Option<Sweep>) -> Result<(), AllocError>
    ensures { OnOk result (string_bytes text.new ≡ string_bytes text.old ++ behind (direction_words sweep)) }
{
    match sweep {
        Some(sweep) => write!(text, " directions {} {}", sweep.begin, sweep.end),
        None => Ok(()),
    }
}
