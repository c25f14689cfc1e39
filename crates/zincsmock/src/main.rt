// Plans the list of passes in a file, or from standard input, and prints the plan; or says why the list is turned away.
#![tactic(auto)]

use report::{Answer, HELP, Request, View, respond};
use std::io::Read;
use std::process::ExitCode;
use std::{env, fs, io};

const VERSION: &str = "zincsmock 0.8.0";

// How the process ends where it was called for nothing that it does.
const MISUSED: u8 = 2;

fn main(rt: HostRuntime) -> ExitCode {
    match run(&rt) {
        Ok(code) => code,
        Err(error) => {
            // Nothing is left to be done where this can't be printed either.
            let _ = eprintln!(rt; "zincsmock: {error}");
            ExitCode::FAILURE
        }
    }
}

// Does what the arguments ask for.
fn run(rt: &HostRuntime) -> io::Result<ExitCode> {
    let args: Vec<String> = env::args(rt)?.skip(1).collect(rt.alloc())?;
    match Request::of(&args) {
        Request::Help => print!(rt; "{HELP}")?,
        Request::Version => println!(rt; "{VERSION}")?,
        Request::Plan { view, path } => return plan(rt, view, path),
        Request::Unknown => {
            eprintln!(rt;
                "zincsmock: these arguments are not known; zincsmock --help says which are"
            )?;
            return Ok(ExitCode::from(MISUSED));
        }
    }
    Ok(ExitCode::SUCCESS)
}

// Plans the list in a file, or from standard input.
fn plan(rt: &HostRuntime, view: View, path: Option<&str>) -> io::Result<ExitCode> {
    let text = match read(rt, path) {
        Ok(text) => text,
        Err(error) => {
            let name = path.unwrap_or("standard input");
            eprintln!(rt; "zincsmock: {name}: {error}")?;
            return Ok(ExitCode::FAILURE);
        }
    };
    match respond(rt.alloc(), view, &text)? {
        Answer::Planned(shown) => {
            print!(rt; "{shown}")?;
            Ok(ExitCode::SUCCESS)
        }
        Answer::TurnedAway(line) => {
            eprint!(rt; "{line}")?;
            Ok(ExitCode::FAILURE)
        }
    }
}

// All bytes of a file, or of standard input.
fn read(rt: &HostRuntime, path: Option<&str>) -> io::Result<Vec<u8>> {
    let Some(path) = path else {
        let mut text = Vec::new(rt.alloc());
        rt.reader().read_to_end(&mut text)?;
        return Ok(text);
    };
    fs::read(rt, path)
}
