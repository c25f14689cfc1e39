ghost use Rattle.std.specs.Prelude.{◌≡◌, map, string_bytes};
ghost use Rattle.report.specs.Requests.{view_named, of_file, of_option, request_of, asked};

use crate::answers::View;

// How the program is called, and what a list looks like.
pub const HELP: &str =
    "zincsmock plans which dish follows which satellite's pass, so that no plan is
worth more, and prints what the plan is worth and who follows what.

    zincsmock [--timeline | --svg | --why] [FILE]
    zincsmock --help | --version

FILE, or else standard input, is a list as text, one thing to a line:
    dishes 2 turn 3                        1 to 4 dishes, seconds to turn
    pass hermes 0 10 worth 5 dishes 0 1    name, begin, end, worth, its dishes
    # a comment                            says nothing, nor does a blank line
Dishes that turn by directions, 0 to 63 around, so many seconds for a step:
    dishes 2 turn 3 step 4
    pass hermes 0 10 worth 5 dishes 0 1 directions 12 40    its begin and end
Passes come in order of begin, at most 48, up to second and worth 1000000.
Dishes count from 0. A name is 1 to 32 letters, digits, - _ or .

--timeline draws the plan as text, and --svg as a drawing for a browser.
--why prints the plan, and of each pass what it would have to be worth.
A list that is turned away is told on standard error, and the status is 1.
";

// What is asked of the program.
#[derive(Clone, Copy, Debug, PartialEq)]
pub enum Request<'a> {
    Help,
    Version,
    // To plan the list in a file, or from standard input, and to show the plan so.
    Plan { view: View, path: Option<&'a str> },
    // Nothing that it does.
    Unknown,
}

impl<'a> Request<'a> {
    // What arguments ask for, without the program's own name.
    #[tactic(auto, unfolding(crate::specs::Requests::request_of))]
    pub fn of(args: &'a [String]) -> Request<'a>
        ensures { asked result ≡ request_of (map string_bytes args.now) }
    {
        match args {
            [] => Request::Plan {
                view: View::Plan,
                path: None,
            },
            [only] => Request::of_option(only.as_str()),
            [option, path] => match view_named(option.as_str()) {
                Some(view) => Request::of_file(view, path.as_str()),
                None => Request::Unknown,
            },
            _ => Request::Unknown,
        }
    }

    // What one argument asks for.
    #[tactic(auto, unfolding(crate::specs::Requests::of_option))]
    fn of_option(arg: &'a str) -> Request<'a>
        ensures { asked result ≡ of_option arg.now }
    {
        if arg == "--help" {
            Request::Help
        } else if arg == "--version" {
            Request::Version
        } else if let Some(view) = view_named(arg) {
            Request::Plan { view, path: None }
        } else {
            Request::of_file(View::Plan, arg)
        }
    }

    // A file, whose name may not begin as an option does.
    #[tactic(auto, unfolding(crate::specs::Requests::of_file))]
    fn of_file(view: View, path: &'a str) -> Request<'a>
        ensures { asked result ≡ of_file view path.now }
    {
        if path.as_bytes().first() == Some(&b'-') {
            return Request::Unknown;
        }
        Request::Plan {
            view,
            path: Some(path),
        }
    }
}

// The view that an option asks for.
#[tactic(auto, unfolding(crate::specs::Requests::view_named))]
fn view_named(option: &str) -> Option<View>
    ensures { result ≡ view_named option.now }
{
    if option == "--timeline" {
        Some(View::Timeline)
    } else if option == "--svg" {
        Some(View::Svg)
    } else if option == "--why" {
        Some(View::Why)
    } else {
        None
    }
}
