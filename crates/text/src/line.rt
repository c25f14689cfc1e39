// What a line may say.
ghost use Rattle.std.specs.Prelude.{◌≡◌, true};
ghost use Rattle.text.specs.Names.{is_name};

// A pass as four numbers, whether sound or not.
#[derive(Clone, Copy)]
pub(crate) struct Numbers {
    pub from: u32,
    pub to: u32,
    pub worth: u32,
    pub marks: u32,
}

// The directions at which a pass begins and ends, as numbers, whether directions or not.
#[derive(Clone, Copy)]
pub(crate) struct Ends {
    pub begin: u32,
    pub end: u32,
}

// A pass as a line names it.
#[derive(Clone, Copy)]
pub(crate) struct NamedPass<'a> {
    pub name: &'a str,
    pub numbers: Numbers,
    pub directions: Option<Ends>,
    ghost named: { is_name name.now ≡ true },
}

// What a line says.
#[derive(Clone, Copy)]
pub(crate) enum Line<'a> {
    // It is blank, or a comment.
    Nothing,
    Station {
        dishes: u32,
        turn: u32,
        step: Option<u32>,
    },
    Pass(NamedPass<'a>),
}
