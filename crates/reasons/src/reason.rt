ghost use Rattle.std.specs.Prelude.{◌≡◌};
ghost use Rattle.reasons.specs.Following.{followed_reason};

// Why the plan follows a pass, or lets it go.
#[derive(Drop)]
pub enum Reason {
    // The plan follows it. A best plan still would if it were worth so much less, and none if it were worth less than that.
    Followed {
        spare: u32,
    },
    // The plan follows it, and it is worth nothing.
    WorthNothing,
    // The plan doesn't follow it, and another best plan does.
    AsWell,
    // No best plan follows it. For one to do so it would have to be worth `needed`. Of the plans that follow it a best one is worth `with`, lets these passes go
    // that the plan follows, and follows these others that the plan doesn't.
    Needs {
        worth: u32,
        needed: u32,
        with: u64,
        goes: Vec<String>,
        comes: Vec<String>,
    },
    // No good plan can follow it, whatever it is worth.
    NoDish,
}

impl Reason {
    // Why a plan follows a pass that is worth so much, and so much more than it needs.
    pub(crate) fn followed(worth: u32, spare: u32) -> Reason
        ensures { result ≡ followed_reason worth spare }
    {
        if worth == 0 {
            Reason::WorthNothing
        } else {
            Reason::Followed { spare }
        }
    }
}
