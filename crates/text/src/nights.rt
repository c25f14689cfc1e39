ghost use Rattle.std.specs.Prelude.{◌≡◌, true, None, map, length, vec_len, string_bytes, IfSome};
ghost use Rattle.std.specs.Option.{is_some};
ghost use Rattle.passes.specs.Nights.{passes_of};
ghost use Rattle.slewing.specs.Slewings.{each_directed};
ghost use Rattle.text.specs.Names.{are_names, name_each};

use crate::names::are_names;
use passes::Night;
use slewing::Slewing;

// A night that was taken, with a name for each pass; and maybe with directions, for each pass too.
#[derive(Drop)]
pub struct NamedNight {
    pub(crate) night: Night,
    pub(crate) names: Vec<String>,
    pub(crate) slewing: Option<Slewing>,
    ghost one_each: { vec_len names ≡ length (passes_of night) },
    ghost named: { are_names (map string_bytes names.items) ≡ true },
    ghost directed: { each_directed (length (passes_of night)) slewing ≡ true },
}

impl NamedNight {
    // Gives the passes of a night names, in the order of the list, if there is one for each and each is a name.
    pub fn new(night: Night, names: Vec<String>) -> Option<NamedNight>
        ensures taken { is_some result ≡ name_each (length (passes_of night)) (map string_bytes names.items) }
        ensures same { IfSome result (λ n. (n.night ≡ night) × (n.slewing ≡ None) × (n.names ≡ names)) }
    {
        NamedNight::with_directions(night, None, names)
    }

    // The same, with directions for each pass, or with none at all.
    #[tactic(auto, using(std::proofs::lemmas::Bool::Decides::nat_tests), unfolding(crate::specs::Names::name_each))]
    pub(crate) fn with_directions(
        night: Night,
        slewing: Option<Slewing>,
        names: Vec<String>,
    ) -> Option<NamedNight>
        requires { each_directed (length (passes_of night)) slewing ≡ true }
        ensures taken { is_some result ≡ name_each (length (passes_of night)) (map string_bytes names.items) }
        ensures same { IfSome result (λ n. (n.night ≡ night) × (n.slewing ≡ slewing) × (n.names ≡ names)) }
    {
        if names.len() != night.passes().len() || !are_names(&names) {
            return None;
        }
        Some(NamedNight {
            night,
            names,
            slewing,
        })
    }

    // The station and the passes.
    pub fn night(&self) -> &Night
        ensures { result.now ≡ self.now.night }
    {
        &self.night
    }

    // How long dishes take for a step, and the directions of each pass, if the list has any.
    pub fn slewing(&self) -> Option<Slewing>
        ensures { result ≡ self.now.slewing }
    {
        self.slewing
    }
}
