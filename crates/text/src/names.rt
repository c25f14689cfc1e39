// Which words are names.
ghost use Rattle.std.specs.Prelude.{◌≡◌, map, string_bytes};
ghost use Rattle.text.specs.Names.{is_name_byte, is_name, are_names};

// How many bytes a name has at most.
const MAX_NAME: usize = 32;

// Whether a byte may stand in a name.
#[tactic(auto, using(std::proofs::lemmas::Bool::Decides::nat_tests), unfolding(crate::specs::Names::is_name_byte))]
pub(crate) fn is_name_byte(byte: u8) -> bool
    ensures { result ≡ is_name_byte byte }
{
    byte.is_ascii_alphanumeric() || matches!(byte, b'-' | b'_' | b'.')
}

// Whether a word is a name.
pub(crate) fn is_name(word: &[u8]) -> bool
    ensures { result ≡ is_name word.now }
{
    !word.is_empty() && word.len() <= MAX_NAME && word.iter().all(|byte| is_name_byte(*byte))
}

// Whether each of these is a name.
pub(crate) fn are_names(names: &[String]) -> bool
    ensures { result ≡ are_names (map string_bytes names.now) }
{
    names.iter().all(|name| is_name(name.as_bytes()))
}
