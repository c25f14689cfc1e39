// The words of a line, and what they stand for.
ghost use Rattle.std.specs.Prelude.{◌≡◌, true, map, IfOk};
ghost use Rattle.text.specs.Names.{is_name};
ghost use Rattle.text.specs.Results.{Gives};
ghost use Rattle.text.specs.Words.{is_blank, lines_of, words_of, number_at, name_at};

use crate::faults::LineFault;
use crate::names::is_name;
use std::alloc::{AllocError, Global};

// Whether a byte separates words: a space, a tab, or the carriage return with which Windows ends lines.
#[tactic(auto, using(std::proofs::lemmas::Bool::Decides::nat_tests), unfolding(crate::specs::Words::is_blank))]
pub(crate) fn is_blank(byte: u8) -> bool
    ensures { result ≡ is_blank byte }
{
    byte == b' ' || byte == b'\t' || byte == b'\r'
}

// What stands before, between and behind the line feeds.
pub(crate) fn lines_of(alloc: Global, text: &[u8]) -> Result<Vec<&[u8]>, AllocError>
    ensures { IfOk result (λ lines. map (λ l. l.now) lines.items ≡ lines_of text.now) }
{
    text.split(|byte| *byte == b'\n').collect(alloc)
}

// What stands between blanks.
pub(crate) fn words_of(alloc: Global, line: &[u8]) -> Result<Vec<&[u8]>, AllocError>
    ensures { IfOk result (λ words. map (λ w. w.now) words.items ≡ words_of line.now) }
{
    line.split(|byte| is_blank(*byte))
        .filter(|word| !word.is_empty())
        .collect(alloc)
}

// The number that a word stands for.
pub(crate) fn number_of(word: &[u8]) -> Result<u32, LineFault>
    ensures { result ≡ number_at word.now }
{
    let Ok(digits) = str::from_utf8(word) else {
        return Err(LineFault::BadNumber);
    };
    // A number may not have a sign, which `parse` would take.
    if digits.starts_with('+') {
        return Err(LineFault::BadNumber);
    }
    digits.parse().map_err(|_| LineFault::BadNumber)
}

// The name that a word is.
pub(crate) fn name_of(word: &[u8]) -> Result<&str, LineFault>
    ensures read { Gives (λ name. name.now) result (name_at word.now) }
    ensures named { IfOk result (λ name. is_name name.now ≡ true) }
{
    if !is_name(word) {
        return Err(LineFault::BadName);
    }
    str::from_utf8(word).map_err(|_| LineFault::BadName)
}
