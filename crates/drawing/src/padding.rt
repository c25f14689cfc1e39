ghost use Rattle.std.specs.Prelude.{◌≡◌, ◌<◌, ◌++◌, ◌∷◌, [], OnOk, string_bytes};
ghost use Rattle.std.specs.Fmt.{decimal};
ghost use Rattle.drawing.specs.Padding.{spaces, left, right};

use std::alloc::{AllocError, Global};

// Writes one byte, which is a character.
pub(crate) fn push_byte(out: &mut String, byte: u8) -> Result<(), AllocError>
    requires { byte < 128 }
    ensures { OnOk result (string_bytes out.new ≡ string_bytes out.old ++ byte ∷ []) }
{
    out.push(char::from(byte))
}

// Writes so many spaces.
pub(crate) fn push_spaces(out: &mut String, count: usize) -> Result<(), AllocError>
    ensures { OnOk result (string_bytes out.new ≡ string_bytes out.old ++ spaces count) }
{
    for _i in 0..count {
        out.push(' ')?;
    }
    Ok(())
}

// Writes a text at the left of a column of this width.
pub(crate) fn push_left(out: &mut String, width: usize, text: &str) -> Result<(), AllocError>
    ensures { OnOk result (string_bytes out.new ≡ string_bytes out.old ++ left width text.now) }
{
    out.push_str(text)?;
    push_spaces(out, width.saturating_sub(text.len()))
}

// Writes a number at the left of a column of this width.
pub(crate) fn push_number_left(
    alloc: Global,
    out: &mut String,
    width: usize,
    number: u64,
) -> Result<(), AllocError>
    ensures { OnOk result (string_bytes out.new ≡ string_bytes out.old ++ left width (decimal number)) }
{
    let digits = number.to_string(alloc)?;
    push_left(out, width, digits.as_str())
}

// Writes a number at the right of a column of this width.
pub(crate) fn push_number_right(
    alloc: Global,
    out: &mut String,
    width: usize,
    number: u64,
) -> Result<(), AllocError>
    ensures { OnOk result (string_bytes out.new ≡ string_bytes out.old ++ right width (decimal number)) }
{
    let digits = number.to_string(alloc)?;
    push_spaces(out, width.saturating_sub(digits.len()))?;
    out.push_str(digits.as_str())
}
