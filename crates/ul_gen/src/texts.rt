//! Pieces of the texts.

ghost use Rattle.std.specs.Prelude.{◌≡◌, ◌++◌, OnOk, decimal, string_bytes};
ghost use Rattle.ul_gen.specs.Texts.{name_text};

use std::alloc::AllocError;
use std::fmt::Write;

/// Appends the decimal digits of a number.
pub(crate) fn put_number(text: &mut String, number: u64) -> Result<(), AllocError>
    ensures { OnOk result (string_bytes text.new ≡ string_bytes text.old ++ decimal number) }
{
    match write!(text, "{number}") {
        Ok(()) => Ok(()),
        Err(_) => Err(AllocError),
    }
}

/// Appends a package's name.
pub(crate) fn put_name(text: &mut String, k: u64) -> Result<(), AllocError>
    ensures { OnOk result (string_bytes text.new ≡ string_bytes text.old ++ name_text k) }
{
    text.push_str("g")?;
    put_number(text, k)?;
    Ok(())
}
