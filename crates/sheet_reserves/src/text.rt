// Text in columns.
ghost use Rattle.std.specs.Prelude.{◌≡◌, ◌++◌, OnOk, replicate};
ghost use Rattle.std.specs.String.{string_bytes};
ghost use Rattle.sheet_reserves.specs.Pages.{at_right};

use std::alloc::AllocError;

// Writes a text.
pub(crate) fn write_text(out: &mut String, text: &str) -> Result<(), AllocError>
    ensures { OnOk result (string_bytes out.new ≡ string_bytes out.old ++ text.now) }
{
    out.push_str(text)
}

fn write_spaces(out: &mut String, count: usize) -> Result<(), AllocError>
    ensures { OnOk result (string_bytes out.new ≡ string_bytes out.old ++ replicate count 32) }
{
    for _ in 0..count {
        write_text(out, " ")?;
    }
    Ok(())
}

// Writes a text so that it ends so many places on, and whole where it is longer.
pub(crate) fn write_at_right(out: &mut String, width: usize, text: &str) -> Result<(), AllocError>
    ensures { OnOk result
        (string_bytes out.new ≡ string_bytes out.old ++ at_right width text.now) }
{
    write_spaces(out, width.saturating_sub(text.len()))?;
    write_text(out, text)
}
