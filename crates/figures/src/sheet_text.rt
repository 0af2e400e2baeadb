// The text of a basis as a sheet.
ghost use Rattle.std.specs.Prelude.{◌≡◌, ◌++◌, OnOk, IfOk, string_bytes};
ghost use Rattle.sheet.specs.Texts.{move_text, row_text, year_text, text_of};

use basis::Basis;
use std::alloc::{AllocError, Global};

// A move with no share has no line.
fn write_move<B: Basis>(
    text: &mut String,
    basis: &B,
    year: usize,
    from: usize,
    to: usize,
) -> Result<(), AllocError>
    ensures { OnOk result (string_bytes text.new ≡ string_bytes text.old
        ++ move_text year from to ((B.meaning basis.now).share from to year)) }
{
    let share = basis.share(from, to, year);
    if share == 0 {
        return Ok(());
    }
    write!(text, "T;{year};{from};{to};{share}\n")
}

fn write_row<B: Basis>(
    text: &mut String,
    basis: &B,
    year: usize,
    from: usize,
) -> Result<(), AllocError>
    ensures { OnOk result (string_bytes text.new
        ≡ string_bytes text.old ++ row_text (B.meaning basis.now) year from) }
{
    for to in 0..basis.states() {
        write_move(text, basis, year, from, to)?;
    }
    Ok(())
}

fn write_year<B: Basis>(text: &mut String, basis: &B, year: usize) -> Result<(), AllocError>
    ensures { OnOk result (string_bytes text.new
        ≡ string_bytes text.old ++ year_text (B.meaning basis.now) year) }
{
    let factor = basis.factor(year);
    write!(text, "D;{year};{factor}\n")?;
    for from in 0..basis.states() {
        write_row(text, basis, year, from)?;
    }
    Ok(())
}

// The sheet of a basis.
pub(crate) fn sheet_of<B: Basis>(heap: Global, basis: &B) -> Result<String, AllocError>
    ensures { IfOk result (λ text. string_bytes text ≡ text_of (B.meaning basis.now)) }
{
    let mut text = String::new(heap);
    let states = basis.states();
    let years = basis.years();
    write!(text, "B;{states};{years}\n")?;
    for year in 0..years {
        write_year(&mut text, basis, year)?;
    }
    text.push_str("E\n")?;
    Ok(text)
}
