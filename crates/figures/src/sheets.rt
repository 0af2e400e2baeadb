// Sheets: the largest there is, and one with a state too many.
use crate::sheet_text::sheet_of;
use crate::show::print_refusal;
use crate::staying::Staying;
use basis::Basis;
use basis::table::TransitionTable;
use sheet::read::read;
use sheet::table::read_into;

pub(crate) fn print_sheets(rt: &HostRuntime) -> anyhow::Result<()> {
    println!(rt; "The sheet of 8 states and 120 years in which everybody stays")?;
    let text = sheet_of(rt.alloc(), &Staying)?;
    let mut table = TransitionTable::new(rt.alloc())?;
    read_into(&mut table, text.as_bytes())?;
    let states = table.states();
    let years = table.years();
    println!(rt; "read, with m = {states} and n = {years}")?;
    println!(rt; "")?;
    println!(rt; "A sheet that begins B;9;1")?;
    print_refusal(rt, read(b"B;9;1\n", &mut [], &mut []))
}
