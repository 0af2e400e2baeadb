// Commands, as lines give them.
ghost use Rattle.std.specs.Prelude.{◌≡◌, IfErr, IsOkAnd};
ghost use Rattle.sheet.specs.Fields.{bytes_of};
ghost use Rattle.desk.specs.Commands.{Command as Meant, IsCommandText};
ghost use Rattle.desk.specs.Meanings.{Means, Says, TellsLine};
ghost use Rattle.desk.specs.WorkedCommands.{worked_commands, lines_of, worked_lines};

mod fields;

use fields::{alter, close, issue};
use plan::endowment::Endowment;
use sheet::line::Line;
use sheet::part::Part;
use units::fault::Fault;
use units::rule::Rule;

#[derive(Clone, Copy, PartialEq, Eq, Debug)]
pub enum Command {
    // An endowment, priced and issued on a deposit in ticks.
    Issue { plan: Endowment, deposit: i64 },
    // The year, in a state and at a rate in parts of a million.
    Close { state: usize, rate: i64 },
    // The endowment that comes in the place of the one before.
    Alter { plan: Endowment },
    Leave,
}

// The command of a line.
fn said(line: Part<'_>, years: usize) -> Result<Command, Fault>
    ensures { Says years line.entry result }
{
    let spot = line.spot();
    match Line::split(line)? {
        Line::Issue {
            sum,
            term,
            paying_years,
            deposit,
        } => issue(spot, years, sum, term, paying_years, deposit),
        Line::Close { state, rate } => close(spot, state, rate),
        Line::Alter {
            sum,
            term,
            paying_years,
        } => alter(spot, years, sum, term, paying_years),
        Line::Leave => Ok(Command::Leave),
        _ => Err(spot.fault(Rule::Form)),
    }
}

// The command of a line without its line feed, on a basis of so many years, or the first rule that
// the line breaks. Whether a contract stands or not is no rule of the line.
pub fn command_of(line: Part<'_>, years: usize) -> Result<Command, Fault>
    ensures answer { Says years line.entry result }
    ensures every_command { (c : Meant) → IsCommandText years (bytes_of line.entry) c →
        IsOkAnd result (λ command. Means command c) }
    ensures told { IfErr result (TellsLine line.entry.spot) }
    ensures worked { lines_of worked_commands ≡ worked_lines }
{
    said(line, years)
}
