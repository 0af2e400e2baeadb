// The lines of an input after its sheet.
ghost use Rattle.std.specs.Prelude.{◌≡◌, ◌*◌, ◌≤◌, ◌++◌, ℕ, List, Option, None, length};
ghost use Rattle.std.specs.String.{string_bytes, string_capacity};
ghost use Rattle.basis.specs.TransitionTables.{transition_table};
ghost use Rattle.contract.specs.Standings.{Ledger};
ghost use Rattle.sheet.specs.Fields.{bytes_of};
ghost use Rattle.desk.specs.Replies.{most_reply_bytes, reply_text};
ghost use Rattle.desk.specs.Rooms.{HasRoom, Grows};
ghost use Rattle.desk.specs.Serving.{Keeps};
ghost use Rattle.desk.specs.Sessions.{Replies, Session, told_at};

use crate::command::command_of;
use crate::reply::{Reply, write_reply};
use crate::serve::{HeldContract, refusal, serve};
use basis::Basis;
use basis::table::TransitionTable;
use sheet::part::Part;
use sheet::spot::Spot;
use units::fault::Fault;

// The reply to a line, and the contract that is held after it.
fn reply_to<'a>(
    basis: &'a TransitionTable,
    held: Option<HeldContract<'a>>,
    line: Part<'_>,
) -> (Option<HeldContract<'a>>, Reply)
    ensures { (kept : Option Ledger) → Keeps basis.now held.entry kept → (then : Option Ledger)
        × Replies (transition_table basis.now) kept line.entry.spot (bytes_of line.entry)
        result.1 then
        × Keeps basis.now result.0 then }
{
    let spot = line.spot();
    match command_of(line, basis.years()) {
        Ok(command) => serve(basis, held, spot, command),
        Err(fault) => (held, refusal(spot, fault)),
    }
}

// Writes the reply to what is refused at a spot.
pub(super) fn write_refusal(out: &mut String, spot: Spot, fault: Fault)
    requires { HasRoom out.old most_reply_bytes }
    ensures { Grows out.old out.new (reply_text (told_at spot fault)) most_reply_bytes }
{
    write_reply(out, refusal(spot, fault))
}

// Answers the commands in what is left of the input, each by a line behind the text.
pub(super) fn answer_commands(basis: &TransitionTable, rest: Part<'_>, out: &mut String)
    requires { HasRoom out.old (length (bytes_of rest) * most_reply_bytes) }
    ensures answers { (text : List ℕ) ×
        Session (transition_table basis.now) None rest.entry.spot (bytes_of rest.entry) text
        × (string_bytes out.new ≡ string_bytes out.old ++ text) }
    ensures room { string_capacity out.old ≤ string_capacity out.new }
{
    let mut held: Option<HeldContract<'_>> = None;
    let mut text = rest;
    while !text.bytes().is_empty() {
        let (line, after) = match text.first_line() {
            Ok(parts) => parts,
            Err(fault) => return write_refusal(out, text.spot(), fault),
        };
        let (next, reply) = reply_to(basis, held, line);
        held = next;
        write_reply(out, reply);
        text = after;
    }
}
