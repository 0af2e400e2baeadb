// A session: all the memory that any input can need, and what is answered in it.
ghost use Rattle.std.specs.Prelude.{◌≡◌, ◌≤◌, ℕ, List, [], IfOk};
ghost use Rattle.std.specs.String.{string_bytes, string_capacity};
ghost use Rattle.desk.specs.Inputs.{IsAnswer, most_text_bytes};
ghost use Rattle.desk.specs.WorkedInput.{WorkedInput};

mod lines;

use crate::reply::MOST_REPLY_BYTES;
use basis::table::TransitionTable;
use lines::{answer_commands, write_refusal};
use sheet::spot::Spot;
use sheet::table::read_into;
use std::alloc::{AllocError, Global};
use streams::input::MOST_BYTES;
use units::rule::Rule;

// The basis of the sheet that was read last, and the text that was answered last. Each line of an
// input has a byte at least, and a reply at most.
#[derive(Drop)]
pub struct Session {
    basis: TransitionTable,
    text: String,
    ghost room: { most_text_bytes ≤ string_capacity text },
}

// Writes the answer to an input in the place of a text, over a table for the basis of its sheet.
fn write_answer(basis: &mut TransitionTable, bytes: &[u8], out: &mut String)
    requires { most_text_bytes ≤ string_capacity out.old }
    ensures answer { IsAnswer bytes.now (string_bytes out.new) }
    ensures room { string_capacity out.old ≤ string_capacity out.new }
{
    let start = Spot { line: 1, offset: 0 };
    out.clear();
    if bytes.len() > MOST_BYTES {
        return write_refusal(out, start, start.fault(Rule::Input));
    }
    match read_into(basis, bytes) {
        Ok(rest) => answer_commands(basis, rest, out),
        Err(fault) => write_refusal(out, start, fault),
    }
}

impl Session {
    // Asks for the memory. Want of it is the one failure, and comes here alone.
    pub fn new(heap: Global) -> Result<Session, AllocError>
        ensures { IfOk result (λ session. string_bytes session.text ≡ []) }
    {
        let basis = TransitionTable::new(heap)?;
        let text = String::with_capacity(heap, MOST_BYTES * MOST_REPLY_BYTES)?;
        Ok(Session { basis, text })
    }

    // The text that answers an input: a sheet, and commands on its basis. What was answered before
    // makes no difference.
    pub fn answer(&mut self, bytes: &[u8]) -> &str
        ensures answer { IsAnswer bytes.now result.now }
        ensures no_other_answer { (other : List ℕ) → IsAnswer bytes.now other → result.now ≡ other }
        ensures worked { WorkedInput }
    {
        write_answer(&mut self.basis, bytes, &mut self.text);
        self.text.as_str()
    }
}
