// Where a text is at fault.
ghost use Rattle.std.specs.Prelude.{◌≡◌};
ghost use Rattle.units.specs.Faults.{text_fault};
ghost use Rattle.units.specs.Rules.{rule_number, rule_layer};

use units::fault::Fault;
use units::rule::Rule;

// A byte of the input: its line, counted from 1, and its offset in the whole input, counted from 0.
#[derive(Clone, Copy, PartialEq, Eq, Debug)]
pub struct Spot {
    pub line: usize,
    pub offset: usize,
}

impl Spot {
    // The breach of a rule that is told here.
    pub fn fault(self, rule: Rule) -> Fault
        ensures { result ≡ text_fault (rule_number rule) (rule_layer rule) self.line self.offset }
    {
        Fault::in_text(rule, self.line, self.offset)
    }
}
