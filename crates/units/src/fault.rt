// A refusal: what is wrong, who found it, and where.
ghost use Rattle.std.specs.Prelude.{◌≡◌};
ghost use Rattle.units.specs.Faults.{entry_fault, text_fault};
ghost use Rattle.units.specs.Rules.{rule_number, rule_layer};

use crate::rule::Rule;

// The part of the engine that found a fault.
#[derive(Clone, Copy, PartialEq, Eq, Debug)]
pub enum Layer {
    Field,
    Sheet,
    Basis,
    Plan,
    Contract,
}

// Where a fault stands: in a text, lines counted from 1 and bytes from 0, or at a year and a state.
#[derive(Clone, Copy, PartialEq, Eq, Debug)]
pub enum Place {
    Text { line: usize, offset: usize },
    Entry { year: usize, state: usize },
}

#[derive(Clone, Copy, PartialEq, Eq, Debug)]
pub struct Fault {
    // As it is printed. A `Rule` would be narrower: callers may make faults of any number.
    pub number: u8,
    pub layer: Layer,
    pub place: Place,
}

impl Fault {
    // The breach of a rule at a year and a state, found by the part of the engine that checks it.
    pub fn breach(rule: Rule, year: usize, state: usize) -> Fault
        ensures { result ≡ entry_fault (rule_number rule) (rule_layer rule) year state }
    {
        Fault::at_entry(rule.number(), rule.layer(), year, state)
    }

    // The breach of a rule at a byte of a line, found by the part of the engine that checks it.
    pub fn in_text(rule: Rule, line: usize, offset: usize) -> Fault
        ensures { result ≡ text_fault (rule_number rule) (rule_layer rule) line offset }
    {
        Fault {
            number: rule.number(),
            layer: rule.layer(),
            place: Place::Text { line, offset },
        }
    }

    // A fault of any number at a year and a state. It stays beside `breach`, since a rule would be
    // narrower than a number.
    pub fn at_entry(number: u8, layer: Layer, year: usize, state: usize) -> Fault
        ensures { result ≡ entry_fault number layer year state }
    {
        Fault {
            number,
            layer,
            place: Place::Entry { year, state },
        }
    }
}
