// A fault in plain words, the same under every width, sign and `#`. By hand: of what a derived
// display writes, a contract could say nothing.
ghost use Rattle.std.specs.Prelude.{◌≡◌, Some};
ghost use Rattle.units.specs.FaultTexts.{layer_text, place_text, text_of_fault};
ghost use Rattle.units.specs.Rules.{rule_text};

use crate::fault::{Fault, Layer, Place};
use crate::rule::Rule;
use crate::unpadded::write_unpadded;
use std::error::Error;
use std::fmt;

impl fmt::Display for Layer {
    ghost output = { λ x. Some (layer_text x) };

    ghost styled_output = { λ x _. Some (layer_text x) };

    fn fmt<W: fmt::Write>(&self, f: &mut fmt::Formatter<W>) -> fmt::Result {
        match self {
            Layer::Field => f.write_str("field"),
            Layer::Sheet => f.write_str("sheet"),
            Layer::Basis => f.write_str("basis"),
            Layer::Plan => f.write_str("plan"),
            Layer::Contract => f.write_str("contract"),
        }
    }
}

impl fmt::Display for Place {
    ghost output = { λ x. Some (place_text x) };

    ghost styled_output = { λ x _. Some (place_text x) };

    fn fmt<W: fmt::Write>(&self, f: &mut fmt::Formatter<W>) -> fmt::Result {
        match self {
            Place::Text { line, offset } => {
                write_unpadded(f, format_args!("line {line}, offset {offset}"))
            }
            Place::Entry { year, state } => {
                write_unpadded(f, format_args!("year {year}, state {state}"))
            }
        }
    }
}

// The words of the rule that a number stands for, or those for all other numbers. A fault keeps a
// number, so this takes one.
fn words(number: u8) -> &'static str
    ensures { result.now ≡ rule_text number }
{
    match Rule::try_from(number) {
        Ok(rule) => rule.words(),
        Err(_) => "a rule is broken",
    }
}

impl fmt::Display for Fault {
    ghost output = { λ x. Some (text_of_fault x) };

    ghost styled_output = { λ x _. Some (text_of_fault x) };

    fn fmt<W: fmt::Write>(&self, f: &mut fmt::Formatter<W>) -> fmt::Result {
        let number = self.number;
        let layer = self.layer;
        let place = self.place;
        let words = words(number);
        write_unpadded(
            f,
            format_args!("refused with {number} by the {layer} at {place}: {words}"),
        )
    }
}

impl Error for Fault {}
