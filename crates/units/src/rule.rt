// The rules whose breach is told, each under the number that callers know it by.
ghost use Rattle.std.specs.Prelude.{◌≡◌, Some, ◌++◌, codes, decimal};
ghost use Rattle.units.specs.Rules.{rule_number, rule_layer, rule_text, Decodes};

use crate::fault::Layer;
use crate::unpadded::write_unpadded;
use std::error::Error;
use std::fmt;

#[derive(Clone, Copy, PartialEq, Eq, Debug)]
pub enum Rule {
    // How long the input may be.
    Input,
    // That a line ends in time.
    LineFeed,
    // The letter of a line, and how many fields it has.
    Form,
    // That a field is a number in decimal.
    Number,
    // That the number of a field lies in its range.
    Range,
    // That the columns are long enough for a sheet.
    Room,
    // That the years of a sheet, and the moves of a year, rise.
    Order,
    // That a row of a sheet makes the million.
    Row,
    // The numbers of states and years, and the lengths of columns, of a basis.
    Size,
    Factor,
    Share,
    // All that a plan is made of.
    Payment,
    // That a command finds a contract, or none where it issues one.
    Standing,
    StartState,
    Deposit,
    // That a year is left to close.
    YearLeft,
    EndState,
    // The rate that was earned.
    Rate,
    // That the move of a closing has a share.
    PossibleMove,
    // That some premium in range suffices.
    Premium,
    // That a closing or an alteration can be given a number.
    NumberLeft,
    // That the course fits into the column for it.
    Course,
}

impl Rule {
    pub fn number(self) -> u8
        ensures { result ≡ rule_number self }
    {
        match self {
            Rule::Input => 1,
            Rule::LineFeed => 2,
            Rule::Form => 3,
            Rule::Number => 4,
            Rule::Range => 5,
            Rule::Room => 6,
            Rule::Order => 7,
            Rule::Row => 8,
            Rule::Size => 9,
            Rule::Factor => 10,
            Rule::Share => 11,
            Rule::Payment => 12,
            Rule::Standing => 13,
            Rule::StartState => 14,
            Rule::Deposit => 15,
            Rule::YearLeft => 16,
            Rule::EndState => 17,
            Rule::Rate => 18,
            Rule::PossibleMove => 19,
            Rule::Premium => 20,
            Rule::NumberLeft => 21,
            Rule::Course => 22,
        }
    }

    // The part of the engine that checks the rule.
    pub fn layer(self) -> Layer
        ensures { result ≡ rule_layer self }
    {
        match self {
            Rule::Number | Rule::Range => Layer::Field,
            Rule::Input
            | Rule::LineFeed
            | Rule::Form
            | Rule::Room
            | Rule::Order
            | Rule::Row
            | Rule::Standing => Layer::Sheet,
            Rule::Size | Rule::Factor | Rule::Share => Layer::Basis,
            Rule::Payment => Layer::Plan,
            Rule::StartState
            | Rule::Deposit
            | Rule::YearLeft
            | Rule::EndState
            | Rule::Rate
            | Rule::PossibleMove
            | Rule::Premium
            | Rule::NumberLeft
            | Rule::Course => Layer::Contract,
        }
    }

    // What is wrong where the rule is broken, in plain words.
    pub fn words(self) -> &'static str
        ensures { result.now ≡ rule_text (rule_number self) }
    {
        match self {
            Rule::Input => "the input has more than 60000 bytes",
            Rule::LineFeed => "a line has no line feed within 40 bytes",
            Rule::Form => "a letter may not stand here or the number of fields differs",
            Rule::Number => "a field is not 1 to 11 digits without leading nought",
            Rule::Range => "a number is outside its range",
            Rule::Room => "the columns are shorter than the sheet needs",
            Rule::Order => "a year or a pair of states is out of order",
            Rule::Row => "a row misses the million",
            Rule::Size => "the number of states or years or the length of a column is unfit",
            Rule::Factor => "a factor is outside 1 to a million",
            Rule::Share => "a share is outside 0 to a million or a row misses the million",
            Rule::Payment =>
                "a year, a state or the length of a column of a plan is unfit or an entry is out of range",
            Rule::Standing =>
                "a command needs a contract and none stands or a contract stands already",
            Rule::StartState => "the start state is not in the basis",
            Rule::Deposit => "the deposit is outside 0 to the limit",
            Rule::YearLeft => "no year is left to close",
            Rule::EndState => "the end state is not in the basis",
            Rule::Rate => "the rate is outside -500000 to 500000",
            Rule::PossibleMove => "the share of the move is nought",
            Rule::Premium => "no premium from 0 to the limit will do",
            Rule::NumberLeft => "number 9999 has been given",
            Rule::Course => "the column for the course is too short",
        }
    }
}

// A number that no rule here goes by.
#[derive(Clone, Copy, PartialEq, Eq, Debug)]
pub struct UnknownRule(pub u8);

impl TryFrom<u8> for Rule {
    type Error = UnknownRule;

    ghost try_from_gives = { Decodes };

    fn try_from(number: u8) -> Result<Rule, UnknownRule> {
        match number {
            1 => Ok(Rule::Input),
            2 => Ok(Rule::LineFeed),
            3 => Ok(Rule::Form),
            4 => Ok(Rule::Number),
            5 => Ok(Rule::Range),
            6 => Ok(Rule::Room),
            7 => Ok(Rule::Order),
            8 => Ok(Rule::Row),
            9 => Ok(Rule::Size),
            10 => Ok(Rule::Factor),
            11 => Ok(Rule::Share),
            12 => Ok(Rule::Payment),
            13 => Ok(Rule::Standing),
            14 => Ok(Rule::StartState),
            15 => Ok(Rule::Deposit),
            16 => Ok(Rule::YearLeft),
            17 => Ok(Rule::EndState),
            18 => Ok(Rule::Rate),
            19 => Ok(Rule::PossibleMove),
            20 => Ok(Rule::Premium),
            21 => Ok(Rule::NumberLeft),
            22 => Ok(Rule::Course),
            _ => Err(UnknownRule(number)),
        }
    }
}

// By hand, as the next: of what a derived display writes, a contract could say nothing.
impl fmt::Display for Rule {
    ghost output = { λ x. Some (rule_text (rule_number x)) };

    ghost styled_output = { λ x _. Some (rule_text (rule_number x)) };

    fn fmt<W: fmt::Write>(&self, f: &mut fmt::Formatter<W>) -> fmt::Result {
        f.write_str(self.words())
    }
}

impl fmt::Display for UnknownRule {
    ghost output = { λ x. Some (codes "no rule goes by " ++ decimal x.0) };

    ghost styled_output = { λ x _. Some (codes "no rule goes by " ++ decimal x.0) };

    fn fmt<W: fmt::Write>(&self, f: &mut fmt::Formatter<W>) -> fmt::Result {
        let number = self.0;
        write_unpadded(f, format_args!("no rule goes by {number}"))
    }
}

impl Error for UnknownRule {}
