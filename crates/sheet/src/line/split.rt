// Lines from their bytes.
ghost use Rattle.std.specs.Prelude.{◌≡◌, ℕ, false, List, length, map, MatchOption, IfSome, IfOk};
ghost use Rattle.sheet.specs.Fields.{bytes_of, parts_left, StandFrom, StandsIn, AllStandIn};
ghost use Rattle.sheet.specs.Lines.{parts, has_fields, has_form};
ghost use Rattle.sheet.specs.Outcomes.{SplitsLine};
ghost use Rattle.sheet.specs.SplitLines.{letter, fields, IsLine};

use super::Line;
use crate::part::Part;
use units::fault::Fault;
use units::rule::Rule;

// The line of a letter and the fields that stand in the rest of it.
fn with_fields<'a>(byte: u8, rest: Option<Part<'a>>) -> Option<Line<'a>>
    ensures { MatchOption result (has_fields byte (length (parts_left rest.entry)) ≡ false) (λ line.
        (letter line ≡ byte)
        × (parts_left rest.entry ≡ map bytes_of (fields line))
        × IfSome rest.entry (λ part. StandFrom part.spot (fields line))) }
{
    match char::from(byte) {
        'B' => {
            let (states, years) = rest?.two()?;
            Some(Line::Basis { states, years })
        }
        'D' => {
            let (year, factor) = rest?.two()?;
            Some(Line::Year { year, factor })
        }
        'T' => {
            let (year, from, to, share) = rest?.four()?;
            Some(Line::Move {
                year,
                from,
                to,
                share,
            })
        }
        'E' if rest.is_none() => Some(Line::End),
        'Q' => {
            let (sum, term, paying_years, deposit) = rest?.four()?;
            Some(Line::Issue {
                sum,
                term,
                paying_years,
                deposit,
            })
        }
        'C' => {
            let (state, rate) = rest?.two()?;
            Some(Line::Close { state, rate })
        }
        'A' => {
            let (sum, term, paying_years) = rest?.three()?;
            Some(Line::Alter {
                sum,
                term,
                paying_years,
            })
        }
        'L' if rest.is_none() => Some(Line::Leave),
        _ => None,
    }
}

// The line that a part of the input is, if it is one letter with as many fields as that has.
fn line_of<'a>(whole: Part<'a>) -> Option<Line<'a>>
    ensures { MatchOption result (has_form (parts (bytes_of whole.entry)) ≡ false) (λ line.
        IsLine whole.entry line) }
{
    let (head, rest) = whole.cut();
    match head.bytes {
        [byte] => with_fields(*byte, rest),
        _ => None,
    }
}

impl<'a> Line<'a> {
    // The line that a part of the input is, or the breach of the rule on letters and fields.
    pub fn split(whole: Part<'a>) -> Result<Line<'a>, Fault>
        ensures answer { SplitsLine whole.entry result }
        ensures own_bytes { (input : List ℕ) → StandsIn input whole.entry →
            IfOk result (λ line. AllStandIn input (fields line)) }
    {
        line_of(whole).ok_or(whole.spot.fault(Rule::Form))
    }
}
