// Parts of a line, which stand between semicolons.
ghost use Rattle.std.specs.Prelude.{◌≡◌, ◌+◌, ◌≢◌, [], ◌∷◌, length, MatchOption, IfSome};
ghost use Rattle.sheet.specs.Lines.{parts, further};
ghost use Rattle.sheet.specs.Fields.{bytes_of, parts_left, AreFields};

use super::Part;
use crate::search::first_place;
use crate::spot::Spot;

impl<'a> Part<'a> {
    // What stands before the first semicolon, and what stands after it.
    pub(crate) fn cut(self) -> (Part<'a>, Option<Part<'a>>)
        ensures parts { parts (bytes_of self.entry) ≡ bytes_of result.0 ∷ parts_left result.1 }
        ensures first { result.0.spot ≡ self.entry.spot }
        ensures rest { IfSome result.1 (λ rest.
            rest.spot ≡ further self.entry.spot (length (bytes_of result.0) + 1)) }
    {
        let Spot { line, offset } = self.spot;
        match first_place(self.bytes, b';') {
            Some(end) => {
                let first = Part {
                    bytes: &self.bytes[..end],
                    spot: self.spot,
                };
                let spot = Spot {
                    line,
                    offset: offset + end + 1,
                };
                let rest = Part {
                    bytes: &self.bytes[end + 1..],
                    spot,
                };
                (first, Some(rest))
            }
            None => (self, None),
        }
    }

    // All fields, if there are two.
    pub(crate) fn two(self) -> Option<(Part<'a>, Part<'a>)>
        ensures { MatchOption result (length (parts (bytes_of self.entry)) ≢ 2) (λ fields.
            AreFields self.entry (fields.0 ∷ fields.1 ∷ [])) }
    {
        let (first, rest) = self.cut();
        let (second, rest) = rest?.cut();
        match rest {
            Some(_) => None,
            None => Some((first, second)),
        }
    }

    // All fields, if there are three.
    pub(crate) fn three(self) -> Option<(Part<'a>, Part<'a>, Part<'a>)>
        ensures { MatchOption result (length (parts (bytes_of self.entry)) ≢ 3) (λ fields.
            AreFields self.entry (fields.0 ∷ fields.1 ∷ fields.2 ∷ [])) }
    {
        let (first, rest) = self.cut();
        let (second, third) = rest?.two()?;
        Some((first, second, third))
    }

    // All fields, if there are four.
    pub(crate) fn four(self) -> Option<(Part<'a>, Part<'a>, Part<'a>, Part<'a>)>
        ensures { MatchOption result (length (parts (bytes_of self.entry)) ≢ 4) (λ fields.
            AreFields self.entry (fields.0 ∷ fields.1 ∷ fields.2 ∷ fields.3 ∷ [])) }
    {
        let (first, rest) = self.cut();
        let (second, third, fourth) = rest?.three()?;
        Some((first, second, third, fourth))
    }
}
