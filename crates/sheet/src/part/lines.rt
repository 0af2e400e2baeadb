// The lines of the input.
ghost use Rattle.std.specs.Prelude.{◌≡◌, ℕ, List, IfOk};
ghost use Rattle.sheet.specs.Fields.{bytes_of, StandsIn};
ghost use Rattle.sheet.specs.Lines.{start};
ghost use Rattle.sheet.specs.Outcomes.{CutsLine};

use super::Part;
use crate::search::first_place;
use crate::spot::Spot;
use units::fault::Fault;
use units::rule::Rule;

// The most bytes of a line, its line feed counted.
const MOST_BYTES: usize = 40;

impl<'a> Part<'a> {
    // The whole input.
    pub fn new(bytes: &'a [u8]) -> Part<'a>
        ensures bytes { bytes_of result ≡ bytes.now }
        ensures spot { result.spot ≡ start }
        ensures own_bytes { StandsIn bytes.now result }
    {
        let spot = Spot { line: 1, offset: 0 };
        Part { bytes, spot }
    }

    pub fn bytes(self) -> &'a [u8]
        ensures { result.now ≡ bytes_of self.entry }
    {
        self.bytes
    }

    pub fn spot(self) -> Spot
        ensures { result ≡ self.entry.spot }
    {
        self.spot
    }

    // The first line without its line feed, and what stands after that.
    pub fn first_line(self) -> Result<(Part<'a>, Part<'a>), Fault>
        ensures answer { CutsLine self.entry result }
        ensures own_bytes { (input : List ℕ) → StandsIn input self.entry →
            IfOk result (λ parts. StandsIn input parts.0 × StandsIn input parts.1) }
    {
        let bytes = self.bytes;
        let in_time = &bytes[..bytes.len().min(MOST_BYTES)];
        let Some(end) = first_place(in_time, b'\n') else {
            return Err(self.spot.fault(Rule::LineFeed));
        };
        let spot = Spot {
            line: self.spot.line + 1,
            offset: self.spot.offset + end + 1,
        };
        let line = Part {
            bytes: &bytes[..end],
            spot: self.spot,
        };
        let rest = Part {
            bytes: &bytes[end + 1..],
            spot,
        };
        Ok((line, rest))
    }
}
