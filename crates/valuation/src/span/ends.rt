// The two ends of a span.
ghost use Rattle.std.specs.Prelude.{◌≡◌};
ghost use Rattle.std.specs.Int.{int_min, int_max};

#[derive(Clone, Copy, PartialEq, Eq, Debug)]
pub struct Ends {
    pub least: i64,
    pub greatest: i64,
}

impl Ends {
    ghost use Rattle.valuation.specs.SpanOperations.{widest};

    // The span from the lower to the higher of two spans' ends.
    pub(crate) fn widened_by(self, other: Ends) -> Ends
        ensures { result ≡ record {
          least = int_min self.least other.least;
          greatest = int_max self.greatest other.greatest;
        } }
    {
        Ends {
            least: self.least.min(other.least),
            greatest: self.greatest.max(other.greatest),
        }
    }

    // The same from what has come so far, if anything has.
    pub(crate) fn widened_from(self, so_far: Option<Ends>) -> Ends
        ensures { result ≡ widest so_far self }
    {
        match so_far {
            Some(ends) => ends.widened_by(self),
            None => self,
        }
    }
}
