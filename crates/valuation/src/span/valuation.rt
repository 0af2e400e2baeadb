// The span as a valuation: figures are pairs of ends, and a join goes over what follows moves that
// have a share.
ghost use Rattle.std.specs.Prelude.{◌≡◌, ◌≤◌, pos, ◌+ℤ◌, ◌*ℤ◌};
ghost use Rattle.std.proofs.Common.{rules};
ghost use Rattle.units.specs.Ranges.{million};
ghost use Rattle.valuation.specs.Means.{rounded_discount, LawfulFigure};
ghost use Rattle.valuation.specs.SpanOperations.{span, span_ends, LawfulEnds};
ghost use Rattle.valuation.specs.SpanOrders.{span_told_by_ends, span_ordered};

use crate::Valuation;
use crate::mean::Mean;
use crate::span::ends::Ends;
use crate::year::ExactYear;
use basis::Basis;
use plan::Plan;
use units::premium::Premium;

#[derive(Clone, Copy)]
pub struct Span;

impl Valuation for Span {
    type Figure = Ends;

    ghost operations = { λ _. span };

    ghost ends = { span_ends };

    ghost told_by_ends = { span_told_by_ends };

    ghost ordered = { λ s. span_ordered };

    ghost fits = { Prim.search rules };

    fn make(&self, amount: i64) -> Ends {
        Ends {
            least: amount,
            greatest: amount,
        }
    }

    fn add(&self, figure: Ends, amount: i64) -> Ends
        ensures meaning { result ≡ span.add figure amount }
        ensures formula { LawfulEnds figure → LawfulFigure amount → result ≡ record {
          least = figure.least +ℤ amount;
          greatest = figure.greatest +ℤ amount;
        } }
    {
        Ends {
            least: Mean.add(figure.least, amount),
            greatest: Mean.add(figure.greatest, amount),
        }
    }

    fn join(&self, _state: usize, row: &[u32], following: &[Ends]) -> Ends {
        let mut hull: Option<Ends> = None;
        for (share, ends) in row.iter().zip(following.iter()) {
            if *share > 0 {
                hull = match hull {
                    Some(so_far) => Some(so_far.widened_by(*ends)),
                    None => Some(*ends),
                };
            }
        }
        hull.unwrap_or(self.make(0))
    }

    // Where it can be told that nothing saturates, as in every sweep.
    fn fill_at_once<B: Basis, P: Plan>(
        &self,
        basis: &B,
        plan: &P,
        premium: Premium,
        year: usize,
        after: &[Ends],
        figures: &mut [Ends],
    ) -> bool {
        match ExactYear::new(basis, plan, premium, year, after) {
            Some(exact) => {
                exact.fill(figures);
                true
            }
            None => false,
        }
    }

    fn discount(&self, factor: u32, figure: Ends) -> Ends
        ensures meaning { result ≡ span.discount factor figure }
        ensures formula { factor ≤ million → LawfulEnds figure → result ≡ record {
          least = rounded_discount (pos factor *ℤ figure.least);
          greatest = rounded_discount (pos factor *ℤ figure.greatest);
        } }
    {
        Ends {
            least: Mean.discount(factor, figure.least),
            greatest: Mean.discount(factor, figure.greatest),
        }
    }
}
