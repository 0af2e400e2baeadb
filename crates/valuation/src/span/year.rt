// The span of a year in which nothing has to saturate.
ghost use Rattle.std.specs.Prelude.{◌≡◌, ◌≤◌, length, pos};
ghost use Rattle.std.proofs.Props.{props};
ghost use Rattle.units.specs.Ranges.{limit};
ghost use Rattle.valuation.specs.Figures.{joined_from, figure_from, figures_from};
ghost use Rattle.valuation.specs.Room.{AreRoomy, noughts_are_roomy};
ghost use Rattle.valuation.specs.SpanOperations.{span, nought, EndsWithin};

use crate::flow::flow_of;
use crate::rooms::Rooms;
use crate::span::ends::Ends;
use crate::within::{Roomy, brought_back};
use crate::year::ExactYear;
use basis::Basis;
use plan::Plan;
use units::premium::Premium;

impl Roomy for Ends {
    ghost leaves_room = { AreRoomy };

    ghost is_fact = { λ figure. Prim.hlevel props };

    ghost nothing = { nought };

    ghost nothing_leaves_room = { noughts_are_roomy };

    fn is_roomy(self) -> bool {
        self.least.is_roomy() && self.greatest.is_roomy()
    }
}

// Both ends with an amount more.
fn raised(ends: Ends, amount: u64) -> Ends
    requires ends { AreRoomy ends }
    requires amount { amount ≤ limit }
    ensures value { result ≡ span.add ends (pos amount) }
    ensures range { EndsWithin 4590000000000 result }
{
    Ends {
        least: ends.least + amount as i64,
        greatest: ends.greatest + amount as i64,
    }
}

impl<'a, B: Basis, P: Plan> ExactYear<'a, Ends, B, P> {
    // The join of what follows a state: from the least to the greatest after a move with a share.
    fn joined(&self, state: usize, rooms: &mut Rooms) -> Ends
        ensures value { result ≡ joined_from span (B.meaning self.now.basis.now)
            (P.payments self.now.plan.now) state self.now.year self.now.after.now }
        ensures range { EndsWithin 4590000000000 result }
    {
        let row = self.basis.row(state, self.year, &mut rooms.shares);
        let benefits = self
            .plan
            .move_benefits(state, self.year, &mut rooms.amounts);
        let mut hull: Option<Ends> = None;
        for to in 0..self.after.len() {
            if row[to] > 0 {
                let ends = raised(self.after[to], benefits[to].ticks());
                hull = Some(ends.widened_from(hull));
            }
        }
        hull.unwrap_or(Ends {
            least: 0,
            greatest: 0,
        })
    }

    fn figure(&self, state: usize, factor: u32, rooms: &mut Rooms) -> Ends
        requires { factor ≡ (B.meaning self.now.basis.now).factor self.now.year }
        ensures { result ≡ figure_from span (B.meaning self.now.basis.now)
            (P.payments self.now.plan.now) self.now.premium.ticks state self.now.year
            self.now.after.now }
    {
        let flow = flow_of(self.basis, self.plan, self.premium, state, self.year);
        let joined = self.joined(state, rooms);
        Ends {
            least: brought_back(factor, joined.least, flow),
            greatest: brought_back(factor, joined.greatest, flow),
        }
    }

    // The figures of the first states.
    pub(super) fn fill(&self, figures: &mut [Ends])
        ensures { figures.new ≡ figures_from span (B.meaning self.now.basis.now)
            (P.payments self.now.plan.now) self.now.premium.ticks self.now.year self.now.after.now
            (length figures.old) }
    {
        let mut rooms = Rooms::new();
        let factor = self.basis.factor(self.year);
        for (state, figure) in figures.iter_mut().enumerate() {
            *figure = self.figure(state, factor, &mut rooms);
        }
    }
}
