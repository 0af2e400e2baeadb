// The mean of a year in which nothing has to saturate.
ghost use Rattle.std.specs.Prelude.{◌≡◌, ◌≤◌, length, pos, ◌+ℤ◌, ◌*ℤ◌};
ghost use Rattle.units.specs.Near.{Within};
ghost use Rattle.units.specs.Ranges.{million, limit};
ghost use Rattle.valuation.specs.Figures.{joined_from, figure_from, figures_from};
ghost use Rattle.valuation.specs.Means.{mean};
ghost use Rattle.valuation.specs.Room.{IsRoomy};

use crate::flow::flow_of;
use crate::rooms::Rooms;
use crate::rounding::round_near_mean;
use crate::within::brought_back;
use crate::year::ExactYear;
use basis::Basis;
use plan::Plan;
use units::premium::Premium;

// A sum with one more part in it, of a figure that is raised by an amount.
fn add_move(sum: i64, share: u32, figure: i64, amount: u64) -> i64
    requires share { share ≤ million }
    requires figure { IsRoomy figure }
    requires amount { amount ≤ limit }
    requires room { Within 4600000000000000000 (sum +ℤ pos share *ℤ (pos amount +ℤ figure)) }
    ensures { result ≡ sum +ℤ pos share *ℤ (pos amount +ℤ figure) }
{
    sum + i64::from(share) * (amount as i64 + figure)
}

impl<'a, B: Basis, P: Plan> ExactYear<'a, i64, B, P> {
    // The join of what follows a state: products with shares, added up and rounded.
    fn joined(&self, state: usize, rooms: &mut Rooms) -> i64
        ensures value { result ≡ joined_from mean (B.meaning self.now.basis.now)
            (P.payments self.now.plan.now) state self.now.year self.now.after.now }
        ensures range { Within 4590000000000 result }
    {
        let row = self.basis.row(state, self.year, &mut rooms.shares);
        let benefits = self
            .plan
            .move_benefits(state, self.year, &mut rooms.amounts);
        let mut sum = 0i64;
        for to in 0..self.after.len() {
            sum = add_move(sum, row[to], self.after[to], benefits[to].ticks());
        }
        round_near_mean(sum)
    }

    fn figure(&self, state: usize, factor: u32, rooms: &mut Rooms) -> i64
        requires { factor ≡ (B.meaning self.now.basis.now).factor self.now.year }
        ensures { result ≡ figure_from mean (B.meaning self.now.basis.now)
            (P.payments self.now.plan.now) self.now.premium.ticks state self.now.year
            self.now.after.now }
    {
        let flow = flow_of(self.basis, self.plan, self.premium, state, self.year);
        brought_back(factor, self.joined(state, rooms), flow)
    }

    // The figures of the first states.
    pub(super) fn fill(&self, figures: &mut [i64])
        ensures { figures.new ≡ figures_from mean (B.meaning self.now.basis.now)
            (P.payments self.now.plan.now) self.now.premium.ticks self.now.year self.now.after.now
            (length figures.old) }
    {
        let mut rooms = Rooms::new();
        let factor = self.basis.factor(self.year);
        for (state, figure) in figures.iter_mut().enumerate() {
            *figure = self.figure(state, factor, &mut rooms);
        }
    }
}
